// Works out afresh the roll that comes damaged from standard input: `./run salvage < ROLL > FRESH` (02, Q-8; D-101).
//
// The fresh roll goes to standard output, in the form of the damaged one; one line to standard error tells what was kept of
// it. A refusal writes nothing and tells its line there instead.
#![tactic(auto)]

use kind::{Fault, Refusal};
use salvaging::{After, Told};
use std::io;
use std::io::Input;
use streams::{read_behind, read_full, write_front};

// The bytes of the buffer that a roll usually goes through; one that has as many may have more.
const ROOM: usize = 1048576;
// The bytes of the larger one: more than any roll has.
const LARGE: usize = 33554432;

fn why(refusal: Refusal) -> &'static str {
    match refusal {
        Refusal::TooManyTerms => ": more than 1,048,575 complete histories",
        Refusal::BadRoll => ": roll breaks a rule",
        Refusal::CutRoll => ": the roll ends before a number does",
        _ => "",
    }
}

// A refusal's line; 7 and 14 have a place.
fn say_refused(rt: &impl Eprint, fault: Fault) -> io::Result<()> {
    let Fault { refusal, place } = fault;
    let number = u8::from(refusal);
    let why = why(refusal);
    match refusal {
        Refusal::BadRoll | Refusal::CutRoll => eprintln!(rt; "refused {number} at {place}{why}"),
        _ => eprintln!(rt; "refused {number}{why}"),
    }
}

fn count_word(other: bool) -> &'static str {
    if other { "other" } else { "same" }
}

fn after_word(after: After) -> &'static str {
    match after {
        After::Unknown => "unknown",
        After::None => "none",
        After::Bytes => "bytes",
    }
}

// The line of a salvaged roll.
fn say_told(rt: &impl Eprint, told: Told) -> io::Result<()> {
    let Told {
        length,
        terms,
        kept,
        anew,
        miscounted,
        after,
    } = told;
    let count = count_word(miscounted);
    let after = after_word(after);
    eprintln!(rt;
        "salvaged {length} bytes, terms {terms}: kept {kept}, anew {anew}, count {count}, after {after}"
    )
}

// The refusal of a roll by way of a buffer of so many bytes; none where its fresh roll is written out, and what was kept told.
fn answer(
    rt: &(impl Print + Eprint + Alloc),
    roll: &[u8],
    room: usize,
) -> io::Result<Option<Fault>> {
    let mut out = vec![in rt.alloc(); 0u8; room]?;
    match salvaging::salvage(roll, &mut out, 0) {
        Ok(told) => {
            write_front(&mut io::writer(rt), &out, told.length)?;
            say_told(rt, told)?;
            Ok(None)
        }
        Err(fault) => Ok(Some(fault)),
    }
}

// The answer by way of larger buffers, for a roll that begins so.
fn in_large(rt: &(impl Input + Print + Eprint + Alloc), first: &[u8]) -> io::Result<()> {
    let mut bytes = vec![in rt.alloc(); 0u8; LARGE]?;
    let n = read_behind(&mut rt.reader(), &mut bytes, first)?;
    match answer(rt, &bytes[..n], LARGE)? {
        Some(fault) => say_refused(rt, fault),
        None => Ok(()),
    }
}

fn main(rt: HostRuntime) -> io::Result<()> {
    let mut first = vec![in rt.alloc(); 0u8; ROOM]?;
    let n = read_full(&mut rt.reader(), &mut first)?;
    if n == ROOM {
        return in_large(&rt, &first);
    }
    match answer(&rt, &first[..n], ROOM)? {
        Some(
            Fault {
                refusal: Refusal::NoRoom,
                ..
            },
        ) => in_large(&rt, &first[..n]),
        Some(fault) => say_refused(&rt, fault),
        None => Ok(()),
    }
}
