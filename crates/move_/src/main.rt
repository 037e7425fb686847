// Moves the roll that comes from standard input to the other form, which goes to standard output: `./run move < ROLL` (D-95).
//
// A refusal writes nothing there and one line to standard error.
#![tactic(auto)]

use form2::Moved;
use kind::{Fault, Refusal};
use std::io;
use std::io::Input;
use streams::{read_behind, read_full, write_front};

// The bytes of the buffer that a roll usually goes through; one that has as many may have more.
const ROOM: usize = 1048576;
// The bytes of the larger one: more than any roll has.
const LARGE: usize = 33554432;

// A refusal's line, with the words of the roll's rules.
fn say_refused(rt: &impl Eprint, fault: Fault) -> io::Result<()> {
    let Fault { refusal, place } = fault;
    let number = u8::from(refusal);
    let why = why(refusal);
    eprintln!(rt; "refused {number} at {place}{why}")
}

fn why(refusal: Refusal) -> &'static str {
    match refusal {
        Refusal::BadRoll => ": roll breaks a rule",
        Refusal::CutRoll => ": the roll ends before a number does",
        _ => "",
    }
}

// The roll in its other form. What form 1's reader refuses at its first number is moved as a roll of form 2.
fn moved(roll: &[u8], out: &mut [u8]) -> Result<Moved, Fault> {
    match form2::to_form2(roll, out, 0) {
        Err(
            Fault {
                refusal: Refusal::BadRoll,
                place: 0,
            },
        ) => form2::to_form1(roll, out, 0),
        told => told,
    }
}

// The refusal of a roll by way of a buffer of so many bytes; none where its other form is written out.
fn answer(rt: &(impl Print + Alloc), roll: &[u8], room: usize) -> io::Result<Option<Fault>> {
    let mut out = vec![in rt.alloc(); 0u8; room]?;
    match moved(roll, &mut out) {
        Ok(told) => {
            write_front(&mut io::writer(rt), &out, told.length)?;
            Ok(None)
        }
        Err(fault) => Ok(Some(fault)),
    }
}

// The answer by way of larger buffers, for a roll that begins so.
fn in_large(rt: &(impl Input + Print + Eprint + Alloc), first: &[u8]) -> io::Result<()> {
    let mut bytes = vec![in rt.alloc(); 0u8; LARGE]?;
    let n = read_behind(&mut rt.reader(), &mut bytes, first)?;
    match answer(rt, &bytes[..n], LARGE)? {
        Some(fault) => say_refused(rt, fault),
        None => Ok(()),
    }
}

fn main(rt: HostRuntime) -> io::Result<()> {
    let mut first = vec![in rt.alloc(); 0u8; ROOM]?;
    let n = read_full(&mut rt.reader(), &mut first)?;
    if n == ROOM {
        return in_large(&rt, &first);
    }
    match answer(&rt, &first[..n], ROOM)? {
        Some(
            Fault {
                refusal: Refusal::NoRoom,
                ..
            },
        ) => in_large(&rt, &first[..n]),
        Some(fault) => say_refused(&rt, fault),
        None => Ok(()),
    }
}
