// Exports the roll that comes from standard input, as lines of numbers with commas between them: `./run export < ROLL > TEXT` (02, Q-14).
//
// Where the roll is refused, the line of the refusal comes in place of the text, as `list` writes it.
#![tactic(auto)]

use kind::{Fault, Refusal};
use std::io;
use std::io::Input;
use streams::{read_behind, read_full, write_front};

// The bytes of the buffer that a roll usually goes through; one that has as many may have more.
const ROOM: usize = 1048576;
// The bytes of the larger one: more than any roll has. What comes beyond them is never looked at: the roll is refused before it.
const LARGE: usize = 33554432;
// The bytes of the text of a usual roll: a byte of a roll gives at most three of its text.
const TEXT: usize = 3 * ROOM;
// The bytes of any text, 90,177,484 at most, with some to spare.
const LARGE_TEXT: usize = 90 * ROOM;
// The bytes of a refusal's line, and more.
const LINE: usize = 64;

// A refusal's line.
fn say_refused(rt: &impl Print, fault: Fault) -> io::Result<()> {
    let mut text = [0; LINE];
    let n = listing::refusal_line(u8::from(fault.refusal), fault.place, &mut text, 0).unwrap_or(0);
    write_front(&mut io::writer(rt), &text, n)
}

// The refusal of a roll by way of a buffer of so many bytes; none where its text is written out.
fn answer(rt: &(impl Print + Alloc), roll: &[u8], room: usize) -> io::Result<Option<Fault>> {
    let mut text = vec![in rt.alloc(); 0u8; room]?;
    match exporting::export(roll, &mut text, 0) {
        Ok(n) => {
            write_front(&mut io::writer(rt), &text, n)?;
            Ok(None)
        }
        Err(fault) => Ok(Some(fault)),
    }
}

// The answer by way of larger buffers, for a roll that begins so.
fn in_large(rt: &(impl Input + Print + Alloc), first: &[u8]) -> io::Result<()> {
    let mut bytes = vec![in rt.alloc(); 0u8; LARGE]?;
    let n = read_behind(&mut rt.reader(), &mut bytes, first)?;
    match answer(rt, &bytes[..n], LARGE_TEXT)? {
        Some(fault) => say_refused(rt, fault),
        None => Ok(()),
    }
}

fn main(rt: HostRuntime) -> io::Result<()> {
    let mut first = vec![in rt.alloc(); 0u8; ROOM]?;
    let n = read_full(&mut rt.reader(), &mut first)?;
    if n == ROOM {
        return in_large(&rt, &first);
    }
    match answer(&rt, &first[..n], TEXT)? {
        Some(
            Fault {
                refusal: Refusal::NoRoom,
                ..
            },
        ) => in_large(&rt, &first[..n]),
        Some(fault) => say_refused(&rt, fault),
        None => Ok(()),
    }
}
