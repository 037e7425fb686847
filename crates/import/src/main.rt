// Imports the text that comes from standard input, lines of numbers with commas between them, as a roll: `./run import < TEXT > ROLL` (02, Q-14).
//
// Where the text is refused, the line of the refusal comes in place of the roll.
#![tactic(auto)]

ghost use Rattle.std.specs.Prelude.{◌≡◌, ◌<◌, ◌↔◌, length, take, IsSome, IfSome};

use importing::ImportFault;
use kind::Refusal;
use std::io;
use std::io::Input;
use streams::{read_behind, read_full, write_front};

// The bytes of the buffer that a text usually goes through; one that has as many may have more. A roll has fewer bytes than its text.
const ROOM: usize = 1048576;
// The bytes of the longest text that a roll has (`exporting` Room.export-most). More are refused 6, and nothing of them is judged.
const MOST_TEXT: usize = 90177484;
// One more, so that a text that fills the buffer is known to be longer.
const LARGE_TEXT: usize = MOST_TEXT + 1;
// More bytes than any roll has.
const LARGE: usize = 33554432;
// The bytes of a refusal's line, and more.
const LINE: usize = 64;

// A refusal's line.
fn say_refused(rt: &impl Print, fault: ImportFault) -> io::Result<()> {
    let mut text = [0; LINE];
    let n = importing::refusal_line(u8::from(fault.refusal), fault.line, &mut text, 0).unwrap_or(0);
    write_front(&mut io::writer(rt), &text, n)
}

// The roll of a text, or its refusal, by way of a buffer of so many bytes.
fn answer(rt: &(impl Print + Alloc), text: &[u8], room: usize) -> io::Result<()> {
    let mut out = vec![in rt.alloc(); 0u8; room]?;
    match importing::import(text, &mut out, 0) {
        Ok(roll) => write_front(&mut io::writer(rt), &out, roll.length),
        Err(fault) => say_refused(rt, fault),
    }
}

// The text of so many bytes of a buffer; none where it fills the buffer, since it is then longer than any that a roll has.
fn whole(bytes: &[u8], n: usize) -> Option<&[u8]>
    ensures shorter { IsSome result ↔ n < length bytes.now }
    ensures text { IfSome result (λ text. text.now ≡ take n bytes.now) }
{
    if bytes.len() <= n {
        return None;
    }
    Some(&bytes[..n])
}

// The answer by way of larger buffers, for a text that begins so.
fn in_large(rt: &(impl Input + Print + Alloc), first: &[u8]) -> io::Result<()> {
    let mut bytes = vec![in rt.alloc(); 0u8; LARGE_TEXT]?;
    let n = read_behind(&mut rt.reader(), &mut bytes, first)?;
    let Some(text) = whole(&bytes, n) else {
        let refusal = Refusal::NoRoom;
        return say_refused(rt, ImportFault { refusal, line: 0 });
    };
    answer(rt, text, LARGE)
}

fn main(rt: HostRuntime) -> io::Result<()> {
    let mut first = vec![in rt.alloc(); 0u8; ROOM]?;
    let n = read_full(&mut rt.reader(), &mut first)?;
    if n == ROOM {
        return in_large(&rt, &first);
    }
    answer(&rt, &first[..n], ROOM)
}
