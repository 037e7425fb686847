// Lists the roll that comes from standard input, or tells why it is refused.
#![tactic(auto)]

ghost use Rattle.std.specs.Prelude.{◌≤◌, length, OnOk};
ghost use Rattle.std.specs.Io.KnownBytes.{Appends};
ghost use Rattle.kind.specs.Refusals.{refusal_number};
ghost use Rattle.listing.specs.Text.{refusal_text};
ghost use Rattle.list.specs.Output.{output_of};
ghost use Rattle.list.specs.inner.Room.{text_room, Holds};

use kind::{Fault, Kind, Refusal};
use std::io;
use std::io::Write;
use streams::read_full;

// A longest roll, and a byte more that shows a longer one.
const INPUT: usize = Kind::MOST_LISTED + 1;
// The text of a longest roll: a byte of a roll gives at most five of its listing.
const TEXT: usize = 5 * Kind::MOST_LISTED;

fn refused(refusal: Refusal, place: usize, text: &mut [u8]) -> usize
    requires { text_room ≤ length text.old }
    ensures { Holds text.new result (refusal_text (refusal_number refusal) place) }
{
    match listing::refusal_line(u8::from(refusal), place, text, 0) {
        Ok(n) => n,
        Err(_) => 0,
    }
}

// How many bytes of text say what is to be said of a roll.
fn told(roll: &[u8], text: &mut [u8]) -> usize
    requires { text_room ≤ length text.old }
    ensures { Holds text.new result (output_of roll.now) }
{
    match listing::listing(roll, text, 0) {
        Ok(n) => n,
        Err(Fault { refusal, place }) => refused(refusal, place, text),
    }
}

fn show<W: Write>(out: &mut W, roll: &[u8], text: &mut [u8]) -> io::Result<()>
    requires { text_room ≤ length text.old }
    ensures { OnOk result (Appends (W.contents out.old) (W.contents out.new) (output_of roll.now)) }
{
    let n = told(roll, text);
    out.write_all(&text[0..n])
}

fn main(rt: HostRuntime) -> io::Result<()> {
    let mut bytes = vec![in rt.alloc(); 0u8; INPUT]?;
    let mut text = vec![in rt.alloc(); 0u8; TEXT]?;
    let n = read_full(&mut rt.stdin(), &mut bytes)?;
    show(&mut rt.stdout(), &bytes[0..n], &mut text)
}
