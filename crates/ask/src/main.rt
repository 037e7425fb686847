// Answers the question language of docs/QUESTIONS.md: one line asks, one line answers.
//
// Questions come from standard input until it ends. `turns` has the shapes of questions and the forms of answers, `questions`
// calls the library.
#![tactic(auto)]

ghost use Rattle.std.specs.Prelude.{◌<◌};

mod answers;
mod compares;
mod expands;
mod floats;
mod forms;
mod lent;
mod lines;
mod lists;
mod matrices;
mod moves;
mod output;
mod questions;
mod rolls;
mod salvages;
mod shapes;
mod shells;
mod sums;
mod turns;
mod values;
mod words;

use lines::{Found, State};
use std::alloc::Global;
use std::io;
use std::io::{BufWriter, Read, Write};

// So much is read or written at once.
const AT_ONCE: usize = 65536;
// A longest line, and room to read on.
const INPUT: usize = lines::MOST_LINE + AT_ONCE;
// The most floats that a question can have: those of I and D.
const FLOATS: usize = matrices::MOST_TENSOR + matrices::MOST_MATRIX;

// Reads and answers until the input ends. A proved loop has to end, so it counts down from a number that no run uses up (D-55).
fn serve<R: Read, W: Write>(
    alloc: Global,
    from: &mut R,
    input: &mut [u8],
    given: &mut [u8],
    floats: &mut [f64],
    lent: &mut [u8],
    out: &mut W,
) -> io::Result<()> {
    let mut s = lines::carry(0, false);
    let mut turns = u64::MAX;
    while turns > 0 {
        s = lines::next(from, input, s);
        turns::turn(alloc, input, s, given, floats, lent, out)?;
        turns = left(s, turns);
    }
    Ok(())
}

fn left(s: State, turns: u64) -> u64
    requires { 0 < turns }
    ensures { result < turns }
{
    let found = s.found;
    match found {
        Found::Line | Found::Lost | Found::More => turns - 1,
        Found::End => 0,
    }
}

fn main(rt: HostRuntime) -> io::Result<()> {
    let alloc = rt.alloc();
    let mut input = vec![in alloc; 0; INPUT]?;
    let mut given = vec![in alloc; 0; lent::MOST]?;
    let mut floats = vec![in alloc; 0.0; FLOATS]?;
    let mut lent = vec![in alloc; 0; lent::MOST]?;
    let mut from = rt.stdin();
    let mut out = BufWriter::with_capacity(alloc, AT_ONCE, io::writer(&rt))?;
    serve(
        alloc,
        &mut from,
        &mut input,
        &mut given,
        &mut floats,
        &mut lent,
        &mut out,
    )
}
