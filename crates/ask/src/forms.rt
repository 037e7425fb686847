// The forms of answers: a table with a line for each. A letter stands for itself; a mark, for what the answer tells.
ghost use Rattle.std.specs.Prelude.{◌<◌};

use crate::{answers, output};
use answers::Form;
use kind::Kind;
use std::io;
use std::io::Write;

// The most numbers of an answer.
pub(crate) const NUMBERS: usize = 4;
// The most bytes that an answer has by itself: the orders of a roll or the prefactors of a term.
pub(crate) const OWN: usize = Kind::PREFACTORS;

// What an answer tells: its form's number, the numbers for the form's marks, its own bytes and how many they are, the
// entries of a table, where the bytes that were lent start and how many they are, how many floats stand first, and how many
// others follow.
#[derive(Clone, Copy)]
pub(crate) struct Told {
    pub(crate) form: Form,
    pub(crate) numbers: [u64; NUMBERS],
    pub(crate) own: [u8; OWN],
    pub(crate) count: usize,
    pub(crate) entries: [f64; Kind::TABLE],
    pub(crate) start: usize,
    pub(crate) long: usize,
    pub(crate) first: usize,
    pub(crate) others: usize,
}

// Prints an answer. `line` is what it answers.
pub(crate) fn print<W: Write>(
    table: &[u8],
    t: Told,
    line: &[u8],
    bytes: &[u8],
    floats: &[f64],
    out: &mut W,
) -> io::Result<()> {
    let mut k = 0;
    let mut i = form_start(table, t.form as usize);
    while i < table.len() {
        output::run(table[i], k, t, line, bytes, floats, out)?;
        k = counted(table[i], k);
        i = on(table[i], i, table.len());
    }
    Ok(())
}

// Where the form with this number begins; the table's end where there is none.
fn form_start(table: &[u8], form: usize) -> usize {
    let mut left = form;
    let mut i = 0;
    while i < table.len() {
        if left == 0 {
            return i;
        }
        left = less(table[i], left);
        i += 1;
    }
    i
}

// A form ends in a line feed (D-49).
fn less(letter: u8, left: usize) -> usize {
    if letter == b'\n' {
        left.saturating_sub(1)
    } else {
        left
    }
}

// The next letter; the table's end after a line feed.
fn on(letter: u8, i: usize, all: usize) -> usize
    requires { i < all }
    ensures { i < result }
{
    if letter == b'\n' {
        return all;
    }
    i + 1
}

// How many numbers are told after a letter.
fn counted(letter: u8, k: usize) -> usize {
    if NUMBERS <= k {
        return k;
    }
    match letter {
        b'#' | b'$' => k + 1,
        _ => k,
    }
}
