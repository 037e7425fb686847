// The letters of an answer, each written to a writer that keeps them until they go out.
ghost use Rattle.std.specs.Prelude.{◌≤◌, length};

use crate::{floats, forms, questions};
use forms::{NUMBERS, Told};
use kind::Kind;
use questions::{least, sum};
use std::io;
use std::io::Write;

// More bytes than one number or letter takes.
const PIECE: usize = 32;

// How many bytes of a piece are written: none where it had no room.
fn end(piece: &[u8], written: Option<usize>) -> usize
    ensures { result ≤ length piece.now }
{
    least(written.unwrap_or(0), piece.len())
}

// What stands for a letter of a form, where `k` numbers are told. # is a number, $ one in sixteen
// hexadecimal digits; % the bytes that were lent in hexadecimal, | as a text; & the answer's own in hexadecimal, ~ in
// decimal, each after a blank; * the entries of a table, < the floats that stand first, > the others, each after a blank;
// ^ the line. At ! what waits goes out.
pub(crate) fn run<W: Write>(
    letter: u8,
    k: usize,
    t: Told,
    line: &[u8],
    bytes: &[u8],
    floats: &[f64],
    out: &mut W,
) -> io::Result<()> {
    for i in 0..times(letter, t, line.len()) {
        let v = value(letter, k, t, line, bytes, floats, i);
        place(letter, out)?;
        unit(letter, v, out)?;
    }
    Ok(())
}

// How many values stand for a letter.
fn times(letter: u8, t: Told, line: usize) -> usize {
    match letter {
        b'%' | b'|' => t.long,
        b'&' | b'~' => t.count,
        b'*' => Kind::TABLE,
        b'<' => t.first,
        b'>' => t.others,
        b'^' => line,
        _ => 1,
    }
}

// The value with a number of those that stand for a letter. A text has a vertical bar for each line feed (D-52).
fn value(
    letter: u8,
    k: usize,
    t: Told,
    line: &[u8],
    bytes: &[u8],
    floats: &[f64],
    i: usize,
) -> u64 {
    let numbers = t.numbers;
    let own = t.own;
    let entries = t.entries;
    match letter {
        b'#' | b'$' => number_at(numbers, k),
        b'&' | b'~' => byte_at(&own, i) as u64,
        b'%' => byte_at(bytes, sum(t.start, i)) as u64,
        b'|' => bar(byte_at(bytes, sum(t.start, i))) as u64,
        b'*' => bits_at(&entries, i),
        b'<' => bits_at(floats, i),
        b'>' => bits_at(floats, sum(t.first, i)),
        b'^' => bar(byte_at(line, i)) as u64,
        _ => letter as u64,
    }
}

fn number_at(numbers: [u64; NUMBERS], k: usize) -> u64 {
    if k < NUMBERS { numbers[k] } else { 0 }
}

fn byte_at(bytes: &[u8], i: usize) -> u8 {
    bytes.get(i).copied().unwrap_or(0)
}

fn bits_at(floats: &[f64], i: usize) -> u64 {
    if i < floats.len() {
        floats::bits(floats[i])
    } else {
        0
    }
}

fn bar(byte: u8) -> u8 {
    if byte == b'\n' { b'|' } else { byte }
}

// The blank that some letters ask for before a value.
fn place<W: Write>(letter: u8, out: &mut W) -> io::Result<()> {
    match letter {
        b'~' | b'*' | b'<' | b'>' => out.write_all(b" "),
        _ => Ok(()),
    }
}

// One value of a letter. At ! what waits goes out.
fn unit<W: Write>(letter: u8, v: u64, out: &mut W) -> io::Result<()> {
    if letter == b'!' {
        return out.flush();
    }
    let mut piece = [0; PIECE];
    let w = spelled(letter, v, &mut piece);
    let n = end(&piece, w);
    out.write_all(&piece[..n])
}

// One value of a letter as text, at the front of a piece.
fn spelled(letter: u8, v: u64, piece: &mut [u8]) -> Option<usize> {
    match letter {
        b'#' | b'~' => text::decimal(piece, 0, v),
        b'$' | b'*' | b'<' | b'>' => text::hex_word(piece, 0, v),
        b'%' | b'&' => text::hex_byte(piece, 0, questions::byte(v)),
        _ => text::put(piece, 0, &[questions::byte(v)]),
    }
}
