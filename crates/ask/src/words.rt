// The words of a line. Each reader takes what is read so far, and answers it with one word more.
ghost use Rattle.std.specs.Prelude.{◌≤◌};

use crate::{floats, questions};
use kind::Kind;
use questions::sum;

// The numbers of a cursor.
pub(crate) const CURSOR: usize = 4;
// The most numbers of a question: those of a cursor, and the prefactors of the term before.
pub(crate) const NUMBERS: usize = CURSOR + Kind::PREFACTORS;
// The most of a number of 32 bits, as a charge is, and the most host numbers that a question has.
pub(crate) const MOST_WORD: u64 = 4294967295;

const MOST_HOST: u64 = 128;

// What is read of a line: its question's number, whether that is found, and a number for each word that the shape asks for. A
// roll's bytes and floats stand at the front of what was lent for them.
#[derive(Clone, Copy)]
pub(crate) struct Asked {
    pub(crate) question: usize,
    pub(crate) found: bool,
    pub(crate) misfit: bool,
    pub(crate) numbers: [u64; NUMBERS],
    pub(crate) count: usize,
    pub(crate) bytes: usize,
    pub(crate) floats: usize,
    pub(crate) at: usize,
}

// How many were read, and the place after them.
#[derive(Clone, Copy)]
struct Run {
    count: usize,
    end: usize,
}

// The line does not have this shape.
fn misfit(a: Asked) -> Asked {
    let mut b = a;
    b.misfit = true;
    b
}

// One number more, which ends at a place.
fn with(a: Asked, n: u64, end: usize) -> Asked {
    let mut b = a;
    let before = a.numbers;
    let numbers = put(before, a.count, n);
    b.numbers = numbers;
    b.count = after(a.count);
    b.at = end;
    b
}

// A number beyond the last place is left out.
fn put(numbers: [u64; NUMBERS], i: usize, n: u64) -> [u64; NUMBERS] {
    let mut all = numbers;
    if i < NUMBERS {
        all[i] = n;
    }
    all
}

pub(crate) fn after(n: usize) -> usize {
    n.saturating_add(1)
}

// The letter itself.
pub(crate) fn letter(line: &[u8], a: Asked, letter: u8) -> Asked {
    let at = a.at;
    if line.get(at) != Some(&letter) {
        return misfit(a);
    }
    let mut b = a;
    b.at = at + 1;
    b
}

// Whatever is left of the line.
pub(crate) fn rest(line: &[u8], a: Asked) -> Asked {
    let mut b = a;
    b.at = line.len();
    b
}

// A whole number up to `most`.
pub(crate) fn number(line: &[u8], a: Asked, most: u64) -> Asked {
    match text::read_decimal(line, a.at) {
        Some((n, end)) if n <= most => with(a, n, end),
        _ => misfit(a),
    }
}

// A number up to `most` after a blank, or nothing.
pub(crate) fn perhaps(line: &[u8], a: Asked, most: u64) -> Asked {
    let b = number(line, letter(line, a, b' '), most);
    if b.misfit {
        return a;
    }
    b
}

// A float by its bits in hexadecimal, after a blank, and the place after it (D-46).
fn read_float(line: &[u8], at: usize) -> Option<(f64, usize)> {
    if line.get(at) != Some(&b' ') {
        return None;
    }
    let (bits, end) = text::read_hex(line, at + 1)?;
    Some((floats::of_bits(bits), end))
}

// As many floats as stand there and have room.
fn read_floats(line: &[u8], at: usize, room: &mut [f64]) -> Run {
    let mut end = at;
    for count in 0..room.len() {
        let Some((x, next)) = read_float(line, end) else {
            return Run { count, end };
        };
        room[count] = x;
        end = next;
    }
    let count = room.len();
    Run { count, end }
}

// None or more floats, each after a blank, behind those that are read.
pub(crate) fn floats(line: &[u8], a: Asked, room: &mut [f64]) -> Asked {
    let first = a.floats;
    if room.len() < first {
        return misfit(a);
    }
    let run = read_floats(line, a.at, &mut room[first..]);
    let mut b = a;
    b.at = run.end;
    b.floats = sum(first, run.count);
    b
}

// One float more, which ends at a place.
fn added(a: Asked, x: f64, end: usize, room: &mut [f64]) -> Asked {
    let i = a.floats;
    if room.len() <= i {
        return misfit(a);
    }
    room[i] = x;
    let mut b = a;
    b.floats = i + 1;
    b.at = end;
    b
}

// A float after a blank.
pub(crate) fn one_float(line: &[u8], a: Asked, room: &mut [f64]) -> Asked {
    match read_float(line, a.at) {
        Some((x, end)) => added(a, x, end, room),
        None => misfit(a),
    }
}

// A charge after a blank, a whole number below 2^32. Among the floats it stands by its bits.
fn charge(line: &[u8], a: Asked, room: &mut [f64]) -> Asked {
    let b = letter(line, a, b' ');
    match text::read_decimal(line, b.at) {
        Some((n, end)) if n <= MOST_WORD => added(b, floats::of_bits(n), end, room),
        _ => misfit(b),
    }
}

fn two_floats(line: &[u8], a: Asked, room: &mut [f64]) -> Asked {
    let b = one_float(line, a, room);
    one_float(line, b, room)
}

// A centre: four floats and a charge.
pub(crate) fn centre(line: &[u8], a: Asked, room: &mut [f64]) -> Asked {
    let b = two_floats(line, a, room);
    let c = two_floats(line, b, room);
    charge(line, c, room)
}

// A primitive: a centre and two floats.
fn primitive(line: &[u8], a: Asked, room: &mut [f64]) -> Asked {
    let b = centre(line, a, room);
    two_floats(line, b, room)
}

// What follows a count: so many of a sort, where the count is not above the most of a list, else none.
#[derive(Clone, Copy)]
pub(crate) enum Listed {
    Nuclei,
    Primitives,
    Floats,
}

pub(crate) fn most_listed(sort: Listed) -> u64
    ensures { result ≤ 128 }
{
    match sort {
        Listed::Nuclei => nuclei::MOST_NUCLEI as u64,
        Listed::Primitives => contracting::MOST_PRIMITIVES as u64,
        Listed::Floats => MOST_HOST,
    }
}

// A count up to 255; of host numbers up to 128.
fn most_counted(sort: Listed) -> u64 {
    match sort {
        Listed::Nuclei | Listed::Primitives => 255,
        Listed::Floats => MOST_HOST,
    }
}

// How many follow a count.
pub(crate) fn follow(count: u64, sort: Listed) -> usize
    ensures { result ≤ 128 }
{
    let most = most_listed(sort);
    if most < count { 0 } else { count as usize }
}

fn one_of(sort: Listed, line: &[u8], a: Asked, room: &mut [f64]) -> Asked {
    match sort {
        Listed::Nuclei => centre(line, a, room),
        Listed::Primitives => primitive(line, a, room),
        Listed::Floats => one_float(line, a, room),
    }
}

// The number that was read last.
fn last(a: Asked) -> u64 {
    let n = a.numbers;
    let count = a.count;
    if 0 < count && count <= NUMBERS {
        return n[count - 1];
    }
    0
}

// A count after a blank, which is a number of the question, and what follows it.
pub(crate) fn several(sort: Listed, line: &[u8], a: Asked, room: &mut [f64]) -> Asked {
    let mut b = number(line, letter(line, a, b' '), most_counted(sort));
    for _ in 0..follow(last(b), sort) {
        b = one_of(sort, line, b, room);
    }
    b
}

// A byte in two hexadecimal digits, and the place after it.
fn read_pair(line: &[u8], at: usize) -> Option<(u8, usize)> {
    let end = at.checked_add(2)?;
    let (n, length) = text::read_hex(line.get(at..end)?, 0)?;
    if length != 2 || 255 < n {
        return None;
    }
    Some((n as u8, end))
}

// As many bytes as stand there and have room.
fn read_pairs(line: &[u8], at: usize, room: &mut [u8]) -> Run {
    let mut end = at;
    for count in 0..room.len() {
        let Some((byte, next)) = read_pair(line, end) else {
            return Run { count, end };
        };
        room[count] = byte;
        end = next;
    }
    let count = room.len();
    Run { count, end }
}

// A roll's bytes, two digits each; a dash where there are none (D-47).
pub(crate) fn roll(line: &[u8], a: Asked, room: &mut [u8]) -> Asked {
    let run = read_pairs(line, a.at, room);
    if run.count == 0 {
        return letter(line, a, b'-');
    }
    let mut b = a;
    b.at = run.end;
    b.bytes = run.count;
    b
}

// A second roll, whose bytes stand behind the first one's; how many they are is a number of the question.
pub(crate) fn second(line: &[u8], a: Asked, room: &mut [u8]) -> Asked {
    let first = a.bytes;
    if room.len() < first {
        return misfit(a);
    }
    let run = read_pairs(line, a.at, &mut room[first..]);
    if run.count == 0 {
        let dash = letter(line, a, b'-');
        return with(dash, 0, dash.at);
    }
    let mut b = with(a, run.count as u64, run.end);
    b.bytes = sum(first, run.count);
    b
}
