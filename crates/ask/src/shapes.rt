// The shapes of questions: a table with a line for each. A letter stands for itself; a mark, for a word or for words.
ghost use Rattle.std.specs.Prelude.{◌<◌};

use crate::{lent, words};
use words::{Asked, Listed, NUMBERS};

// Nothing is read yet by the shape with this number.
fn begun(question: usize) -> Asked {
    Asked {
        question,
        found: false,
        misfit: false,
        numbers: [0; NUMBERS],
        count: 0,
        bytes: 0,
        floats: 0,
        at: 0,
    }
}

// The first shape of the table that the whole line has, by its number from 0 on, with what its words say. Where it has none,
// the number is one that no shape has.
pub(crate) fn read(table: &[u8], line: &[u8], bytes: &mut [u8], floats: &mut [f64]) -> Asked {
    let mut asked = begun(0);
    let mut i = 0;
    while i < table.len() {
        asked = item(table[i], line, asked, bytes, floats);
        i = on(asked.found, i, table.len());
    }
    asked
}

// The next item; the table's end after the shape that is found.
fn on(found: bool, i: usize, all: usize) -> usize
    requires { i < all }
    ensures { i < result }
{
    if found {
        return all;
    }
    i + 1
}

// The end of a shape: it is found where the line fits and nothing follows; else the next one begins.
fn ended(a: Asked, end: usize) -> Asked {
    if a.misfit || a.at != end {
        return begun(words::after(a.question));
    }
    let mut b = a;
    b.found = true;
    b
}

// B, W and P are numbers below 2^8, 2^32 and 2^64, L the length of a lent buffer, G of a grouping buffer, R a roll, S a second one; C a centre, N a count and so many
// centres, M a count and so many primitives, H a count and so many floats, F a float, * floats, each after a blank,
// + a number below 2^8 after a blank or nothing, ^ whatever is left. What is read after a misfit is dropped.
fn item(mark: u8, line: &[u8], a: Asked, bytes: &mut [u8], floats: &mut [f64]) -> Asked {
    match mark {
        b'\n' => ended(a, line.len()),
        b'B' | b'W' | b'P' | b'L' | b'G' | b'T' => words::number(line, a, most(mark)),
        b'+' => words::perhaps(line, a, most(mark)),
        b'R' => words::roll(line, a, bytes),
        b'S' => words::second(line, a, bytes),
        b'C' => words::centre(line, a, floats),
        b'N' => words::several(Listed::Nuclei, line, a, floats),
        b'M' => words::several(Listed::Primitives, line, a, floats),
        b'H' => words::several(Listed::Floats, line, a, floats),
        b'F' => words::one_float(line, a, floats),
        b'*' => words::floats(line, a, floats),
        b'^' => words::rest(line, a),
        _ => words::letter(line, a, mark),
    }
}

// The most that a number's mark allows.
fn most(mark: u8) -> u64 {
    match mark {
        b'B' | b'+' => 255,
        b'W' => words::MOST_WORD,
        b'L' => lent::LARGE as u64,
        b'T' => lent::TEXT as u64,
        b'G' => lent::LARGEST as u64,
        _ => u64::MAX,
    }
}
