// The judge of a text: lines from the first on, shape before numbers.
ghost use Rattle.std.specs.Prelude.{◌≡◌, ◌≤◌};
ghost use Rattle.importing.specs.Import.{first_count, roll_of};
ghost use Rattle.importing.specs.inner.Places.{term_line_at, end_at, terms_at, head_line_at, measured};

use crate::lines::shape_at;
use crate::numerals::{first_line, term};
use crate::{ImportFault, Imported, refused};
use kind::{Kind, Refusal};

// A term's line: how many bytes its writing has, and the place of the next line; or a refusal.
fn term_line(s: &[u8], at: usize, kind: Kind, l: u8) -> Result<(u32, usize), Refusal>
    ensures { result ≡ term_line_at s.now at kind l }
{
    if s.len() <= at {
        return Err(Refusal::LineNumbers);
    }
    let (n, next) = shape_at(s, at).ok_or(Refusal::LineShape)?;
    if n < 2 {
        return Err(Refusal::LineShape);
    }
    match term(s, at, n, kind, l) {
        Some((size, _)) => Ok((size, next)),
        None => Err(Refusal::LineNumbers),
    }
}

// Nothing follows the last term; a line that does is one too many.
fn end(s: &[u8], at: usize, line: u64, roll: Imported) -> Result<Imported, ImportFault>
    ensures { result ≡ end_at s.now at line roll.length roll.terms }
{
    if s.len() <= at {
        return Ok(roll);
    }
    match shape_at(s, at) {
        Some((n, _)) if 2 <= n => refused(Refusal::LineNumbers, line),
        _ => refused(Refusal::LineShape, line),
    }
}

// The lines of the terms, from the second on, after a first line whose writing has `first` bytes.
fn judge_terms(
    s: &[u8],
    at: usize,
    count: u32,
    kind: Kind,
    l: u8,
    first: usize,
) -> Result<Imported, ImportFault>
    requires { first ≤ 100 }
    ensures { result ≡ terms_at s.now at 2 count kind l first count }
{
    let mut place = at;
    let mut size = first;
    let after = count as u64 + 2;
    for line in 2..after {
        match term_line(s, place, kind, l) {
            Ok((more, next)) => {
                size += more as usize;
                place = next;
            }
            Err(refusal) => return refused(refusal, line),
        }
    }
    let roll = Imported {
        length: size,
        terms: count,
    };
    end(s, place, after, roll)
}

// By shape the first line has 8, 11 or 14 numbers.
fn first_count(n: usize) -> bool
    ensures { result ≡ first_count n }
{
    matches!(n, 8 | 11 | 14)
}

// A first line of `n` numbers, and the lines from `next` on. The kind and each order have one byte.
fn judge_numbers(s: &[u8], n: usize, next: usize) -> Result<Imported, ImportFault>
    ensures { result ≡ head_line_at s.now n next }
{
    let Some(head) = first_line(s, n) else {
        return refused(Refusal::LineNumbers, 1);
    };
    let first = 1 + head.kind.orders() + number::length(head.terms);
    judge_terms(s, next, head.terms, head.kind, head.l, first)
}

// The length and the terms of the roll that a text imports as, or the first line that is wrong.
pub(crate) fn judge_text(s: &[u8]) -> Result<Imported, ImportFault>
    ensures { result ≡ measured (roll_of s.now) }
{
    match shape_at(s, 0) {
        Some((n, next)) if first_count(n) => judge_numbers(s, n, next),
        _ => refused(Refusal::LineShape, 1),
    }
}
