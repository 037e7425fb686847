// Terms that are gone over and not kept: a number after the other, each within its limits (D-80).
ghost use Rattle.std.specs.Prelude.{◌≡◌, ◌+◌, ◌≤◌, true, length};
ghost use Rattle.roll.specs.Reading.{prefactors_at};
ghost use Rattle.roll.specs.inner.Over.{SmallBytes, OneByteEach, over, term_over, end_over, terms_over};

use crate::field::{bad_roll, within};
use kind::{Fault, Kind};
use number::{one_byte, wide};

// Whether the bytes from one place to another are all at most `last`.
fn all_small(roll: &[u8], at: usize, end: usize, last: u32) -> bool
    requires { end ≤ length roll.now }
    ensures { result ≡ true → SmallBytes roll.now at end last }
{
    for place in at..end {
        if last < wide(roll[place]) {
            return false;
        }
    }
    true
}

// Whether so many prefactors stand here, one byte each, all within the limit.
fn one_byte_each(roll: &[u8], at: usize, count: u32, last: u32) -> bool
    ensures { result ≡ true → OneByteEach roll.now at count last }
{
    if roll.len() < at || roll.len() - at < count as usize {
        return false;
    }
    one_byte(last) && all_small(roll, at, at + count as usize, last)
}

// The place after so many prefactors, each below the table size. Most are one byte each.
fn prefactors_over(roll: &[u8], at: usize, count: u32, table: u32) -> Result<usize, Fault>
    requires { 1 ≤ table }
    ensures { result ≡ over (prefactors_at roll.now at count table) }
{
    if one_byte_each(roll, at, count, table - 1) {
        return Ok(bytes_over(roll, at, count));
    }
    each_over(roll, at, count, table)
}

// The place after so many bytes that stand in the roll.
fn bytes_over(roll: &[u8], at: usize, count: u32) -> usize
    requires { at + count ≤ length roll.now }
    ensures { result ≡ at + count }
{
    at + count as usize
}

// The same, a number after the other.
fn each_over(roll: &[u8], at: usize, count: u32, table: u32) -> Result<usize, Fault>
    requires { 1 ≤ table }
    ensures { result ≡ over (prefactors_at roll.now at count table) }
{
    let last = table - 1;
    let mut place = at;
    for done in 0..count {
        let (_, next) = within(roll, place, 0, last)?;
        place = next;
    }
    Ok(place)
}

// Goes over the term at a place, to the place after it; its Boys order is at most `boys`, its prefactor count at most `most`.
fn term_over(roll: &[u8], at: usize, boys: u32, most: u32, table: u32) -> Result<usize, Fault>
    requires { 1 ≤ table }
    ensures { result ≡ term_over roll.now at boys most table }
{
    let (_, next) = within(roll, at, 1, Kind::MOST_SCALE)?;
    let (_, next) = within(roll, next, 0, boys)?;
    let (count, next) = within(roll, next, 0, most)?;
    prefactors_over(roll, next, count, table)
}

// Nothing follows the last term.
fn end_over(length: usize, place: usize) -> Result<(), Fault>
    ensures { result ≡ end_over length place }
{
    if place == length {
        return Ok(());
    }
    Err(bad_roll(place))
}

// Goes over so many terms to the end of a roll, or to the first refusal.
pub(crate) fn terms_over(
    roll: &[u8],
    at: usize,
    terms: u32,
    boys: u32,
    most: u32,
    table: u32,
) -> Result<(), Fault>
    requires { 1 ≤ table }
    ensures { result ≡ terms_over roll.now at terms boys most table }
{
    let mut place = at;
    for done in 0..terms {
        place = term_over(roll, place, boys, most, table)?;
    }
    end_over(roll.len(), place)
}
