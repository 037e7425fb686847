// The short way over a term of form 2: behind its scale all numbers are one byte each.
ghost use Rattle.std.specs.Prelude.{◌≡◌, true, ◌+◌, ◌≤◌, length};
ghost use Rattle.std.proofs.lemmas.List.Edits.{sets};
ghost use Rattle.kind.specs.Limits.{most_l·any};
ghost use Rattle.roll.specs.inner.Again.{between};
ghost use Rattle.roll.specs.inner.Over.{SmallBytes};
ghost use Rattle.form2.specs.inner.Held.{ShortFront, short_front, ShortMay, ShortTold};

use crate::terms::{ReadFront, goes_on};
use kind::Kind;
use number::wide;

// Whether a Boys order, a shared length and a number of further prefactors stand here, one byte each and within their limits.
pub(crate) fn is_short(roll: &[u8], at: usize, boys: u32, longest: u32, most: u32) -> bool
    ensures { result ≡ true → ShortFront roll.now at boys longest most }
{
    if roll.len() <= at {
        return false;
    }
    let rest = roll.len() - at;
    if rest < 3 {
        return false;
    }
    if boys < wide(roll[at]) {
        return false;
    }
    let shared = wide(roll[at + 1]);
    if longest < shared {
        return false;
    }
    if most < shared {
        return false;
    }
    wide(roll[at + 2]) <= most - shared
}

// A term's four numbers, of which those behind the scale are short.
pub(crate) fn short_front(roll: &[u8], scale: u32, at: usize) -> ReadFront
    requires { at + 3 ≤ length roll.now }
    ensures { result ≡ short_front roll.now scale at }
{
    ReadFront {
        scale,
        boys: wide(roll[at]),
        shared: wide(roll[at + 1]),
        further: wide(roll[at + 2]),
        next: at + 3,
    }
}

// Whether the bytes from one place to another are all at most `last`.
fn all_small(roll: &[u8], at: usize, end: usize, last: u32) -> bool
    requires { end ≤ length roll.now }
    ensures { result ≡ true → SmallBytes roll.now at end last }
{
    for place in at..end {
        if last < wide(roll[place]) {
            return false;
        }
    }
    true
}

// Copies bytes that are at most `last` into the places from `from` on: they are few, and one by one they cost less than a call that copies.
fn place_bytes(
    roll: &[u8],
    at: usize,
    values: &mut [u8; Kind::PREFACTORS],
    from: usize,
    count: usize,
    last: u32,
)
    requires count_in_bounds { (at + count ≤ length roll.now) × (from + count ≤ most_l·any) }
    requires small_bytes { SmallBytes roll.now at (at + count) last }
    ensures { values.new ≡ sets values.old from (between roll.now at (at + count)) }
{
    for i in 0..count {
        let b = roll[at + i];
        if last < wide(b) {
            return;
        }
        values[from + i] = b;
    }
}

// Further prefactors of one byte each, put into their places; nothing is put where they are not in order.
pub(crate) fn place_short(
    roll: &[u8],
    at: usize,
    values: &mut [u8; Kind::PREFACTORS],
    count: usize,
    from: usize,
    left: usize,
    table: usize,
) -> bool
    requires { ShortMay values.old count from left table }
    ensures { ShortTold roll.now at values.old count from left table result values.new }
{
    if roll.len() < at {
        return false;
    }
    if left == 0 {
        return true;
    }
    if roll.len() - at < left {
        return false;
    }
    let last = (table - 1) as u32;
    if all_small(roll, at, at + left, last) {
        let there = wide(values[from]);
        if goes_on(there, count, from, wide(roll[at])) {
            return false;
        }
        place_bytes(roll, at, values, from, left, last);
        return true;
    }
    false
}
