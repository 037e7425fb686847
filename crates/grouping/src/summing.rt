// The sum over a grouping, in one pass.
ghost use Rattle.std.specs.Prelude.{◌≡◌};
ghost use Rattle.geometry.specs.Floats.{zero};
ghost use Rattle.integrals.specs.Sums.{sum_from};
ghost use Rattle.integrals.specs.inner.Stored.{own_order_of};
ghost use Rattle.roll.specs.inner.Again.{seen_at};
ghost use Rattle.grouping.specs.inner.Laying.{entry_head, entries_again, ShortTold};

use number::{one_byte, wide};
use roll::{Head, head_at, number_at};

// The place after the number at a place, where it has one, two or three bytes and reads.
fn short_end(buffer: &[u8], at: usize) -> Option<usize>
    ensures { ShortTold buffer.now at result }
{
    if buffer.len() <= at {
        return None;
    }
    if one_byte(wide(buffer[at])) {
        return Some(at + 1);
    }
    if buffer.len() - at < 3 {
        return None;
    }
    let second = wide(buffer[at + 1]);
    let third = wide(buffer[at + 2]);
    if second == 0 {
        return None;
    }
    if one_byte(second) {
        return Some(at + 2);
    }
    if third == 0 {
        return None;
    }
    if one_byte(third) {
        return Some(at + 3);
    }
    None
}

// The place after the number at a place.
fn number_end(buffer: &[u8], at: usize) -> usize
    ensures { result ≡ (seen_at buffer.now at).next }
{
    match short_end(buffer, at) {
        Some(end) => end,
        None => number_at(buffer, at).next,
    }
}

// The term of an entry, behind its number.
fn entry_at(buffer: &[u8], at: usize) -> Head
    ensures { result ≡ entry_head buffer.now at }
{
    head_at(buffer, number_end(buffer, at))
}

// The sum of so many entries, one after the other.
pub(crate) fn sum(buffer: &[u8], terms: u32, table: &[f64], s: f64, boys: &[f64]) -> f64
    ensures { result ≡ sum_from (own_order_of table.now s boys.now) (entries_again buffer.now 0 terms) zero }
{
    let mut sum = 0.0;
    let mut at = 0;
    for done in 0..terms {
        let h = entry_at(buffer, at);
        sum = sum + integrals::coulomb_term(table, s, boys, buffer, h);
        at = h.end;
    }
    sum
}
