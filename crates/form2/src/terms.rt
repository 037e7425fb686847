// A term of a form 2 roll: scale, Boys order, shared length, number of further prefactors, and those.
ghost use Rattle.std.specs.Prelude.{◌≡◌, ◌≤◌, ◌&&◌, ltb, eqb, length, take, drop};
ghost use Rattle.kind.specs.Limits.{most_l·any};
ghost use Rattle.kind.specs.Kinds.{most_l};
ghost use Rattle.roll.specs.Reading.{prefactors_at};
ghost use Rattle.form2.specs.Reading.{boys_at2, front_at, further_at, term_after};
ghost use Rattle.form2.specs.inner.Held.{held_front, AfterMay, AfterTold, MoreMay, MoreTold};

use crate::header::bad_roll;
use kind::{Fault, Kind};
use number::wide;
use roll::{most_boys, within};

// A term's numbers before its further prefactors, how many of these there are, and the place after all four.
#[derive(Clone, Copy)]
pub(crate) struct ReadFront {
    pub(crate) scale: u32,
    pub(crate) boys: u32,
    pub(crate) shared: u32,
    pub(crate) further: u32,
    pub(crate) next: usize,
}

// A term's numbers, its prefactor count, and the place after the term.
#[derive(Clone, Copy)]
pub(crate) struct ReadAfter {
    pub(crate) scale: u32,
    pub(crate) boys: u32,
    pub(crate) count: u32,
    pub(crate) end: usize,
}

// A term's front from its Boys order on; the term before has `longest` prefactors.
pub(crate) fn front_boys(
    roll: &[u8],
    at: usize,
    kind: Kind,
    l: u8,
    longest: u32,
    scale: u32,
) -> Result<ReadFront, Fault>
    requires { AfterMay kind l longest }
    ensures { result ≡ held_front (boys_at2 roll.now at kind l longest scale) }
{
    let most = kind.most_prefactors(l) as u32;
    let (boys, next) = within(roll, at, 0, most_boys(kind, l) as u32)?;
    let (shared, next) = within(roll, next, 0, longest)?;
    let (further, next) = within(roll, next, 0, most - shared)?;
    Ok(ReadFront {
        scale,
        boys,
        shared,
        further,
        next,
    })
}

// A term's four numbers.
fn front(roll: &[u8], at: usize, kind: Kind, l: u8, longest: u32) -> Result<ReadFront, Fault>
    requires { AfterMay kind l longest }
    ensures { result ≡ held_front (front_at roll.now at kind l longest) }
{
    let (scale, next) = within(roll, at, 1, Kind::MOST_SCALE)?;
    front_boys(roll, next, kind, l, longest, scale)
}

// So many prefactors, each below the table size, into the places from `from` on; how many there are then, and the place after them.
fn more(
    roll: &[u8],
    at: usize,
    values: &mut [u8; Kind::PREFACTORS],
    from: usize,
    count: usize,
    table: usize,
) -> Result<(u32, usize), Fault>
    requires { MoreMay from count table }
    ensures { MoreTold values.old from (prefactors_at roll.now at count table) result values.new }
{
    let mut place = at;
    for i in 0..count {
        let (prefactor, next) = within(roll, place, 0, (table - 1) as u32)?;
        values[from + i] = prefactor as u8;
        place = next;
    }
    Ok(((from + count) as u32, place))
}

// Whether a prefactor is the one that follows the first `from` in the term before, which has `count`; `there` stands behind those.
pub(crate) fn goes_on(there: u32, count: usize, from: usize, prefactor: u32) -> bool
    ensures { result ≡ (ltb from count && eqb there prefactor) }
{
    from < count && there == prefactor
}

// The further prefactors of a term that shares `from` prefactors with the term before, which has `count`.
fn further(
    roll: &[u8],
    at: usize,
    values: &mut [u8; Kind::PREFACTORS],
    count: usize,
    from: usize,
    left: usize,
    table: usize,
) -> Result<(u32, usize), Fault>
    requires more_may { MoreMay from left table }
    requires count_le_most_l_any { (count ≤ most_l·any) × (length values.old ≡ most_l·any) }
    ensures { MoreTold values.old from (further_at roll.now at left table (drop from (take count values.old))) result values.new }
{
    if left == 0 {
        return Ok((from as u32, at));
    }
    let (prefactor, next) = within(roll, at, 0, (table - 1) as u32)?;
    let there = wide(values[from]);
    if goes_on(there, count, from, prefactor) {
        return Err(bad_roll(at));
    }
    values[from] = prefactor as u8;
    more(roll, next, values, from + 1, left - 1, table)
}

// The term at a place, after one whose prefactors are the first `count` values: its own take their place.
pub(crate) fn term_after(
    roll: &[u8],
    at: usize,
    kind: Kind,
    l: u8,
    values: &mut [u8; Kind::PREFACTORS],
    count: usize,
) -> Result<ReadAfter, Fault>
    requires after_may { AfterMay kind l count }
    requires values_len { length values.old ≡ most_l·any }
    ensures { AfterTold values.old (term_after roll.now at kind l (take count values.old)) result values.new }
{
    let read = front(roll, at, kind, l, count as u32)?;
    let shared = read.shared as usize;
    let left = read.further as usize;
    let (count, end) = further(roll, read.next, values, count, shared, left, kind.table())?;
    Ok(ReadAfter {
        scale: read.scale,
        boys: read.boys,
        count,
        end,
    })
}
