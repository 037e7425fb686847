// A term of a roll: scale, Boys order, prefactor count and prefactors, each within the limits of the kind and L.
ghost use Rattle.std.specs.Prelude.{◌≡◌, ◌≤◌};
ghost use Rattle.kind.specs.Limits.{most_l·any, table_places};
ghost use Rattle.kind.specs.Kinds.{most_l};
ghost use Rattle.roll.specs.Reading.{prefactors_at, most_boys, count_at, term_at};
ghost use Rattle.roll.specs.inner.Held.{held_prefactors, held_term};

use crate::field::within;
use kind::{Fault, Kind};
use term::Term;

// So many prefactors, each below the table size, with zeros after them, and the place after them.
fn prefactors(
    roll: &[u8],
    at: usize,
    count: usize,
    table: usize,
) -> Result<([u8; Kind::PREFACTORS], usize), Fault>
    requires { (count ≤ most_l·any) × (1 ≤ table) × (table ≤ table_places) }
    ensures { result ≡ held_prefactors (prefactors_at roll.now at count table) }
{
    let mut values = [0; Kind::PREFACTORS];
    let mut place = at;
    for i in 0..count {
        let (prefactor, next) = within(roll, place, 0, (table - 1) as u32)?;
        values[i] = prefactor as u8;
        place = next;
    }
    Ok((values, place))
}

// The Boys order of a kind that has none is 0.
pub fn most_boys(kind: Kind, l: u8) -> u8
    ensures { result ≡ most_boys kind l }
{
    if kind.uses_boys() { l } else { 0 }
}

// A term from its prefactor count on.
fn term_count(
    roll: &[u8],
    at: usize,
    kind: Kind,
    l: u8,
    scale: u32,
    boys: u8,
) -> Result<(Term, usize), Fault>
    requires { l ≤ most_l kind }
    ensures { result ≡ held_term (count_at roll.now at kind l scale boys) }
{
    let most = kind.most_prefactors(l);
    let (count, next) = within(roll, at, 0, most as u32)?;
    let (prefactors, end) = prefactors(roll, next, count as usize, kind.table())?;
    let term = Term {
        scale,
        boys,
        count: count as u8,
        prefactors,
    };
    Ok((term, end))
}

// The term at a place of a roll of this kind and L, and the place after it.
pub(crate) fn term_at(roll: &[u8], at: usize, kind: Kind, l: u8) -> Result<(Term, usize), Fault>
    requires { l ≤ most_l kind }
    ensures { result ≡ held_term (term_at roll.now at kind l) }
{
    let (scale, next) = within(roll, at, 1, Kind::MOST_SCALE)?;
    let (boys, next) = within(roll, next, 0, most_boys(kind, l) as u32)?;
    term_count(roll, next, kind, l, scale, boys as u8)
}
