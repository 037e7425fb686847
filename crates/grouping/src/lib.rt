// The evaluation that is lent a grouping buffer: a Coulomb roll's terms are laid into it by Boys order and summed in one pass over it; and its terms by number.
#![tactic(auto)]

ghost use Rattle.std.specs.Prelude.{◌≡◌};
ghost use Rattle.grouping.specs.Evaluation.{GroupedTold};
ghost use Rattle.grouping.specs.inner.Grouped.{table_of, bars_of, factor_of, summed_of, GroupsMay, InGroupsTold, CursorMay, CursorTold};
ghost use Rattle.grouping.specs.inner.Laying.{entries_again};

use geometry::Centre;
use integrals::Terms;
use kind::{Fault, Kind, Refusal};
use laying::group;
use roll::Cursor;
use summing::sum;

mod laying;
mod restoring;
mod summing;

pub use restoring::grouped_term;

// Bytes of the buffer for each term.
pub const ENTRY: usize = 40;

// The host's centres and aux.
#[derive(Clone, Copy)]
struct Given {
    a: Centre,
    b: Centre,
    c: Centre,
    d: Centre,
    aux: f64,
}

// The sum of the entries in the buffer, after the checks before it.
fn summed(buffer: &[u8], cursor: Cursor, given: Given, boys: &[f64]) -> Result<f64, Refusal>
    ensures { result ≡ summed_of (bars_of cursor.l given boys.now) (table_of given) (factor_of given) boys.now (entries_again buffer.now 0 cursor.left) }
{
    let Given { a, b, c, d, aux } = given;
    let kind = Kind::Coulomb;
    let table = geometry::prefac(kind, a, b, c, d);
    integrals::barred(Terms { kind, cursor }, a, b, c, d, aux, boys, &table)?;
    let s = integrals::factor(kind, a, b, c, d, aux);
    integrals::result(sum(buffer, cursor.left, &table, s, boys))
}

// A judged Coulomb roll: 6 where the buffer has no room, else the grouping is laid and summed.
fn in_groups(
    roll: &[u8],
    cursor: Cursor,
    given: Given,
    boys: &[f64],
    buffer: &mut [u8],
) -> Result<f64, Refusal>
    requires { GroupsMay roll.now cursor }
    ensures { InGroupsTold roll.now cursor given boys.now buffer.old result buffer.new }
{
    let terms = cursor.left;
    if buffer.len() < ENTRY * terms as usize {
        return Err(Refusal::NoRoom);
    }
    group(buffer, roll, cursor.place, terms);
    summed(buffer, cursor, given, boys)
}

// A judged roll: only Coulomb rolls are grouped.
fn by_kind(
    roll: &[u8],
    cursor: Cursor,
    given: Given,
    boys: &[f64],
    buffer: &mut [u8],
) -> Result<f64, Refusal>
    requires { CursorMay roll.now cursor }
    ensures { CursorTold roll.now cursor given boys.now buffer.old result buffer.new }
{
    if cursor.kind == Kind::Coulomb.number() {
        return in_groups(roll, cursor, given, boys, buffer);
    }
    let Given { a, b, c, d, aux } = given;
    integrals::from_cursor(cursor, a, b, c, d, aux, boys, roll)
}

// The integral of a roll, as `integrals::evaluate` gives it. A Coulomb roll is grouped in the buffer, or refused 6 right after it is read
// where the buffer has under 40 bytes a term; 8, 9, 10 and 11 leave the grouping in the buffer.
pub fn evaluate_grouped(
    roll: &[u8],
    a: Centre,
    b: Centre,
    c: Centre,
    d: Centre,
    aux: f64,
    boys: &[f64],
    buffer: &mut [u8],
) -> Result<f64, Fault>
    ensures { GroupedTold roll.now a b c d aux boys.now buffer.old result buffer.new }
{
    let opened = roll::check(roll)?;
    Ok(by_kind(roll, opened.cursor, Given { a, b, c, d, aux }, boys, buffer)?)
}
