// The five integrals over a roll: the checks in their order, then the sum.
#![tactic(auto)]

ghost use Rattle.std.specs.Prelude.{◌≡◌};
ghost use Rattle.integrals.specs.Sums.{kinetic_start, factor_of, total_of};
ghost use Rattle.integrals.specs.Values.{inputs_finite, boys_counted, result_of, value_of};
ghost use Rattle.integrals.specs.inner.Stored.{of_cursor, again_from};
ghost use Rattle.integrals.specs.inner.Barred.{bars_with};
ghost use Rattle.integrals.specs.Evaluation.{evaluate_of};
ghost use Rattle.kind.specs.Kinds.{kind_of};

use geometry::Centre;
use kind::{Fault, Kind, Refusal};
use roll::Cursor;

mod sums;

pub use sums::{Terms, coulomb_term};

// Where g of a kinetic term starts that stays kinetic.
fn kinetic_of(a: Centre, b: Centre) -> f64
    ensures { result ≡ kinetic_start a b }
{
    let za = a.exponent;
    let zb = b.exponent;
    let e = za * zb / (za + zb);
    let ab = geometry::get_r12_squared(a.point(), b.point());
    e * (3.0 - 2.0 * e * ab)
}

// What stands in the sums for the host's aux: of Coulomb k1·k2 divided by the root of the sum of exponents.
pub fn factor(kind: Kind, a: Centre, b: Centre, c: Centre, d: Centre, aux: f64) -> f64
    ensures { result ≡ factor_of kind a b c d aux }
{
    match kind {
        Kind::Coulomb => aux / root::root_of(geometry::exponent_sum(a, b, c, d)),
        _ => aux,
    }
}

// The sum of the terms, with the start that the centres give.
pub fn integral(
    terms: Terms,
    a: Centre,
    b: Centre,
    table: &[f64],
    aux: f64,
    boys: &[f64],
    roll: &[u8],
) -> f64
    ensures { result ≡ total_of terms.kind terms.cursor.l (kinetic_start a b) table.now aux boys.now (again_from roll.now terms.cursor) }
{
    let kinetic = kinetic_of(a, b);
    sums::total(terms, kinetic, table, aux, boys, roll)
}

// Check 8: every float that is used is finite.
fn inputs_finite(
    kind: Kind,
    a: Centre,
    b: Centre,
    c: Centre,
    d: Centre,
    aux: f64,
    boys: &[f64],
) -> bool
    ensures { result ≡ inputs_finite kind a b c d aux boys.now }
{
    geometry::used_finite(kind, a, b, c, d) && geometry::finite(aux) && geometry::all_finite(boys)
}

// Check 10: how many Boys numbers there are.
fn boys_counted(kind: Kind, l: u8, count: usize) -> bool
    ensures { result ≡ boys_counted kind l count }
{
    count == if kind.uses_boys() { l as usize + 1 } else { 0 }
}

// Check 11 of the result.
pub fn result(x: f64) -> Result<f64, Refusal>
    ensures { result ≡ result_of x }
{
    if !geometry::finite(x) {
        return Err(Refusal::ResultNotFinite);
    }
    Ok(x)
}

// The checks before a sum with this table: 8, 9, 10, and 11 of the geometry.
pub fn barred(
    terms: Terms,
    a: Centre,
    b: Centre,
    c: Centre,
    d: Centre,
    aux: f64,
    boys: &[f64],
    table: &[f64],
) -> Result<(), Refusal>
    ensures { result ≡ bars_with terms.kind terms.cursor.l a b c d aux boys.now table.now }
{
    let kind = terms.kind;
    let cursor = terms.cursor;
    if !inputs_finite(kind, a, b, c, d, aux, boys) {
        return Err(Refusal::InputNotFinite);
    }
    if !geometry::exponents_above_zero(kind, a, b, c, d) {
        return Err(Refusal::Exponent);
    }
    if !boys_counted(kind, cursor.l, boys.len()) {
        return Err(Refusal::BoysCount);
    }
    if !geometry::geometry_finite(kind, a, b, c, d, table) {
        return Err(Refusal::ResultNotFinite);
    }
    Ok(())
}

// Checks 17, 8, 9, 10 and 11 of a roll's terms, and their sum, with the charge that the kind looks at.
fn judged(
    terms: Terms,
    a: Centre,
    b: Centre,
    c: Centre,
    d: Centre,
    aux: f64,
    boys: &[f64],
    roll: &[u8],
) -> Result<f64, Refusal>
    ensures { result ≡ value_of terms.kind terms.cursor.l a b c d aux boys.now (again_from roll.now terms.cursor) }
{
    let kind = terms.kind;
    if !geometry::charge_kept(kind, c) {
        return Err(Refusal::Nuclei);
    }
    let table = geometry::prefac(kind, a, b, c, d);
    barred(terms, a, b, c, d, aux, boys, &table)?;
    let s = factor(kind, a, b, c, d, aux);
    let sum = integral(terms, a, b, &table, s, boys, roll);
    result(geometry::charged(kind, c, sum))
}

// The terms of a roll that was judged, from its cursor on; none of their refusals has a place.
pub fn from_cursor(
    cursor: Cursor,
    a: Centre,
    b: Centre,
    c: Centre,
    d: Centre,
    aux: f64,
    boys: &[f64],
    roll: &[u8],
) -> Result<f64, Refusal>
    ensures { result ≡ of_cursor (kind_of cursor.kind) cursor a b c d aux boys.now roll.now }
{
    let Some(kind) = Kind::of(cursor.kind) else {
        return Err(Refusal::BadRoll);
    };
    judged(Terms { kind, cursor }, a, b, c, d, aux, boys, roll)
}

// The integral of a roll with the host's numbers, or 7 or 14 with its place, 17, 8, 9, 10 or 11 (D-62).
pub fn evaluate(
    roll: &[u8],
    a: Centre,
    b: Centre,
    c: Centre,
    d: Centre,
    aux: f64,
    boys: &[f64],
) -> Result<f64, Fault>
    ensures { result ≡ evaluate_of roll.now a b c d aux boys.now }
{
    let opened = roll::check(roll)?;
    Ok(from_cursor(opened.cursor, a, b, c, d, aux, boys, roll)?)
}
