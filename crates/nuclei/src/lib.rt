// A list of nuclei in one call: the roll is judged once, each check is made over all nuclei before the next, and the charged values are summed in list order.
#![tactic(auto)]

ghost use Rattle.std.specs.Prelude.{◌+◌, ◌*◌, ◌≡◌, length};
ghost use Rattle.geometry.specs.Floats.{zero};
ghost use Rattle.integrals.specs.inner.Stored.{again_from};
ghost use Rattle.nuclei.specs.Nuclei.{list_kept, inputs_finite, list_of, nuclear_of};
ghost use Rattle.nuclei.specs.inner.Listed.{product_of, summed_from, of_cursor};

use geometry::Centre;
use integrals::Terms;
use kind::{Fault, Kind, Refusal};
use roll::Cursor;

// The most nuclei of a list.
pub const MOST_NUCLEI: usize = 32;

// A list of nuclei by value; what lies beyond the count is not looked at (D-107).
#[repr(C)]
#[derive(Clone, Copy)]
pub struct Nuclei {
    pub centres: [Centre; MOST_NUCLEI],
    pub count: u32,
}

// Check 17: the count, and every charge.
fn list_kept(nuclei: Nuclei) -> bool
    ensures { result ≡ list_kept nuclei }
{
    let count = nuclei.count as usize;
    if count < 1 || MOST_NUCLEI < count {
        return false;
    }
    nuclei.centres[..count]
        .iter()
        .all(|&c| geometry::charge_kept(Kind::Nuclear, c))
}

// Check 8: every float that is used is finite.
fn inputs_finite(a: Centre, b: Centre, nuclei: &[Centre], aux: f64, boys: &[f64]) -> bool
    ensures { result ≡ inputs_finite a b nuclei.now aux boys.now }
{
    nuclei
        .iter()
        .all(|&c| geometry::used_finite(Kind::Nuclear, a, b, c, c))
        && geometry::finite(aux)
        && geometry::all_finite(boys)
}

// A nucleus' charge times its value, unless a geometry number or an entry of its table is not finite.
fn charged_value(
    cursor: Cursor,
    a: Centre,
    b: Centre,
    c: Centre,
    aux: f64,
    boys: &[f64],
    roll: &[u8],
) -> Result<f64, Refusal>
    ensures { result ≡ product_of cursor.l a b c aux boys.now (again_from roll.now cursor) }
{
    let kind = Kind::Nuclear;
    let table = geometry::prefac(kind, a, b, c, c);
    if !geometry::geometry_finite(kind, a, b, c, c, &table) {
        return Err(Refusal::ResultNotFinite);
    }
    let sum = integrals::integral(Terms { kind, cursor }, a, b, &table, aux, boys, roll);
    Ok(geometry::charged(kind, c, sum))
}

// Check 11 and the sum in list order; the Boys lists follow one another.
fn summed(
    cursor: Cursor,
    a: Centre,
    b: Centre,
    nuclei: &[Centre],
    aux: f64,
    boys: &[f64],
    roll: &[u8],
) -> Result<f64, Refusal>
    requires { length boys.now ≡ length nuclei.now * (cursor.l + 1) }
    ensures { result ≡ summed_from cursor.l a b aux nuclei.now boys.now (again_from roll.now cursor) zero }
{
    let each = cursor.l as usize + 1;
    let mut sum = 0.0;
    let mut from = 0;
    for &c in nuclei {
        let end = from + each;
        sum = sum + charged_value(cursor, a, b, c, aux, &boys[from..end], roll)?;
        from = end;
    }
    integrals::result(sum)
}

// Checks 17, 8, 9, 10 and 11, each over all nuclei before the next, and the sum.
fn listed(
    cursor: Cursor,
    a: Centre,
    b: Centre,
    nuclei: Nuclei,
    aux: f64,
    boys: &[f64],
    roll: &[u8],
) -> Result<f64, Refusal>
    ensures { result ≡ list_of cursor.l a b nuclei aux boys.now (again_from roll.now cursor) }
{
    if !list_kept(nuclei) {
        return Err(Refusal::Nuclei);
    }
    let nuclei = &nuclei.centres[..nuclei.count as usize];
    if !inputs_finite(a, b, nuclei, aux, boys) {
        return Err(Refusal::InputNotFinite);
    }
    if !geometry::exponents_above_zero(Kind::Nuclear, a, b, a, b) {
        return Err(Refusal::Exponent);
    }
    if boys.len() != nuclei.len() * (cursor.l as usize + 1) {
        return Err(Refusal::BoysCount);
    }
    summed(cursor, a, b, nuclei, aux, boys, roll)
}

// A judged roll: 1 for any kind but nuclear.
fn by_kind(
    cursor: Cursor,
    a: Centre,
    b: Centre,
    nuclei: Nuclei,
    aux: f64,
    boys: &[f64],
    roll: &[u8],
) -> Result<f64, Refusal>
    ensures { result ≡ of_cursor cursor a b nuclei aux boys.now roll.now }
{
    if cursor.kind != Kind::Nuclear.number() {
        return Err(Refusal::WrongKind);
    }
    listed(cursor, a, b, nuclei, aux, boys, roll)
}

// The sum over a list of nuclei, or 7 or 14 with its place, 1, 17, 8, 9, 10 or 11 (D-108).
pub fn nuclear(
    roll: &[u8],
    a: Centre,
    b: Centre,
    nuclei: Nuclei,
    aux: f64,
    boys: &[f64],
) -> Result<f64, Fault>
    ensures { result ≡ nuclear_of roll.now a b nuclei aux boys.now }
{
    let opened = roll::check(roll)?;
    Ok(by_kind(opened.cursor, a, b, nuclei, aux, boys, roll)?)
}
