// Centres, the geometry numbers of a pair and of two pairs, and the five prefactor tables.
#![tactic(auto)]

ghost use Rattle.std.specs.Prelude.{◌≡◌, ◌≤◌, ◌++◌, length};
ghost use Rattle.std.specs.Float.Ieee.Scale.{finite};
ghost use Rattle.kind.specs.Limits.{table_places};
ghost use Rattle.geometry.specs.Floats.{all_finite, all_above_zero, in_places};
ghost use Rattle.geometry.specs.Geometry.{point_of, bi_center, r12_squared, rp_of, exponent_sum};
ghost use Rattle.geometry.specs.Tables.{prefac};
ghost use Rattle.geometry.specs.Charges.{charge_kept, charged};
ghost use Rattle.geometry.specs.Checks.{whole, used_finite, exponents_above_zero, finite_with, checked_table, prefactor_table_of};

use kind::{Kind, Refusal};

mod numbers;
mod tables;

// Three coordinates, an exponent and a charge, kept together (D-43).
#[repr(C)]
#[derive(Clone, Copy)]
pub struct Centre {
    pub x: f64,
    pub y: f64,
    pub z: f64,
    pub exponent: f64,
    pub charge: u32,
}

// The highest charge of a nucleus.
pub const MOST_CHARGE: u32 = 118;

#[derive(Clone, Copy)]
pub struct Point {
    pub x: f64,
    pub y: f64,
    pub z: f64,
}

impl Centre {
    pub fn point(self) -> Point
        ensures { result ≡ point_of self }
    {
        Point {
            x: self.x,
            y: self.y,
            z: self.z,
        }
    }

    fn is_finite(self) -> bool
        ensures { result ≡ all_finite (whole self) }
    {
        all_finite(&[self.x, self.y, self.z, self.exponent])
    }

    // The centre of the product of two functions.
    fn bi_center(self, other: Centre) -> Point
        ensures { result ≡ rp_of self other }
    {
        get_bi_center(self.exponent, other.exponent, self.point(), other.point())
    }
}

// Neither a NaN nor an infinity.
pub fn finite(x: f64) -> bool
    ensures { result ≡ finite x }
{
    x.is_finite()
}

pub fn all_finite(xs: &[f64]) -> bool
    ensures { result ≡ all_finite xs.now }
{
    xs.iter().all(|&x| finite(x))
}

// −0.0 is not above zero.
fn all_above_zero(xs: &[f64]) -> bool
    ensures { result ≡ all_above_zero xs.now }
{
    xs.iter().all(|&x| 0.0 < x)
}

pub fn get_bi_center(z1: f64, z2: f64, r1: Point, r2: Point) -> Point
    ensures { result ≡ bi_center z1 z2 r1 r2 }
{
    let z = z1 + z2;
    Point {
        x: (z1 * r1.x + z2 * r2.x) / z,
        y: (z1 * r1.y + z2 * r2.y) / z,
        z: (z1 * r1.z + z2 * r2.z) / z,
    }
}

// powi(2) is x·x.
pub fn get_r12_squared(r1: Point, r2: Point) -> f64
    ensures { result ≡ r12_squared r1 r2 }
{
    let dx = r1.x - r2.x;
    let dy = r1.y - r2.y;
    let dz = r1.z - r2.z;
    dx * dx + dy * dy + dz * dz
}

// The sum of exponents under get_aux's root: each is added to the sum so far.
pub fn exponent_sum(a: Centre, b: Centre, c: Centre, d: Centre) -> f64
    ensures { result ≡ exponent_sum a b c d }
{
    a.exponent + b.exponent + c.exponent + d.exponent
}

// A table in its places, and 0.0 in the places left.
fn in_places(values: &[f64]) -> [f64; Kind::TABLE]
    requires { length values.now ≤ table_places }
    ensures { result ≡ in_places table_places values.now }
{
    let mut places = [0.0; Kind::TABLE];
    places[..values.len()].copy_from_slice(values);
    places
}

// The prefactor table of a kind.
pub fn prefac(kind: Kind, a: Centre, b: Centre, c: Centre, d: Centre) -> [f64; Kind::TABLE]
    ensures { result ≡ in_places table_places (prefac kind a b c d) }
{
    let rp = a.bi_center(b);
    let z = a.exponent + b.exponent;
    match kind {
        Kind::Overlap => in_places(&tables::overlap_table(rp, z, a, b)),
        Kind::Kinetic => in_places(&tables::kinetic_table(rp, z, a, b)),
        Kind::Nuclear => in_places(&tables::nuclear_table(rp, z, a, b, c)),
        Kind::Moment => in_places(&tables::moment_table(rp, z, a, b, c)),
        Kind::Coulomb => tables::coulomb_table(rp, z, a, b, c, d),
    }
}

fn pair_finite(a: Centre, b: Centre) -> bool
    ensures { result ≡ all_finite (whole a ++ whole b) }
{
    a.is_finite() && b.is_finite()
}

// Check 8: every float that the kind uses is finite.
pub fn used_finite(kind: Kind, a: Centre, b: Centre, c: Centre, d: Centre) -> bool
    ensures { result ≡ used_finite kind a b c d }
{
    match kind {
        Kind::Overlap | Kind::Kinetic => pair_finite(a, b),
        Kind::Nuclear | Kind::Moment => pair_finite(a, b) && all_finite(&[c.x, c.y, c.z]),
        Kind::Coulomb => pair_finite(a, b) && pair_finite(c, d),
    }
}

// Check 17: a nucleus has a charge up to 118; no other kind's charges are looked at.
pub fn charge_kept(kind: Kind, c: Centre) -> bool
    ensures { result ≡ charge_kept kind c }
{
    match kind {
        Kind::Nuclear => c.charge <= MOST_CHARGE,
        _ => true,
    }
}

// A nuclear value is the charge times the sum, any other the sum itself.
pub fn charged(kind: Kind, c: Centre, x: f64) -> f64
    ensures { result ≡ charged kind c x }
{
    match kind {
        Kind::Nuclear => c.charge as f64 * x,
        _ => x,
    }
}

// Check 9: every exponent that the kind uses is above zero.
pub fn exponents_above_zero(kind: Kind, a: Centre, b: Centre, c: Centre, d: Centre) -> bool
    ensures { result ≡ exponents_above_zero kind a b c d }
{
    match kind {
        Kind::Coulomb => all_above_zero(&[a.exponent, b.exponent, c.exponent, d.exponent]),
        _ => all_above_zero(&[a.exponent, b.exponent]),
    }
}

// Check 11, as far as it goes without a sum: every geometry number and every entry of the table is finite (D-82).
pub fn geometry_finite(
    kind: Kind,
    a: Centre,
    b: Centre,
    c: Centre,
    d: Centre,
    entries: &[f64],
) -> bool
    ensures { result ≡ finite_with kind a b c d entries.now }
{
    numbers::numbers_finite(kind, a, b, c, d) && all_finite(entries)
}

// Checks 8, 9 and 11 in their order, then the table.
fn checked_table(
    kind: Kind,
    a: Centre,
    b: Centre,
    c: Centre,
    d: Centre,
) -> Result<[f64; Kind::TABLE], Refusal>
    ensures { result ≡ checked_table kind a b c d }
{
    if !used_finite(kind, a, b, c, d) {
        return Err(Refusal::InputNotFinite);
    }
    if !exponents_above_zero(kind, a, b, c, d) {
        return Err(Refusal::Exponent);
    }
    let entries = prefac(kind, a, b, c, d);
    if !geometry_finite(kind, a, b, c, d, &entries) {
        return Err(Refusal::ResultNotFinite);
    }
    Ok(entries)
}

// The prefactor table of a kind's number, or 1, 8, 9 or 11.
pub fn prefactors(
    kind: u8,
    a: Centre,
    b: Centre,
    c: Centre,
    d: Centre,
) -> Result<[f64; Kind::TABLE], Refusal>
    ensures { result ≡ prefactor_table_of kind a b c d }
{
    let Some(kind) = Kind::of(kind) else {
        return Err(Refusal::WrongKind);
    };
    checked_table(kind, a, b, c, d)
}
