// Contracted overlap and kinetic elements: two functions of one to ten primitives each, over one roll.
#![tactic(auto)]

ghost use Rattle.std.specs.Prelude.{◌≡◌, true};
ghost use Rattle.std.specs.List.{list_all};
ghost use Rattle.kind.specs.Kinds.{kind_of};
ghost use Rattle.contracting.specs.Pairs.{counted, rows_from};
ghost use Rattle.contracting.specs.Elements.{contracts, checked_of, of_roll, contracted_of};
ghost use Rattle.contracting.specs.inner.Summed.{finite_primitive, above_primitive, all_finite_of, all_above_of, PairsMay, of_cursor};
ghost use Rattle.integrals.specs.inner.Stored.{again_from};
ghost use Rattle.roll.specs.Reading.{roll_at};

use geometry::Centre;
use integrals::Terms;
use kind::{Fault, Kind, Refusal};
use roll::Cursor;
use sums::outer;

mod sums;

// The most primitives of a function.
pub const MOST_PRIMITIVES: usize = 10;

// A centre with its exponent, a norm and a coefficient.
#[repr(C)]
#[derive(Clone, Copy)]
pub struct Primitive {
    pub centre: Centre,
    pub norm: f64,
    pub coefficient: f64,
}

// A contracted function. What lies beyond the count is not looked at.
#[repr(C)]
#[derive(Clone, Copy)]
pub struct Contracted {
    pub primitives: [Primitive; MOST_PRIMITIVES],
    pub count: u32,
}

impl Primitive {
    fn is_finite(self) -> bool
        ensures { result ≡ finite_primitive self }
    {
        let c = self.centre;
        geometry::all_finite(&[c.x, c.y, c.z, c.exponent, self.norm, self.coefficient])
    }

    // −0.0 is not above zero.
    fn is_above_zero(self) -> bool
        ensures { result ≡ above_primitive self }
    {
        0.0 < self.centre.exponent
    }
}

// One to ten primitives.
fn counted(count: usize) -> bool
    ensures { result ≡ counted count }
{
    if count < 1 {
        return false;
    }
    count <= MOST_PRIMITIVES
}

fn primitives_finite(primitives: &[Primitive]) -> bool
    ensures { result ≡ list_all finite_primitive primitives.now }
{
    primitives.iter().all(|&p| p.is_finite())
}

fn primitives_above_zero(primitives: &[Primitive]) -> bool
    ensures { result ≡ list_all above_primitive primitives.now }
{
    primitives.iter().all(|&p| p.is_above_zero())
}

// Check 8 over all pairs: each primitive and each host number stands in one.
fn all_finite(lefts: &[Primitive], rights: &[Primitive], host: &[f64]) -> bool
    ensures { result ≡ all_finite_of lefts.now rights.now host.now }
{
    primitives_finite(lefts) && primitives_finite(rights) && geometry::all_finite(host)
}

// Check 9 over all pairs.
fn all_above_zero(lefts: &[Primitive], rights: &[Primitive]) -> bool
    ensures { result ≡ all_above_of lefts.now rights.now }
{
    primitives_above_zero(lefts) && primitives_above_zero(rights)
}

// Checks 8, 9 and 11 over all pairs, and the element. What is not finite stays so in every sum, so one look at the element serves for all of 11.
fn checked(
    terms: Terms,
    lefts: &[Primitive],
    rights: &[Primitive],
    host: &[f64],
    roll: &[u8],
) -> Result<f64, Refusal>
    requires { PairsMay lefts.now rights.now host.now × (contracts terms.kind ≡ true) }
    ensures { result ≡ checked_of terms.kind terms.cursor.l (again_from roll.now terms.cursor) (rows_from host.now lefts.now 0 rights.now) }
{
    if !all_finite(lefts, rights, host) {
        return Err(Refusal::InputNotFinite);
    }
    if !all_above_zero(lefts, rights) {
        return Err(Refusal::Exponent);
    }
    integrals::result(outer(terms, lefts, rights, host, roll))
}

// Whether elements are made over rolls of this kind.
fn contracts(kind: Kind) -> bool
    ensures { result ≡ contracts kind }
{
    matches!(kind, Kind::Overlap | Kind::Kinetic)
}

// The element over a judged roll, from its cursor on. Check 1, right after 7.
fn from_cursor(
    cursor: Cursor,
    lefts: &[Primitive],
    rights: &[Primitive],
    host: &[f64],
    roll: &[u8],
) -> Result<f64, Refusal>
    requires { PairsMay lefts.now rights.now host.now }
    ensures { result ≡ of_cursor (kind_of cursor.kind) cursor roll.now (rows_from host.now lefts.now 0 rights.now) }
{
    let Some(kind) = Kind::of(cursor.kind) else {
        return Err(Refusal::BadRoll);
    };
    if !contracts(kind) {
        return Err(Refusal::WrongKind);
    }
    checked(Terms { kind, cursor }, lefts, rights, host, roll)
}

// The roll is judged once.
fn over_roll(
    roll: &[u8],
    lefts: &[Primitive],
    rights: &[Primitive],
    host: &[f64],
) -> Result<f64, Fault>
    requires { PairsMay lefts.now rights.now host.now }
    ensures { result ≡ of_roll (roll_at roll.now) (rows_from host.now lefts.now 0 rights.now) }
{
    let opened = roll::check(roll)?;
    Ok(from_cursor(opened.cursor, lefts, rights, host, roll)?)
}

// The element of two contracted functions over a roll of overlap or kinetic, with a host number for each pair, right function outer;
// or 15, 16, 7 or 14 with its place, 1, 8, 9 or 11.
pub fn element(roll: &[u8], left: Contracted, right: Contracted, host: &[f64]) -> Result<f64, Fault>
    ensures { result ≡ contracted_of roll.now left right host.now }
{
    let m = left.count as usize;
    let n = right.count as usize;
    if !counted(m) || !counted(n) {
        return Err(Fault::from(Refusal::PrimitiveCount));
    }
    if host.len() != m * n {
        return Err(Fault::from(Refusal::HostCount));
    }
    over_roll(roll, &left.primitives[..m], &right.primitives[..n], host)
}
