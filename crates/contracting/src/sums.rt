// The inner sum over the left function and the outer sum over the right one, as overlap_cgto_left and S of basis.rs have them.
ghost use Rattle.std.specs.Prelude.{◌+◌, ◌*◌, ◌≤◌, ◌≡◌, length};
ghost use Rattle.geometry.specs.Floats.{zero};
ghost use Rattle.integrals.specs.inner.Stored.{again_from};
ghost use Rattle.contracting.specs.Pairs.{pairs_with, rows_from};
ghost use Rattle.contracting.specs.Elements.{share_of, inner_from, element_of};
ghost use Rattle.contracting.specs.inner.Summed.{kept_value};

use super::Primitive;
use integrals::Terms;

// The value of a pair, or an infinity where a geometry number or an entry of its table is not finite. These kinds use nothing of C and D, and no Boys numbers.
fn value(terms: Terms, a: Primitive, b: Primitive, aux: f64, roll: &[u8]) -> f64
    ensures { result ≡ kept_value terms.kind terms.cursor.l (again_from roll.now terms.cursor) (record { left = a; right = b; aux = aux }) }
{
    let kind = terms.kind;
    let ca = a.centre;
    let cb = b.centre;
    let table = geometry::prefac(kind, ca, cb, ca, cb);
    if !geometry::geometry_finite(kind, ca, cb, ca, cb, &table) {
        return f64::INFINITY;
    }
    let factor = integrals::factor(kind, ca, cb, ca, cb, aux);
    integrals::integral(terms, ca, cb, &table, factor, &[], roll)
}

// What a pair adds to its inner sum.
fn share(terms: Terms, a: Primitive, b: Primitive, aux: f64, roll: &[u8]) -> f64
    ensures { result ≡ share_of (kept_value terms.kind terms.cursor.l (again_from roll.now terms.cursor)) (record { left = a; right = b; aux = aux }) }
{
    let v = value(terms, a, b, aux, roll);
    a.coefficient * (a.norm * b.norm * v)
}

// The inner sum of a right primitive, whose host numbers stand from `from` on.
fn inner(
    terms: Terms,
    lefts: &[Primitive],
    b: Primitive,
    host: &[f64],
    from: usize,
    roll: &[u8],
) -> f64
    requires { from + length lefts.now ≤ length host.now }
    ensures { result ≡ inner_from (kept_value terms.kind terms.cursor.l (again_from roll.now terms.cursor)) (pairs_with host.now from b lefts.now) zero }
{
    let mut sum = 0.0;
    for (i, &a) in lefts.iter().enumerate() {
        sum = sum + share(terms, a, b, host[from + i], roll);
    }
    sum
}

// The outer sum, with a host number for each pair.
pub(crate) fn outer(
    terms: Terms,
    lefts: &[Primitive],
    rights: &[Primitive],
    host: &[f64],
    roll: &[u8],
) -> f64
    requires { length host.now ≡ length lefts.now * length rights.now }
    ensures { result ≡ element_of (kept_value terms.kind terms.cursor.l (again_from roll.now terms.cursor)) (rows_from host.now lefts.now 0 rights.now) }
{
    let mut element = 0.0;
    let mut from = 0;
    for &b in rights {
        element = element + b.coefficient * inner(terms, lefts, b, host, from, roll);
        from += lefts.len();
    }
    element
}
