// The geometry numbers of each kind, each as os86.rs writes it.
ghost use Rattle.std.specs.Prelude.{◌≡◌};
ghost use Rattle.geometry.specs.Floats.{all_finite};
ghost use Rattle.geometry.specs.Geometry.{pair_numbers, nuclear_numbers, moment_numbers, coulomb_numbers, geometry_numbers};

use super::{Centre, all_finite, exponent_sum, get_bi_center, get_r12_squared};
use kind::Kind;

fn pair_numbers(a: Centre, b: Centre) -> [f64; 6]
    ensures { result ≡ pair_numbers a b }
{
    let za = a.exponent;
    let zb = b.exponent;
    let z = za + zb;
    let e = za * zb / (za + zb);
    let rp = a.bi_center(b);
    let ab = get_r12_squared(a.point(), b.point());
    [z, e, ab, rp.x, rp.y, rp.z]
}

fn nuclear_numbers(a: Centre, b: Centre, c: Centre) -> [f64; 6]
    ensures { result ≡ nuclear_numbers a b c }
{
    let z = a.exponent + b.exponent;
    let rp = a.bi_center(b);
    let pc = get_r12_squared(rp, c.point());
    let u = z * pc;
    [z, rp.x, rp.y, rp.z, pc, u]
}

fn moment_numbers(a: Centre, b: Centre) -> [f64; 4]
    ensures { result ≡ moment_numbers a b }
{
    let z = a.exponent + b.exponent;
    let rp = a.bi_center(b);
    [z, rp.x, rp.y, rp.z]
}

fn coulomb_numbers(a: Centre, b: Centre, c: Centre, d: Centre) -> [f64; 14]
    ensures { result ≡ coulomb_numbers a b c d }
{
    let z = a.exponent + b.exponent;
    let n = c.exponent + d.exponent;
    let rp = a.bi_center(b);
    let rq = c.bi_center(d);
    let rw = get_bi_center(z, n, rp, rq);
    let rho = z * n / (z + n);
    let t = rho * get_r12_squared(rp, rq);
    let exponents = exponent_sum(a, b, c, d);
    [
        z, n, rp.x, rp.y, rp.z, rq.x, rq.y, rq.z, rw.x, rw.y, rw.z, rho, t, exponents,
    ]
}

// Whether every geometry number of a kind is finite.
pub(crate) fn numbers_finite(kind: Kind, a: Centre, b: Centre, c: Centre, d: Centre) -> bool
    ensures { result ≡ all_finite (geometry_numbers kind a b c d) }
{
    match kind {
        Kind::Overlap | Kind::Kinetic => all_finite(&pair_numbers(a, b)),
        Kind::Nuclear => all_finite(&nuclear_numbers(a, b, c)),
        Kind::Moment => all_finite(&moment_numbers(a, b)),
        Kind::Coulomb => all_finite(&coulomb_numbers(a, b, c, d)),
    }
}
