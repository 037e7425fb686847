// The five prefactor tables, `prefac` in the five get_ functions of os86.rs.
ghost use Rattle.std.specs.Prelude.{◌≡◌};
ghost use Rattle.geometry.specs.Floats.{◌⊕◌, ◌⊗◌, ◌⊘◌};
ghost use Rattle.geometry.specs.Geometry.{bi_center, z_of, e_of, rp_of};
ghost use Rattle.geometry.specs.Tables.{values, overlap_table, kinetic_table, nuclear_table, moment_table, coulomb_table};

use super::{Centre, Point, get_bi_center};
use kind::Kind;

pub(crate) fn overlap_table(rp: Point, z: f64, a: Centre, b: Centre) -> [f64; 8]
    ensures { result ≡ values (overlap_table rp z a b) }
{
    [
        rp.x - a.x,
        rp.x - b.x,
        rp.y - a.y,
        rp.y - b.y,
        rp.z - a.z,
        rp.z - b.z,
        0.5 / z,
        0.5 / z,
    ]
}

pub(crate) fn kinetic_table(rp: Point, z: f64, a: Centre, b: Centre) -> [f64; 11]
    ensures { result ≡ values (kinetic_table rp z (e_of a b) a b) }
{
    let za = a.exponent;
    let zb = b.exponent;
    let e = za * zb / (za + zb);
    [
        rp.x - a.x,
        rp.x - b.x,
        rp.y - a.y,
        rp.y - b.y,
        rp.z - a.z,
        rp.z - b.z,
        0.5 / z,
        0.5 / z,
        2.0 * e,
        -e / za,
        -e / zb,
    ]
}

pub(crate) fn nuclear_table(rp: Point, z: f64, a: Centre, b: Centre, c: Centre) -> [f64; 11]
    ensures { result ≡ values (nuclear_table rp z a b c) }
{
    [
        rp.x - a.x,
        rp.x - b.x,
        rp.y - a.y,
        rp.y - b.y,
        rp.z - a.z,
        rp.z - b.z,
        -rp.x + c.x,
        -rp.y + c.y,
        -rp.z + c.z,
        0.5 / z,
        -0.5 / z,
    ]
}

pub(crate) fn moment_table(rp: Point, z: f64, a: Centre, b: Centre, c: Centre) -> [f64; 12]
    ensures { result ≡ values (moment_table rp z a b c) }
{
    [
        rp.x - a.x,
        rp.x - b.x,
        rp.y - a.y,
        rp.y - b.y,
        rp.z - a.z,
        rp.z - b.z,
        rp.x - c.x,
        rp.y - c.y,
        rp.z - c.z,
        0.5 / z,
        0.5 / z,
        0.5 / z,
    ]
}

pub(crate) fn coulomb_table(
    rp: Point,
    z: f64,
    a: Centre,
    b: Centre,
    c: Centre,
    d: Centre,
) -> [f64; Kind::TABLE]
    ensures { result ≡ values (coulomb_table rp (rp_of c d) (bi_center z (z_of c d) rp (rp_of c d)) z (z_of c d) (z ⊗ z_of c d ⊘ (z ⊕ z_of c d)) a b c d) }
{
    let n = c.exponent + d.exponent;
    let rq = c.bi_center(d);
    let rw = get_bi_center(z, n, rp, rq);
    let rho = z * n / (z + n);
    [
        rp.x - a.x,
        rp.x - b.x,
        rq.x - c.x,
        rq.x - d.x,
        rw.x - rp.x,
        rw.x - rq.x,
        rp.y - a.y,
        rp.y - b.y,
        rq.y - c.y,
        rq.y - d.y,
        rw.y - rp.y,
        rw.y - rq.y,
        rp.z - a.z,
        rp.z - b.z,
        rq.z - c.z,
        rq.z - d.z,
        rw.z - rp.z,
        rw.z - rq.z,
        0.5 / z,
        0.5 / n,
        -0.5 * rho / (z * z),
        -0.5 * rho / (n * n),
        0.5 / (z + n),
    ]
}
