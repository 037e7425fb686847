// The sums of the five get_ functions of os86.rs, over the terms of a roll.
ghost use Rattle.std.specs.Prelude.{◌+◌, ◌≤◌, ◌≡◌, length, get_or};
ghost use Rattle.geometry.specs.Floats.{◌⊕◌, ◌⊗◌, zero};
ghost use Rattle.integrals.specs.Sums.{boys_number, product_of, g_of, stays_kinetic, coulomb_of, sum_from, of_order, run_orders, total_of};
ghost use Rattle.roll.specs.inner.Again.{head_at, between, head_term, terms_again};
ghost use Rattle.integrals.specs.inner.Stored.{add_order_of, start_of, addend_of, own_order_of, again_from};

use kind::Kind;
use number::wide;
use roll::{Cursor, Head, boys_at, end_at, head_at};

// The terms of a judged roll: their kind, and the cursor that stands before them.
#[derive(Clone, Copy)]
pub struct Terms {
    pub kind: Kind,
    pub cursor: Cursor,
}

// What a term adds to a sum in list order; a kinetic one with where g starts of a term that stays kinetic.
#[derive(Clone, Copy)]
enum Adds {
    Plain,
    Kinetic(f64),
    Nuclear,
}

// A float of a lent slice, 0.0 past its end.
fn float_at(floats: &[f64], at: usize) -> f64
    ensures { result ≡ get_or floats.now at zero }
{
    if at < floats.len() { floats[at] } else { 0.0 }
}

// g, multiplied by the table's entries in listed order (D-73).
fn product(table: &[f64], roll: &[u8], from: usize, end: usize, start: f64) -> f64
    requires { end ≤ length roll.now }
    ensures { result ≡ product_of table.now (between roll.now from end) start }
{
    let mut g = start;
    for at in from..end {
        g = g * float_at(table, wide(roll[at]) as usize);
    }
    g
}

// Whether a kinetic term has no prefactor above 7.
fn stays_kinetic(roll: &[u8], from: usize, end: usize) -> bool
    requires { end ≤ length roll.now }
    ensures { result ≡ stays_kinetic (between roll.now from end) }
{
    for at in from..end {
        if 7 < wide(roll[at]) {
            return false;
        }
    }
    true
}

// Where g starts: a kinetic term with no prefactor above 7 at the start that the centres give, any other at 1.0.
fn start_of(adds: Adds, roll: &[u8], from: usize, end: usize) -> f64
    requires { end ≤ length roll.now }
    ensures { result ≡ start_of adds (between roll.now from end) }
{
    match adds {
        Adds::Kinetic(kinetic) => if stays_kinetic(roll, from, end) {
            kinetic
        } else {
            1.0
        },
        Adds::Plain | Adds::Nuclear => 1.0,
    }
}

// What one term adds to the sum.
fn addend(adds: Adds, table: &[f64], aux: f64, boys: &[f64], roll: &[u8], h: Head) -> f64
    requires { h.end ≤ length roll.now }
    ensures { result ≡ addend_of adds table.now aux boys.now (head_term roll.now h) }
{
    let start = start_of(adds, roll, h.from, h.end);
    let g = product(table, roll, h.from, h.end, start);
    let scale = h.scale as f64;
    match adds {
        Adds::Plain | Adds::Kinetic(_) => scale * aux * g,
        Adds::Nuclear => scale * aux * g * float_at(boys, h.boys as usize),
    }
}

// The sum in list order.
fn sum(
    adds: Adds,
    table: &[f64],
    aux: f64,
    boys: &[f64],
    roll: &[u8],
    start: usize,
    terms: u32,
) -> f64
    ensures { result ≡ sum_from (addend_of adds table.now aux boys.now) (terms_again roll.now start terms) zero }
{
    let mut sum = 0.0;
    let mut at = start;
    for done in 0..terms {
        let h = head_at(roll, at);
        sum = sum + addend(adds, table, aux, boys, roll, h);
        at = h.end;
    }
    sum
}

// What the term at a place adds to the sum of its Boys order.
fn add_term(b: f64, table: &[f64], roll: &[u8], h: Head, sum: f64) -> f64
    requires { h.end ≤ length roll.now }
    ensures { result ≡ sum ⊕ coulomb_of table.now b (head_term roll.now h) }
{
    let g = product(table, roll, h.from, h.end, 1.0);
    sum + h.scale as f64 * b * g
}

// A term of the Boys order that is summed adds scale·b·g, any other nothing.
fn add_order(order: usize, b: f64, table: &[f64], roll: &[u8], at: usize, sum: f64) -> f64
    ensures { result ≡ add_order_of order b table.now (head_term roll.now (head_at roll.now at)) sum }
{
    if boys_at(roll, at) == order {
        return add_term(b, table, roll, head_at(roll, at), sum);
    }
    sum
}

// The terms of one Boys order, in list order.
fn pass(
    order: usize,
    table: &[f64],
    s: f64,
    boys: &[f64],
    roll: &[u8],
    start: usize,
    terms: u32,
    before: f64,
) -> f64
    ensures { result ≡ sum_from (coulomb_of table.now (boys_number boys.now order ⊗ s)) (of_order order (terms_again roll.now start terms)) before }
{
    let b = float_at(boys, order) * s;
    let mut sum = before;
    let mut at = start;
    for done in 0..terms {
        sum = add_order(order, b, table, roll, at, sum);
        at = end_at(roll, at);
    }
    sum
}

// The product of a term's entries, wherever it says that it ends.
fn product_of(table: &[f64], bytes: &[u8], from: usize, end: usize) -> f64
    ensures { result ≡ g_of table.now (between bytes.now from end) }
{
    product(table, bytes, from, end.min(bytes.len()), 1.0)
}

// What a term adds that stands among those of its own Boys order: scale·(F(order)·s)·g.
pub fn coulomb_term(table: &[f64], s: f64, boys: &[f64], bytes: &[u8], h: Head) -> f64
    ensures { result ≡ own_order_of table.now s boys.now (head_term bytes.now h) }
{
    let b = float_at(boys, h.boys as usize) * s;
    let g = product_of(table, bytes, h.from, h.end);
    h.scale as f64 * b * g
}

// Coulomb runs the Boys orders from 0 to L.
fn by_order(
    l: u8,
    table: &[f64],
    s: f64,
    boys: &[f64],
    roll: &[u8],
    start: usize,
    terms: u32,
) -> f64
    ensures { result ≡ run_orders table.now s boys.now (terms_again roll.now start terms) (l + 1) 0 zero }
{
    let mut sum = 0.0;
    for order in 0..=l as usize {
        sum = pass(order, table, s, boys, roll, start, terms, sum);
    }
    sum
}

// The sum of the terms' kind.
pub(crate) fn total(
    terms: Terms,
    kinetic: f64,
    table: &[f64],
    aux: f64,
    boys: &[f64],
    roll: &[u8],
) -> f64
    ensures { result ≡ total_of terms.kind terms.cursor.l kinetic table.now aux boys.now (again_from roll.now terms.cursor) }
{
    let Cursor { place, left, l, .. } = terms.cursor;
    match terms.kind {
        Kind::Overlap | Kind::Moment => sum(Adds::Plain, table, aux, boys, roll, place, left),
        Kind::Kinetic => sum(Adds::Kinetic(kinetic), table, aux, boys, roll, place, left),
        Kind::Nuclear => sum(Adds::Nuclear, table, aux, boys, roll, place, left),
        Kind::Coulomb => by_order(l, table, aux, boys, roll, place, left),
    }
}
