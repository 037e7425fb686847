// A roll: kind, orders, term count, terms.
ghost use Rattle.std.specs.Prelude.{◌≡◌, ◌+◌, ◌≤◌, length, take};
ghost use Rattle.std.proofs.lemmas.List.Edits.{sets};
ghost use Rattle.kind.specs.Limits.{request_orders};
ghost use Rattle.expansion.specs.inner.View.{path_term, Emitted};
ghost use Rattle.expansion.specs.inner.Requests.{roll_in, form_of, head_of, HeadMay, RollMay, empty_term};

use crate::Path;
use crate::sink::FORM1;
use crate::terms::put_number;
use crate::walk::node;
use kind::Kind;

// Form 2 begins with kind + 16.
const FORM_TWO: u8 = 16;

// Writes the first `count` orders, one byte each, from place 1 on.
fn put_orders(out: &mut [u8], orders: [u8; Kind::ORDERS], count: usize)
    requires { (count ≤ request_orders) × (1 + count ≤ length out.old) }
    ensures { out.new ≡ sets out.old 1 (take count orders) }
{
    for i in 0..count {
        out[1 + i] = orders[i];
    }
}

// A term with nothing done yet.
pub(crate) fn first() -> Path
    ensures { path_term result ≡ empty_term }
{
    Path {
        scale: 1,
        boys: 0,
        count: 0,
        low: 0,
        high: 0,
    }
}

// What a form adds to the kind.
pub(crate) fn begins(form: u64) -> u8
    ensures { result ≡ form_of form }
{
    if form == FORM1 { 0 } else { FORM_TWO }
}

// Writes what stands before the terms of a roll.
pub(crate) fn put_head(
    out: &mut [u8],
    form: u8,
    kind: Kind,
    orders: [u8; Kind::ORDERS],
    terms: u64,
) -> usize
    requires { HeadMay form kind orders terms out.old }
    ensures { Emitted (head_of form kind orders) 0 out.old result out.new }
{
    let count = kind.orders();
    out[0] = form + kind.number();
    put_orders(out, orders, count);
    put_number(out, 1 + count, terms)
}

// Writes a roll at the front of a buffer that has room for it.
pub(crate) fn put_roll(
    out: &mut [u8],
    form: u64,
    kind: Kind,
    orders: [u8; Kind::ORDERS],
    left: u64,
    terms: u64,
) -> usize
    requires { RollMay form kind orders left terms out.old }
    ensures { Emitted (roll_in form kind orders) 0 out.old result out.new }
{
    let at = put_head(out, begins(form), kind, orders, terms);
    let mut sink = [form, at as u64, 0, 0, 0];
    node(out, &mut sink, kind, left, first());
    sink[1] as usize
}
