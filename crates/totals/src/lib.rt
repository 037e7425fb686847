// A total that a technician can check by hand: what the scales of all terms come to, worked out from the orders alone, and the sum of a roll's scales.
#![tactic(auto)]

ghost use Rattle.std.specs.Prelude.{◌≡◌, ◌+◌, ◌<◌, get_or};
ghost use Rattle.expansion.specs.inner.Requests.{RequestWithin};
ghost use Rattle.roll.specs.inner.Again.{terms_again};
ghost use Rattle.totals.specs.Totals.{scale_sum, listed, scale_total, claimed_total, kind_total, total_of, roll_total_of};
ghost use Rattle.totals.specs.inner.Running.{often_of, running, RunMay, ListedMay, ProductMay};

use expansion::{too_high, unused_set};
use kind::{Fault, Kind, Refusal};
use number::wide;
use roll::head_at;

// How often the last number of a kind's list and the one before it count: once, for nuclear twice.
fn often(kind: Kind) -> u64
    ensures { result ≡ often_of kind }
{
    match kind {
        Kind::Overlap | Kind::Moment => 1,
        Kind::Nuclear => 2,
        Kind::Kinetic | Kind::Coulomb => 0,
    }
}

// Number p of the list that starts 1, `often`: it is run along with two numbers, the one reached and the one after it.
fn run_to(often: u64, p: u64) -> u64
    requires { RunMay often p }
    ensures { result ≡ running often p }
{
    let mut reached = 1;
    let mut after = often;
    for n in 0..p {
        let next = often * after + often * (n + 1) * reached;
        reached = after;
        after = next;
    }
    reached
}

// Number p of a kind's list.
fn listed(kind: Kind, p: u64) -> u64
    requires { ListedMay kind p }
    ensures { result ≡ listed kind p }
{
    run_to(often(kind), p)
}

// The summed orders along an axis, the operator included.
fn along(orders: [u8; Kind::ORDERS], axis: usize) -> u64
    requires { axis < 3 }
    ensures { result ≡ get_or orders axis 0 + get_or orders (axis + 3) 0 + get_or orders (axis + 6) 0 }
{
    let a = wide(orders[axis]) as u64;
    let b = wide(orders[axis + 3]) as u64;
    let operator = wide(orders[axis + 6]) as u64;
    a + b + operator
}

// The product of three numbers from the list.
fn product(kind: Kind, orders: [u8; Kind::ORDERS]) -> u64
    requires { ProductMay kind orders }
    ensures { result ≡ scale_total kind orders }
{
    let x = listed(kind, along(orders, 0));
    let y = listed(kind, along(orders, 1));
    let z = listed(kind, along(orders, 2));
    x * y * z
}

// The number of a request within the limits, or none where none is claimed of its kind.
fn total_within(kind: Kind, orders: [u8; Kind::ORDERS]) -> Option<u64>
    requires { RequestWithin kind orders }
    ensures { result ≡ claimed_total kind orders }
{
    match kind {
        Kind::Overlap | Kind::Nuclear | Kind::Moment => Some(product(kind, orders)),
        Kind::Kinetic | Kind::Coulomb => None,
    }
}

// The same of a request of a known kind, whatever its orders.
fn kind_total(kind: Kind, orders: [u8; Kind::ORDERS]) -> Result<Option<u64>, Refusal>
    ensures { result ≡ kind_total kind orders }
{
    if too_high(kind, orders) {
        return Err(Refusal::OrderSum);
    }
    if unused_set(kind, orders) {
        return Err(Refusal::UnusedOrder);
    }
    Ok(total_within(kind, orders))
}

// What the scales of a request's terms come to, with no expansion; none where no number is claimed of its kind.
pub fn scale_total(kind: u8, orders: [u8; Kind::ORDERS]) -> Result<Option<u64>, Refusal>
    ensures { result ≡ total_of kind orders }
{
    let known = Kind::of(kind).ok_or(Refusal::WrongKind)?;
    kind_total(known, orders)
}

// The scales of so many terms of a judged roll, from a place on.
fn sum_from(roll: &[u8], start: usize, terms: u32) -> u64
    ensures { result ≡ scale_sum (terms_again roll.now start terms) }
{
    let mut sum: u64 = 0;
    let mut at = start;
    for done in 0..terms {
        let h = head_at(roll, at);
        sum += h.scale as u64;
        at = h.end;
    }
    sum
}

// The scales of all terms of a roll, added up (D-92).
pub fn roll_total(roll: &[u8]) -> Result<u64, Fault>
    ensures { result ≡ roll_total_of roll.now }
{
    let opened = roll::check(roll)?;
    let cursor = opened.cursor;
    Ok(sum_from(roll, cursor.place, cursor.left))
}
