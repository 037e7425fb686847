// What a request must keep, and its orders in a word.
ghost use Rattle.std.specs.Prelude.{◌≡◌, ◌||◌, ◌+◌, ◌<◌, ◌≤◌, get_or, drop};
ghost use Rattle.kind.specs.Kinds.{orders_of};
ghost use Rattle.kind.specs.Limits.{most_order};
ghost use Rattle.steps.specs.Choice.{sum_of};
ghost use Rattle.laws.specs.Total.{total};
ghost use Rattle.expansion.specs.Expanding.{◌exceeds◌, too_high, unused_set};
ghost use Rattle.expansion.specs.inner.Requests.{PackMay, Packed};

use kind::Kind;
use steps::CentreName;

// An order as a part of the word.
fn in_word(order: u8) -> u64
    ensures { (result ≡ order) × (result < 256) }
{
    order as u64
}

// The sum of three orders.
fn three(orders: [u8; Kind::ORDERS], first: usize) -> u64
    requires { first ≤ 9 }
    ensures { (result ≡ get_or orders first 0 + get_or orders (first + 1) 0 + get_or orders (first + 2) 0) × (result < 768) }
{
    in_word(orders[first]) + in_word(orders[first + 1]) + in_word(orders[first + 2])
}

// The order sum of a centre.
pub fn sum_of(orders: [u8; Kind::ORDERS], centre: CentreName) -> u64
    ensures { result ≡ sum_of orders centre }
{
    match centre {
        CentreName::A => three(orders, 0),
        CentreName::B => three(orders, 3),
        CentreName::C => three(orders, 6),
        CentreName::D => three(orders, 9),
    }
}

fn is_above(orders: [u8; Kind::ORDERS], centre: CentreName) -> bool
    ensures { result ≡ (sum_of orders centre exceeds most_order) }
{
    (Kind::MOST_ORDER as u64) < sum_of(orders, centre)
}

fn two_above(orders: [u8; Kind::ORDERS]) -> bool
    ensures { result ≡ (sum_of orders CentreName.A exceeds most_order || sum_of orders CentreName.B exceeds most_order) }
{
    is_above(orders, CentreName::A) || is_above(orders, CentreName::B)
}

fn three_above(orders: [u8; Kind::ORDERS]) -> bool
    ensures { result ≡ ((sum_of orders CentreName.A exceeds most_order || sum_of orders CentreName.B exceeds most_order) || sum_of orders CentreName.C exceeds most_order) }
{
    two_above(orders) || is_above(orders, CentreName::C)
}

fn four_above(orders: [u8; Kind::ORDERS]) -> bool
    ensures { result ≡ too_high Kind.Coulomb orders }
{
    three_above(orders) || is_above(orders, CentreName::D)
}

// Refusal 2: an order sum that the kind uses is above the limit.
pub fn too_high(kind: Kind, orders: [u8; Kind::ORDERS]) -> bool
    ensures { result ≡ too_high kind orders }
{
    match kind {
        Kind::Overlap | Kind::Kinetic | Kind::Nuclear => two_above(orders),
        Kind::Moment => three_above(orders),
        Kind::Coulomb => four_above(orders),
    }
}

// The orders that a kind leaves unused, added up.
fn unused(kind: Kind, orders: [u8; Kind::ORDERS]) -> u64
    ensures { result ≡ total (drop (orders_of kind) orders) }
{
    match kind {
        Kind::Overlap | Kind::Kinetic | Kind::Nuclear => three(orders, 6) + three(orders, 9),
        Kind::Moment => three(orders, 9),
        Kind::Coulomb => 0,
    }
}

// Refusal 3: an order that the kind leaves unused is not 0.
pub fn unused_set(kind: Kind, orders: [u8; Kind::ORDERS]) -> bool
    ensures { result ≡ unused_set kind orders }
{
    0 < unused(kind, orders)
}

// The orders in a word, four bits each, the first lowest.
pub(crate) fn packed(orders: [u8; Kind::ORDERS]) -> u64
    requires { PackMay orders }
    ensures { Packed orders 0 result }
{
    let mut word: u64 = 0;
    for i in (0..Kind::ORDERS).rev() {
        word = word * 16 + in_word(orders[i]);
    }
    word
}
