// The request that the first bytes of a roll name, and the header of a request's roll. Each order of a request within the limits takes one byte.
ghost use Rattle.std.specs.Prelude.{◌≡◌, ◌+◌, ◌≤◌, ◌<◌, length};
ghost use Rattle.kind.specs.Limits.{request_orders};
ghost use Rattle.laws.specs.Total.{total};
ghost use Rattle.expansion.specs.inner.Requests.{RequestWithin};
ghost use Rattle.confirming.specs.inner.Quick.{first_named, request_opened};

use kind::Kind;
use roll::{Cursor, Opened};
use salvaging::Form;

// The kind that the first byte names; form 2 adds 16 to its number.
pub(crate) fn named_in(form: Form, roll: &[u8]) -> Option<Kind>
    ensures { result ≡ first_named form roll.now }
{
    if roll.is_empty() {
        return None;
    }
    match form {
        Form::One => Kind::of(roll[0]),
        Form::Two => Kind::of(roll[0] % 16),
    }
}

// The orders behind the first byte, as many as a kind has, and zeros behind them.
pub(crate) fn orders_in(roll: &[u8], count: usize) -> [u8; Kind::ORDERS]
    requires { (count ≤ request_orders) × (1 + count ≤ length roll.now) }
    ensures { length result ≡ request_orders }
{
    let mut orders = [0; Kind::ORDERS];
    orders[..count].copy_from_slice(&roll[1..1 + count]);
    orders
}

// An order as a part of the sum.
fn in_sum(order: u8) -> u32
    ensures { (result ≡ order) × (result < 256) }
{
    order as u32
}

// The sum of all orders.
fn sum(orders: [u8; Kind::ORDERS]) -> u32
    ensures { result ≡ total orders }
{
    let mut sum = 0;
    for order in orders.iter() {
        sum += in_sum(*order);
    }
    sum
}

// The header of a request's roll.
pub(crate) fn opened_of(kind: Kind, orders: [u8; Kind::ORDERS], count: u32) -> Opened
    requires { RequestWithin kind orders }
    ensures { result ≡ request_opened kind orders count }
{
    let cursor = Cursor {
        place: 1 + kind.orders() + number::length(count),
        left: count,
        kind: kind.number(),
        l: sum(orders) as u8,
    };
    Opened { cursor, orders }
}
