// The header of a roll: kind, orders and term count.
ghost use Rattle.std.specs.Prelude.{◌≡◌, ◌+◌, ◌≤◌};
ghost use Rattle.kind.specs.Limits.{most_order, request_orders};
ghost use Rattle.roll.specs.Reading.{sum_after, orders_at};
ghost use Rattle.roll.specs.Header.{refused_opened, open_kind_of, open_of};
ghost use Rattle.roll.specs.inner.Held.{held_orders};

use crate::cursor::Cursor;
use crate::field::{bad_roll, within};
use kind::{Fault, Kind, Refusal};

// A roll's orders, zeros after them, and the cursor at its first term.
#[derive(Clone, Copy)]
pub struct Opened {
    pub cursor: Cursor,
    pub orders: [u8; Kind::ORDERS],
}

// The answer of a roll that is refused, with the place of the refusal.
pub fn refused_roll(refusal: Refusal, place: usize) -> Result<Opened, Fault>
    ensures { result ≡ refused_opened refusal place }
{
    Err(Fault { refusal, place })
}

// The orders of a roll, zeros after them, their sum, and the place after them.
#[derive(Clone, Copy)]
struct ReadOrders {
    values: [u8; Kind::ORDERS],
    l: u32,
    end: usize,
}

// The order sum on a centre after its order number `i`; after its third order the next centre begins.
fn sum_after(i: usize, sum: u32, order: u32) -> u32
    requires { sum + order ≤ most_order }
    ensures { result ≡ sum_after i sum order }
{
    if i % 3 == 2 { 0 } else { sum + order }
}

// The first `n` orders of a roll, x y z by centre.
fn orders(roll: &[u8], at: usize, n: usize) -> Result<ReadOrders, Fault>
    requires { n ≤ request_orders }
    ensures { result ≡ held_orders (orders_at roll.now at n 0 0) }
{
    let mut values = [0; Kind::ORDERS];
    let mut place = at;
    let mut sum = 0;
    let mut l = 0;
    for i in 0..n {
        let (order, next) = within(roll, place, 0, Kind::MOST_ORDER as u32 - sum)?;
        values[i] = order as u8;
        place = next;
        sum = sum_after(i, sum, order);
        l += order;
    }
    Ok(ReadOrders {
        values,
        l,
        end: place,
    })
}

// A header from its orders on, of a kind that has a name: what both forms of a roll have. The term count ends it.
pub fn open_kind(roll: &[u8], at: usize, kind: Kind) -> Result<Opened, Fault>
    ensures { result ≡ open_kind_of roll.now at kind }
{
    let read = orders(roll, at, kind.orders())?;
    let (terms, place) = within(roll, read.end, 1, Kind::MOST_TERMS)?;
    let cursor = Cursor {
        place,
        left: terms,
        kind: kind.number(),
        l: read.l as u8,
    };
    let orders = read.values;
    Ok(Opened { cursor, orders })
}

// A roll's kind, orders and term count; the terms are not looked at (D-12).
pub fn open(roll: &[u8]) -> Result<Opened, Fault>
    ensures { result ≡ open_of roll.now }
{
    let (number, next) = within(roll, 0, 0, Kind::Coulomb.number() as u32)?;
    match Kind::of(number as u8) {
        Some(kind) => open_kind(roll, next, kind),
        None => Err(bad_roll(0)),
    }
}
