// How long a request's roll is, before a byte of it is written.
ghost use Rattle.std.specs.Prelude.{◌≡◌, [], ◌+◌, leb, length};
ghost use Rattle.kind.specs.Kinds.{kind_of, orders_of};
ghost use Rattle.number.specs.Numbers.{length_of};
ghost use Rattle.form2.specs.Bytes.{terms_bytes2};
ghost use Rattle.expansion.specs.Expanding.{terms_of, kind_measured, named_measured};
ghost use Rattle.expansion.specs.inner.Requests.{roll_in, WordMay, LongMay};

use crate::Expanded;
use crate::header::first;
use crate::measure::measure_node;
use crate::request::{packed, too_high, unused_set};
use crate::sink::{FORM1, SIZE2};
use crate::walk::node;
use kind::{Kind, Refusal};

// How many bytes stand before the terms.
fn head(kind: Kind, terms: u32) -> usize
    ensures { result ≡ 1 + orders_of kind + length_of terms }
{
    1 + kind.orders() + number::length(terms)
}

// The length and the term count of a request's roll.
pub(crate) fn sized(kind: Kind, orders: [u8; Kind::ORDERS], left: u64) -> Result<Expanded, Refusal>
    requires { WordMay kind orders left }
    ensures { result ≡ kind_measured kind orders }
{
    let Some((count, bytes)) = measure_node(kind, left, 1, 0) else {
        return Err(Refusal::TooManyTerms);
    };
    let terms = count as u32;
    let length = head(kind, terms) + bytes as usize;
    Ok(Expanded { length, terms })
}

// The bytes of a request's terms in form 2, by a walk that writes nothing.
fn terms2(kind: Kind, orders: [u8; Kind::ORDERS], left: u64, size: Expanded) -> u64
    requires { LongMay kind orders left size }
    ensures { result ≡ length (terms_bytes2 [] (terms_of kind orders)) }
{
    let mut nothing = [0u8; 1];
    let mut sink = [SIZE2, 0, 0, 0, 0];
    node(&mut nothing, &mut sink, kind, left, first());
    sink[1]
}

// Whether a request's roll has room in so many bytes. A form 2 term has at most one byte more than in form 1, so mostly that is
// known without a walk.
pub(crate) fn fits(
    form: u64,
    kind: Kind,
    orders: [u8; Kind::ORDERS],
    left: u64,
    size: Expanded,
    room: usize,
) -> bool
    requires { LongMay kind orders left size }
    ensures { result ≡ leb (length (roll_in form kind orders)) room }
{
    if form == FORM1 {
        return size.length <= room;
    }
    if size.length + size.terms as usize <= room {
        return true;
    }
    head(kind, size.terms) + terms2(kind, orders, left, size) as usize <= room
}

// Measures a request of a known kind.
fn kind_size(kind: Kind, orders: [u8; Kind::ORDERS]) -> Result<Expanded, Refusal>
    ensures { result ≡ kind_measured kind orders }
{
    if too_high(kind, orders) {
        return Err(Refusal::OrderSum);
    }
    if unused_set(kind, orders) {
        return Err(Refusal::UnusedOrder);
    }
    let left = packed(orders);
    sized(kind, orders, left)
}

// Measures the roll of a request and writes nothing, so that a caller lends just what it takes.
pub fn roll_size(kind: u8, orders: [u8; Kind::ORDERS]) -> Result<Expanded, Refusal>
    ensures { result ≡ named_measured (kind_of kind) orders }
{
    let known = Kind::of(kind).ok_or(Refusal::WrongKind)?;
    kind_size(known, orders)
}
