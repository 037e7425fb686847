// A request's roll held against lent bytes. Nothing is written and no buffer is lent: the walk compares as it goes.
ghost use Rattle.std.specs.Prelude.{◌≡◌, length};
ghost use Rattle.kind.specs.Kinds.{kind_of};
ghost use Rattle.expansion.specs.Expanding.{terms_of, roll_of, roll_of2};
ghost use Rattle.expansion.specs.Against.{held_against, kind_against, named_against};
ghost use Rattle.expansion.specs.inner.Requests.{roll_in};
ghost use Rattle.expansion.specs.inner.Matching.{CountMay, HeadSame};

use crate::header::{begins, first, put_head};
use crate::matching::{Against, match_node};
use crate::request::{packed, too_high, unused_set};
use crate::sink::{FORM1, FORM2};
use crate::size::sized;
use form2::alike;
use kind::{Kind, Refusal};

// What stands before the terms has no more bytes.
const HEAD: usize = 32;

// Holds the terms of a request against bytes that begin as its roll does.
fn held_terms(
    form: u64,
    kind: Kind,
    orders: [u8; Kind::ORDERS],
    left: u64,
    count: u32,
    at: usize,
    roll: &[u8],
) -> Against
    requires count_may { CountMay kind orders left count }
    requires head_same { HeadSame form kind orders roll.now at }
    ensures { result ≡ held_against roll.now (roll_in form kind orders) (length (terms_of kind orders)) }
{
    let mut state = [form, at as u64, 0, 0, 0, 0];
    match_node(roll, &mut state, kind, left, first());
    let place = state[1] as usize;
    if state[2] != 0 {
        return Against::Differs(place);
    }
    if place != roll.len() {
        return Against::Differs(place);
    }
    Against::Same(place, count)
}

// Holds the roll of a request that was measured against bytes.
fn held(
    form: u64,
    kind: Kind,
    orders: [u8; Kind::ORDERS],
    left: u64,
    count: u32,
    roll: &[u8],
) -> Against
    requires { CountMay kind orders left count }
    ensures { result ≡ held_against roll.now (roll_in form kind orders) (length (terms_of kind orders)) }
{
    let mut bytes = [0u8; HEAD];
    let all = put_head(&mut bytes, begins(form), kind, orders, count as u64);
    let same = alike(roll, &bytes[..all]);
    if same < all {
        return Against::Differs(same);
    }
    held_terms(form, kind, orders, left, count, all, roll)
}

// The same of a request of a known kind.
fn against_kind(
    form: u64,
    kind: Kind,
    orders: [u8; Kind::ORDERS],
    roll: &[u8],
) -> Result<Against, Refusal>
    ensures { result ≡ kind_against (roll_in form) kind orders roll.now }
{
    if too_high(kind, orders) {
        return Err(Refusal::OrderSum);
    }
    if unused_set(kind, orders) {
        return Err(Refusal::UnusedOrder);
    }
    let left = packed(orders);
    let size = sized(kind, orders, left)?;
    Ok(held(form, kind, orders, left, size.terms, roll))
}

// The same of a request in a form.
fn against_in(
    form: u64,
    kind: u8,
    orders: [u8; Kind::ORDERS],
    roll: &[u8],
) -> Result<Against, Refusal>
    ensures { result ≡ named_against (roll_in form) (kind_of kind) orders roll.now }
{
    let known = Kind::of(kind).ok_or(Refusal::WrongKind)?;
    against_kind(form, known, orders, roll)
}

// Holds a request's roll against bytes.
pub fn against(kind: u8, orders: [u8; Kind::ORDERS], roll: &[u8]) -> Result<Against, Refusal>
    ensures { result ≡ named_against roll_of (kind_of kind) orders roll.now }
{
    against_in(FORM1, kind, orders, roll)
}

// Holds a request's form 2 roll against bytes.
pub fn against2(kind: u8, orders: [u8; Kind::ORDERS], roll: &[u8]) -> Result<Against, Refusal>
    ensures { result ≡ named_against roll_of2 (kind_of kind) orders roll.now }
{
    against_in(FORM2, kind, orders, roll)
}
