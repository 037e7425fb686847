// The comparison of two rolls: both are judged, the left one first, then gone through once to count what differs.
ghost use Rattle.std.specs.Prelude.{◌≡◌, ◌≤◌, ◌*◌, not, length, take, Ok};
ghost use Rattle.kind.specs.Limits.{most_terms};
ghost use Rattle.laws.specs.Same.{same_numbers};
ghost use Rattle.comparing.specs.Pairs.{is_line, terms_left, lines_of};
ghost use Rattle.comparing.specs.Answers.{compared_of, used_of};
ghost use Rattle.comparing.specs.inner.Judged.{Judged};

use crate::pair::{Met, Pair};
use crate::sides::{Side, Sided};
use form2::Opened2;
use kind::Kind;

// How many positions differ, whether kinds, orders and term counts differ, the orders of each side, and the pair at the first
// terms, which has kinds and term counts.
#[derive(Clone, Copy)]
pub struct Compared {
    pub differ: u32,
    pub kinds: bool,
    pub orders: bool,
    pub terms: bool,
    pub left: [u8; Kind::ORDERS],
    pub right: [u8; Kind::ORDERS],
    pub cursor: Pair,
}

// Whether a step has met a position that differs.
pub fn is_line(answer: Result<Option<Met>, Sided>) -> bool
    ensures { result ≡ is_line answer }
{
    match answer {
        Ok(Some(_)) => true,
        Ok(None) | Err(_) => false,
    }
}

// How many positions the steps from a pair on give.
fn count(pair: Pair, left: &[u8], right: &[u8]) -> u32
    requires { terms_left pair ≤ 2 * most_terms }
    ensures { result ≡ length (lines_of pair left.now right.now) }
{
    let mut at = pair;
    let mut n = 0;
    while let Ok(Some(met)) = at.next(left, right) {
        n += 1;
        at = met.next;
    }
    n
}

// How many orders a kind uses; all that are held, of a forged one.
pub(crate) fn used(kind: u8) -> usize
    ensures { result ≡ used_of kind }
{
    match Kind::of(kind) {
        Some(kind) => kind.orders(),
        None => Kind::ORDERS,
    }
}

// Whether the orders that two kinds use differ.
fn orders_differ(a: u8, left: [u8; Kind::ORDERS], b: u8, right: [u8; Kind::ORDERS]) -> bool
    ensures { result ≡ not (same_numbers (take (used_of a) left) (take (used_of b) right)) }
{
    let n = used(a);
    let m = used(b);
    &left[0..n] != &right[0..m]
}

// Both rolls are judged: what differs.
fn what_differs(left: &[u8], right: &[u8], l: Opened2, r: Opened2) -> Compared
    requires judged { Judged l left.now }
    requires judged_2 { Judged r right.now }
    ensures { Ok result ≡ compared_of left.now right.now }
{
    let first = l.orders;
    let second = r.orders;
    let a = l.cursor.cursor;
    let b = r.cursor.cursor;
    let cursor = Pair {
        left: l.cursor,
        right: r.cursor,
        number: 1,
    };
    Compared {
        differ: count(cursor, left, right),
        kinds: a.kind != b.kind,
        orders: orders_differ(a.kind, first, b.kind, second),
        terms: a.left != b.left,
        left: first,
        right: second,
        cursor,
    }
}

// What differs between two rolls, each of either form.
pub fn compare(left: &[u8], right: &[u8]) -> Result<Compared, Sided>
    ensures { result ≡ compared_of left.now right.now }
{
    let l = Side::Left.check(left)?;
    let r = Side::Right.check(right)?;
    Ok(what_differs(left, right, l, r))
}
