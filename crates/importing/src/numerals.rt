// The numbers of a line of the shape, read from their places, each within its limits.
ghost use Rattle.std.specs.Prelude.{◌≡◌, ◌+◌, ◌≤◌};
ghost use Rattle.kind.specs.Limits.{most_order, request_orders};
ghost use Rattle.roll.specs.Reading.{sum_after};
ghost use Rattle.importing.specs.inner.Places.{within_at, orders_at, head_orders_at, head_at, each_at, boys_at, term_at};

use kind::Kind;

// A first line's kind, L and term count.
#[derive(Clone, Copy)]
pub(crate) struct Head {
    pub kind: Kind,
    pub l: u8,
    pub terms: u32,
}

// The number at a place, within its limits, and the place after the byte that ends it; one of any number of digits is wrong above them.
pub(crate) fn within(s: &[u8], at: usize, low: u32, high: u32) -> Option<(u32, usize)>
    ensures { result ≡ within_at s.now at low high }
{
    let (n, next) = text::read_decimal(s, at)?;
    if n < low as u64 || (high as u64) < n || s.len() <= next {
        return None;
    }
    Some((n as u32, next + 1))
}

// The order sum on a centre after its order number `i`; after its third order the next centre begins.
fn sum_after(i: usize, sum: u32, order: u32) -> u32
    requires { sum + order ≤ most_order }
    ensures { result ≡ sum_after i sum order }
{
    if i % 3 == 2 { 0 } else { sum + order }
}

// The first `n` orders, x y z by centre: L, and the place after them.
fn orders(s: &[u8], at: usize, n: usize) -> Option<(u32, usize)>
    requires { n ≤ request_orders }
    ensures { result ≡ orders_at s.now at n 0 0 0 }
{
    let mut place = at;
    let mut sum = 0;
    let mut l = 0;
    for i in 0..n {
        let (order, next) = within(s, place, 0, Kind::MOST_ORDER as u32 - sum)?;
        place = next;
        sum = sum_after(i, sum, order);
        l += order;
    }
    Some((l, place))
}

// A first line from its orders on, of a kind that has a name.
fn head_orders(s: &[u8], at: usize, kind: Kind) -> Option<Head>
    ensures { result ≡ head_orders_at s.now at kind }
{
    let (l, next) = orders(s, at, kind.orders())?;
    let (terms, _) = within(s, next, 1, Kind::MOST_TERMS)?;
    Some(Head {
        kind,
        l: l as u8,
        terms,
    })
}

// A first line of `n` numbers.
pub(crate) fn first_line(s: &[u8], n: usize) -> Option<Head>
    ensures { result ≡ head_at s.now n }
{
    let (number, next) = within(s, 0, 0, Kind::Coulomb.number() as u32)?;
    let kind = Kind::of(number as u8)?;
    if n != kind.orders() + 2 {
        return None;
    }
    head_orders(s, next, kind)
}

// So many numbers, each at most `high`; the size is handed on.
fn each(s: &[u8], at: usize, n: usize, high: u32, size: u32) -> Option<(u32, usize)>
    ensures { result ≡ each_at s.now at n high size }
{
    let mut place = at;
    for done in 0..n {
        let (_, next) = within(s, place, 0, high)?;
        place = next;
    }
    Some((size, place))
}

// A term from its Boys order on, with `n` prefactors.
fn boys(s: &[u8], at: usize, n: usize, kind: Kind, l: u8, size: u32) -> Option<(u32, usize)>
    ensures { result ≡ boys_at s.now at n kind l size }
{
    let (_, next) = within(s, at, 0, roll::most_boys(kind, l) as u32)?;
    each(s, next, n, kind.table() as u32 - 1, size)
}

// A term of `n` numbers: how many bytes its writing has.
pub(crate) fn term(s: &[u8], at: usize, n: usize, kind: Kind, l: u8) -> Option<(u32, usize)>
    requires { 2 ≤ n }
    ensures { result ≡ term_at s.now at n kind l }
{
    if kind.most_prefactors(l) + 2 < n {
        return None;
    }
    let (scale, next) = within(s, at, 1, Kind::MOST_SCALE)?;
    let size = number::length(scale) as u32 + n as u32;
    boys(s, next, n - 2, kind, l, size)
}
