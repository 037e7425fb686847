// The roll of a text that was judged: its numbers one after the other, and each term's prefactor count.
ghost use Rattle.std.specs.Prelude.{◌≡◌, ◌+◌, ◌≤◌, length};
ghost use Rattle.std.proofs.lemmas.List.Edits.{sets};
ghost use Rattle.number.specs.Numbers.{bytes_of, length_of};
ghost use Rattle.importing.specs.inner.Places.{copied_at, Copied, further as Places·further, term_put, terms_put, roll_put, Wrote};

use crate::lines::shape_at;
use crate::numerals::within;

// Where reading and writing stand.
#[derive(Clone, Copy)]
pub(crate) struct Spot {
    text: usize,
    roll: usize,
}

// A number's bytes, which have room.
fn put(out: &mut [u8], at: usize, n: u32) -> usize
    requires { at + length_of n ≤ length out.old }
    ensures { Wrote (bytes_of n) out.old at result out.new }
{
    number::write(out, at, n).unwrap_or(at)
}

// So many numbers of a line.
fn copy(text: &[u8], at: usize, n: usize, out: &mut [u8], place: usize) -> Spot
    requires { place + length (copied_at text.now at n) ≤ length out.old }
    ensures { Copied text.now at n out.old place result out.new }
{
    let mut from = at;
    let mut to = place;
    for done in 0..n {
        let Some((v, next)) = within(text, from, 0, u32::MAX) else {
            break;
        };
        to = put(out, to, v);
        from = next;
    }
    Spot {
        text: from,
        roll: to,
    }
}

// The prefactors of a line of `n` numbers.
fn further(n: usize) -> u32
    ensures { result ≡ Places·further n }
{
    n.saturating_sub(2).min(u32::MAX as usize) as u32
}

// A term's line of `n` numbers; the place after what was written.
fn put_term(text: &[u8], at: usize, n: usize, out: &mut [u8], place: usize) -> usize
    requires { place + length (term_put text.now at n) ≤ length out.old }
    ensures { Wrote (term_put text.now at n) out.old place result out.new }
{
    let count = further(n);
    let headed = copy(text, at, 2, out, place);
    let counted = put(out, headed.roll, count);
    let ended = copy(text, headed.text, count as usize, out, counted);
    ended.roll
}

// The lines of so many terms.
fn put_terms(text: &[u8], at: usize, terms: u32, out: &mut [u8], place: usize)
    requires { place + length (terms_put text.now at terms) ≤ length out.old }
    ensures { out.new ≡ sets out.old place (terms_put text.now at terms) }
{
    let mut from = at;
    let mut to = place;
    for done in 0..terms {
        let Some((n, next)) = shape_at(text, from) else {
            return;
        };
        to = put_term(text, from, n, out, to);
        from = next;
    }
}

// The whole text.
pub(crate) fn put_roll(text: &[u8], out: &mut [u8], start: usize, terms: u32)
    requires { start + length (roll_put text.now terms) ≤ length out.old }
    ensures { out.new ≡ sets out.old start (roll_put text.now terms) }
{
    if let Some((n, next)) = shape_at(text, 0) {
        let headed = copy(text, 0, n, out, start);
        put_terms(text, next, terms, out, headed.roll)
    }
}
