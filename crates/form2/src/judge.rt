// The judge of a whole form 2 roll: its terms are gone over once, and what they take in form 1 is measured on the way.
ghost use Rattle.std.specs.Prelude.{◌≡◌, [], ◌≤◌, length, take};
ghost use Rattle.kind.specs.Limits.{most_l·any};
ghost use Rattle.kind.specs.Kinds.{most_l};
ghost use Rattle.form2.specs.Reading.{front_at, term_after, terms_after};
ghost use Rattle.form2.specs.Header.{check2_of};
ghost use Rattle.form2.specs.inner.Held.{held_front, AfterMay, AfterTold, term_length, size_plus, end_size, sized_of};

use crate::header::{Opened2, bad_roll, begun, header};
use crate::quick::{is_short, place_short, short_front};
use crate::terms::{ReadAfter, ReadFront, front_boys, term_after};
use kind::{Fault, Kind};
use roll::{Opened, most_boys, within};

// The header's answer, and how many bytes its terms take in form 1.
#[derive(Clone, Copy)]
pub(crate) struct Sized {
    pub(crate) opened: Opened,
    pub(crate) size: usize,
}

// How many bytes a term takes in form 1.
fn term_length(scale: u32, boys: u32, count: u32) -> usize
    requires { count ≤ most_l·any }
    ensures { result ≡ term_length scale boys count }
{
    number::length(scale) + number::length(boys) + number::length(count) + count as usize
}

// Nothing follows the last term.
fn end_size(length: usize, place: usize, size: usize) -> Result<usize, Fault>
    ensures { result ≡ end_size length place size }
{
    if place == length {
        return Ok(size);
    }
    Err(bad_roll(place))
}

// A term's four numbers, most by the short way; called once, so that the loop has it inside.
fn numbers(roll: &[u8], at: usize, kind: Kind, l: u8, longest: u32) -> Result<ReadFront, Fault>
    requires { AfterMay kind l longest }
    ensures { result ≡ held_front (front_at roll.now at kind l longest) }
{
    let boys = most_boys(kind, l) as u32;
    let most = kind.most_prefactors(l) as u32;
    let (scale, next) = within(roll, at, 1, Kind::MOST_SCALE)?;
    if is_short(roll, next, boys, longest, most) {
        return Ok(short_front(roll, scale, next));
    }
    front_boys(roll, next, kind, l, longest, scale)
}

// The term at a place, as `term_after` has it, most by the short way.
fn next_term(
    roll: &[u8],
    at: usize,
    kind: Kind,
    l: u8,
    values: &mut [u8; Kind::PREFACTORS],
    count: usize,
) -> Result<ReadAfter, Fault>
    requires after_may { AfterMay kind l count }
    requires values_len { length values.old ≡ most_l·any }
    ensures { AfterTold values.old (term_after roll.now at kind l (take count values.old)) result values.new }
{
    let read = numbers(roll, at, kind, l, count as u32)?;
    let shared = read.shared as usize;
    let left = read.further as usize;
    let next = read.next;
    let table = kind.table();
    if place_short(roll, next, values, count, shared, left, table) {
        return Ok(ReadAfter {
            scale: read.scale,
            boys: read.boys,
            count: (shared + left) as u32,
            end: next + left,
        });
    }
    term_after(roll, at, kind, l, values, count)
}

// Goes over so many terms to the end of a roll, or to the first refusal.
fn terms_size(roll: &[u8], at: usize, terms: u32, kind: Kind, l: u8) -> Result<usize, Fault>
    requires { l ≤ most_l kind }
    ensures { result ≡ size_plus 0 (terms_after roll.now at terms kind l []) }
{
    let mut values = [0; Kind::PREFACTORS];
    let mut count = 0;
    let mut place = at;
    let mut size = 0;
    for done in 0..terms {
        let read = next_term(roll, place, kind, l, &mut values, count)?;
        size += term_length(read.scale, read.boys, read.count);
        count = read.count as usize;
        place = read.end;
    }
    end_size(roll.len(), place, size)
}

// A whole roll judged: its header, then its terms, gone over to the end or to the first refusal; and what these take in form 1.
pub(crate) fn judge(roll: &[u8]) -> Result<Sized, Fault>
    ensures { result ≡ sized_of roll.now }
{
    let opened = header(roll)?;
    let cursor = opened.cursor;
    let size = match Kind::of(cursor.kind) {
        Some(kind) => terms_size(roll, cursor.place, cursor.left, kind, cursor.l)?,
        None => return Err(bad_roll(cursor.place)),
    };
    Ok(Sized { opened, size })
}

// A whole form 2 roll judged: as `open2` where every term reads and nothing follows.
pub fn check2(roll: &[u8]) -> Result<Opened2, Fault>
    ensures { result ≡ check2_of roll.now }
{
    let sized = judge(roll)?;
    Ok(begun(sized.opened))
}
