// The cursor over the terms of a form 2 roll: it goes in by value and comes back one term further on, with that term's prefactors.
ghost use Rattle.std.specs.Prelude.{◌≡◌, ◌≤◌, take, Some};
ghost use Rattle.kind.specs.Limits.{most_l·any};
ghost use Rattle.kind.specs.Kinds.{most_l};
ghost use Rattle.form2.specs.Header.{first_cursor};
ghost use Rattle.form2.specs.Cursor.{end_or2, some_above, forged_earlier, step_as2, step2_of};
ghost use Rattle.form2.specs.inner.Held.{cleared_of, stepped_over2, StepMay};

use crate::header::bad_roll;
use crate::terms::{ReadAfter, term_after};
use kind::{Fault, Kind};
use number::wide;
use roll::Cursor;
use term::Term;

// Where a reader of a form 2 roll stands, and the prefactors of the term before: the first `count` places.
#[derive(Clone, Copy)]
pub struct Cursor2 {
    pub cursor: Cursor,
    pub count: u8,
    pub earlier: [u8; Kind::PREFACTORS],
}

// A term, and the cursor one term further on.
#[derive(Clone, Copy)]
pub struct Step2 {
    pub term: Term,
    pub next: Cursor2,
}

// A cursor with no term before.
pub(crate) fn first_cursor(cursor: Cursor) -> Cursor2
    ensures { result ≡ first_cursor cursor }
{
    Cursor2 {
        cursor,
        count: 0,
        earlier: [0; Kind::PREFACTORS],
    }
}

// With no term left a roll ends here, or has a byte too many.
fn end_step(roll: &[u8], place: usize) -> Result<Option<Step2>, Fault>
    ensures { result ≡ end_or2 roll.now place }
{
    if place != roll.len() {
        return Err(bad_roll(place));
    }
    Ok(None)
}

// Whether one of the first `count` values is not below the table size.
fn some_above(table: u32, values: [u8; Kind::PREFACTORS], count: usize) -> bool
    requires { count ≤ most_l·any }
    ensures { result ≡ some_above table (take count values) }
{
    for i in 0..count {
        if table <= wide(values[i]) {
            return true;
        }
    }
    false
}

// Whether the term before is none that a roll of this kind and L may have.
fn forged_earlier(kind: Kind, l: u8, count: u8, values: [u8; Kind::PREFACTORS]) -> bool
    requires { l ≤ most_l kind }
    ensures { result ≡ forged_earlier kind l count values }
{
    if kind.most_prefactors(l) < count as usize {
        return true;
    }
    some_above(kind.table() as u32, values, count as usize)
}

// The first `count` values, and zeros behind them.
fn cleared(values: [u8; Kind::PREFACTORS], count: usize) -> [u8; Kind::PREFACTORS]
    requires { count ≤ most_l·any }
    ensures { result ≡ cleared_of values count }
{
    let mut held = [0; Kind::PREFACTORS];
    for i in 0..count {
        held[i] = values[i];
    }
    held
}

// The term that was read, and the cursor behind it.
fn term_step(c: Cursor, read: ReadAfter, values: [u8; Kind::PREFACTORS]) -> Step2
    requires { StepMay c read }
    ensures { result ≡ stepped_over2 c read values }
{
    let held = cleared(values, read.count as usize);
    Step2 {
        term: Term {
            scale: read.scale,
            boys: read.boys as u8,
            count: read.count as u8,
            prefactors: held,
        },
        next: Cursor2 {
            cursor: Cursor {
                place: read.end,
                left: c.left - 1,
                kind: c.kind,
                l: c.l,
            },
            count: read.count as u8,
            earlier: held,
        },
    }
}

impl Cursor2 {
    // The next term and the cursor one term further on, or none at the end.
    pub fn next(self, roll: &[u8]) -> Result<Option<Step2>, Fault>
        ensures { result ≡ step2_of self roll.now }
    {
        match Kind::of(self.cursor.kind) {
            Some(kind) => self.next_of(roll, kind),
            None => Err(bad_roll(self.cursor.place)),
        }
    }

    // The same, of a kind that has a name.
    fn next_of(self, roll: &[u8], kind: Kind) -> Result<Option<Step2>, Fault>
        ensures { result ≡ step_as2 (Some kind) self roll.now }
    {
        let cursor = self.cursor;
        let place = cursor.place;
        let l = cursor.l;
        if kind.most_l() < l as usize || roll.len() < place {
            return Err(bad_roll(place));
        }
        if forged_earlier(kind, l, self.count, self.earlier) {
            return Err(bad_roll(place));
        }
        if cursor.left == 0 {
            return end_step(roll, place);
        }
        let mut values = self.earlier;
        let read = term_after(roll, place, kind, l, &mut values, self.count as usize)?;
        Ok(Some(term_step(cursor, read, values)))
    }
}
