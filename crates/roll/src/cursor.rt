// The cursor over a roll's terms: it goes in by value and comes back one term further on.
ghost use Rattle.std.specs.Prelude.{◌≡◌, Some};
ghost use Rattle.roll.specs.Cursor.{no_cursor, end_or, step_as, step_of};

use crate::field::bad_roll;
use crate::terms::term_at;
use kind::{Fault, Kind};
use term::Term;

// Where a reader of a roll stands.
#[derive(Clone, Copy)]
pub struct Cursor {
    pub place: usize,
    pub left: u32,
    pub kind: u8,
    pub l: u8,
}

// A term, and the cursor one term further on.
#[derive(Clone, Copy)]
pub struct Step {
    pub term: Term,
    pub next: Cursor,
}

// What stands beside a refusal and beside the end, where a host is answered.
pub fn no_cursor() -> Cursor
    ensures { result ≡ no_cursor }
{
    Cursor {
        place: 0,
        left: 0,
        kind: 0,
        l: 0,
    }
}

// With no term left a roll ends here, or has a byte too many.
fn end_step(roll: &[u8], place: usize) -> Result<Option<Step>, Fault>
    ensures { result ≡ end_or roll.now place }
{
    if place != roll.len() {
        return Err(bad_roll(place));
    }
    Ok(None)
}

impl Cursor {
    // The next term and the cursor one term further on, or none at the end (D-70).
    pub fn next(self, roll: &[u8]) -> Result<Option<Step>, Fault>
        ensures { result ≡ step_of self roll.now }
    {
        match Kind::of(self.kind) {
            Some(kind) => self.next_of(roll, kind),
            None => Err(bad_roll(self.place)),
        }
    }

    // The same, of a kind that has a name.
    fn next_of(self, roll: &[u8], kind: Kind) -> Result<Option<Step>, Fault>
        ensures { result ≡ step_as (Some kind) self roll.now }
    {
        let place = self.place;
        let l = self.l;
        if kind.most_l() < l as usize || roll.len() < place {
            return Err(bad_roll(place));
        }
        if self.left == 0 {
            return end_step(roll, place);
        }
        let (term, place) = term_at(roll, place, kind, l)?;
        let left = self.left - 1;
        let next = Cursor {
            place,
            left,
            ..self
        };
        Ok(Some(Step { term, next }))
    }
}
