// Both rolls gone through beside each other: a step by value goes on to the next position that differs.
ghost use Rattle.std.specs.Prelude.{◌≡◌};
ghost use Rattle.comparing.specs.Pairs.{number_after, same_held, met_by, position, next_of};
ghost use Rattle.comparing.specs.inner.Behind.{behind_as};

use crate::sides::{Side, Sided};
use form2::{Cursor2, Step2};
use kind::Kind;
use term::Term;

// Where both readers stand, and the number of the position.
#[derive(Clone, Copy)]
pub struct Pair {
    pub left: Cursor2,
    pub right: Cursor2,
    pub number: u32,
}

// The term of each side, or of the one that has not ended.
#[derive(Clone, Copy)]
pub enum Line {
    Both(Term, Term),
    Left(Term),
    Right(Term),
}

// A position, its terms, and where to go on.
#[derive(Clone, Copy)]
pub struct Met {
    pub number: u32,
    pub line: Line,
    pub next: Pair,
}

// Out of line, since terms that are read where they stand are compared eight bytes at a time.
#[inline(never)]
fn same_held(left: &Term, right: &Term) -> bool
    ensures { result ≡ same_held left.now right.now }
{
    left.scale == right.scale
        && left.boys == right.boys
        && left.count == right.count
        && left.prefactors == right.prefactors
}

fn number_after(number: u32) -> u32
    ensures { result ≡ number_after number }
{
    if Kind::MOST_TERMS < number {
        return number;
    }
    number + 1
}

// A position, and the cursors behind its terms.
fn met_by(number: u32, line: Line, left: Cursor2, right: Cursor2) -> Met
    ensures { result ≡ met_by number line left right }
{
    Met {
        number,
        line,
        next: Pair {
            left,
            right,
            number: number_after(number),
        },
    }
}

// The position of what a step of each side gives, or none where both have ended; a side that has ended stays where it is.
fn position(pair: Pair, left: Option<Step2>, right: Option<Step2>) -> Option<Met>
    ensures { result ≡ position left right pair }
{
    let number = pair.number;
    match (left, right) {
        (Some(l), Some(r)) => Some(met_by(number, Line::Both(l.term, r.term), l.next, r.next)),
        (Some(l), None) => Some(met_by(number, Line::Left(l.term), l.next, pair.right)),
        (None, Some(r)) => Some(met_by(number, Line::Right(r.term), pair.left, r.next)),
        (None, None) => None,
    }
}

impl Pair {
    // The pair behind a position that has the same term on both sides; none where it has not.
    fn behind(self, left: &Option<Step2>, right: &Option<Step2>) -> Option<Pair>
        ensures { result ≡ behind_as self.number left.now right.now }
    {
        match (left, right) {
            (Some(l), Some(r)) if same_held(&l.term, &r.term) => Some(Pair {
                left: l.next,
                right: r.next,
                number: number_after(self.number),
            }),
            _ => None,
        }
    }

    // The next position that differs, or none at the end; the left side's refusal comes first. What is the same is never laid down.
    pub fn next(self, left: &[u8], right: &[u8]) -> Result<Option<Met>, Sided>
        ensures { result ≡ next_of self left.now right.now }
    {
        let mut at = self;
        loop {
            let l = Side::Left.step(left, at.left)?;
            let r = Side::Right.step(right, at.right)?;
            match at.behind(&l, &r) {
                Some(next) => at = next,
                None => return Ok(position(at, l, r)),
            }
        }
    }
}
