// One side of a comparison: a roll of either form, told by its first byte.
ghost use Rattle.std.specs.Prelude.{◌≡◌};
ghost use Rattle.form2.specs.Header.{first_cursor, begun};
ghost use Rattle.comparing.specs.Sides.{check_side, first_step, step_side, on_side};

use form2::{Cursor2, Opened2, Step2, check2, is_form2};
use kind::{Fault, Kind};
use roll::{Cursor, Opened, Step, check};

// Which of the two rolls.
#[derive(Clone, Copy, Debug, PartialEq, Eq)]
pub enum Side {
    Left,
    Right,
}

// What is refused of a roll, and which roll it is.
#[derive(Clone, Copy, Debug, PartialEq, Eq)]
pub struct Sided {
    pub side: Side,
    pub fault: Fault,
}

// A cursor with no term before.
fn alone(cursor: Cursor) -> Cursor2
    ensures { result ≡ first_cursor cursor }
{
    Cursor2 {
        cursor,
        count: 0,
        earlier: [0; Kind::PREFACTORS],
    }
}

// What form 1 answers, as form 2 does.
fn as_opened2(opened: Opened) -> Opened2
    ensures { result ≡ begun opened }
{
    let orders = opened.orders;
    let cursor = alone(opened.cursor);
    Opened2 { cursor, orders }
}

fn as_step2(step: Step) -> Step2
    ensures { result ≡ first_step step }
{
    let next = alone(step.next);
    Step2 {
        term: step.term,
        next,
    }
}

// A whole roll judged.
#[tactic(auto, unfolding(crate::specs::Sides::check_side))]
fn check_side(roll: &[u8]) -> Result<Opened2, Fault>
    ensures { result ≡ check_side roll.now }
{
    if is_form2(roll) {
        return check2(roll);
    }
    let opened = check(roll)?;
    Ok(as_opened2(opened))
}

// The next term and the cursor one term further on, or none at the end. It stands out of line, so that what it answers is laid down once.
#[inline(never)]
#[tactic(auto, unfolding(crate::specs::Sides::step_side))]
fn step_side(roll: &[u8], at: Cursor2) -> Result<Option<Step2>, Fault>
    ensures { result ≡ step_side at roll.now }
{
    if is_form2(roll) {
        return at.next(roll);
    }
    match at.cursor.next(roll)? {
        Some(step) => Ok(Some(as_step2(step))),
        None => Ok(None),
    }
}

impl Side {
    // A whole roll of this side judged.
    pub(crate) fn check(self, roll: &[u8]) -> Result<Opened2, Sided>
        ensures { result ≡ on_side self (check_side roll.now) }
    {
        check_side(roll).map_err(|fault| Sided { side: self, fault })
    }

    // Its next term and the cursor one term further on, or none at the end.
    #[inline(always)]
    pub(crate) fn step(self, roll: &[u8], at: Cursor2) -> Result<Option<Step2>, Sided>
        ensures { result ≡ on_side self (step_side at roll.now) }
    {
        step_side(roll, at).map_err(|fault| Sided { side: self, fault })
    }
}
