// `form2 ROLL ..` and `form1 ROLL ..`: a roll moved to the other form.
use crate::{answers, forms};
use form2::Moved;
use forms::Told;
use kind::Fault;

// The roll that was written from a place on.
pub(crate) fn told(answer: Result<Moved, Fault>, start: usize) -> Told {
    match answer {
        Ok(roll) => answers::roll(roll.length, roll.terms, start),
        Err(fault) => answers::refused(fault),
    }
}
