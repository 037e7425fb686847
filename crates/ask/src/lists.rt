// `list ROLL`: a roll's listing. `export ROLL ..`: a roll as comma-separated lines.
use crate::{answers, forms};
use answers::Form;
use forms::{NUMBERS, Told};
use kind::Fault;

// The text that was written from a place on.
pub(crate) fn exported(answer: Result<usize, Fault>, start: usize) -> Told {
    match answer {
        Ok(n) => answers::bytes(Form::Text, [n as u64, 0, 0, 0], start, n),
        Err(fault) => answers::refused(fault),
    }
}

pub(crate) fn told(answer: Result<usize, Fault>) -> Told {
    match answer {
        Ok(n) => answers::bytes(Form::Listing, [0; NUMBERS], 0, n),
        Err(fault) => answers::refused(fault),
    }
}
