// The structs of the comma-separated calls from the answers of the crates below.
ghost use Rattle.std.specs.Prelude.{◌≡◌};
ghost use Rattle.xewumbal.specs.Commas.{host_text, host_imported};

use crate::{xew_imported, xew_text};
use importing::{ImportFault, Imported};
use kind::Fault;

pub(crate) fn exported(answer: Result<usize, Fault>) -> xew_text
    ensures { result ≡ host_text answer }
{
    match answer {
        Ok(length) => xew_text {
            length,
            place: 0,
            refusal: 0,
        },
        Err(fault) => xew_text {
            length: 0,
            place: fault.place,
            refusal: u8::from(fault.refusal),
        },
    }
}

pub(crate) fn imported(answer: Result<Imported, ImportFault>) -> xew_imported
    ensures { result ≡ host_imported answer }
{
    match answer {
        Ok(roll) => xew_imported {
            length: roll.length,
            line: 0,
            terms: roll.terms,
            refusal: 0,
        },
        Err(fault) => xew_imported {
            length: 0,
            line: fault.line,
            terms: 0,
            refusal: u8::from(fault.refusal),
        },
    }
}
