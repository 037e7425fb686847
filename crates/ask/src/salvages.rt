// `salvage ROLL ..`: a damaged roll worked out afresh.
use crate::{answers, forms};
use answers::Form;
use forms::Told;
use kind::Fault;
use salvaging::{After, Told as Salvaged};

// The fresh roll that was written from a place on, and what was kept of the damaged one.
pub(crate) fn told(answer: Result<Salvaged, Fault>, start: usize) -> Told {
    match answer {
        Ok(t) => answers::bytes(
            form_of(t),
            [
                t.length as u64,
                t.terms as u64,
                t.kept as u64,
                t.anew as u64,
            ],
            start,
            t.length,
        ),
        Err(fault) => answers::refused(fault),
    }
}

// The line of the table of forms.
fn form_of(t: Salvaged) -> Form {
    let after = t.after;
    if t.miscounted {
        other(after)
    } else {
        same(after)
    }
}

fn same(after: After) -> Form {
    match after {
        After::None => Form::SalvagedNone,
        After::Bytes => Form::SalvagedBytes,
        After::Unknown => Form::SalvagedUnknown,
    }
}

fn other(after: After) -> Form {
    match after {
        After::None => Form::OtherNone,
        After::Bytes => Form::OtherBytes,
        After::Unknown => Form::OtherUnknown,
    }
}
