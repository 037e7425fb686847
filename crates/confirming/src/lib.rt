// Whether a roll of either form is the expansion of its own request, byte for byte. Nothing is written and no buffer is lent (D-117).
#![tactic(auto)]

mod quick;
mod reading;

ghost use Rattle.std.specs.Prelude.{◌≡◌};
ghost use Rattle.salvaging.specs.Salvage.{read_in};
ghost use Rattle.confirming.specs.Confirm.{confirmed_by, confirm_of};

use crate::quick::{named_in, opened_of, orders_in};
use crate::reading::{held, judged};
use expansion::Against;
use kind::{Fault, Kind, Refusal};
use roll::Opened;
use salvaging::{Form, form_of};

// Reads a roll, then holds its request's roll against it.
fn confirm_read(form: Form, roll: &[u8]) -> Result<Opened, Fault>
    ensures { result ≡ confirmed_by form roll.now (read_in form roll.now) }
{
    let opened = judged(form, roll)?;
    match held(form, opened.cursor.kind, opened.orders, roll)? {
        Against::Same(_, _) => Ok(opened),
        Against::Differs(place) => Err(Fault {
            refusal: Refusal::NotTheExpansion,
            place,
        }),
    }
}

// The same of a roll whose first byte names a kind: where the roll of the request that stands behind it is the same, nothing has to be read.
fn confirm_named(form: Form, kind: Kind, roll: &[u8]) -> Result<Opened, Fault>
    ensures { result ≡ confirmed_by form roll.now (read_in form roll.now) }
{
    let count = kind.orders();
    if roll.len() <= count {
        return confirm_read(form, roll);
    }
    let orders = orders_in(roll, count);
    match held(form, kind.number(), orders, roll) {
        Ok(Against::Same(_, count)) => Ok(opened_of(kind, orders, count)),
        _ => confirm_read(form, roll),
    }
}

// Whether a roll is the expansion: its header, 7 or 14 where it does not read, 4 where its request has too many histories, 20 where a byte differs.
pub fn confirm(roll: &[u8]) -> Result<Opened, Fault>
    ensures { result ≡ confirm_of roll.now }
{
    let form = form_of(roll);
    match named_in(form, roll) {
        Some(kind) => confirm_named(form, kind, roll),
        None => confirm_read(form, roll),
    }
}
