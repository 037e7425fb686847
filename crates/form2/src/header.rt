// The header of a form 2 roll: kind + 16, then orders and term count as in form 1.
ghost use Rattle.std.specs.Prelude.{◌≡◌};
ghost use Rattle.kind.specs.declared.refusals.Refusal.TheVariants.{BadRoll};
ghost use Rattle.roll.specs.Field.{fault};
ghost use Rattle.roll.specs.Header.{held_header};
ghost use Rattle.form2.specs.Reading.{header_at2};
ghost use Rattle.form2.specs.Header.{begun, is_form2, open2_of};

use crate::cursor::{Cursor2, first_cursor};
use kind::{Fault, Kind, Refusal};
use number::wide;
use roll::{Opened, open_kind, within};

// What form 2 adds to the kind's number.
pub(crate) const FORM_TWO: u32 = 16;

// Whether a roll is of form 2, by its first byte.
pub fn is_form2(roll: &[u8]) -> bool
    ensures { result ≡ is_form2 roll.now }
{
    if roll.len() == 0 {
        return false;
    }
    let first = wide(roll[0]);
    if first < FORM_TWO {
        return false;
    }
    first <= FORM_TWO + Kind::Coulomb.number() as u32
}

// A roll's orders, zeros after them, and the cursor at its first term.
#[derive(Clone, Copy)]
pub struct Opened2 {
    pub cursor: Cursor2,
    pub orders: [u8; Kind::ORDERS],
}

// What breaks a rule of a roll, at a place.
pub(crate) fn bad_roll(place: usize) -> Fault
    ensures { result ≡ fault BadRoll place }
{
    Fault {
        refusal: Refusal::BadRoll,
        place,
    }
}

// At the first term, with no term before.
pub(crate) fn begun(opened: Opened) -> Opened2
    ensures { result ≡ begun opened }
{
    let orders = opened.orders;
    let cursor = first_cursor(opened.cursor);
    Opened2 { cursor, orders }
}

// A form 2 roll's kind, orders and term count, as form 1 tells them.
pub(crate) fn header(roll: &[u8]) -> Result<Opened, Fault>
    ensures { result ≡ held_header (header_at2 roll.now) }
{
    let most = FORM_TWO + Kind::Coulomb.number() as u32;
    let (number, next) = within(roll, 0, FORM_TWO, most)?;
    match Kind::of((number - FORM_TWO) as u8) {
        Some(kind) => open_kind(roll, next, kind),
        None => Err(bad_roll(0)),
    }
}

// A form 2 roll's kind, orders and term count; the terms are not looked at.
pub fn open2(roll: &[u8]) -> Result<Opened2, Fault>
    ensures { result ≡ open2_of roll.now }
{
    let opened = header(roll)?;
    Ok(begun(opened))
}
