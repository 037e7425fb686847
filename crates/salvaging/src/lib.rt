// The salvage of a damaged roll: its header's request is worked out afresh and written in the same form, and the damaged roll is held against it.
#![tactic(auto)]

mod ends;
mod forms;

ghost use Rattle.std.specs.Prelude.{◌≡◌};
ghost use Rattle.salvaging.specs.Salvage.{SalvageTold};
ghost use Rattle.salvaging.specs.inner.Renewing.{after_by, ToldMay, ToldFrom, RenewMay, RenewTold};

use crate::ends::leading;
use crate::forms::{expanded, opened};
pub use forms::{Form, form_of};
use kind::Fault;
use roll::{Cursor, Opened};

// What follows the last term: it is told only where every fresh term was read and equal.
#[derive(Clone, Copy)]
pub enum After {
    Unknown,
    None,
    Bytes,
}

// The fresh roll's length and its terms, how many leading terms of the damaged roll read and equal them, how many were written anew,
// whether the stored count is another one, and what follows the last term.
#[derive(Clone, Copy)]
pub struct Told {
    pub length: usize,
    pub terms: u32,
    pub kept: u32,
    pub anew: u32,
    pub miscounted: bool,
    pub after: After,
}

// What follows the last term of a roll whose terms were all read and equal, or not all.
fn followed(all: bool, ends: bool) -> After
    ensures { result ≡ after_by all ends }
{
    if all {
        if ends {
            return After::None;
        }
        return After::Bytes;
    }
    After::Unknown
}

// Holds a damaged roll against the fresh one. Both headers are as long but for the count; the terms begin behind.
fn compared(form: Form, roll: &[u8], cursor: Cursor, fresh: &[u8], terms: u32) -> Told
    requires { ToldMay form roll.now cursor fresh.now terms }
    ensures { ToldFrom form roll.now result }
{
    let at = cursor.place;
    let stored = cursor.left;
    let from = at - number::length(stored) + number::length(terms);
    let kept = leading(form, &roll[at..], &fresh[from..], terms);
    let anew = terms - kept;
    let ends = roll.len() - at == fresh.len() - from;
    Told {
        length: fresh.len(),
        terms,
        kept,
        anew,
        miscounted: stored != terms,
        after: followed(kept == terms, ends),
    }
}

// Works out the request of a header that reads and writes it in the header's form, where it has room.
fn renew(
    form: Form,
    roll: &[u8],
    opened: Opened,
    out: &mut [u8],
    start: usize,
) -> Result<Told, Fault>
    requires { RenewMay form roll.now opened }
    ensures { RenewTold form roll.now out.old start result out.new }
{
    let cursor = opened.cursor;
    let fresh = expanded(form, cursor.kind, opened.orders, out, start)?;
    let end = start + fresh.length;
    Ok(compared(form, roll, cursor, &out[start..end], fresh.terms))
}

// Writes a damaged roll anew from a start place on, in its own form, and tells how much of it was whole; or a refusal with its place.
pub fn salvage(roll: &[u8], out: &mut [u8], start: usize) -> Result<Told, Fault>
    ensures { SalvageTold roll.now out.old start result out.new }
{
    let form = form_of(roll);
    let opened = opened(form, roll)?;
    renew(form, roll, opened, out, start)
}
