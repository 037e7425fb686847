// A roll's listing and the line of a refusal, as text in a lent buffer.
//
// The same functions measure a text and write it: lent no bytes, they only find out whether it has room (D-74).
#![tactic(auto)]

ghost use Rattle.std.specs.Prelude.{◌≡◌, ◌≤◌, length, Some};
ghost use Rattle.roll.specs.Field.{fault};
ghost use Rattle.roll.specs.inner.Held.{from_held};
ghost use Rattle.roll.specs.inner.Judged.{Judged, left_of, Readable};
ghost use Rattle.saying.specs.Said.{Said, Kept};
ghost use Rattle.listing.specs.Text.{kind_text, head_line, term_numbers, term_line, term_lines, carries_place, refusal_text};
ghost use Rattle.listing.specs.inner.Whole.{text_of};
ghost use Rattle.listing.specs.Answers.{TextTold, ListingTold};

use kind::{Fault, Kind, Refusal};
use roll::{Cursor, Opened};
use saying::{say, say_each, say_named, say_number};
use term::Term;

// The kind and its orders.
fn say_kind(out: &mut [u8], room: usize, kind: Kind, orders: &[u8]) -> Option<usize>
    ensures { Said room out.old (Some 0) (kind_text kind orders.now) result out.new }
{
    let named = say_named(out, room, Some(0), b"kind ", kind.number() as u64);
    let ordered = say(out, room, named, b" orders");
    say_each(out, room, ordered, b" ", orders)
}

// The first line.
fn say_head(out: &mut [u8], room: usize, kind: Kind, orders: &[u8], terms: u32) -> Option<usize>
    ensures { Said room out.old (Some 0) (head_line kind orders.now terms) result out.new }
{
    let listed = say_kind(out, room, kind, orders);
    let counted = say_named(out, room, listed, b" terms ", terms as u64);
    say(out, room, counted, b"\n")
}

// What stands before a term's prefactors.
fn say_numbers(
    out: &mut [u8],
    room: usize,
    w: Option<usize>,
    number: u64,
    scale: u32,
    boys: u8,
) -> Option<usize>
    ensures { Said room out.old w (term_numbers number scale boys) result out.new }
{
    let numbered = say_number(out, room, w, number);
    let scaled = say_named(out, room, numbered, b" ", scale as u64);
    let raised = say_named(out, room, scaled, b" ", boys as u64);
    say(out, room, raised, b":")
}

// A term's line.
fn say_term(out: &mut [u8], room: usize, w: Option<usize>, number: u64, t: Term) -> Option<usize>
    requires { t.count ≤ length t.prefactors }
    ensures { Said room out.old w (term_line number (from_held t)) result out.new }
{
    let prefactors = t.prefactors;
    let count = t.count as usize;
    let numbered = say_numbers(out, room, w, number, t.scale, t.boys);
    let listed = say_each(out, room, numbered, b" ", &prefactors[0..count]);
    say(out, room, listed, b"\n")
}

// The lines of the terms that a cursor has still to go through, numbered from 1.
fn say_terms(
    out: &mut [u8],
    room: usize,
    w: Option<usize>,
    roll: &[u8],
    cursor: Cursor,
) -> Option<usize>
    requires kept { Kept room w }
    requires readable { Readable cursor roll.now }
    ensures { Said room out.old w (term_lines 1 (left_of cursor roll.now)) result out.new }
{
    let mut said = w;
    let mut at = cursor;
    let mut number: u64 = 1;
    while let Some(step) = at.next(roll).ok().flatten() {
        said = say_term(out, room, said, number, step.term);
        at = step.next;
        number += 1;
    }
    said
}

// A whole listing, of a roll that has been judged.
fn say_roll(out: &mut [u8], room: usize, roll: &[u8], opened: Opened) -> Option<usize>
    requires { Judged opened roll.now }
    ensures { Said room out.old (Some 0) (text_of roll.now) result out.new }
{
    let cursor = opened.cursor;
    let orders = opened.orders;
    let kind = Kind::of(cursor.kind)?;
    let headed = say_head(out, room, kind, &orders[0..kind.orders()], cursor.left);
    say_terms(out, room, headed, roll, cursor)
}

fn written(roll: &[u8], opened: Opened, out: &mut [u8], start: usize) -> Result<usize, Fault>
    requires { Judged opened roll.now }
    ensures { TextTold (text_of roll.now) out.old start result out.new }
{
    if out.len() < start {
        return Err(Fault::from(Refusal::StartBeyondEnd));
    }
    let room = out.len() - start;
    let Some(length) = say_roll(&mut out[0..0], room, roll, opened) else {
        return Err(Fault::from(Refusal::NoRoom));
    };
    say_roll(&mut out[start..], room, roll, opened);
    Ok(length)
}

// The listing of a roll: nothing is written before the whole roll has been judged (D-16).
pub fn listing(roll: &[u8], out: &mut [u8], start: usize) -> Result<usize, Fault>
    ensures { ListingTold roll.now out.old start result out.new }
{
    if Kind::MOST_LISTED < roll.len() {
        return Err(Fault::from(Refusal::NoRoom));
    }
    let opened = roll::check(roll)?;
    written(roll, opened, out, start)
}

#[tactic(auto, unfolding(crate::specs::Text::carries_place))]
fn carries_place(refusal: u8) -> bool
    ensures { result ≡ carries_place refusal }
{
    refusal == Refusal::BadRoll as u8 || refusal == Refusal::CutRoll as u8
}

fn say_refusal(out: &mut [u8], room: usize, refusal: u8, place: usize) -> Option<usize>
    ensures { Said room out.old (Some 0) (refusal_text refusal place) result out.new }
{
    let told = say_named(out, room, Some(0), b"refused ", refusal as u64);
    if carries_place(refusal) {
        let placed = say_named(out, room, told, b" at ", place as u64);
        return say(out, room, placed, b"\n");
    }
    say(out, room, told, b"\n")
}

// The line that tells a refusal, and the place of refusals 7 and 14.
pub fn refusal_line(refusal: u8, place: usize, out: &mut [u8], start: usize) -> Result<usize, Fault>
    ensures { TextTold (refusal_text refusal place) out.old start result out.new }
{
    if out.len() < start {
        return Err(Fault::from(Refusal::StartBeyondEnd));
    }
    let room = out.len() - start;
    let Some(length) = say_refusal(&mut out[0..0], room, refusal, place) else {
        return Err(Fault::from(Refusal::NoRoom));
    };
    say_refusal(&mut out[start..], room, refusal, place);
    Ok(length)
}
