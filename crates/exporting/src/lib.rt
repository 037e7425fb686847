// A roll's export, lines of numbers with commas between them, as text in a lent buffer (02, Q-14).
//
// The same functions measure the text and write it, as the listing's do (D-74).
#![tactic(auto)]

ghost use Rattle.std.specs.Prelude.{◌≤◌, ◌++◌, length, Some};
ghost use Rattle.kind.specs.Kinds.{number_of};
ghost use Rattle.text.specs.Digits.{decimal_of};
ghost use Rattle.roll.specs.inner.Held.{from_held};
ghost use Rattle.roll.specs.inner.Judged.{Judged, left_of, Readable};
ghost use Rattle.saying.specs.Said.{Said, Kept};
ghost use Rattle.listing.specs.Answers.{TextTold};
ghost use Rattle.exporting.specs.Text.{comma, after_commas, line_of, head_numbers, term_numbers, term_lines};
ghost use Rattle.exporting.specs.Export.{ExportTold};
ghost use Rattle.exporting.specs.inner.Whole.{whole_text};

use kind::{Fault, Kind, Refusal};
use roll::{Cursor, Opened};
use saying::{say, say_each, say_named, say_number};
use term::Term;

// The kind and its orders.
fn say_kind(out: &mut [u8], room: usize, kind: Kind, orders: &[u8]) -> Option<usize>
    ensures { Said room out.old (Some 0) (decimal_of (number_of kind) ++ after_commas orders.now) result out.new }
{
    let named = say_number(out, room, Some(0), kind.number() as u64);
    say_each(out, room, named, b",", orders)
}

// The first line.
fn say_head(out: &mut [u8], room: usize, kind: Kind, orders: &[u8], terms: u32) -> Option<usize>
    ensures { Said room out.old (Some 0) (line_of (head_numbers kind orders.now terms)) result out.new }
{
    let ordered = say_kind(out, room, kind, orders);
    let counted = say_named(out, room, ordered, b",", terms as u64);
    say(out, room, counted, b"\n")
}

// What stands before a term's prefactors.
fn say_front(out: &mut [u8], room: usize, w: Option<usize>, scale: u32, boys: u8) -> Option<usize>
    ensures { Said room out.old w (decimal_of scale ++ (comma ++ decimal_of boys)) result out.new }
{
    let scaled = say_number(out, room, w, scale as u64);
    say_named(out, room, scaled, b",", boys as u64)
}

// A term's line.
fn say_term(out: &mut [u8], room: usize, w: Option<usize>, t: Term) -> Option<usize>
    requires { t.count ≤ length t.prefactors }
    ensures { Said room out.old w (line_of (term_numbers (from_held t))) result out.new }
{
    let prefactors = t.prefactors;
    let count = t.count as usize;
    let raised = say_front(out, room, w, t.scale, t.boys);
    let listed = say_each(out, room, raised, b",", &prefactors[0..count]);
    say(out, room, listed, b"\n")
}

// The lines of the terms that a cursor has still to go through.
fn say_terms(
    out: &mut [u8],
    room: usize,
    w: Option<usize>,
    roll: &[u8],
    cursor: Cursor,
) -> Option<usize>
    requires kept { Kept room w }
    requires readable { Readable cursor roll.now }
    ensures { Said room out.old w (term_lines (left_of cursor roll.now)) result out.new }
{
    let mut said = w;
    let mut at = cursor;
    while let Some(step) = at.next(roll).ok().flatten() {
        said = say_term(out, room, said, step.term);
        at = step.next;
    }
    said
}

// The whole text, of a roll that has been judged.
fn say_roll(out: &mut [u8], room: usize, roll: &[u8], opened: Opened) -> Option<usize>
    requires { Judged opened roll.now }
    ensures { Said room out.old (Some 0) (whole_text roll.now) result out.new }
{
    let cursor = opened.cursor;
    let orders = opened.orders;
    let kind = Kind::of(cursor.kind)?;
    let headed = say_head(out, room, kind, &orders[0..kind.orders()], cursor.left);
    say_terms(out, room, headed, roll, cursor)
}

fn written(roll: &[u8], opened: Opened, out: &mut [u8], start: usize) -> Result<usize, Fault>
    requires { Judged opened roll.now }
    ensures { TextTold (whole_text roll.now) out.old start result out.new }
{
    if out.len() < start {
        return Err(Fault::from(Refusal::StartBeyondEnd));
    }
    let room = out.len() - start;
    let Some(length) = say_roll(&mut out[0..0], room, roll, opened) else {
        return Err(Fault::from(Refusal::NoRoom));
    };
    say_roll(&mut out[start..], room, roll, opened);
    Ok(length)
}

// The export of a roll of form 1: nothing is written before the whole roll has been judged.
pub fn export(roll: &[u8], out: &mut [u8], start: usize) -> Result<usize, Fault>
    ensures { ExportTold roll.now out.old start result out.new }
{
    let opened = roll::check(roll)?;
    written(roll, opened, out, start)
}
