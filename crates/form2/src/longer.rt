// From form 2 back to form 1: the judge has measured the roll; its terms are read once more and written whole.
ghost use Rattle.std.specs.Prelude.{◌+◌, ◌≤◌, ◌≡◌, [], length, Some};
ghost use Rattle.std.proofs.lemmas.List.Edits.{sets};
ghost use Rattle.kind.specs.Kinds.{kind_of};
ghost use Rattle.roll.specs.Bytes.{terms_bytes};
ghost use Rattle.roll.specs.inner.Judged.{terms_got};
ghost use Rattle.form2.specs.Reading.{front_at, terms_after, roll_at2};
ghost use Rattle.form2.specs.Moves.{in_form1, MoveTold, ToForm1Told};
ghost use Rattle.form2.specs.inner.Held.{held_front, AfterMay};
ghost use Rattle.form2.specs.inner.Puts.{bytes_in, TermsMay1, May1};

use crate::header::bad_roll;
use crate::judge::{Sized, judge};
use crate::moves::{Moved, has_room, no_room, start_beyond_end};
use crate::puts::{put_head, put_term1};
use crate::quick::{is_short, short_front};
use crate::terms::{ReadFront, front_boys};
use kind::{Fault, Kind};
use roll::{most_boys, within};

// A term's four numbers, most by the short way; called once, so that the loop has it inside.
fn numbers(roll: &[u8], at: usize, kind: Kind, l: u8, longest: u32) -> Result<ReadFront, Fault>
    requires { AfterMay kind l longest }
    ensures { result ≡ held_front (front_at roll.now at kind l longest) }
{
    let boys = most_boys(kind, l) as u32;
    let most = kind.most_prefactors(l) as u32;
    let (scale, next) = within(roll, at, 1, Kind::MOST_SCALE)?;
    if is_short(roll, next, boys, longest, most) {
        return Ok(short_front(roll, scale, next));
    }
    front_boys(roll, next, kind, l, longest, scale)
}

// Writes so many terms in form 1: what a term shares with the one before is copied from where that one was written.
fn put_terms(out: &mut [u8], start: usize, roll: &[u8], at: usize, terms: u32, kind: Kind, l: u8)
    requires { TermsMay1 roll.now at terms kind l out.old start }
    ensures { out.new ≡ sets out.old start (terms_bytes (terms_got (terms_after roll.now at terms kind l []))) }
{
    let mut from = start;
    let mut count = 0;
    let mut place = at;
    let mut to = start;
    for done in 0..terms {
        match numbers(roll, place, kind, l, count) {
            Ok(read) => {
                let next = read.next;
                place = next + read.further as usize;
                count = read.shared + read.further;
                to = put_term1(
                    out,
                    to,
                    read.scale,
                    read.boys,
                    from,
                    read.shared as usize,
                    &roll[next..place],
                );
                from = to - count as usize;
            }
            Err(_) => return,
        }
    }
}

// Writes a judged roll in form 1 at the front of a buffer that has room for it.
fn put_roll(out: &mut [u8], roll: &[u8], sized: Sized, kind: Kind)
    requires may1 { May1 sized.opened sized.size roll.now }
    requires kind_value { (kind_of sized.opened.cursor.kind ≡ Some kind) × (length (bytes_in in_form1 (roll_at2 roll.now)) ≤ length out.old) }
    ensures { out.new ≡ sets out.old 0 (bytes_in in_form1 (roll_at2 roll.now)) }
{
    let cursor = sized.opened.cursor;
    let place = cursor.place;
    let to = put_head(out, cursor.kind, roll, place);
    put_terms(out, to, roll, place, cursor.left, kind, cursor.l);
}

// Writes a judged roll in form 1 from a start place on, where it fits.
fn write(roll: &[u8], sized: Sized, out: &mut [u8], start: usize) -> Result<Moved, Fault>
    requires { May1 sized.opened sized.size roll.now }
    ensures { MoveTold in_form1 (roll_at2 roll.now) out.old start result out.new }
{
    if out.len() < start {
        return Err(start_beyond_end());
    }
    let cursor = sized.opened.cursor;
    if has_room(out.len() - start, cursor.place, sized.size) {
        match Kind::of(cursor.kind) {
            Some(kind) => put_roll(&mut out[start..], roll, sized, kind),
            None => return Err(bad_roll(0)),
        }
        return Ok(Moved {
            length: cursor.place + sized.size,
            terms: cursor.left,
        });
    }
    Err(no_room())
}

// Moves a roll from form 2 back to form 1: nothing is written before the whole roll has been judged and measured.
pub fn to_form1(roll: &[u8], out: &mut [u8], start: usize) -> Result<Moved, Fault>
    ensures { ToForm1Told roll.now out.old start result out.new }
{
    let sized = judge(roll)?;
    write(roll, sized, out, start)
}
