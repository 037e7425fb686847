// From form 1 to form 2: a roll that has been judged is read again and written; it is measured first where room is short.
ghost use Rattle.std.specs.Prelude.{◌+◌, ◌≤◌, ◌≡◌, true, [], leb, length};
ghost use Rattle.kind.specs.Limits.{most_l·any};
ghost use Rattle.roll.specs.Reading.{roll_at};
ghost use Rattle.roll.specs.inner.Again.{between, head_at};
ghost use Rattle.form2.specs.Bytes.{shared};
ghost use Rattle.form2.specs.Moves.{in_form2, MoveTold, ToForm2Told};
ghost use Rattle.form2.specs.inner.Puts.{Put, bytes_in, plain_length2, again_bytes2, AgainMay, ShortRest, short_head, PartsMay, May2};

use crate::beside::least;
use crate::header::FORM_TWO;
use crate::moves::{Moved, has_room, no_room, start_beyond_end};
use crate::puts::{put_head, put_term2};
use kind::Fault;
use number::{one_byte, wide};
use roll::{Head, Opened, head_at};

// How many bytes two parts of a roll begin alike.
fn alike(roll: &[u8], a: usize, b: usize, c: usize, d: usize) -> usize
    requires { PartsMay roll.now a b c d }
    ensures { result ≡ shared (between roll.now a b) (between roll.now c d) }
{
    let most = least(b - a, d - c);
    for i in 0..most {
        if roll[a + i] != roll[c + i] {
            return i;
        }
    }
    most
}

// Whether a Boys order and a count stand here, one byte each, and the prefactors end inside the roll.
fn is_short(roll: &[u8], at: usize) -> bool
    ensures { result ≡ true → ShortRest roll.now at }
{
    if roll.len() <= at {
        return false;
    }
    let rest = roll.len() - at;
    if rest < 2 {
        return false;
    }
    if one_byte(wide(roll[at])) {
        let count = wide(roll[at + 1]);
        if one_byte(count) {
            return count as usize + 2 <= rest;
        }
    }
    false
}

// A term whose numbers behind the scale are short.
fn short_head(roll: &[u8], scale: u32, at: usize) -> Head
    requires { ShortRest roll.now at }
    ensures { result ≡ short_head roll.now scale at }
{
    let count = wide(roll[at + 1]) as usize;
    Head {
        scale,
        boys: wide(roll[at]),
        from: at + 2,
        end: at + 2 + count,
    }
}

// A term's numbers, and where its prefactors stand, most by a short way behind the scale; called once, so that the loop has it inside.
fn head(roll: &[u8], at: usize) -> Head
    ensures { result ≡ head_at roll.now at }
{
    if let Ok((scale, next)) = number::read(roll, at) {
        if is_short(roll, next) {
            return short_head(roll, scale, next);
        }
    }
    head_at(roll, at)
}

// How many bytes a term takes in form 2.
fn length2(scale: u32, boys: u32, shared: u32, further: u32) -> usize
    requires { further ≤ most_l·any }
    ensures { result ≡ plain_length2 scale boys shared further }
{
    let front = number::length(scale) + number::length(boys);
    front + number::length(shared) + number::length(further) + further as usize
}

// How many bytes so many terms take in form 2.
fn terms_size(roll: &[u8], at: usize, terms: u32) -> usize
    requires { AgainMay roll.now at terms }
    ensures { result ≡ length (again_bytes2 roll.now [] at terms) }
{
    let mut from = at;
    let mut end = at;
    let mut place = at;
    let mut size = 0;
    for done in 0..terms {
        let h = head_at(roll, place);
        let n = alike(roll, from, end, h.from, h.end);
        let further = h.end - h.from - n;
        size += length2(h.scale, h.boys, n as u32, further as u32);
        from = h.from;
        end = h.end;
        place = h.end;
    }
    size
}

// Writes so many terms in form 2; the place after them.
fn put_terms(out: &mut [u8], start: usize, roll: &[u8], at: usize, terms: u32) -> usize
    requires again_may { AgainMay roll.now at terms }
    requires terms_in_bounds { start + length (again_bytes2 roll.now [] at terms) ≤ length out.old }
    ensures { Put (again_bytes2 roll.now [] at terms) start out.old result out.new }
{
    let mut from = at;
    let mut end = at;
    let mut place = at;
    let mut to = start;
    for done in 0..terms {
        let h = head(roll, place);
        let n = alike(roll, from, end, h.from, h.end);
        from = h.from;
        end = h.end;
        place = h.end;
        to = put_term2(out, to, h.scale, h.boys, n as u32, &roll[from + n..end]);
    }
    to
}

// Writes a judged roll in form 2 at the front of a buffer that has room for it; the place after it.
fn put_roll(out: &mut [u8], roll: &[u8], opened: Opened) -> usize
    requires may2 { May2 opened roll.now }
    requires roll_in_bounds { length (bytes_in in_form2 (roll_at roll.now)) ≤ length out.old }
    ensures { Put (bytes_in in_form2 (roll_at roll.now)) 0 out.old result out.new }
{
    let cursor = opened.cursor;
    let place = cursor.place;
    let to = put_head(out, cursor.kind + FORM_TWO as u8, roll, place);
    put_terms(out, to, roll, place, cursor.left)
}

// Whether a judged roll has room in form 2: surely with room for its length and a byte a term; otherwise it is measured.
fn fits(roll: &[u8], opened: Opened, room: usize) -> bool
    requires { May2 opened roll.now }
    ensures { result ≡ leb (length (bytes_in in_form2 (roll_at roll.now))) room }
{
    let cursor = opened.cursor;
    let terms = cursor.left;
    if has_room(room, roll.len(), terms as usize) {
        return true;
    }
    let place = cursor.place;
    has_room(room, place, terms_size(roll, place, terms))
}

// Writes a judged roll in form 2 from a start place on, where it fits.
fn write(roll: &[u8], opened: Opened, out: &mut [u8], start: usize) -> Result<Moved, Fault>
    requires { May2 opened roll.now }
    ensures { MoveTold in_form2 (roll_at roll.now) out.old start result out.new }
{
    if out.len() < start {
        return Err(start_beyond_end());
    }
    if fits(roll, opened, out.len() - start) {
        let length = put_roll(&mut out[start..], roll, opened);
        let terms = opened.cursor.left;
        return Ok(Moved { length, terms });
    }
    Err(no_room())
}

// Moves a roll from form 1 to form 2: nothing is written before the whole roll has been judged and has room.
pub fn to_form2(roll: &[u8], out: &mut [u8], start: usize) -> Result<Moved, Fault>
    ensures { ToForm2Told roll.now out.old start result out.new }
{
    let opened = roll::check(roll)?;
    write(roll, opened, out, start)
}
