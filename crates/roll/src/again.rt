// A roll that has been judged, read again: its numbers, and its terms by where they stand.
ghost use Rattle.std.specs.Prelude.{◌+◌, min, true, ◌≡◌};
ghost use Rattle.roll.specs.inner.Again.{seen_at, head_at, boys_at, end_at, Short};

use number::{one_byte, wide};

// A number of a roll and the place after it.
#[derive(Clone, Copy)]
pub struct Seen {
    pub value: u32,
    pub next: usize,
}

// A term of a roll; its prefactors are the bytes from one place to another.
#[derive(Clone, Copy)]
pub struct Head {
    pub scale: u32,
    pub boys: u32,
    pub from: usize,
    pub end: usize,
}

// The number at a place; where none reads, 0 and the same place.
pub fn number_at(roll: &[u8], at: usize) -> Seen
    ensures { result ≡ seen_at roll.now at }
{
    match number::read(roll, at) {
        Ok((value, next)) => Seen { value, next },
        Err(_) => Seen { value: 0, next: at },
    }
}

// The place so many bytes on, and no further than the roll.
fn end_of(length: usize, from: usize, count: u32) -> usize
    ensures { result ≡ min (from + count) length }
{
    if length <= from {
        return length;
    }
    let count = count as usize;
    if count <= length - from {
        return from + count;
    }
    length
}

// A term's numbers, and where its prefactors stand, a number after the other.
fn long_head(roll: &[u8], at: usize) -> Head
    ensures { result ≡ head_at roll.now at }
{
    let scale = number_at(roll, at);
    let boys = number_at(roll, scale.next);
    let count = number_at(roll, boys.next);
    let end = end_of(roll.len(), count.next, count.value);
    Head {
        scale: scale.value,
        boys: boys.value,
        from: count.next,
        end,
    }
}

// Whether the scale, the Boys order and the count here are one byte each, and the prefactors end inside the roll (D-81).
fn is_short(roll: &[u8], at: usize) -> bool
    ensures { result ≡ true → Short roll.now at }
{
    if roll.len() <= at {
        return false;
    }
    let rest = roll.len() - at;
    if rest < 3 {
        return false;
    }
    if one_byte(wide(roll[at])) {
        if one_byte(wide(roll[at + 1])) {
            let count = wide(roll[at + 2]);
            if one_byte(count) {
                return count as usize + 3 <= rest;
            }
        }
    }
    false
}

// Such a term, by its bytes.
fn short_head(roll: &[u8], at: usize) -> Head
    requires { Short roll.now at }
    ensures { result ≡ head_at roll.now at }
{
    Head {
        scale: wide(roll[at]),
        boys: wide(roll[at + 1]),
        from: at + 3,
        end: at + 3 + wide(roll[at + 2]) as usize,
    }
}

// The Boys order of such a term.
fn short_boys(roll: &[u8], at: usize) -> usize
    requires { Short roll.now at }
    ensures { result ≡ boys_at roll.now at }
{
    wide(roll[at + 1]) as usize
}

// The place after such a term.
fn short_end(roll: &[u8], at: usize) -> usize
    requires { Short roll.now at }
    ensures { result ≡ end_at roll.now at }
{
    at + 3 + wide(roll[at + 2]) as usize
}

// A term's numbers, and where its prefactors stand. Most terms are short.
pub fn head_at(roll: &[u8], at: usize) -> Head
    ensures { result ≡ head_at roll.now at }
{
    if is_short(roll, at) {
        return short_head(roll, at);
    }
    long_head(roll, at)
}

// A term's Boys order.
pub fn boys_at(roll: &[u8], at: usize) -> usize
    ensures { result ≡ boys_at roll.now at }
{
    if is_short(roll, at) {
        return short_boys(roll, at);
    }
    let h = long_head(roll, at);
    h.boys as usize
}

// The place after a term.
pub fn end_at(roll: &[u8], at: usize) -> usize
    ensures { result ≡ end_at roll.now at }
{
    if is_short(roll, at) {
        return short_end(roll, at);
    }
    let h = long_head(roll, at);
    h.end
}
