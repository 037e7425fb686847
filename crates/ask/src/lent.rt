// The buffer that a question lends to the library: every byte is filled before, and looked at afterwards.
use crate::{answers, floats, forms, questions};
use forms::Told;
use questions::least;

// The most bytes of a roll that is given, and the bytes of the buffer that is usually lent to the library.
pub(crate) const MOST: usize = 1048576;

// The most bytes that a question can have lent to the library: more than any roll takes (D-89).
pub(crate) const LARGE: usize = 16777216;

// The bytes that an export has lent, and the most that it can have.
pub(crate) const TEXT: usize = 3145728;

// The most bytes of a grouping buffer.
pub(crate) const LARGEST: usize = 67108864;

const FILL: u8 = 0xa5;
// The bits of a float that is filled.
const FILL_BITS: u64 = 0xa5a5_a5a5_a5a5_a5a5;

pub(crate) fn fill(space: &mut [u8]) {
    space.fill(FILL);
}

// Whether each byte is as it was filled.
fn is_kept(space: &[u8]) -> bool {
    let mut changed: u8 = 0;
    for byte in space {
        changed = changed | (*byte ^ FILL);
    }
    changed == 0
}

// The answer, where its bytes lie in the buffer and every other byte is as it was filled (D-48).
pub(crate) fn looked(lent: &[u8], t: Told) -> Told {
    let start = t.start;
    let long = t.long;
    if lent.len() < start || lent.len() - start < long {
        return answers::spoiled();
    }
    let end = start + long;
    if is_kept(&lent[0..start]) && is_kept(&lent[end..]) {
        return t;
    }
    answers::spoiled()
}

// What a float is filled with.
pub(crate) fn fill_float() -> f64 {
    floats::of_bits(FILL_BITS)
}

// Whether each float has the bits that it was filled with.
pub(crate) fn are_kept(lent: &[f64]) -> bool {
    let mut changed: u64 = 0;
    for x in lent {
        changed = changed | (floats::bits(*x) ^ FILL_BITS);
    }
    changed == 0
}

// Lays floats down at the front, as many as have room.
pub(crate) fn lay(room: &mut [f64], floats: &[f64]) {
    let count = least(floats.len(), room.len());
    room[..count].copy_from_slice(&floats[..count]);
}
