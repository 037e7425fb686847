// Small text in lent buffers: bytes, decimal and hexadecimal numbers, written and read.
//
// A writer puts its whole text from a place on and tells the place after it, or finds no room and changes nothing.
#![tactic(auto)]

ghost use Rattle.std.specs.Prelude.{◌≡◌, ◌≤◌, ◌<◌, length, drop};
ghost use Rattle.text.specs.Digits.{digits, decimal_of, hex_byte_of, hex_word_of, places_of};
ghost use Rattle.text.specs.Digits.{glyph as Digits·glyph, worth as Digits·worth};
ghost use Rattle.text.specs.Writing.{WrittenTold, end_where_fits};
ghost use Rattle.text.specs.Reading.{run_of, value_at, decimal_at, hex_at};

// The most hexadecimal digits that a number may be given by.
const MOST_HEX: usize = 16;

pub fn put(out: &mut [u8], at: usize, bytes: &[u8]) -> Option<usize>
    ensures { WrittenTold out.old at bytes.now result out.new }
{
    let end = end_of(out.len(), at, bytes.len())?;
    out[at..end].copy_from_slice(bytes);
    Some(end)
}

// A number in decimal, with no leading zeros.
pub fn decimal(out: &mut [u8], at: usize, n: u64) -> Option<usize>
    ensures { WrittenTold out.old at (decimal_of n) result out.new }
{
    spelled(out, at, places(n), n, 10)
}

// A byte in two hexadecimal digits.
pub fn hex_byte(out: &mut [u8], at: usize, byte: u8) -> Option<usize>
    ensures { WrittenTold out.old at (hex_byte_of byte) result out.new }
{
    spelled(out, at, 2, byte as u64, 16)
}

// A word of 64 bits in sixteen hexadecimal digits.
pub fn hex_word(out: &mut [u8], at: usize, word: u64) -> Option<usize>
    ensures { WrittenTold out.old at (hex_word_of word) result out.new }
{
    spelled(out, at, 16, word, 16)
}

// The decimal number below 2^64, without leading zeros, that stands at a place.
pub fn read_decimal(s: &[u8], at: usize) -> Option<(u64, usize)>
    ensures { result ≡ decimal_at s.now at }
{
    let (n, next) = read_run(s, at, 10)?;
    if places(n) != next - at {
        return None;
    }
    Some((n, next))
}

// The number in one to sixteen hexadecimal digits that stands at a place.
pub fn read_hex(s: &[u8], at: usize) -> Option<(u64, usize)>
    ensures { result ≡ hex_at s.now at }
{
    let (n, next) = read_run(s, at, 16)?;
    if next == at || MOST_HEX < next - at {
        return None;
    }
    Some((n, next))
}

// The place after `n` bytes from `at` on, where they have room in `length` bytes.
fn end_of(length: usize, at: usize, n: usize) -> Option<usize>
    ensures { result ≡ end_where_fits length at n }
{
    at.checked_add(n).filter(|end| *end <= length)
}

// How many digits the decimal of `n` has.
pub fn places(n: u64) -> usize
    ensures { result ≡ places_of n }
{
    n.max(1).ilog10() as usize + 1
}

// The last `k` digits of `n` in `base`, where they have room.
#[tactic(auto, using(crate::proofs::Writing::length_digits))]
fn spelled(out: &mut [u8], at: usize, k: usize, n: u64, base: u64) -> Option<usize>
    requires { (1 < base) × (base ≤ 16) }
    ensures { WrittenTold out.old at (digits base k n) result out.new }
{
    let end = end_of(out.len(), at, k)?;
    spell(&mut out[at..end], n, base);
    Some(end)
}

// The last digits of `n` in `base`, as many as there are bytes.
fn spell(out: &mut [u8], n: u64, base: u64)
    requires { (1 < base) × (base ≤ 16) }
    ensures { out.new ≡ digits base (length out.old) n }
{
    let mut rest = n;
    for i in (0..out.len()).rev() {
        out[i] = glyph(rest % base);
        rest /= base;
    }
}

#[tactic(auto, unfolding(crate::specs::Digits::glyph))]
fn glyph(d: u64) -> u8
    requires { d < 16 }
    ensures { result ≡ Digits·glyph d }
{
    if d < 10 {
        b'0' + d as u8
    } else {
        b'a' - 10 + d as u8
    }
}

// What a byte is worth as a digit, 16 where it is none.
#[tactic(auto, unfolding(crate::specs::Digits::worth))]
fn worth(byte: u8) -> u64
    ensures { (result ≡ Digits·worth byte) × (result ≤ 16) }
{
    match byte {
        b'0'..=b'9' => (byte - b'0') as u64,
        b'a'..=b'f' => (byte - b'a' + 10) as u64,
        _ => 16,
    }
}

// The digits of `base` from `at` on: their number and the place after them.
fn read_run(s: &[u8], at: usize, base: u64) -> Option<(u64, usize)>
    requires { (1 < base) × (base ≤ 16) }
    ensures { result ≡ value_at (run_of (drop at s.now) base) at base }
{
    let mut n: u64 = 0;
    for i in at..s.len() {
        let d = worth(s[i]);
        if base <= d {
            return Some((n, i));
        }
        n = n.checked_mul(base)?.checked_add(d)?;
    }
    Some((n, at.max(s.len())))
}
