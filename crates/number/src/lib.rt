// The seven-bit number of a roll: its reader, which tells why a number can't be read, and its writer.
#![tactic(auto)]

ghost use Rattle.std.specs.Prelude.{ℕ, ◌+◌, ◌<◌, ◌≤◌, ◌^◌, ◌≡◌, length, drop};
ghost use Rattle.std.proofs.lemmas.List.Edits.{sets};
ghost use Rattle.number.specs.Read.{Is};
ghost use Rattle.number.specs.Numbers.{group, one_byte, bytes_of, length_of, above, higher, read_at, refusal_of, WriteTold};

use kind::Refusal;

// A group of seven bits is below this, and this is what the high bit adds.
const GROUP: u32 = 128;

// Why no number stands at a place.
#[derive(Clone, Copy, Debug, PartialEq, Eq)]
pub enum Unread {
    Ended,
    NotShortest,
    TooLarge,
}

// The refusal that each reason stands for: the one place that says so.
impl From<Unread> for Refusal {
    ghost from_gives = { λ why refusal. refusal ≡ refusal_of why };

    fn from(why: Unread) -> Refusal
        ensures { result ≡ refusal_of why }
    {
        match why {
            Unread::Ended => Refusal::CutRoll,
            Unread::NotShortest | Unread::TooLarge => Refusal::BadRoll,
        }
    }
}

// A byte as a number of a roll.
pub fn wide(x: u8) -> u32
    ensures { result ≡ x }
{
    x as u32
}

// Whether a number is one byte; as a byte, whether it ends a number.
pub fn one_byte(n: u32) -> bool
    ensures { result ≡ one_byte n }
{
    n < GROUP
}

// A group below the number that the bytes after it make.
fn above(low: u32, high: Result<(u32, usize), Unread>) -> Result<(u32, usize), Unread>
    requires low_lt_group { low < group }
    requires by_index { (n next : ℕ) → high ≡ Is n next → n < 2 ^ 25 }
    ensures { result ≡ above low high }
{
    let (n, next) = high?;
    Ok((low + GROUP * n, next))
}

// The byte at `next`, after a number's first; `more` bytes may follow it.
fn higher(s: &[u8], next: usize, more: usize) -> Result<(u32, usize), Unread>
    requires { more ≤ 3 }
    ensures { result ≡ higher (drop next s.now) next more }
{
    if s.len() <= next {
        return Err(Unread::Ended);
    }
    let b = wide(s[next]);
    if b == 0 {
        return Err(Unread::NotShortest);
    }
    if more == 0 {
        if 15 < b {
            return Err(Unread::TooLarge);
        }
        return Ok((b, next + 1));
    }
    if b < GROUP {
        return Ok((b, next + 1));
    }
    above(b % GROUP, higher(s, next + 1, more - 1))
}

// The number at a place. Most have one byte.
pub fn read(s: &[u8], at: usize) -> Result<(u32, usize), Unread>
    ensures { result ≡ read_at s.now at }
{
    if s.len() <= at {
        return Err(Unread::Ended);
    }
    let first = wide(s[at]);
    let next = at + 1;
    if one_byte(first) {
        return Ok((first, next));
    }
    above(first % GROUP, higher(s, next, 3))
}

// How many bytes a number takes.
pub fn length(n: u32) -> usize
    ensures { result ≡ length_of n }
{
    if one_byte(n) {
        return 1;
    }
    if n < 16384 {
        return 2;
    }
    if n < 2097152 {
        return 3;
    }
    if n < 268435456 {
        return 4;
    }
    5
}

fn put(out: &mut [u8], start: usize, n: u32) -> usize
    requires { start + length_of n ≤ length out.old }
    ensures { (result ≡ start + length_of n) × (out.new ≡ sets out.old start (bytes_of n)) }
{
    let mut left = n;
    let mut at = start;
    while GROUP <= left {
        out[at] = (GROUP + left % GROUP) as u8;
        left = left / GROUP;
        at += 1;
    }
    out[at] = left as u8;
    at + 1
}

// Writes a number's bytes from `at` on, or nothing where they don't fit.
pub fn write(out: &mut [u8], at: usize, n: u32) -> Option<usize>
    ensures { WriteTold out.old at (bytes_of n) result out.new }
{
    if out.len() < at {
        return None;
    }
    if out.len() - at < length(n) {
        return None;
    }
    Some(put(out, at, n))
}
