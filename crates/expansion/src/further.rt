// What a term does not share with the one before it, and its bytes in form 2.
ghost use Rattle.std.specs.Prelude.{◌≡◌, ◌∷◌, ◌+◌, ◌*◌, ◌-◌, ◌/◌, ◌%◌, ◌^◌, ◌<◌, ◌≤◌, length, drop};
ghost use Rattle.std.proofs.lemmas.List.Edits.{sets};
ghost use Rattle.form2.specs.Bytes.{shared};
ghost use Rattle.expansion.specs.inner.View.{five_bits, path_prefactors, path_term, Emitted};
ghost use Rattle.expansion.specs.inner.Sinks.{bytes_after, RestMay2, TermMay2};

use crate::Path;
use crate::terms::{put_digits, put_number};

// The last `count` digits of a word.
fn last(word: u64, count: u64) -> u64
    requires { count ≤ 12 }
    ensures { result ≡ word % 2 ^ (5 * count) }
{
    word % (1 << (5 * count))
}

// A word without its last `count` digits.
fn without(word: u64, count: u64) -> u64
    requires { count ≤ 12 }
    ensures { result ≡ word / 2 ^ (5 * count) }
{
    word >> (5 * count)
}

// How many digits two words of `count` begin with alike. Most differ in the last ones alone, so these go first.
fn alike(count: u64, one: u64, other: u64) -> u64
    requires { count ≤ 12 }
    ensures { result ≡ shared (five_bits count one) (five_bits count other) }
{
    let mut n = count;
    let mut a = last(one, count);
    let mut b = last(other, count);
    while a != b {
        a = a / 32;
        b = b / 32;
        n -= 1;
    }
    n
}

// The same of two words with so many digits each.
fn in_words(few: u64, one: u64, many: u64, other: u64) -> u64
    requires { (few ≤ 12) × (many ≤ 12) }
    ensures { result ≡ shared (five_bits few one) (five_bits many other) }
{
    if few < many {
        return alike(few, one, without(other, many - few));
    }
    alike(many, without(one, few - many), other)
}

// The same of prefactors, where the path has more than a word holds.
fn in_long(count: u64, low: u64, high: u64, path: Path) -> u64
    requires { (count < 25) × (12 < path.count) × (path.count < 25) }
    ensures { result ≡ shared (path_prefactors count low high) (path_term path).prefactors }
{
    if count <= 12 {
        return in_words(count, low, 12, path.high);
    }
    let first = alike(12, high, path.high);
    if first < 12 {
        return first;
    }
    12 + in_words(count - 12, low, path.count - 12, path.low)
}

// The length of the longest beginning that a path's prefactors share with others, which are held as a path holds them.
pub(crate) fn shared_with(count: u64, low: u64, high: u64, path: Path) -> u64
    requires { (count < 25) × (path.count < 25) }
    ensures { result ≡ shared (path_prefactors count low high) (path_term path).prefactors }
{
    if 12 < path.count {
        return in_long(count, low, high, path);
    }
    if 12 < count {
        return in_words(12, high, path.count, path.low);
    }
    in_words(count, low, path.count, path.low)
}

// Writes the prefactors after the first `same`, one byte each.
fn put_further(out: &mut [u8], at: usize, same: usize, path: Path)
    requires { (path.count < 25) × (same ≤ path.count) × (at + (path.count - same) ≤ length out.old) }
    ensures { out.new ≡ sets out.old at (drop same (path_term path).prefactors) }
{
    let count = path.count as usize;
    if count <= 12 {
        put_digits(out, at, count - same, path.low);
        return;
    }
    if 12 <= same {
        put_digits(out, at, count - same, path.low);
        return;
    }
    put_digits(out, at, 12 - same, path.high);
    put_digits(out, at + (12 - same), count - 12, path.low);
}

// Writes what stands after the scale, one byte each.
fn put_rest2(out: &mut [u8], at: usize, same: u64, path: Path) -> usize
    requires { RestMay2 path same at out.old }
    ensures { Emitted (path.boys ∷ same ∷ (path.count - same) ∷ drop same (path_term path).prefactors) at out.old result out.new }
{
    let further = path.count - same;
    out[at] = path.boys as u8;
    out[at + 1] = same as u8;
    out[at + 2] = further as u8;
    put_further(out, at + 3, same as usize, path);
    at + 3 + further as usize
}

// Writes a term of which so many prefactors are shared, and for which there is room.
pub(crate) fn put_term2(out: &mut [u8], at: usize, same: u64, path: Path) -> usize
    requires { TermMay2 path same at out.old }
    ensures { Emitted (bytes_after path same) at out.old result out.new }
{
    let next = put_number(out, at, path.scale);
    put_rest2(out, next, same, path)
}
