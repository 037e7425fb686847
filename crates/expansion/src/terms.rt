// A term on its way, and its bytes.
ghost use Rattle.std.specs.Prelude.{◌≡◌, [], ◌∷◌, ◌++◌, ◌+◌, ◌*◌, ◌<◌, ◌≤◌, length};
ghost use Rattle.std.proofs.lemmas.List.Edits.{sets};
ghost use Rattle.number.specs.Numbers.{bytes_of};
ghost use Rattle.roll.specs.Bytes.{term_bytes};
ghost use Rattle.expansion.specs.inner.View.{five_bits, path_prefactors, path_term, TermMay, Emitted, NumberMay, RestMay, MoveMay, moved_on};

use crate::Path;

// The path with one prefactor more.
pub(crate) fn pushed(path: Path, prefactor: u64) -> Path
    requires { (prefactor < 32) × (path.count < 24) }
    ensures { path_term result ≡ record { scale = path.scale; boys = path.boys; prefactors = (path_term path).prefactors ++ (prefactor ∷ []) } }
{
    if path.count == 12 {
        return Path {
            scale: path.scale,
            boys: path.boys,
            count: 13,
            low: prefactor,
            high: path.low,
        };
    }
    Path {
        scale: path.scale,
        boys: path.boys,
        count: path.count + 1,
        low: path.low % 0x80_0000_0000_0000 * 32 + prefactor,
        high: path.high,
    }
}

// Writes the last `count` digits of a word, the last digit at the end.
pub(crate) fn put_digits(out: &mut [u8], at: usize, count: usize, word: u64)
    requires { at + count ≤ length out.old }
    ensures { out.new ≡ sets out.old at (five_bits count word) }
{
    let mut rest = word;
    let mut i = count;
    while 0 < i {
        i -= 1;
        out[at + i] = (rest % 32) as u8;
        rest = rest / 32;
    }
}

// Writes the prefactors, one byte each.
fn put_prefactors(out: &mut [u8], at: usize, count: usize, low: u64, high: u64)
    requires { at + count ≤ length out.old }
    ensures { out.new ≡ sets out.old at (path_prefactors count low high) }
{
    if count <= 12 {
        put_digits(out, at, count, low);
        return;
    }
    put_digits(out, at, 12, high);
    put_digits(out, at + 12, count - 12, low);
}

// Writes a number. Most have one byte.
pub(crate) fn put_number(out: &mut [u8], at: usize, n: u64) -> usize
    requires { NumberMay n at out.old }
    ensures { Emitted (bytes_of n) at out.old result out.new }
{
    if n < 128 {
        out[at] = n as u8;
        return at + 1;
    }
    number::write(out, at, n as u32).unwrap_or(at)
}

// Writes what stands after the scale, one byte each.
fn put_rest(out: &mut [u8], at: usize, boys: u64, count: usize, low: u64, high: u64) -> usize
    requires { RestMay boys count at out.old }
    ensures { Emitted (boys ∷ count ∷ path_prefactors count low high) at out.old result out.new }
{
    out[at] = boys as u8;
    out[at + 1] = count as u8;
    put_prefactors(out, at + 2, count, low, high);
    at + 2 + count
}

// Writes a term, for which there is room.
pub(crate) fn put_term(out: &mut [u8], at: usize, path: Path) -> usize
    requires { TermMay path at out.old }
    ensures { Emitted (term_bytes (path_term path)) at out.old result out.new }
{
    let next = put_number(out, at, path.scale);
    put_rest(
        out,
        next,
        path.boys,
        path.count as usize,
        path.low,
        path.high,
    )
}

// The path one step further on.
pub(crate) fn moved(path: Path, times: u64, raises: u64, adds: u64) -> Path
    requires { MoveMay path times raises adds }
    ensures { path_term result ≡ moved_on (path_term path) times raises adds }
{
    let on = Path {
        scale: path.scale * times,
        boys: path.boys + raises,
        count: path.count,
        low: path.low,
        high: path.high,
    };
    pushed(on, adds)
}
