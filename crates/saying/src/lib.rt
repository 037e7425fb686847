// A text said piece by piece into a lent buffer, as far as a room goes.
//
// The same functions measure a text and write it: lent no bytes, they only find out whether it has room (D-74).
#![tactic(auto)]

ghost use Rattle.std.specs.Prelude.{◌≡◌};
ghost use Rattle.text.specs.Digits.{decimal_of};
ghost use Rattle.saying.specs.Said.{advanced, PieceTold, NamedTold, EachTold};

// The place after `n` more bytes, where the room has them.
fn advance(room: usize, at: usize, n: usize) -> Option<usize>
    ensures { result ≡ advanced room (Some at) n }
{
    at.checked_add(n).filter(|next| *next <= room)
}

// What was said, where the room has it.
fn within(room: usize, w: Option<usize>) -> Option<usize>
    ensures { result ≡ advanced room w 0 }
{
    advance(room, w?, 0)
}

// Bytes after what was said. Where they don't fit into the bytes lent, those stay as they are.
pub fn say(out: &mut [u8], room: usize, w: Option<usize>, bytes: &[u8]) -> Option<usize>
    ensures { PieceTold room out.old w bytes.now result out.new }
{
    let at = w?;
    text::put(out, at, bytes);
    advance(room, at, bytes.len())
}

// A number in decimal.
pub fn say_number(out: &mut [u8], room: usize, w: Option<usize>, n: u64) -> Option<usize>
    ensures { PieceTold room out.old w (decimal_of n) result out.new }
{
    let at = w?;
    text::decimal(out, at, n);
    advance(room, at, text::places(n))
}

// Bytes, then a number.
pub fn say_named(
    out: &mut [u8],
    room: usize,
    w: Option<usize>,
    name: &[u8],
    n: u64,
) -> Option<usize>
    ensures { NamedTold room out.old w name.now n result out.new }
{
    let named = say(out, room, w, name);
    say_number(out, room, named, n)
}

// Numbers, each after a mark.
pub fn say_each(
    out: &mut [u8],
    room: usize,
    w: Option<usize>,
    mark: &[u8],
    values: &[u8],
) -> Option<usize>
    ensures { EachTold room out.old w mark.now values.now result out.new }
{
    let mut said = within(room, w);
    for &value in values {
        said = say_named(out, room, said, mark, value as u64);
    }
    said
}
