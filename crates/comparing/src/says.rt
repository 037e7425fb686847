// The lines of a comparison, said piece by piece as the listing's are: the same functions measure a text and write it.
ghost use Rattle.std.specs.Prelude.{◌++◌, take, Some};
ghost use Rattle.roll.specs.inner.Held.{from_held};
ghost use Rattle.saying.specs.Said.{Said, Kept};
ghost use Rattle.listing.specs.Text.{colon, kind_word, after_blanks};
ghost use Rattle.comparing.specs.Text.{both, reading_text, numbered_text, one_line, line_text, count_line, pair_line, orders_line};
ghost use Rattle.comparing.specs.Answers.{used_of, sided_text};

use crate::differ::used;
use crate::sides::{Side, Sided};
use kind::Kind;
use saying::{say, say_each, say_named, say_number};
use term::Term;

// A colon, and the first `count` prefactors, of which there are no more than places.
fn say_prefactors(
    out: &mut [u8],
    room: usize,
    w: Option<usize>,
    prefactors: [u8; Kind::PREFACTORS],
    count: u8,
) -> Option<usize>
    ensures { Said room out.old w (colon ++ after_blanks (take count prefactors)) result out.new }
{
    let n = (count as usize).min(Kind::PREFACTORS);
    let marked = say(out, room, w, b":");
    say_each(out, room, marked, b" ", &prefactors[0..n])
}

// A term as the listing writes it.
fn say_reading(out: &mut [u8], room: usize, w: Option<usize>, t: Term) -> Option<usize>
    ensures { Said room out.old w (reading_text (from_held t)) result out.new }
{
    let prefactors = t.prefactors;
    let scaled = say_number(out, room, w, t.scale as u64);
    let raised = say_named(out, room, scaled, b" ", t.boys as u64);
    say_prefactors(out, room, raised, prefactors, t.count)
}

// A position's number, a word and a term.
fn say_numbered(out: &mut [u8], room: usize, number: u32, word: &[u8], t: Term) -> Option<usize>
    ensures { Said room out.old (Some 0) (numbered_text number word.now (from_held t)) result out.new }
{
    let numbered = say_number(out, room, Some(0), number as u64);
    let named = say(out, room, numbered, word);
    say_reading(out, room, named, t)
}

// The line of a position whose terms differ.
pub(crate) fn say_both(
    out: &mut [u8],
    room: usize,
    number: u32,
    left: Term,
    right: Term,
) -> Option<usize>
    ensures { Said room out.old (Some 0) (line_text (both number (from_held left) (from_held right))) result out.new }
{
    let first = say_numbered(out, room, number, b": ", left);
    let barred = say(out, room, first, b" / ");
    let second = say_reading(out, room, barred, right);
    say(out, room, second, b"\n")
}

// The line of a position that one side alone has.
pub(crate) fn say_one(
    out: &mut [u8],
    room: usize,
    number: u32,
    side: &[u8],
    t: Term,
) -> Option<usize>
    ensures { Said room out.old (Some 0) (one_line number side.now (from_held t)) result out.new }
{
    let read = say_numbered(out, room, number, side, t);
    say(out, room, read, b"\n")
}

// The line of a refusal, with its side.
pub(crate) fn say_refused(out: &mut [u8], room: usize, refused: Sided) -> Option<usize>
    ensures { Said room out.old (Some 0) (sided_text refused) result out.new }
{
    let fault = refused.fault;
    let number = u8::from(fault.refusal);
    let told = say_named(out, room, Some(0), b"refused ", number as u64);
    let placed = say_named(out, room, told, b" at ", fault.place as u64);
    match refused.side {
        Side::Left => say(out, room, placed, b" left\n"),
        Side::Right => say(out, room, placed, b" right\n"),
    }
}

// A line with a name and both numbers, where they differ.
pub(crate) fn say_pair(
    out: &mut [u8],
    room: usize,
    w: Option<usize>,
    on: bool,
    name: &[u8],
    left: u64,
    right: u64,
) -> Option<usize>
    requires { Kept room w }
    ensures { Said room out.old w (pair_line on name.now left right) result out.new }
{
    if on {
        let first = say_named(out, room, w, name, left);
        let second = say_named(out, room, first, b" / ", right);
        return say(out, room, second, b"\n");
    }
    w
}

// How many positions differ, and the kinds where they do.
pub(crate) fn say_first(
    out: &mut [u8],
    room: usize,
    n: u32,
    on: bool,
    left: u8,
    right: u8,
) -> Option<usize>
    ensures { Said room out.old (Some 0) (count_line n ++ pair_line on kind_word left right) result out.new }
{
    let counted = say_number(out, room, Some(0), n as u64);
    let ended = say(out, room, counted, b" differ\n");
    say_pair(out, room, ended, on, b"kind ", left as u64, right as u64)
}

// A name, and the orders that a kind uses.
fn say_used(
    out: &mut [u8],
    room: usize,
    w: Option<usize>,
    name: &[u8],
    kind: u8,
    orders: [u8; Kind::ORDERS],
) -> Option<usize>
    ensures { Said room out.old w (name.now ++ after_blanks (take (used_of kind) orders)) result out.new }
{
    let n = used(kind);
    let named = say(out, room, w, name);
    say_each(out, room, named, b" ", &orders[0..n])
}

// The line of the orders, where they differ.
pub(crate) fn say_orders(
    out: &mut [u8],
    room: usize,
    w: Option<usize>,
    on: bool,
    a: u8,
    left: [u8; Kind::ORDERS],
    b: u8,
    right: [u8; Kind::ORDERS],
) -> Option<usize>
    requires { Kept room w }
    ensures { Said room out.old w (orders_line on (take (used_of a) left) (take (used_of b) right)) result out.new }
{
    if on {
        let first = say_used(out, room, w, b"orders", a, left);
        let second = say_used(out, room, first, b" /", b, right);
        return say(out, room, second, b"\n");
    }
    w
}
