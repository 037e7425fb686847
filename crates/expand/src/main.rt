// Writes the roll of a request to standard output: `expand KIND ORDERS..`, in decimal (D-77); `expand form2 ..`, in form 2.
//
// Orders are as many as the kind uses, or all twelve of a request. A refusal writes nothing there and one line to
// standard error. Wrong arguments are answered there too, by how to call the program.
#![tactic(auto)]

ghost use Rattle.std.specs.Prelude.{◌≤◌, IfSome};
ghost use Rattle.kind.specs.Limits.{request_orders};

use expansion::Expanded;
use kind::{Kind, Refusal};
use std::env::Env;
use std::io;
use streams::argument_count;

// The bytes of the buffer that a roll usually goes through.
const ROOM: usize = 1048576;
// The bytes of the larger one: more than any roll has.
const LARGE: usize = 16777216;
// The most arguments of a call: the program, the word that asks for form 2, the kind, the orders.
const ARGUMENTS: usize = 3 + Kind::ORDERS;
// The digits of the largest byte.
const DIGITS: usize = 3;
// The letters of the word that asks for form 2.
const WORD: usize = 5;

fn usage(rt: &impl Eprint) -> io::Result<()> {
    eprintln!(rt; "expand KIND ORDERS.. > ROLL, or expand form2 KIND ORDERS.. > ROLL")?;
    eprintln!(rt; "KIND: 0 overlap, 1 kinetic, 2 nuclear, 3 moment, 4 Coulomb.")?;
    eprintln!(rt;
        "ORDERS: x y z of each centre, A, B, then the operator (kind 3) or C, D (kind 4)."
    )?;
    eprintln!(rt;
        "They are 6, 6, 6, 9 or 12, or 12 with zeros at the end. Numbers are 0 to 255, in decimal."
    )
}

// A refusal's line, with the words of document 01 and of the requests.
fn say_refused(rt: &impl Eprint, refusal: Refusal) -> io::Result<()> {
    let number = u8::from(refusal);
    let why = why(refusal);
    eprintln!(rt; "refused {number}{why}")
}

fn why(refusal: Refusal) -> &'static str {
    match refusal {
        Refusal::WrongKind => ": kind above 4",
        Refusal::OrderSum => ": an order sum the kind uses, or a shell's order, above 6",
        Refusal::UnusedOrder => ": one of the twelve orders unused by the kind is not 0",
        Refusal::TooManyTerms => ": more than 1,048,575 complete histories",
        Refusal::NoRoom =>
            ": the whole output doesn't fit from the start place, or the listing's input is over 65,536 bytes",
        _ => "",
    }
}

// A whole word as a number below 256.
fn byte_of(word: &[u8]) -> Option<u8> {
    let (n, end) = text::read_decimal(word, 0)?;
    if end != word.len() || 255 < n {
        return None;
    }
    Some(n as u8)
}

// An argument as a number below 256. One that is missing or longer has no bytes here, and so is none.
fn argument(rt: &impl Env, i: usize) -> Option<u8> {
    let mut word = [0u8; DIGITS];
    let n = streams::argument(rt, i, &mut word);
    byte_of(&word[..n])
}

// Whether the first argument asks for form 2.
fn is_form2(rt: &impl Env) -> bool {
    let mut word = [0u8; WORD];
    let n = streams::argument(rt, 1, &mut word);
    &word[..n] == b"form2".as_slice()
}

// The orders from argument `first` on, zeros after them; none where one is no number.
fn read_orders(rt: &impl Env, first: u8, n: usize) -> Option<[u8; Kind::ORDERS]>
    requires { n ≤ request_orders }
{
    let mut orders = [0u8; Kind::ORDERS];
    for i in 0..n {
        orders[i] = argument(rt, first as usize + i)?;
    }
    Some(orders)
}

// Whether a request of this kind may have so many orders.
fn fits(kind: u8, n: usize) -> bool {
    n == Kind::ORDERS || Kind::of(kind).is_some_and(|known| n == known.orders())
}

fn write_roll(rt: &impl Print, roll: &[u8], n: usize) -> io::Result<()> {
    if n <= roll.len() {
        rt.write_all(&roll[0..n])?;
    }
    Ok(())
}

// The request's roll in the form that is asked for, at the front of the buffer.
fn expanded(
    second: bool,
    kind: u8,
    orders: [u8; Kind::ORDERS],
    out: &mut [u8],
) -> Result<Expanded, Refusal> {
    if second {
        expansion::expand2(kind, orders, out, 0)
    } else {
        expansion::expand(kind, orders, out, 0)
    }
}

// The refusal of the request's roll by way of a buffer of so many bytes; none where the roll is written out.
fn answer(
    rt: &(impl Print + Alloc),
    second: bool,
    kind: u8,
    orders: [u8; Kind::ORDERS],
    room: usize,
) -> io::Result<Option<Refusal>> {
    let mut out = vec![in rt.alloc(); 0u8; room]?;
    match expanded(second, kind, orders, &mut out) {
        Ok(roll) => {
            write_roll(rt, &out, roll.length)?;
            Ok(None)
        }
        Err(refusal) => Ok(Some(refusal)),
    }
}

// The roll goes through the larger buffer where it has no room in the usual one.
fn expand(
    rt: &(impl Print + Eprint + Alloc),
    second: bool,
    kind: u8,
    orders: [u8; Kind::ORDERS],
) -> io::Result<()> {
    if let Err(refusal) = expansion::roll_size(kind, orders) {
        return say_refused(rt, refusal);
    }
    if answer(rt, second, kind, orders, ROOM)?.is_none() {
        return Ok(());
    }
    match answer(rt, second, kind, orders, LARGE)? {
        Some(refusal) => say_refused(rt, refusal),
        None => Ok(()),
    }
}

// The kind of the request whose kind is argument `at`, and how many orders follow from argument `first` on.
fn request(rt: &impl Env, at: u8, first: u8) -> Option<(u8, usize)>
    ensures { IfSome result (λ r. r.1 ≤ request_orders) }
{
    let n = argument_count(rt, ARGUMENTS + 1).checked_sub(first as usize)?;
    let kind = argument(rt, at as usize)?;
    if n == 0 || Kind::ORDERS < n || !fits(kind, n) {
        return None;
    }
    Some((kind, n))
}

fn called(
    rt: &(impl Env + Print + Eprint + Alloc),
    second: bool,
    at: u8,
    first: u8,
) -> io::Result<()> {
    let Some((kind, n)) = request(rt, at, first) else {
        return usage(rt);
    };
    let Some(orders) = read_orders(rt, first, n) else {
        return usage(rt);
    };
    expand(rt, second, kind, orders)
}

fn main(rt: HostRuntime) -> io::Result<()> {
    if is_form2(&rt) {
        called(&rt, true, 2, 3)
    } else {
        called(&rt, false, 1, 2)
    }
}
