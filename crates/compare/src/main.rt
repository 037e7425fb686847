// Tells where two rolls differ: `compare LEFT RIGHT`, each a file with a roll of either form (02, Q-4).
//
// What there is to tell goes to standard output, one piece after the other; a file that can't be opened is told on standard error (D-105).
#![tactic(auto)]

ghost use Rattle.std.specs.Prelude.{◌≤◌, length, IfOk, IfSome, OnOk};
ghost use Rattle.std.specs.Io.KnownBytes.{Appends};
ghost use Rattle.comparing.specs.Answers.{piece_room, head_of, compared_text, met_text, sided_text};
ghost use Rattle.compare.specs.inner.Room.{Holds};

use comparing::{Compared, Met, Pair, Sided};
use std::env::Env;
use std::fs::Files;
use std::io;
use std::io::Write;
use streams::{argument_count, open, read_full};

// The bytes of a piece: no head and no line has more.
const PIECE: usize = 256;
// The arguments of a call, the name of the program among them.
const ARGUMENTS: usize = 3;
// The bytes of a file's name.
const NAME: usize = 4096;
// The bytes of the buffers that rolls usually go through; a file that has as many may have more.
const ROOM: usize = 1048576;
// The bytes of the larger ones: more than any roll of either form has.
const LARGE: usize = 33554432;

// How many bytes of a file were read, and whether these are all; a file that fills the buffer may have more.
#[derive(Clone, Copy)]
struct File {
    length: usize,
    whole: bool,
}

// How many bytes of text say what differs between two rolls that read.
fn told_rolls(compared: Compared, text: &mut [u8]) -> usize
    requires { piece_room ≤ length text.old }
    ensures { Holds text.new result (head_of compared) }
{
    comparing::head(Ok(compared), text, 0).unwrap_or(0)
}

// How many bytes of text say what a step has met.
fn told_line(met: Met, text: &mut [u8]) -> usize
    requires { piece_room ≤ length text.old }
    ensures { Holds text.new result (met_text met) }
{
    comparing::line(Ok(Some(met)), text, 0).unwrap_or(0)
}

// How many bytes of text say what is refused.
fn told_refusal(refused: Sided, text: &mut [u8]) -> usize
    requires { piece_room ≤ length text.old }
    ensures { Holds text.new result (sided_text refused) }
{
    comparing::refusal_line(refused, text, 0).unwrap_or(0)
}

// How many bytes of text say what a comparison answers.
fn told_head(answer: Result<Compared, Sided>, text: &mut [u8]) -> usize
    requires { piece_room ≤ length text.old }
    ensures { Holds text.new result (compared_text answer) }
{
    match answer {
        Ok(compared) => told_rolls(compared, text),
        Err(refused) => told_refusal(refused, text),
    }
}

fn write_head<W: Write>(
    out: &mut W,
    answer: Result<Compared, Sided>,
    text: &mut [u8],
) -> io::Result<()>
    requires { piece_room ≤ length text.old }
    ensures { OnOk result (Appends (W.contents out.old) (W.contents out.new) (compared_text answer)) }
{
    let n = told_head(answer, text);
    out.write_all(&text[0..n])
}

fn write_line<W: Write>(out: &mut W, met: Met, text: &mut [u8]) -> io::Result<()>
    requires { piece_room ≤ length text.old }
    ensures { OnOk result (Appends (W.contents out.old) (W.contents out.new) (met_text met)) }
{
    let n = told_line(met, text);
    out.write_all(&text[0..n])
}

// The lines of the positions that the steps from a pair on give.
fn write_lines<W: Write>(
    out: &mut W,
    left: &[u8],
    right: &[u8],
    pair: Pair,
    text: &mut [u8],
) -> io::Result<()>
    requires { piece_room ≤ length text.old }
{
    let mut at = pair;
    while let Ok(Some(met)) = at.next(left, right) {
        write_line(out, met, text)?;
        at = met.next;
    }
    Ok(())
}

fn show<W: Write>(out: &mut W, left: &[u8], right: &[u8]) -> io::Result<()> {
    let mut text = [0u8; PIECE];
    let answer = comparing::compare(left, right);
    write_head(out, answer, &mut text)?;
    match answer {
        Ok(compared) => write_lines(out, left, right, compared.cursor, &mut text),
        Err(_) => Ok(()),
    }
}

// The file that an argument names, at the front of the buffer; none where it can't be opened.
fn load(rt: &(impl Env + Files), argument: usize, bytes: &mut [u8]) -> io::Result<Option<File>>
    ensures { IfOk result (λ answer. IfSome answer (λ file. file.length ≤ length bytes.new)) }
{
    let mut name = [0u8; NAME];
    let n = streams::argument(rt, argument, &mut name);
    let Some(mut file) = open(rt, &name[0..n]) else {
        return Ok(None);
    };
    let length = read_full(&mut file, bytes)?;
    let whole = length < bytes.len();
    Ok(Some(File { length, whole }))
}

// Whether the right file has room in its buffer; what there is to tell is then told.
fn with_left(
    rt: &(impl Env + Files + Print + Eprint),
    left: &[u8],
    right: &mut [u8],
) -> io::Result<bool> {
    let Some(file) = load(rt, 2, right)? else {
        eprintln!(rt; "The right file can't be opened.")?;
        return Ok(true);
    };
    if file.whole {
        show(&mut io::writer(rt), left, &right[0..file.length])?;
    }
    Ok(file.whole)
}

// Whether both files have room in their buffers; what there is to tell is then told.
fn answer(
    rt: &(impl Env + Files + Print + Eprint),
    left: &mut [u8],
    right: &mut [u8],
) -> io::Result<bool> {
    let Some(file) = load(rt, 1, left)? else {
        eprintln!(rt; "The left file can't be opened.")?;
        return Ok(true);
    };
    if !file.whole {
        return Ok(false);
    }
    with_left(rt, &left[0..file.length], right)
}

// The answer by way of the usual buffers.
fn in_usual(rt: &(impl Env + Files + Print + Eprint + Alloc)) -> io::Result<bool> {
    let mut left = vec![in rt.alloc(); 0u8; ROOM]?;
    let mut right = vec![in rt.alloc(); 0u8; ROOM]?;
    answer(rt, &mut left, &mut right)
}

// The answer by way of larger buffers.
fn in_large(rt: &(impl Env + Files + Print + Eprint + Alloc)) -> io::Result<()> {
    let mut left = vec![in rt.alloc(); 0u8; LARGE]?;
    let mut right = vec![in rt.alloc(); 0u8; LARGE]?;
    if answer(rt, &mut left, &mut right)? {
        return Ok(());
    }
    eprintln!(rt; "A file is longer than any roll.")
}

fn main(rt: HostRuntime) -> io::Result<()> {
    if argument_count(&rt, ARGUMENTS + 1) != ARGUMENTS {
        return eprintln!(rt; "compare LEFT RIGHT: where two rolls differ");
    }
    if in_usual(&rt)? {
        return Ok(());
    }
    in_large(&rt)
}
