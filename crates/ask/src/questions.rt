// The questions: the number of each one's shape, what it has lent, and the call that answers it.
ghost use Rattle.std.specs.Prelude.{◌≤◌};

use crate::{
    answers, compares, expands, forms, lent, lists, matrices, moves, rolls, salvages, shells, sums,
    values, words,
};
use answers::Form;
use forms::Told;
use kind::Kind;
use words::{Asked, NUMBERS};

// What `shell M` lends, from place 0 on: more than any list needs (D-45).
const SHELL_LENT: u64 = 256;
// Room for the longest listing: a term of three bytes takes at most fourteen letters, and each byte more at most three.
const LISTING_LENT: u64 = 5 * Kind::MOST_LISTED as u64;

#[derive(Clone, Copy)]
enum Question {
    Echo,
    Shell,
    ShellIn,
    Pair,
    Four,
    Expand,
    ExpandIn,
    List,
    Open,
    Check,
    Next,
    Eval,
    Table,
    Jk,
    Jkl,
    Measure,
    Total,
    Scales,
    Expand2,
    Expand2In,
    Open2,
    Check2,
    Next2,
    Form2,
    Form2In,
    Form1,
    Form1In,
    Grouped,
    Salvage,
    SalvageIn,
    Compare,
    Nuclei,
    Contracted,
    Root,
    Small,
    SmallExpand,
    SmallExpandIn,
    Confirm,
    Export,
    ExportIn,
    Import,
    ImportIn,
    Unknown,
}

// The length of a lent buffer, the place from which on it is filled, and the length that it must have at once: all of it
// where the question says it, else none.
#[derive(Clone, Copy)]
pub(crate) struct Lent {
    pub(crate) size: usize,
    start: usize,
    pub(crate) said: usize,
}

// The question of each line of the table of shapes in `turns`, from 0 on (D-54).
fn of(shape: usize) -> Question {
    match shape {
        0 | 1 => Question::Echo,
        2 => Question::Shell,
        3 => Question::ShellIn,
        4 => Question::Pair,
        5 => Question::Four,
        6 => Question::Expand,
        7 => Question::ExpandIn,
        8 => Question::List,
        9 => Question::Open,
        10 => Question::Check,
        11 => Question::Next,
        12 => Question::Eval,
        13 => Question::Table,
        14 => Question::Jk,
        15 => Question::Jkl,
        16 => Question::Measure,
        17 => Question::Total,
        18 => Question::Scales,
        19 => Question::Expand2,
        20 => Question::Expand2In,
        21 => Question::Open2,
        22 => Question::Check2,
        23 => Question::Next2,
        24 => Question::Form2,
        25 => Question::Form2In,
        26 => Question::Form1,
        27 => Question::Form1In,
        28 => Question::Grouped,
        29 => Question::Salvage,
        30 => Question::SalvageIn,
        31 => Question::Compare,
        32 => Question::Nuclei,
        33 => Question::Contracted,
        34 => Question::Root,
        35 => Question::Small,
        36 => Question::SmallExpand,
        37 => Question::SmallExpandIn,
        38 => Question::Confirm,
        39 => Question::Export,
        40 => Question::ExportIn,
        41 => Question::Import,
        42 => Question::ImportIn,
        _ => Question::Unknown,
    }
}

// What a question has lent. Where it says no buffer, it is one of the usual size, from its front on.
fn lends(q: Question, n: [u64; NUMBERS]) -> Lent {
    match q {
        Question::Shell => usual(SHELL_LENT),
        Question::ShellIn => said(n[1], n[2]),
        Question::Expand | Question::Expand2 | Question::SmallExpand => usual(lent::LARGE as u64),
        Question::ExpandIn | Question::Expand2In | Question::SmallExpandIn => said(n[13], n[14]),
        Question::Form2 | Question::Form1 | Question::Salvage | Question::Import => {
            usual(lent::LARGE as u64)
        }
        Question::Form2In | Question::Form1In | Question::SalvageIn => said(n[0], n[1]),
        Question::ExportIn | Question::ImportIn => said(n[0], n[1]),
        Question::Export => usual(lent::TEXT as u64),
        Question::List => usual(LISTING_LENT),
        Question::Compare => usual(lent::LARGEST as u64),
        Question::Grouped => said(n[0], 0),
        _ => usual(0),
    }
}

fn usual(size: u64) -> Lent {
    Lent {
        size: size as usize,
        start: 0,
        said: 0,
    }
}

fn said(size: u64, start: u64) -> Lent {
    Lent {
        size: size as usize,
        start: start as usize,
        said: size as usize,
    }
}

// What a question that is read has lent.
pub(crate) fn room(asked: Asked) -> Lent {
    let n = asked.numbers;
    lends(of(asked.question), n)
}

// The answer to what is read; the roll and the floats are the first of those that are given.
pub(crate) fn answer(asked: Asked, given: &[u8], floats: &mut [f64], lent: &mut [u8]) -> Told {
    let n = asked.numbers;
    let count = least(asked.floats, floats.len());
    let told = answer_in(asked, given, floats, lent);
    in_floats(of(asked.question), n, &mut floats[0..count], told)
}

// The same for a question that has no floats lent.
pub(crate) fn answer_in(asked: Asked, given: &[u8], floats: &[f64], lent: &mut [u8]) -> Told {
    let n = asked.numbers;
    let q = of(asked.question);
    let l = lends(q, n);
    let bytes = least(asked.bytes, given.len());
    let count = least(asked.floats, floats.len());
    let size = least(l.size, lent.len());
    let roll = &given[0..bytes];
    let numbers = &floats[0..count];
    looked_at(
        q,
        n,
        asked.count,
        l.start,
        roll,
        numbers,
        &mut lent[0..size],
    )
}

pub(crate) fn least(a: usize, b: usize) -> usize
    ensures { (result ≤ a) × (result ≤ b) }
{
    if a <= b {
        return a;
    }
    b
}

// The questions that have nothing lent; `count` numbers are said.
fn in_numbers(q: Question, n: [u64; NUMBERS], count: usize, roll: &[u8], floats: &[f64]) -> Told {
    match q {
        Question::Echo => answers::plain(Form::Echo),
        Question::Pair => shells::pair(n),
        Question::Four => shells::four(n),
        Question::Open => rolls::opened(roll::open(roll)),
        Question::Check => rolls::opened(roll::check(roll)),
        Question::Small => rolls::opened(small::small_check(roll)),
        Question::Confirm => rolls::confirmed(confirming::confirm(roll)),
        Question::Next => rolls::next(n, roll),
        Question::Eval => values::value(roll, floats),
        Question::Table => values::table(n, floats),
        Question::Nuclei => values::of_nuclei(n, roll, floats),
        Question::Contracted => values::contracted(n, roll, floats),
        Question::Root => values::root(floats),
        Question::Measure => expands::measured(n),
        Question::Total => sums::total(n),
        Question::Scales => sums::scales(roll),
        Question::Open2 => rolls::opened2(form2::open2(roll)),
        Question::Check2 => rolls::opened2(form2::check2(roll)),
        Question::Next2 => rolls::next2(n, count, roll),
        _ => answers::unknown(),
    }
}

// The lent buffer is filled before the call, and looked at afterwards.
fn looked_at(
    q: Question,
    n: [u64; NUMBERS],
    count: usize,
    start: usize,
    roll: &[u8],
    floats: &[f64],
    lent: &mut [u8],
) -> Told {
    lent::fill(lent);
    let told = in_bytes(q, n, count, start, roll, floats, lent);
    lent::looked(lent, told)
}

// The questions that have bytes lent, by what they are for, so that no function lends them often; then those that have none.
fn in_bytes(
    q: Question,
    n: [u64; NUMBERS],
    count: usize,
    start: usize,
    roll: &[u8],
    floats: &[f64],
    lent: &mut [u8],
) -> Told {
    match q {
        Question::Shell | Question::Expand | Question::Expand2 | Question::SmallExpand => {
            of_numbers(q, n, start, lent)
        }
        Question::ShellIn | Question::ExpandIn | Question::Expand2In | Question::SmallExpandIn =>
            of_numbers(q, n, start, lent),
        Question::Form2 | Question::Form1 | Question::Salvage | Question::Import => of_bytes(
            q, roll, start, lent,
        ),
        Question::Form2In | Question::Form1In | Question::SalvageIn | Question::ImportIn => {
            of_bytes(q, roll, start, lent)
        }
        Question::Export | Question::ExportIn => lists::exported(
            exporting::export(roll, lent, start),
            start,
        ),
        Question::Compare => compares::told(roll, n[0], lent),
        Question::List => lists::told(listing::listing(roll, lent, 0)),
        Question::Grouped => values::grouped(roll, floats, lent),
        _ => in_numbers(q, n, count, roll, floats),
    }
}

// A request's roll, or a shell's list.
fn of_numbers(q: Question, n: [u64; NUMBERS], start: usize, lent: &mut [u8]) -> Told {
    let first = byte(n[0]);
    match q {
        Question::Shell | Question::ShellIn => shells::listed(
            shell::get_ijk_list(first, lent, start),
            start,
        ),
        Question::Expand | Question::ExpandIn => {
            expands::told(
                expansion::expand(first, expands::orders(n), lent, start),
                start,
            )
        }
        Question::Expand2 | Question::Expand2In => {
            expands::told(
                expansion::expand2(first, expands::orders(n), lent, start),
                start,
            )
        }
        _ => expands::told(
            small::small_expand(first, expands::orders(n), lent, start),
            start,
        ),
    }
}

// The roll that a roll or a text gives.
fn of_bytes(q: Question, given: &[u8], start: usize, lent: &mut [u8]) -> Told {
    match q {
        Question::Form2 | Question::Form2In => moves::told(
            form2::to_form2(given, lent, start),
            start,
        ),
        Question::Form1 | Question::Form1In => moves::told(
            form2::to_form1(given, lent, start),
            start,
        ),
        Question::Salvage | Question::SalvageIn => salvages::told(
            salvaging::salvage(given, lent, start),
            start,
        ),
        _ => expands::imported(importing::import(given, lent, start), start),
    }
}

// The questions that have floats lent; any other has been told. The answer's floats take the place of those that are given.
fn in_floats(q: Question, n: [u64; NUMBERS], floats: &mut [f64], told: Told) -> Told {
    match q {
        Question::Jk => matrices::asked(matrices::plain(n), floats),
        Question::Jkl => matrices::asked(matrices::sized(n), floats),
        _ => told,
    }
}

// The sum, or the most that there is.
pub(crate) fn sum(a: usize, b: usize) -> usize {
    a.saturating_add(b)
}

pub(crate) fn byte(n: u64) -> u8 {
    (n % 256) as u8
}

pub(crate) fn word(n: u64) -> u32 {
    (n % 4294967296) as u32
}
