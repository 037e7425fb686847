// `open ROLL`, `check ROLL` and `next KIND L LEFT PLACE ROLL`: a roll's header, the whole roll judged, a cursor's step.
// `open2`, `check2` and `next2` ask the same of form 2, `small ROLL` the small profile's reader, and `confirm ROLL` whether a roll is the expansion.
use crate::{answers, forms, questions, words};
use answers::Form;
use form2::{Cursor2, Opened2};
use forms::{OWN, Told};
use kind::{Fault, Kind};
use questions::{byte, word};
use roll::{Cursor, Opened};
use term::Term;
use words::{CURSOR, NUMBERS};

pub(crate) fn opened(answer: Result<Opened, Fault>) -> Told {
    header_as(Form::Opened, answer)
}

pub(crate) fn confirmed(answer: Result<Opened, Fault>) -> Told {
    header_as(Form::Confirmed, answer)
}

// A header in a form, or its refusal.
fn header_as(form: Form, answer: Result<Opened, Fault>) -> Told {
    match answer {
        Ok(o) => {
            let orders = o.orders;
            header(form, o.cursor, answers::of_orders(orders))
        }
        Err(fault) => answers::refused(fault),
    }
}

// No term stands before the first, so form 2 tells what form 1 does.
pub(crate) fn opened2(answer: Result<Opened2, Fault>) -> Told {
    match answer {
        Ok(o) => {
            let orders = o.orders;
            header(Form::Opened, o.cursor.cursor, answers::of_orders(orders))
        }
        Err(fault) => answers::refused(fault),
    }
}

// How many orders a kind uses. More than there are where there is no such kind, so that the answer is spoiled.
fn used_orders(kind: u8) -> usize {
    match Kind::of(kind) {
        Some(known) => known.orders(),
        None => usize::MAX,
    }
}

fn header(form: Form, c: Cursor, orders: [u8; OWN]) -> Told {
    let numbers = [c.kind as u64, c.l as u64, c.left as u64, c.place as u64];
    answers::own(form, numbers, orders, used_orders(c.kind))
}

// The cursor that is said, forged or not.
fn cursor(n: [u64; NUMBERS]) -> Cursor {
    Cursor {
        place: n[3] as usize,
        left: word(n[2]),
        kind: byte(n[0]),
        l: byte(n[1]),
    }
}

// The prefactors of the term before, which are said after the cursor.
fn earlier(n: [u64; NUMBERS]) -> [u8; Kind::PREFACTORS] {
    let mut earlier = [0; Kind::PREFACTORS];
    for i in 0..Kind::PREFACTORS {
        earlier[i] = byte(n[CURSOR + i]);
    }
    earlier
}

// How many they are, of all numbers.
fn earlier_count(numbers: usize) -> u8 {
    if numbers < CURSOR {
        return 0;
    }
    byte((numbers - CURSOR) as u64)
}

pub(crate) fn next(n: [u64; NUMBERS], roll: &[u8]) -> Told {
    match cursor(n).next(roll) {
        Ok(Some(step)) => term_told(step.term, step.next),
        Ok(None) => answers::plain(Form::End),
        Err(fault) => answers::refused(fault),
    }
}

pub(crate) fn next2(n: [u64; NUMBERS], numbers: usize, roll: &[u8]) -> Told {
    let cursor = cursor(n);
    let count = earlier_count(numbers);
    let earlier = earlier(n);
    let from = Cursor2 {
        cursor,
        count,
        earlier,
    };
    match from.next(roll) {
        Ok(Some(step)) => term_told(step.term, step.next.cursor),
        Ok(None) => answers::plain(Form::End),
        Err(fault) => answers::refused(fault),
    }
}

fn term_told(t: Term, next: Cursor) -> Told {
    let prefactors = t.prefactors;
    let numbers = [
        t.scale as u64,
        t.boys as u64,
        next.place as u64,
        next.left as u64,
    ];
    answers::own(Form::Term, numbers, prefactors, t.count as usize)
}
