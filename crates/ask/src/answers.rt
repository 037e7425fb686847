// The answers: the number of each one's form, and what a question's module tells.
use crate::{forms, lines};
use forms::{NUMBERS, OWN, Told};
use kind::{Fault, Kind, Refusal};
use lines::{Found, State};

// The lines of the table of forms in `turns`, in its order.
#[derive(Clone, Copy, PartialEq, Eq)]
pub(crate) enum Form {
    Echo,
    Unknown,
    Spoiled,
    Refused,
    RefusedAt,
    Roll,
    Shell,
    Component,
    Listing,
    Opened,
    Term,
    End,
    Value,
    Table,
    Matrices,
    Measured,
    Total,
    NoTotal,
    Scales,
    SalvagedNone,
    SalvagedBytes,
    SalvagedUnknown,
    OtherNone,
    OtherBytes,
    OtherUnknown,
    Compared,
    RefusedLeft,
    RefusedRight,
    Root,
    Confirmed,
    Text,
    RefusedLine,
    Wait,
}

// The answer to what was heard: a line that is too long is no question. Where no line has come, what waits goes out, since
// nothing says when more will come.
pub(crate) fn heard(s: State, t: Told) -> Told {
    let found = s.found;
    match found {
        Found::Line => t,
        Found::Lost => unknown(),
        Found::More | Found::End => plain(Form::Wait),
    }
}

// The words of a form alone.
pub(crate) fn plain(form: Form) -> Told {
    Told {
        form,
        numbers: [0; NUMBERS],
        own: [0; OWN],
        count: 0,
        entries: [0.0; Kind::TABLE],
        start: 0,
        long: 0,
        first: 0,
        others: 0,
    }
}

// The answer to a line that is no question.
pub(crate) fn unknown() -> Told {
    plain(Form::Unknown)
}

// The answer where the library changed a byte that was not its own (D-79).
pub(crate) fn spoiled() -> Told {
    plain(Form::Spoiled)
}

// A refusal, with its place where a roll breaks a rule.
pub(crate) fn refused(fault: Fault) -> Told {
    let refusal = fault.refusal;
    let numbers = [number(refusal), fault.place as u64, 0, 0];
    bytes(form_of(refusal), numbers, 0, 0)
}

// A refusal that has no place.
pub(crate) fn refused_by(refusal: Refusal) -> Told {
    refused(Fault { refusal, place: 0 })
}

// 7, 14 and 20 tell a place of a roll.
fn form_of(refusal: Refusal) -> Form {
    match refusal {
        Refusal::BadRoll | Refusal::CutRoll | Refusal::NotTheExpansion => Form::RefusedAt,
        _ => Form::Refused,
    }
}

// A refusal, with its line where a text breaks a rule.
pub(crate) fn refused_line(refusal: Refusal, line: u64) -> Told {
    let numbers = [number(refusal), line, 0, 0];
    bytes(line_form_of(refusal), numbers, 0, 0)
}

// 21 and 22 tell a line of a text.
fn line_form_of(refusal: Refusal) -> Form {
    match refusal {
        Refusal::LineShape | Refusal::LineNumbers => Form::RefusedLine,
        _ => Form::Refused,
    }
}

// The number that is printed of a refusal.
pub(crate) fn number(refusal: Refusal) -> u64 {
    u64::from(u8::from(refusal))
}

// Numbers, and so many of the bytes that were lent from a place on.
pub(crate) fn bytes(form: Form, numbers: [u64; NUMBERS], start: usize, long: usize) -> Told {
    let mut t = plain(form);
    t.numbers = numbers;
    t.start = start;
    t.long = long;
    t
}

// A roll of so many bytes and terms, which was written from a place on.
pub(crate) fn roll(long: usize, terms: u32, start: usize) -> Told {
    bytes(Form::Roll, [long as u64, terms as u64, 0, 0], start, long)
}

// How many bytes an answer asks for: those that its question lends, where it had no room in fewer.
pub(crate) fn wanted(t: Told, lends: usize) -> usize {
    let numbers = t.numbers;
    if t.form == Form::Refused && numbers[0] == number(Refusal::NoRoom) {
        return lends;
    }
    0
}

// Numbers, and the first `count` of the answer's own bytes; no answer has more of them than there are.
pub(crate) fn own(form: Form, numbers: [u64; NUMBERS], own: [u8; OWN], count: usize) -> Told {
    if OWN < count {
        return spoiled();
    }
    let mut t = plain(form);
    t.numbers = numbers;
    t.own = own;
    t.count = count;
    t
}

// Orders as an answer's own bytes.
pub(crate) fn of_orders(orders: [u8; Kind::ORDERS]) -> [u8; OWN] {
    let mut own = [0; OWN];
    own[..Kind::ORDERS].copy_from_slice(&orders);
    own
}

// The first of the floats, and so many others after them.
pub(crate) fn floats(form: Form, first: usize, others: usize) -> Told {
    let mut t = plain(form);
    t.first = first;
    t.others = others;
    t
}

// The entries of a table.
pub(crate) fn entries(form: Form, entries: [f64; Kind::TABLE]) -> Told {
    let mut t = plain(form);
    t.entries = entries;
    t
}
