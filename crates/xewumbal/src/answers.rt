// The structs of the exported functions from the answers of the crates below, and back. Zeros stand beside a refusal (D-36).
ghost use Rattle.std.specs.Prelude.{◌≡◌};
ghost use Rattle.xewumbal.specs.Answers.{host_refusal, cursor_in, cursor2_in, host_expanded, host_listed, no_orders, host_component, host_cursor, unopened, host_opened, found_step, no_step, host_step};
ghost use Rattle.xewumbal.specs.Answers.{host_cursor2, no_host_cursor2, unopened2, host_opened2, found_step2, no_step2, host_step2, host_moved, after_code, host_salvaged, host_total, host_scales, host_table, host_value, host_rooted, restored_term, host_restored};
ghost use Rattle.xewumbal.specs.Answers.{pair_in, host_pair, no_host_pair, host_term, flag_of, side_number, refused_sides, host_compared, met_at, not_met, met_line, host_met};

use crate::{
    xew_compared, xew_component, xew_cursor, xew_cursor2, xew_met, xew_moved, xew_opened,
    xew_opened2, xew_pair, xew_restored, xew_rooted, xew_salvaged, xew_scales, xew_step, xew_step2,
    xew_table, xew_term, xew_total, xew_value, xew_written,
};
use comparing::{Compared, Line, Met, Pair, Side, Sided};
use expansion::Expanded;
use form2::{Cursor2, Moved, Opened2, Step2};
use kind::{Fault, Kind, Refusal};
use roll::{Cursor, Opened, Step, no_cursor};
use salvaging::{After, Told};
use shell::Listed;
use term::Term;

pub(crate) fn cursor_in(c: xew_cursor) -> Cursor
    ensures { result ≡ cursor_in c }
{
    Cursor {
        place: c.place,
        left: c.left,
        kind: c.kind,
        l: c.l,
    }
}

fn cursor(c: Cursor) -> xew_cursor
    ensures { result ≡ host_cursor c }
{
    xew_cursor {
        place: c.place,
        left: c.left,
        kind: c.kind,
        l: c.l,
    }
}

pub(crate) fn cursor2_in(c: xew_cursor2) -> Cursor2
    ensures { result ≡ cursor2_in c }
{
    let earlier = c.earlier;
    Cursor2 {
        cursor: cursor_in(c.cursor),
        count: c.count,
        earlier,
    }
}

fn cursor2(at: Cursor2) -> xew_cursor2
    ensures { result ≡ host_cursor2 at }
{
    let earlier = at.earlier;
    xew_cursor2 {
        cursor: cursor(at.cursor),
        count: at.count,
        earlier,
    }
}

pub(crate) fn expanded(answer: Result<Expanded, Refusal>) -> xew_written
    ensures { result ≡ host_expanded answer }
{
    match answer {
        Ok(roll) => xew_written {
            length: roll.length,
            terms: roll.terms,
            refusal: 0,
        },
        Err(refusal) => xew_written {
            length: 0,
            terms: 0,
            refusal: u8::from(refusal),
        },
    }
}

pub(crate) fn listed(answer: Result<Listed, Refusal>) -> xew_written
    ensures { result ≡ host_listed answer }
{
    match answer {
        Ok(list) => xew_written {
            length: list.length,
            terms: list.triples,
            refusal: 0,
        },
        Err(refusal) => xew_written {
            length: 0,
            terms: 0,
            refusal: u8::from(refusal),
        },
    }
}

// The zeros beside a refusal.
fn no_orders() -> [u8; Kind::ORDERS]
    ensures { result ≡ no_orders }
{
    [0; Kind::ORDERS]
}

pub(crate) fn component(answer: Result<[u8; Kind::ORDERS], Refusal>) -> xew_component
    ensures { result ≡ host_component answer }
{
    match answer {
        Ok(orders) => xew_component { orders, refusal: 0 },
        Err(refusal) => {
            let orders = no_orders();
            xew_component {
                orders,
                refusal: u8::from(refusal),
            }
        }
    }
}

pub(crate) fn table(answer: Result<[f64; Kind::TABLE], Refusal>) -> xew_table
    ensures { result ≡ host_table answer }
{
    match answer {
        Ok(entries) => xew_table {
            entries,
            refusal: 0,
        },
        Err(refusal) => xew_table {
            entries: [0.0; Kind::TABLE],
            refusal: u8::from(refusal),
        },
    }
}

fn unopened(place: usize, refusal: u8) -> xew_opened
    ensures { result ≡ unopened place refusal }
{
    let orders = no_orders();
    xew_opened {
        cursor: cursor(no_cursor()),
        place,
        orders,
        refusal,
    }
}

pub(crate) fn opened(answer: Result<Opened, Fault>) -> xew_opened
    ensures { result ≡ host_opened answer }
{
    match answer {
        Ok(o) => {
            let orders = o.orders;
            xew_opened {
                cursor: cursor(o.cursor),
                place: 0,
                orders,
                refusal: 0,
            }
        }
        Err(fault) => unopened(fault.place, u8::from(fault.refusal)),
    }
}

// A term and a cursor, with what was found.
fn found_step(term: Term, next: Cursor, found: u8, place: usize, refusal: u8) -> xew_step
    ensures { result ≡ found_step term next found place refusal }
{
    let prefactors = term.prefactors;
    xew_step {
        next: cursor(next),
        place,
        scale: term.scale,
        boys: term.boys,
        count: term.count,
        prefactors,
        found,
        refusal,
    }
}

// Zeros, with what was found.
fn no_step(found: u8, place: usize, refusal: u8) -> xew_step
    ensures { result ≡ no_step found place refusal }
{
    found_step(Term::none(), no_cursor(), found, place, refusal)
}

pub(crate) fn step(answer: Result<Option<Step>, Fault>) -> xew_step
    ensures { result ≡ host_step answer }
{
    match answer {
        Ok(Some(s)) => found_step(s.term, s.next, 1, 0, 0),
        Ok(None) => no_step(2, 0, 0),
        Err(fault) => no_step(0, fault.place, u8::from(fault.refusal)),
    }
}

fn restored_term(term: Term, place: usize, refusal: u8) -> xew_restored
    ensures { result ≡ restored_term term place refusal }
{
    let prefactors = term.prefactors;
    xew_restored {
        place,
        scale: term.scale,
        boys: term.boys,
        count: term.count,
        prefactors,
        refusal,
    }
}

pub(crate) fn restored(answer: Result<Term, Fault>) -> xew_restored
    ensures { result ≡ host_restored answer }
{
    match answer {
        Ok(term) => restored_term(term, 0, 0),
        Err(fault) => restored_term(Term::none(), fault.place, u8::from(fault.refusal)),
    }
}

// The zeros beside a refusal in form 2.
fn no_cursor2() -> xew_cursor2
    ensures { result ≡ no_host_cursor2 }
{
    xew_cursor2 {
        cursor: cursor(no_cursor()),
        count: 0,
        earlier: [0; Kind::PREFACTORS],
    }
}

fn unopened2(place: usize, refusal: u8) -> xew_opened2
    ensures { result ≡ unopened2 place refusal }
{
    let orders = no_orders();
    xew_opened2 {
        cursor: no_cursor2(),
        place,
        orders,
        refusal,
    }
}

pub(crate) fn opened2(answer: Result<Opened2, Fault>) -> xew_opened2
    ensures { result ≡ host_opened2 answer }
{
    match answer {
        Ok(roll) => {
            let orders = roll.orders;
            xew_opened2 {
                cursor: cursor2(roll.cursor),
                place: 0,
                orders,
                refusal: 0,
            }
        }
        Err(fault) => unopened2(fault.place, u8::from(fault.refusal)),
    }
}

// A term and a cursor of form 2, with what was found.
fn found_step2(term: Term, next: xew_cursor2, found: u8, place: usize, refusal: u8) -> xew_step2
    ensures { result ≡ found_step2 term next found place refusal }
{
    let prefactors = term.prefactors;
    xew_step2 {
        next,
        place,
        scale: term.scale,
        boys: term.boys,
        count: term.count,
        prefactors,
        found,
        refusal,
    }
}

// Zeros, with what was found.
fn no_step2(found: u8, place: usize, refusal: u8) -> xew_step2
    ensures { result ≡ no_step2 found place refusal }
{
    found_step2(Term::none(), no_cursor2(), found, place, refusal)
}

pub(crate) fn step2(answer: Result<Option<Step2>, Fault>) -> xew_step2
    ensures { result ≡ host_step2 answer }
{
    match answer {
        Ok(Some(s)) => found_step2(s.term, cursor2(s.next), 1, 0, 0),
        Ok(None) => no_step2(2, 0, 0),
        Err(fault) => no_step2(0, fault.place, u8::from(fault.refusal)),
    }
}

pub(crate) fn moved(answer: Result<Moved, Fault>) -> xew_moved
    ensures { result ≡ host_moved answer }
{
    match answer {
        Ok(roll) => xew_moved {
            length: roll.length,
            place: 0,
            terms: roll.terms,
            refusal: 0,
        },
        Err(fault) => xew_moved {
            length: 0,
            place: fault.place,
            terms: 0,
            refusal: u8::from(fault.refusal),
        },
    }
}

fn after_code(after: After) -> u8
    ensures { result ≡ after_code after }
{
    match after {
        After::Unknown => 0,
        After::None => 1,
        After::Bytes => 2,
    }
}

pub(crate) fn salvaged(answer: Result<Told, Fault>) -> xew_salvaged
    ensures { result ≡ host_salvaged answer }
{
    match answer {
        Ok(told) => {
            let after = told.after;
            xew_salvaged {
                length: told.length,
                place: 0,
                terms: told.terms,
                kept: told.kept,
                anew: told.anew,
                miscounted: flag(told.miscounted),
                after: after_code(after),
                refusal: 0,
            }
        }
        Err(fault) => xew_salvaged {
            length: 0,
            place: fault.place,
            terms: 0,
            kept: 0,
            anew: 0,
            miscounted: 0,
            after: 0,
            refusal: u8::from(fault.refusal),
        },
    }
}

pub(crate) fn pair_in(p: xew_pair) -> Pair
    ensures { result ≡ pair_in p }
{
    Pair {
        left: cursor2_in(p.left),
        right: cursor2_in(p.right),
        number: p.number,
    }
}

fn pair(p: Pair) -> xew_pair
    ensures { result ≡ host_pair p }
{
    xew_pair {
        left: cursor2(p.left),
        right: cursor2(p.right),
        number: p.number,
    }
}

fn term(t: Term) -> xew_term
    ensures { result ≡ host_term t }
{
    let prefactors = t.prefactors;
    xew_term {
        scale: t.scale,
        boys: t.boys,
        count: t.count,
        prefactors,
    }
}

fn flag(b: bool) -> u8
    ensures { result ≡ flag_of b }
{
    u8::from(b)
}

// The zeros beside a refusal.
fn no_pair() -> xew_pair
    ensures { result ≡ no_host_pair }
{
    xew_pair {
        left: no_cursor2(),
        right: no_cursor2(),
        number: 0,
    }
}

fn side_number(side: Side) -> u8
    ensures { result ≡ side_number side }
{
    match side {
        Side::Left => 1,
        Side::Right => 2,
    }
}

fn refused_sides(sided: Sided) -> xew_compared
    ensures { result ≡ refused_sides sided }
{
    let left = no_orders();
    let right = no_orders();
    xew_compared {
        cursor: no_pair(),
        place: sided.fault.place,
        differ: 0,
        left,
        right,
        kinds: 0,
        orders: 0,
        terms: 0,
        side: side_number(sided.side),
        refusal: u8::from(sided.fault.refusal),
    }
}

pub(crate) fn compared(answer: Result<Compared, Sided>) -> xew_compared
    ensures { result ≡ host_compared answer }
{
    match answer {
        Ok(c) => {
            let left = c.left;
            let right = c.right;
            xew_compared {
                cursor: pair(c.cursor),
                place: 0,
                differ: c.differ,
                left,
                right,
                kinds: flag(c.kinds),
                orders: flag(c.orders),
                terms: flag(c.terms),
                side: 0,
                refusal: 0,
            }
        }
        Err(sided) => refused_sides(sided),
    }
}

// A position, with the terms of its sides.
fn met_at(number: u32, next: Pair, left: Term, right: Term, found: u8) -> xew_met
    ensures { result ≡ met_at number next left right found }
{
    xew_met {
        next: pair(next),
        place: 0,
        number,
        left: term(left),
        right: term(right),
        found,
        side: 0,
        refusal: 0,
    }
}

// No position: both rolls have ended, or one is refused.
fn not_met(found: u8, side: u8, place: usize, refusal: u8) -> xew_met
    ensures { result ≡ not_met found side place refusal }
{
    xew_met {
        next: no_pair(),
        place,
        number: 0,
        left: term(Term::none()),
        right: term(Term::none()),
        found,
        side,
        refusal,
    }
}

fn met_line(m: Met) -> xew_met
    ensures { result ≡ met_line m }
{
    let number = m.number;
    let next = m.next;
    match m.line {
        Line::Both(left, right) => met_at(number, next, left, right, 1),
        Line::Left(left) => met_at(number, next, left, Term::none(), 2),
        Line::Right(right) => met_at(number, next, Term::none(), right, 3),
    }
}

pub(crate) fn met(answer: Result<Option<Met>, Sided>) -> xew_met
    ensures { result ≡ host_met answer }
{
    match answer {
        Ok(Some(m)) => met_line(m),
        Ok(None) => not_met(4, 0, 0, 0),
        Err(sided) => not_met(
            0,
            side_number(sided.side),
            sided.fault.place,
            u8::from(sided.fault.refusal),
        ),
    }
}

pub(crate) fn total(answer: Result<Option<u64>, Refusal>) -> xew_total
    ensures { result ≡ host_total answer }
{
    match answer {
        Ok(Some(total)) => xew_total {
            total,
            claimed: 1,
            refusal: 0,
        },
        Ok(None) => xew_total {
            total: 0,
            claimed: 0,
            refusal: 0,
        },
        Err(refusal) => xew_total {
            total: 0,
            claimed: 0,
            refusal: u8::from(refusal),
        },
    }
}

pub(crate) fn scales(answer: Result<u64, Fault>) -> xew_scales
    ensures { result ≡ host_scales answer }
{
    match answer {
        Ok(total) => xew_scales {
            total,
            place: 0,
            refusal: 0,
        },
        Err(fault) => xew_scales {
            total: 0,
            place: fault.place,
            refusal: u8::from(fault.refusal),
        },
    }
}

pub(crate) fn rooted(answer: Result<f64, Refusal>) -> xew_rooted
    ensures { result ≡ host_rooted answer }
{
    match answer {
        Ok(root) => xew_rooted { root, refusal: 0 },
        Err(refusal) => xew_rooted {
            root: 0.0,
            refusal: u8::from(refusal),
        },
    }
}

pub(crate) fn value(answer: Result<f64, Fault>) -> xew_value
    ensures { result ≡ host_value answer }
{
    match answer {
        Ok(value) => xew_value {
            value,
            place: 0,
            refusal: 0,
        },
        Err(fault) => xew_value {
            value: 0.0,
            place: fault.place,
            refusal: u8::from(fault.refusal),
        },
    }
}

pub(crate) fn matrices(answer: Result<(), Refusal>) -> u8
    ensures { result ≡ host_refusal answer }
{
    match answer {
        Ok(()) => 0,
        Err(refusal) => u8::from(refusal),
    }
}
