// `compare LEFT RIGHT`: where two rolls differ (D-104).
use crate::{answers, forms};
use answers::Form;
use comparing::{Compared, Pair, Side, Sided};
use forms::{NUMBERS, Told};
use kind::{Fault, Refusal};

// Both rolls stand behind each other; the second has so many bytes.
pub(crate) fn told(rolls: &[u8], second: u64, lent: &mut [u8]) -> Told {
    let second = second as usize;
    if rolls.len() < second {
        return answers::spoiled();
    }
    let from = rolls.len() - second;
    let left = &rolls[0..from];
    let right = &rolls[from..];
    compared(comparing::compare(left, right), left, right, lent)
}

fn compared(answer: Result<Compared, Sided>, left: &[u8], right: &[u8], lent: &mut [u8]) -> Told {
    match answer {
        Ok(c) => text(c, left, right, lent),
        Err(sided) => refused(sided.side, sided.fault),
    }
}

fn refused(side: Side, fault: Fault) -> Told {
    let form = match side {
        Side::Left => Form::RefusedLeft,
        Side::Right => Form::RefusedRight,
    };
    answers::bytes(
        form,
        [answers::number(fault.refusal), fault.place as u64, 0, 0],
        0,
        0,
    )
}

// The head, and a line for each position that differs.
fn text(c: Compared, left: &[u8], right: &[u8], lent: &mut [u8]) -> Told {
    match comparing::head(Ok(c), lent, 0) {
        Ok(n) => lines(c.cursor, c.differ, left, right, lent, n),
        Err(fault) => answers::refused_by(fault.refusal),
    }
}

fn lines(pair: Pair, count: u32, left: &[u8], right: &[u8], lent: &mut [u8], from: usize) -> Told {
    let mut at = pair;
    let mut long = from;
    for _ in 0..count {
        let Ok(Some(met)) = at.next(left, right) else {
            return answers::spoiled();
        };
        match comparing::line(Ok(Some(met)), lent, long) {
            Ok(n) => long = crate::questions::sum(long, n),
            Err(fault) => return cut(fault.refusal, long),
        }
        at = met.next;
    }
    answers::bytes(Form::Compared, [0; NUMBERS], 0, long)
}

// A text that has no room; so many of its bytes are there.
fn cut(refusal: Refusal, long: usize) -> Told {
    answers::bytes(Form::Refused, [answers::number(refusal), 0, 0, 0], 0, long)
}
