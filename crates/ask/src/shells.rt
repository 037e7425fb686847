// `shell M ..` and `component M1 M2 ..`: a shell's list, and one component of a pair or of four shells.
use crate::{answers, forms, questions, words};
use answers::Form;
use forms::Told;
use kind::{Kind, Refusal};
use questions::{byte, word};
use shell::Listed;
use words::NUMBERS;

// The orders of a pair of shells.
const PAIR: usize = 6;

// The list that was written from a place on.
pub(crate) fn listed(answer: Result<Listed, Refusal>, start: usize) -> Told {
    match answer {
        Ok(list) => answers::bytes(
            Form::Shell,
            [list.length as u64, 0, 0, 0],
            start,
            list.length,
        ),
        Err(refusal) => answers::refused_by(refusal),
    }
}

pub(crate) fn pair(n: [u64; NUMBERS]) -> Told {
    component(shell::get_shell2(byte(n[0]), byte(n[1]), word(n[2])), PAIR)
}

pub(crate) fn four(n: [u64; NUMBERS]) -> Told {
    component(
        shell::get_shell4(byte(n[0]), byte(n[1]), byte(n[2]), byte(n[3]), word(n[4])),
        Kind::ORDERS,
    )
}

// The component's first `n` orders, or the refusal.
fn component(answer: Result<[u8; Kind::ORDERS], Refusal>, n: usize) -> Told {
    match answer {
        Ok(orders) => {
            answers::own(
                Form::Component,
                [0; forms::NUMBERS],
                answers::of_orders(orders),
                n,
            )
        }
        Err(refusal) => answers::refused_by(refusal),
    }
}
