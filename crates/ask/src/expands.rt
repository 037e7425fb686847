// `expand KIND o1 .. o12 ..`, `expand2 KIND o1 .. o12 ..` and `measure KIND o1 .. o12`: the roll of a request, and its size. `import HEX ..`: the roll of
// comma-separated lines.
use crate::{answers, forms, questions, words};
use answers::Form;
use expansion::Expanded;
use forms::Told;
use importing::{ImportFault, Imported};
use kind::{Kind, Refusal};
use questions::byte;
use words::NUMBERS;

// The orders of a request, which follow its kind.
pub(crate) fn orders(n: [u64; NUMBERS]) -> [u8; Kind::ORDERS] {
    let mut orders = [0; Kind::ORDERS];
    for i in 0..Kind::ORDERS {
        orders[i] = byte(n[i + 1]);
    }
    orders
}

// The roll that was written from a place on.
pub(crate) fn told(answer: Result<Expanded, Refusal>, start: usize) -> Told {
    match answer {
        Ok(roll) => answers::roll(roll.length, roll.terms, start),
        Err(refusal) => answers::refused_by(refusal),
    }
}

// The roll of a text, which was written from a place on. 21 and 22 tell a line.
pub(crate) fn imported(answer: Result<Imported, ImportFault>, start: usize) -> Told {
    match answer {
        Ok(roll) => answers::roll(roll.length, roll.terms, start),
        Err(fault) => answers::refused_line(fault.refusal, fault.line),
    }
}

// The size of a request's roll, which nothing is written of.
pub(crate) fn measured(n: [u64; NUMBERS]) -> Told {
    match expansion::roll_size(byte(n[0]), orders(n)) {
        Ok(roll) => {
            answers::bytes(
                Form::Measured,
                [roll.length as u64, roll.terms as u64, 0, 0],
                0,
                0,
            )
        }
        Err(refusal) => answers::refused_by(refusal),
    }
}
