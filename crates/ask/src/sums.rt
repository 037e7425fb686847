// `total KIND o1 .. o12` and `scales ROLL`: what the scales of a request's terms, and of a roll's, add up to.
use crate::{answers, expands, forms, questions, words};
use answers::Form;
use forms::Told;
use questions::byte;
use words::NUMBERS;

pub(crate) fn total(n: [u64; NUMBERS]) -> Told {
    match totals::scale_total(byte(n[0]), expands::orders(n)) {
        Ok(Some(total)) => answers::bytes(Form::Total, [total, 0, 0, 0], 0, 0),
        Ok(None) => answers::plain(Form::NoTotal),
        Err(refusal) => answers::refused_by(refusal),
    }
}

pub(crate) fn scales(roll: &[u8]) -> Told {
    match totals::roll_total(roll) {
        Ok(total) => answers::bytes(Form::Scales, [total, 0, 0, 0], 0, 0),
        Err(fault) => answers::refused(fault),
    }
}
