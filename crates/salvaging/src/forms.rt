// A roll's form: told by its first byte; its header is read and its request expanded in it.
ghost use Rattle.std.specs.Prelude.{◌≡◌};
ghost use Rattle.roll.specs.Header.{held_header};
ghost use Rattle.form2.specs.Reading.{header_at2};
ghost use Rattle.expansion.specs.Expanding.{FormTold};
ghost use Rattle.salvaging.specs.Salvage.{form_of, header_in, roll_in};

use expansion::Expanded;
use kind::{Fault, Kind, Refusal};
use roll::Opened;

// The two forms of a roll.
#[derive(Clone, Copy)]
pub enum Form {
    One,
    Two,
}

// Form 2 begins with kind + 16; all else is read as form 1.
pub fn form_of(roll: &[u8]) -> Form
    ensures { result ≡ form_of roll.now }
{
    if form2::is_form2(roll) {
        return Form::Two;
    }
    Form::One
}

// A form 2 roll's header, as form 1 tells it.
fn opened2(roll: &[u8]) -> Result<Opened, Fault>
    ensures { result ≡ held_header (header_at2 roll.now) }
{
    let opened = form2::open2(roll)?;
    let cursor = opened.cursor.cursor;
    let orders = opened.orders;
    Ok(Opened { cursor, orders })
}

// A roll's kind, orders and term count.
pub(crate) fn opened(form: Form, roll: &[u8]) -> Result<Opened, Fault>
    ensures { result ≡ held_header (header_in form roll.now) }
{
    match form {
        Form::One => roll::open(roll),
        Form::Two => opened2(roll),
    }
}

// Expands a request into a roll of the form.
pub(crate) fn expanded(
    form: Form,
    kind: u8,
    orders: [u8; Kind::ORDERS],
    out: &mut [u8],
    start: usize,
) -> Result<Expanded, Refusal>
    ensures { FormTold (roll_in form) kind orders out.old start result out.new }
{
    match form {
        Form::One => expansion::expand(kind, orders, out, start),
        Form::Two => expansion::expand2(kind, orders, out, start),
    }
}
