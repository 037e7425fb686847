// Both forms: the judge's answer, and a request's roll held against bytes.
ghost use Rattle.std.specs.Prelude.{◌≡◌};
ghost use Rattle.kind.specs.Kinds.{kind_of};
ghost use Rattle.form2.specs.Header.{judged2};
ghost use Rattle.expansion.specs.Against.{named_against};
ghost use Rattle.salvaging.specs.Salvage.{roll_in};
ghost use Rattle.confirming.specs.Confirm.{judged_in};

use expansion::{Against, against, against2};
use form2::check2;
use kind::{Fault, Kind, Refusal};
use roll::{Opened, check};
use salvaging::Form;

// A form 2 roll judged; the answer without the term before.
fn judged2(roll: &[u8]) -> Result<Opened, Fault>
    ensures { result ≡ judged2 roll.now }
{
    let opened = check2(roll)?;
    let cursor = opened.cursor.cursor;
    let orders = opened.orders;
    Ok(Opened { cursor, orders })
}

// A whole roll judged in its form.
pub(crate) fn judged(form: Form, roll: &[u8]) -> Result<Opened, Fault>
    ensures { result ≡ judged_in form roll.now }
{
    match form {
        Form::One => check(roll),
        Form::Two => judged2(roll),
    }
}

// A request's roll in a form, held against bytes.
pub(crate) fn held(
    form: Form,
    kind: u8,
    orders: [u8; Kind::ORDERS],
    roll: &[u8],
) -> Result<Against, Refusal>
    ensures { result ≡ named_against (roll_in form) (kind_of kind) orders roll.now }
{
    match form {
        Form::One => against(kind, orders, roll),
        Form::Two => against2(kind, orders, roll),
    }
}
