// The profile's reader: the header of either form, whether it is of the profile, the terms, and the fresh expansion beside it.
ghost use Rattle.std.specs.Prelude.{◌≡◌};
ghost use Rattle.roll.specs.Reading.{header_at};
ghost use Rattle.form2.specs.Reading.{header_at2};
ghost use Rattle.small.specs.Check.{in_form2, in_form1};
ghost use Rattle.small.specs.inner.Checking.{HeaderMay, SmallMay, TermsMay};

use crate::profile::is_small_number;
use expansion::{Against, against};
use form2::open2;
use kind::{Fault, Refusal};
use roll::{Opened, check, open};

// A form 2 roll, whose header is read and which is outside the profile.
pub(crate) fn in_form2(roll: &[u8]) -> Result<Opened, Fault>
    ensures { result ≡ in_form2 (header_at2 roll.now) }
{
    open2(roll)?;
    Err(Fault::from(Refusal::OutsideProfile))
}

// Holds a roll that reads against the fresh one of its request.
fn if_fresh(roll: &[u8], judged: Opened) -> Result<Opened, Fault>
    requires { TermsMay roll.now judged }
    ensures { result ≡ in_form1 roll.now (header_at roll.now) }
{
    match against(judged.cursor.kind, judged.orders, roll)? {
        Against::Same(_, _) => Ok(judged),
        Against::Differs(place) => Err(Fault {
            refusal: Refusal::NotTheExpansion,
            place,
        }),
    }
}

// Reads the terms of a roll whose header is of the profile.
fn with_terms(roll: &[u8]) -> Result<Opened, Fault>
    requires { SmallMay roll.now }
    ensures { result ≡ in_form1 roll.now (header_at roll.now) }
{
    let judged = check(roll)?;
    if_fresh(roll, judged)
}

// Looks at the kind and the orders of a header that reads.
fn of_header(roll: &[u8], opened: Opened) -> Result<Opened, Fault>
    requires { HeaderMay roll.now opened }
    ensures { result ≡ in_form1 roll.now (header_at roll.now) }
{
    if !is_small_number(opened.cursor.kind, opened.orders) {
        return Err(Fault::from(Refusal::OutsideProfile));
    }
    with_terms(roll)
}

// A roll that does not begin as form 2 does.
pub(crate) fn in_form1(roll: &[u8]) -> Result<Opened, Fault>
    ensures { result ≡ in_form1 roll.now (header_at roll.now) }
{
    let opened = open(roll)?;
    of_header(roll, opened)
}
