// A number of a roll, from one limit to another.
ghost use Rattle.std.specs.Prelude.{◌≡◌, true, Err};
ghost use Rattle.number.specs.declared.Unread.{Unread};
ghost use Rattle.number.specs.Numbers.{refusal_of};
ghost use Rattle.kind.specs.declared.refusals.Refusal.TheVariants.{BadRoll};
ghost use Rattle.roll.specs.Field.{fault};
ghost use Rattle.roll.specs.Reading.{within_at};
ghost use Rattle.roll.specs.inner.Over.{Quick};

use kind::{Fault, Refusal};
use number::{Unread, one_byte, wide};

// Whether the number here is one byte, and within its limits. Nothing is lent on here, so that the compiler keeps the roll in registers.
fn is_quick(roll: &[u8], at: usize, low: u32, high: u32) -> bool
    ensures { result ≡ true → Quick roll.now at low high }
{
    if roll.len() <= at {
        return false;
    }
    let b = wide(roll[at]);
    one_byte(b) && low <= b && b <= high
}

// Such a number.
fn quick(roll: &[u8], at: usize, low: u32, high: u32) -> Result<(u32, usize), Fault>
    requires { Quick roll.now at low high }
    ensures { result ≡ within_at roll.now at low high }
{
    Ok((wide(roll[at]), at + 1))
}

// The number at a place, from `low` to `high`, and the place after it. Most are one byte.
pub fn within(roll: &[u8], at: usize, low: u32, high: u32) -> Result<(u32, usize), Fault>
    ensures { result ≡ within_at roll.now at low high }
{
    if is_quick(roll, at, low, high) {
        return quick(roll, at, low, high);
    }
    read_within(roll, at, low, high)
}

// The same by the number's reader (D-69).
fn read_within(roll: &[u8], at: usize, low: u32, high: u32) -> Result<(u32, usize), Fault>
    ensures { result ≡ within_at roll.now at low high }
{
    let read = number::read(roll, at);
    let Ok((n, next)) = read else {
        return Err(unread(read, at));
    };
    if n < low || high < n {
        return Err(bad_roll(at));
    }
    Ok((n, next))
}

// Why no number stands at a place.
fn unread(read: Result<(u32, usize), Unread>, place: usize) -> Fault
    ensures { (why : Unread) → read ≡ Err why → result ≡ fault (refusal_of why) place }
{
    match read {
        Ok(_) => bad_roll(place),
        Err(why) => Fault {
            refusal: Refusal::from(why),
            place,
        },
    }
}

// What breaks a rule of a roll, at a place.
pub(crate) fn bad_roll(place: usize) -> Fault
    ensures { result ≡ fault BadRoll place }
{
    Fault {
        refusal: Refusal::BadRoll,
        place,
    }
}
