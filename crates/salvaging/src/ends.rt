// How many terms of a fresh roll end within the bytes that another roll begins with too.
ghost use Rattle.std.specs.Prelude.{◌≡◌, ◌≤◌, length};
ghost use Rattle.form2.specs.Bytes.{shared};
ghost use Rattle.salvaging.specs.inner.Ends.{behind, end_at, Whole, ends_within};

use crate::forms::Form;
use form2::alike;
use number::wide;

// Bytes of a number before its last are not below this.
const HIGH: u8 = 128;

// How far behind the last byte of a term's scale the number of its bytes stands: a Boys order stands between them, in form 2 a shared length too.
fn behind(form: Form) -> usize
    ensures { result ≡ behind form }
{
    match form {
        Form::One => 2,
        Form::Two => 3,
    }
}

// The place after a term. Of its numbers the scale alone may have more than one byte.
fn term_end(fresh: &[u8], at: usize, behind: usize) -> usize
    requires { end_at behind fresh.now at ≤ length fresh.now }
    ensures { result ≡ end_at behind fresh.now at }
{
    let mut place = at;
    while HIGH <= fresh[place] {
        place += 1;
    }
    let count = place + behind;
    count + 1 + wide(fresh[count]) as usize
}

// How many of so many terms end no further than a place.
fn ends_within(fresh: &[u8], behind: usize, most: usize, terms: u32) -> u32
    requires { Whole behind fresh.now 0 terms }
    ensures { result ≡ ends_within behind fresh.now most 0 terms }
{
    let mut place = 0;
    for count in 0..terms {
        let end = term_end(fresh, place, behind);
        if most < end {
            return count;
        }
        place = end;
    }
    terms
}

// How many fresh terms stand, byte for byte, at the beginning of other bytes.
pub(crate) fn leading(form: Form, roll: &[u8], fresh: &[u8], terms: u32) -> u32
    requires { Whole (behind form) fresh.now 0 terms }
    ensures { result ≡ ends_within (behind form) fresh.now (shared roll.now fresh.now) 0 terms }
{
    let most = alike(roll, fresh);
    ends_within(fresh, behind(form), most, terms)
}
