// The small-cabinet profile: overlap and Coulomb requests with an order sum of at most 1 on each centre, and their rolls in form 1.
#![tactic(auto)]

mod check;
mod profile;

ghost use Rattle.std.specs.Prelude.{◌≡◌, Some};
ghost use Rattle.kind.specs.Kinds.{kind_of};
ghost use Rattle.small.specs.Check.{small_check_of};
ghost use Rattle.small.specs.Expand.{SmallExpandTold};

use crate::check::{in_form1, in_form2};
use crate::profile::is_small;
use expansion::{Expanded, too_high, unused_set};
use form2::is_form2;
use kind::{Fault, Kind, Refusal};
use roll::Opened;

// Expands a request of a known kind.
fn expand_known(
    kind: u8,
    known: Kind,
    orders: [u8; Kind::ORDERS],
    out: &mut [u8],
    start: usize,
) -> Result<Expanded, Refusal>
    requires { kind_of kind ≡ Some known }
    ensures { SmallExpandTold kind orders out.old start result out.new }
{
    if too_high(known, orders) {
        return Err(Refusal::OrderSum);
    }
    if unused_set(known, orders) {
        return Err(Refusal::UnusedOrder);
    }
    if !is_small(known, orders) {
        return Err(Refusal::OutsideProfile);
    }
    expansion::expand(kind, orders, out, start)
}

// Expands a request of the profile into a roll that begins at `start`.
pub fn small_expand(
    kind: u8,
    orders: [u8; Kind::ORDERS],
    out: &mut [u8],
    start: usize,
) -> Result<Expanded, Refusal>
    ensures { SmallExpandTold kind orders out.old start result out.new }
{
    let known = Kind::of(kind).ok_or(Refusal::WrongKind)?;
    expand_known(kind, known, orders, out, start)
}

// A roll's header, where the roll is of the profile and equals the fresh expansion of its request byte for byte; or a refusal with its place.
pub fn small_check(roll: &[u8]) -> Result<Opened, Fault>
    ensures { result ≡ small_check_of roll.now }
{
    if is_form2(roll) {
        return in_form2(roll);
    }
    in_form1(roll)
}
