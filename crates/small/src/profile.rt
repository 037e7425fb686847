// Whether a request keeps the profile.
ghost use Rattle.std.specs.Prelude.{◌≡◌};
ghost use Rattle.kind.specs.Kinds.{kind_of};
ghost use Rattle.small.specs.Profile.{at_most, both_at_most, all_at_most, small};
ghost use Rattle.small.specs.inner.Checking.{small_as};

use expansion::sum_of;
use kind::Kind;
use steps::CentreName;

// The order sum on a centre of the profile is at most this.
const MOST_SMALL: u64 = 1;

// The order sum of a centre keeps the profile.
fn at_most(orders: [u8; Kind::ORDERS], centre: CentreName) -> bool
    ensures { result ≡ at_most orders centre }
{
    sum_of(orders, centre) <= MOST_SMALL
}

// Those of two centres do.
fn both_at_most(orders: [u8; Kind::ORDERS], one: CentreName, other: CentreName) -> bool
    ensures { result ≡ both_at_most orders one other }
{
    at_most(orders, one) && at_most(orders, other)
}

// Those of all four do.
fn all_at_most(orders: [u8; Kind::ORDERS]) -> bool
    ensures { result ≡ all_at_most orders }
{
    both_at_most(orders, CentreName::A, CentreName::B)
        && both_at_most(orders, CentreName::C, CentreName::D)
}

// A kind and orders of the profile.
#[tactic(auto, unfolding(crate::specs::Profile::small))]
pub(crate) fn is_small(kind: Kind, orders: [u8; Kind::ORDERS]) -> bool
    ensures { result ≡ small kind orders }
{
    match kind {
        Kind::Overlap => both_at_most(orders, CentreName::A, CentreName::B),
        Kind::Kinetic | Kind::Nuclear | Kind::Moment => false,
        Kind::Coulomb => all_at_most(orders),
    }
}

// The same by the kind's number; what is no kind is not of the profile.
pub(crate) fn is_small_number(kind: u8, orders: [u8; Kind::ORDERS]) -> bool
    ensures { result ≡ small_as (kind_of kind) orders }
{
    match Kind::of(kind) {
        Some(known) => is_small(known, orders),
        None => false,
    }
}
