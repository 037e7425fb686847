// The centre and the axis that are lowered.
ghost use Rattle.std.specs.Prelude.{◌≡◌, [], ◌∷◌, ◌*◌, ◌≤◌, ◌<◌};
ghost use Rattle.steps.specs.inner.Packed.{orders};
ghost use Rattle.steps.specs.Choice.{operator, order_place, order_of, sum_of, or_before, smallest, centre_of, once_exhausted, chosen, first_axis};

use crate::{Axis, Best, CentreName};
use kind::Kind;

// The bits below an order of the word.
pub(crate) fn bits(centre: CentreName, axis: Axis) -> u64
    ensures { (result ≡ 4 * order_place centre axis) × (result ≤ 44) }
{
    4 * (3 * centre.number() + axis.number())
}

// The order left on one axis of a centre.
pub(crate) fn order(left: u64, centre: CentreName, axis: Axis) -> u64
    ensures { (result ≡ order_of (orders left) centre axis) × (result < 16) }
{
    let below = bits(centre, axis);
    (left >> below) % 16
}

// The sum of the orders left on a centre.
fn sum(left: u64, centre: CentreName) -> u64
    ensures { result ≡ sum_of (orders left) centre }
{
    order(left, centre, Axis::X) + order(left, centre, Axis::Y) + order(left, centre, Axis::Z)
}

// A centre before those after it.
fn or_before(later: Option<Best>, centre: CentreName, sum: u64) -> Option<Best>
    ensures { result ≡ or_before later centre sum }
{
    if sum == 0 {
        return later;
    }
    match later {
        Some(best) if best.sum < sum => later,
        _ => Some(Best { centre, sum }),
    }
}

// The best of a centre and those after it.
fn from(left: u64, centre: CentreName, later: Option<Best>) -> Option<Best>
    ensures { result ≡ or_before later centre (sum_of (orders left) centre) }
{
    or_before(later, centre, sum(left, centre))
}

// The smaller of A and B.
fn of_two(left: u64) -> Option<CentreName>
    ensures { result ≡ centre_of (smallest (orders left) (CentreName.A ∷ CentreName.B ∷ [])) }
{
    let b = from(left, CentreName::B, None);
    from(left, CentreName::A, b).map(|best| best.centre)
}

// The smallest of all four.
fn of_four(left: u64) -> Option<CentreName>
    ensures { result ≡ centre_of (smallest (orders left) (CentreName.A ∷ CentreName.B ∷ CentreName.C ∷ CentreName.D ∷ [])) }
{
    let d = from(left, CentreName::D, None);
    let c = from(left, CentreName::C, d);
    let b = from(left, CentreName::B, c);
    from(left, CentreName::A, b).map(|best| best.centre)
}

// The operator, where it has orders.
fn of_operator(left: u64) -> Option<CentreName>
    ensures { result ≡ centre_of (smallest (orders left) (operator ∷ [])) }
{
    from(left, CentreName::C, None).map(|best| best.centre)
}

// The operator only once A and B are exhausted.
fn of_moment(left: u64) -> Option<CentreName>
    ensures { result ≡ once_exhausted (centre_of (smallest (orders left) (CentreName.A ∷ CentreName.B ∷ []))) (centre_of (smallest (orders left) (operator ∷ []))) }
{
    of_two(left).or(of_operator(left))
}

// The centre with the smallest positive sum left, first on a tie; the operator only once A and B are exhausted (D-35).
#[tactic(auto, unfolding(crate::specs::Choice::chosen))]
pub fn find_fun_to_lower(kind: Kind, left: u64) -> Option<CentreName>
    ensures { result ≡ chosen kind (orders left) }
{
    match kind {
        Kind::Overlap | Kind::Kinetic | Kind::Nuclear => of_two(left),
        Kind::Moment => of_moment(left),
        Kind::Coulomb => of_four(left),
    }
}

// The first axis of the centre with a positive order left.
#[tactic(auto, unfolding(crate::specs::Choice::first_axis))]
pub fn find_component_to_lower(left: u64, centre: CentreName) -> Option<Axis>
    ensures { result ≡ first_axis (orders left) centre }
{
    if 0 < order(left, centre, Axis::X) {
        return Some(Axis::X);
    }
    if 0 < order(left, centre, Axis::Y) {
        return Some(Axis::Y);
    }
    if 0 < order(left, centre, Axis::Z) {
        return Some(Axis::Z);
    }
    None
}
