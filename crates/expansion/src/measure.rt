// How many terms a state has below it and how many bytes they take, or that they are more than a list may hold.
// Branches that differ in the Boys order alone have children of one size, so one of the two is measured and counted twice (D-67, D-83).
ghost use Rattle.std.specs.Prelude.{◌≡◌, ◌+◌, ◌^◌, ◌≤◌, ◌<◌};
ghost use Rattle.number.specs.Numbers.{length_of};
ghost use Rattle.expansion.specs.inner.Walking.{TurnMay};
ghost use Rattle.expansion.specs.inner.Measuring.{in_pairs, width_of, skip_of, Unpacked, WordOf, MeasureMay, Measures, MeasuresFrom, MeasuresGroup};

use crate::Lowered;
use crate::walk::choose;
use kind::Kind;

// A size in one word: so much for each term, and their bytes.
const TERM: u64 = 0x1_0000_0000;

// The word of terms that are too many.
const OVER: u64 = (Kind::MOST_TERMS as u64 + 1) * TERM;

// Branches 0 and 1, 2 and 3, 4 and 5 of nuclear and Coulomb differ in the Boys order alone.
fn in_pairs(number: u8) -> u8
    ensures { result ≡ in_pairs number }
{
    match number {
        0 | 2 | 4 => 2,
        _ => 1,
    }
}

// How many branches from a number on have children of one size.
#[tactic(auto, unfolding(crate::specs::inner::Measuring::width_of))]
fn width(kind: Kind, number: u8) -> u8
    ensures { result ≡ width_of kind number }
{
    match kind {
        Kind::Overlap | Kind::Kinetic | Kind::Moment => 1,
        Kind::Nuclear | Kind::Coulomb => in_pairs(number),
    }
}

// The multipliers after a group.
fn skip(width: u8, times: u64) -> u64
    ensures { result ≡ skip_of width times }
{
    if width == 2 {
        return times / 256;
    }
    times / 16
}

// The bytes of one term.
fn leaf(scale: u64, count: u64) -> u64
    requires { (scale < 2 ^ 32) × (count < 25) }
    ensures { (result ≡ length_of scale + 2 + count) × (result ≤ 32) }
{
    number::length(scale as u32) as u64 + 2 + count
}

// What a word says.
fn unpacked(word: u64) -> Option<(u64, u64)>
    ensures { Unpacked word result }
{
    if word < OVER {
        return Some((word / TERM, word % TERM));
    }
    None
}

// The size of all terms below a state: how many they are and their bytes, or none where they are too many.
pub(crate) fn measure_node(kind: Kind, left: u64, scale: u64, count: u64) -> Option<(u64, u64)>
    requires { MeasureMay kind left scale count }
    ensures { Measures kind left scale count result }
{
    if left == 0 {
        return Some((1, leaf(scale, count)));
    }
    let word = measure_inner(kind, left, scale, count);
    unpacked(word)
}

// The size of all terms below a state that has an order left, as a word.
#[cycle(measure_branch_measure_branches_measure_inner)]
fn measure_inner(kind: Kind, left: u64, scale: u64, count: u64) -> u64
    requires measure_may { MeasureMay kind left scale count }
    requires fact { left ≡ 0 → ⊥ }
    ensures { WordOf (Measures kind left scale count) result }
{
    let Some(lowered) = choose(kind, left) else {
        return 0;
    };
    let times = steps::multipliers(kind, left, lowered.centre, lowered.axis);
    measure_branches(kind, left, scale, count, lowered, times)
}

// The size of the terms of all branches; it ends where they are too many.
#[cycle(measure_branch_measure_branches_measure_inner)]
fn measure_branches(
    kind: Kind,
    left: u64,
    scale: u64,
    count: u64,
    lowered: Lowered,
    times: u64,
) -> u64
    requires measure_may { MeasureMay kind left scale count }
    requires turn_may { TurnMay kind left lowered.centre lowered.axis times 0 }
    ensures { WordOf (MeasuresFrom kind left scale count lowered.centre lowered.axis 0) result }
{
    let mut total: u64 = 0;
    let mut rest = times;
    let mut number: u8 = 0;
    while 0 < rest {
        let one = measure_branch(kind, left, scale, count, lowered, rest, number);
        let alike = width(kind, number);
        total += alike as u64 * one;
        if OVER <= total {
            return OVER;
        }
        rest = skip(alike, rest);
        number += alike;
    }
    total
}

// The size of the terms of one branch, and so of each in its group. A state with no order left has no call of its own.
#[cycle(measure_branch_measure_branches_measure_inner)]
fn measure_branch(
    kind: Kind,
    left: u64,
    scale: u64,
    count: u64,
    lowered: Lowered,
    times: u64,
    number: u8,
) -> u64
    requires measure_may { MeasureMay kind left scale count }
    requires turn_may { TurnMay kind left lowered.centre lowered.axis times number }
    requires fact { times ≡ 0 → ⊥ }
    ensures { WordOf (MeasuresGroup kind left scale count lowered.centre lowered.axis number) result }
{
    if times % 16 == 0 {
        return 0;
    }
    let step = steps::branch(kind, lowered.centre, lowered.axis, number);
    let goes_on = step.kind;
    let below = left - step.falls;
    let scaled = scale * (times % 16);
    if below == 0 {
        return TERM + leaf(scaled, count + 1);
    }
    measure_inner(goes_on, below, scaled, count + 1)
}
