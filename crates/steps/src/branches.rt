// What each branch of each kind does, on packed orders.
#![tactic(auto, unfolding(crate::specs::Steps::branches, crate::specs::Steps::times, crate::specs::inner::Packed::move_in, crate::specs::inner::Packed::fall_word, crate::specs::inner::Packed::multiplier_word))]

ghost use Rattle.std.specs.Prelude.{◌≡◌, ◌+◌, ◌-◌, ◌^◌, ◌≤◌, ◌<◌};
ghost use Rattle.kind.specs.Kinds.{branches_of};
ghost use Rattle.steps.specs.Choice.{order_of};
ghost use Rattle.steps.specs.inner.Packed.{orders, unit, move_in, multiplier_word};
ghost use Rattle.steps.specs.Steps.{branches, overlap, kinetic, nuclear, moment, moment-on-operator, moments, coulomb, P, R, Q};

use crate::choice::{bits, order};
use crate::{Axis, CentreName, Move};
use kind::Kind;

// One order of a centre.
fn unit(centre: CentreName, axis: Axis) -> u64
    ensures { (result ≡ unit centre axis) × (result ≤ 16 ^ 11) }
{
    let below = bits(centre, axis);
    1 << below
}

// One order of a centre and one of another.
fn both(centre: CentreName, other: CentreName, axis: Axis) -> u64
    ensures { result ≡ unit centre axis + unit other axis }
{
    unit(centre, axis) + unit(other, axis)
}

// One less than the order of a centre, or 0.
fn less_one(left: u64, centre: CentreName, axis: Axis) -> u64
    ensures { (result ≡ order_of (orders left) centre axis - 1) × (result < 16) }
{
    order(left, centre, axis).saturating_sub(1)
}

// The multipliers of a branch stand four bits each, the first lowest.
fn overlap_multipliers(left: u64, centre: CentreName, axis: Axis) -> u64
    ensures { result ≡ multiplier_word centre axis (orders left) (overlap centre axis) }
{
    let a = less_one(left, centre, axis);
    let b = order(left, centre.partner(), axis);
    1 + 0x10 * a + 0x100 * b
}

// Branch 3 is always legal while orders are left.
fn kinetic_multipliers(left: u64, centre: CentreName, axis: Axis) -> u64
    ensures { result ≡ multiplier_word centre axis (orders left) (kinetic centre axis) }
{
    let a = less_one(left, centre, axis);
    let b = order(left, centre.partner(), axis);
    0x1001 + 0x1_0010 * a + 0x100 * b
}

// Each way to lower comes twice, plain and raised.
fn nuclear_multipliers(left: u64, centre: CentreName, axis: Axis) -> u64
    ensures { result ≡ multiplier_word centre axis (orders left) (nuclear centre axis) }
{
    let a = less_one(left, centre, axis);
    let b = order(left, centre.partner(), axis);
    0x11 + 0x1100 * a + 0x11_0000 * b
}

fn moment_on_centre_multipliers(left: u64, centre: CentreName, axis: Axis) -> u64
    ensures { result ≡ multiplier_word centre axis (orders left) (moment centre axis) }
{
    let a = less_one(left, centre, axis);
    let b = order(left, centre.partner(), axis);
    let o = order(left, CentreName::C, axis);
    1 + 0x10 * a + 0x100 * b + 0x1000 * o
}

fn moment_on_operator_multipliers(left: u64, centre: CentreName, axis: Axis) -> u64
    ensures { result ≡ multiplier_word centre axis (orders left) (moment-on-operator axis) }
{
    let a = less_one(left, centre, axis);
    1 + 0x10 * a
}

fn moment_multipliers(left: u64, centre: CentreName, axis: Axis) -> u64
    ensures { result ≡ multiplier_word centre axis (orders left) (moments centre axis) }
{
    match centre {
        CentreName::A | CentreName::B => moment_on_centre_multipliers(left, centre, axis),
        CentreName::C => moment_on_operator_multipliers(left, centre, axis),
        CentreName::D => 0,
    }
}

// As nuclear, then the two centres of the other side.
fn coulomb_multipliers(left: u64, centre: CentreName, axis: Axis) -> u64
    ensures { result ≡ multiplier_word centre axis (orders left) (coulomb centre axis) }
{
    let a = less_one(left, centre, axis);
    let b = order(left, centre.partner(), axis);
    let c = order(left, centre.other_c(), axis);
    let d = order(left, centre.other_d(), axis);
    0x11 + 0x1100 * a + 0x11_0000 * b + 0x100_0000 * c + 0x1000_0000 * d
}

// The multipliers of all branches at a centre and an axis; 0 where a branch is not legal.
pub fn multipliers(kind: Kind, left: u64, centre: CentreName, axis: Axis) -> u64
    ensures { result ≡ multiplier_word centre axis (orders left) (branches kind centre axis) }
{
    match kind {
        Kind::Overlap => overlap_multipliers(left, centre, axis),
        Kind::Kinetic => kinetic_multipliers(left, centre, axis),
        Kind::Nuclear => nuclear_multipliers(left, centre, axis),
        Kind::Moment => moment_multipliers(left, centre, axis),
        Kind::Coulomb => coulomb_multipliers(left, centre, axis),
    }
}

// 2·axis for A, one more for B.
fn p(centre: CentreName, axis: Axis) -> u64
    ensures { result ≡ P centre axis }
{
    2 * axis.number() + centre.number()
}

fn r(centre: CentreName, axis: Axis) -> u64
    ensures { result ≡ R centre axis }
{
    6 * axis.number() + centre.number()
}

fn q(centre: CentreName, axis: Axis) -> u64
    ensures { result ≡ Q centre axis }
{
    6 * axis.number() + 4 + centre.side()
}

// The last arm of each is the kind's last branch: `branch` asks for none beyond it.
fn overlap_move(centre: CentreName, axis: Axis, number: u8) -> Move
    requires { number < branches_of Kind.Overlap }
    ensures { result ≡ move_in Kind.Overlap centre axis (overlap centre axis) number }
{
    match number {
        0 => Move::new(unit(centre, axis), p(centre, axis), 0, Kind::Overlap),
        1 => Move::new(2 * unit(centre, axis), 6, 0, Kind::Overlap),
        _ => Move::new(both(centre, centre.partner(), axis), 7, 0, Kind::Overlap),
    }
}

fn kinetic_move(centre: CentreName, axis: Axis, number: u8) -> Move
    requires { number < branches_of Kind.Kinetic }
    ensures { result ≡ move_in Kind.Kinetic centre axis (kinetic centre axis) number }
{
    match number {
        0 => Move::new(unit(centre, axis), p(centre, axis), 0, Kind::Kinetic),
        1 => Move::new(2 * unit(centre, axis), 6, 0, Kind::Kinetic),
        2 => Move::new(both(centre, centre.partner(), axis), 7, 0, Kind::Kinetic),
        3 => Move::new(0, 8, 0, Kind::Overlap),
        _ => Move::new(
            2 * unit(centre, axis),
            9 + centre.number(),
            0,
            Kind::Overlap,
        ),
    }
}

fn nuclear_move(centre: CentreName, axis: Axis, number: u8) -> Move
    requires { number < branches_of Kind.Nuclear }
    ensures { result ≡ move_in Kind.Nuclear centre axis (nuclear centre axis) number }
{
    match number {
        0 => Move::new(unit(centre, axis), p(centre, axis), 0, Kind::Nuclear),
        1 => Move::new(unit(centre, axis), 6 + axis.number(), 1, Kind::Nuclear),
        2 => Move::new(2 * unit(centre, axis), 9, 0, Kind::Nuclear),
        3 => Move::new(2 * unit(centre, axis), 10, 1, Kind::Nuclear),
        4 => Move::new(both(centre, centre.partner(), axis), 9, 0, Kind::Nuclear),
        _ => Move::new(both(centre, centre.partner(), axis), 10, 1, Kind::Nuclear),
    }
}

fn moment_on_centre(centre: CentreName, axis: Axis, number: u8) -> Move
    requires { number < branches_of Kind.Moment }
    ensures { result ≡ move_in Kind.Moment centre axis (moment centre axis) number }
{
    match number {
        0 => Move::new(unit(centre, axis), p(centre, axis), 0, Kind::Moment),
        1 => Move::new(2 * unit(centre, axis), 9, 0, Kind::Moment),
        2 => Move::new(both(centre, centre.partner(), axis), 10, 0, Kind::Moment),
        _ => Move::new(both(centre, CentreName::C, axis), 11, 0, Kind::Moment),
    }
}

// The operator has fewer branches than a centre.
fn moment_on_operator(centre: CentreName, axis: Axis, number: u8) -> Move
    ensures { result ≡ move_in Kind.Moment centre axis (moment-on-operator axis) number }
{
    match number {
        0 => Move::new(unit(centre, axis), 6 + axis.number(), 0, Kind::Moment),
        1 => Move::new(2 * unit(centre, axis), 9, 0, Kind::Moment),
        _ => Move::new(0, 0, 0, Kind::Moment),
    }
}

fn moment_move(centre: CentreName, axis: Axis, number: u8) -> Move
    requires { number < branches_of Kind.Moment }
    ensures { result ≡ move_in Kind.Moment centre axis (moments centre axis) number }
{
    match centre {
        CentreName::A | CentreName::B => moment_on_centre(centre, axis, number),
        CentreName::C => moment_on_operator(centre, axis, number),
        CentreName::D => Move::new(0, 0, 0, Kind::Moment),
    }
}

fn coulomb_move(centre: CentreName, axis: Axis, number: u8) -> Move
    requires { number < branches_of Kind.Coulomb }
    ensures { result ≡ move_in Kind.Coulomb centre axis (coulomb centre axis) number }
{
    match number {
        0 => Move::new(unit(centre, axis), r(centre, axis), 0, Kind::Coulomb),
        1 => Move::new(unit(centre, axis), q(centre, axis), 1, Kind::Coulomb),
        2 => Move::new(2 * unit(centre, axis), 18 + centre.side(), 0, Kind::Coulomb),
        3 => Move::new(2 * unit(centre, axis), 20 + centre.side(), 1, Kind::Coulomb),
        4 => Move::new(
            both(centre, centre.partner(), axis),
            18 + centre.side(),
            0,
            Kind::Coulomb,
        ),
        5 => Move::new(
            both(centre, centre.partner(), axis),
            20 + centre.side(),
            1,
            Kind::Coulomb,
        ),
        6 => Move::new(both(centre, centre.other_c(), axis), 22, 1, Kind::Coulomb),
        _ => Move::new(both(centre, centre.other_d(), axis), 22, 1, Kind::Coulomb),
    }
}

// The branch of a number, counted from 0; one that is none takes nothing.
pub fn branch(kind: Kind, centre: CentreName, axis: Axis, number: u8) -> Move
    ensures { result ≡ move_in kind centre axis (branches kind centre axis) number }
{
    if kind.branches() <= number as usize {
        return Move::new(0, 0, 0, kind);
    }
    match kind {
        Kind::Overlap => overlap_move(centre, axis, number),
        Kind::Kinetic => kinetic_move(centre, axis, number),
        Kind::Nuclear => nuclear_move(centre, axis, number),
        Kind::Moment => moment_move(centre, axis, number),
        Kind::Coulomb => coulomb_move(centre, axis, number),
    }
}
