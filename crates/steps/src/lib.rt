// One step of the recurrences: which centre and axis are lowered, and what each branch does.
// The orders left of a term are packed in a word, four bits each, A's x lowest.

#![tactic(auto)]

mod branches;
mod choice;

ghost use Rattle.std.specs.Prelude.{◌≡◌, ◌≤◌};
ghost use Rattle.steps.specs.Choice.{centre_number, axis_number};
ghost use Rattle.steps.specs.Steps.{partner, other-c, other-d, side};

pub use branches::{branch, multipliers};
pub use choice::{find_component_to_lower, find_fun_to_lower};
use kind::Kind;

// The operator of a moment stands in C's place.
#[derive(Clone, Copy, Debug, PartialEq, Eq)]
pub enum CentreName {
    A,
    B,
    C,
    D,
}

impl CentreName {
    pub(crate) fn number(self) -> u64
        ensures { (result ≡ centre_number self) × (result ≤ 3) }
    {
        self as u64
    }

    // One for C and D.
    pub(crate) fn side(self) -> u64
        ensures { (result ≡ side self) × (result ≤ 1) }
    {
        match self {
            CentreName::A | CentreName::B => 0,
            CentreName::C | CentreName::D => 1,
        }
    }

    // A with B, C with D.
    pub(crate) fn partner(self) -> CentreName
        ensures { result ≡ partner self }
    {
        match self {
            CentreName::A => CentreName::B,
            CentreName::B => CentreName::A,
            CentreName::C => CentreName::D,
            CentreName::D => CentreName::C,
        }
    }

    // The centre that branch 6 of Coulomb lowers.
    pub(crate) fn other_c(self) -> CentreName
        ensures { result ≡ other-c self }
    {
        match self {
            CentreName::A | CentreName::B => CentreName::D,
            CentreName::C | CentreName::D => CentreName::B,
        }
    }

    // The centre that branch 7 of Coulomb lowers.
    pub(crate) fn other_d(self) -> CentreName
        ensures { result ≡ other-d self }
    {
        match self {
            CentreName::A | CentreName::B => CentreName::C,
            CentreName::C | CentreName::D => CentreName::A,
        }
    }
}

#[derive(Clone, Copy, Debug, PartialEq, Eq)]
pub enum Axis {
    X,
    Y,
    Z,
}

impl Axis {
    pub(crate) fn number(self) -> u64
        ensures { (result ≡ axis_number self) × (result ≤ 2) }
    {
        self as u64
    }
}

// A centre with the sum of its orders, which is not 0.
#[derive(Clone, Copy, Debug, PartialEq, Eq)]
pub struct Best {
    pub centre: CentreName,
    pub sum: u64,
}

// A branch for the packed orders: what is taken from the word, the prefactor added, what the Boys order gains, and the
// kind that the term goes on as. The two bytes stand side by side: a kind alone in a word of eight bytes is read by a load that is
// wider than its store, which takes many times as long.
#[derive(Clone, Copy, Debug, PartialEq, Eq)]
pub struct Move {
    pub falls: u64,
    pub adds: u64,
    pub raises: u8,
    pub kind: Kind,
}

impl Move {
    pub(crate) fn new(falls: u64, adds: u64, raises: u8, kind: Kind) -> Move
        ensures { result ≡ record { falls = falls; adds = adds; raises = raises; kind = kind } }
    {
        Move {
            falls,
            adds,
            raises,
            kind,
        }
    }
}
