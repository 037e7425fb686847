// A term of a list: what steps give, what a roll stores and what a sum adds up.
#![tactic(auto)]

ghost use Rattle.std.specs.Prelude.{◌≡◌};
ghost use Rattle.term.specs.Terms.{no_term};

use kind::Kind;

// The prefactors are the first `count` places; zeros stand after them.
#[derive(Clone, Copy, Debug, PartialEq, Eq)]
pub struct Term {
    pub scale: u32,
    pub boys: u8,
    pub count: u8,
    pub prefactors: [u8; Kind::PREFACTORS],
}

impl Term {
    // What stands beside a refusal and beside the end of a roll.
    pub fn none() -> Term
        ensures { result ≡ no_term }
    {
        Term {
            scale: 0,
            boys: 0,
            count: 0,
            prefactors: [0; Kind::PREFACTORS],
        }
    }
}
