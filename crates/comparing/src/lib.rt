// Two rolls beside each other: how many positions differ, and the text that says which, piece by piece.
#![tactic(auto)]

mod differ;
mod pair;
mod pieces;
mod says;
mod sides;

pub use differ::{Compared, compare, is_line};
pub use pair::{Line, Met, Pair};
pub use pieces::{head, line, refusal_line};
pub use sides::{Side, Sided};
