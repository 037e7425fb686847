// A roll of form 2, which says of each term what it does not share with the one before: its reader, and the moves between the two forms.
#![tactic(auto)]

mod beside;
mod cursor;
mod header;
mod judge;
mod longer;
mod moves;
mod puts;
mod quick;
mod shorter;
mod terms;

pub use beside::alike;
pub use cursor::{Cursor2, Step2};
pub use header::{Opened2, is_form2, open2};
pub use judge::check2;
pub use longer::to_form1;
pub use moves::Moved;
pub use shorter::to_form2;
