// The roll: its header, the cursor over its terms, the judge of a whole roll, and the terms of a judged roll read again.
#![tactic(auto)]

mod again;
mod cursor;
mod field;
mod header;
mod judge;
mod over;
mod terms;

pub use again::{Head, Seen, boys_at, end_at, head_at, number_at};
pub use cursor::{Cursor, Step, no_cursor};
pub use field::within;
pub use header::{Opened, open, open_kind, refused_roll};
pub use judge::check;
pub use terms::most_boys;
