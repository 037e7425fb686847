// The judge of a whole roll: its header is read, its terms are gone over.
ghost use Rattle.std.specs.Prelude.{◌≡◌, ◌≤◌};
ghost use Rattle.kind.specs.Kinds.{most_l};
ghost use Rattle.roll.specs.Reading.{terms_at};
ghost use Rattle.roll.specs.Header.{check_of};
ghost use Rattle.roll.specs.inner.Over.{over_of};

use crate::cursor::Cursor;
use crate::field::bad_roll;
use crate::header::{Opened, open};
use crate::over::terms_over;
use crate::terms::most_boys;
use kind::{Fault, Kind};

// The terms of an opened roll of a kind, gone over to the end or to the first refusal.
fn judge(roll: &[u8], cursor: Cursor, kind: Kind) -> Result<(), Fault>
    requires { cursor.l ≤ most_l kind }
    ensures { result ≡ over_of (terms_at roll.now cursor.place cursor.left kind cursor.l) }
{
    let boys = most_boys(kind, cursor.l) as u32;
    let most = kind.most_prefactors(cursor.l) as u32;
    terms_over(
        roll,
        cursor.place,
        cursor.left,
        boys,
        most,
        kind.table() as u32,
    )
}

// A whole roll judged: as `open` where every term reads and nothing follows.
pub fn check(roll: &[u8]) -> Result<Opened, Fault>
    ensures { result ≡ check_of roll.now }
{
    let opened = open(roll)?;
    match Kind::of(opened.cursor.kind) {
        Some(kind) => judge(roll, opened.cursor, kind)?,
        None => return Err(bad_roll(opened.cursor.place)),
    }
    Ok(opened)
}
