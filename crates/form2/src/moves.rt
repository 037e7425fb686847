// What the moves between the two forms answer, and whether what they write fits.
ghost use Rattle.std.specs.Prelude.{◌+◌, ◌≡◌, leb};
ghost use Rattle.kind.specs.declared.refusals.Refusal.TheVariants.{NoRoom, StartBeyondEnd};
ghost use Rattle.roll.specs.Field.{fault};

use kind::{Fault, Refusal};

// The length and the term count of what was written.
#[derive(Clone, Copy)]
pub struct Moved {
    pub length: usize,
    pub terms: u32,
}

// Whether a header and its terms have room.
pub(crate) fn has_room(room: usize, head: usize, terms: usize) -> bool
    ensures { result ≡ leb (head + terms) room }
{
    head <= room && terms <= room - head
}

// A start beyond the output.
pub(crate) fn start_beyond_end() -> Fault
    ensures { result ≡ fault StartBeyondEnd 0 }
{
    Fault {
        refusal: Refusal::StartBeyondEnd,
        place: 0,
    }
}

// An output with no room for what is written.
pub(crate) fn no_room() -> Fault
    ensures { result ≡ fault NoRoom 0 }
{
    Fault {
        refusal: Refusal::NoRoom,
        place: 0,
    }
}
