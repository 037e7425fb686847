// The roll of a text: lines of numbers with commas between them, as the export writes them.
#![tactic(auto)]

ghost use Rattle.std.specs.Prelude.{◌≡◌, Ok};
ghost use Rattle.importing.specs.Answer.{Refused};
ghost use Rattle.importing.specs.Import.{roll_of, ImportTold};
ghost use Rattle.importing.specs.inner.Places.{measured};

use crate::judge::judge_text;
use crate::writing::put_roll;
use kind::Refusal;

mod judge;
mod lines;
mod numerals;
mod telling;
mod writing;

pub use telling::refusal_line;

// The roll's length and its terms.
#[derive(Clone, Copy)]
pub struct Imported {
    pub length: usize,
    pub terms: u32,
}

// A refusal, and the line of the text where it stands; 0 where it has none.
#[derive(Clone, Copy)]
pub struct ImportFault {
    pub refusal: Refusal,
    pub line: u64,
}

fn refused(refusal: Refusal, line: u64) -> Result<Imported, ImportFault>
    ensures { result ≡ Refused refusal line }
{
    Err(ImportFault { refusal, line })
}

// The roll of a text that was judged, where it has room.
fn lay(text: &[u8], out: &mut [u8], start: usize, roll: Imported) -> Result<Imported, ImportFault>
    requires { Ok roll ≡ measured (roll_of text.now) }
    ensures { ImportTold text.now out.old start result out.new }
{
    if out.len() < start {
        return refused(Refusal::StartBeyondEnd, 0);
    }
    if out.len() - start < roll.length {
        return refused(Refusal::NoRoom, 0);
    }
    put_roll(text, out, start, roll.terms);
    Ok(roll)
}

// The form 1 roll of a text: nothing is written before the whole text has been judged.
pub fn import(text: &[u8], out: &mut [u8], start: usize) -> Result<Imported, ImportFault>
    ensures { ImportTold text.now out.old start result out.new }
{
    let roll = judge_text(text)?;
    lay(text, out, start, roll)
}
