// The line of a refusal of an import, as text in a lent buffer: measured and written by the same functions, as the listing's is (D-74).
ghost use Rattle.std.specs.Prelude.{◌≡◌, Some};
ghost use Rattle.saying.specs.Said.{Said};
ghost use Rattle.listing.specs.Answers.{TextTold};
ghost use Rattle.importing.specs.Telling.{carries_line, refusal_text};

use kind::{Fault, Refusal};
use saying::{say, say_named};

#[tactic(auto, unfolding(crate::specs::Telling::carries_line))]
fn carries_line(refusal: u8) -> bool
    ensures { result ≡ carries_line refusal }
{
    refusal == Refusal::LineShape as u8 || refusal == Refusal::LineNumbers as u8
}

fn say_refusal(out: &mut [u8], room: usize, refusal: u8, line: u64) -> Option<usize>
    ensures { Said room out.old (Some 0) (refusal_text refusal line) result out.new }
{
    let told = say_named(out, room, Some(0), b"refused ", refusal as u64);
    if carries_line(refusal) {
        let numbered = say_named(out, room, told, b" line ", line);
        return say(out, room, numbered, b"\n");
    }
    say(out, room, told, b"\n")
}

// The line that tells a refusal, and the line number of refusals 21 and 22.
pub fn refusal_line(refusal: u8, line: u64, out: &mut [u8], start: usize) -> Result<usize, Fault>
    ensures { TextTold (refusal_text refusal line) out.old start result out.new }
{
    if out.len() < start {
        return Err(Fault::from(Refusal::StartBeyondEnd));
    }
    let room = out.len() - start;
    let Some(length) = say_refusal(&mut out[0..0], room, refusal, line) else {
        return Err(Fault::from(Refusal::NoRoom));
    };
    say_refusal(&mut out[start..], room, refusal, line);
    Ok(length)
}
