// What is done with a term that the walk has reached. Nothing else in the walk knows a roll's form.
// A sink is five words: what is done, the place after what was done, and the prefactors of the term before as a path holds them.
ghost use Rattle.std.specs.Prelude.{◌≡◌, [], ◌∷◌, ◌+◌, ◌-◌, ◌^◌, ◌<◌, ◌≤◌, get_or};
ghost use Rattle.number.specs.Numbers.{length_of};
ghost use Rattle.expansion.specs.inner.View.{path_term};
ghost use Rattle.expansion.specs.inner.Sinks.{in_form1, sink_of, EmitMay, Took};

use crate::further::{put_term2, shared_with};
use crate::terms::put_term;
use crate::{Path, SINK};

// Terms are written in form 1, written in form 2, or measured in form 2. These are words and no enum, since a sink and a matching state hold them among their
// words, which the walk tests for each term.
pub(crate) const FORM1: u64 = 1;

pub(crate) const FORM2: u64 = 2;

pub(crate) const SIZE2: u64 = 3;

// The bytes of a term in form 2 of which so many prefactors are shared.
fn long2(path: Path, same: u64) -> u64
    requires { (path.scale < 2 ^ 32) × (path.count < 25) × (same ≤ path.count) }
    ensures { result ≡ length_of path.scale + 3 + (path.count - same) }
{
    number::length(path.scale as u32) as u64 + 3 + (path.count - same)
}

// Takes a term in form 2.
fn emit2(out: &mut [u8], sink: &mut [u64; SINK], path: Path)
    requires emit_may { EmitMay path (sink_of sink.old out.old) }
    requires fact { get_or sink.old 0 0 ≡ in_form1 → ⊥ }
    ensures { Took (sink_of sink.old out.old) (path_term path ∷ []) (sink_of sink.new out.new) }
{
    let doing = sink[0];
    let at = sink[1];
    let same = shared_with(sink[2], sink[3], sink[4], path);
    if doing == SIZE2 {
        let next = at + long2(path, same);
        *sink = [doing, next, path.count, path.low, path.high];
        return;
    }
    let next = put_term2(out, at as usize, same, path);
    *sink = [doing, next as u64, path.count, path.low, path.high];
}

// Takes a term.
pub(crate) fn emit(out: &mut [u8], sink: &mut [u64; SINK], path: Path)
    requires { EmitMay path (sink_of sink.old out.old) }
    ensures { Took (sink_of sink.old out.old) (path_term path ∷ []) (sink_of sink.new out.new) }
{
    let doing = sink[0];
    let at = sink[1];
    if doing == FORM1 {
        let next = put_term(out, at as usize, path);
        *sink = [doing, next as u64, path.count, path.low, path.high];
        return;
    }
    emit2(out, sink, path);
}
