// The walk over all complete histories. A term's children are taken in turn before its next sibling (D-71).
ghost use Rattle.std.specs.Prelude.{◌≡◌, ◌%◌};
ghost use Rattle.steps.specs.inner.Packed.{orders};
ghost use Rattle.expansion.specs.inner.Sinks.{sink_of, Took};
ghost use Rattle.expansion.specs.inner.Walking.{Good, TurnMay, ChildOf, lowering, terms_below, terms_from, NodeMay, BranchMay};

use crate::sink::emit;
use crate::terms::moved;
use crate::{Child, Lowered, Path, SINK};
use kind::Kind;

// The centre and the axis that are lowered.
pub(crate) fn choose(kind: Kind, left: u64) -> Option<Lowered>
    ensures { result ≡ lowering kind (orders left) }
{
    let centre = steps::find_fun_to_lower(kind, left)?;
    let axis = steps::find_component_to_lower(left, centre)?;
    Some(Lowered { centre, axis })
}

// Where a legal branch leads.
pub(crate) fn child(
    kind: Kind,
    left: u64,
    path: Path,
    lowered: Lowered,
    times: u64,
    number: u8,
) -> Child
    requires good { Good kind left path }
    requires turn_may { TurnMay kind left lowered.centre lowered.axis times number }
    requires fact { times % 16 ≡ 0 → ⊥ }
    ensures { ChildOf kind left path lowered.centre lowered.axis number result }
{
    let step = steps::branch(kind, lowered.centre, lowered.axis, number);
    let goes_on = step.kind;
    let on = moved(path, times % 16, step.raises as u64, step.adds);
    let below = left - step.falls;
    Child {
        kind: goes_on,
        left: below,
        path: on,
    }
}

// Takes all terms below a state.
#[cycle(below_branch_node)]
pub(crate) fn node(out: &mut [u8], sink: &mut [u64; SINK], kind: Kind, left: u64, path: Path)
    requires { NodeMay kind left path (sink_of sink.old out.old) }
    ensures { Took (sink_of sink.old out.old) (terms_below kind left path) (sink_of sink.new out.new) }
{
    if left == 0 {
        emit(out, sink, path);
        return;
    }
    if let Some(lowered) = choose(kind, left) {
        let times = steps::multipliers(kind, left, lowered.centre, lowered.axis);
        branch(out, sink, kind, left, path, lowered, times, 0);
    }
}

// Takes all terms below a child. Most have no order left and are one term, which takes no call of `node`.
#[cycle(below_branch_node)]
fn below(out: &mut [u8], sink: &mut [u64; SINK], child: Child)
    requires { NodeMay child.kind child.left child.path (sink_of sink.old out.old) }
    ensures { Took (sink_of sink.old out.old) (terms_below child.kind child.left child.path) (sink_of sink.new out.new) }
{
    let kind = child.kind;
    let path = child.path;
    if child.left == 0 {
        emit(out, sink, path);
        return;
    }
    node(out, sink, kind, child.left, path);
}

// Takes all terms below a state from a branch number on. `times` holds the multipliers of the branches left.
#[cycle(below_branch_node)]
fn branch(
    out: &mut [u8],
    sink: &mut [u64; SINK],
    kind: Kind,
    left: u64,
    path: Path,
    lowered: Lowered,
    times: u64,
    number: u8,
)
    requires { BranchMay kind left path lowered.centre lowered.axis times number (sink_of sink.old out.old) }
    ensures { Took (sink_of sink.old out.old) (terms_from kind left path lowered.centre lowered.axis number) (sink_of sink.new out.new) }
{
    if times == 0 {
        return;
    }
    if times % 16 == 0 {
        branch(out, sink, kind, left, path, lowered, times / 16, number + 1);
        return;
    }
    let next = child(kind, left, path, lowered, times, number);
    below(out, sink, next);
    let rest = times / 16;
    if rest == 0 {
        return;
    }
    branch(out, sink, kind, left, path, lowered, rest, number + 1);
}
