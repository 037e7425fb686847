// The walk that compares: it takes the same turns as the one that writes, and holds each term against the bytes that stand at its place.
// Its state is six words: the form, the place after what was the same, whether a byte differed, and the prefactors of the term before as a path holds them.
ghost use Rattle.std.specs.Prelude.{◌≡◌, [], ◌∷◌, ◌+◌, ◌^◌, ◌<◌, ◌≤◌, length};
ghost use Rattle.expansion.specs.inner.View.{path_prefactors, path_term, Emitted};
ghost use Rattle.expansion.specs.inner.Sinks.{form_bytes};
ghost use Rattle.expansion.specs.inner.Walking.{terms_below, terms_from};
ghost use Rattle.expansion.specs.inner.Matching.{match_of, differing, written_in, BesideTold, Matched, TermApt, NodeApt, BranchApt};

use crate::sink::{FORM1, FORM2, emit};
use crate::walk::{child, choose};
use crate::{Child, Lowered, Path};
use form2::alike;
use kind::Kind;

// Length and term count of a roll that is the same, or the place of the first byte that differs.
#[derive(Clone, Copy, Debug, PartialEq, Eq)]
pub enum Against {
    Same(usize, u32),
    Differs(usize),
}

// The words of a state.
pub(crate) const MATCH: usize = 6;

// How many bytes are the same, of how many.
#[derive(Clone, Copy)]
struct Beside {
    same: usize,
    all: usize,
}

// A term has no more bytes.
const TERM: usize = 32;

// 0 where all bytes are the same.
fn differing(same: usize, all: usize) -> u64
    ensures { result ≡ differing same all }
{
    if same == all {
        return 0;
    }
    1
}

// What a sink does that writes in a form.
fn written(form: u64) -> u64
    ensures { result ≡ written_in form }
{
    if form == FORM1 {
        return FORM1;
    }
    FORM2
}

// Writes a term at the front of a buffer, in a form and behind a term whose prefactors are held as a path holds them.
fn put_alone(out: &mut [u8], form: u64, count: u64, low: u64, high: u64, path: Path) -> usize
    requires { (path.scale < 2 ^ 32) × (path.boys < 128) × (path.count < 25) × (count < 25) × (32 ≤ length out.old) }
    ensures { Emitted (form_bytes form (path_prefactors count low high) (path_term path)) 0 out.old result out.new }
{
    let mut sink = [written(form), 0, count, low, high];
    emit(out, &mut sink, path);
    sink[1] as usize
}

// The place after so many bytes more.
fn further_on(roll: &[u8], at: usize, same: usize) -> u64
    requires { at + same ≤ length roll.now }
    ensures { result ≡ at + same }
{
    (at + same) as u64
}

// How many of a term's bytes stand from a place on, and how many it has.
fn beside_term(
    roll: &[u8],
    at: usize,
    form: u64,
    count: u64,
    low: u64,
    high: u64,
    path: Path,
) -> Beside
    requires { (path.scale < 2 ^ 32) × (path.boys < 128) × (path.count < 25) × (count < 25) × (at ≤ length roll.now) }
    ensures { BesideTold roll.now at (form_bytes form (path_prefactors count low high) (path_term path)) result }
{
    let mut bytes = [0u8; TERM];
    let all = put_alone(&mut bytes, form, count, low, high, path);
    let same = alike(&roll[at..], &bytes[..all]);
    Beside { same, all }
}

// Holds a term against the bytes at the place.
fn match_term(roll: &[u8], state: &mut [u64; MATCH], path: Path)
    requires { TermApt roll.now path (match_of state.old) }
    ensures { Matched roll.now (match_of state.old) (path_term path ∷ []) (match_of state.new) }
{
    if state[2] != 0 {
        return;
    }
    let form = state[0];
    let at = state[1] as usize;
    let beside = beside_term(roll, at, form, state[3], state[4], state[5], path);
    let place = further_on(roll, at, beside.same);
    let differs = differing(beside.same, beside.all);
    *state = [form, place, differs, path.count, path.low, path.high];
}

// Compares all terms below a state.
#[cycle(match_below_match_branch_match_node)]
pub(crate) fn match_node(roll: &[u8], state: &mut [u64; MATCH], kind: Kind, left: u64, path: Path)
    requires { NodeApt roll.now kind left path (match_of state.old) }
    ensures { Matched roll.now (match_of state.old) (terms_below kind left path) (match_of state.new) }
{
    if left == 0 {
        match_term(roll, state, path);
        return;
    }
    if let Some(lowered) = choose(kind, left) {
        let times = steps::multipliers(kind, left, lowered.centre, lowered.axis);
        match_branch(roll, state, kind, left, path, lowered, times, 0);
    }
}

// Compares all terms below a child. Most have no order left and are one term.
#[cycle(match_below_match_branch_match_node)]
fn match_below(roll: &[u8], state: &mut [u64; MATCH], child: Child)
    requires { NodeApt roll.now child.kind child.left child.path (match_of state.old) }
    ensures { Matched roll.now (match_of state.old) (terms_below child.kind child.left child.path) (match_of state.new) }
{
    let kind = child.kind;
    let path = child.path;
    if child.left == 0 {
        match_term(roll, state, path);
        return;
    }
    match_node(roll, state, kind, child.left, path);
}

// Compares all terms below a state from a branch number on, and none once a byte differed.
#[cycle(match_below_match_branch_match_node)]
fn match_branch(
    roll: &[u8],
    state: &mut [u64; MATCH],
    kind: Kind,
    left: u64,
    path: Path,
    lowered: Lowered,
    times: u64,
    number: u8,
)
    requires { BranchApt roll.now kind left path lowered.centre lowered.axis times number (match_of state.old) }
    ensures { Matched roll.now (match_of state.old) (terms_from kind left path lowered.centre lowered.axis number) (match_of state.new) }
{
    if times == 0 {
        return;
    }
    if times % 16 == 0 {
        match_branch(
            roll,
            state,
            kind,
            left,
            path,
            lowered,
            times / 16,
            number + 1,
        );
        return;
    }
    let next = child(kind, left, path, lowered, times, number);
    match_below(roll, state, next);
    let rest = times / 16;
    if rest == 0 {
        return;
    }
    if state[2] != 0 {
        return;
    }
    match_branch(roll, state, kind, left, path, lowered, rest, number + 1);
}
