// The expansion of a request: every complete history once, in dictionary order, as a roll of form 1 or form 2.
#![tactic(auto)]

mod further;
mod header;
mod holding;
mod matching;
mod measure;
mod request;
mod sink;
mod size;
mod terms;
mod walk;

ghost use Rattle.std.specs.Prelude.{◌<◌};
ghost use Rattle.expansion.specs.Expanding.{FormTold, ExpandTold, Expand2Told};
ghost use Rattle.expansion.specs.inner.Requests.{roll_in, KnownTold, RequestMay, SizedMay};
ghost use Rattle.expansion.specs.inner.Sinks.{size2};

pub use holding::{against, against2};
use kind::{Kind, Refusal};
pub use matching::Against;
pub use request::{sum_of, too_high, unused_set};
pub use size::roll_size;
use steps::{Axis, CentreName};

// A term on its way: its prefactors stand in two words, five bits each, the last lowest; the first twelve move to `high`
// when there are more (D-64).
#[derive(Clone, Copy)]
struct Path {
    scale: u64,
    boys: u64,
    count: u64,
    low: u64,
    high: u64,
}

// The words of a sink.
const SINK: usize = 5;

// A centre and an axis that are lowered.
#[derive(Clone, Copy)]
struct Lowered {
    centre: CentreName,
    axis: Axis,
}

// A state that a branch leads to.
#[derive(Clone, Copy)]
struct Child {
    kind: Kind,
    left: u64,
    path: Path,
}

// A roll's length and its term count.
#[derive(Clone, Copy, Debug, PartialEq, Eq)]
pub struct Expanded {
    pub length: usize,
    pub terms: u32,
}

// Writes the roll of a request that was measured, where it fits (D-44).
fn write_sized(
    form: u64,
    kind: Kind,
    orders: [u8; Kind::ORDERS],
    left: u64,
    size: Expanded,
    out: &mut [u8],
    start: usize,
) -> Result<Expanded, Refusal>
    requires { SizedMay form kind orders left size start out.old }
    ensures { KnownTold form kind orders out.old start result out.new }
{
    let room = out.len() - start;
    if !size::fits(form, kind, orders, left, size, room) {
        return Err(Refusal::NoRoom);
    }
    let terms = size.terms;
    let length = header::put_roll(&mut out[start..], form, kind, orders, left, terms as u64);
    Ok(Expanded { length, terms })
}

// Expands a request that keeps the limits (D-66).
fn expand_within(
    form: u64,
    kind: Kind,
    orders: [u8; Kind::ORDERS],
    out: &mut [u8],
    start: usize,
) -> Result<Expanded, Refusal>
    requires form_lt_size2 { form < size2 }
    requires request_may { RequestMay kind orders start out.old }
    ensures { KnownTold form kind orders out.old start result out.new }
{
    let left = request::packed(orders);
    let size = size::sized(kind, orders, left)?;
    write_sized(form, kind, orders, left, size, out, start)
}

// Expands a request of a known kind.
fn expand_kind(
    form: u64,
    kind: Kind,
    orders: [u8; Kind::ORDERS],
    out: &mut [u8],
    start: usize,
) -> Result<Expanded, Refusal>
    requires { form < size2 }
    ensures { KnownTold form kind orders out.old start result out.new }
{
    if request::too_high(kind, orders) {
        return Err(Refusal::OrderSum);
    }
    if request::unused_set(kind, orders) {
        return Err(Refusal::UnusedOrder);
    }
    if out.len() < start {
        return Err(Refusal::StartBeyondEnd);
    }
    expand_within(form, kind, orders, out, start)
}

// Expands a request into a roll of a form.
fn expand_in(
    form: u64,
    kind: u8,
    orders: [u8; Kind::ORDERS],
    out: &mut [u8],
    start: usize,
) -> Result<Expanded, Refusal>
    requires { form < size2 }
    ensures { FormTold (roll_in form) kind orders out.old start result out.new }
{
    let known = Kind::of(kind).ok_or(Refusal::WrongKind)?;
    expand_kind(form, known, orders, out, start)
}

// Expands a request into a roll that begins at `start` (D-1, D-65).
pub fn expand(
    kind: u8,
    orders: [u8; Kind::ORDERS],
    out: &mut [u8],
    start: usize,
) -> Result<Expanded, Refusal>
    ensures { ExpandTold kind orders out.old start result out.new }
{
    expand_in(sink::FORM1, kind, orders, out, start)
}

// Expands a request into a form 2 roll that begins at `start`.
pub fn expand2(
    kind: u8,
    orders: [u8; Kind::ORDERS],
    out: &mut [u8],
    start: usize,
) -> Result<Expanded, Refusal>
    ensures { Expand2Told kind orders out.old start result out.new }
{
    expand_in(sink::FORM2, kind, orders, out, start)
}
