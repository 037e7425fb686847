// The exported functions, under their C names. Each lends what it gets to the function below it, and turns the answer
// into a plain struct: refusal 0 is success, and zeros stand beside a refusal. include/xewumbal.h is for the host (D-76).
#![tactic(auto)]

mod answers;
mod commas;

ghost use Rattle.std.specs.Prelude.{◌≡◌};
ghost use Rattle.xewumbal.specs.Answers.{ExpandCallTold, Expand2CallTold, ListCallTold, ToForm2CallTold, ToForm1CallTold, SalvageCallTold, GroupedCallTold, JkCallTold};
ghost use Rattle.xewumbal.specs.Answers.{measure_answer, shell2_answer, shell4_answer, open_answer, check_answer, next_answer, open2_answer, check2_answer, next2_answer, compare_answer, compare_next_answer};
ghost use Rattle.xewumbal.specs.Answers.{scale_total_answer, roll_total_answer, prefactors_answer, evaluate_answer, nuclear_answer, contracted_answer, grouped_term_answer, root_answer};
ghost use Rattle.xewumbal.specs.Commas.{ExportCallTold, ImportCallTold};
ghost use Rattle.xewumbal.specs.Small.{confirm_answer, small_check_answer, SmallExpandCallTold};
ghost use Rattle.xewumbal.specs.Version.{version};

use kind::Kind;

// Raised when a struct, a meaning or an answer changes. The header and the binding have the same (D-85).
pub const VERSION: u32 = 2;

// Centres and lists of them go in as the crates below have them (D-109).
pub type xew_centre = geometry::Centre;

pub type xew_nuclei = nuclei::Nuclei;

pub type xew_primitive = contracting::Primitive;

pub type xew_contraction = contracting::Contracted;

#[repr(C)]
#[derive(Clone, Copy)]
pub struct xew_written {
    pub length: usize,
    pub terms: u32,
    pub refusal: u8,
}

#[repr(C)]
#[derive(Clone, Copy)]
pub struct xew_value {
    pub value: f64,
    pub place: usize,
    pub refusal: u8,
}

#[repr(C)]
#[derive(Clone, Copy)]
pub struct xew_rooted {
    pub root: f64,
    pub refusal: u8,
}

#[repr(C)]
#[derive(Clone, Copy)]
pub struct xew_component {
    pub orders: [u8; Kind::ORDERS],
    pub refusal: u8,
}

#[repr(C)]
#[derive(Clone, Copy)]
pub struct xew_table {
    pub entries: [f64; Kind::TABLE],
    pub refusal: u8,
}

#[repr(C)]
#[derive(Clone, Copy)]
pub struct xew_cursor {
    pub place: usize,
    pub left: u32,
    pub kind: u8,
    pub l: u8,
}

#[repr(C)]
#[derive(Clone, Copy)]
pub struct xew_opened {
    pub cursor: xew_cursor,
    pub place: usize,
    pub orders: [u8; Kind::ORDERS],
    pub refusal: u8,
}

// `found` is 0 for a refusal, 1 for a term, 2 for the end (D-78).
#[repr(C)]
#[derive(Clone, Copy)]
pub struct xew_step {
    pub next: xew_cursor,
    pub place: usize,
    pub scale: u32,
    pub boys: u8,
    pub count: u8,
    pub prefactors: [u8; Kind::PREFACTORS],
    pub found: u8,
    pub refusal: u8,
}

// `earlier` has the prefactors of the term before in its first `count` places.
#[repr(C)]
#[derive(Clone, Copy)]
pub struct xew_cursor2 {
    pub cursor: xew_cursor,
    pub count: u8,
    pub earlier: [u8; Kind::PREFACTORS],
}

#[repr(C)]
#[derive(Clone, Copy)]
pub struct xew_opened2 {
    pub cursor: xew_cursor2,
    pub place: usize,
    pub orders: [u8; Kind::ORDERS],
    pub refusal: u8,
}

// `found` is as that of `xew_step`.
#[repr(C)]
#[derive(Clone, Copy)]
pub struct xew_step2 {
    pub next: xew_cursor2,
    pub place: usize,
    pub scale: u32,
    pub boys: u8,
    pub count: u8,
    pub prefactors: [u8; Kind::PREFACTORS],
    pub found: u8,
    pub refusal: u8,
}

#[repr(C)]
#[derive(Clone, Copy)]
pub struct xew_restored {
    pub place: usize,
    pub scale: u32,
    pub boys: u8,
    pub count: u8,
    pub prefactors: [u8; Kind::PREFACTORS],
    pub refusal: u8,
}

#[repr(C)]
#[derive(Clone, Copy)]
pub struct xew_moved {
    pub length: usize,
    pub place: usize,
    pub terms: u32,
    pub refusal: u8,
}

#[repr(C)]
#[derive(Clone, Copy)]
pub struct xew_text {
    pub length: usize,
    pub place: usize,
    pub refusal: u8,
}

// `line` is counted from 1.
#[repr(C)]
#[derive(Clone, Copy)]
pub struct xew_imported {
    pub length: usize,
    pub line: u64,
    pub terms: u32,
    pub refusal: u8,
}

// `miscounted` is 1 where the stored term count is not `terms`; `after` is 0 where not every term was kept, 1 where nothing follows
// the last term, 2 where bytes do (D-100).
#[repr(C)]
#[derive(Clone, Copy)]
pub struct xew_salvaged {
    pub length: usize,
    pub place: usize,
    pub terms: u32,
    pub kept: u32,
    pub anew: u32,
    pub miscounted: u8,
    pub after: u8,
    pub refusal: u8,
}

// Where both readers of a comparison stand, and the number of the position.
#[repr(C)]
#[derive(Clone, Copy)]
pub struct xew_pair {
    pub left: xew_cursor2,
    pub right: xew_cursor2,
    pub number: u32,
}

// `kinds`, `orders` and `terms` are 1 where these differ; `side` is 1 beside a refusal of the left roll, 2 of the right one (D-103).
#[repr(C)]
#[derive(Clone, Copy)]
pub struct xew_compared {
    pub cursor: xew_pair,
    pub place: usize,
    pub differ: u32,
    pub left: [u8; Kind::ORDERS],
    pub right: [u8; Kind::ORDERS],
    pub kinds: u8,
    pub orders: u8,
    pub terms: u8,
    pub side: u8,
    pub refusal: u8,
}

#[repr(C)]
#[derive(Clone, Copy)]
pub struct xew_term {
    pub scale: u32,
    pub boys: u8,
    pub count: u8,
    pub prefactors: [u8; Kind::PREFACTORS],
}

// `found` is 0 for a refusal, 1 where both terms differ, 2 for a term of the left roll alone, 3 of the right one, 4 for the end.
#[repr(C)]
#[derive(Clone, Copy)]
pub struct xew_met {
    pub next: xew_pair,
    pub place: usize,
    pub number: u32,
    pub left: xew_term,
    pub right: xew_term,
    pub found: u8,
    pub side: u8,
    pub refusal: u8,
}

// `claimed` is 1 beside a total, 0 for a kind of which none is claimed and beside a refusal (D-90).
#[repr(C)]
#[derive(Clone, Copy)]
pub struct xew_total {
    pub total: u64,
    pub claimed: u8,
    pub refusal: u8,
}

#[repr(C)]
#[derive(Clone, Copy)]
pub struct xew_scales {
    pub total: u64,
    pub place: usize,
    pub refusal: u8,
}

#[unsafe(no_mangle)]
pub extern "C" fn xew_version() -> u32
    ensures { result ≡ version }
{
    VERSION
}

#[unsafe(no_mangle)]
pub extern "C" fn xew_expand(
    kind: u8,
    orders: &[u8; Kind::ORDERS],
    out: &mut [u8],
    start: usize,
) -> xew_written
    ensures { ExpandCallTold kind orders.now out.old start result out.new }
{
    answers::expanded(expansion::expand(kind, *orders, out, start))
}

#[unsafe(no_mangle)]
pub extern "C" fn xew_measure(kind: u8, orders: &[u8; Kind::ORDERS]) -> xew_written
    ensures { result ≡ measure_answer kind orders.now }
{
    answers::expanded(expansion::roll_size(kind, *orders))
}

#[unsafe(no_mangle)]
pub extern "C" fn xew_expand2(
    kind: u8,
    orders: &[u8; Kind::ORDERS],
    out: &mut [u8],
    start: usize,
) -> xew_written
    ensures { Expand2CallTold kind orders.now out.old start result out.new }
{
    answers::expanded(expansion::expand2(kind, *orders, out, start))
}

#[unsafe(no_mangle)]
pub extern "C" fn xew_shell_list(order: u8, out: &mut [u8], start: usize) -> xew_written
    ensures { ListCallTold order out.old start result out.new }
{
    answers::listed(shell::get_ijk_list(order, out, start))
}

#[unsafe(no_mangle)]
pub extern "C" fn xew_shell2(a: u8, b: u8, number: u32) -> xew_component
    ensures { result ≡ shell2_answer a b number }
{
    answers::component(shell::get_shell2(a, b, number))
}

#[unsafe(no_mangle)]
pub extern "C" fn xew_shell4(a: u8, b: u8, c: u8, d: u8, number: u32) -> xew_component
    ensures { result ≡ shell4_answer a b c d number }
{
    answers::component(shell::get_shell4(a, b, c, d, number))
}

#[unsafe(no_mangle)]
pub extern "C" fn xew_open(roll: &[u8]) -> xew_opened
    ensures { result ≡ open_answer roll.now }
{
    answers::opened(roll::open(roll))
}

#[unsafe(no_mangle)]
pub extern "C" fn xew_check(roll: &[u8]) -> xew_opened
    ensures { result ≡ check_answer roll.now }
{
    answers::opened(roll::check(roll))
}

#[unsafe(no_mangle)]
pub extern "C" fn xew_next(cursor: xew_cursor, roll: &[u8]) -> xew_step
    ensures { result ≡ next_answer cursor roll.now }
{
    answers::step(answers::cursor_in(cursor).next(roll))
}

#[unsafe(no_mangle)]
pub extern "C" fn xew_open2(roll: &[u8]) -> xew_opened2
    ensures { result ≡ open2_answer roll.now }
{
    answers::opened2(form2::open2(roll))
}

#[unsafe(no_mangle)]
pub extern "C" fn xew_check2(roll: &[u8]) -> xew_opened2
    ensures { result ≡ check2_answer roll.now }
{
    answers::opened2(form2::check2(roll))
}

#[unsafe(no_mangle)]
pub extern "C" fn xew_next2(cursor: xew_cursor2, roll: &[u8]) -> xew_step2
    ensures { result ≡ next2_answer cursor roll.now }
{
    answers::step2(answers::cursor2_in(cursor).next(roll))
}

#[unsafe(no_mangle)]
pub extern "C" fn xew_to_form2(roll: &[u8], out: &mut [u8], start: usize) -> xew_moved
    ensures { ToForm2CallTold roll.now out.old start result out.new }
{
    answers::moved(form2::to_form2(roll, out, start))
}

#[unsafe(no_mangle)]
pub extern "C" fn xew_to_form1(roll: &[u8], out: &mut [u8], start: usize) -> xew_moved
    ensures { ToForm1CallTold roll.now out.old start result out.new }
{
    answers::moved(form2::to_form1(roll, out, start))
}

#[unsafe(no_mangle)]
pub extern "C" fn xew_salvage(roll: &[u8], out: &mut [u8], start: usize) -> xew_salvaged
    ensures { SalvageCallTold roll.now out.old start result out.new }
{
    answers::salvaged(salvaging::salvage(roll, out, start))
}

#[unsafe(no_mangle)]
pub extern "C" fn xew_confirm(roll: &[u8]) -> xew_opened
    ensures { result ≡ confirm_answer roll.now }
{
    answers::opened(confirming::confirm(roll))
}

#[unsafe(no_mangle)]
pub extern "C" fn xew_small_check(roll: &[u8]) -> xew_opened
    ensures { result ≡ small_check_answer roll.now }
{
    answers::opened(small::small_check(roll))
}

#[unsafe(no_mangle)]
pub extern "C" fn xew_small_expand(
    kind: u8,
    orders: &[u8; Kind::ORDERS],
    out: &mut [u8],
    start: usize,
) -> xew_written
    ensures { SmallExpandCallTold kind orders.now out.old start result out.new }
{
    answers::expanded(small::small_expand(kind, *orders, out, start))
}

#[unsafe(no_mangle)]
pub extern "C" fn xew_compare(left: &[u8], right: &[u8]) -> xew_compared
    ensures { result ≡ compare_answer left.now right.now }
{
    answers::compared(comparing::compare(left, right))
}

#[unsafe(no_mangle)]
pub extern "C" fn xew_compare_next(cursor: xew_pair, left: &[u8], right: &[u8]) -> xew_met
    ensures { result ≡ compare_next_answer cursor left.now right.now }
{
    answers::met(answers::pair_in(cursor).next(left, right))
}

#[unsafe(no_mangle)]
pub extern "C" fn xew_export(roll: &[u8], out: &mut [u8], start: usize) -> xew_text
    ensures { ExportCallTold roll.now out.old start result out.new }
{
    commas::exported(exporting::export(roll, out, start))
}

#[unsafe(no_mangle)]
pub extern "C" fn xew_import(text: &[u8], out: &mut [u8], start: usize) -> xew_imported
    ensures { ImportCallTold text.now out.old start result out.new }
{
    commas::imported(importing::import(text, out, start))
}

#[unsafe(no_mangle)]
pub extern "C" fn xew_scale_total(kind: u8, orders: &[u8; Kind::ORDERS]) -> xew_total
    ensures { result ≡ scale_total_answer kind orders.now }
{
    answers::total(totals::scale_total(kind, *orders))
}

#[unsafe(no_mangle)]
pub extern "C" fn xew_roll_total(roll: &[u8]) -> xew_scales
    ensures { result ≡ roll_total_answer roll.now }
{
    answers::scales(totals::roll_total(roll))
}

#[unsafe(no_mangle)]
pub extern "C" fn xew_prefactors(
    kind: u8,
    a: xew_centre,
    b: xew_centre,
    c: xew_centre,
    d: xew_centre,
) -> xew_table
    ensures { result ≡ prefactors_answer kind a b c d }
{
    answers::table(geometry::prefactors(kind, a, b, c, d))
}

#[unsafe(no_mangle)]
pub extern "C" fn xew_root(x: f64) -> xew_rooted
    ensures { result ≡ root_answer x }
{
    answers::rooted(root::root(x))
}

#[unsafe(no_mangle)]
pub extern "C" fn xew_evaluate(
    roll: &[u8],
    a: xew_centre,
    b: xew_centre,
    c: xew_centre,
    d: xew_centre,
    aux: f64,
    boys: &[f64],
) -> xew_value
    ensures { result ≡ evaluate_answer roll.now a b c d aux boys.now }
{
    answers::value(integrals::evaluate(roll, a, b, c, d, aux, boys))
}

#[unsafe(no_mangle)]
pub extern "C" fn xew_nuclear(
    roll: &[u8],
    a: xew_centre,
    b: xew_centre,
    nuclei: xew_nuclei,
    aux: f64,
    boys: &[f64],
) -> xew_value
    ensures { result ≡ nuclear_answer roll.now a b nuclei aux boys.now }
{
    answers::value(nuclei::nuclear(roll, a, b, nuclei, aux, boys))
}

#[unsafe(no_mangle)]
pub extern "C" fn xew_contracted(
    roll: &[u8],
    left: xew_contraction,
    right: xew_contraction,
    host: &[f64],
) -> xew_value
    ensures { result ≡ contracted_answer roll.now left right host.now }
{
    answers::value(contracting::element(roll, left, right, host))
}

#[unsafe(no_mangle)]
pub extern "C" fn xew_evaluate_grouped(
    roll: &[u8],
    a: xew_centre,
    b: xew_centre,
    c: xew_centre,
    d: xew_centre,
    aux: f64,
    boys: &[f64],
    buffer: &mut [u8],
) -> xew_value
    ensures { GroupedCallTold roll.now a b c d aux boys.now buffer.old result buffer.new }
{
    answers::value(grouping::evaluate_grouped(roll, a, b, c, d, aux, boys, buffer))
}

#[unsafe(no_mangle)]
pub extern "C" fn xew_grouped_term(grouping: &[u8], l: u8, terms: u32, number: u32) -> xew_restored
    ensures { result ≡ grouped_term_answer grouping.now l terms number }
{
    answers::restored(grouping::grouped_term(grouping, l, terms, number))
}

#[unsafe(no_mangle)]
pub extern "C" fn xew_jk(n: usize, i: &[f64], d: &[f64], j: &mut [f64], k: &mut [f64]) -> u8
    ensures { JkCallTold n i.now d.now j.old k.old result j.new k.new }
{
    answers::matrices(jk::jk_by_entry(n, i, d, j, k))
}
