// The functions that a host calls, under their C names: each calls the library's and promises the same. include/xewumbal.h declares them.
#![tactic(auto)]

ghost use Rattle.std.specs.Prelude.{◌≡◌};
ghost use Rattle.xewumbal.specs.Answers.{ExpandCallTold, Expand2CallTold, ListCallTold, ToForm2CallTold, ToForm1CallTold, SalvageCallTold, GroupedCallTold, JkCallTold};
ghost use Rattle.xewumbal.specs.Answers.{measure_answer, shell2_answer, shell4_answer, open_answer, check_answer, next_answer, open2_answer, check2_answer, next2_answer, compare_answer, compare_next_answer};
ghost use Rattle.xewumbal.specs.Answers.{scale_total_answer, roll_total_answer, prefactors_answer, evaluate_answer, nuclear_answer, contracted_answer, grouped_term_answer, root_answer};
ghost use Rattle.xewumbal.specs.Commas.{ExportCallTold, ImportCallTold};
ghost use Rattle.xewumbal.specs.Small.{confirm_answer, small_check_answer, SmallExpandCallTold};
ghost use Rattle.xewumbal.specs.Version.{version};

use kind::Kind;
use xewumbal::{
    xew_centre, xew_compared, xew_component, xew_contraction, xew_cursor, xew_cursor2,
    xew_imported, xew_met, xew_moved, xew_nuclei, xew_opened, xew_opened2, xew_pair, xew_restored,
    xew_rooted, xew_salvaged, xew_scales, xew_step, xew_step2, xew_table, xew_text, xew_total,
    xew_value, xew_written,
};

#[unsafe(no_mangle)]
pub extern "C" fn xew_version() -> u32
    ensures { result ≡ version }
{
    xewumbal::xew_version()
}

#[unsafe(no_mangle)]
pub extern "C" fn xew_expand(
    kind: u8,
    orders: &[u8; Kind::ORDERS],
    out: &mut [u8],
    start: usize,
) -> xew_written
    ensures { ExpandCallTold kind orders.now out.old start result out.new }
{
    xewumbal::xew_expand(kind, orders, out, start)
}

#[unsafe(no_mangle)]
pub extern "C" fn xew_measure(kind: u8, orders: &[u8; Kind::ORDERS]) -> xew_written
    ensures { result ≡ measure_answer kind orders.now }
{
    xewumbal::xew_measure(kind, orders)
}

#[unsafe(no_mangle)]
pub extern "C" fn xew_expand2(
    kind: u8,
    orders: &[u8; Kind::ORDERS],
    out: &mut [u8],
    start: usize,
) -> xew_written
    ensures { Expand2CallTold kind orders.now out.old start result out.new }
{
    xewumbal::xew_expand2(kind, orders, out, start)
}

#[unsafe(no_mangle)]
pub extern "C" fn xew_shell_list(order: u8, out: &mut [u8], start: usize) -> xew_written
    ensures { ListCallTold order out.old start result out.new }
{
    xewumbal::xew_shell_list(order, out, start)
}

#[unsafe(no_mangle)]
pub extern "C" fn xew_shell2(a: u8, b: u8, number: u32) -> xew_component
    ensures { result ≡ shell2_answer a b number }
{
    xewumbal::xew_shell2(a, b, number)
}

#[unsafe(no_mangle)]
pub extern "C" fn xew_shell4(a: u8, b: u8, c: u8, d: u8, number: u32) -> xew_component
    ensures { result ≡ shell4_answer a b c d number }
{
    xewumbal::xew_shell4(a, b, c, d, number)
}

#[unsafe(no_mangle)]
pub extern "C" fn xew_open(roll: &[u8]) -> xew_opened
    ensures { result ≡ open_answer roll.now }
{
    xewumbal::xew_open(roll)
}

#[unsafe(no_mangle)]
pub extern "C" fn xew_check(roll: &[u8]) -> xew_opened
    ensures { result ≡ check_answer roll.now }
{
    xewumbal::xew_check(roll)
}

#[unsafe(no_mangle)]
pub extern "C" fn xew_next(cursor: xew_cursor, roll: &[u8]) -> xew_step
    ensures { result ≡ next_answer cursor roll.now }
{
    xewumbal::xew_next(cursor, roll)
}

#[unsafe(no_mangle)]
pub extern "C" fn xew_open2(roll: &[u8]) -> xew_opened2
    ensures { result ≡ open2_answer roll.now }
{
    xewumbal::xew_open2(roll)
}

#[unsafe(no_mangle)]
pub extern "C" fn xew_check2(roll: &[u8]) -> xew_opened2
    ensures { result ≡ check2_answer roll.now }
{
    xewumbal::xew_check2(roll)
}

#[unsafe(no_mangle)]
pub extern "C" fn xew_next2(cursor: xew_cursor2, roll: &[u8]) -> xew_step2
    ensures { result ≡ next2_answer cursor roll.now }
{
    xewumbal::xew_next2(cursor, roll)
}

#[unsafe(no_mangle)]
pub extern "C" fn xew_to_form2(roll: &[u8], out: &mut [u8], start: usize) -> xew_moved
    ensures { ToForm2CallTold roll.now out.old start result out.new }
{
    xewumbal::xew_to_form2(roll, out, start)
}

#[unsafe(no_mangle)]
pub extern "C" fn xew_to_form1(roll: &[u8], out: &mut [u8], start: usize) -> xew_moved
    ensures { ToForm1CallTold roll.now out.old start result out.new }
{
    xewumbal::xew_to_form1(roll, out, start)
}

#[unsafe(no_mangle)]
pub extern "C" fn xew_salvage(roll: &[u8], out: &mut [u8], start: usize) -> xew_salvaged
    ensures { SalvageCallTold roll.now out.old start result out.new }
{
    xewumbal::xew_salvage(roll, out, start)
}

#[unsafe(no_mangle)]
pub extern "C" fn xew_confirm(roll: &[u8]) -> xew_opened
    ensures { result ≡ confirm_answer roll.now }
{
    xewumbal::xew_confirm(roll)
}

#[unsafe(no_mangle)]
pub extern "C" fn xew_small_check(roll: &[u8]) -> xew_opened
    ensures { result ≡ small_check_answer roll.now }
{
    xewumbal::xew_small_check(roll)
}

#[unsafe(no_mangle)]
pub extern "C" fn xew_small_expand(
    kind: u8,
    orders: &[u8; Kind::ORDERS],
    out: &mut [u8],
    start: usize,
) -> xew_written
    ensures { SmallExpandCallTold kind orders.now out.old start result out.new }
{
    xewumbal::xew_small_expand(kind, orders, out, start)
}

#[unsafe(no_mangle)]
pub extern "C" fn xew_compare(left: &[u8], right: &[u8]) -> xew_compared
    ensures { result ≡ compare_answer left.now right.now }
{
    xewumbal::xew_compare(left, right)
}

#[unsafe(no_mangle)]
pub extern "C" fn xew_compare_next(cursor: xew_pair, left: &[u8], right: &[u8]) -> xew_met
    ensures { result ≡ compare_next_answer cursor left.now right.now }
{
    xewumbal::xew_compare_next(cursor, left, right)
}

#[unsafe(no_mangle)]
pub extern "C" fn xew_export(roll: &[u8], out: &mut [u8], start: usize) -> xew_text
    ensures { ExportCallTold roll.now out.old start result out.new }
{
    xewumbal::xew_export(roll, out, start)
}

#[unsafe(no_mangle)]
pub extern "C" fn xew_import(text: &[u8], out: &mut [u8], start: usize) -> xew_imported
    ensures { ImportCallTold text.now out.old start result out.new }
{
    xewumbal::xew_import(text, out, start)
}

#[unsafe(no_mangle)]
pub extern "C" fn xew_scale_total(kind: u8, orders: &[u8; Kind::ORDERS]) -> xew_total
    ensures { result ≡ scale_total_answer kind orders.now }
{
    xewumbal::xew_scale_total(kind, orders)
}

#[unsafe(no_mangle)]
pub extern "C" fn xew_roll_total(roll: &[u8]) -> xew_scales
    ensures { result ≡ roll_total_answer roll.now }
{
    xewumbal::xew_roll_total(roll)
}

#[unsafe(no_mangle)]
pub extern "C" fn xew_prefactors(
    kind: u8,
    a: xew_centre,
    b: xew_centre,
    c: xew_centre,
    d: xew_centre,
) -> xew_table
    ensures { result ≡ prefactors_answer kind a b c d }
{
    xewumbal::xew_prefactors(kind, a, b, c, d)
}

#[unsafe(no_mangle)]
pub extern "C" fn xew_root(x: f64) -> xew_rooted
    ensures { result ≡ root_answer x }
{
    xewumbal::xew_root(x)
}

#[unsafe(no_mangle)]
pub extern "C" fn xew_evaluate(
    roll: &[u8],
    a: xew_centre,
    b: xew_centre,
    c: xew_centre,
    d: xew_centre,
    aux: f64,
    boys: &[f64],
) -> xew_value
    ensures { result ≡ evaluate_answer roll.now a b c d aux boys.now }
{
    xewumbal::xew_evaluate(roll, a, b, c, d, aux, boys)
}

#[unsafe(no_mangle)]
pub extern "C" fn xew_nuclear(
    roll: &[u8],
    a: xew_centre,
    b: xew_centre,
    nuclei: xew_nuclei,
    aux: f64,
    boys: &[f64],
) -> xew_value
    ensures { result ≡ nuclear_answer roll.now a b nuclei aux boys.now }
{
    xewumbal::xew_nuclear(roll, a, b, nuclei, aux, boys)
}

#[unsafe(no_mangle)]
pub extern "C" fn xew_contracted(
    roll: &[u8],
    left: xew_contraction,
    right: xew_contraction,
    host: &[f64],
) -> xew_value
    ensures { result ≡ contracted_answer roll.now left right host.now }
{
    xewumbal::xew_contracted(roll, left, right, host)
}

#[unsafe(no_mangle)]
pub extern "C" fn xew_evaluate_grouped(
    roll: &[u8],
    a: xew_centre,
    b: xew_centre,
    c: xew_centre,
    d: xew_centre,
    aux: f64,
    boys: &[f64],
    buffer: &mut [u8],
) -> xew_value
    ensures { GroupedCallTold roll.now a b c d aux boys.now buffer.old result buffer.new }
{
    xewumbal::xew_evaluate_grouped(roll, a, b, c, d, aux, boys, buffer)
}

#[unsafe(no_mangle)]
pub extern "C" fn xew_grouped_term(grouping: &[u8], l: u8, terms: u32, number: u32) -> xew_restored
    ensures { result ≡ grouped_term_answer grouping.now l terms number }
{
    xewumbal::xew_grouped_term(grouping, l, terms, number)
}

#[unsafe(no_mangle)]
pub extern "C" fn xew_jk(n: usize, i: &[f64], d: &[f64], j: &mut [f64], k: &mut [f64]) -> u8
    ensures { JkCallTold n i.now d.now j.old k.old result j.new k.new }
{
    xewumbal::xew_jk(n, i, d, j, k)
}
