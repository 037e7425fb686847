// Shell lists: the triples of a shell as bytes, and a pair's or a quadruple's component by its number.
#![tactic(auto)]

ghost use Rattle.std.specs.Prelude.{◌+◌, ◌*◌, ◌-◌, ◌≤◌, ◌<◌, ◌≡◌, ◌||◌, ltb, length, get_or};
ghost use mathlib.Core.List.{[], ◌++◌, flatten};
ghost use Rattle.std.proofs.lemmas.List.Edits.{sets};
ghost use Rattle.kind.specs.Limits.{most_order};
ghost use Rattle.shell.specs.Shells.{triples, shell_bytes, ListTold, pairs, quadruples, component, shell2_of, shell4_of};
ghost use Rattle.shell.specs.inner.Rows.{triple_orders, pair_orders, row_of, row_orders, most_triples, Counts};

use kind::{Kind, Refusal};

// The list's length in bytes and its triples (D-31).
#[derive(Clone, Copy, Debug, PartialEq, Eq)]
pub struct Listed {
    pub length: usize,
    pub triples: u32,
}

#[derive(Clone, Copy)]
struct Triple {
    x: u8,
    y: u8,
    z: u8,
}

#[derive(Clone, Copy)]
struct Pair {
    first: Triple,
    second: Triple,
}

// How many triples a shell has.
fn count(m: u8) -> usize
    requires { m ≤ most_order }
    ensures { Counts (triples m) most_triples result }
{
    let m = m as usize;
    (m + 1) * (m + 2) / 2
}

// How many pairs two shells have.
fn pair_count(a: u8, b: u8) -> usize
    requires { (a ≤ most_order) × (b ≤ most_order) }
    ensures { Counts (pairs a b) (most_triples * most_triples) result }
{
    count(a) * count(b)
}

// The triple of a row with this z: along row r x is m - r, and z goes up from 0 to r.
fn in_row(m: u8, row: usize, z: usize) -> Triple
    requires { (row ≤ m) × (z ≤ row) }
    ensures { triple_orders result ≡ row_orders m row z }
{
    Triple {
        x: m - row as u8,
        y: (row - z) as u8,
        z: z as u8,
    }
}

// The triple at a number of a shell's list: in the last row that does not begin after it. Row r begins at r(r + 1)/2.
fn triple_at(m: u8, number: usize) -> Triple
    requires { number < length (triples m) }
    ensures { triple_orders result ≡ get_or (triples m) number [] }
{
    let mut row = m as usize;
    let mut begins = row * (row + 1) / 2;
    while number < begins {
        begins -= row;
        row -= 1;
    }
    in_row(m, row, number - begins)
}

// The pair at a number: the second shell runs fastest.
fn pair_at(a: u8, b: u8, number: usize) -> Pair
    requires { (b ≤ most_order) × (number < length (pairs a b)) }
    ensures { pair_orders result ≡ get_or (pairs a b) number [] }
{
    let fastest = count(b);
    let first = triple_at(a, number / fastest);
    let second = triple_at(b, number % fastest);
    Pair { first, second }
}

// The orders of a component stand by shell.
fn component_of(first: Pair, second: Pair) -> [u8; Kind::ORDERS]
    ensures { result ≡ pair_orders first ++ pair_orders second }
{
    let p = first.first;
    let q = first.second;
    let r = second.first;
    let s = second.second;
    [p.x, p.y, p.z, q.x, q.y, q.z, r.x, r.y, r.z, s.x, s.y, s.z]
}

// The component at a number of four shells: the second pair runs fastest (D-29).
fn quadruple_at(a: u8, b: u8, c: u8, d: u8, number: usize) -> [u8; Kind::ORDERS]
    requires { (b ≤ most_order) × (c ≤ most_order) × (d ≤ most_order) × (number < length (quadruples a b c d)) }
    ensures { result ≡ get_or (quadruples a b c d) number [] }
{
    let fastest = pair_count(c, d);
    let first = pair_at(a, b, number / fastest);
    let second = pair_at(c, d, number % fastest);
    component_of(first, second)
}

fn numbered(a: u8, b: u8, c: u8, d: u8, number: usize) -> Result<[u8; Kind::ORDERS], Refusal>
    requires { (a ≤ most_order) × (b ≤ most_order) × (c ≤ most_order) × (d ≤ most_order) }
    ensures { result ≡ component (quadruples a b c d) number }
{
    if pair_count(a, b) * pair_count(c, d) <= number {
        return Err(Refusal::ComponentNumber);
    }
    Ok(quadruple_at(a, b, c, d, number))
}

pub fn get_shell4(a: u8, b: u8, c: u8, d: u8, number: u32) -> Result<[u8; Kind::ORDERS], Refusal>
    ensures { result ≡ shell4_of a b c d number }
{
    if too_high(a, b) || too_high(c, d) {
        return Err(Refusal::OrderSum);
    }
    numbered(a, b, c, d, number as usize)
}

// A pair is a quadruple whose last two shells have one triple each, 0 0 0 (D-30): zeros stand after its six orders.
pub fn get_shell2(a: u8, b: u8, number: u32) -> Result<[u8; Kind::ORDERS], Refusal>
    ensures { result ≡ shell2_of a b number }
{
    get_shell4(a, b, 0, 0, number)
}

fn too_high(a: u8, b: u8) -> bool
    ensures { result ≡ (ltb most_order a || ltb most_order b) }
{
    Kind::MOST_ORDER < a as usize || Kind::MOST_ORDER < b as usize
}

fn put(out: &mut [u8], at: usize, t: Triple)
    requires { at + 3 ≤ length out.old }
    ensures { out.new ≡ sets out.old at (triple_orders t) }
{
    out[at..at + 3].copy_from_slice(&[t.x, t.y, t.z]);
}

// A row of a shell's list from a place on.
fn put_row(out: &mut [u8], at: usize, m: u8, row: usize)
    requires { (row ≤ m) × (at + 3 * (row + 1) ≤ length out.old) }
    ensures { out.new ≡ sets out.old at (flatten (row_of m (m - row))) }
{
    for z in 0..=row {
        put(out, at + 3 * z, in_row(m, row, z));
    }
}

// The whole list from the front of what is lent, row after row.
fn put_list(out: &mut [u8], m: u8)
    requires { length (shell_bytes m) ≤ length out.old }
    ensures { out.new ≡ sets out.old 0 (shell_bytes m) }
{
    let mut at = 0;
    for row in 0..=m as usize {
        put_row(out, at, m, row);
        at += 3 * (row + 1);
    }
}

pub fn get_ijk_list(m: u8, out: &mut [u8], start: usize) -> Result<Listed, Refusal>
    ensures { ListTold m out.old start result out.new }
{
    if Kind::MOST_ORDER < m as usize {
        return Err(Refusal::OrderSum);
    }
    if out.len() < start {
        return Err(Refusal::StartBeyondEnd);
    }
    let triples = count(m);
    if out.len() - start < 3 * triples {
        return Err(Refusal::NoRoom);
    }
    put_list(&mut out[start..], m);
    Ok(Listed {
        length: 3 * triples,
        triples: triples as u32,
    })
}
