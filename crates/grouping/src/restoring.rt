// A grouping's terms by number, so that history order can be restored. The grouping may be anything.
ghost use Rattle.std.specs.Prelude.{◌≤◌, ◌≡◌};
ghost use Rattle.kind.specs.Kinds.{most_l};
ghost use Rattle.kind.specs.declared.Kind.TheVariants.{Coulomb};
ghost use Rattle.kind.specs.declared.refusals.Refusal.TheVariants.{BadRoll};
ghost use Rattle.roll.specs.Field.{fault};
ghost use Rattle.grouping.specs.Restoring.{entry_at, none_passed, passed_on, behind, is_second, ended, next_at, restored_from, restored_of};
ghost use Rattle.grouping.specs.inner.Held.{held_entry};

use kind::{Fault, Kind, Refusal};
use roll::{Cursor, within};
use term::Term;

// An entry: its number, its term, and the place after it.
#[derive(Clone, Copy)]
struct ReadEntry {
    number: u32,
    term: Term,
    end: usize,
}

// What the entries so far leave: the last one's Boys order and number, and the term with the number asked once it came up.
#[derive(Clone, Copy)]
struct Passed {
    boys: u8,
    number: u32,
    found: Option<Term>,
}

// What is no grouping, at a place.
fn no_grouping(place: usize) -> Fault
    ensures { result ≡ fault BadRoll place }
{
    Fault {
        refusal: Refusal::BadRoll,
        place,
    }
}

// An entry: its number, then its term.
fn entry_at(grouping: &[u8], l: u8, terms: u32, at: usize) -> Result<ReadEntry, Fault>
    requires { l ≤ most_l Coulomb }
    ensures { result ≡ held_entry (entry_at grouping.now l terms at) }
{
    let (number, place) = within(grouping, at, 1, terms)?;
    let cursor = Cursor {
        place,
        left: 1,
        kind: Kind::Coulomb.number(),
        l,
    };
    let step = cursor.next(grouping)?.unwrap();
    let term = step.term;
    Ok(ReadEntry {
        number,
        term,
        end: step.next.place,
    })
}

// An entry stands behind the one before: its Boys order is higher, or the same and its number higher.
fn is_behind(before: Passed, number: u32, boys: u8) -> bool
    ensures { result ≡ behind before number boys }
{
    before.boys < boys || before.boys == boys && before.number < number
}

// The number asked came up before.
fn is_second(before: Passed, asked: u32, number: u32) -> bool
    ensures { result ≡ is_second before asked number }
{
    before.found.is_some() && number == asked
}

// The entry at a place, behind those passed; else 7 where it begins.
fn next_at(
    grouping: &[u8],
    l: u8,
    terms: u32,
    asked: u32,
    before: Passed,
    at: usize,
) -> Result<ReadEntry, Fault>
    requires { l ≤ most_l Coulomb }
    ensures { result ≡ held_entry (next_at grouping.now l terms asked before at) }
{
    let entry = entry_at(grouping, l, terms, at)?;
    if !is_behind(before, entry.number, entry.term.boys) || is_second(before, asked, entry.number) {
        return Err(no_grouping(at));
    }
    Ok(entry)
}

// Before the first entry.
fn none_passed() -> Passed
    ensures { result ≡ none_passed }
{
    Passed {
        boys: 0,
        number: 0,
        found: None,
    }
}

// What the entries leave once a further one is passed.
fn passed_on(before: Passed, asked: u32, number: u32, term: Term) -> Passed
    ensures { result ≡ passed_on before asked number term }
{
    let found = if number == asked {
        Some(term)
    } else {
        before.found
    };
    Passed {
        boys: term.boys,
        number,
        found,
    }
}

// After all entries: the term with the number asked, or 7 where the entries end.
fn last(passed: Passed, at: usize) -> Result<Term, Fault>
    ensures { result ≡ ended passed at }
{
    match passed.found {
        Some(term) => Ok(term),
        None => Err(no_grouping(at)),
    }
}

// So many entries, one after the other.
fn restore(grouping: &[u8], l: u8, terms: u32, asked: u32) -> Result<Term, Fault>
    requires { l ≤ most_l Coulomb }
    ensures { result ≡ restored_from grouping.now l terms asked none_passed 0 terms }
{
    let mut passed = none_passed();
    let mut at = 0;
    for done in 0..terms {
        let entry = next_at(grouping, l, terms, asked, passed, at)?;
        passed = passed_on(passed, asked, entry.number, entry.term);
        at = entry.end;
    }
    last(passed, at)
}

// The term with a number, from 1 to `terms`, in a grouping of so many terms: of a roll's grouping, asked for each number in turn,
// the roll's own list. What is no grouping is refused with the first fault in reading order.
pub fn grouped_term(grouping: &[u8], l: u8, terms: u32, number: u32) -> Result<Term, Fault>
    ensures { result ≡ restored_of grouping.now l terms number }
{
    if Kind::Coulomb.most_l() < l as usize {
        return Err(Fault::from(Refusal::BadRoll));
    }
    if number == 0 || terms < number {
        return Err(Fault::from(Refusal::ComponentNumber));
    }
    restore(grouping, l, terms, number)
}
