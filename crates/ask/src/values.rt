// `eval ROLL A B C D AUX F0 F1 ..`, `grouped BUFFER` with the same, `nuclei ROLL A B N centres.. AUX F0 F1 ..`, `contracted ROLL NL primitives.. NR primitives.. NH h1 ..`
// and `table KIND A B C D`: the integral of a roll, plain, by way of a grouping buffer, over a list of nuclei and over two contracted functions, and the prefactor table of a kind;
// and `root X`.
ghost use Rattle.std.specs.Prelude.{◌≤◌};

use crate::{answers, floats, forms, questions, words};
use answers::Form;
use contracting::{Contracted, MOST_PRIMITIVES, Primitive};
use forms::Told;
use geometry::Centre;
use kind::{Fault, Kind, Refusal};
use nuclei::{MOST_NUCLEI, Nuclei};
use questions::{byte, word};
use roll::{Cursor, Opened};
use words::{Listed, NUMBERS, follow};

// The floats of a centre: its charge stands among them by its bits.
const CENTRE: usize = 5;

const PAIR: usize = 2 * CENTRE;
// Those of a primitive: its centre, its norm and its coefficient.
const PRIMITIVE: usize = CENTRE + 2;

const CENTRES: usize = 4 * CENTRE;
// The most Boys numbers that a question can have.
const MOST_BOYS: usize = 65536;

#[derive(Clone, Copy)]
struct Four {
    a: Centre,
    b: Centre,
    c: Centre,
    d: Centre,
}

// The float at a place; a question's shape sees to it that there is one.
fn at(floats: &[f64], i: usize) -> f64 {
    floats.get(i).copied().unwrap_or(0.0)
}

// The centre that stands from a place on.
fn centre_at(floats: &[f64], i: usize) -> Centre
    requires { i ≤ 4096 }
{
    Centre {
        x: at(floats, i),
        y: at(floats, i + 1),
        z: at(floats, i + 2),
        exponent: at(floats, i + 3),
        charge: word(floats::bits(at(floats, i + 4))),
    }
}

// The centre with this number, from 0 on.
fn centre(floats: &[f64], number: usize) -> Centre
    requires { number ≤ 34 }
{
    centre_at(floats, CENTRE * number)
}

fn primitive_at(floats: &[f64], i: usize) -> Primitive
    requires { i ≤ 4000 }
{
    Primitive {
        centre: centre_at(floats, i),
        norm: at(floats, i + CENTRE),
        coefficient: at(floats, i + CENTRE + 1),
    }
}

// The function whose primitives stand from a place on; in the places left stands what does not matter.
fn function_at(floats: &[f64], from: usize, count: u64) -> Contracted
    requires { from ≤ 1000 }
{
    let first = primitive_at(floats, from);
    let mut primitives = [first; MOST_PRIMITIVES];
    for i in 0..MOST_PRIMITIVES {
        primitives[i] = primitive_at(floats, from + PRIMITIVE * i);
    }
    Contracted {
        primitives,
        count: word(count),
    }
}

pub(crate) fn contracted(n: [u64; NUMBERS], roll: &[u8], floats: &[f64]) -> Told {
    let lefts = PRIMITIVE * follow(n[0], Listed::Primitives);
    let all = lefts + PRIMITIVE * follow(n[1], Listed::Primitives);
    if floats.len() < all {
        return answers::unknown();
    }
    let left = function_at(floats, 0, n[0]);
    let right = function_at(floats, lefts, n[1]);
    value_told(contracting::element(roll, left, right, &floats[all..]))
}

fn four_of(floats: &[f64]) -> Four {
    Four {
        a: centre(floats, 0),
        b: centre(floats, 1),
        c: centre(floats, 2),
        d: centre(floats, 3),
    }
}

// The nuclei behind the pair; in the places left stands what does not matter.
fn nuclei_of(floats: &[f64], count: u64) -> Nuclei {
    let first = centre(floats, 0);
    let mut centres = [first; MOST_NUCLEI];
    for i in 0..MOST_NUCLEI {
        centres[i] = centre(floats, i + 2);
    }
    Nuclei {
        centres,
        count: word(count),
    }
}

pub(crate) fn of_nuclei(n: [u64; NUMBERS], roll: &[u8], floats: &[f64]) -> Told {
    let count = n[0];
    let before = PAIR + CENTRE * follow(count, Listed::Nuclei);
    if floats.len() <= before {
        return answers::unknown();
    }
    let boys = &floats[before + 1..];
    if MOST_BOYS < boys.len() {
        return answers::unknown();
    }
    let list = nuclei_of(floats, count);
    value_told(nuclei::nuclear(
        roll,
        centre(floats, 0),
        centre(floats, 1),
        list,
        floats[before],
        boys,
    ))
}

pub(crate) fn value(roll: &[u8], floats: &[f64]) -> Told {
    if floats.len() <= CENTRES {
        return answers::unknown();
    }
    let boys = &floats[CENTRES + 1..];
    if MOST_BOYS < boys.len() {
        return answers::unknown();
    }
    let four = four_of(floats);
    value_told(integrals::evaluate(roll, four.a, four.b, four.c, four.d, floats[CENTRES], boys))
}

// The same by way of a grouping buffer; of that the answer owns the grouping.
pub(crate) fn grouped(roll: &[u8], floats: &[f64], lent: &mut [u8]) -> Told {
    if floats.len() <= CENTRES {
        return answers::unknown();
    }
    let boys = &floats[CENTRES + 1..];
    if MOST_BOYS < boys.len() {
        return answers::unknown();
    }
    let f = four_of(floats);
    let value = grouping::evaluate_grouped(roll, f.a, f.b, f.c, f.d, floats[CENTRES], boys, lent);
    let mut told = value_told(value);
    told.long = owned(value, roll::open(roll));
    told
}

// How many bytes the grouping may take: none where the roll is not read or has no room, and for kinds that are not grouped.
fn owned(value: Result<f64, Fault>, opened: Result<Opened, Fault>) -> usize {
    let Ok(o) = opened else { return 0 };
    match value {
        Ok(_) => grouping_of(o.cursor),
        Err(fault) => match fault.refusal {
            Refusal::NoRoom | Refusal::BadRoll | Refusal::CutRoll => 0,
            _ => grouping_of(o.cursor),
        },
    }
}

fn grouping_of(cursor: Cursor) -> usize {
    if cursor.kind == Kind::Coulomb.number() {
        return grouping::ENTRY * cursor.left as usize;
    }
    0
}

// A value is finite where it comes back.
fn value_told(value: Result<f64, Fault>) -> Told {
    match value {
        Ok(x) => float_told(Form::Value, x),
        Err(fault) => answers::refused(fault),
    }
}

fn float_told(form: Form, x: f64) -> Told {
    if geometry::finite(x) {
        return answers::bytes(form, [floats::bits(x), 0, 0, 0], 0, 0);
    }
    answers::spoiled()
}

// A root is finite where it comes back.
pub(crate) fn root(floats: &[f64]) -> Told {
    match root::root(at(floats, 0)) {
        Ok(x) => float_told(Form::Root, x),
        Err(refusal) => answers::refused_by(refusal),
    }
}

pub(crate) fn table(n: [u64; NUMBERS], floats: &[f64]) -> Told {
    let four = four_of(floats);
    table_told(geometry::prefactors(byte(n[0]), four.a, four.b, four.c, four.d))
}

// The entries are finite where they come back.
fn table_told(table: Result<[f64; Kind::TABLE], Refusal>) -> Told {
    match table {
        Ok(entries) => {
            if geometry::all_finite(&entries) {
                return answers::entries(Form::Table, entries);
            }
            answers::spoiled()
        }
        Err(refusal) => answers::refused_by(refusal),
    }
}
