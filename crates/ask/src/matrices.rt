// `jk N I.. D..` and `jkl N LI LD LJ LK I.. D..`: J and K from the integrals I and the density D.
ghost use Rattle.std.specs.Prelude.{◌≤◌};
ghost use Rattle.kind.specs.Limits.{most_size};

use crate::{answers, forms, lent, questions, words};
use answers::Form;
use forms::Told;
use kind::{Kind, Refusal};
use questions::least;
use words::NUMBERS;

// The most floats of I, and of each other slice, that a question can have lent: more than the largest size asks.
pub(crate) const MOST_TENSOR: usize = 65537;

pub(crate) const MOST_MATRIX: usize = 1024;

// The matrix size that is said, and the lengths of I, D, J and K.
#[derive(Clone, Copy)]
pub(crate) struct Sizes {
    n: usize,
    i: usize,
    d: usize,
    j: usize,
    k: usize,
}

// The lengths are those that the size asks. With a size out of range nothing is lent (D-53).
pub(crate) fn plain(n: [u64; NUMBERS]) -> Sizes {
    let size = n[0] as usize;
    of_size(size, in_range(size))
}

// The lengths that a size in range asks.
fn of_size(n: usize, size: usize) -> Sizes
    requires { size ≤ most_size }
{
    let square = size * size;
    let tensor = square * square;
    Sizes {
        n,
        i: tensor,
        d: square,
        j: square,
        k: square,
    }
}

// Nought where the size is out of range.
fn in_range(n: usize) -> usize
    ensures { result ≤ most_size }
{
    if n <= Kind::MOST_SIZE { n } else { 0 }
}

// The lengths are said, right or wrong.
pub(crate) fn sized(n: [u64; NUMBERS]) -> Sizes {
    Sizes {
        n: n[0] as usize,
        i: n[1] as usize,
        d: n[2] as usize,
        j: n[3] as usize,
        k: n[4] as usize,
    }
}

// Whether the lengths are no more than can be lent, and there are floats for I and D, and no more.
fn fits(s: Sizes, floats: usize) -> bool {
    let is_given = s.i <= MOST_TENSOR && s.d <= MOST_MATRIX && s.i + s.d == floats;
    is_given && s.j <= MOST_MATRIX && s.k <= MOST_MATRIX
}

pub(crate) fn asked(s: Sizes, floats: &mut [f64]) -> Told {
    if fits(s, floats.len()) {
        return lend(s, floats);
    }
    answers::unknown()
}

// Lends J and K of the lengths said.
fn lend(s: Sizes, floats: &mut [f64]) -> Told {
    let fill = lent::fill_float();
    let mut coulomb = [fill; MOST_MATRIX];
    let mut exchange = [fill; MOST_MATRIX];
    let j = least(s.j, MOST_MATRIX);
    let k = least(s.k, MOST_MATRIX);
    summed(s, floats, &mut coulomb[0..j], &mut exchange[0..k])
}

fn summed(s: Sizes, floats: &mut [f64], j: &mut [f64], k: &mut [f64]) -> Told {
    let i = least(s.i, floats.len());
    let answer = jk::jk_by_entry(s.n, &floats[0..i], &floats[i..], j, k);
    lay(floats, j, k);
    told(answer, j, k)
}

// J and K take the place of I and D, where they have room if their lengths are right.
fn lay(floats: &mut [f64], j: &[f64], k: &[f64]) {
    let first = least(j.len(), floats.len());
    lent::lay(floats, j);
    lent::lay(&mut floats[first..], k);
}

// J and K, which are finite where they come back; a refusal changes no float.
fn told(answer: Result<(), Refusal>, j: &[f64], k: &[f64]) -> Told {
    match answer {
        Ok(()) => {
            if geometry::all_finite(j) && geometry::all_finite(k) {
                return answers::floats(Form::Matrices, j.len(), k.len());
            }
            answers::spoiled()
        }
        Err(refusal) => {
            if lent::are_kept(j) && lent::are_kept(k) {
                return answers::refused_by(refusal);
            }
            answers::spoiled()
        }
    }
}
