// J and K from the integrals I and the density D, entry by entry, as JK_direct of basis.rs sums them.
#![tactic(auto)]

ghost use Rattle.std.specs.Prelude.{ℕ, ◌+◌, ◌*◌, ◌<◌, ◌≤◌, ◌≡◌, ◌&&◌, length, take, get_or};
ghost use Rattle.std.specs.Float.{nan};
ghost use Rattle.kind.specs.Limits.{most_size};
ghost use Rattle.geometry.specs.Floats.{◌⊗◌, all_finite};
ghost use Rattle.jk.specs.Sums.{over_sigma, entry_of, matrix_of};
ghost use Rattle.jk.specs.inner.Rows.{row_of, ShapedMay};
ghost use Rattle.jk.specs.Outcome.{outcome, long_of, sized_of, summed_of, jk_of};

use geometry::all_finite;
use kind::{Kind, Refusal};

// Room for a matrix of the largest size.
const ROOM: usize = Kind::MOST_SIZE * Kind::MOST_SIZE;

// The matrix that is summed.
#[derive(Clone, Copy)]
enum Matrix {
    J,
    K,
}

// The lengths that the size asks.
fn long(n: usize, i: usize, d: usize, j: usize, k: usize) -> bool
    requires { n ≤ most_size }
    ensures { result ≡ long_of n i d j k }
{
    let square = n * n;
    i == square * square && d == square && j == square && k == square
}

// Check 12: the size is judged before anything is multiplied.
fn sized(n: usize, i: usize, d: usize, j: usize, k: usize) -> bool
    ensures { result ≡ sized_of n i d j k }
{
    1 <= n && n <= Kind::MOST_SIZE && long(n, i, d, j, k)
}

// Check 8 of I and D, and check 11 of J and K.
fn both_finite(a: &[f64], b: &[f64]) -> bool
    ensures { result ≡ (all_finite a.now && all_finite b.now) }
{
    all_finite(a) && all_finite(b)
}

// The row of I that an entry sums over sigma.
fn row(m: Matrix, n: usize, mu: usize, nu: usize, lambda: usize) -> usize
    requires { (n ≤ most_size) × (mu < n) × (nu < n) × (lambda < n) }
    ensures { result ≡ row_of m n mu nu lambda }
{
    match m {
        Matrix::J => (mu * n + nu) * n + lambda,
        Matrix::K => (mu * n + lambda) * n + nu,
    }
}

// Adds the products of a row of I and a row of D, one by one.
fn add_row(i: &[f64], d: &[f64], n: usize, at: usize, of: usize, start: f64) -> f64
    requires { (at + n ≤ length i.now) × (of + n ≤ length d.now) }
    ensures { result ≡ over_sigma (λ (s : ℕ). get_or i.now (at + s) nan ⊗ get_or d.now (of + s) nan) n 0 start }
{
    let mut sum = start;
    for sigma in 0..n {
        sum += i[at + sigma] * d[of + sigma];
    }
    sum
}

// One entry of J or K.
fn entry(m: Matrix, n: usize, i: &[f64], d: &[f64], mu: usize, nu: usize) -> f64
    requires { ShapedMay n i.now d.now × (mu < n) × (nu < n) }
    ensures { result ≡ entry_of m n i.now d.now mu nu }
{
    let mut sum = 0.0;
    for lambda in 0..n {
        let at = row(m, n, mu, nu, lambda);
        sum = add_row(i, d, n, at * n, lambda * n, sum);
    }
    sum
}

// The whole matrix in the first places, each entry by its own sum (D-28).
fn entries(m: Matrix, n: usize, i: &[f64], d: &[f64]) -> [f64; ROOM]
    requires { ShapedMay n i.now d.now }
    ensures { take (n * n) result ≡ matrix_of m n i.now d.now }
{
    let mut all = [0.0; ROOM];
    for p in 0..n * n {
        all[p] = entry(m, n, i, d, p / n, p % n);
    }
    all
}

// Both matrices, or 11 before anything is written (D-27).
fn write(n: usize, i: &[f64], d: &[f64], j: &mut [f64], k: &mut [f64]) -> Result<(), Refusal>
    requires { ShapedMay n i.now d.now × (length j.old ≡ n * n) × (length k.old ≡ n * n) }
    ensures { outcome result j.new k.new ≡ summed_of n i.now d.now j.old k.old }
{
    let js = entries(Matrix::J, n, i, d);
    let ks = entries(Matrix::K, n, i, d);
    let js = &js[..n * n];
    let ks = &ks[..n * n];
    if !both_finite(js, ks) {
        return Err(Refusal::ResultNotFinite);
    }
    j.copy_from_slice(js);
    k.copy_from_slice(ks);
    Ok(())
}

// J and K of I and D, or 12, 8 or 11 with both as they were.
pub fn jk_by_entry(
    n: usize,
    i: &[f64],
    d: &[f64],
    j: &mut [f64],
    k: &mut [f64],
) -> Result<(), Refusal>
    ensures { outcome result j.new k.new ≡ jk_of n i.now d.now j.old k.old }
{
    if !sized(n, i.len(), d.len(), j.len(), k.len()) {
        return Err(Refusal::MatrixSize);
    }
    if !both_finite(i, d) {
        return Err(Refusal::InputNotFinite);
    }
    write(n, i, d, j, k)
}
