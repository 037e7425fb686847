// How many bytes two slices begin alike.
ghost use Rattle.std.specs.Prelude.{◌≡◌, min};
ghost use Rattle.form2.specs.Bytes.{shared};

// The smaller of two numbers.
pub(crate) fn least(a: usize, b: usize) -> usize
    ensures { result ≡ min a b }
{
    if a <= b {
        return a;
    }
    b
}

// How many bytes two slices begin alike.
pub fn alike(a: &[u8], b: &[u8]) -> usize
    ensures { result ≡ shared a.now b.now }
{
    let most = least(a.len(), b.len());
    for i in 0..most {
        if a[i] != b[i] {
            return i;
        }
    }
    most
}
