// The shape of a line: decimal numbers separated by single commas, ended by a line feed.
ghost use Rattle.std.specs.Prelude.{◌≡◌, ◌+◌, ◌≤◌, ◌<◌, length, drop};
ghost use Rattle.std.specs.Char.{is_ascii_digit};
ghost use Rattle.std.specs.List.{prefix_len};
ghost use Rattle.text.specs.Reading.{run_of};
ghost use Rattle.importing.specs.Lines.{is_number};
ghost use Rattle.importing.specs.inner.Places.{shape_at};

// How many digits these bytes begin with.
fn digits_len(s: &[u8]) -> usize
    ensures value { result ≡ prefix_len is_ascii_digit s.now }
    ensures within { result ≤ length s.now }
{
    s.iter().take_while(|b| b.is_ascii_digit()).count()
}

// Whether the digits from `at` to `end` are a number: one or more, without leading zeros.
fn is_number(s: &[u8], at: usize, end: usize) -> bool
    requires { end ≡ at + length (run_of (drop at s.now) 10) }
    ensures { result ≡ is_number (run_of (drop at s.now) 10) }
{
    end != at && (end == at + 1 || b'0' < s[at])
}

// The line at a place: how many numbers it has, and the place after its line feed.
pub(crate) fn shape_at(s: &[u8], at: usize) -> Option<(usize, usize)>
    ensures { result ≡ shape_at s.now at }
{
    let mut place = at;
    let mut n = 0;
    while place < s.len() {
        let end = place + digits_len(&s[place..]);
        if s.len() <= end || !is_number(s, place, end) {
            return None;
        }
        n += 1;
        match s[end] {
            b'\n' => return Some((n, end + 1)),
            b',' => place = end + 1,
            _ => return None,
        }
    }
    None
}
