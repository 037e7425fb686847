// The root of an f64, the nearest f64 to the exact root: by whole numbers of 64 bits, and without a loop (D-114).
#![tactic(auto)]

ghost use Rattle.std.specs.Prelude.{◌+◌, ◌-◌, ◌*◌, ◌^◌, ◌≤◌, ◌<◌, ◌≡◌};
ghost use Rattle.root.specs.Root.{units_in_one, root_of, rooted_of};
ghost use Rattle.root.specs.inner.Digits.{hidden, infinite, DigitTold, FurtherMay, WholeTold, RootTold, NearerTold, ZerosTold, bits_units, ScaledTold, BitsTold};

use kind::Refusal;

// The leading digit of a float, which its bits leave out.
const HIDDEN: u64 = 0x10_0000_0000_0000;

// The root of a number so far, cut to a whole number, and what is left beside its square.
#[derive(Clone, Copy)]
struct Part {
    root: u64,
    rest: u64,
}

// A number as digits · 4^half.
#[derive(Clone, Copy)]
struct Scaled {
    digits: u64,
    half: u64,
}

// One binary digit more of a root, for the next two of the number.
fn digit(part: Part, pair: u64) -> Part
    requires root_bound { part.root < 2 ^ 32 }
    requires rest_bound { part.rest ≤ 2 * part.root }
    requires pair_bound { pair < 4 }
    ensures { DigitTold part pair result }
{
    let root = 2 * part.root;
    let rest = 4 * part.rest + pair;
    let odd = 2 * root + 1;
    if odd <= rest {
        return Part {
            root: root + 1,
            rest: rest - odd,
        };
    }
    Part { root, rest }
}

// As many digits more as `base` has zeros, in one division: a number below base² follows.
fn further(part: Part, base: u64, low: u64) -> Part
    requires { FurtherMay part base low }
    ensures { WholeTold ((part.root * part.root + part.rest) * (base * base) + low) result }
{
    let over = part.rest * base + low / base;
    let twice = 2 * part.root;
    let more = over / twice;
    let root = part.root * base + more;
    let rest = over % twice * base + low % base;
    let square = more * more;
    if square <= rest {
        return Part {
            root: root,
            rest: rest - square,
        };
    }
    Part {
        root: root - 1,
        rest: rest + 2 * root - 1 - square,
    }
}

// The root of 14 binary digits, of which the first two are not both 0.
fn seven(n: u64) -> Part
    requires bound { 2 ^ 12 ≤ n }
    requires n_bound { n < 2 ^ 14 }
    ensures { WholeTold n result }
{
    let one = Part {
        root: 1,
        rest: n / 4096 - 1,
    };
    let two = digit(one, n / 1024 % 4);
    let three = digit(two, n / 256 % 4);
    let four = digit(three, n / 64 % 4);
    let five = digit(four, n / 16 % 4);
    let six = digit(five, n / 4 % 4);
    digit(six, n % 4)
}

// The root of 54 binary digits with 52 zeros behind them, in 53: 7 digits, then 14, 27 and 53.
fn whole(n: u64) -> Part
    requires hidden_le_n { hidden ≤ n }
    requires n_bound { n < 4 * hidden }
    ensures { RootTold n result }
{
    let seven = seven(n / 0x100_0000_0000);
    let fourteen = further(seven, 128, n / 0x400_0000 % 16384);
    let half = further(fourteen, 8192, n % 0x400_0000);
    further(half, 0x400_0000, 0)
}

// The whole number next to the exact root: no root lies halfway.
fn nearest(part: Part) -> u64
    requires { part.root < 2 * hidden }
    ensures { NearerTold part result }
{
    if part.root < part.rest {
        part.root + 1
    } else {
        part.root
    }
}

// digits · 2^power with an even power.
fn even(digits: u64, power: u64) -> Scaled
    requires hidden_le_digits { hidden ≤ digits }
    requires digits_bound { digits < 2 * hidden }
    requires le_power { 52 ≤ power }
    requires power_bound { power ≤ 3200 }
    ensures { ScaledTold (digits * 2 ^ power) result }
{
    if power % 2 == 0 {
        return Scaled {
            digits,
            half: power / 2,
        };
    }
    Scaled {
        digits: 2 * digits,
        half: power / 2,
    }
}

// How far a subnormal float's digits are moved up, so that the first of them stands where the leading digit does.
fn zeros(bits: u64) -> u64
    requires bits_nonzero { 0 < bits }
    requires bits_lt_hidden { bits < hidden }
    ensures { ZerosTold bits result }
{
    u64::leading_zeros(bits) as u64 - 11
}

// The bits of a float above 0.0 taken apart; a subnormal one has no leading digit.
fn apart(bits: u64) -> Scaled
    requires bits_nonzero { 0 < bits }
    requires bits_lt_infinite { bits < infinite }
    ensures { ScaledTold (bits_units bits * units_in_one) result }
{
    if bits < HIDDEN {
        let up = zeros(bits);
        return even(bits << up, 1074 - up);
    }
    even(HIDDEN + bits % HIDDEN, bits / HIDDEN + 1073)
}

// The bits of the root, by those of a float above 0.0.
fn root_bits(bits: u64) -> u64
    requires bits_nonzero { 0 < bits }
    requires bits_lt_infinite { bits < infinite }
    ensures { BitsTold bits result }
{
    let scaled = apart(bits);
    let part = whole(scaled.digits);
    (scaled.half - 26) * HIDDEN + nearest(part)
}

// The root, and where there is none what IEEE 754 says: a NaN below 0.0; a NaN and +∞ are their own roots, and so is a zero of either sign.
pub fn root_of(x: f64) -> f64
    ensures { result ≡ root_of x }
{
    if 0.0 < x {
        if x < f64::from_bits(0x7ff0_0000_0000_0000) {
            return f64::from_bits(root_bits(f64::to_bits(x)));
        }
        return x;
    }
    if x < 0.0 { 0.0 / 0.0 } else { x }
}

// The root of a finite float of 0.0 or above; 8 for a float that is not finite, then 18 for one below 0.0.
pub fn root(x: f64) -> Result<f64, Refusal>
    ensures { result ≡ rooted_of x }
{
    if !geometry::finite(x) {
        return Err(Refusal::InputNotFinite);
    }
    if x < 0.0 {
        return Err(Refusal::BelowZero);
    }
    Ok(root_of(x))
}
