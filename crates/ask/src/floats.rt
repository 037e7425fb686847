// Floats by their bits. The library answers every NaN alike, so a pattern that is a NaN's stands for one of them, and one
// pattern stands for all of them.

// The bits of infinity: those of a NaN lie above, the sign left out.
const INFINITE: u64 = 0x7ff0_0000_0000_0000;
// The weight of the sign.
const SIGN: u64 = 0x8000_0000_0000_0000;
// Bits that stand for a NaN.
const NAN: u64 = 0x7ff8_0000_0000_0000;

pub(crate) fn of_bits(bits: u64) -> f64 {
    if INFINITE < bits % SIGN {
        return not_a_number();
    }
    f64::from_bits(bits)
}

fn not_a_number() -> f64 {
    let infinite = f64::from_bits(INFINITE);
    infinite - infinite
}

pub(crate) fn bits(x: f64) -> u64 {
    if x == x {
        return f64::to_bits(x);
    }
    NAN
}
