// Why a call refuses, each with the number that a host and a technician see.
ghost use Rattle.std.specs.Prelude.{◌≡◌};
ghost use Rattle.kind.specs.Refusals.{refusal_number, unplaced};

// The numbers are those of include/xewumbal.h; 0 stands for no refusal there.
#[derive(Clone, Copy, Debug, PartialEq, Eq)]
pub enum Refusal {
    WrongKind = 1,
    OrderSum = 2,
    UnusedOrder = 3,
    TooManyTerms = 4,
    StartBeyondEnd = 5,
    NoRoom = 6,
    BadRoll = 7,
    InputNotFinite = 8,
    Exponent = 9,
    BoysCount = 10,
    ResultNotFinite = 11,
    MatrixSize = 12,
    ComponentNumber = 13,
    CutRoll = 14,
    PrimitiveCount = 15,
    HostCount = 16,
    Nuclei = 17,
    BelowZero = 18,
    OutsideProfile = 19,
    NotTheExpansion = 20,
    LineShape = 21,
    LineNumbers = 22,
}

impl From<Refusal> for u8 {
    ghost from_gives = { λ refusal number. number ≡ refusal_number refusal };

    fn from(refusal: Refusal) -> u8
        ensures { result ≡ refusal_number refusal }
    {
        refusal as u8
    }
}

// A refusal, and the place of a roll where it stands; 0 where the refusal has none.
#[derive(Clone, Copy, Debug, PartialEq, Eq)]
pub struct Fault {
    pub refusal: Refusal,
    pub place: usize,
}

// A refusal that has no place.
impl From<Refusal> for Fault {
    ghost from_gives = { λ refusal fault. fault ≡ unplaced refusal };

    fn from(refusal: Refusal) -> Fault
        ensures { result ≡ unplaced refusal }
    {
        Fault { refusal, place: 0 }
    }
}
