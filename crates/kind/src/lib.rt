// The five kinds of integral, and every limit of documents 01 and 02 under one name (D-42).
#![tactic(auto)]

ghost use Rattle.std.specs.Prelude.{◌≡◌};
ghost use Rattle.kind.specs.Limits.{limits};
ghost use Rattle.kind.specs.Kinds.{kind_of, number_of, orders_of, table_of, branches_of, most_l, most_prefactors, uses_boys};

mod refusals;

pub use refusals::{Fault, Refusal};

#[derive(Clone, Copy, Debug, PartialEq, Eq)]
pub enum Kind {
    Overlap,
    Kinetic,
    Nuclear,
    Moment,
    Coulomb,
}

// The limits that are one for all kinds.
#[derive(Clone, Copy)]
pub struct Limits {
    pub order: usize,
    pub terms: u32,
    pub scale: u32,
    pub size: usize,
    pub listed: usize,
    pub request: usize,
    pub prefactors: usize,
    pub table: usize,
}

impl Kind {
    // The order sum on a centre, on the operator, and the order of a shell.
    pub const MOST_ORDER: usize = 6;
    // The terms of a list.
    pub const MOST_TERMS: u32 = 1048575;
    // The scale of a term.
    pub const MOST_SCALE: u32 = 2176782336;
    // The functions of a matrix.
    pub const MOST_SIZE: usize = 16;
    // The bytes of a roll that the listing takes.
    pub const MOST_LISTED: usize = 65536;
    // The orders of a request, used by its kind or not.
    pub const ORDERS: usize = 12;
    // The prefactors of any term.
    pub const PREFACTORS: usize = 4 * Kind::MOST_ORDER;
    // The places of a prefactor table that is handed out.
    pub const TABLE: usize = 23;

    // Every limit above is the definition's.
    pub fn limits() -> Limits
        ensures { result ≡ limits }
    {
        Limits {
            order: Kind::MOST_ORDER,
            terms: Kind::MOST_TERMS,
            scale: Kind::MOST_SCALE,
            size: Kind::MOST_SIZE,
            listed: Kind::MOST_LISTED,
            request: Kind::ORDERS,
            prefactors: Kind::PREFACTORS,
            table: Kind::TABLE,
        }
    }

    pub fn of(byte: u8) -> Option<Kind>
        ensures { result ≡ kind_of byte }
    {
        match byte {
            0 => Some(Kind::Overlap),
            1 => Some(Kind::Kinetic),
            2 => Some(Kind::Nuclear),
            3 => Some(Kind::Moment),
            4 => Some(Kind::Coulomb),
            _ => None,
        }
    }

    pub fn number(self) -> u8
        ensures { result ≡ number_of self }
    {
        match self {
            Kind::Overlap => 0,
            Kind::Kinetic => 1,
            Kind::Nuclear => 2,
            Kind::Moment => 3,
            Kind::Coulomb => 4,
        }
    }

    // How many orders the kind uses: three for each of its centres.
    pub fn orders(self) -> usize
        ensures { result ≡ orders_of self }
    {
        match self {
            Kind::Overlap | Kind::Kinetic | Kind::Nuclear => 6,
            Kind::Moment => 9,
            Kind::Coulomb => 12,
        }
    }

    // How many entries the kind's prefactor table has.
    pub fn table(self) -> usize
        ensures { result ≡ table_of self }
    {
        match self {
            Kind::Overlap => 8,
            Kind::Kinetic | Kind::Nuclear => 11,
            Kind::Moment => 12,
            Kind::Coulomb => 23,
        }
    }

    // How many branches a step of the kind has.
    pub fn branches(self) -> usize
        ensures { result ≡ branches_of self }
    {
        match self {
            Kind::Overlap => 3,
            Kind::Kinetic => 5,
            Kind::Nuclear => 6,
            Kind::Moment => 4,
            Kind::Coulomb => 8,
        }
    }

    // The most that all orders of the kind can add up to.
    pub fn most_l(self) -> usize
        ensures { result ≡ most_l self }
    {
        match self {
            Kind::Overlap | Kind::Kinetic | Kind::Nuclear => 2 * Kind::MOST_ORDER,
            Kind::Moment => 3 * Kind::MOST_ORDER,
            Kind::Coulomb => 4 * Kind::MOST_ORDER,
        }
    }

    // The most prefactors that a term may have in a roll whose orders add up to `l`.
    pub fn most_prefactors(self, l: u8) -> usize
        ensures { result ≡ most_prefactors self l }
    {
        match self {
            Kind::Kinetic => l as usize + 1,
            Kind::Overlap | Kind::Nuclear | Kind::Moment | Kind::Coulomb => l as usize,
        }
    }

    // Whether the kind has Boys orders and takes Boys numbers.
    pub fn uses_boys(self) -> bool
        ensures { result ≡ uses_boys self }
    {
        matches!(self, Kind::Nuclear | Kind::Coulomb)
    }
}
