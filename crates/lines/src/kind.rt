ghost use Rattle.std.specs.Prelude.{◌≡◌, ok_or};
ghost use Rattle.lines.specs.Kinds.{number, numbered, rule, limits};
ghost use Rattle.lines.specs.Weights.{square};

/// The kind of a line, by the number of the figure that it feeds.
#[derive(Clone, Copy, PartialEq, Eq, Debug)]
pub enum Kind {
    Interest = 1,
    Equity = 2,
    Property = 3,
    Spread = 4,
    Concentration = 5,
    Currency = 6,
    Mortality = 7,
    Longevity = 8,
    Disability = 9,
    Lapse = 10,
    LifeExpense = 11,
    Revision = 12,
    LifeCatastrophe = 13,
    HealthExpense = 14,
    HealthClaims = 15,
    Accumulation = 16,
    PremiumReserve = 17,
    Catastrophe = 18,
    CounterpartyDefault = 20,
    Operational = 25,
}

/// What a line of a kind may hold: no class if `classes` is 0, else one from 1 to `classes`;
/// each other field at most its limit, which is 0 where the field stays blank.
#[derive(Clone, Copy)]
pub struct Rule {
    pub classes: u8,
    pub rate: u16,
    pub first: u32,
    pub second: u32,
}

// The limit of an amount that may be of any size.
const ANY: u32 = 4_294_967_295;

// The limit of an amount that is squared: no root of one alone is then too large.
const SQUARED: u32 = 16_777_215;

fn limits(classes: u8, rate: u16, first: u32, second: u32) -> Rule
    ensures { result ≡ limits classes rate first second }
{
    Rule {
        classes,
        rate,
        first,
        second,
    }
}

/// A number that no kind has.
#[derive(Clone, Copy, PartialEq, Eq, Debug)]
pub struct UnknownKind(pub u8);

// Written out: no derive makes a variant of its number.
impl TryFrom<u8> for Kind {
    type Error = UnknownKind;

    ghost try_from_gives = { λ n r. r ≡ ok_or (numbered n) (record { 0 = n }) };

    #[tactic(auto, unfolding(crate::specs::Kinds::numbered))]
    fn try_from(n: u8) -> Result<Self, UnknownKind> {
        match n {
            1 => Ok(Kind::Interest),
            2 => Ok(Kind::Equity),
            3 => Ok(Kind::Property),
            4 => Ok(Kind::Spread),
            5 => Ok(Kind::Concentration),
            6 => Ok(Kind::Currency),
            7 => Ok(Kind::Mortality),
            8 => Ok(Kind::Longevity),
            9 => Ok(Kind::Disability),
            10 => Ok(Kind::Lapse),
            11 => Ok(Kind::LifeExpense),
            12 => Ok(Kind::Revision),
            13 => Ok(Kind::LifeCatastrophe),
            14 => Ok(Kind::HealthExpense),
            15 => Ok(Kind::HealthClaims),
            16 => Ok(Kind::Accumulation),
            17 => Ok(Kind::PremiumReserve),
            18 => Ok(Kind::Catastrophe),
            20 => Ok(Kind::CounterpartyDefault),
            25 => Ok(Kind::Operational),
            _ => Err(UnknownKind(n)),
        }
    }
}

impl From<Kind> for u8 {
    ghost from_gives = { λ kind n. n ≡ number kind };

    fn from(kind: Kind) -> u8 {
        kind as u8
    }
}

impl Kind {
    /// Whether its amounts are squared.
    pub fn is_squared(self) -> bool
        ensures { result ≡ square (number self) }
    {
        matches!(self, Kind::Concentration | Kind::Catastrophe)
    }

    /// What its lines may hold.
    pub fn rule(self) -> Rule
        ensures { result ≡ rule self }
    {
        match self {
            Kind::Interest => limits(4, 0, ANY, ANY),
            Kind::Equity | Kind::Currency => limits(2, 0, ANY, 0),
            Kind::Property => limits(0, 0, ANY, 0),
            Kind::Spread => limits(8, 5_000, ANY, 0),
            Kind::Concentration | Kind::Catastrophe => limits(0, 0, SQUARED, 0),
            Kind::Mortality
            | Kind::Longevity
            | Kind::Disability
            | Kind::Lapse
            | Kind::LifeExpense
            | Kind::Revision
            | Kind::LifeCatastrophe => limits(2, 0, ANY, ANY),
            Kind::HealthExpense
            | Kind::HealthClaims
            | Kind::Accumulation
            | Kind::CounterpartyDefault => limits(0, 10_000, ANY, 0),
            Kind::PremiumReserve => limits(15, 10_000, ANY, 0),
            Kind::Operational => limits(6, 0, ANY, 0),
        }
    }
}
