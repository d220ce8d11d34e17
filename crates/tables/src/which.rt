ghost use Rattle.std.specs.Prelude.{◌≡◌, ◌≤◌, ok_or};
ghost use Rattle.tables.specs.Numbers.{number, numbered};

/// One of the seven tables, by the module that it is for.
#[derive(Clone, Copy, PartialEq, Eq, Debug)]
pub enum Which {
    /// Of market, default, life, health, non-life.
    Basic = 1,
    /// Of interest, equity, property, spread, concentration, currency.
    Market = 2,
    /// Of global, other.
    Equity = 3,
    /// Of mortality, longevity, disability, lapse, expense, revision, catastrophe.
    Life = 4,
    /// Of expense, claims, accumulation.
    Health = 5,
    /// Of premium and reserve, catastrophe.
    NonLife = 6,
    /// Of fifteen lines of business.
    Business = 7,
}

impl Which {
    /// The seven, in the order of their numbers.
    pub const ALL: [Which; 7] = [
        Which::Basic,
        Which::Market,
        Which::Equity,
        Which::Life,
        Which::Health,
        Which::NonLife,
        Which::Business,
    ];
}

/// A number that no table has.
#[derive(Clone, Copy, PartialEq, Eq, Debug)]
pub struct UnknownTable(pub u8);

// Written out: no derive makes a variant of its number.
impl TryFrom<u8> for Which {
    type Error = UnknownTable;

    ghost try_from_gives = { λ n r. r ≡ ok_or (numbered n) (record { 0 = n }) };

    fn try_from(n: u8) -> Result<Self, UnknownTable> {
        match n {
            1 => Ok(Which::Basic),
            2 => Ok(Which::Market),
            3 => Ok(Which::Equity),
            4 => Ok(Which::Life),
            5 => Ok(Which::Health),
            6 => Ok(Which::NonLife),
            7 => Ok(Which::Business),
            _ => Err(UnknownTable(n)),
        }
    }
}

impl From<Which> for u8 {
    ghost from_gives = { λ which n. (n ≡ number which) × (1 ≤ n) × (n ≤ 7) };

    fn from(which: Which) -> u8 {
        which as u8
    }
}
