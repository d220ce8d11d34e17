ghost use Rattle.std.specs.Prelude.{◌≡◌};
ghost use Rattle.std.specs.Option.{option_map};
ghost use Rattle.flat.specs.Flats.{given, made};

use super::Flat;

const WIDEST: u32 = 50;

impl Flat {
    /// This low and this high, or `None` where the high lies below the low or more than 50 above it.
    pub fn new(low: u32, high: u32) -> Option<Flat>
        ensures { option_map given result ≡ made low high }
    {
        if high < low || high - low > WIDEST {
            return None;
        }
        Some(Flat { low, high })
    }

    /// The same low and high.
    pub fn exactly(amount: u32) -> Flat
        ensures { given result ≡ (amount, amount) }
    {
        Flat {
            low: amount,
            high: amount,
        }
    }
}
