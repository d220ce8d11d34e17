ghost use Rattle.std.specs.Prelude.{◌≡◌, ◌<◌, ◌≤◌};
ghost use Rattle.charges.specs.Leaves.{rate, rated, parts as parts_of};

use super::{Parts, Rate};

impl Parts {
    /// How many of them make a whole.
    pub fn count(self) -> u32
        ensures value { result ≡ parts_of self }
        ensures some { 0 < result }
    {
        self as u32
    }
}

impl Rate {
    /// So many parts of a total.
    pub fn new(total: u64, numerator: u32, parts: Parts) -> Rate
        ensures { rated result ≡ rate total numerator (parts_of parts) }
    {
        Rate {
            total,
            numerator,
            parts,
        }
    }
}
