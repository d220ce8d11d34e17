ghost use Rattle.std.specs.Prelude.{◌≡◌};
ghost use Rattle.flat.specs.Flats.{flat};
ghost use Rattle.flat.specs.FlatTerms.{flat_terms};
ghost use Rattle.std.proofs.Common.{refl};

use super::Flat;
use charges::{Charge, LIMIT, TooLarge};

impl Charge for Flat {
    ghost D = { λ c. (flat c.low c.high).D };

    ghost U = { λ c. (flat c.low c.high).U };

    ghost width = { λ c. (flat c.low c.high).width };

    ghost terms = { λ c. flat_terms c.low c.high c.ordered c.close };

    ghost alike = { λ a b. refl };

    fn bounds(&self) -> Result<(u32, u32), TooLarge> {
        if self.high > LIMIT {
            return Err(TooLarge);
        }
        Ok((self.low, self.high))
    }

    fn greatest_width(&self) -> u32 {
        50
    }
}
