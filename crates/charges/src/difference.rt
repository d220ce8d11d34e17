ghost use Rattle.std.specs.Prelude.{◌≡◌};
ghost use Rattle.charges.specs.Leaves.{difference as difference_of};
ghost use Rattle.charges.specs.LeafTerms.{difference_terms};
ghost use Rattle.std.proofs.Common.{refl};

use super::charge::{Charge, LIMIT, TooLarge};

mod larger;

/// What is lost less what is gained, each a total; 0 where more is gained.
#[derive(Clone, Copy)]
pub struct Difference {
    losses: u64,
    gains: u64,
}

impl Charge for Difference {
    ghost D = { λ c. (difference_of c.losses c.gains).D };

    ghost U = { λ c. (difference_of c.losses c.gains).U };

    ghost width = { λ c. (difference_of c.losses c.gains).width };

    ghost terms = { λ c. difference_terms c.losses c.gains };

    ghost alike = { λ a b. refl };

    fn bounds(&self) -> Result<(u32, u32), TooLarge> {
        let amount = self.losses.saturating_sub(self.gains);
        if amount > u64::from(LIMIT) {
            return Err(TooLarge);
        }
        Ok((amount as u32, amount as u32))
    }

    fn greatest_width(&self) -> u32 {
        0
    }
}
