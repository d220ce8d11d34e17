ghost use Rattle.std.specs.Prelude.{◌≡◌};
ghost use Rattle.charges.specs.Leaves.{square_root};
ghost use Rattle.charges.specs.LeafTerms.{square_root_terms};
ghost use Rattle.std.proofs.Common.{refl};

use super::charge::{Charge, TooLarge};
use roots::roots;

mod make;

/// The root of a total of squares.
#[derive(Clone, Copy)]
pub struct RootOfSquares {
    total: u64,
}

// 16,777,215 squared: the root of a larger total passes the limit.
const MOST: u64 = 281_474_943_156_225;

impl Charge for RootOfSquares {
    ghost D = { λ c. (square_root c.total).D };

    ghost U = { λ c. (square_root c.total).U };

    ghost width = { λ c. (square_root c.total).width };

    ghost terms = { λ c. square_root_terms c.total };

    ghost alike = { λ a b. refl };

    fn bounds(&self) -> Result<(u32, u32), TooLarge> {
        if self.total > MOST {
            return Err(TooLarge);
        }
        let pair = roots(100 * self.total);
        Ok(pair)
    }

    fn greatest_width(&self) -> u32 {
        1
    }
}
