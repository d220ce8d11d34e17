ghost use Rattle.std.specs.Prelude.{◌≡◌};
ghost use Rattle.charges.specs.Leaves.{rate as rate_of, parts as parts_of};
ghost use Rattle.charges.specs.Leaves;
ghost use Rattle.charges.specs.LeafTerms.{rate_terms, parts_some};
ghost use Rattle.std.proofs.Common.{refl};

use super::charge::{Charge, LIMIT, TooLarge};

mod make;

/// What a rate is counted in.
#[derive(Clone, Copy)]
pub enum Parts {
    Hundredths = 100,
    TenThousandths = 10_000,
    Millionths = 1_000_000,
}

/// A total times a number of hundredths, ten-thousandths or millionths, divided once.
#[derive(Clone, Copy)]
pub struct Rate {
    total: u64,
    numerator: u32,
    parts: Parts,
}

impl Charge for Rate {
    ghost D = { λ c. (rate_of c.total c.numerator (parts_of c.parts)).D };

    ghost U = { λ c. (rate_of c.total c.numerator (parts_of c.parts)).U };

    ghost width = { λ c. (rate_of c.total c.numerator (parts_of c.parts)).width };

    ghost terms = { λ c. rate_terms c.total c.numerator (Leaves.parts c.parts) (parts_some c.parts) };

    ghost alike = { λ a b. refl };

    fn bounds(&self) -> Result<(u32, u32), TooLarge> {
        let amount = u128::from(self.total) * u128::from(self.numerator);
        let by = u128::from(self.parts.count());
        let low = amount / by;
        let high = amount.div_ceil(by);
        if high > u128::from(LIMIT) {
            return Err(TooLarge);
        }
        Ok((low as u32, high as u32))
    }

    fn greatest_width(&self) -> u32 {
        1
    }
}
