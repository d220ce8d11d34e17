ghost use Rattle.std.specs.Prelude.{◌≡◌, List};
ghost use Rattle.lines.specs.declared.fields.Fields.{Fields};
ghost use Rattle.lines.specs.Tally.{Tally};
ghost use Rattle.kinds.specs.Means.{businesses};
ghost use Rattle.kinds.specs.Ours.{all_businesses};
ghost use Rattle.kinds.specs.BusinessLists.{count_fifteen, widths_alike};
ghost use Rattle.kinds.specs.Kept.{businesses_terms};

use super::Businesses;
use charges::{Charge, Members, Pairs, Parts, Rate, TooLargeAt};
use lines::{Kind, Totals};
use std::array;

impl Businesses {
    /// The totals of the lines of business.
    pub fn of(totals: &Totals) -> Businesses
        ensures { (ls : List Fields) → Tally totals.now ls → businesses result ≡ all_businesses ls }
    {
        let volumes = array::from_fn(|i| totals.first(Kind::PremiumReserve, i as u8 + 1));
        Businesses { volumes }
    }
}

impl Members for Businesses {
    ghost count = { 15 };

    ghost each = { businesses };

    ghost proper = { Unit {0} };

    ghost counted = { λ m. count_fifteen m };

    ghost terms = { λ m. businesses_terms m };

    ghost alike = { λ a b. widths_alike a b };

    fn gather(&self, pairs: &mut Pairs) -> Result<(), TooLargeAt> {
        for (i, volume) in self.volumes.iter().enumerate() {
            let Ok(pair) = Rate::new(*volume, 3, Parts::TenThousandths).bounds() else {
                return Err(TooLargeAt(i as u8 + 1));
            };
            let _ = pairs.push(pair);
        }
        Ok(())
    }

    fn len(&self) -> u32 {
        15
    }

    fn added_widths(&self) -> u32 {
        15
    }
}
