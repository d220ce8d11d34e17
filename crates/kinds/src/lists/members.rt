ghost use Rattle.std.proofs.Common.{refl};
ghost use Rattle.kinds.specs.BusinessLists.{basic_alike};
ghost use Rattle.kinds.specs.Kept.{basic_terms};
ghost use Rattle.kinds.specs.Means.{basic_parts};

use super::Basic;
use charges::{Members, Pairs, TooLargeAt};

impl Members for Basic {
    ghost count = { 5 };

    ghost each = { λ m. basic_parts m.nested };

    ghost proper = { Unit {0} };

    ghost counted = { λ m. refl };

    ghost terms = { λ m. basic_terms m.nested };

    ghost alike = { λ a b. basic_alike a.nested b.nested };

    fn gather(&self, pairs: &mut Pairs) -> Result<(), TooLargeAt> {
        self.nested.gather(pairs)
    }

    fn len(&self) -> u32 {
        self.nested.len()
    }

    fn added_widths(&self) -> u32 {
        self.nested.added_widths()
    }
}
