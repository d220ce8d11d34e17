ghost use Rattle.std.specs.Prelude.{◌≡◌, ℕ, suc, ◌+◌, ◌-◌, ◌^◌, ◌≤◌, min, List, [], ◌∷◌, length};
ghost use Rattle.roots.specs.Form.{added};
ghost use Rattle.charges.specs.Held.{held};
ghost use Rattle.charges.specs.Meaning.{Meaning, AllTerms, Gathered, means, widths as widths_of};
ghost use Rattle.std.proofs.Common.{refl, sym, ap, ap₂, one-add, ◌∙◌};

use super::charge::{Charge, TooLargeAt};
use super::pairs::Pairs;

/// Charges in order: nested pairs that end in ().
pub trait Members {
    // how many
    ghost count: { ℕ };

    // what each means
    ghost each: { Self → List Meaning };

    // of the type alone: each charge has two to sixteen members at every depth
    ghost proper: { Type 0 };

    /// The bounds of all behind those that are held, or the first charge that is too large.
    fn gather(&self, pairs: &mut Pairs) -> Result<(), TooLargeAt>
        requires make { proper }
        requires room { length (held pairs.old) + count ≤ 27 }
        ensures { Gathered (each self.now) (held pairs.old) (held pairs.new) result };

    /// How many there are.
    fn len(&self) -> u32
        ensures { result ≡ min count (2 ^ 32 - 1) };

    /// The greatest widths added, or 4,294,967,295 where that is more.
    fn added_widths(&self) -> u32
        requires { proper }
        ensures { result ≡ min (added (widths_of (each self.now))) (2 ^ 32 - 1) };

    ghost counted: { (m : Self) → length (each m) ≡ count };

    ghost terms: { (m : Self) → AllTerms (each m) };

    ghost alike: { (a b : Self) → widths_of (each a) ≡ widths_of (each b) };
}

impl Members for () {
    ghost count = { 0 };

    ghost each = { λ m. [] };

    ghost proper = { Unit {0} };

    ghost counted = { λ m. refl };

    ghost terms = { λ m. tt };

    ghost alike = { λ a b. refl };

    fn gather(&self, _pairs: &mut Pairs) -> Result<(), TooLargeAt> {
        Ok(())
    }

    fn len(&self) -> u32 {
        0
    }

    fn added_widths(&self) -> u32 {
        0
    }
}

impl<C: Charge, R: Members> Members for (C, R) {
    ghost count = { 1 + R.Members.count };

    ghost each = { λ m. means (C.Charge.D m.0) (C.Charge.U m.0) (C.Charge.width m.0) (C.Charge.inner m.0) ∷ R.Members.each m.1 };

    ghost proper = { C.Charge.proper × R.Members.proper };

    ghost counted = { λ m. ap suc (R.Members.counted m.1) ∙ sym (one-add R.Members.count) };

    ghost terms = { λ m. (C.Charge.terms m.0, R.Members.terms m.1) };

    ghost alike = { λ a b. ap₂ (λ w ws. w ∷ ws) (C.Charge.alike a.0 b.0) (R.Members.alike a.1 b.1) };

    fn gather(&self, pairs: &mut Pairs) -> Result<(), TooLargeAt> {
        let pair = self.0.bounds().map_err(|_| TooLargeAt(1))?;
        let _ = pairs.push(pair);
        self.1.gather(pairs).map_err(|at| TooLargeAt(at.0 + 1))
    }

    fn len(&self) -> u32 {
        self.1.len().saturating_add(1)
    }

    fn added_widths(&self) -> u32 {
        self.0
            .greatest_width()
            .saturating_add(self.1.added_widths())
    }
}
