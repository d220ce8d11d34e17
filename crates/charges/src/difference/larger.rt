ghost use Rattle.std.specs.Prelude.{◌≡◌, ℕ, max};
ghost use Rattle.charges.specs.Leaves.{difference, differs};

use super::Difference;

impl Difference {
    /// The losses less the gains.
    pub fn new(losses: u64, gains: u64) -> Difference
        ensures { differs result ≡ difference losses gains }
    {
        Difference { losses, gains }
    }

    /// The larger of two, in every unit.
    pub fn larger(self, other: Difference) -> Difference
        ensures { (k : ℕ) → (differs result).D k ≡ max ((differs self).D k) ((differs other).D k) }
    {
        if self.losses.saturating_sub(self.gains) < other.losses.saturating_sub(other.gains) {
            other
        } else {
            self
        }
    }
}
