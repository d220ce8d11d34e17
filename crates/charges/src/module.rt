ghost use Rattle.std.specs.Prelude.{◌≡◌, ℕ, ◌+◌, ◌*◌, ◌≤◌, List};
ghost use Rattle.std.proofs.Common.{ap₂, sym, ◌∙◌};
ghost use Rattle.roots.specs.Held.{correlation};
ghost use Rattle.charges.specs.Meaning.{module_of};
ghost use Rattle.roots.proofs.Tables.{table_sound};
ghost use Rattle.charges.specs.Modules.{module_terms};
ghost use Rattle.roots.specs.Form.{added};
ghost use Rattle.roots.specs.Root.{ceiling_root};

use super::charge::{Charge, LIMIT, TooLarge};
use super::members::Members;
use super::pairs::{Pairs, Side};
use roots::{Table, ceiling_root};

/// Two to sixteen charges combined under a table: a charge again.
#[derive(Clone, Copy)]
pub struct Module<Ms> {
    members: Ms,
    table: Table,
}

impl<Ms> Module<Ms> {
    /// These members under this table.
    pub fn new(members: Ms, table: Table) -> Self
        ensures members { result.members ≡ members }
        ensures table { result.table ≡ table }
    {
        Module { members, table }
    }
}

impl<Ms: Members> Charge for Module<Ms> {
    ghost D = { λ m. (module_of (correlation m.table) (Ms.Members.each m.members)).D };

    ghost U = { λ m. (module_of (correlation m.table) (Ms.Members.each m.members)).U };

    ghost width = { λ m. (module_of (correlation m.table) (Ms.Members.each m.members)).width };

    ghost inner = { λ m. (module_of (correlation m.table) (Ms.Members.each m.members)).inner };

    ghost proper = { (2 ≤ Ms.Members.count) × (Ms.Members.count ≤ 16) × Ms.Members.proper };

    ghost terms = { λ c. module_terms (correlation c.table) (table_sound c.table) (Ms.Members.each c.members) (Ms.Members.terms c.members) };

    ghost alike = { λ a b.
        let met = Ms.Members in
        ap₂ (λ (n : ℕ) (ws : List ℕ). 1 + ceiling_root n * added ws) (met.counted a.members ∙ sym (met.counted b.members)) (met.alike a.members b.members) };

    fn bounds(&self) -> Result<(u32, u32), TooLarge> {
        let mut pairs = Pairs::new();
        self.members.gather(&mut pairs)?;
        let (low, _) = self.table.combined(&pairs.side(0, Side::Low));
        let (_, high) = self.table.combined(&pairs.side(0, Side::High));
        if high > LIMIT {
            return Err(TooLarge);
        }
        Ok((low, high))
    }

    fn greatest_width(&self) -> u32 {
        ceiling_root(self.members.len())
            .saturating_mul(self.members.added_widths())
            .saturating_add(1)
    }
}
