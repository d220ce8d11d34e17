ghost use Rattle.std.specs.Prelude.{◌≡◌, List, ◌++◌};
ghost use Rattle.roots.specs.Held.{correlation};
ghost use Rattle.charges.specs.Worked.{Answered};
ghost use Rattle.lines.specs.declared.fields.Fields.{Fields};
ghost use Rattle.lines.specs.Tally.{Tally};
ghost use Rattle.choice.specs.Basis.{basis};
ghost use Rattle.choice.specs.Beside.{beside as beside_of};
ghost use Rattle.choice.specs.Figured.{Figured};

use super::beside::beside;
use super::choice::Choice;
use super::given::Given;
use super::lists::Lists;
use charges::{Charges, TooLargeAt, work_out};
use lines::Totals;
use tables::NamedTables;

/// The 28 figures of charges, however they were made, of the totals of lines and of tables into the
/// place, or the lowest that is too large, and the place as before.
pub fn figures_of<L: Lists>(
    charges: &Charges<L::Market, L::Life, L::Health, L::NonLife, L::Basic>,
    totals: &Totals,
    tables: &NamedTables,
    place: &mut [(u32, u32); 28],
) -> Result<(), TooLargeAt>
    ensures { (ls : List Fields) → Tally totals.now ls → Answered (correlation tables.now.basic) (beside_of ls) (L.Market.Members.each charges.now.market ++ L.Life.Members.each charges.now.life ++ L.Health.Members.each charges.now.health ++ L.NonLife.Members.each charges.now.non_life) (L.Basic.Members.each charges.now.basic) place.old place.new result }
{
    work_out(charges, &tables.basic, &beside(totals), place)
}

/// The 28 figures by a choice of charges into the place, or the lowest that is too large, and the
/// place as before.
pub fn figures_by<C: Choice>(given: &Given, place: &mut [(u32, u32); 28]) -> Result<(), TooLargeAt>
    ensures { Figured C.Choice.meaning (basis given.now) place.old place.new result }
{
    let charges = Charges {
        market: C::market(given),
        life: C::life(given),
        health: C::health(given),
        non_life: C::non_life(given),
        basic: C::basic(given),
    };
    figures_of::<C>(&charges, given.totals(), given.tables(), place)
}
