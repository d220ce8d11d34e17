ghost use Rattle.std.specs.Prelude.{◌≡◌, List};
ghost use Rattle.charges.specs.Meaning.{widths};
ghost use Rattle.lines.specs.declared.fields.Fields.{Fields};
ghost use Rattle.lines.specs.Tally.{Tally};
ghost use Rattle.choice.specs.Basis.{Basis, on};
ghost use Rattle.choice.specs.Figured.{Figured, all_figures};
ghost use Rattle.kinds.specs.Examples.{Examples};
ghost use Rattle.kinds.specs.Ours.{ours, our_widths};

use super::maker::Maker;
use super::ours::Ours;
use charges::{Charges, TooLargeAt};
use choice::figures_of;
use lines::Totals;
use tables::NamedTables;

/// The 28 figures by our charges, with their greatest widths as numbers; what the definitions give is
/// checked against rows worked by hand.
pub fn figures(
    totals: &Totals,
    tables: &NamedTables,
    place: &mut [(u32, u32); 28],
) -> Result<(), TooLargeAt>
    ensures answer { (ls : List Fields) → Tally totals.now ls → Figured ours (on ls tables.now) place.old place.new result }
    ensures width { (b : Basis) → widths (all_figures ours b) ≡ our_widths }
    ensures worked { Examples }
{
    let maker = Maker { totals, tables };
    let charges = Charges {
        market: maker.market(),
        life: maker.life(),
        health: maker.health(),
        non_life: maker.non_life(),
        basic: maker.basic(),
    };
    figures_of::<Ours>(&charges, totals, tables, place)
}
