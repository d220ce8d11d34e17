ghost use Rattle.lines.specs.Held.{plain};
ghost use Rattle.lines.specs.Tally.{Tally};

use lines::{Line, Totals};
use tables::NamedTables;

/// What charges are made from: at most 128 lines with their totals, and seven tables.
#[derive(Clone, Copy)]
pub struct Given<'a> {
    lines: &'a [Line],
    totals: Totals,
    tables: NamedTables,
    ghost tallied: { Tally totals (plain lines.now) },
}

mod make;
