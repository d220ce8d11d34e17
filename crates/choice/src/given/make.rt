ghost use Rattle.std.specs.Prelude.{◌≡◌};
ghost use Rattle.lines.specs.Held.{plain};
ghost use Rattle.lines.specs.Tally.{Tally};
ghost use Rattle.tables.specs.Standing.{in_order};
ghost use Rattle.choice.specs.Basis.{basis, on, GivenMade};

use super::Given;
use lines::{Line, Totals};
use tables::NamedTables;

impl<'a> Given<'a> {
    /// Lines and tables, or `None` of more than 128 lines.
    pub fn new(lines: &'a [Line], tables: &NamedTables) -> Option<Given<'a>>
        ensures { GivenMade lines.now tables.now result }
    {
        let totals = Totals::of(lines)?;
        Some(Given {
            lines,
            totals,
            tables: *tables,
        })
    }

    /// The same lines with these tables in place of those before; they are not added up again.
    pub fn set_tables(&mut self, tables: &NamedTables)
        ensures { basis self.new ≡ on (basis self.old).lines tables.now }
    {
        self.tables = *tables;
    }

    /// The lines.
    pub fn lines(&self) -> &[Line]
        ensures { plain result.now ≡ (basis self.now).lines }
    {
        self.lines
    }

    /// Their totals.
    pub fn totals(&self) -> &Totals
        ensures { Tally result.now (basis self.now).lines }
    {
        &self.totals
    }

    /// The tables.
    pub fn tables(&self) -> &NamedTables
        ensures { in_order result.now ≡ (basis self.now).tables }
    {
        &self.tables
    }
}
