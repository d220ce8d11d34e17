ghost use Rattle.std.specs.Prelude.{◌≡◌};
ghost use Rattle.tables.specs.Replacing.{answer};
ghost use Rattle.filing.specs.Machine.{open_refusal, reopened};
ghost use Rattle.filing.specs.Stands.{stands, told, NewlyOpened};

use super::super::fault::{FilingFault, OpenFault};
use super::{Filing, MOST_LINES};
use std::alloc::Global;
use tables::Tables;

const FIRST_YEAR: u16 = 2_000;

const LAST_YEAR: u16 = 4_095;

const LAST_QUARTER: u8 = 4;

// Whether a filing may be of that year and quarter.
fn judge(year: u16, quarter: u8) -> Result<(), FilingFault>
    ensures { told result ≡ answer (open_refusal year quarter) }
{
    if !(FIRST_YEAR..=LAST_YEAR).contains(&year) {
        return Err(FilingFault::Year);
    }
    if !(1..=LAST_QUARTER).contains(&quarter) {
        return Err(FilingFault::Quarter);
    }
    Ok(())
}

impl Filing {
    /// A new filing with no lines and 0 off every diagonal. It is the only call that asks for memory.
    pub fn new(heap: Global, year: u16, quarter: u8) -> Result<Filing, OpenFault>
        ensures { NewlyOpened year quarter result }
    {
        judge(year, quarter)?;
        let lines = Vec::with_capacity(heap, MOST_LINES)?;
        Ok(Filing {
            year,
            quarter,
            tables: Tables::uncorrelated(),
            lines,
        })
    }

    /// Makes this filing one with no lines and 0 off every diagonal.
    pub fn open(&mut self, year: u16, quarter: u8) -> Result<(), FilingFault>
        ensures answer { told result ≡ answer (open_refusal year quarter) }
        ensures after { stands self.new ≡ reopened (stands self.old) year quarter }
    {
        judge(year, quarter)?;
        self.year = year;
        self.quarter = quarter;
        self.tables = Tables::uncorrelated();
        self.lines.clear();
        Ok(())
    }
}
