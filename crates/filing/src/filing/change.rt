ghost use Rattle.std.specs.Prelude.{◌≡◌};
ghost use Rattle.lines.specs.Held.{plain};
ghost use Rattle.lines.specs.Kinds.{number};
ghost use Rattle.lines.specs.Totals.{kind_count};
ghost use Rattle.tables.specs.Replacing.{answer, refusal as replace_refusal};
ghost use Rattle.filing.specs.Machine.{full, enter_refusal, entered, strike_refusal, struck, replaced};
ghost use Rattle.filing.specs.Stands.{stands, told};

use super::super::fault::FilingFault;
use super::{Filing, MOST_LINES};
use lines::{Fields, Kind, Line};

// The most lines of a kind whose amounts are squared.
const MOST_SQUARED: usize = 16;

// How many of the lines are of a kind.
fn count(lines: &[Line], kind: Kind) -> usize
    ensures { result ≡ kind_count (number kind) (plain lines.now) }
{
    // the number once, and not a kind made of every line's number: this is asked of up to 128 lines
    let number = u8::from(kind);
    lines
        .iter()
        .filter(|line| line.fields().kind == number)
        .count()
}

impl Filing {
    // Whether there is no room for one more line of a kind.
    fn is_full(&self, kind: Kind) -> bool
        ensures { result ≡ full (plain self.now.lines.items) (number kind) }
    {
        self.lines.len() >= MOST_LINES
            || (kind.is_squared() && count(&self.lines, kind) >= MOST_SQUARED)
    }

    /// One line more at the end.
    pub fn enter(&mut self, fields: Fields) -> Result<(), FilingFault>
        ensures answer { told result ≡ answer (enter_refusal (stands self.old) fields) }
        ensures after { stands self.new ≡ entered (stands self.old) fields }
    {
        let number = self.lines.len() + 1;
        let line = Line::new(fields, number)?;
        if self.is_full(line.kind()) {
            return Err(FilingFault::Full(number));
        }
        self.lines.push_reserved(line);
        Ok(())
    }

    /// The line with that number, from 1, removed; the lines behind it move up.
    pub fn strike(&mut self, number: usize) -> Result<(), FilingFault>
        ensures answer { told result ≡ answer (strike_refusal (stands self.old) number) }
        ensures after { stands self.new ≡ struck (stands self.old) number }
    {
        if number == 0 || number > self.lines.len() {
            return Err(FilingFault::NoLine(number));
        }
        self.lines.remove(number - 1);
        Ok(())
    }

    /// The table with that number replaced by the one with these entries above its diagonal, row by row.
    pub fn replace(&mut self, table: u8, entries: &[u8]) -> Result<(), FilingFault>
        ensures answer { told result ≡ answer (replace_refusal table entries.now) }
        ensures after { stands self.new ≡ replaced (stands self.old) table entries.now }
    {
        self.tables.replace(table, entries)?;
        Ok(())
    }
}
