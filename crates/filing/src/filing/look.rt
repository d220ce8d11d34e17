ghost use Rattle.std.specs.Prelude.{◌≡◌, ◌≤◌, length};
ghost use Rattle.lines.specs.Held.{plain};
ghost use Rattle.tables.specs.Standing.{entries};
ghost use Rattle.filing.specs.Stands.{stands};

use super::Filing;
use lines::Line;
use tables::Tables;

impl Filing {
    /// Its year.
    pub fn year(&self) -> u16
        ensures { result ≡ (stands self.now).year }
    {
        self.year
    }

    /// Its quarter.
    pub fn quarter(&self) -> u8
        ensures { result ≡ (stands self.now).quarter }
    {
        self.quarter
    }

    /// Its tables.
    pub fn tables(&self) -> &Tables
        ensures { entries result.now ≡ (stands self.now).tables }
    {
        &self.tables
    }

    /// Its lines in order.
    pub fn lines(&self) -> &[Line]
        ensures value { plain result.now ≡ (stands self.now).lines }
        ensures few { length result.now ≤ 128 }
    {
        self.lines.as_slice()
    }
}
