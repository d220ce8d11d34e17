ghost use Rattle.std.specs.Prelude.{◌≡◌};
ghost use Rattle.tables.specs.Faults.{shown};

/// Why entries do not replace a table.
#[derive(Clone, Copy, PartialEq, Eq, Debug)]
pub enum EntriesFault {
    /// No table has that number, or it has another count of entries.
    Count(u8),
    /// The first entry above 100: the table's number, and the entry's position from 1.
    Entry(u8, usize),
}

// By a rule of the project a refusal is told as three numbers, so there is no `Display` and no struct.
impl EntriesFault {
    /// The refusal's number, the table's number and the entry's position.
    pub fn shown(self) -> (u8, usize, usize)
        ensures { result ≡ shown self }
    {
        match self {
            EntriesFault::Count(table) => (3, usize::from(table), 0),
            EntriesFault::Entry(table, position) => (3, usize::from(table), position),
        }
    }
}
