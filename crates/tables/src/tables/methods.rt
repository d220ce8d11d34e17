ghost use Rattle.std.specs.Prelude.{◌≡◌, ◌+◌, ◌<◌, ◌≤◌};
ghost use Rattle.roots.specs.Cells.{identity};
ghost use Rattle.roots.specs.Held.{correlation, table_members};
ghost use Rattle.tables.specs.Faults.{of_table};
ghost use Rattle.tables.specs.Numbers.{number};
ghost use Rattle.tables.specs.Replacing.{told, replacing, replaced};
ghost use Rattle.tables.specs.Sizes.{size, sizes};
ghost use Rattle.tables.specs.Standing.{entries, in_order, sizes_of, table as table_of, uncorrelated as none_correlated};

use super::super::fault::EntriesFault;
use super::super::named::NamedTables;
use super::super::which::Which;
use super::Tables;
use roots::{Size, Table, TableFault};

// The table of that many members with 0 off its diagonal.
fn uncorrelated(members: usize) -> Table
    requires { (2 ≤ members) × (members ≤ 16) }
    ensures size { table_members result ≡ members }
    ensures entries { correlation result ≡ identity }
{
    Table::uncorrelated(Size::new(members).unwrap())
}

// The fault of the table with that number. No `From`: it takes two values.
fn entries_fault(table: u8, fault: TableFault) -> EntriesFault
    ensures { result ≡ of_table table fault }
{
    match fault {
        TableFault::Count => EntriesFault::Count(table),
        TableFault::Entry(position) => EntriesFault::Entry(table, position),
    }
}

// Where the table stands, from 0.
fn place(which: Which) -> usize
    ensures value { result + 1 ≡ number which }
    ensures inside { result < 7 }
{
    which as usize - 1
}

// A table that is to be replaced goes by its number, as given: no table may have it.
impl Tables {
    /// 0 off every diagonal.
    pub fn uncorrelated() -> Tables
        ensures { entries result ≡ none_correlated }
    {
        Tables {
            // `map` over the sizes was tried: that each is 2 to 16 found no proof
            all: [
                uncorrelated(5),
                uncorrelated(6),
                uncorrelated(2),
                uncorrelated(7),
                uncorrelated(3),
                uncorrelated(2),
                uncorrelated(15),
            ],
        }
    }

    /// One of the tables.
    pub fn get(&self, which: Which) -> Table
        ensures entries { correlation result ≡ table_of (entries self.now) (number which) }
        ensures size { table_members result ≡ size (number which) }
    {
        self.all[place(which)]
    }

    /// The table with that number replaced by the one with these entries above its diagonal, row by
    /// row; a fault leaves the tables as they were.
    pub fn replace(&mut self, table: u8, given: &[u8]) -> Result<(), EntriesFault>
        ensures answer { told result ≡ replacing table given.now }
        ensures after { entries self.new ≡ replaced (entries self.old) table given.now }
    {
        let which = Which::try_from(table).map_err(|_| EntriesFault::Count(table))?;
        let place = place(which);
        let new = Table::from_upper(self.all[place].size(), given).map_err(|fault| entries_fault(
            table, fault,
        ))?;
        self.all[place] = new;
        Ok(())
    }
}

impl From<Tables> for NamedTables {
    ghost from_gives = { λ ts named. (in_order named ≡ entries ts) × (sizes_of named ≡ sizes) };

    fn from(tables: Tables) -> NamedTables {
        let [basic, market, equity, life, health, non_life, business] = tables.all;
        NamedTables {
            basic,
            market,
            equity,
            life,
            health,
            non_life,
            business,
        }
    }
}
