ghost use Rattle.std.specs.Prelude.{◌≡◌, ℕ, ◌+◌, ◌*◌, ◌^◌, ◌<◌, ◌≤◌, length};
ghost use Rattle.roots.specs.Answers.{TableMade};
ghost use Rattle.roots.specs.Cells.{identity};
ghost use Rattle.roots.specs.Form.{sum, at, form as form_of};
ghost use Rattle.roots.specs.Held.{members_of, table_members, correlation, held};
ghost use Rattle.roots.specs.Laws.{Lawful};
ghost use Rattle.roots.specs.Root.{lower, upper};

use super::super::amounts::Amounts;
use super::super::root::roots;
use super::super::size::Size;
use super::fill::{Upper, first_above_100};
use super::{Table, TableFault};

impl Table {
    /// 0 off the diagonal: no member is correlated with another.
    pub fn uncorrelated(size: Size) -> Table
        ensures size { table_members result ≡ members_of size }
        ensures entries { (r c : ℕ) → correlation result r c ≡ identity r c }
    {
        let cells = Upper { size, given: &[] }.cells();
        Table { size, cells }
    }

    /// The table with these entries above its diagonal, row by row.
    pub fn from_upper(size: Size, given: &[u8]) -> Result<Table, TableFault>
        ensures { TableMade (members_of size) given.now result }
    {
        if given.len() != size.entries() {
            return Err(TableFault::Count);
        }
        if let Some(position) = first_above_100(given) {
            return Err(TableFault::Entry(position));
        }
        let cells = Upper { size, given }.cells();
        Ok(Table { size, cells })
    }

    /// How many members it has.
    pub fn size(&self) -> Size
        ensures { members_of result ≡ table_members self.now }
    {
        self.size
    }

    /// The entry of a row and a column, from 0; past the members that of the identity.
    pub fn entry(&self, r: usize, c: usize) -> u8
        ensures { result ≡ correlation self.now r c }
    {
        if r < 16 && c < 16 {
            self.cells[r * 16 + c]
        } else if r == c {
            100
        } else {
            0
        }
    }

    // The sum over the columns c before `r` of entry(r, c) × x(c).
    fn before_diagonal(&self, amounts: &Amounts, r: usize) -> u64
        requires within { r < length (held amounts.now) }
        ensures value { result ≡ sum r (λ c. correlation self.now r c * at (held amounts.now) c) }
        ensures bound { result ≤ r * (100 * 2 ^ 24) }
    {
        self.cells[r * 16..r * 16 + r]
            .iter()
            .zip(amounts.as_slice())
            .map(|(e, x)| *e as u64 * *x as u64)
            .sum()
    }

    /// The sum over all ordered pairs r, c of entry(r, c) × x(r) × x(c).
    pub fn form(&self, amounts: &Amounts) -> u64
        ensures value { result ≡ form_of (correlation self.now) (held amounts.now) }
        ensures bound { result < 2 ^ 63 }
    {
        let mut total: u64 = 0;
        for (r, x) in amounts.as_slice().iter().enumerate() {
            let x = *x as u64;
            total += x * (100 * x + 2 * self.before_diagonal(amounts, r));
        }
        total
    }

    /// The amounts combined: the lower and the upper root of their form.
    pub fn combined(&self, amounts: &Amounts) -> (u32, u32)
        ensures value { result ≡ (lower (form_of (correlation self.now) (held amounts.now)), upper (form_of (correlation self.now) (held amounts.now))) }
        ensures lawful { Lawful (correlation self.now) (held amounts.now) }
    {
        roots(self.form(amounts))
    }
}
