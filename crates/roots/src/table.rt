ghost use Rattle.std.specs.Prelude.{◌≡◌, ℕ, ◌≤◌};
ghost use Rattle.roots.specs.Cells.{entry, identity};

use super::size::Size;

/// Correlations in hundredths between the members of a set: symmetric, 100 on the diagonal,
/// 0 to 100 elsewhere. It is only ever replaced whole.
#[derive(Clone, Copy)]
pub struct Table {
    size: Size,
    // 16 rows of 16 in one array, since no proof was found over an array of arrays;
    // past the members stands the identity
    cells: [u8; 256],
    ghost symmetric: { ((r c : ℕ) → entry cells r c ≡ entry cells c r) },
    ghost diagonal: { ((r : ℕ) → entry cells r r ≡ 100) },
    ghost small: { ((r c : ℕ) → entry cells r c ≤ 100) },
    ghost outside: { ((r c : ℕ) → size.count ≤ c → entry cells r c ≡ identity r c) },
}

/// Why entries make no table.
#[derive(Clone, Copy, PartialEq, Eq, Debug)]
pub enum TableFault {
    /// Another count of entries than the table has above its diagonal.
    Count,
    /// The first entry above 100, by its position from 1.
    Entry(usize),
}

mod fill;
mod methods;
