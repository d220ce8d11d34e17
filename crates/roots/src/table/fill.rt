ghost use Rattle.std.specs.Prelude.{◌≡◌, ℕ, ◌+◌, ◌-◌, ◌/◌, ◌%◌, ◌<◌, ◌≤◌, length, slice_index};
ghost use Rattle.roots.specs.First.{first_above};
ghost use Rattle.roots.specs.Cells.{before, above, filled};
ghost use Rattle.roots.specs.Held.{members_of};

use super::super::size::Size;
use std::array;

// The highest correlation, in hundredths.
const HIGHEST: u8 = 100;

// Entries as they are given for a table: those above its diagonal, row by row.
#[derive(Clone, Copy)]
pub(super) struct Upper<'a> {
    pub(super) size: Size,
    pub(super) given: &'a [u8],
}

impl Upper<'_> {
    // How many entries above the diagonal stand in the rows before `r`.
    fn before(&self, r: usize) -> usize
        requires { r < members_of self.now.size }
        ensures value { result ≡ before (members_of self.now.size) r }
        ensures bound { result ≤ 256 }
    {
        r * (2 * self.size.members() - (r + 1)) / 2
    }

    // The entry of row `r` and column `c`, above the diagonal.
    fn above(&self, r: usize, c: usize) -> u8
        requires { r < c }
        ensures { result ≡ above (members_of self.now.size) self.now.given.now r c }
    {
        if c >= self.size.members() {
            return 0;
        }
        let place = self.before(r) + (c - (r + 1));
        self.given.get(place).copied().unwrap_or(0)
    }

    fn entry(&self, r: usize, c: usize) -> u8
        ensures { result ≡ filled (members_of self.now.size) self.now.given.now r c }
    {
        if r == c {
            HIGHEST
        } else if r < c {
            self.above(r, c)
        } else {
            self.above(c, r)
        }
    }

    // All cells of the table with these entries, row by row.
    pub(super) fn cells(&self) -> [u8; 256]
        ensures { (k : ℕ) → k < 256 → slice_index result k ≡ filled (members_of self.now.size) self.now.given.now (k / 16) (k % 16) }
    {
        array::from_fn(|k| self.entry(k / 16, k % 16))
    }
}

// The position, from 1, of the first entry above 100.
pub(super) fn first_above_100(given: &[u8]) -> Option<usize>
    ensures { result ≡ first_above 100 given.now }
{
    given.iter().position(|v| *v > HIGHEST).map(|i| i + 1)
}
