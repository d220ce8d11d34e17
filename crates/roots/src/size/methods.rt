ghost use Rattle.std.specs.Prelude.{◌≡◌, ◌≤◌};
ghost use Rattle.std.specs.Option.{option_map};
ghost use Rattle.roots.specs.Answers.{sized};
ghost use Rattle.roots.specs.Cells.{entry_count};
ghost use Rattle.roots.specs.Held.{members_of};

use super::Size;

// No `TryFrom`: of a number that is no size there is nothing to say but that.
impl Size {
    /// The size of that many members, or `None` outside 2 to 16.
    pub fn new(members: usize) -> Option<Size>
        ensures { option_map members_of result ≡ sized members }
    {
        if members < 2 || members > 16 {
            return None;
        }
        Some(Size { count: members })
    }

    /// How many members: 2 to 16.
    pub fn members(self) -> usize
        ensures value { result ≡ members_of self }
        ensures least { 2 ≤ result }
        ensures most { result ≤ 16 }
    {
        self.count
    }

    /// How many entries stand above the diagonal.
    pub fn entries(self) -> usize
        ensures value { result ≡ entry_count (members_of self) }
        ensures most { result ≤ 120 }
    {
        let n = self.members();
        n * (n - 1) / 2
    }
}
