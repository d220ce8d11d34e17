ghost use Rattle.std.specs.Prelude.{◌≡◌, ℕ, ◌+◌, ◌*◌, ◌^◌, ◌<◌, ◌&&◌, if◌then◌else◌, ◌==◌, length, slice_index_or};
ghost use Rattle.lines.specs.Cells.{none, cell, more};
ghost use Rattle.lines.specs.Held.{fields_of};
ghost use Rattle.lines.specs.Kinds.{number};
ghost use Rattle.lines.specs.Weights.{weight};

use super::super::kind::Kind;
use super::super::line::Line;
use super::{Sum, Sums};

const CLASSES: u8 = 16;

// Where the cells of a kind begin.
fn start(kind: Kind) -> usize
    ensures value { result ≡ number kind * 16 }
    ensures inside { result + 16 < 512 }
{
    usize::from(u8::from(kind)) * usize::from(CLASSES)
}

impl Sums {
    pub(crate) fn new() -> Sums
        ensures { (k c : ℕ) → cell result k c ≡ none }
    {
        Sums {
            cells: [Sum::default(); 512],
        }
    }

    // The sums of a kind and class, 0 where there is no such class.
    pub(crate) fn at(&self, kind: Kind, class: u8) -> Sum
        ensures { result ≡ cell self.now (number kind) class }
    {
        if class < CLASSES {
            self.cells[start(kind) + usize::from(class)]
        } else {
            Sum::default()
        }
    }

    // The sums of a kind, one for each class.
    pub(crate) fn row(&self, kind: Kind) -> &[Sum]
        ensures all { length result.now ≡ 16 }
        ensures each { (c : ℕ) → c < 16 → slice_index_or result.now c none ≡ cell self.now (number kind) c }
    {
        let start = start(kind);
        &self.cells[start..start + usize::from(CLASSES)]
    }

    // A line more, where there is room in its cell.
    pub(crate) fn add(&mut self, line: &Line)
        requires first { let l = fields_of line.now in (cell self.old l.kind l.class).first + weight l < 2 ^ 64 }
        requires second { let l = fields_of line.now in (cell self.old l.kind l.class).second + l.second < 2 ^ 64 }
        requires count { let l = fields_of line.now in (cell self.old l.kind l.class).count + 1 < 2 ^ 64 }
        ensures { let l = fields_of line.now in
            (k c : ℕ) → cell self.new k c ≡ (if l.kind == k && l.class == c then more (cell self.old k c) l else cell self.old k c) }
    {
        let fields = line.fields();
        let sum = &mut self.cells[start(line.kind()) + usize::from(fields.class)];
        sum.first += line.weight();
        sum.second += u64::from(fields.second);
        sum.count += 1;
    }
}
