ghost use Rattle.std.specs.Prelude.{◌≡◌, ℕ, ◌^◌, ◌≤◌};
ghost use Rattle.roots.specs.Form.{sum};
ghost use Rattle.lines.specs.Kinds.{number};
ghost use Rattle.lines.specs.Tally.{Totalled, first_of, second_of, count_of};

use super::super::kind::Kind;
use super::super::line::Line;
use super::super::sums::Sums;
use super::Totals;

// The most lines that are totalled.
const MOST: usize = 128;

// Kind and class are arguments of their own: a pair of them would be made at each call and taken apart here.
impl Totals {
    /// The totals of these lines, or `None` of more than 128.
    pub fn of(lines: &[Line]) -> Option<Totals>
        ensures { Totalled lines.now result }
    {
        if lines.len() > MOST {
            return None;
        }
        let mut sums = Sums::new();
        for line in lines {
            sums.add(line);
        }
        Some(Totals { sums })
    }

    /// The weights of a kind and class, added.
    pub fn first(&self, kind: Kind, class: u8) -> u64
        ensures value { result ≡ first_of self.now (number kind) class }
        ensures small { result ≤ 2 ^ 63 }
    {
        self.sums.at(kind, class).first
    }

    // Apart from `first`, since it has a bound of its own.
    /// The amounts of a class of kind 25, added.
    pub fn operational(&self, class: u8) -> u64
        ensures value { result ≡ first_of self.now 25 class }
        ensures small { result ≤ 2 ^ 40 }
    {
        self.sums.at(Kind::Operational, class).first
    }

    /// The second amounts of a kind and class, added.
    pub fn second(&self, kind: Kind, class: u8) -> u64
        ensures value { result ≡ second_of self.now (number kind) class }
        ensures small { result ≤ 2 ^ 40 }
    {
        self.sums.at(kind, class).second
    }

    /// How many lines of a kind and class there are.
    pub fn count(&self, kind: Kind, class: u8) -> u64
        ensures value { result ≡ count_of self.now (number kind) class }
        ensures small { result ≤ 128 }
    {
        self.sums.at(kind, class).count
    }

    /// The weights of a kind, of every class, added.
    pub fn whole(&self, kind: Kind) -> u64
        ensures value { result ≡ sum 16 (λ c. first_of self.now (number kind) c) }
        ensures small { result ≤ 2 ^ 63 }
    {
        self.sums.row(kind).iter().map(|sum| sum.first).sum()
    }

    /// How many lines of a kind there are.
    pub fn lines(&self, kind: Kind) -> u64
        ensures value { result ≡ sum 16 (λ c. count_of self.now (number kind) c) }
        ensures small { result ≤ 128 }
    {
        self.sums.row(kind).iter().map(|sum| sum.count).sum()
    }
}
