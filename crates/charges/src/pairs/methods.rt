ghost use Rattle.std.specs.Prelude.{◌≡◌, ◌+◌, ◌≤◌, [], ◌∷◌, ◌++◌, length, drop, is_ok, if◌then◌else◌};
ghost use Rattle.roots.specs.Answers.{told};
ghost use Rattle.roots.specs.Held.{held as amounts_held};
ghost use Rattle.charges.specs.Held.{held, pair_fault, side_of, sides};

use super::super::charge::LIMIT;
use super::{PairFault, Pairs, Side};
use roots::Amounts;

const MOST: usize = 27;

impl Side {
    fn of(self, pair: (u32, u32)) -> u32
        ensures { result ≡ side_of self pair }
    {
        match self {
            Side::Low => pair.0,
            Side::High => pair.1,
        }
    }
}

impl Pairs {
    /// None.
    pub fn new() -> Pairs
        ensures { held result ≡ [] }
    {
        Pairs {
            values: [(0, 0); 28],
            len: 0,
        }
    }

    /// How many there are.
    pub fn len(&self) -> usize
        ensures value { result ≡ length (held self.now) }
        ensures most { result ≤ 27 }
    {
        self.len
    }

    /// One pair more behind those held; a fault leaves them as they were.
    pub fn push(&mut self, pair: (u32, u32)) -> Result<(), PairFault>
        ensures answer { result ≡ told (pair_fault (held self.old) pair) }
        ensures after { held self.new ≡ (if is_ok result then held self.old ++ (pair ∷ []) else held self.old) }
    {
        if self.len >= MOST {
            return Err(PairFault::Full);
        }
        if pair.0 > LIMIT || pair.1 > LIMIT {
            return Err(PairFault::Large);
        }
        self.values[self.len] = pair;
        self.len += 1;
        Ok(())
    }

    // The pairs in order.
    fn as_slice(&self) -> &[(u32, u32)]
        ensures { result.now ≡ held self.now }
    {
        &self.values[..self.len]
    }

    // The lows or the highs behind the first `from`.
    pub(crate) fn side(&self, from: usize, side: Side) -> Amounts
        requires within { from ≤ length (held self.now) }
        requires few { length (held self.now) ≤ from + 16 }
        ensures { amounts_held result ≡ sides side (drop from (held self.now)) }
    {
        let mut amounts = Amounts::new();
        for pair in &self.as_slice()[from..] {
            let _ = amounts.push(side.of(*pair));
        }
        amounts
    }

    // These, and one more behind them.
    pub(crate) fn and_last(&self, last: (u32, u32)) -> [(u32, u32); 28]
        requires { length (held self.now) ≡ 27 }
        ensures { result ≡ held self.now ++ (last ∷ []) }
    {
        let mut all = self.values;
        all[MOST] = last;
        all
    }
}
