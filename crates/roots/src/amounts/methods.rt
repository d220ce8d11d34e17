ghost use Rattle.std.specs.Prelude.{◌≡◌, ℕ, ◌<◌, ◌≤◌, [], ◌∷◌, ◌++◌, length, is_ok, if◌then◌else◌};
ghost use Rattle.roots.specs.Answers.{AmountsMade, push_fault, told};
ghost use Rattle.roots.specs.Form.{at};
ghost use Rattle.roots.specs.Held.{held};

use super::{AmountFault, Amounts};

const MOST: usize = 16;

// What an amount under a table may be; a charge has its limit for a reason of its own.
const LARGEST: u32 = 16_777_215;

impl Amounts {
    /// No amount.
    pub fn new() -> Amounts
        ensures { held result ≡ [] }
    {
        Amounts {
            values: [0; 16],
            len: 0,
        }
    }

    /// One amount more at the end; a fault leaves the amounts as they were.
    pub fn push(&mut self, amount: u32) -> Result<(), AmountFault>
        ensures answer { result ≡ told (push_fault (held self.old) amount) }
        ensures after { held self.new ≡ (if is_ok result then held self.old ++ (amount ∷ []) else held self.old) }
    {
        if self.len >= MOST {
            return Err(AmountFault::Count);
        }
        if amount > LARGEST {
            return Err(AmountFault::Large(self.len + 1));
        }
        self.values[self.len] = amount;
        self.len += 1;
        Ok(())
    }

    /// These amounts.
    pub fn from_slice(given: &[u32]) -> Result<Amounts, AmountFault>
        ensures { AmountsMade given.now result }
    {
        if given.len() > MOST {
            return Err(AmountFault::Count);
        }
        let mut amounts = Amounts::new();
        for amount in given {
            amounts.push(*amount)?;
        }
        Ok(amounts)
    }

    /// How many there are.
    pub fn len(&self) -> usize
        ensures value { result ≡ length (held self.now) }
        ensures most { result ≤ 16 }
    {
        self.as_slice().len()
    }

    /// The amounts in order.
    pub fn as_slice(&self) -> &[u32]
        ensures value { result.now ≡ held self.now }
        ensures few { length result.now ≤ 16 }
        ensures small { (i : ℕ) → at result.now i < 16777216 }
    {
        &self.values[0..self.len]
    }
}
