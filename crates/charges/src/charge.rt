ghost use Rattle.std.specs.Prelude.{◌≡◌, ℕ, ◌-◌, ◌^◌, min, List, []};
ghost use Rattle.charges.specs.Meaning.{Terms, Told, means};

/// A capital charge: in every unit, a result rounded down and one rounded up.
pub trait Charge {
    // the result in a unit k times finer, rounded down and rounded up
    ghost D: { Self → ℕ → ℕ };

    ghost U: { Self → ℕ → ℕ };

    // the greatest width
    ghost width: { Self → ℕ };

    // the highs of its members, at every depth
    ghost inner: { Self → List ℕ } = { λ c. [] };

    // of the type alone: two to sixteen members at every depth. It is asked of callers: as an invariant of
    // a module it would ask `Module::new` what that never asked
    ghost proper: { Type 0 } = { Unit {0} };

    /// The low and the high together, or that they are too large.
    fn bounds(&self) -> Result<(u32, u32), TooLarge>
        requires { proper }
        ensures { Told (means (D self.now) (U self.now) (width self.now) (inner self.now)) result };

    /// The greatest width, or 4,294,967,295 where it is larger.
    fn greatest_width(&self) -> u32
        requires { proper }
        ensures { result ≡ min (width self.now) (2 ^ 32 - 1) };

    ghost terms: { (c : Self) → Terms (means (D c) (U c) (width c) (inner c)) };

    // the greatest width depends on the make alone
    ghost alike: { (a b : Self) → width a ≡ width b };
}

/// The largest high of a charge.
pub const LIMIT: u32 = 16_777_215;

/// A charge's answer in place of a low and a high: its high, or that of a member at any depth, passes
/// 16,777,215. It tells no more: a charge has no other refusal.
#[derive(Clone, Copy, PartialEq, Eq, Debug)]
pub struct TooLarge;

/// The first charge of a list that is too large, by its place from 1; among the figures, the lowest that is
/// too large, by its number.
#[derive(Clone, Copy, PartialEq, Eq, Debug)]
pub struct TooLargeAt(pub u8);

impl From<TooLargeAt> for TooLarge {
    ghost from_gives = { λ _ _. Unit {0} };

    fn from(_: TooLargeAt) -> TooLarge {
        TooLarge
    }
}
