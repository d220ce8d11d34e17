ghost use Rattle.std.specs.Prelude.{ℕ, ◌<◌, ◌≤◌, slice_index};

/// At most 16 amounts in order, each at most 16,777,215.
#[derive(Clone, Copy)]
pub struct Amounts {
    // an array with its length, as `Amounts` is `Copy` and an `ArrayVec` is not
    values: [u32; 16],
    len: usize,
    ghost few: { len ≤ 16 },
    ghost small: { ((i : ℕ) → slice_index values i < 16777216) },
}

/// Why an amount finds no place.
#[derive(Clone, Copy, PartialEq, Eq, Debug)]
pub enum AmountFault {
    /// More than 16 amounts.
    Count,
    /// An amount above 16,777,215, by its position from 1.
    Large(usize),
}

mod methods;
