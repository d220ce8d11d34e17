ghost use Rattle.std.specs.Prelude.{◌≡◌, ℕ, ◌<◌, ◌≤◌, length, slice_index_or};

/// At most 27 lows and highs in order, each at most 16,777,215. They are an array with its length,
/// since these are plain data that is copied, and an `ArrayVec` is not `Copy`; for the same reason they and
/// `Amounts` are no one generic type.
#[derive(Clone, Copy)]
pub struct Pairs {
    values: [(u32, u32); 28],
    len: usize,
    ghost full: { length values ≡ 28 },
    ghost few: { len ≤ 27 },
    ghost lows: { ((i : ℕ) → (slice_index_or values i (0, 0)).0 < 16777216) },
    ghost highs: { ((i : ℕ) → (slice_index_or values i (0, 0)).1 < 16777216) },
}

/// Why a pair finds no place.
#[derive(Clone, Copy, PartialEq, Eq, Debug)]
pub enum PairFault {
    /// 27 are held.
    Full,
    /// The low or the high passes 16,777,215.
    Large,
}

/// The low or the high of a pair. A closure in its place would be no plainer: its contract would have to say
/// that what it answers of a pair that is held passes no limit.
#[derive(Clone, Copy)]
pub(crate) enum Side {
    Low,
    High,
}

mod methods;
