ghost use Rattle.std.specs.Prelude.{◌+◌, ◌≤◌};

/// A charge whose low and high are given, at most 50 apart.
#[derive(Clone, Copy)]
pub struct Flat {
    low: u32,
    high: u32,
    ghost ordered: { low ≤ high },
    ghost close: { high ≤ low + 50 },
}

mod charge;
mod make;
