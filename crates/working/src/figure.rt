ghost use Rattle.std.specs.Prelude.{◌≤◌};

/// The number of a figure: 1 to 28.
#[derive(Clone, Copy)]
pub struct Figure {
    number: u8,
    ghost least: { 1 ≤ number },
    ghost most: { number ≤ 28 },
}

mod make;
