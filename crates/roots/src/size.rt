ghost use Rattle.std.specs.Prelude.{◌≤◌};

/// How many members a table has: 2 to 16.
#[derive(Clone, Copy)]
pub struct Size {
    count: usize,
    ghost least: { 2 ≤ count },
    ghost most: { count ≤ 16 },
}

mod methods;
