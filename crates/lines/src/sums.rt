ghost use Rattle.std.specs.Prelude.{◌≡◌, length};

// What lines of one kind and class add up to.
#[derive(Clone, Copy, Default)]
pub(crate) struct Sum {
    // of their weights
    pub(crate) first: u64,
    // of their second amounts
    pub(crate) second: u64,
    // how many there are
    pub(crate) count: u64,
}

// Sums by kind and class: 16 cells for each of 32 kinds, one after the other, as the cells of a table in
// `roots` are, since arrays of arrays found no proof there.
#[derive(Clone, Copy)]
pub(crate) struct Sums {
    cells: [Sum; 512],
    ghost full: { length cells ≡ 512 },
}

mod methods;
