ghost use Rattle.std.specs.Prelude.{◌≡◌, map};
ghost use Rattle.roots.specs.Held.{table_members};
ghost use Rattle.tables.specs.Sizes.{sizes};

use roots::Table;

/// The seven tables in the order of their numbers, each of its own size.
#[derive(Clone, Copy)]
pub struct Tables {
    all: [Table; 7],
    ghost sized: { map table_members all ≡ sizes },
}

mod methods;
