ghost use Rattle.std.specs.Prelude.{◌≡◌, length};

mod members;

/// The fifteen lines of business: the total of volume × rate of each.
#[derive(Clone, Copy)]
pub struct Businesses {
    volumes: [u64; 15],
    ghost full: { length volumes ≡ 15 },
}
