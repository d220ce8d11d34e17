ghost use Rattle.std.specs.Prelude.{◌≡◌};
ghost use Rattle.charges.specs.Leaves.{square_root, rooted};

use super::RootOfSquares;

impl RootOfSquares {
    /// The root of this total.
    pub fn new(total: u64) -> RootOfSquares
        ensures { rooted result ≡ square_root total }
    {
        RootOfSquares { total }
    }
}
