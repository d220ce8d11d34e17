ghost use Rattle.std.specs.Prelude.{◌≡◌, false, is_some};
ghost use Rattle.lines.specs.Rules.{wrong};

use super::fields::Fields;

/// A line that keeps the rules of its kind.
#[derive(Clone, Copy)]
pub struct Line {
    // with the kind's number, since what a line holds is what was given
    fields: Fields,
    ghost sound: { is_some (wrong fields) ≡ false },
}

mod judge;
mod weight;
