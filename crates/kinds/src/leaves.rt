ghost use Rattle.std.specs.Prelude.{◌≡◌, ◌*◌, true, false, List};
ghost use Rattle.charges.specs.Leaves.{differs, rated as rated_of, rooted};
ghost use Rattle.lines.specs.declared.fields.Fields.{Fields};
ghost use Rattle.lines.specs.Kinds.{number};
ghost use Rattle.lines.specs.Tally.{Tally};
ghost use Rattle.kinds.specs.Exact.{exactly, share, fall as fall_of, interest as interest_of, spread as spread_of, currency as currency_of, root_of_squares};
ghost use Rattle.lines.specs.Totals.{total};
ghost use Rattle.lines.specs.Weights.{square};
ghost use Rattle.charges.specs.declared.rate.Parts.{Parts as InParts};
ghost use Rattle.charges.specs.Leaves.{parts as parts_of};

use charges::{Difference, Parts, Rate, RootOfSquares};
use lines::{Kind, Totals};

// Each promise is made of every list of lines with these totals. A ghost field of `Totals` could hold one
// list only, and a word for the premise would hide from each clause of which lines it speaks.

/// So many parts of the total of a kind and class.
pub(super) fn part(totals: &Totals, kind: Kind, class: u8, numerator: u32, parts: Parts) -> Rate
    requires { square (number kind) ≡ false }
    ensures { (ls : List Fields) → Tally totals.now ls → rated_of result ≡ exactly 1 (λ s. share (numerator * total (number kind) class s) (parts_of parts)) ls }
{
    Rate::new(totals.first(kind, class), numerator, parts)
}

/// The spread charge.
pub(super) fn spread(totals: &Totals) -> Rate
    ensures { (ls : List Fields) → Tally totals.now ls → rated_of result ≡ exactly 1 spread_of ls }
{
    Rate::new(totals.whole(Kind::Spread), 1, Parts::Millionths)
}

/// The currency charge.
pub(super) fn currency(totals: &Totals) -> Rate
    ensures { (ls : List Fields) → Tally totals.now ls → rated_of result ≡ exactly 1 currency_of ls }
{
    let long = totals.first(Kind::Currency, 1);
    let short = totals.first(Kind::Currency, 2);
    Rate::new(long.abs_diff(short), 20, Parts::Hundredths)
}

/// The drop of the assets and liabilities of a kind.
pub(super) fn fall(totals: &Totals, kind: Kind, asset: u8, liability: u8) -> Difference
    requires { square (number kind) ≡ false }
    ensures { (ls : List Fields) → Tally totals.now ls → differs result ≡ exactly 0 (λ s. share (fall_of (number kind) asset liability s) 1) ls }
{
    Difference::new(
        totals.first(kind, asset) + totals.second(kind, liability),
        totals.second(kind, asset) + totals.first(kind, liability),
    )
}

/// The interest charge.
pub(super) fn interest(totals: &Totals) -> Difference
    ensures { (ls : List Fields) → Tally totals.now ls → differs result ≡ exactly 0 interest_of ls }
{
    fall(totals, Kind::Interest, 1, 3).larger(fall(totals, Kind::Interest, 2, 4))
}

/// The root of the squares of a kind's amounts.
pub(super) fn squares(totals: &Totals, kind: Kind) -> RootOfSquares
    requires { square (number kind) ≡ true }
    ensures { (ls : List Fields) → Tally totals.now ls → rooted result ≡ root_of_squares (number kind) ls }
{
    RootOfSquares::new(totals.first(kind, 0))
}
