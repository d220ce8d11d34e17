ghost use Rattle.std.specs.Prelude.{◌≡◌};
ghost use Rattle.lines.specs.Kinds.{number};
ghost use Rattle.choice.specs.Basis.{basis};
ghost use Rattle.flat.specs.Flats.{flatly};
ghost use Rattle.flat.specs.PerLine.{per_line, lines_of};
ghost use Rattle.std.proofs.Common.{refl};

use super::flat::Flat;
use choice::{Choice, Given, Lists};
use lines::Kind;

/// Two flat charges.
pub type Two = (Flat, (Flat, ()));

/// Three flat charges.
pub type Three = (Flat, Two);

/// Five flat charges.
pub type Five = (Flat, (Flat, Three));

/// Six flat charges.
pub type Six = (Flat, Five);

/// Seven flat charges.
pub type Seven = (Flat, Six);

/// A choice of flat charges: figures 1 to 18 and 20 are as many units as lines of their kind stand,
/// the other members of the basic SCR are 100 units each.
pub struct PerLine;

// As many units as lines of the kind stand.
fn standing(given: &Given, kind: Kind) -> Flat
    ensures { flatly result ≡ lines_of (number kind) (basis given.now).lines }
{
    Flat::exactly(given.totals().lines(kind) as u32)
}

impl Lists for PerLine {
    type Market = Six;

    type Life = Seven;

    type Health = Three;

    type NonLife = Two;

    type Basic = Five;

    ghost shown = { refl };

    ghost five = { refl };

    ghost proper = { ((tt, (tt, (tt, (tt, (tt, (tt, tt)))))), (tt, (tt, (tt, (tt, (tt, (tt, (tt, tt))))))), (tt, (tt, (tt, tt))), (tt, (tt, tt)), (tt, (tt, (tt, (tt, (tt, tt)))))) };
}

impl Choice for PerLine {
    ghost meaning = { per_line };

    ghost alike = { λ b c. refl };

    fn market(given: &Given) -> Six {
        let last = (
            standing(given, Kind::Concentration),
            (standing(given, Kind::Currency), ()),
        );
        let middle = (
            standing(given, Kind::Property),
            (standing(given, Kind::Spread), last),
        );
        (
            standing(given, Kind::Interest),
            (standing(given, Kind::Equity), middle),
        )
    }

    fn life(given: &Given) -> Seven {
        let last = (
            standing(given, Kind::Revision),
            (standing(given, Kind::LifeCatastrophe), ()),
        );
        let middle = (
            standing(given, Kind::Lapse),
            (standing(given, Kind::LifeExpense), last),
        );
        let disability = (standing(given, Kind::Disability), middle);
        (
            standing(given, Kind::Mortality),
            (standing(given, Kind::Longevity), disability),
        )
    }

    fn health(given: &Given) -> Three {
        let last = (standing(given, Kind::Accumulation), ());
        (
            standing(given, Kind::HealthExpense),
            (standing(given, Kind::HealthClaims), last),
        )
    }

    fn non_life(given: &Given) -> Two {
        (
            standing(given, Kind::PremiumReserve),
            (standing(given, Kind::Catastrophe), ()),
        )
    }

    fn basic(given: &Given) -> Five {
        let fixed = Flat::exactly(100);
        (
            fixed,
            (
                standing(given, Kind::CounterpartyDefault),
                (fixed, (fixed, (fixed, ()))),
            ),
        )
    }
}
