ghost use Rattle.std.specs.Prelude.{◌≡◌};
ghost use Rattle.std.proofs.Common.{refl, lit≤};
ghost use Rattle.lines.specs.Tally.{Tally};
ghost use Rattle.tables.specs.Standing.{in_order};
ghost use Rattle.choice.specs.Basis.{basis};
ghost use Rattle.kinds.specs.Ours.{ours};

use super::lists::{Basic, HealthParts, LifeParts, MarketParts, NonLifeParts};
use super::maker::Maker;
use choice::{Choice, Given, Lists};

/// Our own charges.
pub struct Ours;

// Of what is given, our charges need the totals and the tables.
fn maker<'a>(given: &'a Given) -> Maker<'a>
    ensures totals { Tally result.totals.now (basis given.now).lines }
    ensures tables { in_order result.tables.now ≡ (basis given.now).tables }
{
    Maker {
        totals: given.totals(),
        tables: given.tables(),
    }
}

impl Lists for Ours {
    type Market = MarketParts;

    type Life = LifeParts;

    type Health = HealthParts;

    type NonLife = NonLifeParts;

    type Basic = Basic;

    ghost shown = { refl };

    ghost five = { refl };

    ghost proper = { ((tt, ((lit≤ tt, lit≤ tt, (tt, (tt, tt))), (tt, (tt, (tt, (tt, tt)))))), (tt, (tt, (tt, (tt, (tt, (tt, (tt, tt))))))), (tt, (tt, (tt, tt))), ((lit≤ tt, lit≤ tt, tt), (tt, tt)), tt) };
}

impl Choice for Ours {
    ghost meaning = { ours };

    ghost alike = { λ b c. refl };

    fn market(given: &Given) -> MarketParts {
        maker(given).market()
    }

    fn life(given: &Given) -> LifeParts {
        maker(given).life()
    }

    fn health(given: &Given) -> HealthParts {
        maker(given).health()
    }

    fn non_life(given: &Given) -> NonLifeParts {
        maker(given).non_life()
    }

    fn basic(given: &Given) -> Basic {
        maker(given).basic()
    }
}
