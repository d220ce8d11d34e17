ghost use Rattle.std.specs.Prelude.{◌≡◌, ◌+◌, ◌*◌, ◌^◌, ◌≤◌, List};
ghost use Rattle.lines.specs.declared.fields.Fields.{Fields};
ghost use Rattle.lines.specs.Tally.{Tally};
ghost use Rattle.choice.specs.Beside.{least_capital, beside as beside_of};

use charges::Beside;
use lines::{Kind, Totals};

// The promises are made of every list of lines with these totals.

// The least capital of an insurer without life lines, and of one with them, in units.
const WITHOUT_LIFE: u32 = 10_000;

const WITH_LIFE: u32 = 20_000;

// 3 × life + 2 × non-life + 2 × health.
fn percentages(life: u64, non_life: u64, health: u64) -> u64
    requires { (life ≤ 2 ^ 40) × (non_life ≤ 2 ^ 40) × (health ≤ 2 ^ 40) }
    ensures { result ≡ 3 * life + 2 * non_life + 2 * health }
{
    3 * life + 2 * non_life + 2 * health
}

// By whether a life line stands.
fn least(totals: &Totals) -> u32
    ensures { (ls : List Fields) → Tally totals.now ls → result ≡ least_capital ls }
{
    let first = totals.lines(Kind::Mortality)
        + totals.lines(Kind::Longevity)
        + totals.lines(Kind::Disability);
    let last = totals.lines(Kind::Revision) + totals.lines(Kind::LifeCatastrophe);
    if first + totals.lines(Kind::Lapse) + totals.lines(Kind::LifeExpense) + last == 0 {
        WITHOUT_LIFE
    } else {
        WITH_LIFE
    }
}

/// What the formula takes beside its charges.
pub(super) fn beside(totals: &Totals) -> Beside
    ensures { (ls : List Fields) → Tally totals.now ls → result ≡ beside_of ls }
{
    Beside {
        premiums: percentages(
            totals.operational(1),
            totals.operational(2),
            totals.operational(3),
        ),
        provisions: percentages(
            totals.operational(4),
            totals.operational(5),
            totals.operational(6),
        ),
        least: least(totals),
    }
}
