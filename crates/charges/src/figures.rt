ghost use Rattle.std.specs.Prelude.{◌≡◌, ◌+◌, ◌≤◌, ◌++◌, length};
ghost use Rattle.roots.specs.Held.{correlation};
ghost use Rattle.charges.specs.Held.{held};
ghost use Rattle.charges.specs.Steps.{Next};
ghost use Rattle.charges.specs.Worked.{Answered};

use super::beside::Beside;
use super::charge::TooLargeAt;
use super::last::finish;
use super::members::Members;
use super::pairs::Pairs;
use roots::Table;

/// The charges of figures 1 to 23.
#[derive(Clone, Copy)]
pub struct Charges<Market, Life, Health, NonLife, Basic> {
    /// Figures 1 to 6.
    pub market: Market,
    /// Figures 7 to 13.
    pub life: Life,
    /// Figures 14 to 16.
    pub health: Health,
    /// Figures 17 and 18.
    pub non_life: NonLife,
    /// Figures 19 to 23, the members of the basic SCR.
    pub basic: Basic,
}

// Charges behind those held.
fn gather_next<Ms: Members>(members: &Ms, pairs: &mut Pairs) -> Result<(), TooLargeAt>
    requires make { Ms.Members.proper }
    requires room { length (held pairs.old) + Ms.Members.count ≤ 27 }
    ensures { Next (Ms.Members.each members.now) (held pairs.old) (held pairs.new) result }
{
    let before = pairs.len() as u8;
    members
        .gather(pairs)
        .map_err(|at| TooLargeAt(before + at.0))
}

// The bounds of figures 1 to 23.
fn gather_all<Market: Members, Life: Members, Health: Members, NonLife: Members, Basic: Members>(
    charges: &Charges<Market, Life, Health, NonLife, Basic>,
    pairs: &mut Pairs,
) -> Result<(), TooLargeAt>
    requires make { Market.Members.proper × Life.Members.proper × Health.Members.proper × NonLife.Members.proper × Basic.Members.proper }
    requires shown { Market.Members.count + Life.Members.count + Health.Members.count + NonLife.Members.count ≡ 18 }
    requires basic { Basic.Members.count ≡ 5 }
    requires none { length (held pairs.old) ≡ 0 }
    ensures { Next ((Market.Members.each charges.now.market ++ Life.Members.each charges.now.life ++ Health.Members.each charges.now.health ++ NonLife.Members.each charges.now.non_life) ++ Basic.Members.each charges.now.basic) (held pairs.old) (held pairs.new) result }
{
    gather_next(&charges.market, pairs)?;
    gather_next(&charges.life, pairs)?;
    gather_next(&charges.health, pairs)?;
    gather_next(&charges.non_life, pairs)?;
    gather_next(&charges.basic, pairs)?;
    Ok(())
}

/// The 28 figures into the place, or the lowest that is too large, and the place as before.
pub fn work_out<Market: Members, Life: Members, Health: Members, NonLife: Members, Basic: Members>(
    charges: &Charges<Market, Life, Health, NonLife, Basic>,
    table: &Table,
    beside: &Beside,
    place: &mut [(u32, u32); 28],
) -> Result<(), TooLargeAt>
    requires make { Market.Members.proper × Life.Members.proper × Health.Members.proper × NonLife.Members.proper × Basic.Members.proper }
    requires shown { Market.Members.count + Life.Members.count + Health.Members.count + NonLife.Members.count ≡ 18 }
    requires basic { Basic.Members.count ≡ 5 }
    ensures { Answered (correlation table.now) beside.now (Market.Members.each charges.now.market ++ Life.Members.each charges.now.life ++ Health.Members.each charges.now.health ++ NonLife.Members.each charges.now.non_life) (Basic.Members.each charges.now.basic) place.old place.new result }
{
    let mut pairs = Pairs::new();
    gather_all(charges, &mut pairs)?;
    let figures = finish(pairs, table, beside)?;
    *place = figures;
    Ok(())
}
