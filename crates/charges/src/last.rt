ghost use Rattle.std.specs.Prelude.{◌≡◌, ℕ, ◌+◌, ◌^◌, ◌<◌, ◌≤◌, length, sum};
ghost use Rattle.roots.specs.Form.{added};
ghost use Rattle.roots.specs.Held.{correlation, held as amounts_held};
ghost use Rattle.charges.specs.Formula.{operational_down, operational_up, minimum_down, minimum_up};
ghost use Rattle.charges.specs.Held.{held};
ghost use Rattle.charges.specs.Steps.{Pushed, Finished};

use super::beside::Beside;
use super::charge::TooLargeAt;
use super::pairs::{Pairs, Side};
use roots::{Amounts, Table};

// The smaller of 30% of the basic SCR and the larger of the two percentages.
fn operational(beside: &Beside, basic: (u32, u32)) -> (u32, u32)
    requires { (basic.0 < 16777216) × (basic.1 < 16777216) }
    ensures { result ≡ (operational_down beside.now 1 basic.0, operational_up beside.now 1 basic.1) }
{
    let least = (beside.premiums / 100).max(beside.provisions / 100);
    let low = (3 * basic.0 as u64 / 10).min(least);
    let most = beside
        .premiums
        .div_ceil(100)
        .max(beside.provisions.div_ceil(100));
    let high = (3 * basic.1 as u64).div_ceil(10).min(most);
    (low as u32, high as u32)
}

// The larger of a third of the SCR and the least capital.
fn minimum(beside: &Beside, scr: (u32, u32)) -> (u32, u32)
    ensures { result ≡ (minimum_down beside.now 1 scr.0, minimum_up beside.now 1 scr.1) }
{
    (
        (scr.0 / 3).max(beside.least),
        scr.1.div_ceil(3).max(beside.least),
    )
}

fn summed(xs: &[u32]) -> u32
    requires { sum xs.now < 2 ^ 32 }
    ensures { result ≡ sum xs.now }
{
    xs.iter().sum()
}

// The amounts added.
fn added_up(amounts: &Amounts) -> u32
    ensures { result ≡ added (amounts_held amounts.now) }
{
    summed(amounts.as_slice())
}

// One figure more, unless it is too large.
fn push_next(pairs: &mut Pairs, pair: (u32, u32)) -> Result<(), TooLargeAt>
    requires { length (held pairs.old) < 27 }
    ensures { Pushed pair (held pairs.old) (held pairs.new) result }
{
    let figure = pairs.len() as u8 + 1;
    pairs.push(pair).map_err(|_| TooLargeAt(figure))
}

// Figures 24 to 28 behind the 23 that are held, the last five of which are the members of the basic SCR.
pub(super) fn finish(
    mut pairs: Pairs,
    table: &Table,
    beside: &Beside,
) -> Result<[(u32, u32); 28], TooLargeAt>
    requires { length (held pairs) ≡ 23 }
    ensures { Finished (correlation table.now) beside.now (held pairs) result }
{
    let lows = pairs.side(18, Side::Low);
    let highs = pairs.side(18, Side::High);
    let (low, _) = table.combined(&lows);
    let (_, high) = table.combined(&highs);
    push_next(&mut pairs, (low, high))?;
    let (o_low, o_high) = operational(beside, (low, high));
    push_next(&mut pairs, (o_low, o_high))?;
    let scr = (low + o_low, high + o_high);
    push_next(&mut pairs, scr)?;
    push_next(&mut pairs, minimum(beside, scr))?;
    let diversification = (
        added_up(&lows).saturating_sub(high),
        added_up(&highs).saturating_sub(low),
    );
    Ok(pairs.and_last(diversification))
}
