ghost use Rattle.std.specs.Prelude.{◌≡◌, ◌++◌};
ghost use Rattle.charges.specs.Meaning.{widths};
ghost use Rattle.choice.specs.Basis.{Basis, Chosen, basis, shown as shown_of};

use super::given::Given;
use super::lists::Lists;

/// A choice of charges for figures 1 to 23, made from lines, their totals, and tables.
pub trait Choice: Lists {
    // what the charges mean, for all lines and tables: equal ones give equal results in every unit
    ghost meaning: { Chosen };

    /// Figures 1 to 6.
    fn market(given: &Given) -> Self::Market
        ensures { Self.Market.Members.each result ≡ meaning.market (basis given.now) };

    /// Figures 7 to 13.
    fn life(given: &Given) -> Self::Life
        ensures { Self.Life.Members.each result ≡ meaning.life (basis given.now) };

    /// Figures 14 to 16.
    fn health(given: &Given) -> Self::Health
        ensures { Self.Health.Members.each result ≡ meaning.health (basis given.now) };

    /// Figures 17 and 18.
    fn non_life(given: &Given) -> Self::NonLife
        ensures { Self.NonLife.Members.each result ≡ meaning.non_life (basis given.now) };

    /// Figures 19 to 23, the members of the basic SCR.
    fn basic(given: &Given) -> Self::Basic
        ensures { Self.Basic.Members.each result ≡ meaning.basic (basis given.now) };

    // the greatest widths depend on the choice alone
    ghost alike: { (b c : Basis) → widths (shown_of meaning b ++ meaning.basic b) ≡ widths (shown_of meaning c ++ meaning.basic c) };
}
