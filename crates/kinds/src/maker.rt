ghost use Rattle.std.specs.Prelude.{◌≡◌};
ghost use Rattle.lines.specs.Tally.{Tally};
ghost use Rattle.tables.specs.Standing.{in_order};
ghost use Rattle.choice.specs.Basis.{Basis};
ghost use Rattle.kinds.specs.Means.{market_parts, life_parts, health_parts, nonlife_parts, basic_parts};
ghost use Rattle.kinds.specs.Ours.{market as market_of, lives, health as health_of, non_life as nonlife_of, basic_members};

use super::businesses::Businesses;
use super::leaves::{currency, fall, interest, part, spread, squares};
use super::lists::{Basic, HealthParts, LifeParts, MarketParts, NonLifeParts};
use charges::{Module, Parts};
use lines::{Kind, Totals};
use tables::NamedTables;

/// Makes our charges from the totals of lines and from tables.
#[derive(Clone, Copy)]
pub(super) struct Maker<'a> {
    pub(super) totals: &'a Totals,
    pub(super) tables: &'a NamedTables,
}

// As in the functions of totals alone, each promise is made of all lines and tables that these stand for.
impl<'a> Maker<'a> {
    /// Figures 1 to 6.
    pub(super) fn market(&self) -> MarketParts
        ensures { (b : Basis) → Tally self.now.totals.now b.lines → in_order self.now.tables.now ≡ b.tables → market_parts result ≡ market_of b }
    {
        let global = part(self.totals, Kind::Equity, 1, 32, Parts::Hundredths);
        let other = part(self.totals, Kind::Equity, 2, 45, Parts::Hundredths);
        let equity = Module::new((global, (other, ())), self.tables.equity);
        let property = part(self.totals, Kind::Property, 0, 20, Parts::Hundredths);
        let concentration = squares(self.totals, Kind::Concentration);
        let last = (concentration, (currency(self.totals), ()));
        let spread = spread(self.totals);
        (interest(self.totals), (equity, (property, (spread, last))))
    }

    /// Figures 7 to 13.
    pub(super) fn life(&self) -> LifeParts
        ensures { (b : Basis) → Tally self.now.totals.now b.lines → in_order self.now.tables.now ≡ b.tables → life_parts result ≡ lives b }
    {
        let catastrophe = fall(self.totals, Kind::LifeCatastrophe, 1, 2);
        let last = (fall(self.totals, Kind::Revision, 1, 2), (catastrophe, ()));
        let middle = (
            fall(self.totals, Kind::Lapse, 1, 2),
            (fall(self.totals, Kind::LifeExpense, 1, 2), last),
        );
        let disability = fall(self.totals, Kind::Disability, 1, 2);
        (
            fall(self.totals, Kind::Mortality, 1, 2),
            (
                fall(self.totals, Kind::Longevity, 1, 2),
                (disability, middle),
            ),
        )
    }

    /// Figures 14 to 16.
    pub(super) fn health(&self) -> HealthParts
        ensures { (b : Basis) → Tally self.now.totals.now b.lines → in_order self.now.tables.now ≡ b.tables → health_parts result ≡ health_of b }
    {
        let expense = part(
            self.totals,
            Kind::HealthExpense,
            0,
            1,
            Parts::TenThousandths,
        );
        let claims = part(self.totals, Kind::HealthClaims, 0, 1, Parts::TenThousandths);
        let accumulation = part(self.totals, Kind::Accumulation, 0, 1, Parts::TenThousandths);
        (expense, (claims, (accumulation, ())))
    }

    /// Figures 17 and 18.
    pub(super) fn non_life(&self) -> NonLifeParts
        ensures { (b : Basis) → Tally self.now.totals.now b.lines → in_order self.now.tables.now ≡ b.tables → nonlife_parts result ≡ nonlife_of b }
    {
        let premium = Module::new(Businesses::of(self.totals), self.tables.business);
        (premium, (squares(self.totals, Kind::Catastrophe), ()))
    }

    /// Figures 19 to 23.
    pub(super) fn basic(&self) -> Basic
        ensures { (b : Basis) → Tally self.now.totals.now b.lines → in_order self.now.tables.now ≡ b.tables → basic_parts result.nested ≡ basic_members b }
    {
        let default = part(
            self.totals,
            Kind::CounterpartyDefault,
            0,
            1,
            Parts::TenThousandths,
        );
        let market = Module::new(self.market(), self.tables.market);
        let life = Module::new(self.life(), self.tables.life);
        let health = Module::new(self.health(), self.tables.health);
        let non_life = Module::new(self.non_life(), self.tables.non_life);
        Basic {
            nested: (market, (default, (life, (health, (non_life, ()))))),
        }
    }
}
