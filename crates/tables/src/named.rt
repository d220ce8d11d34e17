use roots::Table;

/// Seven correlation tables, each by its name and of any size.
#[derive(Clone, Copy)]
pub struct NamedTables {
    /// 1: market, default, life, health, non-life.
    pub basic: Table,
    /// 2: interest, equity, property, spread, concentration, currency.
    pub market: Table,
    /// 3: global, other.
    pub equity: Table,
    /// 4: mortality, longevity, disability, lapse, expense, revision, catastrophe.
    pub life: Table,
    /// 5: expense, claims, accumulation.
    pub health: Table,
    /// 6: premium and reserve, catastrophe.
    pub non_life: Table,
    /// 7: fifteen lines of business.
    pub business: Table,
}
