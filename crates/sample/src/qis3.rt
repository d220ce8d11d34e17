// The correlation tables of QIS3 in hundredths: the entries above the diagonal, row by row.
ghost use Rattle.std.specs.Prelude.{◌≡◌, ◌-◌, [], ◌∷◌, slice_index_or};
ghost use Rattle.tables.specs.Numbers.{number};
ghost use Rattle.tables.specs.Replacing.{refusal};

use tables::Which;

// Market, default, life, health, non-life.
const BASIC: [u8; 10] = [25, 25, 25, 25, 25, 25, 50, 25, 0, 0];

// Interest, equity, property, spread, concentration, currency.
const MARKET: [u8; 15] = [0, 50, 25, 0, 25, 75, 25, 0, 25, 25, 0, 25, 0, 25, 0];

// Global, other.
const EQUITY: [u8; 1] = [75];

// Mortality, longevity, disability, lapse, expense, revision, catastrophe.
const LIFE: [u8; 21] = [
    0, 50, 0, 25, 0, 0, 0, 25, 25, 25, 0, 0, 50, 0, 0, 50, 0, 0, 25, 0, 0,
];

// Expense, claims, accumulation.
const HEALTH: [u8; 3] = [50, 0, 0];

// Premium and reserve, catastrophe.
const NON_LIFE: [u8; 1] = [0];

// The fifteen lines of business.
const BUSINESS: [u8; 105] = [
    50, 50, 25, 25, 25, 25, 25, 25, 50, 25, 50, 25, 25, 25, 50, 25, 25, 25, 25, 25, 25, 25, 25, 50,
    25, 25, 25, 25, 25, 25, 25, 25, 25, 50, 25, 50, 25, 25, 25, 50, 50, 25, 25, 25, 50, 25, 50, 25,
    25, 25, 25, 25, 25, 25, 50, 50, 50, 25, 25, 25, 25, 25, 25, 25, 50, 50, 25, 25, 25, 50, 25, 25,
    50, 50, 50, 25, 50, 50, 50, 25, 50, 25, 50, 25, 50, 25, 50, 25, 50, 25, 50, 50, 25, 50, 25, 50,
    50, 25, 25, 25, 25, 50, 25, 25, 25,
];

/// The entries of one of the tables; they make that table, with no refusal.
pub fn entries(which: Which) -> &'static [u8]
    ensures value { result.now ≡ slice_index_or (BASIC ∷ MARKET ∷ EQUITY ∷ LIFE ∷ HEALTH ∷ NON_LIFE ∷ BUSINESS ∷ []) (number which - 1) [] }
    ensures sound { refusal (number which) result.now ≡ None }
{
    match which {
        Which::Basic => &BASIC,
        Which::Market => &MARKET,
        Which::Equity => &EQUITY,
        Which::Life => &LIFE,
        Which::Health => &HEALTH,
        Which::NonLife => &NON_LIFE,
        Which::Business => &BUSINESS,
    }
}
