ghost use Rattle.std.specs.Prelude.{◌≤◌, vec_len, vec_capacity};
ghost use Rattle.lines.specs.Held.{plain};
ghost use Rattle.lines.specs.Totals.{kind_count};

use lines::Line;
use tables::Tables;

const MOST_LINES: usize = 128;

/// A filing. Its lines and tables are sound by their own types.
#[derive(Drop)]
pub struct Filing {
    year: u16,
    quarter: u8,
    tables: Tables,
    // with room for 128 lines from the beginning, so that no call but opening asks for memory
    lines: Vec<Line>,
    ghost earliest: { 2000 ≤ year },
    ghost latest: { year ≤ 4095 },
    ghost first: { 1 ≤ quarter },
    ghost last: { quarter ≤ 4 },
    ghost few: { vec_len lines ≤ 128 },
    ghost reserved: { 128 ≤ vec_capacity lines },
    ghost concentrations: { kind_count 5 (plain lines.items) ≤ 16 },
    ghost catastrophes: { kind_count 18 (plain lines.items) ≤ 16 },
}

mod change;
mod look;
mod open;
