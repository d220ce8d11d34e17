ghost use Rattle.std.specs.Prelude.{ℕ, ◌^◌, ◌≤◌};
ghost use Rattle.roots.specs.Form.{sum};
ghost use Rattle.lines.specs.Cells.{cell};

use super::sums::Sums;

/// Totals of at most 128 lines by kind and class: of the weights, of the second amounts, and of
/// how many lines there are.
#[derive(Clone, Copy)]
pub struct Totals {
    sums: Sums,
    ghost weighty: { ((k : ℕ) → sum 16 (λ c. (cell sums k c).first) ≤ 2 ^ 63) },
    ghost small: { ((k : ℕ) → sum 16 (λ c. (cell sums k c).second) ≤ 2 ^ 40) },
    ghost few: { ((k : ℕ) → sum 16 (λ c. (cell sums k c).count) ≤ 128) },
    ghost plainly: { (sum 16 (λ c. (cell sums 25 c).first) ≤ 2 ^ 40) },
}

mod methods;
