//! Amounts combined under a table of correlations: the quadratic form and its two whole roots.
//! Nothing here knows what the amounts stand for.
#![tactic(auto)]

mod amounts;
mod root;
mod size;
mod table;

pub use amounts::{AmountFault, Amounts};
pub use root::{ceiling_root, roots};
pub use size::Size;
pub use table::{Table, TableFault};
