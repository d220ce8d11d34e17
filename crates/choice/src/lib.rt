//! Any choice of charges for figures 1 to 23, made from lines and tables, and the 28 figures by it.
#![tactic(auto)]

mod beside;
mod choice;
mod figures;
mod given;
mod lists;

pub use choice::Choice;
pub use figures::{figures_by, figures_of};
pub use given::Given;
pub use lists::Lists;
