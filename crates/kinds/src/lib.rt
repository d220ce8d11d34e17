//! Our kinds of charge: from the totals of lines and the tables to the charges of figures 1 to 23, and
//! the 28 figures.
#![tactic(auto)]

mod businesses;
mod leaves;
mod lists;
mod maker;
mod ours;
mod worked;

pub use ours::Ours;
pub use worked::figures;
