//! A charge whose low and high are given, and a choice of such charges: a second make and a second
//! choice, of which the formula and the filing know nothing.
#![tactic(auto)]

#[cfg(test)]
mod filed;
mod flat;
mod per_line;
#[cfg(test)]
mod through;

pub use flat::Flat;
pub use per_line::{Five, PerLine, Seven, Six, Three, Two};
