//! Amounts and a correlation table as text, and the root as text: the work of the program `combine`.
#![tactic(auto)]

mod answer;
mod numbers;
mod reading;
mod text;

pub use answer::{Combination, Fault};
pub use reading::{NoReply, combined, respond};
