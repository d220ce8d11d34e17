//! A filing: a year, a quarter, seven tables and up to 128 lines, and the calls on it.
#![tactic(auto)]

mod fault;
mod filing;

pub use fault::{FilingFault, OpenFault};
pub use filing::Filing;
