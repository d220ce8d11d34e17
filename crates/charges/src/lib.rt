//! Charges, and the capital formula over any charges that keep the terms.
#![tactic(auto)]

mod beside;
mod charge;
mod difference;
mod figures;
mod last;
mod members;
mod module;
mod pairs;
mod rate;
mod squares;

pub use beside::Beside;
pub use charge::{Charge, LIMIT, TooLarge, TooLargeAt};
pub use difference::Difference;
pub use figures::{Charges, work_out};
pub use members::Members;
pub use module::Module;
pub use pairs::{PairFault, Pairs};
pub use rate::{Parts, Rate};
pub use squares::RootOfSquares;
