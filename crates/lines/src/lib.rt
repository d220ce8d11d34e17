//! Lines of an insurer's filing: the rules of each kind of line, and totals over a list of lines.
#![tactic(auto)]

mod fault;
mod fields;
mod kind;
mod line;
mod sums;
mod totals;

pub use fault::LineFault;
pub use fields::Fields;
pub use kind::{Kind, Rule, UnknownKind};
pub use line::Line;
pub use totals::Totals;
