//! The seven correlation tables of a filing, by their numbers, and seven tables by name.
#![tactic(auto)]

mod fault;
mod named;
mod tables;
mod which;

pub use fault::EntriesFault;
pub use named::NamedTables;
pub use tables::Tables;
pub use which::{UnknownTable, Which};
