//! Working out the figures of a filing, by any choice of charges.
#![tactic(auto)]

mod figure;
mod work;

pub use figure::Figure;
pub use work::WorkOut;
