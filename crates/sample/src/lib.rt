//! A company by which programs are tried: its lines, and the correlation tables of QIS3.
#![tactic(auto)]

mod company;
mod qis3;

pub use company::book;
pub use qis3::entries;
