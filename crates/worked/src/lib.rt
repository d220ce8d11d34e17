//! Worked examples of the crates below, as tests.
#![tactic(auto)]

#[cfg(test)]
mod businesses;
#[cfg(test)]
mod combining;
#[cfg(test)]
mod figuring;
#[cfg(test)]
mod filed;
#[cfg(test)]
mod judging;
#[cfg(test)]
mod outside;
