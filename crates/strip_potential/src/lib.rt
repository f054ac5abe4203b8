//! The potential of a solved pair, by one sweep over its strip.
#![tactic(auto)]

mod sweeps;

pub use sweeps::potential;
