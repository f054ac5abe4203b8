//! The plain program for a least tiling: a table of least costs for each start row. The tests compare it with
//! `row_paths`.
#![tactic(auto)]

mod tables;

pub use tables::{Plain, solve_plainly};

#[cfg(test)]
mod comparisons;
#[cfg(test)]
mod tests;
