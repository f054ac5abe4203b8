//! The least tiling of a strip, by sweeps or by divided tables of least costs; and the offsets of its rows.
#![tactic(auto)]

mod amounts;
mod divisions;
mod fans;
mod gaps;
mod laws;
mod offsets;
mod regions;
mod searches;
mod solved;
mod solving;
mod strip_costs;
mod sweeping;
mod tables;
mod turns;
mod workspace;

pub use laws::{readings_are_few, solutions_are_bounded, solutions_cross_threads};
pub use offsets::find_offsets;
pub use solved::Solved;
pub use solving::{solve, solve_with};
pub use workspace::Workspace;
