//! A large valid stack of sections from a number: the input of the command `demo`.
#![tactic(auto)]

mod generator;
mod laws;
mod stack;

pub use laws::{directions_go_round, stacks_are_accepted};
pub use stack::demo_sections;
