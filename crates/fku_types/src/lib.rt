//! Points, rules, names, faults and their words, and the counter of steps: the types that the other crates share.
#![tactic(auto)]

mod fault;
pub mod fault_lines;
mod laws;
pub mod limits;
mod memory;
mod name;
mod points;
mod rules;
mod steps;

pub use fault::{Fault, LimitName, LinkCause, fault_line};
pub use fault_lines::FaultLine;
pub use laws::values_cross_threads;
pub use memory::NoMemory;
pub use name::Name;
pub use points::{Point, Spot};
pub use rules::{CostRule, PairRule};
pub use steps::Steps;
