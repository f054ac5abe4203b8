//! Finding and solving the pairs of sections, one after another or side by side.
#![tactic(auto)]

mod batch;
mod boxed_pool;
mod by_workers;
mod drawing;
mod finding;
mod gate;
mod jobs;
mod laws;
mod one_by_one;
mod open_pool;
mod placing;
mod pool;
mod solvers;
mod solving;

pub use gate::{BoxedGate, Gate, NoGate};
pub use laws::{solutions_are_one, sums_are_bounded};
pub use one_by_one::OneByOne;
pub use pool::Pool;
pub use solvers::PairSolver;
