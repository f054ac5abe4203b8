//! The pairs of composite contours of a stack of sections; or the first fault that sections have beyond their text.
#![tactic(auto)]

mod faults;
mod findings;
mod gap_pairs;
mod kept_pairs;
mod laws;
mod moved_pairs;
mod ranges;
mod rings;
mod unchanged;

pub use faults::test_sections;
pub use findings::{Findings, concluded, find_part, merged};
pub use gap_pairs::{GapPair, pairs};
pub use kept_pairs::pairs_after;
pub use laws::{gaps_stand_alone, pairs_are_one};
pub use rings::{all_rings, count_vertices, picked};
