//! The commands on surfaces and sections.
#![tactic(auto)]

mod counting;
mod crossing;
mod densifying;
mod editing;
mod measuring;
mod reconstructing;
mod reporting;
mod rings;
mod slices;
mod writing;

pub use counting::count;
pub use crossing::crossed;
pub use densifying::densified;
pub use editing::edits;
pub use measuring::measured;
pub use reconstructing::reconstruct;
pub use reporting::{demo, report};
pub use rings::ring_caps;
pub use slices::loops;
pub use writing::SurfaceWriter;
