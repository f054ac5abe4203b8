//! The surface of a stack of sections, and of all objects of a text. Re-exports the pairs of `section_pairs`.
#![tactic(auto)]

mod assembly;
mod assembly_marks;
mod capping;
mod caps;
mod laws;
mod near_pairs;
mod objects;
mod surfaces;

pub use capping::{ByContour, CapRule};
pub use caps::append;
pub use laws::{pairs_of_objects_are_one, surfaces_are_one, surfaces_of_objects_are_one};
pub use near_pairs::marks_near;
pub use objects::{all_strips, assemble_all, pairs_all, surface_all};
pub use section_pairs::{GapPair, pairs};
pub use surfaces::{Built, assemble, assemble_capped, strips, surface};
