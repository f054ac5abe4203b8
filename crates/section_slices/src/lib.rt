//! The slices of a surface between sections, and rounded sections between sections that are far apart.
#![tactic(auto)]

mod gaps;
mod links;
mod loops;
mod middle_laws;
mod middles;
mod objects;
mod rounding;
mod sections;
mod slice_laws;
mod slices;

pub use middle_laws::{densified_is_one, rounding_is_nearest};
pub use objects::slice_all;
pub use rounding::round_loop;
pub use sections::{DensifyFault, densify};
pub use slice_laws::slices_are_one;
pub use slices::{SliceLoops, slice, slice_pairs, test_height};
pub use triangle_meshes::{six_volume, six_volume_about};
