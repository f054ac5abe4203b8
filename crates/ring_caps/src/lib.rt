//! Ring caps: one cap with holes for a contour and its holes that end together.
#![tactic(auto)]

mod caps;
mod group_caps;
mod groups;
mod laws;
mod objects;
mod surfaces;

pub use group_caps::cap_group;
pub use laws::{plain_surfaces_are_one, ring_surfaces_are_one, ring_surfaces_of_objects_are_one};
pub use objects::ring_surface_all;
pub use surfaces::ring_surface;
