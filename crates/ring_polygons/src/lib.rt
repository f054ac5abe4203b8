//! Polygons of a section: rings joined to one by their least bridges, and a ring cut into the triangles of a cap.
#![tactic(auto)]

mod bridges;
mod cap_laws;
mod capping;
mod composing;
mod composite_laws;
mod ears;
mod extents;
mod faces;
mod fault;
mod joins;
mod states;
mod twins;

pub use cap_laws::{caps_keep_area, cuts_are_determined};
pub use capping::{CapList, cap, cap_by, cap_on, turn_to};
pub use composing::compose;
pub use composite_laws::composites_are_one;
pub use faces::Face;
pub use fault::ComposeFault;
pub use twins::Twins;
