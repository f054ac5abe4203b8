//! Triangle meshes: the tiles of a strip, counts of directed edges, meshes joined, and the volume inside a mesh.
#![tactic(auto)]

mod closing;
mod joining;
mod keys;
mod meshes;
mod strips;
mod tetrahedra;
mod volume;

pub use closing::{balanced, is_closed};
pub use joining::join_meshes;
pub use keys::side_key;
pub use meshes::{Mesh, edge_count, triangle_count};
pub use strips::{add_tiles, strip_tiles};
pub use tetrahedra::tetrahedron_volume;
pub use volume::{six_volume, six_volume_about, triangle_volume};
