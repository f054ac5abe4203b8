//! The formats in which surfaces are written.
ghost use Rattle.byu_text.specs.Byu.{byu_of};

use byu_text::write_byu;
use fku_types::NoMemory;
use std::alloc::Global;
use surface_commands::SurfaceWriter;
use triangle_meshes::Mesh;

/// MOVIE.BYU.
pub(crate) struct Byu {}

impl SurfaceWriter for Byu {
    ghost format = { byu_of };

    fn write(&self, alloc: Global, mesh: &Mesh) -> Result<Vec<u8>, NoMemory> {
        write_byu(alloc, mesh)
    }
}
