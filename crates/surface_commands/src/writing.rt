//! The format in which the surface is written.
ghost use Rattle.std.specs.Prelude.{◌≡◌, IfOk};
ghost use Rattle.triangle_meshes.specs.Meshes.{IsValid, surface_of};

use fku_types::NoMemory;
use std::alloc::Global;
use triangle_meshes::Mesh;

/// Writes surfaces in one format.
pub trait SurfaceWriter {
    ghost use Rattle.std.specs.Prelude.{ℕ, List};
    ghost use Rattle.triangle_meshes.specs.Meshes.{Surface};

    ghost format: { Surface → List ℕ };

    /// The text of a valid mesh; or `NoMemory`.
    fn write(&self, alloc: Global, mesh: &Mesh) -> Result<Vec<u8>, NoMemory>
        requires { IsValid (surface_of mesh.now) }
        ensures { IfOk result (λ text. text.items ≡ format (surface_of mesh.now)) };
}
