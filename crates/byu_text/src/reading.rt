//! Whole texts.
ghost use Rattle.std.specs.Prelude.{ℕ, ◌≤◌, length, IfOk, IfErr};
ghost use Rattle.triangle_meshes.specs.Meshes.{Surface, surface_of};
ghost use Rattle.byu_text.specs.Reading.{ReadsAsMesh, HasMeshFault};
ghost use Rattle.byu_text.specs.Answers.{IsMeshFault, IsMeshMemory, ReadsBackMesh, TellsMeshFault};

use crate::head::read_head;
use crate::points::read_points;
use crate::polygons::{parted, read_triangles};
use crate::sizes::read_sizes;
use fku_types::Fault;
use fku_types::limits::MAX_MESH_BYTES;
use std::alloc::Global;
use triangle_meshes::Mesh;

/// The valid mesh whose text this is, byte for byte as `crate::write_byu` writes it. Any other text gives its fault:
/// the first line such that no valid mesh's text begins with the lines up to it, or one past the last line if the text
/// stops too soon. Or `NoMemory`. A line ends with its line feed, and bytes after the last line feed are a line too.
/// The text has at most `MAX_MESH_BYTES` bytes. `docs/formats.md` has the layout.
pub fn read_byu(alloc: Global, bytes: &[u8]) -> Result<Mesh, Fault>
    requires { length bytes.now ≤ MAX_MESH_BYTES }
    // The text is this mesh's.
    ensures found { IfOk result (λ m. ReadsAsMesh bytes.now (surface_of m)) }
    // The text has this fault, or memory ran out.
    ensures fault { IfErr result (IsMeshFault bytes.now) }
    // A fault in the first line is reported whatever memory there is. What later lines say is kept while they are read,
    // so memory may run out before the line of the fault is seen.
    ensures memory { IfErr result (IsMeshMemory bytes.now) }
    // A text of a mesh gives the mesh, unless memory runs out.
    ensures given { (s : Surface) → ReadsAsMesh bytes.now s → ReadsBackMesh s result }
    // A text with a fault gives this fault, unless memory runs out.
    ensures told { (n : ℕ) → HasMeshFault bytes.now n → TellsMeshFault n result }
{
    read_mesh(alloc, bytes)
}

fn read_mesh(alloc: Global, text: &[u8]) -> Result<Mesh, Fault>
    ensures found { IfOk result (λ m. ReadsAsMesh text.now (surface_of m)) }
    ensures fault { IfErr result (IsMeshFault text.now) }
    ensures memory { IfErr result (IsMeshMemory text.now) }
{
    let Some(head) = read_head(text) else {
        return Err(Fault::ByuForm { line: 1 });
    };
    let sizes = read_sizes(alloc, text, head)?;
    let vertices = read_points(alloc, text, head)?;
    let triangles = read_triangles(alloc, text, head)?;
    if text.len() > head.end_at() {
        let line = (head.parts + head.vertex_lines() + head.polygons) as u32 + 2;
        return Err(Fault::ByuForm { line });
    }
    let parts = parted(alloc, &sizes, &triangles)?;
    Ok(Mesh { vertices, parts })
}
