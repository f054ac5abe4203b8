//! The counts of a mesh.
ghost use Rattle.std.specs.Prelude.{◌≡◌, ◌↔◌, IsTrue, length, sum_by, All, IfOk};
ghost use Rattle.std.specs.List.{flat_map};
ghost use Rattle.plane_geom.specs.Rings.{IsClosed};
ghost use Rattle.triangle_meshes.specs.Meshes.{surface_of, triangle_lists, IsValid};
ghost use Rattle.triangle_meshes.specs.Edges.{edges_of};

use crate::edges::count_sides;
use fku_types::NoMemory;
use std::alloc::Global;
use triangle_meshes::{Mesh, balanced, triangle_count};

/// The counts of a mesh: its parts, its vertices, its polygons, its different edges, where an edge and its reverse are
/// one, and whether in each part every directed edge occurs as often as its reverse.
#[derive(Clone, Copy, Debug, PartialEq, Eq)]
pub struct MeshCounts {
    pub parts: u32,
    pub vertices: u32,
    pub polygons: u32,
    pub edges: u32,
    pub closed: bool,
}

// The triangles of all parts.
fn triangles_of(
    alloc: Global,
    parts: &[Vec<[u32; 3]>],
    polygons: usize,
) -> Result<Vec<[u32; 3]>, NoMemory>
    ensures { IfOk result (λ v. v.items ≡ flat_map (λ part. part) (triangle_lists parts.now)) }
{
    let mut triangles = Vec::with_capacity(alloc, polygons)?;
    for part in parts {
        triangles.extend_from_slice(part)?;
    }
    Ok(triangles)
}

/// The counts of a valid mesh; or `NoMemory`.
pub fn counts(alloc: Global, mesh: &Mesh) -> Result<MeshCounts, NoMemory>
    requires { IsValid (surface_of mesh.now) }
    ensures parts { IfOk result (λ c. c.parts ≡ length (surface_of mesh.now).parts) }
    ensures vertices { IfOk result (λ c. c.vertices ≡ length (surface_of mesh.now).vertices) }
    ensures polygons { IfOk result (λ c. c.polygons ≡ sum_by length (surface_of mesh.now).parts) }
    ensures edges { IfOk result (λ c. c.edges ≡ edges_of (surface_of mesh.now)) }
    ensures closed { IfOk result (λ c. IsTrue c.closed ↔ All IsClosed (surface_of mesh.now).parts) }
{
    let polygons = triangle_count(mesh);
    let triangles = triangles_of(alloc, &mesh.parts, polygons)?;
    let sides = count_sides(alloc, &triangles)?;
    let closed = balanced(alloc, mesh)?;
    Ok(MeshCounts {
        parts: mesh.parts.len() as u32,
        vertices: mesh.vertices.len() as u32,
        polygons: polygons as u32,
        edges: sides.edges,
        closed,
    })
}
