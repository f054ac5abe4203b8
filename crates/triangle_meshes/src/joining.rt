//! Several meshes joined into one.
ghost use Rattle.std.specs.Prelude.{◌≡◌, ◌≤◌, ◌++◌, length, map, All, IfOk, OnOk};
ghost use Rattle.std.specs.List.{AllByRecursion};
ghost use Rattle.plane_geom.specs.Rings.{IsClosed};
ghost use Rattle.triangle_meshes.specs.Meshes.{surface_of, triangle_lists, IsValid};
ghost use Rattle.triangle_meshes.specs.Joined.{joined, raised_triangle, raised_part, raised, IsBelow};

use crate::meshes::Mesh;
use fku_types::NoMemory;
use std::alloc::Global;

// A triangle with its ids raised.
fn raised_triangle(triangle: [u32; 3], by: u32) -> [u32; 3]
    requires { IsBelow by triangle }
    ensures { result ≡ raised_triangle by triangle }
{
    let [a, b, c] = triangle;
    [a + by, b + by, c + by]
}

// A part with its ids raised, copied once.
fn raised_part(alloc: Global, part: &[[u32; 3]], by: u32) -> Result<Vec<[u32; 3]>, NoMemory>
    requires { AllByRecursion (IsBelow by) part.now }
    ensures { IfOk result (λ v. v.items ≡ raised_part by part.now) }
{
    let mut raised = Vec::with_capacity(alloc, part.len())?;
    for triangle in part {
        raised.push(raised_triangle(*triangle, by))?;
    }
    Ok(raised)
}

// Appends parts to others, with their ids raised.
fn add_parts(
    alloc: Global,
    out: &mut Vec<Vec<[u32; 3]>>,
    parts: &[Vec<[u32; 3]>],
    by: u32,
) -> Result<(), NoMemory>
    requires { AllByRecursion (AllByRecursion (IsBelow by)) (triangle_lists parts.now) }
    ensures { OnOk result
        (triangle_lists out.new.items ≡ triangle_lists out.old.items ++ raised by (triangle_lists parts.now)) }
{
    for part in parts {
        out.push(raised_part(alloc, part, by)?)?;
    }
    Ok(())
}

/// The vertices and the parts of meshes in order, as one mesh: the ids of each are raised by the number of vertices
/// before it. There is at least one mesh, each is valid, and so is the joined one. Or `NoMemory`.
pub fn join_meshes(alloc: Global, meshes: &[Mesh]) -> Result<Mesh, NoMemory>
    requires some { 1 ≤ length meshes.now }
    requires each { All IsValid (map surface_of meshes.now) }
    requires whole { IsValid (joined (map surface_of meshes.now)) }
    // The meshes follow one another.
    ensures joined { IfOk result (λ m. surface_of m ≡ joined (map surface_of meshes.now)) }
    // Each part is closed if each part of the meshes is.
    ensures closed { All (λ s. All IsClosed s.parts) (map surface_of meshes.now)
        → IfOk result (λ m. All IsClosed (surface_of m).parts) }
{
    let mut vertices = Vec::new(alloc);
    let mut parts = Vec::new(alloc);
    for mesh in meshes {
        add_parts(alloc, &mut parts, &mesh.parts, vertices.len() as u32)?;
        vertices.extend_from_slice(&mesh.vertices)?;
    }
    Ok(Mesh { vertices, parts })
}
