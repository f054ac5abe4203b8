//! Meshes that tests share: a cube, and meshes of given triangles.
ghost use Rattle.std.specs.Prelude.{◌≡◌, [], ◌∷◌, IfOk};
ghost use Rattle.triangle_meshes.specs.Meshes.{surface_of};

use fku_types::{NoMemory, Point};
use std::alloc::Global;
use triangle_meshes::Mesh;

/// A cube of side 10.
pub(crate) const CORNERS: [Point; 8] = [
    Point { x: 0, y: 0, z: 0 },
    Point { x: 10, y: 0, z: 0 },
    Point { x: 10, y: 10, z: 0 },
    Point { x: 0, y: 10, z: 0 },
    Point { x: 0, y: 0, z: 10 },
    Point { x: 10, y: 0, z: 10 },
    Point {
        x: 10,
        y: 10,
        z: 10,
    },
    Point { x: 0, y: 10, z: 10 },
];

/// Its triangles.
pub(crate) const CUBE: [[u32; 3]; 12] = [
    [3, 1, 0],
    [1, 3, 2],
    [0, 1, 4],
    [5, 4, 1],
    [1, 2, 5],
    [6, 5, 2],
    [2, 3, 6],
    [7, 6, 3],
    [3, 0, 7],
    [4, 7, 0],
    [7, 4, 5],
    [5, 6, 7],
];

/// A mesh of two parts.
pub(crate) fn two_parts(
    alloc: Global,
    vertices: &[Point],
    first: &[[u32; 3]],
    second: &[[u32; 3]],
) -> Result<Mesh, NoMemory>
    ensures { IfOk result (λ m.
        surface_of m ≡ record { vertices = vertices.now; parts = first.now ∷ second.now ∷ [] }) }
{
    let vertices = vertices.to_vec(alloc)?;
    let parts = vec![in alloc; first.to_vec(alloc)?, second.to_vec(alloc)?]?;
    Ok(Mesh { vertices, parts })
}
