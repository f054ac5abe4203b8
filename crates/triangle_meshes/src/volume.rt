//! The volume inside a mesh.
ghost use Rattle.std.specs.Prelude.{◌≡◌, ◌*◌, ◌<◌, ◌≤◌, ◌^◌, [], ◌∷◌, length, sum_by, All, unsigned_abs};
ghost use Rattle.fku_types.specs.Points.{IsInRange};
ghost use Rattle.plane_geom.specs.Rings.{origin, IsClosed};
ghost use Rattle.plane_geom.specs.Planes.{signed_sum};
ghost use Rattle.triangle_meshes.specs.Meshes.{surface_of, triangle_lists, IsValid};
ghost use Rattle.triangle_meshes.specs.Volumes.{six_volume_of, part_volume, six_volume};

use crate::meshes::Mesh;
use crate::tetrahedra::tetrahedron_volume;
use fku_types::Point;
use fku_types::limits::MAX_MESH_TRIANGLES;

/// Six times the signed volume between a triangle of vertex ids and a point, all in range: the determinant of its
/// vertices as seen from the point. Takes no memory.
pub fn triangle_volume(vertices: &[Point], about: Point, triangle: (u32, u32, u32)) -> i128
    requires vertices { All IsInRange vertices.now }
    requires about { IsInRange about }
    requires known { (triangle.0 < length vertices.now)
        × (triangle.1 < length vertices.now)
        × (triangle.2 < length vertices.now) }
    ensures value { result ≡ six_volume_of vertices.now about (triangle.0 ∷ triangle.1 ∷ triangle.2 ∷ []) }
    ensures range { unsigned_abs result ≤ 48 * 10 ^ 18 }
{
    let (a, b, c) = triangle;
    tetrahedron_volume(
        about,
        vertices[a as usize],
        vertices[b as usize],
        vertices[c as usize],
    )
}

fn part_volume(vertices: &[Point], about: Point, triangles: &[[u32; 3]]) -> i128
    requires vertices { All IsInRange vertices.now }
    requires about { IsInRange about }
    requires known { All (All (λ id. id < length vertices.now)) triangles.now }
    requires few { length triangles.now ≤ MAX_MESH_TRIANGLES }
    ensures value { result ≡ part_volume vertices.now about triangles.now }
    ensures range { unsigned_abs result ≤ length triangles.now * (48 * 10 ^ 18) }
    // For closed triangles it is the same for every point.
    ensures anywhere { IsClosed triangles.now → (o : Point) → part_volume vertices.now o triangles.now ≡ result }
{
    let mut sum = 0;
    for triangle in triangles {
        let [a, b, c] = *triangle;
        sum += triangle_volume(vertices, about, (a, b, c));
    }
    sum
}

// The sum over the parts.
fn mesh_volume(vertices: &[Point], about: Point, parts: &[Vec<[u32; 3]>]) -> i128
    requires vertices { All IsInRange vertices.now }
    requires about { IsInRange about }
    requires known { All (All (All (λ id. id < length vertices.now))) (triangle_lists parts.now) }
    requires few { sum_by length (triangle_lists parts.now) ≤ MAX_MESH_TRIANGLES }
    ensures value { result ≡ signed_sum (part_volume vertices.now about) (triangle_lists parts.now) }
    ensures anywhere { All IsClosed (triangle_lists parts.now)
        → (o : Point) → signed_sum (part_volume vertices.now o) (triangle_lists parts.now) ≡ result }
{
    let mut sum = 0;
    for part in parts {
        sum += part_volume(vertices, about, part);
    }
    sum
}

/// Six times the signed volume of a valid mesh about the origin, in cubed coordinate units: the sum of the determinants
/// of its triangles. It is positive if the triangles of a closed mesh turn counterclockwise as seen from outside. Takes
/// no memory.
pub fn six_volume(mesh: &Mesh) -> i128
    requires valid { IsValid (surface_of mesh.now) }
    ensures value { result ≡ six_volume (surface_of mesh.now) origin }
    // For a closed mesh it is the same for every point.
    ensures anywhere { All IsClosed (surface_of mesh.now).parts
        → (o : Point) → six_volume (surface_of mesh.now) o ≡ result }
{
    six_volume_about(mesh, Point { x: 0, y: 0, z: 0 })
}

/// Six times the signed volume of a valid mesh about a point in range, which is subtracted from each vertex. For a
/// closed mesh it equals `six_volume`. Takes no memory.
pub fn six_volume_about(mesh: &Mesh, origin: Point) -> i128
    requires valid { IsValid (surface_of mesh.now) }
    requires in_range { IsInRange origin }
    ensures value { result ≡ six_volume (surface_of mesh.now) origin }
    ensures anywhere { All IsClosed (surface_of mesh.now).parts
        → (o : Point) → six_volume (surface_of mesh.now) o ≡ result }
{
    mesh_volume(&mesh.vertices, origin, &mesh.parts)
}
