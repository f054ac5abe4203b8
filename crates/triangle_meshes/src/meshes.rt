//! Meshes, and how often a directed edge occurs in them.
ghost use Rattle.std.specs.Prelude.{◌≡◌, ◌+◌, ◌<◌, ◌≤◌, [], ◌∷◌, length, sum_by, slice_get, IfSome, if◌then◌else◌};
ghost use Rattle.plane_geom.specs.Rings.{edge_count, is_edge};
ghost use Rattle.triangle_meshes.specs.Meshes.{surface_of, triangle_lists, IsValid};

use fku_types::Point;
use fku_types::limits::MAX_MESH_TRIANGLES;

/// A triangle mesh: its vertices, and its parts, each a list of triangles of vertex ids. An id is the place of a
/// vertex, counted from 0; a triangle's edges go from each id to the next, and from the last to the first.
///
/// It is valid if it has 1 to `MAX_MESH_VERTICES` vertices in range, 1 to `MAX_MESH_PARTS` parts, each with a
/// triangle, ids below the number of vertices, and at most `MAX_MESH_TRIANGLES` triangles in all.
#[derive(Drop)]
pub struct Mesh {
    pub vertices: Vec<Point>,
    pub parts: Vec<Vec<[u32; 3]>>,
}

// How many triangles parts have.
fn count_triangles(parts: &[Vec<[u32; 3]>]) -> usize
    requires { sum_by length (triangle_lists parts.now) ≤ MAX_MESH_TRIANGLES }
    ensures { result ≡ sum_by length (triangle_lists parts.now) }
{
    let mut count = 0;
    for part in parts {
        count += part.len();
    }
    count
}

/// How many triangles a valid mesh has, in all its parts. Takes no memory.
pub fn triangle_count(mesh: &Mesh) -> usize
    requires { IsValid (surface_of mesh.now) }
    ensures { result ≡ sum_by length (surface_of mesh.now).parts }
{
    count_triangles(&mesh.parts)
}

// 1 if an edge leads from u to v, else 0.
fn counted(edge: (u32, u32), u: u32, v: u32) -> u64
    ensures { result ≡ (if is_edge u v edge then 1 else 0) }
{
    if edge.0 == u && edge.1 == v { 1 } else { 0 }
}

// At how many places of a triangle v follows u.
fn count_in(a: u32, b: u32, c: u32, u: u32, v: u32) -> u64
    ensures value { result ≡ edge_count ((a ∷ b ∷ c ∷ []) ∷ []) u v }
    ensures few { result ≤ 3 }
{
    counted((a, b), u, v) + counted((b, c), u, v) + counted((c, a), u, v)
}

// At how many places of triangles v follows u.
fn count_all(triangles: &[[u32; 3]], u: u32, v: u32) -> u64
    requires { length triangles.now ≤ MAX_MESH_TRIANGLES }
    ensures { result ≡ edge_count triangles.now u v }
{
    let mut count = 0;
    for triangle in triangles {
        let [a, b, c] = *triangle;
        count += count_in(a, b, c, u, v);
    }
    count
}

/// At how many places of the triangles of a part, counted from 0, of a valid mesh v follows u.
/// Takes no memory.
pub fn edge_count(mesh: &Mesh, part: u32, u: u32, v: u32) -> u64
    requires valid { IsValid (surface_of mesh.now) }
    requires part { part < length (surface_of mesh.now).parts }
    ensures { IfSome (slice_get (surface_of mesh.now).parts part) (λ triangles. result ≡ edge_count triangles u v) }
{
    count_all(&mesh.parts[part as usize], u, v)
}
