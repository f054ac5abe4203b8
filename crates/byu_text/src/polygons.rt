//! The lines of the polygons.
ghost use Rattle.std.specs.Prelude.{◌≡◌, ℕ, ◌+◌, ◌*◌, ◌≤◌, ◌^◌, ◌++◌, ◌↔◌, IsTrue, List, length, drop, sum, MatchOption, IfOk, IfErr};
ghost use Rattle.fku_types.specs.declared.points.Point.{Point};
ghost use Rattle.triangle_meshes.specs.Meshes.{triangle_lists};
ghost use Rattle.byu_text.specs.Byu.{polygon_line};
ghost use Rattle.byu_text.specs.Pieces.{AreMeshCounts, IsKnownTriangle};
ghost use Rattle.byu_text.specs.Stages.{counts_of, HasHead, HasSizes, HasPoints, HasTriangles, NoneOf, parts_in};
ghost use Rattle.byu_text.specs.Answers.{IsMeshFault};

use crate::head::Head;
use crate::read_fields::{line_at, negative_id, number_of};
use fku_types::{Fault, NoMemory};
use std::alloc::Global;

// Whether a number is that of a vertex, counted from 1.
fn is_vertex(number: u32, head: Head) -> bool
    ensures { IsTrue result ↔ ((1 ≤ number) × (number ≤ head.vertices)) }
{
    1 <= number && number as usize <= head.vertices
}

// The polygon of the line at a place; none if no such line is there.
fn triangle_at(text: &[u8], at: usize, head: Head) -> Option<[u32; 3]>
    requires place { at ≤ 10 ^ 9 }
    requires head { AreMeshCounts (counts_of head) }
    ensures { MatchOption result (NoneOf (IsKnownTriangle (counts_of head)) polygon_line (drop at text.now)) (λ t.
        IsKnownTriangle (counts_of head) t × (drop at text.now ≡ polygon_line t ++ drop (at + 25) text.now)) }
{
    let line = line_at(text, at, 24)?;
    let a = number_of(&line[..8])?;
    let b = number_of(&line[8..16])?;
    let c = negative_id(&line[16..24])?;
    if !is_vertex(a, head) || !is_vertex(b, head) || !is_vertex(c + 1, head) {
        return None;
    }
    Some([a - 1, b - 1, c])
}

/// The polygons, whose lines follow those of the vertices; or the fault if it is at one of these lines or after them;
/// or `NoMemory`.
pub fn read_triangles(alloc: Global, text: &[u8], head: Head) -> Result<Vec<[u32; 3]>, Fault>
    requires head { HasHead text.now (counts_of head) }
    requires sizes { (sizes : List ℕ) × HasSizes text.now (counts_of head) sizes }
    requires points { (points : List Point) × HasPoints text.now (counts_of head) points }
    ensures ok { IfOk result (λ v. HasTriangles text.now (counts_of head) v.items) }
    ensures err { IfErr result (IsMeshFault text.now) }
{
    let before = head.parts + head.vertex_lines();
    let start = head.polygons_at();
    let mut triangles = Vec::with_capacity(alloc, head.polygons)?;
    for i in 0..head.polygons {
        let Some(triangle) = triangle_at(text, start + 25 * i, head) else {
            let line = (before + i) as u32 + 2;
            return Err(Fault::ByuForm { line });
        };
        triangles.extend_from_slice(&[triangle])?;
    }
    Ok(triangles)
}

/// Polygons split into parts of these sizes; or `NoMemory`.
pub fn parted(
    alloc: Global,
    sizes: &[usize],
    triangles: &[[u32; 3]],
) -> Result<Vec<Vec<[u32; 3]>>, NoMemory>
    requires { sum sizes.now ≤ length triangles.now }
    ensures { IfOk result (λ v. triangle_lists v.items ≡ parts_in sizes.now triangles.now) }
{
    let mut parts = Vec::with_capacity(alloc, sizes.len())?;
    let mut rest = triangles;
    for size in sizes {
        let (part, others) = rest.split_at(*size);
        parts.push(Vec::from_slice(alloc, part)?)?;
        rest = others;
    }
    Ok(parts)
}
