//! The crossings of a part.
ghost use Rattle.std.specs.Prelude.{◌≡◌, ℕ, ◌+◌, ◌<◌, ◌^◌, IfOk, All, [], ◌∷◌, drop, length, slice_index};
ghost use Rattle.std.specs.List.{range_with_len};
ghost use Rattle.std.specs.List.Sorted.{IsPermutation};
ghost use Rattle.fku_types.specs.Points.{IsInRange};
ghost use Rattle.mesh_measures.specs.Crossings.{AreInRange, corners_of, part_corners, crossing_counts, crossing_pairs};
ghost use Rattle.mesh_measures.specs.TriangleBoxes.{IsBoxed, IsSwept, boxed_corners, places, tally};

use crate::counting::count_behind;
use crate::crossing::Corners;
use crate::triangle_boxes::{Boxed, with_box};
use fku_types::{NoMemory, Point};
use std::alloc::Global;

/// The crossings of a part's triangles.
#[derive(Drop)]
pub struct CrossingCounts {
    /// For each triangle of the part, in order, how many others it crosses.
    pub counts: Vec<u32>,
    /// How many pairs of triangles cross.
    pub pairs: u64,
}

// The corners of a triangle of vertex ids.
fn corners_at(vertices: &[Point], triangle: (u32, u32, u32)) -> Corners
    requires vertices { All IsInRange vertices.now }
    requires known { (triangle.0 < length vertices.now)
        × (triangle.1 < length vertices.now)
        × (triangle.2 < length vertices.now) }
    ensures value { result ≡ corners_of vertices.now (triangle.0 ∷ triangle.1 ∷ triangle.2 ∷ []) }
    ensures range { AreInRange result }
{
    Corners {
        a: vertices[triangle.0 as usize],
        b: vertices[triangle.1 as usize],
        c: vertices[triangle.2 as usize],
    }
}

// The triangles with their boxes, in order.
fn boxes(alloc: Global, vertices: &[Point], triangles: &[[u32; 3]]) -> Result<Vec<Boxed>, NoMemory>
    requires vertices { All IsInRange vertices.now }
    requires known { All (All (λ id. id < length vertices.now)) triangles.now }
    requires few { length triangles.now < 2 ^ 32 }
    ensures corners { IfOk result (λ v. boxed_corners v.items ≡ part_corners vertices.now triangles.now) }
    ensures places { IfOk result (λ v. places v.items ≡ range_with_len 0 (length triangles.now)) }
    ensures boxed { IfOk result (λ v. All IsBoxed v.items) }
{
    let mut boxes = Vec::with_capacity(alloc, triangles.len())?;
    for triangle in triangles {
        let [a, b, c] = *triangle;
        let place = boxes.len() as u32;
        boxes.push(with_box(place, corners_at(vertices, (a, b, c))))?;
    }
    Ok(boxes)
}

// Triangles in the order of the sweep.
fn swept(boxes: Vec<Boxed>) -> Vec<Boxed>
    ensures permutation { IsPermutation boxes.items result.items }
    ensures swept { IsSwept result.items }
{
    let mut swept = boxes;
    swept.sort_unstable_by_key(|b| (b.least.z, b.least.x));
    swept
}

// Counts the crossings of one triangle with later ones, and returns their number.
fn count_from(sorted: &[Boxed], place: usize, counts: &mut [u32]) -> u32
    requires place { place < length sorted.now }
    requires boxed { All IsBoxed sorted.now }
    requires swept { IsSwept sorted.now }
    requires places { All (λ f. f.place < length counts.old) sorted.now }
    requires few { length sorted.now < 2 ^ 32 }
    requires room { (i : ℕ) → slice_index counts.old i + tally (drop place sorted.now) i < 2 ^ 32 }
    ensures own { result + crossing_pairs (boxed_corners (drop (place + 1) sorted.now))
        ≡ crossing_pairs (boxed_corners (drop place sorted.now)) }
    ensures counts { (i : ℕ) → slice_index counts.new i + tally (drop (place + 1) sorted.now) i
        ≡ slice_index counts.old i + tally (drop place sorted.now) i }
{
    let first = &sorted[place];
    let own = count_behind(first, &sorted[place + 1..], counts);
    counts[first.place as usize] += own;
    own
}

// Counts the crossings of all triangles, and returns how many pairs cross.
fn count_all(sorted: &[Boxed], counts: &mut [u32]) -> u64
    requires boxed { All IsBoxed sorted.now }
    requires swept { IsSwept sorted.now }
    requires places { All (λ f. f.place < length counts.old) sorted.now }
    requires few { length sorted.now < 2 ^ 32 }
    requires room { (i : ℕ) → slice_index counts.old i + tally sorted.now i < 2 ^ 32 }
    ensures pairs { result ≡ crossing_pairs (boxed_corners sorted.now) }
    ensures counts { (i : ℕ) → slice_index counts.new i ≡ slice_index counts.old i + tally sorted.now i }
{
    let mut pairs = 0;
    for place in 0..sorted.len() {
        pairs += u64::from(count_from(sorted, place, counts));
    }
    pairs
}

// The counts and the number of pairs of triangles in the order of the sweep.
fn counted(alloc: Global, sorted: &[Boxed]) -> Result<CrossingCounts, NoMemory>
    requires boxed { All IsBoxed sorted.now }
    requires swept { IsSwept sorted.now }
    requires places { All (λ f. f.place < length sorted.now) sorted.now }
    requires few { length sorted.now < 2 ^ 32 }
    requires room { (i : ℕ) → tally sorted.now i < 2 ^ 32 }
    ensures length { IfOk result (λ r. length r.counts.items ≡ length sorted.now) }
    ensures counts { IfOk result (λ r. (i : ℕ) → slice_index r.counts.items i ≡ tally sorted.now i) }
    ensures pairs { IfOk result (λ r. r.pairs ≡ crossing_pairs (boxed_corners sorted.now)) }
{
    let mut counts = vec![in alloc; 0u32; sorted.len()]?;
    let pairs = count_all(sorted, &mut counts);
    Ok(CrossingCounts { counts, pairs })
}

/// The crossings of a part's triangles; or `NoMemory`. The vertices are in range, each id is the index of one of them,
/// and there are fewer than 2^32 triangles.
///
/// All pairs of triangles count. It is fast where most triangles lie in layers one above another: it then compares only
/// triangles of one layer that are near each other.
pub fn crossings(
    alloc: Global,
    vertices: &[Point],
    triangles: &[[u32; 3]],
) -> Result<CrossingCounts, NoMemory>
    requires vertices { All IsInRange vertices.now }
    requires known { All (All (λ id. id < length vertices.now)) triangles.now }
    requires few { length triangles.now < 2 ^ 32 }
    // For each triangle, how many triangles of the part it crosses; none crosses itself.
    ensures counts { IfOk result (λ r. r.counts.items ≡ crossing_counts (part_corners vertices.now triangles.now)) }
    // How many pairs of triangles cross.
    ensures pairs { IfOk result (λ r. r.pairs ≡ crossing_pairs (part_corners vertices.now triangles.now)) }
{
    let sorted = swept(boxes(alloc, vertices, triangles)?);
    counted(alloc, &sorted)
}
