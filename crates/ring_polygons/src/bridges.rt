//! The least bridges from a ring to others.

ghost use Rattle.std.specs.Prelude.{◌≡◌, ℕ, ◌+◌, ◌<◌, ◌≤◌, true, false, List, length, All, IfOk, slice_index_or};
ghost use Rattle.fku_types.specs.declared.points.Point.{Point};
ghost use Rattle.fku_types.specs.Points.{IsInRange};
ghost use Rattle.plane_geom.specs.Rings.{origin};
ghost use Rattle.plane_geom.specs.Lengths.{distance_square};
ghost use Rattle.plane_geom.specs.RingViews.{ring_views, IsContour};
ghost use Rattle.ring_polygons.specs.Composites.{first_least};
ghost use Rattle.ring_polygons.specs.Nearest.{IsNearest, near_at, AreNearest, IsFirstNearest, IsExtended};

use crate::extents::Extent;
use fku_types::{NoMemory, Point};
use plane_geom::{Ring, distance_square};
use std::alloc::Global;

/// The vertex of a ring that is nearest to a point, and its squared distance.
#[derive(Clone, Copy)]
struct NearVertex {
    vertex: usize,
    square: u64,
}

/// A bridge from a ring to another one: its squared length, its place in the ring, and the vertex of the other ring.
#[derive(Clone, Copy)]
pub struct Near {
    pub square: u64,
    pub place: usize,
    pub vertex: usize,
}

/// The first of some points with the least distance to a point.
fn near_vertex(point: Point, points: &[Point]) -> NearVertex
    requires point { IsInRange point }
    requires some { 0 < length points.now }
    requires range { All IsInRange points.now }
    ensures vertex { result.vertex
        ≡ first_least (λ v. distance_square point (slice_index_or points.now v origin)) (length points.now) }
    ensures square { result.square ≡ distance_square point (slice_index_or points.now result.vertex origin) }
    ensures there { result.vertex < length points.now }
{
    let mut vertex = 0;
    let mut square = distance_square(point, points[0]);
    for v in 0..points.len() {
        let other = distance_square(point, points[v]);
        if other < square {
            vertex = v;
            square = other;
        }
    }
    NearVertex { vertex, square }
}

/// The least bridge from a ring to another one. A place replaces the one found so far only if it is strictly nearer, so
/// a place that is not even nearer to the extent of the other ring is skipped.
fn nearest(ring: &[Point], other: &[Point]) -> Near
    requires ring { 0 < length ring.now }
    requires ring_range { All IsInRange ring.now }
    requires other { 0 < length other.now }
    requires other_range { All IsInRange other.now }
    ensures { IsNearest ring.now other.now result }
{
    let extent = Extent::of(other);
    let first = near_vertex(ring[0], other);
    let mut place = 0;
    let mut vertex = first.vertex;
    let mut square = first.square;
    for p in 0..ring.len() {
        if extent.square_from(ring[p]) < square {
            let near = near_vertex(ring[p], other);
            if near.square < square {
                place = p;
                vertex = near.vertex;
                square = near.square;
            }
        }
    }
    Near {
        square,
        place,
        vertex,
    }
}

/// The least bridges from a ring to each of the others; or `NoMemory`.
pub fn nearest_each(alloc: Global, ring: &[Point], others: &[Ring]) -> Result<Vec<Near>, NoMemory>
    requires ring { 0 < length ring.now }
    requires range { All IsInRange ring.now }
    requires others { All IsContour others.now }
    ensures { IfOk result (λ v. AreNearest ring.now (ring_views others.now) v.items) }
{
    let mut nears = Vec::with_capacity(alloc, others.len())?;
    for other in others {
        let near = nearest(ring, &other.points);
        nears.push(near)?;
    }
    Ok(nears)
}

/// Whether a bridge comes before another one: by its squared length, then by its place.
fn precedes(one: Near, other: Near) -> bool
    ensures less { result ≡ true → one.square ≤ other.square × (one.square ≡ other.square → one.place < other.place) }
    ensures not_less { result ≡ false
        → other.square ≤ one.square × (one.square ≡ other.square → other.place ≤ one.place) }
{
    one.square < other.square || (one.square == other.square && one.place < other.place)
}

/// The ring to which the bridge is least.
pub fn first_of(nears: &[Near]) -> usize
    requires { 0 < length nears.now }
    ensures { IsFirstNearest nears.now result }
{
    let mut least = 0;
    for c in 0..nears.len() {
        if precedes(nears[c], nears[least]) {
            least = c;
        }
    }
    least
}

/// The new place of a place of a ring, after `added` points were inserted after another place.
fn moved(at: usize, place: usize, added: usize) -> usize
    requires { at + added < 18446744073709551616 }
    ensures front { at ≤ place → result ≡ at }
    ensures back { place < at → result ≡ at + added }
{
    if at > place { at + added } else { at }
}

/// The least bridge to a ring after `added` points were inserted after a place: the one that was least before, or
/// one from the new points.
fn renewed(after: &[Point], other: &[Point], near: Near, place: usize, added: usize) -> Near
    requires range { All IsInRange after.now }
    requires other { 0 < length other.now }
    requires other_range { All IsInRange other.now }
    requires some { 0 < added }
    requires room { place + added < length after.now }
    requires near { near.place + added < length after.now }
    ensures { (before : List Point) → IsNearest before other.now near
        → IsExtended before after.now place added
        → IsNearest after.now other.now result }
{
    let fresh = nearest(&after[place + 1..place + 1 + added], other);
    let new = Near {
        square: fresh.square,
        place: place + 1 + fresh.place,
        vertex: fresh.vertex,
    };
    let old = Near {
        square: near.square,
        place: moved(near.place, place, added),
        vertex: near.vertex,
    };
    if precedes(new, old) { new } else { old }
}

/// Renews the least bridges to each ring after `added` points were inserted after a place.
pub fn renew(nears: &mut [Near], others: &[Ring], after: &[Point], place: usize, added: usize)
    requires same { length nears.now ≡ length others.now }
    requires others { All IsContour others.now }
    requires range { All IsInRange after.now }
    requires some { 0 < added }
    requires room { place + added < length after.now }
    requires nears { (c : ℕ) → c < length nears.now → (near_at nears.now c).place + added < length after.now }
    ensures { (before : List Point) → AreNearest before (ring_views others.now) nears.old
        → IsExtended before after.now place added
        → AreNearest after.now (ring_views others.now) nears.new }
{
    for c in 0..others.len() {
        nears[c] = renewed(after, &others[c].points, nears[c], place, added);
    }
}
