//! Composite contours: rings joined by their least bridges.
ghost use Rattle.std.specs.Prelude.{◌≡◌, ℕ, ◌+◌, ◌*◌, ◌<◌, ◌≤◌, [], ◌∷◌, length, All, IfOk, IfErr, sum_by};
ghost use Rattle.fku_types.specs.Points.{IsInRange};
ghost use Rattle.plane_geom.specs.Rings.{IsRing, LeavesOver};
ghost use Rattle.plane_geom.specs.RingViews.{ring_view, ring_views, IsContour};
ghost use Rattle.ring_polygons.specs.Composites.{composite, ids_of};
ghost use Rattle.ring_polygons.specs.Bridges.{IsCompositeOf};
ghost use Rattle.ring_polygons.specs.Faults.{IsCause};

use crate::bridges::{first_of, nearest_each, renew};
use crate::fault::ComposeFault;
use crate::joins::joined;
use fku_types::NoMemory;
use fku_types::limits::{MAX_COMPOSITE_VERTICES, MAX_CONTOURS, MAX_SECTION_VERTICES};
use plane_geom::Ring;
use std::alloc::Global;

/// How many vertices the composite has, plus two.
fn count_vertices(rings: &[Ring]) -> usize
    requires few { sum_by (λ r. length r.points.items) rings.now ≤ MAX_SECTION_VERTICES }
    requires rings { length rings.now ≤ MAX_CONTOURS }
    ensures { result ≡ sum_by (λ r. length r.points.items) rings.now + 2 * length rings.now }
{
    let mut count = 0;
    for ring in rings {
        count += ring.points.len() + 2;
    }
    count
}

/// All rings joined, beginning with the first; `NoMemory` if memory runs out. It keeps the least bridge to each ring
/// that is left, so each point of the composite is compared, when it is added, at most once with each vertex of those
/// rings.
fn join_all(alloc: Global, rings: Vec<Ring>) -> Result<Ring, NoMemory>
    requires some { 0 < length rings.items }
    requires contours { All IsContour rings.items }
    ensures value { IfOk result (λ r. ring_view r ≡ composite (ring_views rings.items)) }
    ensures range { IfOk result (λ r. All IsInRange r.points.items) }
    ensures enough { IfOk result (λ r. 3 ≤ length r.points.items) }
{
    let mut others = rings;
    let mut ring = others.remove(0);
    let mut nears = nearest_each(alloc, &ring.points, &others)?;
    'joining: while others.len() > 0 {
        let first = first_of(&nears);
        let near = nears.remove(first);
        let other = others.remove(first);
        ring = joined(alloc, &ring, &other, near.place, near.vertex)?;
        let added = other.points.len() + 2;
        renew(&mut nears, &others, &ring.points, near.place, added);
    }
    Ok(ring)
}

/// The composite of some rings, which it takes. It starts as the first ring. While a ring is left, one is joined to it
/// by the least bridge: by its squared length in all three coordinates, then by its place in the composite, its ring,
/// and its vertex there. A bridge is passed in both directions, so the composite has the vertices of all rings and two
/// more for each ring after the first, and its edges without the bridges are those of the rings. There is at least one
/// ring, each has 3 to `MAX_CONTOUR_VERTICES` points in range, and all together have at most `MAX_SECTION_VERTICES`
/// points. `TooLong` comes exactly if the composite would have more than `MAX_COMPOSITE_VERTICES` vertices, with their
/// number. `NoMemory` comes only if it would not, and memory runs out.
pub fn compose(alloc: Global, rings: Vec<Ring>) -> Result<Ring, ComposeFault>
    requires some { 0 < length rings.items }
    requires contours { All IsContour rings.items }
    requires few { sum_by (λ r. length r.points.items) rings.items ≤ MAX_SECTION_VERTICES }
    ensures value { IfOk result (λ r. ring_view r ≡ composite (ring_views rings.items)) }
    ensures bridges { IfOk result (λ r. IsCompositeOf (ring_views rings.items) (ring_view r)) }
    ensures ring { IfOk result (λ r. IsRing r.points.items) }
    ensures count { IfOk result (λ r.
        length r.points.items + 2 ≡ sum_by (λ s. length s.points.items) rings.items + 2 * length rings.items) }
    ensures left_over { IfOk result (λ r. LeavesOver (r.ids.items ∷ []) (ids_of (ring_views rings.items)) []) }
    ensures vertices { IfOk result (λ r.
        (n : ℕ) → All (λ s. All (λ v. v < n) s.ids.items) rings.items → All (λ v. v < n) r.ids.items) }
    ensures cause { IfErr result (λ e. IsCause (length (composite (ring_views rings.items)).points) e) }
{
    let count = count_vertices(&rings) - 2;
    if count > MAX_COMPOSITE_VERTICES as usize {
        return Err(ComposeFault::TooLong {
            count: count as u32,
        });
    }
    Ok(join_all(alloc, rings)?)
}
