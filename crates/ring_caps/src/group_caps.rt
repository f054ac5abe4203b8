//! The cap of a group of rings.
ghost use Rattle.std.specs.Prelude.{◌≡◌, ℕ, ◌+◌, ◌*◌, ◌<◌, ◌≤◌, List, [], All, IfOk, IfErr, length, sum_by};
ghost use Rattle.std.specs.List.{AllByRecursion};
ghost use Rattle.fku_types.specs.declared.points.Point.{Point};
ghost use Rattle.plane_geom.specs.Rings.{LeavesOver};
ghost use Rattle.plane_geom.specs.Planes.{signed_sum, side_of};
ghost use Rattle.plane_geom.specs.RingViews.{ring_views, IsContour};
ghost use Rattle.ring_polygons.specs.Composites.{composite, ids_of};
ghost use Rattle.ring_polygons.specs.Faults.{IsCause};
ghost use Rattle.ring_polygons.specs.Caps.{area_of};
ghost use Rattle.ring_caps.specs.GroupCaps.{group_cap, group_corners, group_folded, IsGroupCut, IsNumbered, area_in};

use fku_types::limits::{MAX_COMPOSITE_VERTICES, MAX_SECTION_VERTICES};
use plane_geom::Ring;
use ring_polygons::{CapList, ComposeFault, Twins, cap_by, compose};
use std::alloc::Global;

/// The cap of a group of rings as a top: one list of triangles for an outer ring with its holes. `compose` takes the
/// rings and joins them, and the ear rule cuts their composite. A vertex at the point of one of a triangle's corners
/// does not block an ear, since a composite passes the ends of its bridges twice. There is at least one ring, each has
/// 3 to `MAX_CONTOUR_VERTICES` points in range, and all together have at most `MAX_SECTION_VERTICES` points. `TooLong`
/// comes exactly if the composite would have more than `MAX_COMPOSITE_VERTICES` vertices, with their number; `NoMemory`
/// comes only if it would not.
pub fn cap_group(alloc: Global, rings: Vec<Ring>) -> Result<CapList, ComposeFault>
    requires some { 0 < length rings.items }
    requires contours { All IsContour rings.items }
    requires few { sum_by (λ r. length r.points.items) rings.items ≤ MAX_SECTION_VERTICES }
    ensures triangles { IfOk result (λ l. l.triangles.items ≡ group_cap (ring_views rings.items)) }
    ensures ears { IfOk result (λ l. IsGroupCut (ring_views rings.items) l.triangles.items) }
    ensures folded { IfOk result (λ l. l.folded ≡ group_folded (ring_views rings.items)) }
    ensures small { IfOk result (λ l. l.folded ≤ MAX_COMPOSITE_VERTICES) }
    ensures count { IfOk result (λ l.
        length l.triangles.items + 4 ≡ sum_by (λ r. length r.points.items) rings.items + 2 * length rings.items) }
    ensures short { IfOk result (λ _. length (composite (ring_views rings.items)).points ≤ MAX_COMPOSITE_VERTICES) }
    // The edges without a reverse are those of the rings; those of bridges cancel.
    ensures left_over { IfOk result (λ l. LeavesOver l.triangles.items (ids_of (ring_views rings.items)) []) }
    ensures vertices { IfOk result (λ l.
        (n : ℕ) → All (λ r. All (λ v. v < n) r.ids.items) rings.items
        → All (λ t. All (λ v. v < n) t) l.triangles.items) }
    // The signed areas of the triangles, by their points, add up to those of the rings; so do those of vertices whose
    // numbers the ids are.
    ensures area { IfOk result (λ _.
        signed_sum side_of (group_corners (ring_views rings.items)) ≡ area_in (ring_views rings.items)) }
    ensures numbered_area { IfOk result (λ l.
        (vertices : List Point) → AllByRecursion (IsNumbered vertices) (ring_views rings.items)
        → area_of vertices l.triangles.items ≡ area_in (ring_views rings.items)) }
    ensures cause { IfErr result (IsCause (length (composite (ring_views rings.items)).points)) }
{
    let ring = compose(alloc, rings)?;
    let list = cap_by(alloc, &ring, Twins::Pass)?;
    Ok(list)
}
