//! Contours that overlap.

ghost use Rattle.std.specs.Prelude.{◌↔◌, ◌<◌, ◌≤◌, IsTrue, All, length};
ghost use Rattle.fku_types.specs.Points.{IsInRange};
ghost use Rattle.correspondence.specs.Bounding.{Encloses};
ghost use Rattle.correspondence.specs.Overlaps.{Overlap};

use crate::apart::touch;
use crate::bounds::Bounds;
use crate::nesting::is_within;
use fku_types::Point;
use fku_types::limits::MAX_CONTOUR_VERTICES;

/// Whether two contours overlap, seen along z: an edge of one shares a point with an edge of the other, or vertex 0 of
/// one is inside the other. Each has 1 to `MAX_CONTOUR_VERTICES` points, all in range. Stops at the first such edge.
/// Takes no memory.
pub fn overlap(one: &[Point], other: &[Point]) -> bool
    requires one { All IsInRange one.now }
    requires other { All IsInRange other.now }
    requires some { (0 < length one.now) × (0 < length other.now) }
    requires few { (length one.now ≤ MAX_CONTOUR_VERTICES) × (length other.now ≤ MAX_CONTOUR_VERTICES) }
    ensures { IsTrue result ↔ Overlap one.now other.now }
{
    touch(one, other) || is_within(one[0], other) || is_within(other[0], one)
}

/// The same where both contours lie within bounds. Most pairs of contours lie above or below one another.
#[inline(always)]
pub fn overlap_within(
    one: &[Point],
    one_bounds: Bounds,
    other: &[Point],
    other_bounds: Bounds,
) -> bool
    requires one { All IsInRange one.now }
    requires other { All IsInRange other.now }
    requires some { (0 < length one.now) × (0 < length other.now) }
    requires few { (length one.now ≤ MAX_CONTOUR_VERTICES) × (length other.now ≤ MAX_CONTOUR_VERTICES) }
    requires one_bounds { Encloses one_bounds one.now }
    requires other_bounds { Encloses other_bounds other.now }
    ensures { IsTrue result ↔ Overlap one.now other.now }
{
    if one_bounds.lie_apart(other_bounds) {
        return false;
    }
    overlap(one, other)
}
