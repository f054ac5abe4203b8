//! Distances between points.

ghost use Rattle.std.specs.Prelude.{◌≡◌, ◌≤◌, ◌*◌, ◌^◌, ◌-ℤ◌};
ghost use Rattle.fku_types.specs.Points.{square, IsCoordinate, IsInRange};
ghost use Rattle.plane_geom.specs.Lengths.{distance_square};

use crate::segments::difference;
use fku_types::Point;

/// The square of the difference of two coordinates in range, at most 4 * 10^12. Takes no memory.
#[inline(always)]
pub fn gap_square(a: i32, b: i32) -> u64
    requires a { IsCoordinate a }
    requires b { IsCoordinate b }
    ensures value { result ≡ square (a -ℤ b) }
    ensures range { result ≤ 4000000000000 }
{
    let gap = difference(a, b);
    (gap * gap) as u64
}

/// The squared distance of two points in range, in all three coordinates; at most 12 * 10^12. Takes no memory.
pub fn distance_square(a: Point, b: Point) -> u64
    requires a { IsInRange a }
    requires b { IsInRange b }
    ensures value { result ≡ distance_square a b }
    ensures range { result ≤ 12 * 10 ^ 12 }
{
    gap_square(a.x, b.x) + gap_square(a.y, b.y) + gap_square(a.z, b.z)
}
