//! The side of a triangle's plane on which a point lies.
ghost use Rattle.std.specs.Prelude.{◌≡◌, ◌*◌, ◌≤◌, ◌^◌, unsigned_abs};
ghost use Rattle.fku_types.specs.Points.{IsInRange};
ghost use Rattle.mesh_measures.specs.Turns.{turn};

use fku_types::Point;
use triangle_meshes::tetrahedron_volume;

/// Six times the signed volume between four points in range. Its sign shows on which side of the plane of a, b and c
/// the point d lies; it is 0 if d lies in that plane.
#[inline(always)]
pub fn turn(a: Point, b: Point, c: Point, d: Point) -> i128
    requires a { IsInRange a }
    requires b { IsInRange b }
    requires c { IsInRange c }
    requires d { IsInRange d }
    ensures value { result ≡ turn a b c d }
    ensures range { unsigned_abs result ≤ 48 * 10 ^ 18 }
{
    tetrahedron_volume(a, b, c, d)
}
