//! Six times the signed volume between four points: a determinant.
ghost use Rattle.std.specs.Prelude.{◌≡◌, ◌*◌, ◌≤◌, ◌^◌, unsigned_abs, ◌*ℤ◌};
ghost use Rattle.fku_types.specs.Points.{IsInRange};
ghost use Rattle.triangle_meshes.specs.Volumes.{seen_from, determinant};
ghost use Rattle.triangle_meshes.specs.Vectors.{point_of, IsDifference};

use fku_types::Point;
use fku_types::limits::MAX_DIFFERENCE;
use plane_geom::{cross, difference};

// A point as seen from another.
#[derive(Clone, Copy)]
struct Vector {
    x: i64,
    y: i64,
    z: i64,
}

#[inline(always)]
fn seen_from(about: Point, point: Point) -> Vector
    requires about { IsInRange about }
    requires point { IsInRange point }
    ensures value { point_of result ≡ seen_from about point }
    ensures range { IsDifference result }
{
    Vector {
        x: difference(point.x, about.x),
        y: difference(point.y, about.y),
        z: difference(point.z, about.z),
    }
}

#[inline(always)]
fn product(difference: i64, cross: i64) -> i128
    requires difference { unsigned_abs difference ≤ MAX_DIFFERENCE }
    requires cross { unsigned_abs cross ≤ 8 * 10 ^ 12 }
    ensures value { result ≡ difference *ℤ cross }
    ensures range { unsigned_abs result ≤ 16 * 10 ^ 18 }
{
    i128::from(difference) * i128::from(cross)
}

// The first vector times the cross product of the others, which is formed in i64: only the last products need more.
#[inline(always)]
fn determinant(p: Vector, q: Vector, r: Vector) -> i128
    requires p { IsDifference p }
    requires q { IsDifference q }
    requires r { IsDifference r }
    ensures value { result ≡ determinant (point_of p) (point_of q) (point_of r) }
    ensures range { unsigned_abs result ≤ 48 * 10 ^ 18 }
{
    let by_x = product(p.x, cross(q.y, q.z, r.y, r.z));
    let by_y = product(p.y, cross(q.z, q.x, r.z, r.x));
    let by_z = product(p.z, cross(q.x, q.y, r.x, r.y));
    by_x + by_y + by_z
}

/// Six times the signed volume of the tetrahedron of four points in range, in cubed coordinate units: positive if b, c
/// and d turn counterclockwise as seen from outside, and 0 if all four lie in one plane. Takes no memory.
#[inline(always)]
pub fn tetrahedron_volume(a: Point, b: Point, c: Point, d: Point) -> i128
    requires a { IsInRange a }
    requires b { IsInRange b }
    requires c { IsInRange c }
    requires d { IsInRange d }
    ensures value { result ≡ determinant (seen_from a b) (seen_from a c) (seen_from a d) }
    ensures range { unsigned_abs result ≤ 48 * 10 ^ 18 }
{
    determinant(seen_from(a, b), seen_from(a, c), seen_from(a, d))
}
