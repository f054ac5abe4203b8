//! Triangles with their boxes.
ghost use Rattle.std.specs.Prelude.{◌≡◌, ◌≤ℤ◌};
ghost use Rattle.fku_types.specs.Points.{IsCoordinate, IsInRange};
ghost use Rattle.mesh_measures.specs.Crossings.{AreInRange};
ghost use Rattle.mesh_measures.specs.TriangleBoxes.{IsUnder, IsBoxed, overlap, boxes_meet, crosses};

use crate::crossing::{Corners, cross};
use fku_types::Point;

/// A triangle of a part: its index there, its corners, and the ends of its box.
#[derive(Clone, Copy, Drop)]
pub struct Boxed {
    pub place: u32,
    pub corners: Corners,
    pub least: Point,
    pub greatest: Point,
}

// The smallest of three coordinates.
fn least(a: i32, b: i32, c: i32) -> i32
    requires a { IsCoordinate a }
    requires b { IsCoordinate b }
    requires c { IsCoordinate c }
    ensures a { result ≤ℤ a }
    ensures b { result ≤ℤ b }
    ensures c { result ≤ℤ c }
    ensures range { IsCoordinate result }
{
    a.min(b).min(c)
}

// The greatest of three coordinates.
fn greatest(a: i32, b: i32, c: i32) -> i32
    requires a { IsCoordinate a }
    requires b { IsCoordinate b }
    requires c { IsCoordinate c }
    ensures a { a ≤ℤ result }
    ensures b { b ≤ℤ result }
    ensures c { c ≤ℤ result }
    ensures range { IsCoordinate result }
{
    a.max(b).max(c)
}

fn least_corner(t: Corners) -> Point
    requires { AreInRange t }
    ensures a { IsUnder result t.a }
    ensures b { IsUnder result t.b }
    ensures c { IsUnder result t.c }
    ensures range { IsInRange result }
{
    Point {
        x: least(t.a.x, t.b.x, t.c.x),
        y: least(t.a.y, t.b.y, t.c.y),
        z: least(t.a.z, t.b.z, t.c.z),
    }
}

fn greatest_corner(t: Corners) -> Point
    requires { AreInRange t }
    ensures a { IsUnder t.a result }
    ensures b { IsUnder t.b result }
    ensures c { IsUnder t.c result }
    ensures range { IsInRange result }
{
    Point {
        x: greatest(t.a.x, t.b.x, t.c.x),
        y: greatest(t.a.y, t.b.y, t.c.y),
        z: greatest(t.a.z, t.b.z, t.c.z),
    }
}

/// A triangle with its box.
pub fn with_box(place: u32, corners: Corners) -> Boxed
    requires { AreInRange corners }
    ensures place { result.place ≡ place }
    ensures corners { result.corners ≡ corners }
    ensures boxed { IsBoxed result }
{
    Boxed {
        place,
        corners,
        least: least_corner(corners),
        greatest: greatest_corner(corners),
    }
}

// Whether two open ranges overlap, if neither is empty.
#[inline(always)]
fn overlap(least: i32, greatest: i32, other_least: i32, other_greatest: i32) -> bool
    ensures { result ≡ overlap least greatest other_least other_greatest }
{
    (least < other_greatest) && (other_least < greatest)
}

// Whether two boxes have more than a side in common. If not, their triangles do not cross.
#[inline(always)]
fn boxes_meet(s: &Boxed, t: &Boxed) -> bool
    requires s { IsBoxed s.now }
    requires t { IsBoxed t.now }
    ensures { result ≡ boxes_meet s.now t.now }
{
    // Compares y first, since the candidates lie in one range of x and z.
    overlap(s.least.y, s.greatest.y, t.least.y, t.greatest.y)
        && overlap(s.least.z, s.greatest.z, t.least.z, t.greatest.z)
        && overlap(s.least.x, s.greatest.x, t.least.x, t.greatest.x)
}

/// Whether two triangles cross.
pub fn crosses(s: &Boxed, t: &Boxed) -> bool
    requires s { IsBoxed s.now }
    requires t { IsBoxed t.now }
    ensures { result ≡ crosses s.now t.now }
{
    boxes_meet(s, t) && cross(&s.corners, &t.corners)
}
