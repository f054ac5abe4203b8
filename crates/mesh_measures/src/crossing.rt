//! Two triangles that cross.
ghost use Rattle.std.specs.Prelude.{◌≡◌, ◌↔◌, IsTrue, false};
ghost use Rattle.fku_types.specs.Points.{IsInRange};
ghost use Rattle.mesh_measures.specs.Crossings.{are_opposite, have_one_sign, passes, pierces, cross, AreInRange};
ghost use Rattle.mesh_measures.specs.Meetings.{Cross};

use crate::turning::turn;
use fku_types::Point;

/// The corners of a triangle in space.
#[derive(Clone, Copy, Debug, PartialEq, Eq)]
pub struct Corners {
    pub a: Point,
    pub b: Point,
    pub c: Point,
}

// Whether one of two numbers is positive and the other negative.
#[inline(always)]
fn are_opposite(m: i128, n: i128) -> bool
    ensures { result ≡ are_opposite m n }
{
    (m < 0 && 0 < n) || (0 < m && n < 0)
}

// Whether three numbers are all positive or all negative.
#[inline(always)]
fn have_one_sign(l: i128, m: i128, n: i128) -> bool
    ensures { result ≡ have_one_sign l m n }
{
    (0 < l && 0 < m && 0 < n) || (l < 0 && m < 0 && n < 0)
}

// Whether the edge from p to q passes through the inside of a triangle.
fn passes(p: Point, q: Point, t: &Corners) -> bool
    requires p { IsInRange p }
    requires q { IsInRange q }
    requires t { AreInRange t.now }
    ensures { result ≡ passes p q t.now }
{
    are_opposite(turn(t.a, t.b, t.c, p), turn(t.a, t.b, t.c, q))
        && have_one_sign(
            turn(p, q, t.a, t.b),
            turn(p, q, t.b, t.c),
            turn(p, q, t.c, t.a),
        )
}

// Whether an edge of s passes through the inside of t.
fn pierces(s: &Corners, t: &Corners) -> bool
    requires s { AreInRange s.now }
    requires t { AreInRange t.now }
    ensures { result ≡ pierces s.now t.now }
{
    passes(s.a, s.b, t) || passes(s.b, s.c, t) || passes(s.c, s.a, t)
}

/// Whether two triangles with corners in range cross: an edge of one passes through the inside of the other. The ends
/// of such an edge lie strictly on both sides of the other's plane, and its line has all three edges of the other
/// strictly on one side. No triangle crosses itself. Takes no memory.
pub fn cross(s: &Corners, t: &Corners) -> bool
    requires s { AreInRange s.now }
    requires t { AreInRange t.now }
    ensures value { result ≡ cross s.now t.now }
    ensures means { IsTrue result ↔ Cross s.now t.now }
    ensures mutual { cross t.now s.now ≡ result }
    ensures itself { cross s.now s.now ≡ false }
{
    pierces(s, t) || pierces(t, s)
}
