//! The squared doubled areas of tiles.
ghost use Rattle.std.specs.Prelude.{◌≡◌, ◌+◌, ◌*◌, ◌≤◌, ◌^◌, unsigned_abs};
ghost use Rattle.fku_types.specs.Points.{square, IsCoordinate, IsInRange};
ghost use Rattle.plane_geom.specs.Planes.{cross_product};
ghost use Rattle.strip_graph.specs.Strips.{area_square};
ghost use Rattle.strip_graph.specs.Edges.{edge_area, IsEdge};

use fku_types::Point;
use fku_types::limits::MAX_DIFFERENCE;
use plane_geom::{cross, difference};

/// An edge whose ends have one height, for tiles with points across that have one height too: the vector along the
/// edge, the cross product of that vector and the edge's start, and the squared doubled area of the tile with the point
/// straight across from the start. The squared doubled area of the tile with a point q is `upright` and the square of
/// what the cross product of the vector and q is more than `turn`.
#[derive(Clone, Copy)]
pub struct Edge {
    pub x: i64,
    pub y: i64,
    pub turn: i64,
    pub upright: u128,
}

#[inline(always)]
fn square(size: i64) -> u128
    requires { unsigned_abs size ≤ 16000000000000 }
    ensures value { result ≡ square size }
    ensures range { result ≤ 256 * 10 ^ 24 }
{
    let wide = i128::from(size);
    (wide * wide) as u128
}

fn cross_square(a: i64, b: i64, c: i64, d: i64) -> u128
    requires a { unsigned_abs a ≤ MAX_DIFFERENCE }
    requires b { unsigned_abs b ≤ MAX_DIFFERENCE }
    requires c { unsigned_abs c ≤ MAX_DIFFERENCE }
    requires d { unsigned_abs d ≤ MAX_DIFFERENCE }
    ensures value { result ≡ square (cross_product a b c d) }
    ensures range { result ≤ 64 * 10 ^ 24 }
{
    square(cross(a, b, c, d))
}

/// The squared doubled area of a triangle whose corners are in range. Takes no memory.
#[inline(always)]
pub fn area_square(a: Point, b: Point, c: Point) -> u128
    requires a { IsInRange a }
    requires b { IsInRange b }
    requires c { IsInRange c }
    ensures value { result ≡ area_square a b c }
    ensures range { result ≤ 192 * 10 ^ 24 }
{
    let bx = difference(b.x, a.x);
    let by = difference(b.y, a.y);
    let bz = difference(b.z, a.z);
    let cx = difference(c.x, a.x);
    let cy = difference(c.y, a.y);
    let cz = difference(c.z, a.z);
    cross_square(by, bz, cy, cz) + cross_square(bz, bx, cz, cx) + cross_square(bx, by, cx, cy)
}

impl Edge {
    /// The edge from a to b, which have one height, for tiles with points at `height`. All coordinates and heights are in
    /// range. Takes no memory.
    pub fn of(a: Point, b: Point, height: i32) -> Edge
        requires a { IsInRange a }
        requires b { IsInRange b }
        requires level { b.z ≡ a.z }
        requires height { IsCoordinate height }
        ensures { IsEdge result a b height }
    {
        let x = difference(b.x, a.x);
        let y = difference(b.y, a.y);
        let across = Point {
            x: a.x,
            y: a.y,
            z: height,
        };
        Edge {
            x,
            y,
            turn: cross(x, y, i64::from(a.x), i64::from(a.y)),
            upright: area_square(a, b, across),
        }
    }

    /// The squared doubled area of the tile with a point across.
    #[inline(always)]
    pub(crate) fn area_square(self, across: Point) -> u128
        requires x { unsigned_abs self.x ≤ MAX_DIFFERENCE }
        requires y { unsigned_abs self.y ≤ MAX_DIFFERENCE }
        requires turn { unsigned_abs self.turn ≤ 8000000000000 }
        requires upright { self.upright ≤ 192 * 10 ^ 24 }
        requires across { IsInRange across }
        ensures value { result ≡ edge_area self across }
        ensures range { result ≤ 448 * 10 ^ 24 }
    {
        let side = cross(self.x, self.y, i64::from(across.x), i64::from(across.y)) - self.turn;
        self.upright + square(side)
    }
}
