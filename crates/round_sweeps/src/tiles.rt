//! What is counted for steps that count areas, by the coordinates of points and by edges.
ghost use Rattle.std.specs.Prelude.{◌≡◌, ◌≤◌, ◌*◌, ◌^◌, ◌-ℤ◌, unsigned_abs, min};
ghost use Rattle.fku_types.specs.Points.{square, IsCoordinate, IsInRange};
ghost use Rattle.round_sweeps.specs.Tiles.{FitsEdge, FitsEnd, IsTileEdge, most_upright, most_side, most_area, tile_area, tile_span};

use fku_types::Point;
use plane_geom::cross;
use strip_graph::Edge;

// The most that is counted of the upright part of an area.
const MOST_UPRIGHT: u64 = 70_368_744_177_664;

// The most that is counted of the root of the other part.
const MOST_SIDE: u64 = 14_000_000;

/// An `Edge` of `strip_graph` whose `upright` is counted up to a most.
#[derive(Clone, Copy)]
pub(crate) struct TileEdge {
    pub x: i64,
    pub y: i64,
    pub turn: i64,
    pub upright: u64,
}

/// A point of a ring, and its edge with the point before it.
#[derive(Clone, Copy)]
pub(crate) struct TileEnd {
    pub x: i64,
    pub y: i64,
    pub edge: TileEdge,
}

// What is counted of the upright part of an area.
fn counted_upright(upright: u128) -> u64
    ensures less { result ≤ upright }
    ensures most { result ≤ most_upright }
{
    if upright > u128::from(MOST_UPRIGHT) {
        MOST_UPRIGHT
    } else {
        upright as u64
    }
}

impl TileEdge {
    /// The edge from a to b, for tiles with points at `height`.
    pub fn of(a: Point, b: Point, height: i32) -> TileEdge
        requires a { IsInRange a }
        requires b { IsInRange b }
        requires level { b.z ≡ a.z }
        requires height { IsCoordinate height }
        ensures { IsTileEdge result a b height }
    {
        let edge = Edge::of(a, b, height);
        let upright = counted_upright(edge.upright);
        TileEdge {
            x: edge.x,
            y: edge.y,
            turn: edge.turn,
            upright,
        }
    }
}

// The size of a side, up to the most.
#[inline(always)]
fn side_of(side: i64) -> u64
    requires { unsigned_abs side ≤ 16000000000000 }
    ensures value { result ≡ min most_side (unsigned_abs side) }
    ensures most { result ≤ most_side }
{
    let size = side.unsigned_abs();
    if size > MOST_SIDE { MOST_SIDE } else { size }
}

/// What is counted of the squared doubled area of the tile of an edge and a point.
#[inline(always)]
pub(crate) fn tile_area(edge: &TileEdge, end: &TileEnd) -> u64
    requires edge { FitsEdge edge.now }
    requires x { IsCoordinate end.now.x }
    requires y { IsCoordinate end.now.y }
    ensures value { result ≡ tile_area edge.now end.now }
    ensures most { result ≤ most_area }
{
    let side = side_of(cross(edge.x, edge.y, end.x, end.y) - edge.turn);
    edge.upright + side * side
}

// The squared difference of two coordinates.
#[inline(always)]
fn gap_square(one: i64, other: i64) -> u64
    requires one { IsCoordinate one }
    requires other { IsCoordinate other }
    ensures value { result ≡ square (one -ℤ other) }
    ensures most { result ≤ 4 * 10 ^ 12 }
{
    let size = (one - other).unsigned_abs();
    size * size
}

/// The squared span of two points, whose heights' squared difference is `rise`.
#[inline(always)]
pub(crate) fn tile_span(one: &TileEnd, other: &TileEnd, rise: u64) -> u64
    requires one { FitsEnd one.now }
    requires other { FitsEnd other.now }
    requires rise { rise ≤ 4 * 10 ^ 12 }
    ensures value { result ≡ tile_span one.now other.now rise }
    ensures most { result ≤ 12 * 10 ^ 12 }
{
    gap_square(one.x, other.x) + gap_square(one.y, other.y) + rise
}
