//! The points of a ring, each with its edge.
ghost use Rattle.std.specs.Prelude.{◌≡◌, IfOk, cond, length};
ghost use Rattle.fku_types.specs.Points.{IsCoordinate, IsInRange};
ghost use Rattle.plane_geom.specs.Rings.{IsRing};
ghost use Rattle.strip_graph.specs.Edges.{IsLevel};
ghost use Rattle.round_sweeps.specs.Tiles.{IsTileEdge, IsTileEnd, AreTileEnds};

use crate::lines::point_at;
use crate::tiles::{TileEdge, TileEnd};
use fku_types::{NoMemory, Point};
use std::alloc::Global;

// The edge to a point from the one before, or, turned, from it to the one before.
fn edge_between(turned: bool, before: Point, here: Point, height: i32) -> TileEdge
    requires before { IsInRange before }
    requires here { IsInRange here }
    requires level { before.z ≡ here.z }
    requires height { IsCoordinate height }
    ensures { IsTileEdge result (cond turned here before) (cond turned before here) height }
{
    if turned {
        TileEdge::of(here, before, height)
    } else {
        TileEdge::of(before, here, height)
    }
}

// A point with its edge.
fn tile_end(turned: bool, before: Point, here: Point, height: i32) -> TileEnd
    requires before { IsInRange before }
    requires here { IsInRange here }
    requires level { before.z ≡ here.z }
    requires height { IsCoordinate height }
    ensures { IsTileEnd turned height before here result }
{
    TileEnd {
        x: i64::from(here.x),
        y: i64::from(here.y),
        edge: edge_between(turned, before, here, height),
    }
}

/// A ring's points with their edges: from the point before, or, turned, to it. The ring lies at one height, and the
/// points across at `height`.
pub(crate) fn tile_ends(
    alloc: Global,
    turned: bool,
    ring: &[Point],
    height: i32,
) -> Result<Vec<TileEnd>, NoMemory>
    requires ring { IsRing ring.now }
    requires level { IsLevel ring.now }
    requires height { IsCoordinate height }
    ensures { IfOk result (λ e. AreTileEnds turned height ring.now (length ring.now) e.items) }
{
    let count = ring.len();
    let mut ends = Vec::with_capacity(alloc, count)?;
    let mut before = ring[count - 1];
    for index in 0..count {
        let here = point_at(ring, index);
        ends.push(tile_end(turned, before, here, height))?;
        before = here;
    }
    Ok(ends)
}
