//! The coordinates of a ring's points.
ghost use Rattle.std.specs.Prelude.{◌≡◌, ◌+◌, ◌≤◌, ◌<◌, IfOk, IsTrue, length};
ghost use Rattle.plane_geom.specs.Rings.{IsRing, around};
ghost use Rattle.fku_types.specs.Points.{IsInRange};
ghost use Rattle.strip_graph.specs.Edges.{IsLevel};
ghost use Rattle.round_sweeps.specs.Planes.{ArePlanar, IsLine};

use fku_types::{NoMemory, Point};
use std::alloc::Global;

/// The x and the y of points.
#[derive(Drop)]
pub(crate) struct Line {
    pub xs: Vec<i64>,
    pub ys: Vec<i64>,
    ghost line: { IsLine xs.items ys.items },
}

/// Whether all points of a ring lie at one height.
pub(crate) fn is_level(ring: &[Point]) -> bool
    requires { IsRing ring.now }
    ensures { IsTrue result → IsLevel ring.now }
{
    let height = ring[0].z;
    for point in ring {
        if point.z != height {
            return false;
        }
    }
    true
}

/// The point of a ring at an index of at most its length, counted round it.
pub(crate) fn point_at(ring: &[Point], index: usize) -> Point
    requires ring { IsRing ring.now }
    requires index { index ≤ length ring.now }
    ensures value { result ≡ around ring.now index }
    ensures range { IsInRange result }
{
    if index < ring.len() {
        ring[index]
    } else {
        ring[0]
    }
}

/// The coordinates of a ring's first points.
pub(crate) fn line_of(alloc: Global, ring: &[Point], count: usize) -> Result<Line, NoMemory>
    requires ring { IsRing ring.now }
    requires count { count ≤ length ring.now + 1 }
    ensures { IfOk result (λ l. ArePlanar ring.now count l.xs.items l.ys.items) }
{
    let mut xs = Vec::with_capacity(alloc, count)?;
    let mut ys = Vec::with_capacity(alloc, count)?;
    for index in 0..count {
        let point = point_at(ring, index);
        xs.push(i64::from(point.x))?;
        ys.push(i64::from(point.y))?;
    }
    Ok(Line { xs, ys })
}
