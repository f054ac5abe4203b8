//! Rings, and pairs of them.
ghost use Rattle.std.specs.Prelude.{IfOk, IsTrue};
ghost use Rattle.fku_types.specs.Points.{IsInRange};
ghost use Rattle.fku_types.specs.Rules.{IsWeighted};
ghost use Rattle.plane_geom.specs.RingViews.{IsContour};
ghost use Rattle.plane_geom.specs.Rings.{IsRing};

use fku_types::{CostRule, NoMemory, Point};
use plane_geom::Ring;
use std::alloc::Global;
use std::test::Fail;
use strip_graph::Pair;

fn in_range(p: &Point) -> bool
    ensures { IsTrue result → IsInRange p.now }
{
    let (x, y, z) = (p.x.unsigned_abs(), p.y.unsigned_abs(), p.z.unsigned_abs());
    x <= 999999 && y <= 999999 && z <= 999999
}

fn is_ring(points: &[Point]) -> bool
    ensures { IsTrue result → IsRing points.now }
{
    for p in points {
        if !in_range(p) {
            return false;
        }
    }
    3 <= points.len() && points.len() <= 4096
}

/// The ring of these corners at a height, each with its id.
pub fn numbered_ring(alloc: Global, z: i32, corners: &[(i32, i32, u32)]) -> Result<Ring, NoMemory> {
    let mut points = Vec::new(alloc);
    let mut ids = Vec::new(alloc);
    for (x, y, id) in corners {
        points.push(Point { x: *x, y: *y, z })?;
        ids.push(*id)?;
    }
    Ok(Ring { points, ids })
}

/// The ring of these corners at a height, whose ids are all 0.
pub fn ring(alloc: Global, z: i32, corners: &[(i32, i32)]) -> Result<Ring, NoMemory> {
    let mut points = Vec::new(alloc);
    let mut ids = Vec::new(alloc);
    for (x, y) in corners {
        points.push(Point { x: *x, y: *y, z })?;
        ids.push(0)?;
    }
    Ok(Ring { points, ids })
}

fn point(x: i32, y: i32) -> Point
    ensures { IsInRange result }
{
    Point {
        x: x.clamp(-999_999, 999_999),
        y: y.clamp(-999_999, 999_999),
        z: 0,
    }
}

/// The ring of four corners at height 0, with these ids.
pub fn four_points(alloc: Global, corners: [(i32, i32); 4], ids: [u32; 4]) -> Result<Ring, NoMemory>
    ensures { IfOk result (λ r. IsContour r) }
{
    let [a, b, c, d] = corners;
    Ok(Ring {
        points: Vec::from_array(
            alloc,
            [
                point(a.0, a.1),
                point(b.0, b.1),
                point(c.0, c.1),
                point(d.0, d.1),
            ],
        )?,
        ids: Vec::from_array(alloc, ids)?,
    })
}

/// The pair of two rings under a rule, if they keep the limits of rings.
pub fn pair_by(low: Ring, high: Ring, cost: CostRule) -> Result<Pair, Fail>
    requires { IsWeighted cost }
{
    if is_ring(&low.points) && is_ring(&high.points) {
        Ok(Pair::make(low, high, cost))
    } else {
        Err("not rings".into())
    }
}

/// The same under `span`.
pub fn pair(low: Ring, high: Ring) -> Result<Pair, Fail> {
    pair_by(low, high, CostRule::Span)
}

/// The corners of a square.
pub const SQUARE: [(i32, i32); 4] = [(0, 0), (10, 0), (10, 10), (0, 10)];

/// Two squares, one 10 above the other.
pub fn squares(alloc: Global) -> Result<Pair, Fail> {
    pair(ring(alloc, 0, &SQUARE)?, ring(alloc, 10, &SQUARE)?)
}
