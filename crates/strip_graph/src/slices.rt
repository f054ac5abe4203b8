//! Slices of a strip between the heights of its rings.
ghost use Rattle.std.specs.Prelude.{◌≡◌, ◌*◌, ◌<◌, ◌≤◌, ◌*ℤ◌, unsigned_abs, All, IfOk, length};
ghost use Rattle.fku_types.specs.Points.{IsCoordinate, IsInRange};
ghost use Rattle.plane_geom.specs.Segments.{scaled};
ghost use Rattle.strip_graph.specs.Slices.{IsOver, slice_loop};
ghost use Rattle.strip_graph.specs.Strips.{rows};

use crate::pairs::Pair;
use crate::tilings::Tiling;
use fku_types::limits::{MAX_COORDINATE, MAX_DIFFERENCE};
use fku_types::{NoMemory, Point};
use std::alloc::Global;

/// A point of a slice loop: its x and its y, each times the denominator of the loop.
#[derive(Clone, Copy, PartialEq, Eq, Debug)]
pub struct Cut {
    pub x: i64,
    pub y: i64,
}

// A product of numbers below two million.
fn product(a: i64, b: i64) -> i64
    requires a { unsigned_abs a ≤ MAX_DIFFERENCE }
    requires b { unsigned_abs b ≤ MAX_DIFFERENCE }
    ensures value { result ≡ a *ℤ b }
    ensures range { unsigned_abs result ≤ 4000000000000 }
{
    a * b
}

// A coordinate between two, times the denominator.
fn scaled(den: u32, part: u32, from: i32, to: i32) -> i64
    requires den { den ≤ MAX_DIFFERENCE }
    requires part { part ≤ den }
    requires from { IsCoordinate from }
    requires to { IsCoordinate to }
    ensures value { result ≡ scaled den part from to }
    ensures range { unsigned_abs result ≤ MAX_COORDINATE * den }
{
    let (from, to) = (i64::from(from), i64::from(to));
    product(i64::from(den), from) + product(i64::from(part), to - from)
}

// The point of a slice on a span.
fn cut_at(den: u32, part: u32, from: &Point, to: &Point) -> Cut
    requires den { den ≤ MAX_DIFFERENCE }
    requires part { part ≤ den }
    requires from { IsInRange from.now }
    requires to { IsInRange to.now }
    ensures x { result.x ≡ scaled den part from.now.x to.now.x }
    ensures y { result.y ≡ scaled den part from.now.y to.now.y }
    ensures range { IsOver den result }
{
    Cut {
        x: scaled(den, part, from.x, to.x),
        y: scaled(den, part, from.y, to.y),
    }
}

/// The points of a pair's slice at the height `part / den` of the way from its lower ring to the upper one: for each
/// step of the tiling, the point on the span before it, x and y times `den`. `den` is at most `MAX_DIFFERENCE`, `part`
/// at most `den`, and the tiling starts at a row of the pair. Or `NoMemory`.
pub fn slice_points(
    alloc: Global,
    pair: &Pair,
    tiling: &Tiling,
    den: u32,
    part: u32,
) -> Result<Vec<Cut>, NoMemory>
    requires row { tiling.now.row < rows pair.now }
    requires den { den ≤ MAX_DIFFERENCE }
    requires part { part ≤ den }
    ensures points { IfOk result (λ v. v.items ≡ slice_loop pair.now den part tiling.now.row 0 tiling.now.word.items) }
    ensures one_a_step { IfOk result (λ v. length v.items ≡ length tiling.now.word.items) }
    ensures range { IfOk result (λ v. All (IsOver den) v.items) }
{
    let low = pair.low().points.as_slice();
    let high = pair.high().points.as_slice();
    let mut points = Vec::with_capacity(alloc, tiling.word.len())?;
    for span in pair.spans(tiling) {
        points.push(cut_at(den, part, &low[span.row], &high[span.col]))?;
    }
    Ok(points)
}
