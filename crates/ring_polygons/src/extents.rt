//! Bounding intervals of points.

ghost use Rattle.std.specs.Prelude.{◌<◌, ◌≤◌, length, All, ℤ, unsigned_abs, ◌-ℤ◌};
ghost use Rattle.fku_types.specs.declared.points.Point.{Point};
ghost use Rattle.fku_types.specs.Points.{square, IsCoordinate, IsInRange};
ghost use Rattle.plane_geom.specs.Lengths.{distance_square};
ghost use Rattle.ring_polygons.specs.Extents.{LiesBetween, IsInterval, IsEnclosed, IsExtent};

use fku_types::Point;
use fku_types::limits::MAX_DIFFERENCE;
use plane_geom::difference;

/// The least and the greatest of some coordinates.
#[derive(Clone, Copy)]
pub struct Interval {
    pub least: i32,
    pub greatest: i32,
}

impl Interval {
    fn at(v: i32) -> Interval
        requires { IsCoordinate v }
        ensures interval { IsInterval result }
        ensures there { LiesBetween result v }
    {
        Interval {
            least: v,
            greatest: v,
        }
    }

    /// The interval, widened to contain one more coordinate.
    fn with(self, v: i32) -> Interval
        requires interval { IsInterval self }
        requires coordinate { IsCoordinate v }
        ensures interval { IsInterval result }
        ensures added { LiesBetween result v }
        ensures kept { (w : ℤ) → LiesBetween self w → LiesBetween result w }
    {
        if v < self.least {
            Interval {
                least: v,
                greatest: self.greatest,
            }
        } else if self.greatest < v {
            Interval {
                least: self.least,
                greatest: v,
            }
        } else {
            self
        }
    }

    /// The distance of a coordinate from the interval, 0 inside it. No coordinate inside is nearer.
    fn gap(self, v: i32) -> i64
        requires interval { IsInterval self }
        requires coordinate { IsCoordinate v }
        ensures no_more { (w : ℤ) → LiesBetween self w → unsigned_abs result ≤ unsigned_abs (v -ℤ w) }
        ensures range { unsigned_abs result ≤ MAX_DIFFERENCE }
    {
        if v < self.least {
            difference(self.least, v)
        } else if self.greatest < v {
            difference(v, self.greatest)
        } else {
            0
        }
    }

    fn gap_square(self, v: i32) -> u64
        requires interval { IsInterval self }
        requires coordinate { IsCoordinate v }
        ensures no_more { (w : ℤ) → LiesBetween self w → result ≤ square (v -ℤ w) }
        ensures range { result ≤ 4000000000000 }
    {
        let gap = self.gap(v);
        (gap * gap) as u64
    }
}

/// The bounding intervals of some points in x and in y.
#[derive(Clone, Copy)]
pub struct Extent {
    pub x: Interval,
    pub y: Interval,
}

impl Extent {
    fn at(p: Point) -> Extent
        requires { IsInRange p }
        ensures extent { IsExtent result }
        ensures there { IsEnclosed result p }
    {
        Extent {
            x: Interval::at(p.x),
            y: Interval::at(p.y),
        }
    }

    fn with(self, p: Point) -> Extent
        requires extent { IsExtent self }
        requires point { IsInRange p }
        ensures extent { IsExtent result }
        ensures added { IsEnclosed result p }
        ensures kept { (q : Point) → IsEnclosed self q → IsEnclosed result q }
    {
        Extent {
            x: self.x.with(p.x),
            y: self.y.with(p.y),
        }
    }

    /// The extent of some points.
    pub fn of(points: &[Point]) -> Extent
        requires some { 0 < length points.now }
        requires range { All IsInRange points.now }
        ensures extent { IsExtent result }
        ensures enclosed { All (IsEnclosed result) points.now }
    {
        let mut extent = Extent::at(points[0]);
        for p in points {
            extent = extent.with(*p);
        }
        extent
    }

    /// The squared distance in x and y from a point to the extent. No point inside is nearer.
    pub fn square_from(self, p: Point) -> u64
        requires extent { IsExtent self }
        requires point { IsInRange p }
        ensures { (q : Point) → IsEnclosed self q → result ≤ distance_square p q }
    {
        self.x.gap_square(p.x) + self.y.gap_square(p.y)
    }
}
