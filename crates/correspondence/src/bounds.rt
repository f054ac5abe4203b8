//! Bounding ranges of points.

ghost use Rattle.std.specs.Prelude.{List, ◌↔◌, ◌<◌, ◌<ℤ◌, IsTrue, length};
ghost use Rattle.fku_types.specs.declared.points.Point.{Point};
ghost use Rattle.correspondence.specs.Bounding.{LiesWithin, Encloses, BoundsMeet, LevelsPart, LieBeyond, LieBeside};
ghost use Rattle.plane_geom.specs.Nesting.{Inside};
ghost use Rattle.correspondence.specs.Apart.{Touch};

use fku_types::Point;

/// The least and the greatest coordinates of some points.
#[derive(Clone, Copy)]
pub struct Bounds {
    pub min_x: i32,
    pub max_x: i32,
    pub min_y: i32,
    pub max_y: i32,
}

// Whether two numbers are both below a limit.
fn are_less(one: i32, other: i32, limit: i32) -> bool
    ensures { IsTrue result ↔ ((one <ℤ limit) × (other <ℤ limit)) }
{
    one < limit && other < limit
}

// Whether two numbers are both above a limit.
fn are_more(one: i32, other: i32, limit: i32) -> bool
    ensures { IsTrue result ↔ ((limit <ℤ one) × (limit <ℤ other)) }
{
    limit < one && limit < other
}

impl Bounds {
    fn at(p: Point) -> Bounds
        ensures { LiesWithin result p }
    {
        Bounds {
            min_x: p.x,
            max_x: p.x,
            min_y: p.y,
            max_y: p.y,
        }
    }

    /// The bounds of two points.
    pub fn of_edge(a: Point, b: Point) -> Bounds
        ensures { LiesWithin result a × LiesWithin result b }
    {
        Bounds::at(a).with(b)
    }

    /// The least bounds that also enclose one more point.
    pub fn with(self, p: Point) -> Bounds
        ensures added { LiesWithin result p }
        ensures kept { (q : Point) → LiesWithin self q → LiesWithin result q }
    {
        Bounds {
            min_x: self.min_x.min(p.x),
            max_x: self.max_x.max(p.x),
            min_y: self.min_y.min(p.y),
            max_y: self.max_y.max(p.y),
        }
    }

    /// The least bounds that also enclose what other bounds enclose.
    pub fn and(self, other: Bounds) -> Bounds
        ensures one { (q : Point) → LiesWithin self q → LiesWithin result q }
        ensures other { (q : Point) → LiesWithin other q → LiesWithin result q }
    {
        Bounds {
            min_x: self.min_x.min(other.min_x),
            max_x: self.max_x.max(other.max_x),
            min_y: self.min_y.min(other.min_y),
            max_y: self.max_y.max(other.max_y),
        }
    }

    /// The bounds of points, of which there is at least one.
    pub fn of(points: &[Point]) -> Bounds
        requires { 0 < length points.now }
        ensures { Encloses result points.now }
    {
        let mut bounds = Bounds::at(points[0]);
        for p in points {
            bounds = bounds.with(*p);
        }
        bounds
    }

    /// Whether two points lie beyond the same side: left of all x, right of them, below all y, or above.
    pub fn leave_out(self, a: Point, b: Point) -> bool
        ensures { IsTrue result ↔ LieBeyond self a b }
    {
        if are_less(a.x, b.x, self.min_x) {
            return true;
        }
        if are_more(a.x, b.x, self.max_x) {
            return true;
        }
        if are_less(a.y, b.y, self.min_y) {
            return true;
        }
        are_more(a.y, b.y, self.max_y)
    }

    /// `true` shows that all y lie above a point, or none of them does.
    pub fn lie_beside(self, p: Point) -> bool
        ensures { IsTrue result → LieBeside self p }
    {
        p.y < self.min_y || self.max_y <= p.y
    }

    // `true` shows that all y of one range lie below those of the other.
    fn levels_part(self, other: Bounds) -> bool
        ensures { IsTrue result → LevelsPart self other }
    {
        self.max_y < other.min_y || other.max_y < self.min_y
    }

    /// `true` shows that rings within two ranges do not overlap: no edge of one shares a point with one of the other,
    /// and no point of one is inside the other. It compares y alone.
    pub fn lie_apart(self, other: Bounds) -> bool
        ensures touch { IsTrue result
            → (one next : List Point) → Encloses self one
            → Encloses other next
            → Touch one next
            → ⊥ }
        ensures inside { IsTrue result
            → (p : Point) (ring : List Point) → LiesWithin self p
            → Encloses other ring
            → Inside p ring
            → ⊥ }
        ensures other_inside { IsTrue result
            → (p : Point) (ring : List Point) → LiesWithin other p
            → Encloses self ring
            → Inside p ring
            → ⊥ }
    {
        self.levels_part(other)
    }

    /// Whether the ranges have a common place, in x and in y.
    pub fn meet(self, other: Bounds) -> bool
        ensures { IsTrue result ↔ BoundsMeet self other }
    {
        let x = (self.min_x <= other.max_x) & (other.min_x <= self.max_x);
        let y = (self.min_y <= other.max_y) & (other.min_y <= self.max_y);
        x & y
    }
}
