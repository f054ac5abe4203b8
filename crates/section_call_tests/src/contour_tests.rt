//! Contours that are simple and apart, and which of their sides are inside. `tools/tests/test_contours.py` has those
//! that are refused.
ghost use Rattle.std.specs.Prelude.{IsTrue};
ghost use Rattle.fku_types.specs.Points.{IsInRange};
ghost use Rattle.correspondence.specs.Contours.{IsOutline, AreOutlines};

use crate::comparisons::same;
use correspondence::{depths, is_within, oriented, test_apart, test_simple};
use fku_types::{Name, Point};
use plane_geom::{Ring, share};
use section_core::{Contour, Section};
use std::alloc::Global;
use std::process::Abort;

fn is_in_range(p: &Point) -> bool
    ensures { IsTrue result → IsInRange p.now }
{
    let (x, y, z) = (p.x.unsigned_abs(), p.y.unsigned_abs(), p.z.unsigned_abs());
    x <= 999999 && y <= 999999 && z <= 999999
}

fn is_outline(points: &[Point]) -> bool
    ensures { IsTrue result → IsOutline points.now }
{
    for p in points {
        if !is_in_range(p) {
            return false;
        }
    }
    3 <= points.len() && points.len() <= 4096
}

fn are_outlines(contours: &[Contour]) -> bool
    ensures { IsTrue result → AreOutlines contours.now }
{
    let mut vertices: usize = 0;
    for contour in contours {
        if !is_outline(&contour.points) {
            return false;
        }
        vertices += contour.points.len();
        if vertices > 16384 {
            return false;
        }
    }
    true
}

fn contour<R: Abort>(rt: &R, alloc: Global, name: &[u8], places: &[(i32, i32)]) -> Contour {
    let mut points = Vec::new(alloc);
    for (x, y) in places {
        let point = Point { x: *x, y: *y, z: 0 };
        points.push(point).expect(rt, "a point");
    }
    let name = Name::of(name).expect(rt, "no name");
    Contour { name, points }
}

fn square<R: Abort>(rt: &R, alloc: Global, name: &[u8], low: i32, high: i32) -> Contour {
    let places = [(low, low), (high, low), (high, high), (low, high)];
    contour(rt, alloc, name, &places)
}

#[test]
fn segments_share_points(rt: HostRuntime) {
    let a = Point { x: 0, y: 0, z: 0 };
    let b = Point { x: 6, y: 6, z: 0 };
    let on = Point { x: 3, y: 3, z: 0 };
    let off = Point { x: 3, y: 4, z: 0 };
    same(&rt, share(on, on, a, b), true);
    same(&rt, share(off, off, a, b), false);
}

// The left and the lower side of a square are inside it, the others are not.
#[test]
fn edges_lie_inside_or_not(rt: HostRuntime) {
    let square = square(&rt, rt.alloc(), b"a", 0, 10);
    assert!(rt; is_outline(&square.points));
    let left = Point { x: 0, y: 5, z: 0 };
    let right = Point { x: 10, y: 5, z: 0 };
    same(&rt, is_within(left, &square.points), true);
    same(&rt, is_within(right, &square.points), false);
}

fn section_of<R: Abort>(rt: &R, alloc: Global, one: Contour, other: Contour) -> Section {
    let mut contours = Vec::new(alloc);
    contours.push(one).expect(rt, "a contour");
    contours.push(other).expect(rt, "a contour");
    Section { z: 0, contours }
}

// Asserts that contours are good, and that the second one lies in the first one.
fn has_hole<R: Abort>(rt: &R, alloc: Global, section: &Section) {
    assert!(rt; are_outlines(&section.contours));
    assert!(rt; test_apart(section).is_ok());
    let depths = depths(alloc, section).expect(rt, "the depths");
    same(rt, depths.as_slice(), [0, 1].as_slice());
}

fn rings_of<R: Abort>(rt: &R, alloc: Global, section: &Section) -> Vec<Ring> {
    assert!(rt; are_outlines(&section.contours));
    oriented(alloc, section, 0).expect(rt, "the rings")
}

fn ids_at(rings: &[Ring], place: usize) -> &[u32] {
    match rings.get(place) {
        Some(ring) => &ring.ids,
        None => &[],
    }
}

#[test]
fn holes_are_turned(rt: HostRuntime) {
    let alloc = rt.alloc();
    let outer = square(&rt, alloc, b"o", 0, 30);
    assert!(rt; is_outline(&outer.points));
    assert!(rt; test_simple(&outer).is_ok());
    let hole = square(&rt, alloc, b"h", 10, 20);
    let section = section_of(&rt, alloc, outer, hole);
    has_hole(&rt, alloc, &section);
    let rings = rings_of(&rt, alloc, &section);
    same(&rt, ids_at(&rings, 0), &[0, 1, 2, 3]);
    same(&rt, ids_at(&rings, 1), &[4, 7, 6, 5]);
}
