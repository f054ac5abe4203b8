//! Ears: corners that can be cut off a ring.

ghost use Rattle.std.specs.Prelude.{◌≡◌, ℕ, ◌+◌, ◌-◌, ◌<◌, ◌≤◌, ◌%◌, length, All, true, false, IfSome, IsNone, pos, ◌*ℤ◌, int_le, int_lt};
ghost use Rattle.fku_types.specs.Points.{IsInRange};
ghost use Rattle.plane_geom.specs.Rings.{origin};
ghost use Rattle.plane_geom.specs.Planes.{side, side_of};
ghost use Rattle.ring_polygons.specs.Caps.{sign, corner, is_within, same_point, is_twin, hinders, is_ear, ear_place};
ghost use Rattle.ring_polygons.specs.States.{AreTrue};

use crate::states::EarState;
use crate::twins::{Twins, are_passed};
use fku_types::Point;
use plane_geom::side;

/// The place before a place of a ring of `count` vertices.
pub fn before_place(count: usize, place: usize) -> usize
    requires { place < count }
    ensures value { result ≡ (place + count - 1) % count }
    ensures range { result < count }
{
    if place == 0 { count - 1 } else { place - 1 }
}

/// The place after a place of a ring of `count` vertices.
pub fn after_place(count: usize, place: usize) -> usize
    requires { place < count }
    ensures value { result ≡ (place + 1) % count }
    ensures range { result < count }
{
    if place == count - 1 { 0 } else { place + 1 }
}

/// Twice the signed area of a triangle, times the sign of a ring.
fn signed_side(left: bool, a: Point, b: Point, c: Point) -> i64
    requires a { IsInRange a }
    requires b { IsInRange b }
    requires c { IsInRange c }
    ensures value { result ≡ sign left *ℤ side a b c }
{
    let area = side(a, b, c);
    if left { area } else { -area }
}

/// Whether a point does not lie outside an edge of a ring.
fn is_along(left: bool, a: Point, b: Point, point: Point) -> bool
    requires a { IsInRange a }
    requires b { IsInRange b }
    requires point { IsInRange point }
    ensures { result ≡ int_le (pos 0) (sign left *ℤ side a b point) }
{
    signed_side(left, a, b, point) >= 0
}

/// Whether a point lies in a closed triangle of a ring.
fn is_within(left: bool, a: Point, b: Point, c: Point, point: Point) -> bool
    requires a { IsInRange a }
    requires b { IsInRange b }
    requires c { IsInRange c }
    requires point { IsInRange point }
    ensures { result ≡ is_within (sign left) a b c point }
{
    // Tests the edge that a cut leaves first: most vertices lie outside it.
    is_along(left, c, a, point) && is_along(left, a, b, point) && is_along(left, b, c, point)
}

/// Whether two points are equal.
fn same_point(one: Point, other: Point) -> bool
    ensures { result ≡ same_point one other }
{
    one == other
}

/// Whether the vertex at a place has the point of one of a corner's three vertices.
fn is_twin(points: &[Point], place: usize, other: usize) -> bool
    requires place { place < length points.now }
    requires other { other < length points.now }
    ensures { result ≡ is_twin points.now place other }
{
    let before = before_place(points.len(), place);
    let after = after_place(points.len(), place);
    same_point(points[other], points[before])
        || same_point(points[other], points[place])
        || same_point(points[other], points[after])
}

/// Whether the vertex at place `other` blocks the ear at place `place`.
fn hinders(twins: Twins, left: bool, points: &[Point], place: usize, other: usize) -> bool
    requires place { place < length points.now }
    requires other { other < length points.now }
    requires range { All IsInRange points.now }
    ensures { result ≡ hinders twins (sign left) points.now place other }
{
    let before = before_place(points.len(), place);
    let after = after_place(points.len(), place);
    other != before
        && other != place
        && other != after
        && is_within(
            left,
            points[before],
            points[place],
            points[after],
            points[other],
        )
        && !(are_passed(twins) && is_twin(points, place, other))
}

/// Twice the signed area of a corner with its neighbours, times the sign of the ring.
pub fn corner_side(left: bool, points: &[Point], place: usize) -> i64
    requires place { place < length points.now }
    requires range { All IsInRange points.now }
    ensures { result ≡ sign left *ℤ side_of (corner origin points.now place) }
{
    let before = before_place(points.len(), place);
    let after = after_place(points.len(), place);
    signed_side(left, points[before], points[place], points[after])
}

/// Whether a corner turns as its ring does.
fn turns_along(left: bool, points: &[Point], place: usize) -> bool
    requires place { place < length points.now }
    requires range { All IsInRange points.now }
    ensures { result ≡ int_lt (pos 0) (sign left *ℤ side_of (corner origin points.now place)) }
{
    corner_side(left, points, place) > 0
}

/// The first vertex from one place to before another that blocks the ear at a corner. It first tests whether a vertex
/// lies outside the corner's triangle, as most do, with the points of the corner at hand.
fn hindrance_between(
    twins: Twins,
    left: bool,
    points: &[Point],
    place: usize,
    from: usize,
    to: usize,
) -> Option<usize>
    requires place { place < length points.now }
    requires to { to ≤ length points.now }
    requires range { All IsInRange points.now }
    ensures found { IfSome result (λ k. k < length points.now × hinders twins (sign left) points.now place k ≡ true) }
    ensures free { IsNone result
        → (k : ℕ) → from ≤ k → k < to
        → hinders twins (sign left) points.now place k ≡ false }
{
    let before = points[before_place(points.len(), place)];
    let after = points[after_place(points.len(), place)];
    let at = points[place];
    for other in from..to {
        let is_near = is_within(left, before, at, after, points[other]);
        if is_near && hinders(twins, left, points, place, other) {
            return Some(other);
        }
    }
    None
}

/// The first vertex, from a place to the end of the ring and then from its start, that blocks the ear at a corner. If
/// the last vertex that did was removed, the search goes on from its place, past those that lie outside.
fn hindrance(twins: Twins, left: bool, points: &[Point], place: usize, from: usize) -> Option<usize>
    requires place { place < length points.now }
    requires range { All IsInRange points.now }
    ensures found { IfSome result (λ k. k < length points.now × hinders twins (sign left) points.now place k ≡ true) }
    ensures free { IsNone result
        → (k : ℕ) → k < length points.now
        → hinders twins (sign left) points.now place k ≡ false }
{
    let begin = if from < points.len() { from } else { 0 };
    match hindrance_between(twins, left, points, place, begin, points.len()) {
        Some(other) => Some(other),
        None => hindrance_between(twins, left, points, place, 0, begin),
    }
}

/// Whether a corner of a ring of which nothing is known is an ear. If it is not, its state keeps the reason.
fn is_open_ear(
    twins: Twins,
    left: bool,
    points: &[Point],
    place: usize,
    from: usize,
    states: &mut [EarState],
) -> bool
    requires place { place < length points.now }
    requires states { AreTrue twins (sign left) points.now states.now }
    requires range { All IsInRange points.now }
    ensures value { result ≡ is_ear twins (sign left) points.now place }
    ensures states { AreTrue twins (sign left) points.now states.new }
{
    if !turns_along(left, points, place) {
        states[place] = EarState::NotConvex;
        return false;
    }
    match hindrance(twins, left, points, place, from) {
        Some(other) => {
            states[place] = EarState::Hindered(other);
            false
        }
        None => true,
    }
}

/// Whether a corner of a ring is an ear. It is tested only if its state does not say that it is no ear.
fn is_ear(twins: Twins, left: bool, points: &[Point], place: usize, states: &mut [EarState]) -> bool
    requires place { place < length points.now }
    requires states { AreTrue twins (sign left) points.now states.now }
    requires range { All IsInRange points.now }
    ensures value { result ≡ is_ear twins (sign left) points.now place }
    ensures states { AreTrue twins (sign left) points.now states.new }
{
    match states[place] {
        EarState::Open(from) => is_open_ear(twins, left, points, place, from, states),
        EarState::NotConvex => false,
        EarState::Hindered(_) => false,
    }
}

/// The first place of an ear, or 0 if there is none. The states say what is known of each corner; what the search finds
/// is added to them.
pub fn ear_place(twins: Twins, left: bool, points: &[Point], states: &mut [EarState]) -> usize
    requires states { AreTrue twins (sign left) points.now states.now }
    requires range { All IsInRange points.now }
    ensures value { result ≡ ear_place twins (sign left) points.now }
    ensures there { 0 < length points.now → result < length points.now }
    ensures states { AreTrue twins (sign left) points.now states.new }
{
    for place in 0..points.len() {
        if is_ear(twins, left, points, place, states) {
            return place;
        }
    }
    0
}
