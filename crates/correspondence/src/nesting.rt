//! How deep contours lie in one another, and their rings.

ghost use Rattle.std.specs.Prelude.{◌≡◌, ◌<◌, ◌≤◌, ◌<ℤ◌, ◌≤ℤ◌, ◌+◌, ◌↔◌, IsTrue, IfOk, All, length, map, reverse, sum_by};
ghost use Rattle.std.specs.List.{range_with_len};
ghost use Rattle.fku_types.specs.Points.{IsInRange};
ghost use Rattle.plane_geom.specs.Nesting.{CountedAmong, Inside, is_inside};
ghost use Rattle.plane_geom.specs.RingViews.{ring_view, ring_views, IsContour};
ghost use Rattle.correspondence.specs.Bounding.{Encloses};
ghost use Rattle.correspondence.specs.Correspondences.{same_parity};
ghost use Rattle.correspondence.specs.Groups.{IsBoundedGroup, AreGroups};
ghost use Rattle.correspondence.specs.Contours.{IsOutline, AreOutlines, points_of, point_lists, contour_at};
ghost use Rattle.correspondence.specs.Nesting.{lies_in, LiesIn, depth, depths, AreDepths, IsDepthAmong, is_turned, turned, ring_from, oriented};

use crate::bounds::Bounds;
use crate::groups::{Group, all_groups};
use fku_types::limits::{MAX_COMPOSITE_VERTICES, MAX_VERTICES};
use fku_types::{NoMemory, Point};
use plane_geom::{Ring, inside, turns};
use section_core::{Contour, Section};
use std::alloc::{AllocError, Global};

// Whether all points lie above p.
fn all_above(p: Point, points: &[Point]) -> bool
    ensures { IsTrue result → All (λ q. p.y <ℤ q.y) points.now }
{
    for q in points {
        if q.y <= p.y {
            return false;
        }
    }
    true
}

// Whether none of the points lies above p.
fn none_above(p: Point, points: &[Point]) -> bool
    ensures { IsTrue result → All (λ q. q.y ≤ℤ p.y) points.now }
{
    for q in points {
        if p.y < q.y {
            return false;
        }
    }
    true
}

/// Whether p is inside a ring, ignoring z: an odd number of its edges is crossed from p. If the ring lies above or
/// below p, no edge has to be tested. All points are in range, and there are at most `MAX_COMPOSITE_VERTICES`. Takes no
/// memory.
pub fn is_within(p: Point, ring: &[Point]) -> bool
    requires p { IsInRange p }
    requires points { All IsInRange ring.now }
    requires few { length ring.now ≤ MAX_COMPOSITE_VERTICES }
    ensures inside { IsTrue result ↔ Inside p ring.now }
    ensures test { result ≡ is_inside p ring.now }
{
    if all_above(p, ring) {
        return false;
    }
    if none_above(p, ring) {
        return false;
    }
    inside(p, ring)
}

/// Whether vertex 0 of the contour at a place of a section is inside another contour, at place `other`; places are
/// counted from 0. 3 to `MAX_CONTOUR_VERTICES` points in range a contour, `MAX_SECTION_VERTICES` a section. Takes no
/// memory.
pub fn lies_in(contours: &[Contour], place: usize, other: usize) -> bool
    requires outlines { AreOutlines contours.now }
    requires place { place < length contours.now }
    requires other { other < length contours.now }
    ensures test { result ≡ lies_in (map points_of contours.now) place other }
    ensures lies { IsTrue result ↔ LiesIn (map points_of contours.now) place other }
{
    let begin = contours[place].points[0];
    other != place && is_within(begin, &contours[other].points)
}

// The same where the other contour lies within bounds. Most contours lie above or below vertex 0.
#[inline(always)]
fn lies_within(contours: &[Contour], place: usize, other: usize, bounds: Bounds) -> bool
    requires outlines { AreOutlines contours.now }
    requires place { place < length contours.now }
    requires other { other < length contours.now }
    requires bounds { Encloses bounds (contour_at (map points_of contours.now) other) }
    ensures test { result ≡ lies_in (map points_of contours.now) place other }
    ensures lies { IsTrue result ↔ LiesIn (map points_of contours.now) place other }
{
    if bounds.lie_beside(contours[place].points[0]) {
        return false;
    }
    lies_in(contours, place, other)
}

// Adds the contours of a group in which the contour at a place lies to the number of those before the group.
fn depth_past(contours: &[Contour], group: &Group, place: usize, before: u32) -> u32
    requires outlines { AreOutlines contours.now }
    requires group { IsBoundedGroup (map points_of contours.now) group.now }
    requires place { place < length contours.now }
    requires before { IsDepthAmong (map points_of contours.now) place group.now.begin before }
    ensures { IsDepthAmong (map points_of contours.now) place group.now.end result }
{
    if group.bounds.lie_beside(contours[place].points[0]) {
        return before;
    }
    let mut count = before;
    for other in group.begin..group.end {
        if lies_within(contours, place, other, group.bounds_of(other)) {
            count += 1;
        }
    }
    count
}

// How many other contours the contour at a place lies in, from the groups of all contours.
fn depth(contours: &[Contour], groups: &[Group], place: usize) -> u32
    requires outlines { AreOutlines contours.now }
    requires groups { AreGroups (map points_of contours.now) groups.now }
    requires place { place < length contours.now }
    ensures depth { result ≡ depth (map points_of contours.now) place }
    ensures counted { CountedAmong (LiesIn (map points_of contours.now) place) (length contours.now) result }
{
    let mut count: u32 = 0;
    for group in groups {
        count = depth_past(contours, group, place, count);
    }
    count
}

/// How many other contours of the section vertex 0 of each contour is inside, in file order, or `NoMemory`.
/// Each contour has 3 to `MAX_CONTOUR_VERTICES` points in range, all together at most `MAX_SECTION_VERTICES`.
pub fn depths(alloc: Global, section: &Section) -> Result<Vec<u32>, NoMemory>
    requires { AreOutlines section.now.contours.items }
    ensures depths { IfOk result (λ v. v.items ≡ depths (point_lists section.now)) }
    // The same by the counts of the definition of inside.
    ensures counted { IfOk result (λ v. AreDepths (point_lists section.now) v.items) }
{
    let contours = section.contours.as_slice();
    let groups = all_groups(alloc, contours)?;
    let mut depths = Vec::new(alloc);
    for place in 0..contours.len() {
        depths.push(depth(contours, &groups, place))?;
    }
    Ok(depths)
}

/// Whether two depths are both those of outer contours, or both those of holes. Takes no memory.
#[inline(always)]
pub fn have_same_parity(low: u32, high: u32) -> bool
    ensures { result ≡ same_parity low high }
{
    low % 2 == high % 2
}

fn is_turned(depth: u32, points: &[Point]) -> bool
    requires { IsOutline points.now }
    ensures { result ≡ is_turned depth points.now }
{
    let turns = turns(points);
    if depth % 2 == 0 { turns < 0 } else { turns > 0 }
}

fn reversed<T: Copy>(alloc: Global, items: &[T]) -> Result<Vec<T>, AllocError>
    ensures { IfOk result (λ v. v.items ≡ reverse items.now) }
{
    items.iter().rev().copied().collect(alloc)
}

// The items in reverse order, from the same first item.
fn turned<T: Copy>(alloc: Global, items: &[T]) -> Result<Vec<T>, AllocError>
    ensures { IfOk result (λ v. v.items ≡ turned items.now) }
{
    let Some((first, others)) = items.split_first() else {
        return Ok(Vec::new(alloc));
    };
    let mut turned = reversed(alloc, others)?;
    turned.insert(0, *first)?;
    Ok(turned)
}

// Numbers from a first one on.
fn numbers_from(alloc: Global, first: u32, count: usize) -> Result<Vec<u32>, AllocError>
    requires { first + count ≤ MAX_VERTICES }
    ensures { IfOk result (λ v. v.items ≡ range_with_len first count) }
{
    let mut numbers = Vec::new(alloc);
    for k in 0..count {
        numbers.push(first + k as u32)?;
    }
    Ok(numbers)
}

fn copied<T: Copy>(alloc: Global, items: &[T]) -> Result<Vec<T>, AllocError>
    ensures { IfOk result (λ v. v.items ≡ items.now) }
{
    items.iter().copied().collect(alloc)
}

fn ring_from(alloc: Global, depth: u32, first_id: u32, points: &[Point]) -> Result<Ring, NoMemory>
    requires outline { IsOutline points.now }
    requires ids { first_id + length points.now ≤ MAX_VERTICES }
    ensures ring { IfOk result (λ r. ring_view r ≡ ring_from depth first_id points.now) }
{
    let ids = numbers_from(alloc, first_id, points.len())?;
    if is_turned(depth, points) {
        let points = turned(alloc, points)?;
        let ids = turned(alloc, &ids)?;
        Ok(Ring { points, ids })
    } else {
        let points = copied(alloc, points)?;
        Ok(Ring { points, ids })
    }
}

/// The contours of a section as rings, in file order; or `NoMemory`. The vertices have ids from `first_id` on, in file
/// order. A contour of even depth turns counterclockwise and one of odd depth clockwise, with vertex 0 first. Each
/// contour has 3 to `MAX_CONTOUR_VERTICES` points in range, all together at most `MAX_SECTION_VERTICES`, and ids stay
/// below `MAX_VERTICES`.
pub fn oriented(alloc: Global, section: &Section, first_id: u32) -> Result<Vec<Ring>, NoMemory>
    requires outlines { AreOutlines section.now.contours.items }
    requires ids { first_id + sum_by (λ c. length (points_of c)) section.now.contours.items ≤ MAX_VERTICES }
    ensures rings { IfOk result (λ v. ring_views v.items ≡ oriented first_id (point_lists section.now)) }
    ensures contours { IfOk result (λ v. All IsContour v.items) }
{
    let contours = section.contours.as_slice();
    let groups = all_groups(alloc, contours)?;
    let mut rings = Vec::new(alloc);
    let mut id = first_id;
    for place in 0..contours.len() {
        let points = contours[place].points.as_slice();
        let depth = depth(contours, &groups, place);
        rings.push(ring_from(alloc, depth, id, points)?)?;
        id += points.len() as u32;
    }
    Ok(rings)
}
