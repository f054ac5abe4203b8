//! Contours that share a point.

ghost use Rattle.std.specs.Prelude.{ℕ, suc, ◌<◌, ◌≤◌, ◌↔◌, IsTrue, MatchOption, MatchResult, All, length, map};
ghost use Rattle.fku_types.specs.Points.{IsInRange};
ghost use Rattle.correspondence.specs.Contours.{AreOutlines, points_of, point_lists, contour_at};
ghost use Rattle.plane_geom.specs.Rings.{around};
ghost use Rattle.plane_geom.specs.Segments.{SharePoint};
ghost use Rattle.correspondence.specs.Bounding.{Encloses, LiesWithin};
ghost use Rattle.correspondence.specs.Blocks.{IsBlock};
ghost use Rattle.correspondence.specs.Groups.{IsBoundedGroup};
ghost use Rattle.correspondence.specs.Simple.{EdgesMeet};
ghost use Rattle.correspondence.specs.Apart.{SegmentTouches, Touch, ContoursTouch, AreApart, IsCrossing};
ghost use Rattle.correspondence.specs.Pairs.{NonePartner, FirstPartner, FirstPair};

use crate::blocks::Block;
use crate::bounds::Bounds;
use crate::groups::{Group, bounds_at};
use fku_types::{Fault, Point};
use plane_geom::{edge_end, share};
use section_core::{Contour, Section};

/// Two contours of a section by their places, the lower one first.
#[derive(Clone, Copy)]
struct ContourPair {
    first: usize,
    second: usize,
}

// Whether the segments ab and cd share a point, where ab lies within bounds. Most other segments lie beyond one side of
// the bounds.
fn meets(a: Point, b: Point, bounds: Bounds, c: Point, d: Point) -> bool
    requires a { IsInRange a }
    requires b { IsInRange b }
    requires c { IsInRange c }
    requires d { IsInRange d }
    requires bounds { LiesWithin bounds a × LiesWithin bounds b }
    ensures { IsTrue result ↔ SharePoint a b c d }
{
    if bounds.leave_out(c, d) {
        return false;
    }
    share(a, b, c, d)
}

// Whether the segment ab shares a point with an edge of a block.
fn segment_touches(a: Point, b: Point, ring: &[Point], block: Block) -> bool
    requires a { IsInRange a }
    requires b { IsInRange b }
    requires ring { All IsInRange ring.now }
    requires block { IsBlock ring.now block }
    ensures found { IsTrue result → SegmentTouches a b ring.now }
    ensures all { (f : ℕ) → block.begin ≤ f
        → f < block.end
        → SharePoint a b (around ring.now f) (around ring.now (suc f))
        → IsTrue result }
{
    if block.bounds.leave_out(a, b) {
        return false;
    }
    let edge = Bounds::of_edge(a, b);
    for place in block.begin..block.end {
        if meets(a, b, edge, ring[place], edge_end(ring, place)) {
            return true;
        }
    }
    false
}

// Whether an edge of a block of one ring shares a point with an edge of a block of the other.
fn blocks_touch(one: &[Point], part: Block, other: &[Point], block: Block) -> bool
    requires one { All IsInRange one.now }
    requires other { All IsInRange other.now }
    requires part { IsBlock one.now part }
    requires block { IsBlock other.now block }
    ensures found { IsTrue result → Touch one.now other.now }
    ensures all { (e f : ℕ) → part.begin ≤ e
        → e < part.end
        → block.begin ≤ f
        → f < block.end
        → EdgesMeet one.now e other.now f
        → IsTrue result }
{
    if !part.bounds.meet(block.bounds) {
        return false;
    }
    for edge in part.begin..part.end {
        if segment_touches(one[edge], edge_end(one, edge), other, block) {
            return true;
        }
    }
    false
}

// The same for a long block of one ring. The blocks within it are made only if its bounds meet those of the other
// block.
fn long_block_touches(one: &[Point], part: Block, other: &[Point], block: Block) -> bool
    requires one { All IsInRange one.now }
    requires other { All IsInRange other.now }
    requires part { IsBlock one.now part }
    requires block { IsBlock other.now block }
    ensures found { IsTrue result → Touch one.now other.now }
    ensures all { (e f : ℕ) → part.begin ≤ e
        → e < part.end
        → block.begin ≤ f
        → f < block.end
        → EdgesMeet one.now e other.now f
        → IsTrue result }
{
    if !part.bounds.meet(block.bounds) {
        return false;
    }
    let mut begin = part.begin;
    while begin < part.end {
        let short = Block::at(one, begin);
        if blocks_touch(one, short, other, block) {
            return true;
        }
        begin = short.end;
    }
    false
}

// Whether an edge of a long block of one ring shares a point with an edge of the other, which lies within bounds.
fn block_touches(one: &[Point], part: Block, other: &[Point], bounds: Bounds) -> bool
    requires one { All IsInRange one.now }
    requires other { All IsInRange other.now }
    requires part { IsBlock one.now part }
    requires bounds { Encloses bounds other.now }
    ensures found { IsTrue result → Touch one.now other.now }
    ensures all { (e f : ℕ) → part.begin ≤ e
        → e < part.end
        → f < length other.now
        → EdgesMeet one.now e other.now f
        → IsTrue result }
{
    if !part.bounds.meet(bounds) {
        return false;
    }
    let mut begin = 0;
    while begin < other.len() {
        let block = Block::at(other, begin);
        if long_block_touches(one, part, other, block) {
            return true;
        }
        begin = block.end;
    }
    false
}

/// Whether an edge of one ring shares a point with an edge of the other, ignoring z. Stops at the first such edge.
/// Each ring has at least one point, all in range. Takes no memory.
pub fn touch(one: &[Point], other: &[Point]) -> bool
    requires one { All IsInRange one.now }
    requires other { All IsInRange other.now }
    requires some { 0 < length one.now }
    requires some_other { 0 < length other.now }
    ensures { IsTrue result ↔ Touch one.now other.now }
{
    let bounds = Bounds::of(other);
    if !Bounds::of(one).meet(bounds) {
        return false;
    }
    let mut begin = 0;
    while begin < one.len() {
        let part = Block::long_at(one, begin);
        if block_touches(one, part, other, bounds) {
            return true;
        }
        begin = part.end;
    }
    false
}

fn first_touched(contours: &[Contour], first: usize) -> Option<usize>
    requires outlines { AreOutlines contours.now }
    requires within { first < length contours.now }
    ensures { MatchOption result (NonePartner (ContoursTouch (map points_of contours.now)) (length contours.now) first)
        (λ second. FirstPartner (ContoursTouch (map points_of contours.now)) (length contours.now) first second) }
{
    for second in first + 1..contours.len() {
        if touch_at(contours, first, second) {
            return Some(second);
        }
    }
    None
}

fn touch_at(contours: &[Contour], first: usize, second: usize) -> bool
    requires outlines { AreOutlines contours.now }
    requires first { first < length contours.now }
    requires second { second < length contours.now }
    ensures { IsTrue result ↔ ContoursTouch (map points_of contours.now) first second }
{
    touch(&contours[first].points, &contours[second].points)
}

// The same where both contours lie within bounds. Most pairs of contours have bounds that do not meet.
#[inline(always)]
fn touch_within(
    contours: &[Contour],
    first: usize,
    one: Bounds,
    second: usize,
    other: Bounds,
) -> bool
    requires outlines { AreOutlines contours.now }
    requires first { first < length contours.now }
    requires second { second < length contours.now }
    requires one { Encloses one (contour_at (map points_of contours.now) first) }
    requires other { Encloses other (contour_at (map points_of contours.now) second) }
    ensures { IsTrue result ↔ ContoursTouch (map points_of contours.now) first second }
{
    if !one.meet(other) {
        return false;
    }
    touch_at(contours, first, second)
}

// `true` shows that a contour shares no point with those of a group that stand before it.
fn is_apart(contours: &[Contour], group: &Group, second: usize) -> bool
    requires outlines { AreOutlines contours.now }
    requires group { IsBoundedGroup (map points_of contours.now) group.now }
    requires second { second < length contours.now }
    ensures { IsTrue result
        → (first : ℕ) → group.now.begin ≤ first
        → first < group.now.end
        → first < second
        → ContoursTouch (map points_of contours.now) first second
        → ⊥ }
{
    let bounds = bounds_at(contours, second);
    if !group.bounds.meet(bounds) {
        return true;
    }
    for first in group.begin..group.end.min(second) {
        if touch_within(contours, first, group.bounds_of(first), second, bounds) {
            return false;
        }
    }
    true
}

// `true` shows that no contour of a group shares a point with a later contour of the section.
fn group_is_apart(contours: &[Contour], group: &Group) -> bool
    requires outlines { AreOutlines contours.now }
    requires group { IsBoundedGroup (map points_of contours.now) group.now }
    ensures { IsTrue result
        → (first second : ℕ) → group.now.begin ≤ first
        → first < group.now.end
        → first < second
        → second < length contours.now
        → ContoursTouch (map points_of contours.now) first second
        → ⊥ }
{
    for second in group.begin..contours.len() {
        if !is_apart(contours, group, second) {
            return false;
        }
    }
    true
}

// The place of a contour before which none shares a point with a later one: past the last, or where the first group
// begins in which one does.
fn apart_until(contours: &[Contour]) -> usize
    requires { AreOutlines contours.now }
    ensures { (first second : ℕ) → first < result
        → first < second
        → second < length contours.now
        → ContoursTouch (map points_of contours.now) first second
        → ⊥ }
{
    let mut begin = 0;
    while begin < contours.len() {
        let group = Group::at(contours, begin);
        if !group_is_apart(contours, &group) {
            return begin;
        }
        begin = group.end;
    }
    begin
}

// The first pair of contours that share a point; none if no two do.
fn first_touching(contours: &[Contour]) -> Option<ContourPair>
    requires { AreOutlines contours.now }
    ensures { MatchOption result (AreApart (map points_of contours.now)) (λ pair.
        FirstPair (ContoursTouch (map points_of contours.now)) (length contours.now) pair.first pair.second) }
{
    for first in apart_until(contours)..contours.len() {
        if let Some(second) = first_touched(contours, first) {
            return Some(ContourPair { first, second });
        }
    }
    None
}

/// Tests that no two contours of a section share a point. Otherwise `Crossing` names the first two that do, ordered by
/// the index of the first and then of the second. Each contour has 3 to `MAX_CONTOUR_VERTICES` points in range, all
/// together at most `MAX_SECTION_VERTICES`. Takes no memory.
pub fn test_apart(section: &Section) -> Result<(), Fault>
    requires { AreOutlines section.now.contours.items }
    ensures { MatchResult result (λ _. AreApart (point_lists section.now))
        (IsCrossing (map (λ c. c.name) section.now.contours.items) (point_lists section.now)) }
{
    let contours = section.contours.as_slice();
    match first_touching(contours) {
        None => Ok(()),
        Some(pair) => Err(Fault::Crossing {
            first: contours[pair.first].name.copy(),
            second: contours[pair.second].name.copy(),
        }),
    }
}
