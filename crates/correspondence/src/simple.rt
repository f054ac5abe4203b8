//! The first pair of edges that breaks the rule.

ghost use Rattle.std.specs.Prelude.{ℕ, ◌+◌, ◌<◌, ◌≤◌, ◌↔◌, IsTrue, MatchOption, MatchResult, length};
ghost use Rattle.plane_geom.specs.Rings.{around};
ghost use Rattle.correspondence.specs.Bounding.{LiesWithin};
ghost use Rattle.correspondence.specs.Blocks.{IsBlock};
ghost use Rattle.correspondence.specs.Contours.{IsOutline, points_of};
ghost use Rattle.correspondence.specs.Pairs.{NonePartner, FirstPartner, FirstPair};
ghost use Rattle.correspondence.specs.Simple.{AgainstRule, IsSimple, IsSelfCrossing};

use crate::blocks::Block;
use crate::bounds::Bounds;
use fku_types::{Fault, Point};
use plane_geom::{edge_end, share, share_more};
use section_core::Contour;

/// Two edges of a contour, the lower one first.
#[derive(Clone, Copy)]
struct EdgePair {
    first: usize,
    second: usize,
}

fn against_rule(ring: &[Point], first: usize, second: usize) -> bool
    requires ring { IsOutline ring.now }
    requires ordered { first < second }
    requires within { second < length ring.now }
    ensures { IsTrue result ↔ AgainstRule ring.now first second }
{
    if second == first + 1 {
        share_more(ring[first], ring[second], edge_end(ring, second))
    } else if first == 0 && second + 1 == ring.len() {
        share_more(ring[second], ring[0], edge_end(ring, 0))
    } else {
        share(
            ring[first],
            edge_end(ring, first),
            ring[second],
            edge_end(ring, second),
        )
    }
}

// The same where the lower edge lies within bounds. Most edges have bounds that do not meet these.
#[inline(always)]
fn is_partner(ring: &[Point], bounds: Bounds, first: usize, second: usize) -> bool
    requires ring { IsOutline ring.now }
    requires ordered { first < second }
    requires within { second < length ring.now }
    requires begin { LiesWithin bounds (around ring.now first) }
    requires end { LiesWithin bounds (around ring.now (first + 1)) }
    ensures { IsTrue result ↔ AgainstRule ring.now first second }
{
    let edge = Bounds::of_edge(ring[second], edge_end(ring, second));
    if !bounds.meet(edge) {
        return false;
    }
    against_rule(ring, first, second)
}

fn first_partner(ring: &[Point], first: usize) -> Option<usize>
    requires ring { IsOutline ring.now }
    requires within { first < length ring.now }
    ensures { MatchOption result (NonePartner (AgainstRule ring.now) (length ring.now) first) (λ second.
        FirstPartner (AgainstRule ring.now) (length ring.now) first second) }
{
    let bounds = Bounds::of_edge(ring[first], edge_end(ring, first));
    for second in first + 1..ring.len() {
        if is_partner(ring, bounds, first, second) {
            return Some(second);
        }
    }
    None
}

// `true` shows that an edge breaks the rule with none of the later edges of a block.
fn keeps_rule(ring: &[Point], first: usize, block: Block) -> bool
    requires ring { IsOutline ring.now }
    requires block { IsBlock ring.now block }
    requires within { first < length ring.now }
    ensures { IsTrue result
        → (second : ℕ) → first < second
        → block.begin ≤ second
        → second < block.end
        → AgainstRule ring.now first second
        → ⊥ }
{
    let (begin, end) = (ring[first], edge_end(ring, first));
    if block.bounds.leave_out(begin, end) {
        return true;
    }
    let bounds = Bounds::of_edge(begin, end);
    for second in block.begin.max(first + 1)..block.end {
        if is_partner(ring, bounds, first, second) {
            return false;
        }
    }
    true
}

// The same for the edges of a part of the ring.
fn part_keeps_rule(ring: &[Point], part: Block, block: Block) -> bool
    requires ring { IsOutline ring.now }
    requires part { IsBlock ring.now part }
    requires block { IsBlock ring.now block }
    ensures { IsTrue result
        → (first second : ℕ) → part.begin ≤ first
        → first < part.end
        → first < second
        → block.begin ≤ second
        → second < block.end
        → AgainstRule ring.now first second
        → ⊥ }
{
    if !part.bounds.meet(block.bounds) {
        return true;
    }
    for first in part.begin..part.end {
        if !keeps_rule(ring, first, block) {
            return false;
        }
    }
    true
}

// The same for a long block. The blocks within it are made only if its bounds meet those of the part.
fn long_block_keeps_rule(ring: &[Point], part: Block, block: Block) -> bool
    requires ring { IsOutline ring.now }
    requires part { IsBlock ring.now part }
    requires block { IsBlock ring.now block }
    ensures { IsTrue result
        → (first second : ℕ) → part.begin ≤ first
        → first < part.end
        → first < second
        → block.begin ≤ second
        → second < block.end
        → AgainstRule ring.now first second
        → ⊥ }
{
    if !part.bounds.meet(block.bounds) {
        return true;
    }
    let mut begin = block.begin.max(part.begin);
    while begin < block.end {
        let short = Block::at(ring, begin);
        if !part_keeps_rule(ring, part, short) {
            return false;
        }
        begin = short.end;
    }
    true
}

// The same for all edges and a long block.
fn all_keep_rule(ring: &[Point], block: Block) -> bool
    requires ring { IsOutline ring.now }
    requires block { IsBlock ring.now block }
    ensures { IsTrue result
        → (first second : ℕ) → first < second
        → block.begin ≤ second
        → second < block.end
        → AgainstRule ring.now first second
        → ⊥ }
{
    let mut begin = 0;
    while begin < block.end {
        let part = Block::at(ring, begin);
        if !long_block_keeps_rule(ring, part, block) {
            return false;
        }
        begin = part.end;
    }
    true
}

// `true` shows that a ring is simple. The test goes through the long blocks in turn.
fn is_simple(ring: &[Point]) -> bool
    requires { IsOutline ring.now }
    ensures { IsTrue result → IsSimple ring.now }
{
    let mut begin = 0;
    while begin < ring.len() {
        let block = Block::long_at(ring, begin);
        if !all_keep_rule(ring, block) {
            return false;
        }
        begin = block.end;
    }
    true
}

// The first pair of edges that breaks the rule; none if the ring is simple.
fn first_pair(ring: &[Point]) -> Option<EdgePair>
    requires { IsOutline ring.now }
    ensures { MatchOption result (IsSimple ring.now) (λ pair.
        FirstPair (AgainstRule ring.now) (length ring.now) pair.first pair.second) }
{
    // Most rings are simple, and this test is faster than the search for a first pair.
    if is_simple(ring) {
        return None;
    }
    for first in 0..ring.len() {
        if let Some(second) = first_partner(ring, first) {
            return Some(EdgePair { first, second });
        }
    }
    None
}

/// Tests that a contour of 3 to `MAX_CONTOUR_VERTICES` points in range is simple: edges that are not neighbours share no
/// point, and neighbours share only their common vertex. Otherwise `SelfCrossing` has the contour's name and the first two edges
/// that break this rule, ordered by the first and then the second; edges are counted from 0. Takes no memory.
pub fn test_simple(contour: &Contour) -> Result<(), Fault>
    requires { IsOutline (points_of contour.now) }
    ensures { MatchResult result (λ _. IsSimple (points_of contour.now))
        (IsSelfCrossing contour.now.name (points_of contour.now)) }
{
    match first_pair(&contour.points) {
        None => Ok(()),
        Some(pair) => Err(Fault::SelfCrossing {
            name: contour.name.copy(),
            first: pair.first as u32,
            second: pair.second as u32,
        }),
    }
}
