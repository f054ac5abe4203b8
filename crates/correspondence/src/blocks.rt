//! Successive edges of a ring.

ghost use Rattle.std.specs.Prelude.{◌≡◌, ◌<◌, ◌≤◌, length, All};
ghost use Rattle.fku_types.specs.Points.{IsInRange};
ghost use Rattle.correspondence.specs.Blocks.{IsBlock};

use crate::bounds::Bounds;
use fku_types::Point;
use plane_geom::edge_end;

// Edges of a block. With fewer, more pairs of blocks are tested; with more, more pairs of edges within blocks.
const EDGES: usize = 16;

// Edges of a long block. The blocks of the other ring are made again for each long block that they are compared with:
// for two rings of n edges, n * n / 64 steps and n * n / 1024 tests of two blocks. Shorter long blocks take more of
// both; longer ones meet more blocks, whose edges are then visited.
const LONG_EDGES: usize = 64;

/// Successive edges of a ring, from `begin` to before `end`, and bounds of their ends. Most other blocks have bounds
/// that do not meet these, which decides for all their edges at once; most other edges lie beyond one side of these.
#[derive(Clone, Copy)]
pub struct Block {
    pub begin: usize,
    pub end: usize,
    pub bounds: Bounds,
}

impl Block {
    /// The edges of a ring from one on: 16, or those that are left. All points are in range.
    pub fn at(ring: &[Point], begin: usize) -> Block
        requires points { All IsInRange ring.now }
        requires within { begin < length ring.now }
        ensures block { IsBlock ring.now result }
        ensures begin { result.begin ≡ begin }
    {
        Block::of(ring, begin, EDGES)
    }

    /// The edges of a ring from one on: 64, or those that are left. All points are in range.
    pub fn long_at(ring: &[Point], begin: usize) -> Block
        requires points { All IsInRange ring.now }
        requires within { begin < length ring.now }
        ensures block { IsBlock ring.now result }
        ensures begin { result.begin ≡ begin }
    {
        Block::of(ring, begin, LONG_EDGES)
    }

    // The edges of a ring from one on: `edges`, or those that are left.
    fn of(ring: &[Point], begin: usize, edges: usize) -> Block
        requires points { All IsInRange ring.now }
        requires within { begin < length ring.now }
        requires some { 0 < edges }
        requires few { edges ≤ 64 }
        ensures block { IsBlock ring.now result }
        ensures begin { result.begin ≡ begin }
    {
        let end = ring.len().min(begin + edges);
        let bounds = Bounds::of(&ring[begin..end]).with(edge_end(ring, end - 1));
        Block { begin, end, bounds }
    }
}
