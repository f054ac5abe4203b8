//! The tiles of strips.
use crate::comparisons::same;
use crate::rings::{numbered_ring, pair};
use std::alloc::Global;
use std::test::Fail;
use strip_graph::{Pair, Step, Tiling, is_acceptable};
use triangle_meshes::strip_tiles;

const V: Step = Step::V;

const H: Step = Step::H;

fn tiles(alloc: Global, pair: &Pair, row: u32, word: &[Step]) -> Result<Vec<[u32; 3]>, Fail> {
    let word = word.to_vec(alloc)?;
    let tiling = Tiling { row, word };
    if !is_acceptable(pair, &tiling) {
        return Err("not acceptable".into());
    }
    Ok(strip_tiles(alloc, pair, &tiling)?)
}

fn numbered_squares(alloc: Global) -> Result<Pair, Fail> {
    let low = numbered_ring(alloc, 0, &[(0, 0, 0), (10, 0, 1), (10, 10, 2), (0, 10, 3)])?;
    let high = numbered_ring(alloc, 10, &[(0, 0, 4), (10, 0, 5), (10, 10, 6), (0, 10, 7)])?;
    pair(low, high)
}

// Two tilings of the squares, each with its row, its word and its tiles.
static TILINGS: [(u32, &[Step], &[[u32; 3]]); 2] = [
    (
        0,
        &[V, H, V, H, V, H, V, H],
        &[
            [0, 1, 4],
            [5, 4, 1],
            [1, 2, 5],
            [6, 5, 2],
            [2, 3, 6],
            [7, 6, 3],
            [3, 0, 7],
            [4, 7, 0],
        ],
    ),
    (
        1,
        &[V, V, H, V, H, V, H, H],
        &[
            [1, 2, 4],
            [2, 3, 4],
            [5, 4, 3],
            [3, 0, 5],
            [6, 5, 0],
            [0, 1, 6],
            [7, 6, 1],
            [4, 7, 1],
        ],
    ),
];

#[test]
fn the_tiles_of_two_squares(rt: HostRuntime) -> Result<(), Fail> {
    let alloc = rt.alloc();
    let squares = numbered_squares(alloc)?;
    for (row, word, wanted) in &TILINGS {
        let made = tiles(alloc, &squares, *row, word)?;
        same(&rt, (*row, made.as_slice()), (*row, *wanted));
    }
    Ok(())
}
