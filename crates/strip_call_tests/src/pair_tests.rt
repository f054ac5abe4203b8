//! Copies of rings and pairs, and spans that are counted round.

use crate::comparisons::same;
use crate::rings::{numbered_ring, pair_by};
use fku_types::{CostRule, NoMemory};
use plane_geom::Ring;
use std::alloc::Global;
use std::process::Abort;
use std::test::Fail;
use strip_graph::{Pair, Step, Tiling, is_acceptable, next_place};

fn same_rings<R: Abort>(rt: &R, one: &Ring, other: &Ring) {
    same(rt, one.points.as_slice(), other.points.as_slice());
    same(rt, one.ids.as_slice(), other.ids.as_slice());
}

#[test]
fn the_copy_of_a_ring_equals_it(rt: HostRuntime) -> Result<(), Fail> {
    let alloc = rt.alloc();
    let ring = numbered_ring(alloc, 3, &[(-999_999, 7, 65_535), (0, 999_999, 4)])?;
    let copy = ring.copy(alloc)?;
    same_rings(&rt, &copy, &ring);
    same(&rt, copy.ids.as_slice(), &[65_535, 4]);
    Ok(())
}

const LOW: [(i32, i32, u32); 3] = [(0, 0, 7), (9, -1, 8), (3, 4, 9)];

const HIGH: [(i32, i32, u32); 3] = [(1, 0, 20), (9, 9, 21), (0, 7, 22)];

fn pair_by_area(alloc: Global) -> Result<Pair, Fail> {
    let low = numbered_ring(alloc, 0, &LOW)?;
    let high = numbered_ring(alloc, 5, &HIGH)?;
    pair_by(low, high, CostRule::Area)
}

#[test]
fn a_copy_equals_its_pair(rt: HostRuntime) -> Result<(), Fail> {
    let alloc = rt.alloc();
    let pair = pair_by_area(alloc)?;
    let copy = pair.copy(alloc)?;
    same(&rt, copy.cost(), CostRule::Area);
    same_rings(&rt, copy.low(), pair.low());
    same(&rt, copy.low().ids.as_slice(), &[7, 8, 9]);
    same_rings(&rt, copy.high(), pair.high());
    same(&rt, copy.high().ids.as_slice(), &[20, 21, 22]);
    Ok(())
}

const WORD: [Step; 6] = [Step::V, Step::H, Step::V, Step::H, Step::H, Step::V];

fn places_passed(alloc: Global, pair: &Pair, tiling: &Tiling) -> Result<Vec<(usize, usize)>, Fail> {
    if !is_acceptable(pair, tiling) {
        return Err("the word goes once round both rings".into());
    }
    let places = pair.spans(tiling).map(|span| (span.row, span.col));
    Ok(places.collect::<Vec<(usize, usize)>>(alloc)?)
}

fn steps_passed(alloc: Global, pair: &Pair, tiling: &Tiling) -> Result<Vec<Step>, Fail> {
    if !is_acceptable(pair, tiling) {
        return Err("the word goes once round both rings".into());
    }
    let steps = pair.spans(tiling).map(|span| span.step);
    Ok(steps.collect::<Vec<Step>>(alloc)?)
}

fn tiling_from_row_2(alloc: Global) -> Result<Tiling, NoMemory> {
    let word = WORD.to_vec(alloc)?;
    Ok(Tiling { row: 2, word })
}

fn passes<R: Abort>(rt: &R, alloc: Global, pair: &Pair, tiling: &Tiling) -> Result<(), Fail> {
    let wanted = [(2, 0), (0, 0), (0, 1), (1, 1), (1, 2), (1, 0)];
    same(rt, places_passed(alloc, pair, tiling)?.as_slice(), &wanted);
    same(rt, steps_passed(alloc, pair, tiling)?.as_slice(), &WORD);
    Ok(())
}

#[test]
fn spans_are_counted_round_both_rings(rt: HostRuntime) -> Result<(), Fail> {
    let alloc = rt.alloc();
    passes(
        &rt,
        alloc,
        &pair_by_area(alloc)?,
        &tiling_from_row_2(alloc)?,
    )?;
    same(&rt, next_place(2, 3), 0);
    Ok(())
}
