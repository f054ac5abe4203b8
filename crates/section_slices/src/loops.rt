//! The loops of pairs at the middle of their gap.
ghost use Rattle.std.specs.Prelude.{◌≡◌, ◌+◌, ◌/◌, ◌<◌, ◌≤◌, All, IfOk, length, map, slice_index_or};
ghost use Rattle.strip_graph.specs.Slices.{slice_loop};
ghost use Rattle.row_paths.specs.Solutions.{Solution, Solves};
ghost use Rattle.pair_pool.specs.Solvers.{SolvesEach};
ghost use Rattle.section_pairs.specs.Pairs.{pair_parts};
ghost use Rattle.surface_core.specs.Surfaces.{strips_in};
ghost use Rattle.section_slices.specs.Roundings.{rounded_loop};
ghost use Rattle.section_slices.specs.Densified.{rise, dense_pairs, IsMiddleOutline, AreMiddleOutlines};
ghost use Rattle.section_slices.specs.Marks.{dense_gaps, outlines_of};

use crate::gaps::rise;
use crate::rounding::round_loop;
use fku_types::limits::MAX_DIFFERENCE;
use fku_types::{NoMemory, Spot};
use row_paths::Solved;
use section_core::Sections;
use section_pairs::GapPair;
use std::alloc::Global;
use strip_graph::{Pair, slice_points};

// The rounded loop of a solved pair half way between two heights that differ by `rise`; the height is rounded down.
fn outline(alloc: Global, pair: &Pair, solved: &Solved, rise: u32) -> Result<Vec<Spot>, NoMemory>
    requires solved { Solves pair.now solved.now }
    requires some { 1 ≤ rise }
    requires few { rise ≤ MAX_DIFFERENCE }
    ensures { IfOk result (λ v.
        v.items ≡ rounded_loop rise (slice_loop pair.now rise (rise / 2) solved.now.row 0 solved.now.word)) }
{
    let points = slice_points(alloc, pair, solved.tiling(), rise, rise / 2)?;
    round_loop(alloc, &points, rise as i32)
}

// The outline of a pair of a dense gap, whose solution is at a place.
fn dense_outline(
    alloc: Global,
    sections: &Sections,
    pair: &GapPair,
    solved: &[Solved],
    place: usize,
) -> Result<Vec<Spot>, NoMemory>
    requires gap { pair.now.gap + 1 < length sections.now.sections }
    requires dense { 2 ≤ rise sections.now pair.now.gap }
    requires there { place < length solved.now }
    requires solves { (x : Solution) → Solves pair.now.pair (slice_index_or solved.now place x) }
    ensures { IfOk result (λ v. IsMiddleOutline sections.now (pair_parts pair.now) v.items) }
{
    let rise = rise(sections, pair.gap);
    let spots = outline(alloc, &pair.pair, &solved[place], rise)?;
    Ok(spots)
}

/// The outline of each pair of a dense gap at the middle height, at the pair's index; no spots for other pairs. Or
/// `NoMemory`.
pub fn middle_outlines(
    alloc: Global,
    sections: &Sections,
    pairs: &[GapPair],
    dense: &[bool],
    solved: &[Solved],
) -> Result<Vec<Vec<Spot>>, NoMemory>
    requires gaps { All (λ p. p.gap + 1 < length sections.now.sections) pairs.now }
    requires dense { dense.now ≡ dense_gaps sections.now (map pair_parts pairs.now) }
    requires solved { SolvesEach (strips_in (dense_pairs sections.now (map pair_parts pairs.now))) solved.now }
    ensures { IfOk result (λ v. AreMiddleOutlines sections.now (map pair_parts pairs.now) (outlines_of v.items)) }
{
    let mut outlines = Vec::with_capacity(alloc, pairs.len())?;
    let mut next = 0;
    for pair in pairs {
        if dense[pair.gap as usize] {
            outlines.push(dense_outline(alloc, sections, pair, solved, next)?)?;
            next += 1;
        } else {
            outlines.push(Vec::new(alloc))?;
        }
    }
    Ok(outlines)
}
