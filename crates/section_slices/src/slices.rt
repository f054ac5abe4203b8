//! Slices between the heights of two sections.
ghost use Rattle.std.specs.Prelude.{◌≡◌, ℕ, List, ◌+◌, ◌<◌, ◌≤◌, pos, ◌-ℤ◌, ◌<ℤ◌, ◌≤ℤ◌, All, IfOk, IfErr, OnOk, length, map, take, slice_index_or};
ghost use Rattle.fku_types.specs.declared.fault.Fault.TheVariants as variants;
ghost use Rattle.fku_types.specs.Points.{IsCoordinate};
ghost use Rattle.correspondence.specs.Outlines.{section_at};
ghost use Rattle.pair_pool.specs.Solvers.{SolvesEach, raised_by, referents};
ghost use Rattle.section_pairs.specs.Pairs.{PairParts, pair_parts};
ghost use Rattle.section_pairs.specs.SectionFaults.{ArePairs, IsLateMemory, OrNoMemory};
ghost use Rattle.surface_core.specs.Surfaces.{strips_in};
ghost use Rattle.section_slices.specs.Slices.{IsGapAt, pairs_in_gap, loops_at, IsSlice, IsSliceFault, IsHeightFault};

use fku_types::limits::MAX_DIFFERENCE;
use fku_types::{Fault, NoMemory};
use pair_pool::PairSolver;
use row_paths::Solved;
use section_core::{Section, Sections};
use section_pairs::GapPair;
use std::alloc::Global;
use strip_graph::{Cut, Pair, slice_points};

/// The loops of a slice, one for each pair of a gap. Each point's x and y are numerators over `den`, which is 1 to
/// `MAX_DIFFERENCE`. The points of a loop are in the order of its tiling, and the last is joined to the first.
#[derive(Drop)]
pub struct SliceLoops {
    pub den: i32,
    pub loops: Vec<Vec<Cut>>,
}

// The gap around a height: the section below it, the difference of its two heights, and how far the height is above the
// lower one.
#[derive(Clone, Copy)]
pub(crate) struct Gap {
    pub(crate) index: u32,
    pub(crate) den: u32,
    pub(crate) part: u32,
}

// How many sections, from the first on, lie below a height.
fn sections_below(sections: &[Section], z: i32) -> usize
    requires heights { All (λ s. IsCoordinate s.z) sections.now }
    ensures few { result ≤ length sections.now }
    ensures below { All (λ s. s.z <ℤ z) (take result sections.now) }
    ensures next { (d : Section) → result < length sections.now → z ≤ℤ (slice_index_or sections.now result d).z }
{
    for place in 0..sections.len() {
        if z <= sections[place].z {
            return place;
        }
    }
    sections.len()
}

// The gap around a height; or the fault of the height if there is none.
pub(crate) fn gap_at(sections: &Sections, z: i32) -> Result<Gap, Fault>
    ensures gap { IfOk result (λ g. IsGapAt sections.now z g.index) }
    ensures den { IfOk result (λ g.
        pos g.den ≡ (section_at sections.now (g.index + 1)).z -ℤ (section_at sections.now g.index).z) }
    ensures part { IfOk result (λ g. pos g.part ≡ z -ℤ (section_at sections.now g.index).z) }
    ensures small { IfOk result (λ g. (g.part ≤ g.den) × (g.den ≤ MAX_DIFFERENCE)) }
    ensures one { IfOk result (λ g. (other : ℕ) → IsGapAt sections.now z other → other ≡ g.index) }
    ensures only { IfOk result (λ _. (fault : Fault) → IsHeightFault sections.now z fault → ⊥) }
    ensures fault { IfErr result (IsHeightFault sections.now z) }
    ensures no_gap { IfErr result (λ _. (g : ℕ) → IsGapAt sections.now z g → ⊥) }
{
    let all = sections.sections();
    let above = sections_below(all, z);
    if above == all.len() {
        return Err(Fault::Outside { z });
    }
    let high = all[above].z;
    if z == high {
        return Err(Fault::OnSection { z });
    }
    if above == 0 {
        return Err(Fault::Outside { z });
    }
    let low = all[above - 1].z;
    Ok(Gap {
        index: above as u32 - 1,
        den: high.abs_diff(low),
        part: z.abs_diff(low),
    })
}

// The loops of pairs, each from the solution at its index.
pub(crate) fn all_loops(
    alloc: Global,
    pairs: &[&Pair],
    solved: &[Solved],
    den: u32,
    part: u32,
) -> Result<Vec<Vec<Cut>>, NoMemory>
    requires solved { SolvesEach (referents pairs.now) solved.now }
    requires den { den ≤ MAX_DIFFERENCE }
    requires part { part ≤ den }
    ensures loops { IfOk result (λ v. map (λ l. l.items) v.items ≡ loops_at den part (referents pairs.now) solved.now) }
    ensures one_a_pair { IfOk result (λ v. length v.items ≡ length pairs.now) }
{
    let mut loops = Vec::with_capacity(alloc, pairs.len())?;
    for place in 0..pairs.len() {
        let tiling = solved[place].tiling();
        loops.push(slice_points(alloc, pairs[place], tiling, den, part)?)?;
    }
    Ok(loops)
}

// The strips of a gap's pairs, in order.
pub(crate) fn gap_strips<'a>(
    alloc: Global,
    pairs: &'a [GapPair],
    gap: u32,
) -> Result<Vec<&'a Pair>, NoMemory>
    ensures { IfOk result (λ v. referents v.items ≡ strips_in (pairs_in_gap gap (map pair_parts pairs.now))) }
{
    let mut strips = Vec::new(alloc);
    for pair in pairs {
        if pair.gap == gap {
            strips.push(&pair.pair)?;
        }
    }
    Ok(strips)
}

/// `Ok` exactly if a height lies between the heights of two neighbouring sections. Else `Outside` if it is below the
/// first section or above the last one, and `OnSection` if it is the height of a section. Takes no memory.
pub fn test_height(sections: &Sections, z: i32) -> Result<(), Fault>
    // There is a gap around the height.
    ensures gap { OnOk result ((g : ℕ) × IsGapAt sections.now z g) }
    ensures between { OnOk result ((fault : Fault) → IsHeightFault sections.now z fault → ⊥) }
    // There is no gap around it.
    ensures no_gap { IfErr result (λ _. (g : ℕ) → IsGapAt sections.now z g → ⊥) }
    ensures fault { IfErr result (IsHeightFault sections.now z) }
{
    gap_at(sections, z)?;
    Ok(())
}

/// The slice of `slice`, for sections whose pairs are known: `pairs` are all pairs of the sections, as `pairs` returns
/// them. `Ok` raises the solver's count by the number of pairs of the gap around the height, up to the counter's last
/// value; `NoMemory` by at most that; no other fault raises it. The number of workers stays.
///
/// The fault is `Outside` if the height is below the first section or above the last one, or `OnSection` if it is the
/// height of a section. `NoMemory` comes only if it is neither.
pub fn slice_pairs<P: PairSolver>(
    alloc: Global,
    sections: &Sections,
    pairs: &[GapPair],
    solver: &mut P,
    z: i32,
) -> Result<SliceLoops, Fault>
    requires { ArePairs sections.now (map pair_parts pairs.now) }
    ensures loops { IfOk result (IsSlice sections.now z) }
    // No slice at a height that is outside, or that of a section.
    ensures between { IfOk result (λ _. (fault : Fault) → IsHeightFault sections.now z fault → ⊥) }
    // The count rises by the number of the gap's pairs.
    ensures counted { IfOk result (λ s.
        P.solved_pairs solver.new ≡ raised_by (length s.loops.items) (P.solved_pairs solver.old)) }
    ensures not_less { P.solved_pairs solver.old ≤ P.solved_pairs solver.new }
    // The count rises at most by the number of the gap's pairs, for any result; and not at all if there is no gap.
    ensures not_more { (g : ℕ) → IsGapAt sections.now z g
        → P.solved_pairs solver.new ≤ P.solved_pairs solver.old + length (pairs_in_gap g (map pair_parts pairs.now)) }
    ensures unsolved { (fault : Fault) → IsHeightFault sections.now z fault
        → P.solved_pairs solver.new ≡ P.solved_pairs solver.old }
    // A fault leaves the count, except `NoMemory`.
    ensures uncounted { IfErr result (OrNoMemory (λ _. P.solved_pairs solver.new ≡ P.solved_pairs solver.old)) }
    ensures same_workers { P.worker_count solver.new ≡ P.worker_count solver.old }
    ensures fault { IfErr result (OrNoMemory (IsHeightFault sections.now z)) }
    // `NoMemory` comes only if there is a gap around the height.
    ensures memory { IfErr result (λ e.
        e ≡ variants.NoMemory → (fault : Fault) → IsHeightFault sections.now z fault → ⊥) }
{
    let gap = gap_at(sections, z)?;
    let strips = gap_strips(alloc, pairs, gap.index)?;
    let solved = solver.solve_each(alloc, &strips)?;
    let loops = all_loops(alloc, &strips, &solved, gap.den, gap.part)?;
    Ok(SliceLoops {
        den: gap.den as i32,
        loops,
    })
}

/// The slice of the surface of sections at a height `z`, a coordinate. Between the heights z0 < z < z1 of two
/// neighbouring sections the denominator is z1 - z0, and each pair of their gap gives one loop, in the order of the
/// pairs: from the tiling's start on, the point where each span of its chosen tiling passes the height, one for each
/// letter of its word. `Ok` raises the solver's count by the number of the gap's pairs, up to the counter's last value;
/// `NoMemory` by at most that; no other fault raises it. The number of workers stays.
///
/// The fault is the first one that `pairs` finds in the sections; else `Outside` if the height is below the first
/// section or above the last one; else `OnSection` if it is the height of a section. `NoMemory` comes only if the
/// contours are simple and apart.
pub fn slice<P: PairSolver>(
    alloc: Global,
    sections: &Sections,
    solver: &mut P,
    z: i32,
) -> Result<SliceLoops, Fault>
    requires in_range { IsCoordinate z }
    ensures loops { IfOk result (IsSlice sections.now z) }
    // No slice at a height that is outside, or that of a section.
    ensures between { IfOk result (λ _. (fault : Fault) → IsHeightFault sections.now z fault → ⊥) }
    // The count rises by the number of the gap's pairs.
    ensures counted { IfOk result (λ s.
        P.solved_pairs solver.new ≡ raised_by (length s.loops.items) (P.solved_pairs solver.old)) }
    ensures not_less { P.solved_pairs solver.old ≤ P.solved_pairs solver.new }
    // The count rises at most by the number of the gap's pairs, for any result; and not at all if there is no slice.
    ensures not_more { (g : ℕ) (ps : List PairParts) → IsGapAt sections.now z g
        → ArePairs sections.now ps
        → P.solved_pairs solver.new ≤ P.solved_pairs solver.old + length (pairs_in_gap g ps) }
    ensures unsolved { (fault : Fault) → IsSliceFault sections.now z fault
        → P.solved_pairs solver.new ≡ P.solved_pairs solver.old }
    // A fault leaves the count, except `NoMemory`.
    ensures uncounted { IfErr result (OrNoMemory (λ _. P.solved_pairs solver.new ≡ P.solved_pairs solver.old)) }
    ensures same_workers { P.worker_count solver.new ≡ P.worker_count solver.old }
    ensures fault { IfErr result (OrNoMemory (IsSliceFault sections.now z)) }
    ensures memory { IfErr result (IsLateMemory sections.now) }
{
    let found = solver.find_pairs(alloc, sections)?;
    slice_pairs(alloc, sections, &found, solver, z)
}
