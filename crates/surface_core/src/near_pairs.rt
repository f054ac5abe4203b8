//! The pairs at a section, among the pairs of all gaps.
ghost use Rattle.std.specs.Prelude.{◌≡◌, ℕ, ◌<◌, ◌≤◌, ◌++◌, All, IfOk, OnOk, length, map, slice_index_or};
ghost use Rattle.std.specs.List.Sorted.{IsNonDecreasingBy};
ghost use Rattle.pair_pool.specs.Solvers.{SolvesEach};
ghost use Rattle.section_pairs.specs.declared.gap_pairs.GapPair.{GapPair as HeldPair};
ghost use Rattle.section_pairs.specs.Pairs.{pair_parts};
ghost use Rattle.surface_core.specs.Surfaces.{joined_on, strip_triangles, strips_in};
ghost use Rattle.surface_core.specs.Marks.{AreSetAt};

use crate::assembly::add_strips;
use crate::assembly_marks::marks_on;
use fku_types::NoMemory;
use ring_polygons::Face;
use row_paths::Solved;
use section_pairs::GapPair;
use std::alloc::Global;

// How many pairs lie in gaps below one.
fn pairs_below(pairs: &[GapPair], gap: u64) -> usize
    requires sorted { IsNonDecreasingBy (λ (p : HeldPair). p.gap) pairs.now }
    ensures within { result ≤ length pairs.now }
    ensures below { (k : ℕ) (d : HeldPair) → k < result → (slice_index_or pairs.now k d).gap < gap }
    ensures others { (k : ℕ) (d : HeldPair) → result ≤ k → k < length pairs.now
        → gap ≤ (slice_index_or pairs.now k d).gap }
{
    pairs.partition_point(|pair| u64::from(pair.gap) < gap)
}

// The places of the pairs of some gaps: where they begin, and where they end.
fn places(pairs: &[GapPair], first: u64, end: u64) -> (usize, usize)
    requires sorted { IsNonDecreasingBy (λ (p : HeldPair). p.gap) pairs.now }
    requires order { first ≤ end }
    ensures order { result.0 ≤ result.1 }
    ensures within { result.1 ≤ length pairs.now }
    ensures before { (k : ℕ) (d : HeldPair) → k < result.0 → (slice_index_or pairs.now k d).gap < first }
    ensures after { (k : ℕ) (d : HeldPair) → result.1 ≤ k → k < length pairs.now
        → end ≤ (slice_index_or pairs.now k d).gap }
{
    (pairs_below(pairs, first), pairs_below(pairs, end))
}

/// The result of `marks_on`, for pairs in the order of their gaps. It looks only at those of the gaps below and above
/// the section: all pairs, for each section of a tall stack, would take long.
pub fn marks_near(
    alloc: Global,
    pairs: &[GapPair],
    section: u32,
    face: Face,
    count: usize,
) -> Result<Vec<bool>, NoMemory>
    requires sorted { IsNonDecreasingBy (λ (p : HeldPair). p.gap) pairs.now }
    requires joined { All (λ k. k < count) (joined_on face (map pair_parts pairs.now) section) }
    ensures { IfOk result (λ v. AreSetAt v.items count (joined_on face (map pair_parts pairs.now) section)) }
{
    let number = u64::from(section);
    let (begin, end) = places(pairs, number.saturating_sub(1), number + 1);
    marks_on(alloc, &pairs[begin..end], section, face, count)
}

/// The result of `add_strips`, for pairs in the order of their gaps. It looks only at those of the gap.
pub fn add_strips_near(
    pairs: &[GapPair],
    solved: &[Solved],
    gap: u32,
    triangles: &mut Vec<[u32; 3]>,
) -> Result<(), NoMemory>
    requires sorted { IsNonDecreasingBy (λ (p : HeldPair). p.gap) pairs.now }
    requires solved { SolvesEach (strips_in (map pair_parts pairs.now)) solved.now }
    ensures { OnOk result
        (triangles.new.items ≡ triangles.old.items ++ strip_triangles gap (map pair_parts pairs.now) solved.now) }
{
    let (begin, end) = places(pairs, u64::from(gap), u64::from(gap) + 1);
    add_strips(&pairs[begin..end], &solved[begin..end], gap, triangles)
}
