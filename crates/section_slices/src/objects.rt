//! Slices of the objects of a text at one height.
ghost use Rattle.std.specs.Prelude.{◌≡◌, ◌+◌, ◌≤◌, [], ℕ, All, IfOk, length, map, sum_by};
ghost use Rattle.std.specs.List.{AllZip, flat_map};
ghost use Rattle.pair_pool.specs.Solvers.{SolvesEach, raised_by, referents};
ghost use Rattle.section_pairs.specs.Pairs.{pair_parts};
ghost use Rattle.section_pairs.specs.SectionFaults.{ArePairs};
ghost use Rattle.surface_core.specs.Objects.{AreAllPairs, numbered, objects_in, pair_lists, sections_in};
ghost use Rattle.section_slices.specs.Slices.{AreStripsAt, IsCut, IsOnSection, loop_count};

use crate::slices::{SliceLoops, all_loops, gap_at, gap_strips};
use fku_types::NoMemory;
use pair_pool::PairSolver;
use row_paths::Solved;
use section_core::{Object, Objects, Sections};
use section_pairs::GapPair;
use std::alloc::Global;
use strip_graph::Pair;

// The strips of the pairs of the gap around a height, in order; none if there is no gap.
fn strips_at<'a>(
    alloc: Global,
    sections: &Sections,
    pairs: &'a [GapPair],
    z: i32,
) -> Result<Vec<&'a Pair>, NoMemory>
    requires { ArePairs sections.now (map pair_parts pairs.now) }
    ensures { IfOk result (λ v. AreStripsAt z sections.now (referents v.items)) }
{
    match gap_at(sections, z) {
        Ok(gap) => gap_strips(alloc, pairs, gap.index),
        Err(_) => Ok(Vec::new(alloc)),
    }
}

// The strips at a height of each of some objects.
fn strips_of_each<'a>(
    alloc: Global,
    items: &[Object],
    lists: &'a [Vec<GapPair>],
    z: i32,
) -> Result<Vec<Vec<&'a Pair>>, NoMemory>
    requires { AllZip ArePairs (sections_in items.now) (pair_lists lists.now) }
    ensures { IfOk result (λ v. AllZip (AreStripsAt z) (sections_in items.now) (map (λ w. referents w.items) v.items)) }
{
    let mut each = Vec::with_capacity(alloc, items.len())?;
    for place in 0..items.len() {
        each.push(strips_at(alloc, &items[place].sections, &lists[place], z)?)?;
    }
    Ok(each)
}

// The strips of all lists.
fn all_strips<'a>(alloc: Global, each: &[Vec<&'a Pair>]) -> Result<Vec<&'a Pair>, NoMemory>
    ensures { IfOk result (λ v. referents v.items ≡ flat_map (λ w. referents w.items) each.now) }
{
    let mut all = Vec::new(alloc);
    for strips in each {
        all.extend_from_slice(strips)?;
    }
    Ok(all)
}

// The slice of sections from the solutions of their strips at a height; none if the height is outside.
fn cut_at(
    alloc: Global,
    sections: &Sections,
    strips: &[&Pair],
    solved: &[Solved],
    z: i32,
) -> Result<Option<SliceLoops>, NoMemory>
    requires height { IsOnSection sections.now z → ⊥ }
    requires strips { AreStripsAt z sections.now (referents strips.now) }
    requires solved { SolvesEach (referents strips.now) solved.now }
    ensures cut { IfOk result (IsCut z sections.now) }
    ensures count { IfOk result (λ cut. loop_count cut ≡ length strips.now) }
{
    match gap_at(sections, z) {
        Ok(gap) => {
            let loops = all_loops(alloc, strips, solved, gap.den, gap.part)?;
            let den = gap.den as i32;
            Ok(Some(SliceLoops { den, loops }))
        }
        Err(_) => Ok(None),
    }
}

// The slices of some objects, from the solutions of their strips, which follow one another in one list.
fn cuts_of_each(
    alloc: Global,
    items: &[Object],
    each: &[Vec<&Pair>],
    solved: &[Solved],
    z: i32,
) -> Result<Vec<Option<SliceLoops>>, NoMemory>
    requires height { All (λ S. IsOnSection S z → ⊥) (sections_in items.now) }
    requires strips { AllZip (AreStripsAt z) (sections_in items.now) (map (λ w. referents w.items) each.now) }
    requires solved { SolvesEach (flat_map (λ w. referents w.items) each.now) solved.now }
    ensures cuts { IfOk result (λ v. AllZip (IsCut z) (sections_in items.now) v.items) }
    ensures count { IfOk result (λ v. sum_by loop_count v.items ≡ length solved.now) }
{
    let mut cuts = Vec::with_capacity(alloc, items.len())?;
    let mut rest = solved;
    for place in 0..items.len() {
        let strips = each[place].as_slice();
        let (here, others) = rest.split_at(strips.len());
        cuts.push(cut_at(alloc, &items[place].sections, strips, here, z)?)?;
        rest = others;
    }
    Ok(cuts)
}

/// The slice of each object at a height that is that of a section of none: as `slice_pairs` makes it, or none for an
/// object that the height is outside. `lists` are the pairs of each object, as `pairs_all` returns them. The pairs of
/// all gaps around the height go to the solver in one call. `Ok` raises its count by their number, which is that of the
/// loops, up to the counter's last value; `NoMemory` by at most the number of all pairs. The number of workers stays.
pub fn slice_all<P: PairSolver>(
    alloc: Global,
    objects: &Objects,
    lists: &[Vec<GapPair>],
    solver: &mut P,
    z: i32,
) -> Result<Vec<Option<SliceLoops>>, NoMemory>
    requires pairs { AreAllPairs objects.now (pair_lists lists.now) }
    requires height { All (λ S. IsOnSection S z → ⊥) (objects_in objects.now) }
    ensures cuts { IfOk result (λ v. AllZip (IsCut z) (objects_in objects.now) v.items) }
    ensures counted { IfOk result (λ v.
        P.solved_pairs solver.new ≡ raised_by (sum_by loop_count v.items) (P.solved_pairs solver.old)) }
    ensures not_less { P.solved_pairs solver.old ≤ P.solved_pairs solver.new }
    ensures not_more { P.solved_pairs solver.new
        ≤ P.solved_pairs solver.old + length (numbered (pair_lists lists.now)) }
    ensures same_workers { P.worker_count solver.new ≡ P.worker_count solver.old }
{
    let items = objects.items();
    let each = strips_of_each(alloc, items, lists, z)?;
    let all = all_strips(alloc, &each)?;
    let solved = solver.solve_each(alloc, &all)?;
    cuts_of_each(alloc, items, &each, &solved, z)
}
