//! Dense gaps: those that are high enough and whose pairs have one contour on each side.
ghost use Rattle.std.specs.Prelude.{◌≡◌, ◌+◌, ◌<◌, ◌≤◌, ◌||◌, not, All, IfOk, length, map};
ghost use Rattle.std.specs.List.{list_any, list_all};
ghost use Rattle.section_pairs.specs.Pairs.{pair_parts};
ghost use Rattle.pair_pool.specs.Solvers.{referents};
ghost use Rattle.surface_core.specs.Surfaces.{strips_in};
ghost use Rattle.section_slices.specs.Densified.{rise, is_in, is_single, are_single, is_dense, dense_pairs};
ghost use Rattle.section_slices.specs.Marks.{dense_gaps};

use fku_types::NoMemory;
use fku_types::limits::MAX_DIFFERENCE;
use section_core::Sections;
use section_pairs::GapPair;
use std::alloc::Global;
use strip_graph::Pair;

/// The difference of the two heights of a gap.
pub fn rise(sections: &Sections, gap: u32) -> u32
    requires { gap + 1 < length sections.now.sections }
    ensures value { result ≡ rise sections.now gap }
    ensures range { result ≤ MAX_DIFFERENCE }
{
    let all = sections.sections();
    all[gap as usize + 1].z.abs_diff(all[gap as usize].z)
}

fn is_in(pair: &GapPair, gap: u32) -> bool
    ensures { result ≡ is_in gap (pair_parts pair.now) }
{
    pair.gap == gap
}

fn is_single(pair: &GapPair) -> bool
    ensures { result ≡ is_single (pair_parts pair.now) }
{
    pair.below.len() == 1 && pair.above.len() == 1
}

fn has_pair(pairs: &[GapPair], gap: u32) -> bool
    ensures { result ≡ list_any (λ p. is_in gap (pair_parts p)) pairs.now }
{
    pairs.iter().any(|p| is_in(p, gap))
}

// Whether each pair of a gap has one contour below and one above.
fn all_single(pairs: &[GapPair], gap: u32) -> bool
    ensures { result ≡ list_all (λ p. not (is_in gap (pair_parts p)) || is_single (pair_parts p)) pairs.now }
{
    pairs.iter().all(|p| !is_in(p, gap) || is_single(p))
}

fn are_single(pairs: &[GapPair], gap: u32) -> bool
    ensures { result ≡ are_single (map pair_parts pairs.now) gap }
{
    has_pair(pairs, gap) && all_single(pairs, gap)
}

fn is_dense(sections: &Sections, pairs: &[GapPair], gap: u32) -> bool
    requires gap { gap < length sections.now.sections }
    requires gaps { All (λ p. p.gap + 1 < length sections.now.sections) pairs.now }
    ensures { result ≡ is_dense sections.now (map pair_parts pairs.now) gap }
{
    if sections.sections().len() <= gap as usize + 1 {
        return false;
    }
    2 <= rise(sections, gap) && are_single(pairs, gap)
}

/// For each section, whether the gap above it is dense; or `NoMemory`.
pub fn dense_gaps(
    alloc: Global,
    sections: &Sections,
    pairs: &[GapPair],
) -> Result<Vec<bool>, NoMemory>
    requires { All (λ p. p.gap + 1 < length sections.now.sections) pairs.now }
    ensures { IfOk result (λ v. v.items ≡ dense_gaps sections.now (map pair_parts pairs.now)) }
{
    let count = sections.sections().len();
    let mut dense = Vec::with_capacity(alloc, count)?;
    for gap in 0..count {
        dense.push(is_dense(sections, pairs, gap as u32))?;
    }
    Ok(dense)
}

/// The strips of the pairs of dense gaps, in order; or `NoMemory`.
pub fn dense_strips<'a>(
    alloc: Global,
    sections: &Sections,
    pairs: &'a [GapPair],
    dense: &[bool],
) -> Result<Vec<&'a Pair>, NoMemory>
    requires gaps { All (λ p. p.gap + 1 < length sections.now.sections) pairs.now }
    requires dense { dense.now ≡ dense_gaps sections.now (map pair_parts pairs.now) }
    ensures { IfOk result (λ v. referents v.items ≡ strips_in (dense_pairs sections.now (map pair_parts pairs.now))) }
{
    let mut strips = Vec::new(alloc);
    for pair in pairs {
        if dense[pair.gap as usize] {
            strips.push(&pair.pair)?;
        }
    }
    Ok(strips)
}
