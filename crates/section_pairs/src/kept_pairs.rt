//! The pairs of sections, if those of other sections are known.
ghost use Rattle.std.specs.Prelude.{◌≡◌, ◌+◌, ◌-◌, ◌<◌, ◌≤◌, ℕ, true, false, All, IfOk, IfErr, length, map, slice_index_or};
ghost use Rattle.strip_graph.specs.Strips.{IsStrip};
ghost use Rattle.correspondence.specs.Named.{IsLinkTableOf};
ghost use Rattle.section_pairs.specs.declared.gap_pairs.GapPair.{GapPair as HeldPair};
ghost use Rattle.section_pairs.specs.Rings.{first_vertex};
ghost use Rattle.section_pairs.specs.Pairs.{pair_parts};
ghost use Rattle.section_pairs.specs.Ranges.{IsGapResult};
ghost use Rattle.section_pairs.specs.SectionFaults.{IsPairsFault, IsLateMemory, ArePairs};
ghost use Rattle.section_pairs.specs.Unchanged.{IsSameGap, AreShifts, AreGapPairs};

use crate::faults::test_sections_after;
use crate::gap_pairs::{GapPair, linked, pairs_in};
use crate::moved_pairs::{Shift, moved_pairs};
use crate::ranges::joined;
use crate::rings::vertices_at;
use crate::unchanged::{is_marked, same_gaps};
use correspondence::LinkTable;
use fku_types::Fault;
use fku_types::limits::MAX_PAIRS;
use section_core::Sections;
use std::alloc::Global;

// The end of the pairs of a gap that begin at a place.
fn run_end(pairs: &[GapPair], begin: usize, gap: u32) -> usize
    requires { begin ≤ length pairs.now }
    ensures begin { begin ≤ result }
    ensures end { result ≤ length pairs.now }
    ensures run { (k : ℕ) (d : HeldPair) → begin ≤ k → k < result → (slice_index_or pairs.now k d).gap ≡ gap }
    ensures stop { (d : HeldPair) → result < length pairs.now → (slice_index_or pairs.now result d).gap ≡ gap → ⊥ }
{
    for place in begin..pairs.len() {
        if pairs[place].gap != gap {
            return place;
        }
    }
    pairs.len()
}

// The pairs of a gap: the known pairs with their new vertex numbers, if the gap is the same.
fn gap_pairs(
    alloc: Global,
    old: &Sections,
    known: &[GapPair],
    sections: &Sections,
    table: &LinkTable,
    gap: usize,
    same: bool,
    low: Shift,
    high: Shift,
) -> Result<Vec<GapPair>, Fault>
    requires table { IsLinkTableOf table.now sections.now.links }
    requires same { same ≡ true → IsSameGap old.now sections.now gap }
    requires there { gap + 1 < length sections.now.sections }
    requires known { gap + 1 < length old.now.sections → AreGapPairs old.now gap (map pair_parts known.now) }
    requires shifts { AreShifts old.now sections.now gap low high }
    ensures { IsGapResult sections.now gap (gap + 1) result }
{
    let _all = sections.sections();
    if same {
        Ok(moved_pairs(alloc, known, low, high)?)
    } else {
        pairs_in(alloc, sections, table, gap, gap + 1, low.to)
    }
}

// The numbers of the first vertices of the next section.
fn next_shift(old: &Sections, sections: &Sections, place: usize, shift: Shift) -> Shift
    requires from { shift.from ≡ first_vertex old.now place }
    requires to { shift.to ≡ first_vertex sections.now place }
    ensures from { result.from ≡ first_vertex old.now (place + 1) }
    ensures to { result.to ≡ first_vertex sections.now (place + 1) }
{
    Shift {
        from: shift.from + vertices_at(old, place),
        to: shift.to + vertices_at(sections, place),
    }
}

// The pairs of all gaps; or the fault of the first composite that is too long; or `NoMemory`.
fn all_gap_pairs(
    alloc: Global,
    old: &Sections,
    old_pairs: &[GapPair],
    sections: &Sections,
    same: &[bool],
) -> Result<Vec<GapPair>, Fault>
    requires old { ArePairs old.now (map pair_parts old_pairs.now) }
    requires same { (k : ℕ) → slice_index_or same.now k false ≡ true → IsSameGap old.now sections.now k }
    ensures { IsGapResult sections.now 0 (length sections.now.sections - 1) result }
{
    let table = LinkTable::of(alloc, sections)?;
    let count = sections.sections().len();
    let mut found = Ok(Vec::new(alloc));
    let mut begin = 0;
    let mut low = Shift { from: 0, to: 0 };
    for gap in 0..count - 1 {
        let end = run_end(old_pairs, begin, gap as u32);
        let known = &old_pairs[begin..end];
        let high = next_shift(old, sections, gap, low);
        let mark = is_marked(same, gap);
        let more = gap_pairs(alloc, old, known, sections, &table, gap, mark, low, high);
        found = joined(found, more);
        begin = end;
        low = high;
    }
    found
}

// The same, with the marks of the gaps that are the same.
fn all_pairs_after(
    alloc: Global,
    old: &Sections,
    old_pairs: &[GapPair],
    sections: &Sections,
) -> Result<Vec<GapPair>, Fault>
    requires old { ArePairs old.now (map pair_parts old_pairs.now) }
    ensures { IsGapResult sections.now 0 (length sections.now.sections - 1) result }
{
    let same = same_gaps(alloc, old, sections)?;
    all_gap_pairs(alloc, old, old_pairs, sections, &same)
}

/// The result of `pairs`, if other sections are known with their pairs. To save time it does not test again a section
/// that both have at the same place; and for a gap with the same contours in both, under the same rules and links, it
/// takes the known pairs with the numbers that their vertices have now. No clause states this saving.
pub fn pairs_after(
    alloc: Global,
    old: &Sections,
    old_pairs: &[GapPair],
    sections: &Sections,
) -> Result<Vec<GapPair>, Fault>
    requires old { ArePairs old.now (map pair_parts old_pairs.now) }
    ensures pairs { IfOk result (λ v. ArePairs sections.now (map pair_parts v.items)) }
    ensures strips { IfOk result (λ v. All (λ p. IsStrip p.pair) v.items) }
    ensures gaps { IfOk result (λ v. All (λ p. p.gap + 1 < length sections.now.sections) v.items) }
    ensures few { IfOk result (λ v. length v.items ≤ MAX_PAIRS) }
    ensures fault { IfErr result (IsPairsFault sections.now) }
    ensures memory { IfErr result (IsLateMemory sections.now) }
{
    test_sections_after(old.sections(), sections)?;
    let found = all_pairs_after(alloc, old, old_pairs, sections);
    linked(alloc, sections, found)
}
