//! Pairs of composite contours.

ghost use Rattle.std.specs.Prelude.{◌≡◌, ◌+◌, ◌-◌, ◌++◌, ◌∷◌, [], ◌<◌, ◌≤◌, All, IfOk, IfErr, OnOk, length, map};
ghost use Rattle.std.specs.List.{flat_map};
ghost use Rattle.fku_types.specs.Rules.{IsWeighted};
ghost use Rattle.plane_geom.specs.RingViews.{ring_views};
ghost use Rattle.strip_graph.specs.Strips.{IsStrip};
ghost use Rattle.correspondence.specs.Gaps.{members_of, AreGapComponents};
ghost use Rattle.correspondence.specs.Named.{IsLinkTableOf};
ghost use Rattle.section_core.specs.ValidSections.{section_of};
ghost use Rattle.section_pairs.specs.Rings.{first_vertex, rings_at, AreSectionRings, ArePicked};
ghost use Rattle.section_pairs.specs.Pairs.{pair_parts, pair_between, pair_of, sides_between, sides_of, IsShort};
ghost use Rattle.section_pairs.specs.Ranges.{IsGapResult};
ghost use Rattle.section_pairs.specs.SectionFaults.{IsFirstFault, HasLongSide, OrNoMemory, IsPairsFault, IsLateMemory, AreSound, ArePairs};

use crate::faults::test_sections;
use crate::ranges::joined;
use crate::rings::{composite_at, section_rings, vertices_at};
use correspondence::{Component, LinkTable, components, test_links};
use fku_types::limits::{MAX_PAIRS, MAX_SECTIONS};
use fku_types::{CostRule, Fault, NoMemory};
use plane_geom::Ring;
use section_core::Sections;
use std::alloc::{AllocError, Global};
use strip_graph::Pair;

/// A pair of composite contours: its gap, counted from 0, and the indices of its component's contours in the section
/// below the gap and in the section above it.
#[derive(Drop)]
pub struct GapPair {
    pub pair: Pair,
    pub gap: u32,
    pub below: Vec<u32>,
    pub above: Vec<u32>,
}

/// Equal places; or `AllocError`.
pub fn copied(alloc: Global, places: &[u32]) -> Result<Vec<u32>, AllocError>
    ensures { IfOk result (λ v. v.items ≡ places.now) }
{
    places.iter().copied().collect(alloc)
}

/// A pair with its gap and the indices of its component's contours; or `NoMemory`.
pub fn with_places(
    alloc: Global,
    pair: Pair,
    gap: u32,
    below: &[u32],
    above: &[u32],
) -> Result<GapPair, NoMemory>
    ensures pair { IfOk result (λ p. p.pair ≡ pair) }
    ensures gap { IfOk result (λ p. p.gap ≡ gap) }
    ensures below { IfOk result (λ p. p.below.items ≡ below.now) }
    ensures above { IfOk result (λ p. p.above.items ≡ above.now) }
{
    Ok(GapPair {
        pair,
        gap,
        below: copied(alloc, below)?,
        above: copied(alloc, above)?,
    })
}

// The pair of a component, between the rings below its gap and those above.
fn pair_between(
    alloc: Global,
    cost: CostRule,
    low: &[Ring],
    high: &[Ring],
    gap: u32,
    component: &Component,
) -> Result<GapPair, Fault>
    requires low { AreSectionRings low.now }
    requires high { AreSectionRings high.now }
    requires below { ArePicked (length low.now) component.now.below.items }
    requires above { ArePicked (length high.now) component.now.above.items }
    requires gap { gap < MAX_SECTIONS }
    requires cost { IsWeighted cost }
    ensures value { IfOk result (λ p.
        pair_parts p ≡ pair_between cost (ring_views low.now) (ring_views high.now) gap (members_of component.now)) }
    ensures strip { IfOk result (λ p. IsStrip p.pair) }
    ensures short { IfOk result (λ _.
        All IsShort (sides_between (ring_views low.now) (ring_views high.now) gap (members_of component.now))) }
    ensures fault { IfErr result
        (OrNoMemory
        (IsFirstFault IsShort HasLongSide
        (sides_between (ring_views low.now) (ring_views high.now) gap (members_of component.now)))) }
{
    let below = composite_at(alloc, low, &component.below, gap + 1)?;
    let above = composite_at(alloc, high, &component.above, gap + 2)?;
    let pair = Pair::make(below, above, cost);
    Ok(with_places(alloc, pair, gap, &component.below, &component.above)?)
}

/// Appends a pair to the others; or `NoMemory`.
pub fn add_pair(pairs: &mut Vec<GapPair>, pair: GapPair) -> Result<(), NoMemory>
    ensures { OnOk result (pairs.new.items ≡ pairs.old.items ++ pair ∷ []) }
{
    pairs.push(pair)?;
    Ok(())
}

/// The pairs of components of a gap, between the rings below it and those above; or the fault of the first composite
/// that is too long; or `NoMemory`.
pub fn component_pairs(
    alloc: Global,
    cost: CostRule,
    low: &[Ring],
    high: &[Ring],
    gap: u32,
    components: &[Component],
) -> Result<Vec<GapPair>, Fault>
    requires low { AreSectionRings low.now }
    requires high { AreSectionRings high.now }
    requires below { All (λ c. ArePicked (length low.now) c.below.items) components.now }
    requires above { All (λ c. ArePicked (length high.now) c.above.items) components.now }
    requires gap { gap < MAX_SECTIONS }
    requires cost { IsWeighted cost }
    ensures pairs { IfOk result (λ v.
        map pair_parts v.items
        ≡ map (pair_between cost (ring_views low.now) (ring_views high.now) gap) (map members_of components.now)) }
    ensures strips { IfOk result (λ v. All (λ p. IsStrip p.pair) v.items) }
    ensures short { IfOk result (λ _.
        All IsShort
        (flat_map (sides_between (ring_views low.now) (ring_views high.now) gap) (map members_of components.now))) }
    ensures fault { IfErr result
        (OrNoMemory
        (IsFirstFault IsShort HasLongSide
        (flat_map (sides_between (ring_views low.now) (ring_views high.now) gap)
        (map members_of components.now)))) }
{
    let mut pairs = Vec::new(alloc);
    for component in components {
        let pair = pair_between(alloc, cost, low, high, gap, component)?;
        add_pair(&mut pairs, pair)?;
    }
    Ok(pairs)
}

// The pairs of the components of a gap, between the rings below it and those above.
fn composed_between(
    alloc: Global,
    sections: &Sections,
    gap: usize,
    low: &[Ring],
    high: &[Ring],
    components: &[Component],
) -> Result<Vec<GapPair>, Fault>
    requires few { gap < MAX_SECTIONS }
    requires low { ring_views low.now ≡ rings_at sections.now gap }
    requires low_limits { AreSectionRings low.now }
    requires high { ring_views high.now ≡ rings_at sections.now (gap + 1) }
    requires high_limits { AreSectionRings high.now }
    requires members { AreGapComponents sections.now gap components.now }
    ensures pairs { IfOk result (λ v.
        map pair_parts v.items ≡ map (pair_of sections.now gap) (map members_of components.now)) }
    ensures strips { IfOk result (λ v. All (λ p. IsStrip p.pair) v.items) }
    ensures short { IfOk result (λ _.
        All IsShort (flat_map (sides_of sections.now gap) (map members_of components.now))) }
    ensures fault { IfErr result
        (OrNoMemory
        (IsFirstFault IsShort HasLongSide
        (flat_map (sides_of sections.now gap) (map members_of components.now)))) }
{
    component_pairs(alloc, sections.cost(), low, high, gap as u32, components)
}

// The pairs of a gap, between the rings below it and those above; or the fault of its first composite that is too long;
// or `NoMemory`.
fn composed_gap(
    alloc: Global,
    sections: &Sections,
    table: &LinkTable,
    gap: usize,
    low: &[Ring],
    high: &[Ring],
) -> Result<Vec<GapPair>, Fault>
    requires table { IsLinkTableOf table.now sections.now.links }
    requires there { gap + 1 < length sections.now.sections }
    requires low { ring_views low.now ≡ rings_at sections.now gap }
    requires low_limits { AreSectionRings low.now }
    requires high { ring_views high.now ≡ rings_at sections.now (gap + 1) }
    requires high_limits { AreSectionRings high.now }
    ensures { IsGapResult sections.now gap (gap + 1) result }
{
    let _all = sections.sections();
    let components = components(alloc, sections, table, gap as u32)?;
    composed_between(alloc, sections, gap, low, high, &components)
}

/// The pairs of the gaps from `begin` to before `end`, by gap and then by component; or the fault of the first of their
/// composites that is too long; or `NoMemory`. It reports no other fault of the sections. The table has the names of
/// the sections' links; `first_id` is the number of the first vertex of the section below the first gap.
pub fn pairs_in(
    alloc: Global,
    sections: &Sections,
    table: &LinkTable,
    begin: usize,
    end: usize,
    first_id: u32,
) -> Result<Vec<GapPair>, Fault>
    requires table { IsLinkTableOf table.now sections.now.links }
    requires order { begin ≤ end }
    requires there { end < length sections.now.sections }
    requires first { first_id ≡ first_vertex sections.now begin }
    ensures { IsGapResult sections.now begin end result }
{
    let _all = sections.sections();
    let mut found = Ok(Vec::new(alloc));
    let mut first = first_id;
    let mut low = section_rings(alloc, sections, begin, first)?;
    for gap in begin..end {
        first += vertices_at(sections, gap);
        let high = section_rings(alloc, sections, gap + 1, first)?;
        let more = composed_gap(alloc, sections, table, gap, &low, &high);
        found = joined(found, more);
        low = high;
    }
    found
}

// The pairs of all gaps; or the fault of the first composite that is too long; or `NoMemory`.
fn all_pairs(alloc: Global, sections: &Sections) -> Result<Vec<GapPair>, Fault>
    ensures { IsGapResult sections.now 0 (length sections.now.sections - 1) result }
{
    let table = LinkTable::of(alloc, sections)?;
    let count = sections.sections().len();
    pairs_in(alloc, sections, &table, 0, count - 1, 0)
}

/// The result of `pairs` for sections whose contours have no fault, from the result for all gaps: it tests the links.
pub fn linked(
    alloc: Global,
    sections: &Sections,
    found: Result<Vec<GapPair>, Fault>,
) -> Result<Vec<GapPair>, Fault>
    requires sound { AreSound (map section_of sections.now.sections) }
    requires found { IsGapResult sections.now 0 (length sections.now.sections - 1) found }
    ensures pairs { IfOk result (λ v. ArePairs sections.now (map pair_parts v.items)) }
    ensures strips { IfOk result (λ v. All (λ p. IsStrip p.pair) v.items) }
    ensures gaps { IfOk result (λ v. All (λ p. p.gap + 1 < length sections.now.sections) v.items) }
    ensures few { IfOk result (λ v. length v.items ≤ MAX_PAIRS) }
    ensures fault { IfErr result (IsPairsFault sections.now) }
{
    test_links(alloc, sections)?;
    let _all = sections.sections();
    found
}

/// The pairs of the composite contours of sections, by gap and then by component. Else the first fault of the sections:
/// of a contour that is not simple, of contours that are not apart, of a link, or of a composite of more than
/// `MAX_COMPOSITE_VERTICES` vertices, by gap, by component, and below before above. `NoMemory` comes only if contours
/// are simple and apart. `Ok` comes only for sections without a fault. A pair has at most `MAX_COMPOSITE_VERTICES`
/// vertices on each side.
pub fn pairs(alloc: Global, sections: &Sections) -> Result<Vec<GapPair>, Fault>
    ensures pairs { IfOk result (λ v. ArePairs sections.now (map pair_parts v.items)) }
    ensures strips { IfOk result (λ v. All (λ p. IsStrip p.pair) v.items) }
    ensures gaps { IfOk result (λ v. All (λ p. p.gap + 1 < length sections.now.sections) v.items) }
    ensures few { IfOk result (λ v. length v.items ≤ MAX_PAIRS) }
    ensures fault { IfErr result (IsPairsFault sections.now) }
    ensures memory { IfErr result (IsLateMemory sections.now) }
{
    test_sections(sections)?;
    let found = all_pairs(alloc, sections);
    linked(alloc, sections, found)
}
