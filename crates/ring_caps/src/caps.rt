//! The caps of the groups of sections.
ghost use Rattle.std.specs.Prelude.{◌≡◌, ◌+◌, ◌*◌, ◌<◌, ◌≤◌, ◌++◌, ◌∷◌, [], All, IfOk, IfErr, OnOk, length, map, sum_by};
ghost use Rattle.std.specs.List.Sorted.{IsNonDecreasingBy};
ghost use Rattle.fku_types.specs.declared.fault.Fault.TheVariants as variants;
ghost use Rattle.plane_geom.specs.RingViews.{ring_views, IsContour};
ghost use Rattle.ring_polygons.specs.Composites.{composite};
ghost use Rattle.correspondence.specs.Contours.{AreOutlines, point_lists};
ghost use Rattle.section_pairs.specs.Rings.{AreSectionRings, pick};
ghost use Rattle.section_pairs.specs.declared.gap_pairs.GapPair.{GapPair as HeldPair};
ghost use Rattle.section_pairs.specs.Pairs.{pair_parts, IsShort};
ghost use Rattle.section_pairs.specs.SectionFaults.{ArePairs, IsFirstFault, OrNoMemory};
ghost use Rattle.ring_polygons.specs.declared.faces.Face.{Face};
ghost use Rattle.surface_core.specs.Surfaces.{joined_on};
ghost use Rattle.ring_caps.specs.GroupCaps.{group_cap, group_folded};
ghost use Rattle.ring_caps.specs.Groups.{parents};
ghost use Rattle.ring_caps.specs.RingSurfaces.{ring_tops, groups_folded, both_group_caps, both_folded, by_group, group_size, side_sizes, face_sizes, both_sizes, group_sizes, HasLongGroup};
ghost use Rattle.ring_caps.specs.Held.{lists, IsGroup, AreFaceCaps, AreGroupCaps};

use crate::group_caps::cap_group;
use crate::groups::{groups, parents};
use fku_types::limits::{MAX_COMPOSITE_VERTICES, MAX_CONTOURS, MAX_SECTION_VERTICES, MAX_SECTIONS};
use fku_types::{Fault, NoMemory};
use plane_geom::Ring;
use ring_polygons::{CapList, ComposeFault, Face, turn_to};
use section_core::{Section, Sections};
use section_pairs::{GapPair, all_rings, picked};
use std::alloc::Global;
use surface_core::{CapRule, append, marks_near};

/// One cap for each group of contours that end together.
pub struct ByGroup {}

impl CapRule for ByGroup {
    ghost capping = { by_group };
}

// The cap of some rings of a section, which is counted from 0; or the fault that they are too long.
fn capped(alloc: Global, rings: Vec<Ring>, section: u32) -> Result<CapList, Fault>
    requires some { 0 < length rings.items }
    requires contours { All IsContour rings.items }
    requires few { sum_by (λ r. length r.points.items) rings.items ≤ MAX_SECTION_VERTICES }
    requires section { section < MAX_SECTIONS }
    ensures triangles { IfOk result (λ l. l.triangles.items ≡ group_cap (ring_views rings.items)) }
    ensures folded { IfOk result (λ l. l.folded ≡ group_folded (ring_views rings.items)) }
    ensures small { IfOk result (λ l. l.folded ≤ MAX_COMPOSITE_VERTICES) }
    ensures short { IfOk result (λ _. length (composite (ring_views rings.items)).points ≤ MAX_COMPOSITE_VERTICES) }
    ensures fault { IfErr result
        (OrNoMemory (HasLongGroup (section + 1, length (composite (ring_views rings.items)).points))) }
    ensures memory { IfErr result (λ f.
        f ≡ variants.NoMemory → length (composite (ring_views rings.items)).points ≤ MAX_COMPOSITE_VERTICES) }
{
    match cap_group(alloc, rings) {
        Ok(list) => Ok(list),
        Err(ComposeFault::TooLong { count }) => Err(Fault::CapLimit {
            section: section + 1,
            count,
        }),
        Err(ComposeFault::NoMemory) => Err(Fault::NoMemory),
    }
}

// The cap of a group of rings of a section, which is counted from 0; or the fault that it is too long.
fn group_cap(alloc: Global, rings: &[Ring], places: &[u32], section: u32) -> Result<CapList, Fault>
    requires rings { All IsContour rings.now }
    requires group { IsGroup (ring_views rings.now) places.now }
    requires section { section < MAX_SECTIONS }
    ensures triangles { IfOk result (λ l. l.triangles.items ≡ group_cap (pick (ring_views rings.now) places.now)) }
    ensures folded { IfOk result (λ l. l.folded ≡ group_folded (pick (ring_views rings.now) places.now)) }
    ensures small { IfOk result (λ l. l.folded ≤ MAX_COMPOSITE_VERTICES) }
    ensures short { IfOk result (λ _. IsShort (group_size section (ring_views rings.now) places.now)) }
    ensures fault { IfErr result (OrNoMemory (HasLongGroup (group_size section (ring_views rings.now) places.now))) }
{
    let group = picked(alloc, rings, places)?;
    capped(alloc, group, section)
}

// The caps of some groups of rings of a section; or the fault of the first group that is too long.
fn side_caps(
    alloc: Global,
    rings: &[Ring],
    groups: &[Vec<u32>],
    section: u32,
) -> Result<CapList, Fault>
    requires rings { All IsContour rings.now }
    requires groups { All (IsGroup (ring_views rings.now)) (lists groups.now) }
    requires few { length groups.now ≤ MAX_CONTOURS }
    requires section { section < MAX_SECTIONS }
    ensures triangles { IfOk result (λ l. l.triangles.items ≡ ring_tops (ring_views rings.now) (lists groups.now)) }
    ensures folded { IfOk result (λ l. l.folded ≡ groups_folded (ring_views rings.now) (lists groups.now)) }
    ensures small { IfOk result (λ l. l.folded ≤ MAX_COMPOSITE_VERTICES * MAX_CONTOURS) }
    ensures short { IfOk result (λ _. All IsShort (side_sizes section (ring_views rings.now) (lists groups.now))) }
    ensures fault { IfErr result
        (OrNoMemory
        (IsFirstFault IsShort HasLongGroup (side_sizes section (ring_views rings.now) (lists groups.now)))) }
{
    let mut list = CapList {
        triangles: Vec::new(alloc),
        folded: 0,
    };
    for group in groups {
        let more = group_cap(alloc, rings, group, section)?;
        append(&mut list, &more)?;
    }
    Ok(list)
}

// The caps of the groups of a section on one of its faces; or the fault of the first group that is too long.
fn face_caps(
    alloc: Global,
    _section: &Section,
    rings: &[Ring],
    families: &[Option<usize>],
    pairs: &[GapPair],
    place: u32,
    face: Face,
) -> Result<CapList, Fault>
    requires rings { AreSectionRings rings.now }
    requires count { length rings.now ≡ length (point_lists _section.now) }
    requires families { families.now ≡ parents (point_lists _section.now) }
    requires place { place < MAX_SECTIONS }
    requires sorted { IsNonDecreasingBy (λ (p : HeldPair). p.gap) pairs.now }
    requires joined { All (λ k. k < length rings.now) (joined_on face (map pair_parts pairs.now) place) }
    ensures caps { IfOk result
        (AreFaceCaps face (point_lists _section.now) (ring_views rings.now) (map pair_parts pairs.now) place) }
    ensures small { IfOk result (λ l. l.folded ≤ MAX_COMPOSITE_VERTICES * MAX_CONTOURS) }
    ensures short { IfOk result (λ _.
        All IsShort
        (face_sizes face place (point_lists _section.now) (ring_views rings.now) (map pair_parts pairs.now))) }
    ensures fault { IfErr result
        (OrNoMemory
        (IsFirstFault IsShort HasLongGroup
        (face_sizes face place (point_lists _section.now) (ring_views rings.now)
        (map pair_parts pairs.now)))) }
{
    let joined = marks_near(alloc, pairs, place, face, rings.len())?;
    let held = groups(alloc, families, &joined)?;
    let mut list = side_caps(alloc, rings, &held, place)?;
    turn_to(&mut list.triangles, face);
    Ok(list)
}

/// The caps of the groups of a section, which is counted from 0: of those below, turned over as bottoms, then of those
/// above. The fault is that of the first group that is too long, those below first; or `NoMemory`.
pub fn section_caps(
    alloc: Global,
    section: &Section,
    rings: &[Ring],
    pairs: &[GapPair],
    place: u32,
) -> Result<CapList, Fault>
    requires outlines { AreOutlines section.now.contours.items }
    requires rings { AreSectionRings rings.now }
    requires count { length rings.now ≡ length (point_lists section.now) }
    requires place { place < MAX_SECTIONS }
    requires sorted { IsNonDecreasingBy (λ (p : HeldPair). p.gap) pairs.now }
    requires joined { (face : Face) → All (λ k. k < length rings.now)
        (joined_on face (map pair_parts pairs.now) place) }
    ensures triangles { IfOk result (λ l.
        l.triangles.items
        ≡ both_group_caps (point_lists section.now) (ring_views rings.now) (map pair_parts pairs.now) place) }
    ensures folded { IfOk result (λ l.
        l.folded ≡ both_folded (point_lists section.now) (ring_views rings.now) (map pair_parts pairs.now) place) }
    ensures short { IfOk result (λ _.
        All IsShort (both_sizes place (point_lists section.now) (ring_views rings.now) (map pair_parts pairs.now))) }
    ensures fault { IfErr result
        (OrNoMemory
        (IsFirstFault IsShort HasLongGroup
        (both_sizes place (point_lists section.now) (ring_views rings.now) (map pair_parts pairs.now)))) }
{
    let families = parents(alloc, section)?;
    let mut list = face_caps(alloc, section, rings, &families, pairs, place, Face::Below)?;
    let tops = face_caps(alloc, section, rings, &families, pairs, place, Face::Above)?;
    append(&mut list, &tops)?;
    Ok(list)
}

fn add_caps(caps: &mut Vec<CapList>, more: CapList) -> Result<(), NoMemory>
    ensures { OnOk result (caps.new.items ≡ caps.old.items ++ more ∷ []) }
{
    caps.push(more)?;
    Ok(())
}

/// The caps of the groups of all sections; or the fault of the first group that is too long: by section, those below
/// before those above, in group order; or `NoMemory`.
pub fn all_caps(
    alloc: Global,
    sections: &Sections,
    pairs: &[GapPair],
) -> Result<Vec<CapList>, Fault>
    requires pairs { ArePairs sections.now (map pair_parts pairs.now) }
    ensures caps { IfOk result (λ v. AreGroupCaps sections.now (map pair_parts pairs.now) v.items) }
    ensures short { IfOk result (λ _. All IsShort (group_sizes sections.now (map pair_parts pairs.now))) }
    ensures fault { IfErr result
        (OrNoMemory (IsFirstFault IsShort HasLongGroup (group_sizes sections.now (map pair_parts pairs.now)))) }
{
    let rings = all_rings(alloc, sections)?;
    let mut caps = Vec::new(alloc);
    let all = sections.sections();
    for place in 0..all.len() {
        let more = section_caps(alloc, &all[place], &rings[place], pairs, place as u32)?;
        add_caps(&mut caps, more)?;
    }
    Ok(caps)
}
