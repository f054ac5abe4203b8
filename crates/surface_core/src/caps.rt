//! The caps of sections.
ghost use Rattle.std.specs.Prelude.{◌≡◌, ◌+◌, ◌*◌, ◌^◌, ◌<◌, ◌≤◌, ◌++◌, true, All, IfOk, IfErr, OnOk, length, map, sum_by};
ghost use Rattle.std.specs.List.Sorted.{IsNonDecreasingBy};
ghost use Rattle.plane_geom.specs.RingViews.{ring_view, ring_views, IsContour};
ghost use Rattle.ring_polygons.specs.declared.faces.Face.{Face};
ghost use Rattle.correspondence.specs.Contours.{point_lists, AreOutlines};
ghost use Rattle.correspondence.specs.Nesting.{oriented};
ghost use Rattle.section_core.specs.ValidSections.{vertices};
ghost use Rattle.section_pairs.specs.declared.gap_pairs.GapPair.{GapPair as HeldPair};
ghost use Rattle.section_pairs.specs.Pairs.{pair_parts};
ghost use Rattle.section_pairs.specs.SectionFaults.{ArePairs};
ghost use Rattle.surface_core.specs.Surfaces.{caps_on, folded_in, joined_on, folded_of, by_contour};
ghost use Rattle.surface_core.specs.Marks.{unmarked, kept};
ghost use Rattle.surface_core.specs.Caps.{both_caps, AreCaps};

use crate::assembly_marks::are_all_set;
use crate::near_pairs::marks_near;
use correspondence::oriented;
use fku_types::NoMemory;
use fku_types::limits::{MAX_CONTOUR_VERTICES, MAX_CONTOURS, MAX_VERTICES};
use plane_geom::Ring;
use ring_polygons::{CapList, Face, cap_on};
use section_core::{Section, Sections};
use section_pairs::{GapPair, count_vertices};
use std::alloc::Global;

/// Appends the triangles of a cap to those of others, and adds how many are folded; or `NoMemory`. The sum of both
/// numbers of folded triangles is below 2^32.
pub fn append(list: &mut CapList, more: &CapList) -> Result<(), NoMemory>
    requires { list.old.folded + more.now.folded < 2 ^ 32 }
    ensures triangles { OnOk result (list.new.triangles.items ≡ list.old.triangles.items ++ more.now.triangles.items) }
    ensures folded { OnOk result (list.new.folded ≡ list.old.folded + more.now.folded) }
{
    list.triangles.extend_from_slice(&more.triangles)?;
    list.folded += more.folded;
    Ok(())
}

// Adds the cap of a ring on a face, unless the ring is marked. Takes no memory if it is.
fn add_cap(
    alloc: Global,
    ring: &Ring,
    face: Face,
    marked: bool,
    list: &mut CapList,
) -> Result<(), NoMemory>
    requires contour { IsContour ring.now }
    requires folded { list.old.folded ≤ 2 * MAX_CONTOUR_VERTICES * MAX_CONTOURS }
    ensures sure { marked ≡ true → IfErr result (λ _. ⊥) }
    ensures triangles { OnOk result
        (list.new.triangles.items ≡ list.old.triangles.items ++ caps_on face (kept marked (ring_view ring.now))) }
    ensures folded { OnOk result (list.new.folded ≡ list.old.folded + folded_in (kept marked (ring_view ring.now))) }
    ensures small { OnOk result (list.new.folded ≤ list.old.folded + MAX_CONTOUR_VERTICES) }
{
    if marked {
        return Ok(());
    }
    let more = cap_on(alloc, ring, face)?;
    append(list, &more)?;
    Ok(())
}

// Adds the caps of the rings without a mark on a face.
fn add_caps(
    alloc: Global,
    rings: &[Ring],
    face: Face,
    marks: &[bool],
    list: &mut CapList,
) -> Result<(), NoMemory>
    requires contours { All IsContour rings.now }
    requires few { length rings.now ≤ MAX_CONTOURS }
    requires marks { length marks.now ≡ length rings.now }
    requires folded { list.old.folded ≤ MAX_CONTOUR_VERTICES * MAX_CONTOURS }
    ensures triangles { OnOk result
        (list.new.triangles.items
        ≡ list.old.triangles.items ++ caps_on face (unmarked (ring_views rings.now) marks.now)) }
    ensures folded { OnOk result
        (list.new.folded ≡ list.old.folded + folded_in (unmarked (ring_views rings.now) marks.now)) }
    ensures small { OnOk result (list.new.folded ≤ list.old.folded + MAX_CONTOUR_VERTICES * length rings.now) }
{
    for place in 0..rings.len() {
        add_cap(alloc, &rings[place], face, marks[place], list)?;
    }
    Ok(())
}

// The caps of a section, counted from 0: its bottom caps, then its top caps. It makes the section's rings, with ids
// from `first_id` on, only for caps: if each contour is in a pair on both faces, as in most sections, there are none.
fn section_caps(
    alloc: Global,
    section: &Section,
    pairs: &[GapPair],
    place: u32,
    first_id: u32,
) -> Result<CapList, NoMemory>
    requires outlines { AreOutlines section.now.contours.items }
    requires sorted { IsNonDecreasingBy (λ (p : HeldPair). p.gap) pairs.now }
    requires ids { first_id + sum_by vertices section.now.contours.items ≤ MAX_VERTICES }
    requires joined { (face : Face) → All (λ k. k < length section.now.contours.items)
        (joined_on face (map pair_parts pairs.now) place) }
    ensures triangles { IfOk result (λ l.
        l.triangles.items
        ≡ both_caps (oriented first_id (point_lists section.now)) (map pair_parts pairs.now) place) }
    ensures folded { IfOk result (λ l.
        l.folded ≡ folded_of (oriented first_id (point_lists section.now)) (map pair_parts pairs.now) place) }
{
    let mut list = CapList {
        triangles: Vec::new(alloc),
        folded: 0,
    };
    let count = section.contours.len();
    let below = marks_near(alloc, pairs, place, Face::Below, count)?;
    let above = marks_near(alloc, pairs, place, Face::Above, count)?;
    if are_all_set(&below) && are_all_set(&above) {
        return Ok(list);
    }
    let rings = oriented(alloc, section, first_id)?;
    add_caps(alloc, &rings, Face::Below, &below, &mut list)?;
    add_caps(alloc, &rings, Face::Above, &above, &mut list)?;
    Ok(list)
}

/// The caps of all sections, one for each contour and one list for each section: its bottom caps, then its top caps; or
/// `NoMemory`.
pub fn all_caps(
    alloc: Global,
    sections: &Sections,
    pairs: &[GapPair],
) -> Result<Vec<CapList>, NoMemory>
    requires { ArePairs sections.now (map pair_parts pairs.now) }
    ensures { IfOk result (λ v. AreCaps by_contour sections.now (map pair_parts pairs.now) v.items) }
{
    let all = sections.sections();
    let mut caps = Vec::with_capacity(alloc, all.len())?;
    let mut first_id: u32 = 0;
    for place in 0..all.len() {
        let section = &all[place];
        caps.push(section_caps(alloc, section, pairs, place as u32, first_id)?)?;
        first_id += count_vertices(section);
    }
    Ok(caps)
}
