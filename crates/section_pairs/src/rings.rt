//! The rings of sections, and the composites of some of them.

ghost use Rattle.std.specs.Prelude.{◌≡◌, ◌+◌, ◌<◌, ◌≤◌, All, IfOk, IfErr, length, sum_by};
ghost use Rattle.std.specs.List.{AllByRecursion};
ghost use Rattle.plane_geom.specs.Rings.{IsRing};
ghost use Rattle.plane_geom.specs.RingViews.{ring_view, ring_views, IsContour};
ghost use Rattle.correspondence.specs.Contours.{points_of};
ghost use Rattle.section_pairs.specs.Rings.{pick, composite_at, first_vertex, rings_at, AreSectionRings, ArePicked, AreRingsOf};
ghost use Rattle.section_pairs.specs.SectionFaults.{HasLongSide, OrNoMemory, IsComposeFault};
ghost use Rattle.ring_polygons.specs.Composites.{composite};

use correspondence::oriented;
use fku_types::limits::{MAX_SECTION_VERTICES, MAX_VERTICES};
use fku_types::{Fault, NoMemory};
use plane_geom::Ring;
use ring_polygons::{ComposeFault, compose};
use section_core::{Section, Sections};
use std::alloc::Global;

/// The number of a section's vertices.
pub fn count_vertices(section: &Section) -> u32
    requires { sum_by (λ c. length (points_of c)) section.now.contours.items ≤ MAX_SECTION_VERTICES }
    ensures { result ≡ sum_by (λ c. length (points_of c)) section.now.contours.items }
{
    let mut count: u32 = 0;
    for contour in &section.contours {
        count += contour.points.len() as u32;
    }
    count
}

/// The number of vertices of the section at a place; 0 past the last.
pub fn vertices_at(sections: &Sections, place: usize) -> u32
    ensures next { first_vertex sections.now (place + 1) ≡ first_vertex sections.now place + result }
    ensures few { first_vertex sections.now place + result ≤ MAX_VERTICES }
{
    let all = sections.sections();
    if place < all.len() {
        count_vertices(&all[place])
    } else {
        0
    }
}

/// The number of the first vertex of the section at a place.
pub fn first_id(sections: &Sections, place: usize) -> u32
    requires { place ≤ length sections.now.sections }
    ensures { result ≡ first_vertex sections.now place }
{
    let mut first = 0;
    for below in 0..place {
        first += vertices_at(sections, below);
    }
    first
}

/// The rings of a section, whose first vertex has the number `first_id`; or `NoMemory`.
pub fn section_rings(
    alloc: Global,
    sections: &Sections,
    place: usize,
    first_id: u32,
) -> Result<Vec<Ring>, NoMemory>
    requires there { place < length sections.now.sections }
    requires first { first_id ≡ first_vertex sections.now place }
    ensures rings { IfOk result (λ v. ring_views v.items ≡ rings_at sections.now place) }
    ensures limits { IfOk result (λ v. AreSectionRings v.items) }
{
    let section = &sections.sections()[place];
    oriented(alloc, section, first_id)
}

/// The rings of each section, with vertices numbered in file order; or `NoMemory`.
pub fn all_rings(alloc: Global, sections: &Sections) -> Result<Vec<Vec<Ring>>, NoMemory>
    ensures { IfOk result (λ v. AreRingsOf sections.now v.items) }
{
    let mut rings = Vec::new(alloc);
    let mut first_id: u32 = 0;
    let all = sections.sections();
    for section in all {
        rings.push(oriented(alloc, section, first_id)?)?;
        first_id += count_vertices(section);
    }
    Ok(rings)
}

/// Equal rings to those at some places of a section; or `NoMemory`.
pub fn picked(alloc: Global, rings: &[Ring], places: &[u32]) -> Result<Vec<Ring>, NoMemory>
    requires rings { All IsContour rings.now }
    requires places { AllByRecursion (λ k. k < length rings.now) places.now }
    ensures views { IfOk result (λ v. ring_views v.items ≡ pick (ring_views rings.now) places.now) }
    ensures contours { IfOk result (λ v. All IsContour v.items) }
{
    let mut picked = Vec::new(alloc);
    for place in places {
        let copy = rings[*place as usize].copy(alloc)?;
        picked.push(copy)?;
    }
    Ok(picked)
}

// The composite of some rings of a section; or the fault that it is too long. `NoMemory` comes only if it is not.
fn composed(alloc: Global, rings: Vec<Ring>, section: u32) -> Result<Ring, Fault>
    requires some { 0 < length rings.items }
    requires contours { All IsContour rings.items }
    requires few { sum_by (λ r. length r.points.items) rings.items ≤ MAX_SECTION_VERTICES }
    ensures value { IfOk result (λ r. ring_view r ≡ composite (ring_views rings.items)) }
    ensures ring { IfOk result (λ r. IsRing r.points.items) }
    ensures fault { IfErr result (IsComposeFault (section, length (composite (ring_views rings.items)).points)) }
{
    match compose(alloc, rings) {
        Ok(ring) => Ok(ring),
        Err(ComposeFault::TooLong { count }) => Err(Fault::Composite { section, count }),
        Err(ComposeFault::NoMemory) => Err(Fault::NoMemory),
    }
}

/// The composite of the rings at some places of a section, which is counted from 1; or the fault that it is too long;
/// or `NoMemory`.
pub fn composite_at(
    alloc: Global,
    rings: &[Ring],
    places: &[u32],
    section: u32,
) -> Result<Ring, Fault>
    requires rings { AreSectionRings rings.now }
    requires places { ArePicked (length rings.now) places.now }
    ensures value { IfOk result (λ r. ring_view r ≡ composite_at (ring_views rings.now) places.now) }
    ensures ring { IfOk result (λ r. IsRing r.points.items) }
    ensures fault { IfErr result
        (OrNoMemory (HasLongSide (section, length (composite_at (ring_views rings.now) places.now).points))) }
{
    let picked = picked(alloc, rings, places)?;
    composed(alloc, picked, section)
}
