//! The sections that an edit makes.
ghost use Rattle.std.specs.Prelude.{◌≡◌, ◌==◌, ◌^◌, ◌-◌, ◌≤◌, ◌<◌, true, false, min, pos, int_le, length, map, slice_set, None, Some, IfOk, IfErr, if◌then◌else◌};
ghost use Rattle.std.specs.List.{AllByRecursion, list_any, list_all, insert, remove};
ghost use Rattle.fku_types.specs.Names.{is_name};
ghost use Rattle.fku_types.specs.declared.fault.Fault.TheVariants as faults;
ghost use Rattle.section_core.specs.Flat.{AreFlat};
ghost use Rattle.section_core.specs.Finished.{ended_parts};
ghost use Rattle.section_core.specs.Laws.{IsSpot, section_vertices};
ghost use Rattle.section_core.specs.Views.{spot_of, section_parts};
ghost use Rattle.section_edits.specs.declared.edit.Edit.TheVariants.{AddContour, RemoveContour};
ghost use Rattle.section_edits.specs.declared.edit.EditFault.TheVariants as edit_faults;
ghost use Rattle.section_edits.specs.Contours.{contour_of};
ghost use Rattle.section_edits.specs.Changes.{changed, with_spots, with_new_contour, contour_with};
ghost use Rattle.section_core.specs.Views.{spot_at};
ghost use Rattle.section_edits.specs.Refusals.{AnswersOrRefuses, IsEditMemory, IsLateRefusal, IsRefusal, is_far, first_of};
ghost use Rattle.section_edits.specs.Vertices.{vertex_edit, spots_after, is_out, lacks_vertex, leaves_few};
ghost use Rattle.section_edits.specs.LateTests.{is_small, vertex_count, contour_count, late_tests};
ghost use Rattle.section_edits.specs.Ready.{IsReadyParts};

use crate::changes::{with_contour, with_spots, without_contour, without_links};
use crate::contours::{contour_of, has_section};
use crate::edit::{Edit, EditFault};
use fku_types::limits::{MAX_CONTOUR_VERTICES, MAX_CONTOURS, MAX_VERTICES};
use fku_types::{Fault, LimitName, Name, NoMemory, Point, Spot};
use section_core::{Contour, Link, Section, Sections, fits_section, is_coordinate};
use std::alloc::Global;

fn is_short(contour: &Contour) -> bool
    ensures { result ≡ int_le (pos (length contour.now.points.items)) (pos MAX_CONTOUR_VERTICES) }
{
    contour.points.len() <= MAX_CONTOUR_VERTICES as usize
}

fn has_short_contours(section: &Section) -> bool
    ensures { result
        ≡ list_all (λ c. int_le (pos (length c.points.items)) (pos MAX_CONTOUR_VERTICES))
        section.now.contours.items }
{
    section.contours.iter().all(|c| is_short(c))
}

fn vertices_in(section: &Section) -> usize
    ensures { result ≡ min (section_vertices (section_parts section.now)) (2 ^ 64 - 1) }
{
    let mut count: usize = 0;
    for contour in &section.contours {
        count = count.saturating_add(contour.points.len());
    }
    count
}

fn is_small(section: &Section) -> bool
    ensures { result ≡ is_small (section_parts section.now) }
{
    fits_section(vertices_in(section))
}

fn all_vertices(sections: &[Section]) -> usize
    ensures { result ≡ min (vertex_count (map section_parts sections.now)) (2 ^ 64 - 1) }
{
    let mut count: usize = 0;
    for section in sections {
        count = count.saturating_add(vertices_in(section));
    }
    count
}

fn all_contours(sections: &[Section]) -> usize
    ensures { result ≡ min (contour_count (map section_parts sections.now)) (2 ^ 64 - 1) }
{
    let mut count: usize = 0;
    for section in sections {
        count = count.saturating_add(section.contours.len());
    }
    count
}

fn are_short(sections: &[Section]) -> bool
    ensures { result
        ≡ list_all (λ s.
        list_all (λ c. int_le (pos (length c.points.items)) (pos MAX_CONTOUR_VERTICES)) s.contours.items)
        sections.now }
{
    sections.iter().all(|s| has_short_contours(s))
}

fn are_small(sections: &[Section]) -> bool
    ensures { result ≡ list_all (λ s. is_small (section_parts s)) sections.now }
{
    sections.iter().all(|s| is_small(s))
}

// The first refusal of the edited parts: a limit that they pass, or else that they have no contour.
fn late_refusal(sections: &[Section]) -> Option<EditFault>
    ensures { result ≡ first_of (late_tests (map section_parts sections.now)) }
{
    if !are_short(sections) {
        return Some(EditFault::Limit {
            limit: LimitName::ContourVertices,
        });
    }
    if !are_small(sections) {
        return Some(EditFault::Limit {
            limit: LimitName::SectionVertices,
        });
    }
    if all_vertices(sections) > MAX_VERTICES as usize {
        return Some(EditFault::Limit {
            limit: LimitName::Vertices,
        });
    }
    if all_contours(sections) > MAX_CONTOURS {
        return Some(EditFault::Limit {
            limit: LimitName::Contours,
        });
    }
    none_left(sections)
}

fn none_left(sections: &[Section]) -> Option<EditFault>
    ensures { result
        ≡ (if contour_count (map section_parts sections.now) == 0 then Some (edit_faults.Found faults.NoContours) else
        None) }
{
    if all_contours(sections) == 0 {
        Some(EditFault::Found {
            fault: Fault::NoContours,
        })
    } else {
        None
    }
}

fn is_wanting(fault: &Fault) -> bool
    ensures { fault.now ≡ faults.NoMemory → result ≡ true }
{
    matches!(fault, Fault::NoMemory)
}

// Sections of the rules of others, with these contours and links, or why they are refused.
fn remade(
    alloc: Global,
    old: &Sections,
    sections: Vec<Section>,
    links: Vec<Link>,
) -> Result<Sections, EditFault>
    requires ready { IsReadyParts (ended_parts old.now.cost old.now.rule sections.items links.items) }
    requires flat { AreFlat sections.items }
    ensures { AnswersOrRefuses (IsLateRefusal (ended_parts old.now.cost old.now.rule sections.items links.items)) result
        (λ s.
        s ≡ ended_parts old.now.cost old.now.rule sections.items links.items) }
{
    if let Some(fault) = late_refusal(&sections) {
        return Err(fault);
    }
    match Sections::make(alloc, old.cost(), old.rule(), sections, links) {
        Ok(sections) => Ok(sections),
        Err(fault) => {
            // Lawful parts are refused only if memory runs out.
            let wanting = is_wanting(&fault);
            prove!(wanting);
            Err(EditFault::NoMemory)
        }
    }
}

// The sections, with other points in the contour of a name; or why they are refused.
fn reshaped(
    alloc: Global,
    sections: &Sections,
    name: &Name,
    spots: &[Spot],
) -> Result<Sections, EditFault>
    requires enough { 3 ≤ length spots.now }
    requires in_range { AllByRecursion IsSpot (map spot_at spots.now) }
    ensures { AnswersOrRefuses (IsLateRefusal (with_spots name.now (map spot_at spots.now) sections.now)) result (λ s.
        s ≡ with_spots name.now (map spot_at spots.now) sections.now) }
{
    let changed = with_spots(alloc, sections.sections(), name, spots)?;
    let links = Link::copy_all(alloc, sections.links())?;
    remade(alloc, sections, changed, links)
}

fn spot_of(point: &Point) -> Spot
    ensures { spot_at result ≡ spot_of point.now }
{
    Spot {
        x: point.x,
        y: point.y,
    }
}

// The places of points.
fn spots_of(alloc: Global, points: &[Point]) -> Result<Vec<Spot>, NoMemory>
    ensures { IfOk result (λ v. map spot_at v.items ≡ map spot_of points.now) }
{
    let mut spots = Vec::with_capacity(alloc, points.len())?;
    for point in points {
        spots.push(spot_of(point))?;
    }
    Ok(spots)
}

fn is_far(spot: &Spot) -> bool
    ensures { result ≡ is_far spot.now }
{
    !(is_coordinate(spot.x) && is_coordinate(spot.y))
}

fn spots_with(alloc: Global, points: &[Point], index: u32, to: &Spot) -> Result<Vec<Spot>, NoMemory>
    requires { index < length points.now }
    ensures { IfOk result (λ v. map spot_at v.items ≡ slice_set (map spot_of points.now) index (spot_at to.now)) }
{
    let mut spots = spots_of(alloc, points)?;
    spots[index as usize] = *to;
    Ok(spots)
}

fn spots_and(alloc: Global, points: &[Point], index: u32, new: &Spot) -> Result<Vec<Spot>, NoMemory>
    requires { index ≤ length points.now }
    ensures { IfOk result (λ v. map spot_at v.items ≡ insert (map spot_of points.now) index (spot_at new.now)) }
{
    let mut spots = spots_of(alloc, points)?;
    spots.insert(index as usize, *new)?;
    Ok(spots)
}

fn spots_but(alloc: Global, points: &[Point], index: u32) -> Result<Vec<Spot>, NoMemory>
    requires { index < length points.now }
    ensures { IfOk result (λ v. map spot_at v.items ≡ remove (map spot_of points.now) index) }
{
    let mut spots = spots_of(alloc, points)?;
    spots.remove(index as usize);
    Ok(spots)
}

// What an edit does to one vertex of a contour.
#[derive(Clone, Copy)]
pub(crate) enum VertexChange {
    Moved { to: Spot },
    Inserted { new: Spot },
    Removed,
}

fn is_out(change: &VertexChange) -> bool
    ensures { result ≡ is_out change.now }
{
    match change {
        VertexChange::Moved { to } => is_far(to),
        VertexChange::Inserted { new } => is_far(new),
        VertexChange::Removed => false,
    }
}

fn lacks_vertex(change: &VertexChange, count: usize, index: u32) -> bool
    ensures { result ≡ lacks_vertex change.now count index }
{
    match change {
        VertexChange::Inserted { new: _ } => count < index as usize,
        VertexChange::Moved { to: _ } => count <= index as usize,
        VertexChange::Removed => count <= index as usize,
    }
}

fn leaves_few(change: &VertexChange, count: usize) -> bool
    ensures { result ≡ leaves_few change.now count }
{
    matches!(change, VertexChange::Removed) && count <= 3
}

// The places of points after a change of the vertex at an index.
fn spots_after(
    alloc: Global,
    points: &[Point],
    index: u32,
    change: &VertexChange,
) -> Result<Vec<Spot>, NoMemory>
    requires { lacks_vertex change.now (length points.now) index ≡ false }
    ensures { IfOk result (λ v. map spot_at v.items ≡ spots_after change.now index (map spot_of points.now)) }
{
    match change {
        VertexChange::Moved { to } => spots_with(alloc, points, index, to),
        VertexChange::Inserted { new } => spots_and(alloc, points, index, new),
        VertexChange::Removed => spots_but(alloc, points, index),
    }
}

// The sections with a change of the vertex at an index of a contour, or why they are refused.
fn respotted(
    alloc: Global,
    sections: &Sections,
    name: &Name,
    index: u32,
    change: &VertexChange,
) -> Result<Sections, EditFault>
    ensures answers { AnswersOrRefuses (IsRefusal sections.now (vertex_edit name.now index change.now)) result (λ s.
        s ≡ changed sections.now (vertex_edit name.now index change.now)) }
    ensures memory { IfErr result (IsEditMemory sections.now (vertex_edit name.now index change.now)) }
{
    if is_out(change) {
        return Err(EditFault::EditForm);
    }
    let Some(contour) = contour_of(sections.sections(), name) else {
        let name = name.copy();
        return Err(EditFault::NoContour { name });
    };
    let count = contour.points.len();
    if lacks_vertex(change, count, index) {
        let name = name.copy();
        return Err(EditFault::NoVertex { name, index });
    }
    if leaves_few(change, count) {
        let name = name.copy();
        return Err(EditFault::TooFew { name });
    }
    let spots = spots_after(alloc, &contour.points, index, change)?;
    reshaped(alloc, sections, name, &spots)
}

fn any_far(spots: &[Spot]) -> bool
    ensures { result ≡ list_any is_far spots.now }
{
    spots.iter().any(|s| is_far(s))
}

// The sections with one more contour, or why they are refused.
fn grown(
    alloc: Global,
    sections: &Sections,
    z: i32,
    name: &Name,
    spots: &[Spot],
) -> Result<Sections, EditFault>
    requires name { is_name name.now ≡ true }
    requires new { contour_of sections.now.sections name.now ≡ None }
    requires enough { 3 ≤ length spots.now }
    requires in_range { AllByRecursion IsSpot (map spot_at spots.now) }
    ensures { AnswersOrRefuses
        (IsLateRefusal (with_new_contour z (contour_with name.now (map spot_at spots.now)) sections.now))
        result (λ s. s ≡ with_new_contour z (contour_with name.now (map spot_at spots.now)) sections.now) }
{
    let changed = with_contour(alloc, sections.sections(), z, name, spots)?;
    let links = Link::copy_all(alloc, sections.links())?;
    remade(alloc, sections, changed, links)
}

fn added(
    alloc: Global,
    sections: &Sections,
    z: i32,
    name: &Name,
    points: &[Spot],
) -> Result<Sections, EditFault>
    ensures answers { AnswersOrRefuses (IsRefusal sections.now (AddContour z name.now points.now)) result (λ s.
        s ≡ changed sections.now (AddContour z name.now points.now)) }
    ensures memory { IfErr result (IsEditMemory sections.now (AddContour z name.now points.now)) }
{
    if any_far(points) {
        return Err(EditFault::EditForm);
    }
    if !has_section(sections.sections(), z) {
        return Err(EditFault::NoSection { z });
    }
    let _ = name.as_bytes();
    if points.len() < 3 {
        let name = name.copy();
        return Err(EditFault::TooFew { name });
    }
    if let Some(_) = contour_of(sections.sections(), name) {
        let name = name.copy();
        return Err(EditFault::NameTwice { name });
    }
    grown(alloc, sections, z, name, points)
}

fn dropped(alloc: Global, sections: &Sections, name: &Name) -> Result<Sections, EditFault>
    ensures answers { AnswersOrRefuses (IsRefusal sections.now (RemoveContour name.now)) result (λ s.
        s ≡ changed sections.now (RemoveContour name.now)) }
    ensures memory { IfErr result (IsEditMemory sections.now (RemoveContour name.now)) }
{
    let Some(_) = contour_of(sections.sections(), name) else {
        let name = name.copy();
        return Err(EditFault::NoContour { name });
    };
    let changed = without_contour(alloc, sections.sections(), name)?;
    let links = without_links(alloc, sections.links(), name)?;
    remade(alloc, sections, changed, links)
}

/// The sections after an edit, or the edit's first refusal, of those that need no whole sections. These are, in order:
/// an x or y out of range (`EditForm`); no contour of the name, or no section of the height; no such vertex; fewer than
/// three vertices; a name that is taken; the limits of `MAX_CONTOUR_VERTICES` vertices a contour,
/// `MAX_SECTION_VERTICES` a section, `MAX_VERTICES` in all, and `MAX_CONTOURS` contours; no contour left (`Found`).
/// `NoMemory` comes only where the tests before the limits refuse nothing: memory is asked for after them.
pub fn edited(alloc: Global, sections: &Sections, edit: &Edit) -> Result<Sections, EditFault>
    ensures answers { AnswersOrRefuses (IsRefusal sections.now edit.now) result (λ s. s ≡ changed sections.now edit.now) }
    // Memory is asked for after the edit's own tests: what they refuse is reported whatever memory there is.
    ensures memory { IfErr result (IsEditMemory sections.now edit.now) }
{
    match edit {
        Edit::Move { name, index, x, y } => {
            let to = Spot { x: *x, y: *y };
            respotted(alloc, sections, name, *index, &VertexChange::Moved { to })
        }
        Edit::Insert { name, index, x, y } => {
            let new = Spot { x: *x, y: *y };
            respotted(
                alloc,
                sections,
                name,
                *index,
                &VertexChange::Inserted { new },
            )
        }
        Edit::Remove { name, index } => {
            respotted(alloc, sections, name, *index, &VertexChange::Removed)
        }
        Edit::AddContour { z, name, points } => {
            added(alloc, sections, *z, name, points.as_slice())
        }
        Edit::RemoveContour { name } => dropped(alloc, sections, name),
    }
}
