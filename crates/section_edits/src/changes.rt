//! Copies of contours, sections and links with a change.
ghost use Rattle.std.specs.Prelude.{◌≡◌, All, IfOk, filter, map, not};
ghost use Rattle.section_core.specs.Flat.{IsAtHeight, IsLevelSection};
ghost use Rattle.section_core.specs.Views.{contour_parts, section_parts, link_parts};
ghost use Rattle.section_edits.specs.Contours.{has_name};
ghost use Rattle.section_edits.specs.Changes.{contour_with, reshaped, reshaped_in, added_in, dropped_in, names_it};
ghost use Rattle.section_core.specs.Views.{placed};
ghost use Rattle.section_core.specs.Views.{spot_at};

use crate::contours::has_name;
use fku_types::{Name, NoMemory, Point, Spot};
use section_core::{Contour, Link, Section};
use std::alloc::Global;

// The point of a section at a place.
fn placed(section: &Section, spot: &Spot) -> Point
    ensures { result ≡ placed section.now.z spot.now }
{
    Point {
        x: spot.x,
        y: spot.y,
        z: section.z,
    }
}

fn all_placed(alloc: Global, section: &Section, spots: &[Spot]) -> Result<Vec<Point>, NoMemory>
    ensures { IfOk result (λ v. v.items ≡ map (placed section.now.z) spots.now) }
{
    let mut points = Vec::with_capacity(alloc, spots.len())?;
    for spot in spots {
        points.push(placed(section, spot))?;
    }
    Ok(points)
}

// A contour of a section, of this name and through these places.
fn contour_with(
    alloc: Global,
    section: &Section,
    name: &Name,
    spots: &[Spot],
) -> Result<Contour, NoMemory>
    ensures parts { IfOk result (λ c. contour_parts c ≡ contour_with name.now (map spot_at spots.now)) }
    ensures level { IfOk result (IsAtHeight section.now.z) }
{
    let points = all_placed(alloc, section, spots)?;
    let name = name.copy();
    Ok(Contour { name, points })
}

// The contour, with other points if it has this name.
fn reshaped(
    alloc: Global,
    section: &Section,
    contour: &Contour,
    name: &Name,
    spots: &[Spot],
) -> Result<Contour, NoMemory>
    requires { IsAtHeight section.now.z contour.now }
    ensures parts { IfOk result (λ c.
        contour_parts c ≡ reshaped name.now (map spot_at spots.now) (contour_parts contour.now)) }
    ensures level { IfOk result (IsAtHeight section.now.z) }
{
    if has_name(name, contour) {
        contour_with(alloc, section, &contour.name, spots)
    } else {
        contour.copy(alloc)
    }
}

fn reshaped_in(
    alloc: Global,
    section: &Section,
    name: &Name,
    spots: &[Spot],
) -> Result<Section, NoMemory>
    requires { IsLevelSection section.now }
    ensures parts { IfOk result (λ s.
        section_parts s ≡ reshaped_in name.now (map spot_at spots.now) (section_parts section.now)) }
    ensures level { IfOk result IsLevelSection }
{
    let mut contours = Vec::with_capacity(alloc, section.contours.len())?;
    for contour in &section.contours {
        contours.push(reshaped(alloc, section, contour, name, spots)?)?;
    }
    let z = section.z;
    Ok(Section { z, contours })
}

/// The sections, with other points in the contour of a name.
pub fn with_spots(
    alloc: Global,
    sections: &[Section],
    name: &Name,
    spots: &[Spot],
) -> Result<Vec<Section>, NoMemory>
    requires { All IsLevelSection sections.now }
    ensures parts { IfOk result (λ v.
        map section_parts v.items
        ≡ map (reshaped_in name.now (map spot_at spots.now)) (map section_parts sections.now)) }
    ensures level { IfOk result (λ v. All IsLevelSection v.items) }
{
    let mut changed = Vec::with_capacity(alloc, sections.len())?;
    for section in sections {
        changed.push(reshaped_in(alloc, section, name, spots)?)?;
    }
    Ok(changed)
}

fn added_in(
    alloc: Global,
    section: &Section,
    z: i32,
    name: &Name,
    spots: &[Spot],
) -> Result<Section, NoMemory>
    requires { IsLevelSection section.now }
    ensures parts { IfOk result (λ s.
        section_parts s ≡ added_in z (contour_with name.now (map spot_at spots.now)) (section_parts section.now)) }
    ensures level { IfOk result IsLevelSection }
{
    let mut added = section.copy(alloc)?;
    if z == section.z {
        let contour = contour_with(alloc, section, name, spots)?;
        added.contours.push(contour)?;
    }
    Ok(added)
}

/// The sections, with a new contour at the end of the section of a height.
pub fn with_contour(
    alloc: Global,
    sections: &[Section],
    z: i32,
    name: &Name,
    spots: &[Spot],
) -> Result<Vec<Section>, NoMemory>
    requires { All IsLevelSection sections.now }
    ensures parts { IfOk result (λ v.
        map section_parts v.items
        ≡ map (added_in z (contour_with name.now (map spot_at spots.now))) (map section_parts sections.now)) }
    ensures level { IfOk result (λ v. All IsLevelSection v.items) }
{
    let mut changed = Vec::with_capacity(alloc, sections.len())?;
    for section in sections {
        changed.push(added_in(alloc, section, z, name, spots)?)?;
    }
    Ok(changed)
}

// The contours of a section that have another name.
fn others(alloc: Global, section: &Section, name: &Name) -> Result<Vec<Contour>, NoMemory>
    requires { IsLevelSection section.now }
    ensures parts { IfOk result (λ v.
        map contour_parts v.items
        ≡ filter (λ c. not (has_name name.now c)) (map contour_parts section.now.contours.items)) }
    ensures level { IfOk result (λ v. All (IsAtHeight section.now.z) v.items) }
{
    let mut contours = Vec::new(alloc);
    for contour in &section.contours {
        if !has_name(name, contour) {
            contours.push(contour.copy(alloc)?)?;
        }
    }
    Ok(contours)
}

/// The sections without the contour of a name.
pub fn without_contour(
    alloc: Global,
    sections: &[Section],
    name: &Name,
) -> Result<Vec<Section>, NoMemory>
    requires { All IsLevelSection sections.now }
    ensures parts { IfOk result (λ v.
        map section_parts v.items ≡ map (dropped_in name.now) (map section_parts sections.now)) }
    ensures level { IfOk result (λ v. All IsLevelSection v.items) }
{
    let mut changed = Vec::with_capacity(alloc, sections.len())?;
    for section in sections {
        let contours = others(alloc, section, name)?;
        let z = section.z;
        changed.push(Section { z, contours })?;
    }
    Ok(changed)
}

fn names_it(name: &Name, link: &Link) -> bool
    ensures { result ≡ names_it name.now (link_parts link.now) }
{
    *name == link.below || *name == link.above
}

/// The links that do not name a contour.
pub fn without_links(alloc: Global, links: &[Link], name: &Name) -> Result<Vec<Link>, NoMemory>
    ensures { IfOk result (λ v.
        map link_parts v.items ≡ filter (λ l. not (names_it name.now l)) (map link_parts links.now)) }
{
    let mut kept = Vec::new(alloc);
    for link in links {
        if !names_it(name, link) {
            kept.push(link.copy())?;
        }
    }
    Ok(kept)
}
