//! The places of contours, by their names.

ghost use Rattle.std.specs.Prelude.{◌≡◌, ◌++◌, ◌≤◌, ℕ, List, [], Some, None, OnOk, IfOk, length, map, All, slice_index_or, bytes_eq, if◌then◌else◌};
ghost use Rattle.std.specs.Option.{option_or};
ghost use Rattle.indexmap.specs.IndexMap.{get};
ghost use Rattle.correspondence.specs.Links.{contour_places, contour_places_in};
ghost use Rattle.correspondence.specs.Named.{Finds};
ghost use Rattle.correspondence.specs.Outlines.{held_names};
ghost use Rattle.correspondence.specs.declared.contour_places.ContourPlace.{ContourPlace};

use fku_types::Name;
use fku_types::limits::{MAX_CONTOURS, MAX_SECTIONS};
use indexmap::IndexMap;
use section_core::{Contour, Section};
use std::alloc::{AllocError, Global};

/// The place of a contour: its section, and its index there.
#[derive(Clone, Copy)]
pub struct ContourPlace {
    pub section: u32,
    pub contour: u32,
}

fn add_contour_place(
    contour_places: &mut IndexMap<Name, ContourPlace>,
    name: &Name,
    contour_place: ContourPlace,
) -> Result<(), AllocError>
    ensures { OnOk result
        ((q : List ℕ) → get bytes_eq contour_places.new q
        ≡ option_or (get bytes_eq contour_places.old q)
        (if bytes_eq q name.now then Some contour_place else None)) }
{
    if contour_places.contains_key(name) {
        return Ok(());
    }
    contour_places.insert(name.copy(), contour_place)?;
    Ok(())
}

fn add_section(
    contour_places: &mut IndexMap<Name, ContourPlace>,
    section: u32,
    contours: &[Contour],
) -> Result<(), AllocError>
    requires few { length contours.now ≤ MAX_CONTOURS }
    ensures { OnOk result
        ((names : List (List (List ℕ))) (places : List ContourPlace)
        → slice_index_or names section [] ≡ map (λ c. c.name) contours.now
        → Finds (get bytes_eq contour_places.old) names places
        → Finds (get bytes_eq contour_places.new) names (places ++ contour_places_in names section)) }
{
    for place in 0..contours.len() {
        let contour = place as u32;
        add_contour_place(
            contour_places,
            &contours[place].name,
            ContourPlace { section, contour },
        )?;
    }
    Ok(())
}

/// The place of each contour, by its name; or `NoMemory`.
pub fn all_contour_places(
    alloc: Global,
    sections: &[Section],
) -> Result<IndexMap<Name, ContourPlace>, AllocError>
    requires sections { length sections.now ≤ MAX_SECTIONS }
    requires contours { All (λ s. length s.contours.items ≤ MAX_CONTOURS) sections.now }
    ensures { IfOk result (λ m.
        Finds (get bytes_eq m) (map held_names sections.now)
        (contour_places (map held_names sections.now) (length sections.now))) }
{
    let mut contour_places = IndexMap::new(alloc);
    for section in 0..sections.len() {
        let contours = sections[section].contours.as_slice();
        add_section(&mut contour_places, section as u32, contours)?;
    }
    Ok(contour_places)
}

/// The place of the contour of a name.
pub fn find_contour_place(
    contour_places: &IndexMap<Name, ContourPlace>,
    name: &Name,
) -> Option<ContourPlace>
    ensures { result ≡ get bytes_eq contour_places.now name.now }
{
    contour_places.get(name).copied()
}
