//! Contours of sections by their names.
ghost use Rattle.std.specs.Prelude.{◌≡◌, map};
ghost use Rattle.std.specs.Ordering.{int_eq};
ghost use Rattle.std.specs.Option.{option_map};
ghost use Rattle.std.specs.List.{find, list_any};
ghost use Rattle.section_core.specs.Views.{contour_parts, section_parts};
ghost use Rattle.section_edits.specs.Contours.{has_name, contour_of};

use fku_types::Name;
use section_core::{Contour, Section};

/// A contour has this name.
pub fn has_name(name: &Name, contour: &Contour) -> bool
    ensures { result ≡ has_name name.now (contour_parts contour.now) }
{
    *name == contour.name
}

// The first of some contours that has a name.
fn contour_in<'a>(contours: &'a [Contour], name: &Name) -> Option<&'a Contour>
    ensures { option_map (λ c. contour_parts c.now) result ≡ find (has_name name.now) (map contour_parts contours.now) }
{
    for contour in contours {
        if has_name(name, contour) {
            return Some(contour);
        }
    }
    None
}

/// The contour of a name.
pub fn contour_of<'a>(sections: &'a [Section], name: &Name) -> Option<&'a Contour>
    ensures { option_map (λ c. contour_parts c.now) result ≡ contour_of (map section_parts sections.now) name.now }
{
    for section in sections {
        if let Some(contour) = contour_in(&section.contours, name) {
            return Some(contour);
        }
    }
    None
}

fn is_at(section: &Section, z: i32) -> bool
    ensures { result ≡ int_eq z section.now.z }
{
    z == section.z
}

/// A section has this height.
pub fn has_section(sections: &[Section], z: i32) -> bool
    ensures { result ≡ list_any (λ s. int_eq z s.z) sections.now }
{
    sections.iter().any(|s| is_at(s, z))
}
