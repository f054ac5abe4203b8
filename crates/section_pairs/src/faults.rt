//! Faults of contours and sections.
ghost use Rattle.std.specs.Prelude.{All, map, MatchResult};
ghost use Rattle.section_core.specs.Flat.{contour_data, section_data};
ghost use Rattle.section_core.specs.ValidSections.{section_of};
ghost use Rattle.correspondence.specs.Contours.{AreOutlines};
ghost use Rattle.section_pairs.specs.SectionFaults.{IsFirstFault, IsSimpleContour, HasSelfCrossing, IsApartSection, HasCrossing, AreSound, IsContourFault, data_contours};

use crate::unchanged::is_same_at;
use correspondence::{test_apart, test_simple};
use fku_types::Fault;
use section_core::{Contour, Section, Sections};

// Tests that each contour of a section is simple; else the fault of the first that is not.
fn test_contours(contours: &[Contour]) -> Result<(), Fault>
    requires { AreOutlines contours.now }
    ensures { MatchResult result (λ _. All IsSimpleContour (map contour_data contours.now))
        (IsFirstFault IsSimpleContour HasSelfCrossing (map contour_data contours.now)) }
{
    for contour in contours {
        test_simple(contour)?;
    }
    Ok(())
}

/// The same for the contours of all sections, in file order. It does not test again a section that other sections have
/// at the same place, whose contours are known to be simple.
pub fn test_all_simple(known: &[Section], sections: &[Section]) -> Result<(), Fault>
    requires outlines { All (λ s. AreOutlines s.contours.items) sections.now }
    requires known { All IsSimpleContour (data_contours (map section_data known.now)) }
    ensures { MatchResult result (λ _. All IsSimpleContour (data_contours (map section_data sections.now)))
        (IsFirstFault IsSimpleContour HasSelfCrossing (data_contours (map section_data sections.now))) }
{
    for place in 0..sections.len() {
        if !is_same_at(known, sections, place) {
            test_contours(&sections[place].contours)?;
        }
    }
    Ok(())
}

/// Tests that the contours of each section are apart; else the fault of the first section where they are not. It does
/// not test again a section that other sections have at the same place, whose contours are known to be apart. Takes no
/// memory.
pub fn test_all_apart(known: &[Section], sections: &[Section]) -> Result<(), Fault>
    requires outlines { All (λ s. AreOutlines s.contours.items) sections.now }
    requires known { All IsApartSection (map section_data known.now) }
    ensures { MatchResult result (λ _. All IsApartSection (map section_data sections.now))
        (IsFirstFault IsApartSection HasCrossing (map section_data sections.now)) }
{
    for place in 0..sections.len() {
        if !is_same_at(known, sections, place) {
            test_apart(&sections[place])?;
        }
    }
    Ok(())
}

/// The result of `test_sections`, if other sections are known to have no fault. It does not test again a section that
/// both have at the same place, though no clause says so. Takes no memory.
pub fn test_sections_after(known: &[Section], sections: &Sections) -> Result<(), Fault>
    requires known { AreSound (map section_data known.now) }
    ensures { MatchResult result (λ _. AreSound (map section_of sections.now.sections))
        (IsContourFault (map section_of sections.now.sections)) }
{
    let sections = sections.sections();
    test_all_simple(known, sections)?;
    test_all_apart(known, sections)
}

/// Tests that every contour is simple and that no two contours of a section share a point. Else the fault of the first
/// contour in file order that is not simple; or, if all are, of the first section whose contours are not apart.
/// Takes no memory.
pub fn test_sections(sections: &Sections) -> Result<(), Fault>
    ensures { MatchResult result (λ _. AreSound (map section_of sections.now.sections))
        (IsContourFault (map section_of sections.now.sections)) }
{
    test_sections_after(&[], sections)
}
