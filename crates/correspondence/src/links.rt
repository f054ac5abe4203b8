//! Which links are good.

ghost use Rattle.std.specs.Prelude.{◌≡◌, ◌&&◌, ℕ, List, IfOk, MatchResult, All, length, map, bytes_eq};
ghost use Rattle.std.specs.List.{list_any};
ghost use Rattle.indexmap.specs.IndexMap.{get};
ghost use Rattle.correspondence.specs.Contours.{AreOutlines};
ghost use Rattle.correspondence.specs.Outlines.{held_depths};
ghost use Rattle.correspondence.specs.Named.{lists_of};
ghost use Rattle.fku_types.specs.declared.fault.Fault.TheVariants as fault;
ghost use Rattle.correspondence.specs.Links.{names_of, depths_of, contour_place_of, depth_at, cause_between, cause_among, AreGood, IsLinkFault};

use crate::contour_places::{ContourPlace, all_contour_places, find_contour_place};
use crate::linked_names::{LinkedNames, add_linked_names, has_linked_names};
use crate::nesting::{depths, have_same_parity};
use fku_types::{Fault, LinkCause, Name, NoMemory};
use indexmap::{IndexMap, IndexSet};
use section_core::{Link, Section, Sections};
use std::alloc::Global;

fn all_depths(alloc: Global, sections: &[Section]) -> Result<Vec<Vec<u32>>, NoMemory>
    requires { All (λ s. AreOutlines s.contours.items) sections.now }
    ensures { IfOk result (λ v. lists_of v.items ≡ map held_depths sections.now) }
{
    let mut rows = Vec::new(alloc);
    for section in sections {
        rows.push(depths(alloc, section)?)?;
    }
    Ok(rows)
}

fn depth_at(depths: &[Vec<u32>], contour_place: ContourPlace) -> u32
    ensures { result ≡ depth_at (lists_of depths.now) contour_place }
{
    match depths.get(contour_place.section as usize) {
        Some(row) => row
            .get(contour_place.contour as usize)
            .copied()
            .unwrap_or(0),
        None => 0,
    }
}

fn cause_between(
    depths: &[Vec<u32>],
    again: bool,
    low: ContourPlace,
    high: ContourPlace,
) -> Option<LinkCause>
    ensures { result ≡ cause_between (lists_of depths.now) again low high }
{
    if u64::from(high.section) != u64::from(low.section) + 1 {
        Some(LinkCause::NotNeighbours)
    } else if !have_same_parity(depth_at(depths, low), depth_at(depths, high)) {
        Some(LinkCause::DepthDiffers)
    } else if again {
        Some(LinkCause::Repeated)
    } else {
        None
    }
}

fn cause_of(
    contour_places: &IndexMap<Name, ContourPlace>,
    depths: &[Vec<u32>],
    linked_names: &IndexSet<LinkedNames>,
    link: &Link,
) -> Option<LinkCause>
    ensures { result
        ≡ cause_among (lists_of depths.now)
        (list_any (λ e. bytes_eq link.now.below e.0 && bytes_eq link.now.above e.1) linked_names.now.keys)
        (get bytes_eq contour_places.now link.now.below) (get bytes_eq contour_places.now link.now.above) }
{
    let again = has_linked_names(linked_names, &link.below, &link.above);
    match (
        find_contour_place(contour_places, &link.below),
        find_contour_place(contour_places, &link.above),
    ) {
        (Some(low), Some(high)) => cause_between(depths, again, low, high),
        _ => Some(LinkCause::Unknown),
    }
}

// The fault of a bad link.
fn fault_of(link: &Link, cause: LinkCause) -> Fault
    ensures { result ≡ fault.Link link.now.below link.now.above cause }
{
    let below = link.below.copy();
    let above = link.above.copy();
    Fault::Link {
        below,
        above,
        cause,
    }
}

// Whether every link is good, from the places of all names and all depths.
fn test_each(
    alloc: Global,
    contour_places: &IndexMap<Name, ContourPlace>,
    depths: &[Vec<u32>],
    sections: &Sections,
) -> Result<(), Fault>
    requires places { (name : List ℕ)
        → get bytes_eq contour_places.now name ≡ contour_place_of (names_of sections.now) name }
    requires depths { lists_of depths.now ≡ depths_of sections.now }
    ensures { MatchResult result (λ _. AreGood sections.now (length sections.now.links)) (IsLinkFault sections.now) }
{
    let links = sections.links();
    let mut linked_names = IndexSet::new(alloc);
    for link in links {
        if let Some(cause) = cause_of(contour_places, depths, &linked_names, link) {
            return Err(fault_of(link, cause));
        }
        add_linked_names(&mut linked_names, link)?;
    }
    Ok(())
}

/// Tests that every link is good: it names two contours of neighbouring sections, the lower one first, whose depths
/// have equal parity, and no earlier link names the same two. Otherwise `Link` has the first bad link and its first
/// cause, in the order `Unknown`, `NotNeighbours`, `DepthDiffers`, `Repeated`; or `NoMemory`.
pub fn test_links(alloc: Global, sections: &Sections) -> Result<(), Fault>
    ensures { MatchResult result (λ _. AreGood sections.now (length sections.now.links)) (IsLinkFault sections.now) }
{
    if sections.links().is_empty() {
        return Ok(());
    }
    let all = sections.sections();
    let contour_places = all_contour_places(alloc, all)?;
    let depths = all_depths(alloc, all)?;
    test_each(alloc, &contour_places, &depths, sections)
}
