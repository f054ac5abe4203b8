//! Components of a gap.

ghost use Rattle.std.specs.Prelude.{◌≡◌, ◌+◌, ◌<◌, ◌^◌, IfOk, OnOk, All, length, map};
ghost use Rattle.std.specs.List.{list_any};
ghost use Rattle.correspondence.specs.Places.{has};
ghost use Rattle.correspondence.specs.Components.{AreComponents};
ghost use Rattle.correspondence.specs.Graphs.{table_of, cell_links, IsGathered, AreBegun};
ghost use Rattle.correspondence.specs.Gaps.{members_of, AreGapComponents};
ghost use Rattle.correspondence.specs.Named.{IsLinkTableOf};

use crate::correspondence_table::agreement;
use crate::graph::{marked_places, reached};
use crate::link_table::LinkTable;
use fku_types::NoMemory;
use section_core::Sections;
use std::alloc::{AllocError, Global};

/// A component of a gap: the indices of its contours in the section below and in the section above, in file order.
#[derive(Drop)]
pub struct Component {
    pub below: Vec<u32>,
    pub above: Vec<u32>,
}

// The contours connected with a contour below.
fn component_at(
    alloc: Global,
    rows: &[Vec<bool>],
    columns: usize,
    root: usize,
) -> Result<Component, AllocError>
    requires columns { All (λ v. length v.items ≡ columns) rows.now }
    requires root { root < length rows.now }
    requires few { length rows.now + columns < 2 ^ 32 }
    ensures { IfOk result (λ c. IsGathered (table_of rows.now) columns root (members_of c)) }
{
    let marks = reached(alloc, rows, rows.len() + columns, root)?;
    let below = marked_places(alloc, &marks[..rows.len()])?;
    let above = marked_places(alloc, &marks[rows.len()..])?;
    Ok(Component { below, above })
}

fn contains(places: &[u32], place: usize) -> bool
    ensures { result ≡ has place places.now }
{
    places.iter().any(|p| *p as usize == place)
}

fn belongs(found: &[Component], place: usize) -> bool
    ensures { result ≡ list_any (λ c. has place c.below.items) found.now }
{
    found.iter().any(|c| contains(&c.below, place))
}

// Adds the component that begins with a contour below, if there is one.
fn add_component(
    alloc: Global,
    rows: &[Vec<bool>],
    columns: usize,
    root: usize,
    found: &mut Vec<Component>,
) -> Result<(), AllocError>
    requires columns { All (λ v. length v.items ≡ columns) rows.now }
    requires root { root < length rows.now }
    requires few { length rows.now + columns < 2 ^ 32 }
    requires found { AreBegun (cell_links (table_of rows.now)) (length rows.now) columns root
        (map members_of found.old.items) }
    ensures { OnOk result
        (AreBegun (cell_links (table_of rows.now)) (length rows.now) columns (root + 1)
        (map members_of found.new.items)) }
{
    if belongs(found, root) {
        return Ok(());
    }
    let component = component_at(alloc, rows, columns, root)?;
    if component.above.len() == 0 {
        return Ok(());
    }
    found.push(component)?;
    Ok(())
}

// The components of rows that state which contours correspond.
fn all_components(
    alloc: Global,
    rows: &[Vec<bool>],
    columns: usize,
) -> Result<Vec<Component>, AllocError>
    requires columns { All (λ v. length v.items ≡ columns) rows.now }
    requires few { length rows.now + columns < 2 ^ 32 }
    ensures { IfOk result (λ v.
        AreComponents (cell_links (table_of rows.now)) (length rows.now) columns (map members_of v.items)) }
{
    let mut found = Vec::new(alloc);
    for root in 0..rows.len() {
        add_component(alloc, rows, columns, root, &mut found)?;
    }
    Ok(found)
}

/// The components of the gap between section `gap`, counted from 0, and the section above it, in the order of their
/// first contours below; or `NoMemory`. A component is a maximal set of connected contours of the gap, with members on
/// both sides. The table has the names of the sections' links; one table serves all gaps.
pub fn components(
    alloc: Global,
    sections: &Sections,
    table: &LinkTable,
    gap: u32,
) -> Result<Vec<Component>, NoMemory>
    requires gap { gap + 1 < length sections.now.sections }
    requires table { IsLinkTableOf table.now sections.now.links }
    ensures { IfOk result (λ v. AreGapComponents sections.now gap v.items) }
{
    let all = sections.sections();
    let low = &all[gap as usize];
    let high = &all[gap as usize + 1];
    let rows = agreement(alloc, sections.rule(), table, low, high)?;
    Ok(all_components(alloc, &rows, high.contours.len())?)
}
