//! Rows that state which contours of two sections correspond.

ghost use Rattle.std.specs.Prelude.{◌≡◌, ◌↔◌, [], List, true, IsTrue, IfOk, length, map, bytes_eq, slice_index, slice_index_or};
ghost use Rattle.std.specs.List.{list_any};
ghost use Rattle.correspondence.specs.Contours.{IsOutline, AreOutlines, points_of, point_lists, contour_at};
ghost use Rattle.correspondence.specs.Bounding.{Encloses};
ghost use Rattle.section_core.specs.Parts.{LinkParts};
ghost use Rattle.correspondence.specs.Outlines.{held_layer, name_in};
ghost use Rattle.correspondence.specs.Correspondences.{Alike, Agree, same_parity, links_names};
ghost use Rattle.correspondence.specs.Overlaps.{Overlap, EncloseEach};
ghost use Rattle.correspondence.specs.Graphs.{table_of, IsRow, AreRows};
ghost use Rattle.correspondence.specs.Named.{IsLinkTableOf, above_of};

use crate::bounds::Bounds;
use crate::link_table::{LinkTable, is_among};
use crate::nesting::{depths, have_same_parity};
use crate::overlaps::overlap_within;
use fku_types::{NoMemory, PairRule};
use section_core::{Contour, Section};
use std::alloc::{AllocError, Global};

// Whether the depths of two contours have equal parity and the contours, which lie within bounds, overlap.
#[inline(always)]
fn are_alike(
    low: &Contour,
    high: &Contour,
    low_depth: u32,
    high_depth: u32,
    low_bounds: Bounds,
    high_bounds: Bounds,
) -> bool
    requires low { IsOutline (points_of low.now) }
    requires high { IsOutline (points_of high.now) }
    requires low_bounds { Encloses low_bounds (points_of low.now) }
    requires high_bounds { Encloses high_bounds (points_of high.now) }
    ensures { IsTrue result
        ↔ ((same_parity low_depth high_depth ≡ true) × Overlap (points_of low.now) (points_of high.now)) }
{
    have_same_parity(low_depth, high_depth)
        && overlap_within(&low.points, low_bounds, &high.points, high_bounds)
}

// The bounds of each contour.
fn all_bounds(alloc: Global, section: &Section) -> Result<Vec<Bounds>, AllocError>
    requires { AreOutlines section.now.contours.items }
    ensures one_each { IfOk result (λ v. length v.items ≡ length section.now.contours.items) }
    ensures enclosed { IfOk result (λ v.
        EncloseEach v.items (point_lists section.now) (length section.now.contours.items)) }
{
    let mut bounds = Vec::new(alloc);
    for contour in &section.contours {
        bounds.push(Bounds::of(&contour.points))?;
    }
    Ok(bounds)
}

fn overlap_row(
    alloc: Global,
    low: &Contour,
    depth: u32,
    high: &[Contour],
    depths: &[u32],
    bounds: &[Bounds],
) -> Result<Vec<bool>, AllocError>
    requires low { IsOutline (points_of low.now) }
    requires high { AreOutlines high.now }
    requires depths { length depths.now ≡ length high.now }
    requires bounds { length bounds.now ≡ length high.now }
    requires enclosed { EncloseEach bounds.now (map points_of high.now) (length high.now) }
    ensures { IfOk result (λ v.
        IsRow v.items (length high.now) (λ j.
        (same_parity depth (slice_index depths.now j) ≡ true)
        × Overlap (points_of low.now) (contour_at (map points_of high.now) j))) }
{
    let low_bounds = Bounds::of(&low.points);
    let mut row = Vec::new(alloc);
    for j in 0..high.len() {
        row.push(are_alike(low, &high[j], depth, depths[j], low_bounds, bounds[j]))?;
    }
    Ok(row)
}

fn overlap_rows(alloc: Global, low: &Section, high: &Section) -> Result<Vec<Vec<bool>>, NoMemory>
    requires low { AreOutlines low.now.contours.items }
    requires high { AreOutlines high.now.contours.items }
    ensures { IfOk result (λ v.
        AreRows (table_of v.items) (length low.now.contours.items) (length high.now.contours.items)
        (Alike (point_lists low.now) (point_lists high.now))) }
{
    let low_depths = depths(alloc, low)?;
    let high_depths = depths(alloc, high)?;
    let high_bounds = all_bounds(alloc, high)?;
    let mut rows = Vec::new(alloc);
    for i in 0..low.contours.len() {
        let row = overlap_row(
            alloc,
            &low.contours[i],
            low_depths[i],
            &high.contours,
            &high_depths,
            &high_bounds,
        )?;
        rows.push(row)?;
    }
    Ok(rows)
}

fn link_row(
    alloc: Global,
    low: &Contour,
    high: &[Contour],
    table: &LinkTable,
) -> Result<Vec<bool>, AllocError>
    ensures { IfOk result (λ v.
        IsRow v.items (length high.now) (λ j.
        list_any (bytes_eq (slice_index_or (map (λ c. c.name) high.now) j [])) (above_of table.now low.now.name) ≡ true)) }
{
    let names = table.names_above(&low.name);
    let mut row = Vec::with_capacity(alloc, high.len())?;
    for contour in high {
        row.push(is_among(names, &contour.name))?;
    }
    Ok(row)
}

fn link_rows(
    alloc: Global,
    low: &Section,
    high: &Section,
    table: &LinkTable,
) -> Result<Vec<Vec<bool>>, AllocError>
    ensures { IfOk result (λ v.
        (links : List LinkParts) → IsLinkTableOf table.now links
        → AreRows (table_of v.items) (length low.now.contours.items) (length high.now.contours.items) (λ i j.
        list_any (links_names (name_in (held_layer low.now) i) (name_in (held_layer high.now) j)) links ≡ true)) }
{
    let mut rows = Vec::new(alloc);
    for contour in &low.contours {
        rows.push(link_row(alloc, contour, &high.contours, table)?)?;
    }
    Ok(rows)
}

/// A row for each contour below, with a cell for each contour above: whether the two correspond, under the links that
/// the table names. Or `NoMemory`.
pub fn agreement(
    alloc: Global,
    rule: PairRule,
    table: &LinkTable,
    low: &Section,
    high: &Section,
) -> Result<Vec<Vec<bool>>, NoMemory>
    requires low { AreOutlines low.now.contours.items }
    requires high { AreOutlines high.now.contours.items }
    ensures { IfOk result (λ v.
        (links : List LinkParts) → IsLinkTableOf table.now links
        → AreRows (table_of v.items) (length low.now.contours.items) (length high.now.contours.items)
        (Agree rule links (held_layer low.now) (held_layer high.now))) }
{
    match rule {
        PairRule::Overlap => overlap_rows(alloc, low, high),
        PairRule::Links => Ok(link_rows(alloc, low, high, table)?),
    }
}
