//! Which sections and gaps are unchanged from other sections.
ghost use Rattle.std.specs.Prelude.{◌≡◌, ◌+◌, ◌<◌, ℕ, true, false, IfOk, length, map, slice_index_or};
ghost use Rattle.section_core.specs.Flat.{contour_data, section_data};
ghost use Rattle.section_core.specs.Views.{link_parts};
ghost use Rattle.section_pairs.specs.Unchanged.{IsSameAt, IsSameGap, HasSameSections};

use fku_types::{CostRule, Name, NoMemory, PairRule, Point};
use section_core::{Contour, Link, Section, Sections};
use std::alloc::Global;

fn is_same_name(one: &Name, other: &Name) -> bool
    ensures same { result ≡ true → one.now ≡ other.now }
    ensures all { one.now ≡ other.now → result ≡ true }
{
    one == other
}

fn are_same_points(one: &[Point], other: &[Point]) -> bool
    ensures same { result ≡ true → one.now ≡ other.now }
    ensures all { one.now ≡ other.now → result ≡ true }
{
    one == other
}

fn is_same_contour(one: &Contour, other: &Contour) -> bool
    ensures same { result ≡ true → contour_data one.now ≡ contour_data other.now }
    ensures all { contour_data one.now ≡ contour_data other.now → result ≡ true }
{
    is_same_name(&one.name, &other.name) && are_same_points(&one.points, &other.points)
}

fn are_same_contours(one: &[Contour], other: &[Contour]) -> bool
    ensures same { result ≡ true → map contour_data one.now ≡ map contour_data other.now }
    ensures all { map contour_data one.now ≡ map contour_data other.now → result ≡ true }
{
    if one.len() != other.len() {
        return false;
    }
    for place in 0..one.len() {
        if !is_same_contour(&one[place], &other[place]) {
            return false;
        }
    }
    true
}

fn is_same_section(one: &Section, other: &Section) -> bool
    ensures same { result ≡ true → section_data one.now ≡ section_data other.now }
    ensures all { section_data one.now ≡ section_data other.now → result ≡ true }
{
    one.z == other.z && are_same_contours(&one.contours, &other.contours)
}

/// Whether two lists of sections have the same section at a place, counted from 0. Takes no memory.
pub fn is_same_at(old: &[Section], sections: &[Section], place: usize) -> bool
    ensures same { result ≡ true → IsSameAt (map section_data old.now) (map section_data sections.now) place }
    ensures all { IsSameAt (map section_data old.now) (map section_data sections.now) place → result ≡ true }
{
    place < old.len() && place < sections.len() && is_same_section(&old[place], &sections[place])
}

fn is_same_link(one: &Link, other: &Link) -> bool
    ensures same { result ≡ true → link_parts one.now ≡ link_parts other.now }
    ensures all { link_parts one.now ≡ link_parts other.now → result ≡ true }
{
    is_same_name(&one.below, &other.below) && is_same_name(&one.above, &other.above)
}

fn are_same_links(one: &[Link], other: &[Link]) -> bool
    ensures same { result ≡ true → map link_parts one.now ≡ map link_parts other.now }
    ensures all { map link_parts one.now ≡ map link_parts other.now → result ≡ true }
{
    if one.len() != other.len() {
        return false;
    }
    for place in 0..one.len() {
        if !is_same_link(&one[place], &other[place]) {
            return false;
        }
    }
    true
}

fn is_same_cost(one: CostRule, other: CostRule) -> bool
    ensures same { result ≡ true → one ≡ other }
    ensures all { one ≡ other → result ≡ true }
{
    one == other
}

fn is_same_rule(one: PairRule, other: PairRule) -> bool
    ensures same { result ≡ true → one ≡ other }
    ensures all { one ≡ other → result ≡ true }
{
    one == other
}

fn are_same_rules(old: &Sections, sections: &Sections) -> bool
    ensures cost { result ≡ true → old.now.cost ≡ sections.now.cost }
    ensures rule { result ≡ true → old.now.rule ≡ sections.now.rule }
    ensures links { result ≡ true → old.now.links ≡ sections.now.links }
    ensures all { old.now.cost ≡ sections.now.cost → old.now.rule ≡ sections.now.rule
        → old.now.links ≡ sections.now.links
        → result ≡ true }
{
    is_same_cost(old.cost(), sections.cost())
        && is_same_rule(old.rule(), sections.rule())
        && are_same_links(old.links(), sections.links())
}

// Marks of places; a mark is set exactly if two lists have the same section there.
fn same_sections(
    alloc: Global,
    old: &[Section],
    sections: &[Section],
) -> Result<Vec<bool>, NoMemory>
    ensures same { IfOk result (λ v.
        (k : ℕ) → slice_index_or v.items k false ≡ true
        → IsSameAt (map section_data old.now) (map section_data sections.now) k) }
    ensures all { IfOk result (λ v.
        (k : ℕ) → IsSameAt (map section_data old.now) (map section_data sections.now) k
        → slice_index_or v.items k false ≡ true) }
    ensures count { IfOk result (λ v. length v.items ≡ length sections.now) }
{
    let mut marks = Vec::with_capacity(alloc, sections.len())?;
    for place in 0..sections.len() {
        marks.push(is_same_at(old, sections, place))?;
    }
    Ok(marks)
}

/// Whether a mark is set; false past the last.
pub fn is_marked(marks: &[bool], place: usize) -> bool
    ensures { result ≡ slice_index_or marks.now place false }
{
    place < marks.len() && marks[place]
}

// Whether a mark and the next one are set.
fn are_marked(marks: &[bool], place: usize) -> bool
    requires { place < length marks.now }
    ensures first { result ≡ true → slice_index_or marks.now place false ≡ true }
    ensures second { result ≡ true → slice_index_or marks.now (place + 1) false ≡ true }
    ensures both { slice_index_or marks.now place false ≡ true → slice_index_or marks.now (place + 1) false ≡ true
        → result ≡ true }
{
    is_marked(marks, place) && is_marked(marks, place + 1)
}

/// Marks of gaps, each counted from 0 by the section below it. A mark is set only if the gap has the same contours on
/// both sides, under the same rules and links; and it is set, if its sections also have the same heights. Or
/// `NoMemory`.
pub fn same_gaps(alloc: Global, old: &Sections, sections: &Sections) -> Result<Vec<bool>, NoMemory>
    ensures same { IfOk result (λ v.
        (k : ℕ) → slice_index_or v.items k false ≡ true → IsSameGap old.now sections.now k) }
    ensures all { IfOk result (λ v.
        (k : ℕ) → IsSameGap old.now sections.now k → HasSameSections old.now sections.now k
        → slice_index_or v.items k false ≡ true) }
{
    let mut marks = Vec::new(alloc);
    if !are_same_rules(old, sections) {
        return Ok(marks);
    }
    let same = same_sections(alloc, old.sections(), sections.sections())?;
    for gap in 0..same.len() {
        marks.push(are_marked(&same, gap))?;
    }
    Ok(marks)
}
