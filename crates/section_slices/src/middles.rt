//! The middle sections, and the given sections with them.
ghost use Rattle.std.specs.Prelude.{◌≡◌, ◌+◌, ◌<◌, ◌≤◌, All, IfOk, filter, length, map};
ghost use Rattle.std.specs.List.{flat_map, range_with_len};
ghost use Rattle.section_core.specs.Flat.{IsAtHeight, IsLevelSection};
ghost use Rattle.section_core.specs.Views.{contour_parts, section_parts};
ghost use Rattle.section_pairs.specs.Pairs.{pair_parts};
ghost use Rattle.section_slices.specs.Densified.{middle_height, middle_name, contour_through, middle_contour, middle_section, section_and_middle, pair_places_in, is_at_height_of};
ghost use Rattle.section_slices.specs.Marks.{dense_gaps, outlines_of, numbered_name};
ghost use Rattle.section_core.specs.Views.{placed};

use crate::gaps::rise;
use arrayvec::ArrayVec;
use fku_types::limits::{MAX_NAME_BYTES, MAX_PAIRS};
use fku_types::{Name, NoMemory, Point, Spot};
use itoa::Buffer;
use section_core::{Contour, Section, Sections};
use section_pairs::GapPair;
use std::alloc::Global;

// The height in the middle of a gap.
fn middle_height(sections: &Sections, gap: u32) -> i32
    requires { gap + 1 < length sections.now.sections }
    ensures { result ≡ middle_height sections.now gap }
{
    sections.sections()[gap as usize].z + (rise(sections, gap) / 2) as i32
}

/// The name of the middle contour of the pair at a place.
pub fn middle_name(place: u32) -> Name
    requires { place < MAX_PAIRS }
    ensures { result ≡ middle_name place }
{
    Name::of(&name_text(place + 1)).unwrap()
}

fn name_text(number: u32) -> ArrayVec<u8, MAX_NAME_BYTES>
    requires { number ≤ MAX_PAIRS }
    ensures { result.items ≡ numbered_name number }
{
    let mut buffer = Buffer::new();
    let mut text = ArrayVec::new();
    text.push(b'm');
    text.try_extend_from_slice(buffer.format(number).as_bytes())
        .unwrap();
    text
}

// The point of a height at a spot.
fn placed(z: i32, spot: &Spot) -> Point
    ensures { result ≡ placed z spot.now }
{
    Point {
        x: spot.x,
        y: spot.y,
        z,
    }
}

fn all_placed(alloc: Global, z: i32, spots: &[Spot]) -> Result<Vec<Point>, NoMemory>
    ensures { IfOk result (λ v. v.items ≡ map (placed z) spots.now) }
{
    let mut points = Vec::with_capacity(alloc, spots.len())?;
    for spot in spots {
        points.push(placed(z, spot))?;
    }
    Ok(points)
}

// The contour at a height through spots.
fn contour_through(alloc: Global, z: i32, name: Name, outline: &[Spot]) -> Result<Contour, NoMemory>
    ensures parts { IfOk result (λ c. contour_parts c ≡ contour_through name outline.now) }
    ensures level { IfOk result (IsAtHeight z) }
{
    let points = all_placed(alloc, z, outline)?;
    Ok(Contour { name, points })
}

// The contours at a height through the outlines of the pairs of a gap.
fn middle_contours(
    alloc: Global,
    pairs: &[GapPair],
    outlines: &[Vec<Spot>],
    gap: u32,
    z: i32,
) -> Result<Vec<Contour>, NoMemory>
    requires outlines { length outlines.now ≡ length pairs.now }
    requires few { length pairs.now ≤ MAX_PAIRS }
    ensures parts { IfOk result (λ v.
        map contour_parts v.items
        ≡ map (middle_contour (outlines_of outlines.now)) (pair_places_in (map pair_parts pairs.now) gap)) }
    ensures level { IfOk result (λ v. All (IsAtHeight z) v.items) }
{
    let mut contours = Vec::new(alloc);
    for place in 0..pairs.len() {
        if pairs[place].gap == gap {
            let name = middle_name(place as u32);
            contours.push(contour_through(alloc, z, name, &outlines[place])?)?;
        }
    }
    Ok(contours)
}

fn middle_section(
    alloc: Global,
    sections: &Sections,
    pairs: &[GapPair],
    outlines: &[Vec<Spot>],
    gap: u32,
) -> Result<Section, NoMemory>
    requires gap { gap + 1 < length sections.now.sections }
    requires outlines { length outlines.now ≡ length pairs.now }
    requires few { length pairs.now ≤ MAX_PAIRS }
    ensures parts { IfOk result (λ s.
        section_parts s ≡ middle_section sections.now (map pair_parts pairs.now) (outlines_of outlines.now) gap) }
    ensures level { IfOk result IsLevelSection }
{
    let z = middle_height(sections, gap);
    let contours = middle_contours(alloc, pairs, outlines, gap, z)?;
    Ok(Section { z, contours })
}

/// The sections, with the middle sections of dense gaps between them; or `NoMemory`.
pub fn with_middles(
    alloc: Global,
    sections: &Sections,
    pairs: &[GapPair],
    outlines: &[Vec<Spot>],
    dense: &[bool],
) -> Result<Vec<Section>, NoMemory>
    requires gaps { All (λ p. p.gap + 1 < length sections.now.sections) pairs.now }
    requires dense { dense.now ≡ dense_gaps sections.now (map pair_parts pairs.now) }
    requires outlines { length outlines.now ≡ length pairs.now }
    requires few { length pairs.now ≤ MAX_PAIRS }
    ensures parts { IfOk result (λ v.
        map section_parts v.items
        ≡ flat_map (section_and_middle sections.now (map pair_parts pairs.now) (outlines_of outlines.now))
        (range_with_len 0 (length sections.now.sections))) }
    ensures level { IfOk result (λ v. All IsLevelSection v.items) }
    // Those at the heights of the given sections are the given sections.
    ensures old { IfOk result (λ v.
        filter (is_at_height_of sections.now) (map section_parts v.items) ≡ sections.now.sections) }
{
    let all = sections.sections();
    let mut made = Vec::new(alloc);
    for gap in 0..all.len() {
        made.push(all[gap].copy(alloc)?)?;
        if dense[gap] {
            let middle = middle_section(alloc, sections, pairs, outlines, gap as u32)?;
            made.push(middle)?;
        }
    }
    Ok(made)
}
