//! The triangles of all sections.
ghost use Rattle.std.specs.Prelude.{◌≡◌, ◌+◌, ◌*◌, ◌^◌, ◌<◌, ◌≤◌, ◌++◌, ◌≤ℤ◌, ◌==◌, if◌then◌else◌, [], IfOk, IfErr, OnOk, length, map, pos};
ghost use Rattle.plane_geom.specs.Planes.{signed_sum};
ghost use Rattle.triangle_meshes.specs.Tiles.{tiles};
ghost use Rattle.row_paths.specs.Solutions.{Solves};
ghost use Rattle.pair_pool.specs.Solvers.{SolvesEach};
ghost use Rattle.correspondence.specs.Contours.{points_of};
ghost use Rattle.std.specs.List.{flat_map};
ghost use Rattle.std.specs.List.Sorted.{IsNonDecreasingBy};
ghost use Rattle.section_core.specs.ValidSections.{AreValidSections};
ghost use Rattle.section_pairs.specs.declared.gap_pairs.GapPair.{GapPair as HeldPair};
ghost use Rattle.section_pairs.specs.Pairs.{pair_parts};
ghost use Rattle.section_pairs.specs.SectionFaults.{ArePairs};
ghost use Rattle.surface_core.specs.Surfaces.{strip_triangles, strips_in, capped_triangles, capped_folded};
ghost use Rattle.surface_core.specs.Objects.{pair_cost_limit};
ghost use Rattle.surface_core.specs.Caps.{AreCaps};

use crate::capping::CapRule;
use crate::caps::append;
use crate::near_pairs::add_strips_near;
use fku_types::limits::MAX_PAIRS;
use fku_types::{NoMemory, Point};
use ring_polygons::CapList;
use row_paths::Solved;
use section_core::{Section, Sections};
use section_pairs::{GapPair, count_vertices};
use std::alloc::Global;
use strip_graph::Pair;
use triangle_meshes::add_tiles;

// Appends the tiles of a pair if it belongs to a gap. Takes no memory if it does not.
fn add_strip(
    pair: &GapPair,
    solved: &Solved,
    gap: u32,
    triangles: &mut Vec<[u32; 3]>,
) -> Result<(), NoMemory>
    requires { Solves pair.now.pair solved.now }
    ensures sure { (pair.now.gap ≡ gap → ⊥) → IfErr result (λ _. ⊥) }
    ensures triangles { OnOk result
        (triangles.new.items
        ≡ triangles.old.items
        ++ (if pair.now.gap == gap then tiles pair.now.pair.low_ids pair.now.pair.high_ids solved.now.row 0
        solved.now.word else [])) }
{
    if pair.gap != gap {
        return Ok(());
    }
    add_tiles(triangles, &pair.pair, solved.tiling())
}

/// Appends the tiles of the pairs of a gap, which is counted from 0, each in the order of its word; or `NoMemory`. Each
/// pair is solved by the solution at its index.
pub fn add_strips(
    pairs: &[GapPair],
    solved: &[Solved],
    gap: u32,
    triangles: &mut Vec<[u32; 3]>,
) -> Result<(), NoMemory>
    requires { SolvesEach (strips_in (map pair_parts pairs.now)) solved.now }
    ensures { OnOk result
        (triangles.new.items ≡ triangles.old.items ++ strip_triangles gap (map pair_parts pairs.now) solved.now) }
{
    for place in 0..pairs.len() {
        add_strip(&pairs[place], &solved[place], gap, triangles)?;
    }
    Ok(())
}

// Appends the triangles of a section, counted from 0: its caps, and the strips of the gap above it.
fn add_section(
    caps: &CapList,
    pairs: &[GapPair],
    solved: &[Solved],
    place: u32,
    list: &mut CapList,
) -> Result<(), NoMemory>
    requires sorted { IsNonDecreasingBy (λ (p : HeldPair). p.gap) pairs.now }
    requires solved { SolvesEach (strips_in (map pair_parts pairs.now)) solved.now }
    requires folded { list.old.folded + caps.now.folded < 2 ^ 32 }
    ensures triangles { OnOk result
        (list.new.triangles.items
        ≡ list.old.triangles.items
        ++ (caps.now.triangles.items ++ strip_triangles place (map pair_parts pairs.now) solved.now)) }
    ensures folded { OnOk result (list.new.folded ≡ list.old.folded + caps.now.folded) }
{
    append(list, caps)?;
    add_strips_near(pairs, solved, place, &mut list.triangles)?;
    Ok(())
}

// How many triangles to reserve memory for: on both faces, for each ring as many as it has vertices, and two for a
// bridge to it.
fn room_for(sections: &[Section]) -> usize
    requires { AreValidSections sections.now }
{
    let mut room: usize = 0;
    for section in sections {
        room = room
            .saturating_add(count_vertices(section) as usize)
            .saturating_add(2 * section.contours.len());
    }
    room.saturating_mul(2)
}

/// The triangles of all sections with these caps, and how many triangles of the caps are folded; or `NoMemory`.
pub fn all_triangles<C: CapRule>(
    alloc: Global,
    sections: &Sections,
    pairs: &[GapPair],
    solved: &[Solved],
    caps: &[CapList],
) -> Result<CapList, NoMemory>
    requires pairs { ArePairs sections.now (map pair_parts pairs.now) }
    requires solved { SolvesEach (strips_in (map pair_parts pairs.now)) solved.now }
    requires caps { AreCaps C.capping sections.now (map pair_parts pairs.now) caps.now }
    ensures triangles { IfOk result (λ l.
        l.triangles.items ≡ capped_triangles C.capping sections.now (map pair_parts pairs.now) solved.now) }
    ensures folded { IfOk result (λ l.
        l.folded ≡ capped_folded C.capping sections.now (map pair_parts pairs.now)) }
{
    let all = sections.sections();
    let triangles = Vec::with_capacity(alloc, room_for(all))?;
    let mut list = CapList {
        triangles,
        folded: 0,
    };
    for place in 0..all.len() {
        add_section(&caps[place], pairs, solved, place as u32, &mut list)?;
    }
    Ok(list)
}

// Adds the points of a section.
fn add_points(section: &Section, points: &mut Vec<Point>) -> Result<(), NoMemory>
    ensures { OnOk result (points.new.items ≡ points.old.items ++ flat_map points_of section.now.contours.items) }
{
    for contour in &section.contours {
        points.extend_from_slice(&contour.points)?;
    }
    Ok(())
}

/// The points of sections, in file order; or `NoMemory`.
pub fn all_points(alloc: Global, sections: &[Section]) -> Result<Vec<Point>, NoMemory>
    ensures { IfOk result (λ v. v.items ≡ flat_map (λ s. flat_map points_of s.contours.items) sections.now) }
{
    let mut points = Vec::new(alloc);
    for section in sections {
        add_points(section, &mut points)?;
    }
    Ok(points)
}

// The cost of a pair's solution, which is not large.
fn cost_of(pair: &Pair, solved: &Solved) -> i128
    requires { Solves pair.now solved.now }
    ensures value { result ≡ solved.now.cost }
    ensures some { pos 0 ≤ℤ result }
    ensures few { result ≤ℤ pos pair_cost_limit }
{
    let _low = pair.low();
    let _high = pair.high();
    solved.cost()
}

/// The sum of the costs of at most `MAX_PAIRS` solutions.
pub fn total_cost(pairs: &[GapPair], solved: &[Solved]) -> i128
    requires solved { SolvesEach (strips_in (map pair_parts pairs.now)) solved.now }
    requires few { length pairs.now ≤ MAX_PAIRS }
    ensures sum { result ≡ signed_sum (λ x. x.cost) solved.now }
    ensures some { pos 0 ≤ℤ result }
    ensures few_cost { result ≤ℤ pos (length pairs.now * pair_cost_limit) }
{
    let mut cost = 0;
    for place in 0..pairs.len() {
        cost += cost_of(&pairs[place].pair, &solved[place]);
    }
    cost
}
