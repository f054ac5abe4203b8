//! Parts that a caller passes in.
ghost use Rattle.std.specs.Prelude.{◌≡◌, ℤ, pos, map, length, [], ◌∷◌, true, OnOk, IfErr};
ghost use Rattle.std.specs.List.{flat_map, list_all, AllByRecursion};
ghost use Rattle.fku_types.specs.Names.{is_name};
ghost use Rattle.section_core.specs.Costs.{cost_parts};
ghost use Rattle.section_core.specs.Numbers.{NumberIs};
ghost use Rattle.section_core.specs.Machine.{section, contour};
ghost use Rattle.section_core.specs.Laws.{Facts};
ghost use Rattle.section_core.specs.Steps.{after, first_broken, is_weighted, are_weights};
ghost use Rattle.section_core.specs.Tallies.{Tallies, Admits, Judges};
ghost use Rattle.section_core.specs.Made.{Walks, section_pieces, contour_pieces, link_piece, is_good, IsNamed, AreNamed, IsLinkNamed, ArePiecesLawful, pieces_of, IsPieceFault, IsMakeMemory, nothing};

use crate::parts::{Contour, Link, Section};
use crate::tally::{Tally, coordinate, is_coordinate, mix, point_count};
use fku_types::{CostRule, Fault, LimitName, Name, Point};
use std::alloc::Global;
use text_io::Number;

// Admits a height, or returns its fault.
fn admit_height(z: Number, tally: &mut Tally) -> Result<(), Fault>
    ensures { (f : Facts) (y : ℤ) → Tallies tally.old f
        → NumberIs z y
        → Judges 0 result (first_broken f (section y)) (λ _. Tallies tally.new (after f (section y))) }
{
    let Some(z) = coordinate(z) else {
        return Err(Fault::Range { line: 0 });
    };
    tally.section(z, 0)
}

// Admits a contour, or returns its fault.
fn admit_name(name: &Name, count: Number, tally: &mut Tally) -> Result<(), Fault>
    ensures named { is_name name.now ≡ true }
    ensures admits { (f : Facts) (k : ℤ) → Tallies tally.old f
        → NumberIs count k
        → Admits 0 result (first_broken f (contour name.now k)) (λ _.
        Tallies tally.new (after f (contour name.now k))) }
{
    let _ = name.as_bytes();
    if tally.has_name(name) {
        return Err(Fault::NameTwice { line: 0 });
    }
    let Some(count) = point_count(count) else {
        let limit = LimitName::ContourVertices;
        return Err(Fault::Limit { limit, line: 0 });
    };
    tally.contour(name, count, 0)
}

fn is_good(section: &Section, point: &Point) -> bool
    ensures { result ≡ is_good section.now.z point.now }
{
    point.z == section.z && (is_coordinate(point.x) && is_coordinate(point.y))
}

fn are_good(section: &Section, points: &[Point]) -> bool
    ensures { result ≡ list_all (is_good section.now.z) points.now }
{
    points.iter().all(|p| is_good(section, p))
}

fn count_of(points: &[Point]) -> Number
    ensures { NumberIs result (pos (length points.now)) }
{
    Number::Value(points.len() as i128)
}

fn height_of(section: &Section) -> Number
    ensures { NumberIs result section.now.z }
{
    Number::Value(i128::from(section.z))
}

fn admit_contour(section: &Section, contour: &Contour, tally: &mut Tally) -> Result<(), Fault>
    ensures named { IsNamed contour.now }
    ensures walks { (f : Facts) → Tallies tally.old f
        → Walks f (contour_pieces section.now.z contour.now) result tally.new }
{
    match admit_name(&contour.name, count_of(&contour.points), tally) {
        Err(fault) => Err(fault),
        Ok(()) => {
            if are_good(section, &contour.points) {
                Ok(())
            } else {
                Err(Fault::Range { line: 0 })
            }
        }
    }
}

fn admit_contours(section: &Section, tally: &mut Tally) -> Result<(), Fault>
    ensures named { OnOk result (AreNamed section.now) }
    ensures walks { (f : Facts) → Tallies tally.old f
        → Walks f (flat_map (contour_pieces section.now.z) section.now.contours.items) result tally.new }
{
    for contour in &section.contours {
        match admit_contour(section, contour, tally) {
            Err(fault) => return Err(fault),
            Ok(()) => {}
        }
    }
    Ok(())
}

fn admit_section(section: &Section, tally: &mut Tally) -> Result<(), Fault>
    ensures named { OnOk result (AreNamed section.now) }
    ensures walks { (f : Facts) → Tallies tally.old f → Walks f (section_pieces section.now) result tally.new }
{
    match admit_height(height_of(section), tally) {
        Err(fault) => Err(fault),
        Ok(()) => admit_contours(section, tally),
    }
}

/// Admits sections, or returns their first fault.
pub fn admit_sections(sections: &[Section], tally: &mut Tally) -> Result<(), Fault>
    ensures named { OnOk result (AllByRecursion AreNamed sections.now) }
    ensures walks { (f : Facts) → Tallies tally.old f
        → Walks f (flat_map section_pieces sections.now) result tally.new }
{
    for section in sections {
        match admit_section(section, tally) {
            Err(fault) => return Err(fault),
            Ok(()) => {}
        }
    }
    Ok(())
}

fn admit_link(link: &Link, tally: &mut Tally) -> Result<(), Fault>
    ensures named { IsLinkNamed link.now }
    ensures walks { (f : Facts) → Tallies tally.old f → Walks f (link_piece link.now ∷ []) result tally.new }
{
    let _ = link.below.as_bytes();
    let _ = link.above.as_bytes();
    tally.link(0)
}

/// Admits links, or returns their first fault.
pub fn admit_links(links: &[Link], tally: &mut Tally) -> Result<(), Fault>
    ensures named { OnOk result (AllByRecursion IsLinkNamed links.now) }
    ensures walks { (f : Facts) → Tallies tally.old f → Walks f (map link_piece links.now) result tally.new }
{
    for link in links {
        match admit_link(link, tally) {
            Err(fault) => return Err(fault),
            Ok(()) => {}
        }
    }
    Ok(())
}

// Whether the weights of a mix are in their range.
fn is_weighted(cost: CostRule) -> bool
    ensures { result ≡ is_weighted (cost_parts cost) }
{
    match cost {
        CostRule::Span | CostRule::Area => true,
        CostRule::Mix { span, area } => are_weights(span, area),
    }
}

fn are_weights(span: u32, area: u32) -> bool
    ensures { result ≡ are_weights (pos span) (pos area) }
{
    mix(number_of(span), number_of(area)).is_some()
}

fn number_of(weight: u32) -> Number
    ensures { NumberIs result (pos weight) }
{
    Number::Value(i128::from(weight))
}

// Admits the parts of one object, or returns their first fault.
fn admit_pieces(
    cost: CostRule,
    sections: &[Section],
    links: &[Link],
    tally: &mut Tally,
) -> Result<(), Fault>
    ensures named { OnOk result (AllByRecursion AreNamed sections.now × AllByRecursion IsLinkNamed links.now) }
    ensures walks { Tallies tally.old nothing
        → Walks nothing (pieces_of (cost_parts cost) sections.now links.now) result tally.new }
{
    if !is_weighted(cost) {
        return Err(Fault::Range { line: 0 });
    }
    match admit_sections(sections, tally) {
        Err(fault) => Err(fault),
        Ok(()) => admit_links(links, tally),
    }
}

/// Admits parts, or returns their first fault.
pub fn admit_parts(
    alloc: Global,
    cost: CostRule,
    sections: &[Section],
    links: &[Link],
) -> Result<(), Fault>
    ensures ok { OnOk result (ArePiecesLawful (pieces_of (cost_parts cost) sections.now links.now)) }
    ensures named { OnOk result (AllByRecursion AreNamed sections.now × AllByRecursion IsLinkNamed links.now) }
    ensures fault { IfErr result (IsPieceFault (pieces_of (cost_parts cost) sections.now links.now)) }
    // Only the names of contours take memory.
    ensures memory { IfErr result (IsMakeMemory (pieces_of (cost_parts cost) sections.now links.now)) }
{
    let mut tally = Tally::new(alloc);
    admit_pieces(cost, sections, links, &mut tally)
}
