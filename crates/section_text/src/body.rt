//! The lines of an object: its sections, contours, points and links.
ghost use Rattle.std.specs.Prelude.{◌≡◌, ◌+◌, ◌&&◌, ℤ, pos, true, false, MatchOption, [], ◌∷◌, ◌++◌, map, length, IfOk, IfErr, IsSome, Some};
ghost use Rattle.section_core.specs.Parts.{asked, Spot};
ghost use Rattle.section_core.specs.Laws.{Facts};
ghost use Rattle.section_core.specs.Machine.{Item as Said, section, contour, point, link, in_section, in_contour, in_links, opened, linked, step, bare, with_section, sections_of, links_of, is_whole};
ghost use Rattle.section_core.specs.Steps.{after, first_broken, is_coordinate};
ghost use Rattle.section_core.specs.Reader.{checked, judged};
ghost use Rattle.section_core.specs.Tallies.{Tallies, Judges};
ghost use Rattle.section_core.specs.Flat.{IsAtHeight, IsFlat, AreFlat};
ghost use Rattle.section_text.specs.Items.{ItemIs};
ghost use Rattle.section_core.specs.Numbers.{NumberIs};
ghost use Rattle.section_core.specs.Views.{spot_of, section_parts, contour_parts, link_parts};
ghost use Rattle.section_text.specs.States.{TakesItem, body_of, lacks_inner, IsFlatBody};

use crate::item::Item;
use crate::states::Body;
use fku_types::{Fault, LimitName, Name, PairRule, Point};
use section_core::{Contour, Link, Section, Tally, coordinate, point_count};
use std::alloc::Global;
use text_io::Number;

// The height of a section that begins.
fn next_height(z: Number, tally: &mut Tally, line: u32) -> Result<i32, Fault>
    ensures { (f : Facts) (y : ℤ) → Tallies tally.old f
        → NumberIs z y
        → Judges line result (first_broken f (section y)) (λ v. (v ≡ y) × Tallies tally.new (after f (section y))) }
{
    let Some(z) = coordinate(z) else {
        return Err(Fault::Range { line });
    };
    tally.section(z, line)?;
    Ok(z)
}

// A link that was admitted, after whole sections.
fn with_link(sections: Vec<Section>, links: Vec<Link>, added: Link) -> Result<Body, Fault>
    ensures ok { IfOk result (λ s.
        body_of s
        ≡ in_links (map section_parts sections.items) (map link_parts links.items ++ link_parts added ∷ [])) }
    ensures err { IfErr result (λ e. e ≡ Fault.NoMemory) }
    ensures flat { AreFlat sections.items → IfOk result IsFlatBody }
{
    let mut links = links;
    match links.push(added) {
        Err(_) => Err(Fault::NoMemory),
        Ok(()) => Ok(Body::InLinks(sections, links)),
    }
}

// A link after whole sections.
fn add_link(
    rule: PairRule,
    sections: Vec<Section>,
    links: Vec<Link>,
    added: Link,
    tally: &mut Tally,
    line: u32,
) -> Result<Body, Fault>
    ensures takes { (f : Facts) → Tallies tally.old f
        → TakesItem body_of line
        (judged (linked rule (map section_parts sections.items) (map link_parts links.items) (link_parts added))
        (first_broken f (link (link_parts added)))) result tally.new (after f (link (link_parts added))) }
    ensures flat { AreFlat sections.items → IfOk result IsFlatBody }
{
    match rule {
        PairRule::Overlap => Err(Fault::Form { line }),
        PairRule::Links => {
            tally.link(line)?;
            with_link(sections, links, added)
        }
    }
}

fn with_section(front: Vec<Section>, section: Section) -> Result<Vec<Section>, Fault>
    ensures ok { IfOk result (λ v.
        map section_parts v.items
        ≡ with_section (map section_parts front.items) section.z (map contour_parts section.contours.items)) }
    ensures err { IfErr result (λ e. e ≡ Fault.NoMemory) }
    ensures flat { AreFlat front.items → IsFlat section → IfOk result (λ v. AreFlat v.items) }
{
    let mut front = front;
    match front.push(section) {
        Err(_) => Err(Fault::NoMemory),
        Ok(()) => Ok(front),
    }
}

fn bare(
    alloc: Global,
    rule: PairRule,
    item: Item,
    tally: &mut Tally,
    line: u32,
) -> Result<Body, Fault>
    ensures takes { (it : Said) → ItemIs item it
        → (f : Facts) → Tallies tally.old f
        → TakesItem body_of line (judged (step rule bare it) (first_broken f it)) result tally.new (after f it) }
    ensures flat { IfOk result IsFlatBody }
{
    match item {
        Item::Section(z) => {
            let z = next_height(z, tally, line)?;
            let contours = Vec::new(alloc);
            Ok(Body::InSection(Vec::new(alloc), Section { z, contours }))
        }
        Item::Link(below, above) => add_link(
            rule,
            Vec::new(alloc),
            Vec::new(alloc),
            Link { below, above },
            tally,
            line,
        ),
        _ => Err(Fault::Form { line }),
    }
}

fn in_links(
    rule: PairRule,
    sections: Vec<Section>,
    links: Vec<Link>,
    item: Item,
    tally: &mut Tally,
    line: u32,
) -> Result<Body, Fault>
    ensures takes { (it : Said) → ItemIs item it
        → (f : Facts) → Tallies tally.old f
        → TakesItem body_of line
        (judged (step rule (in_links (map section_parts sections.items) (map link_parts links.items)) it)
        (first_broken f it)) result tally.new (after f it) }
    ensures flat { AreFlat sections.items → IfOk result IsFlatBody }
{
    match item {
        Item::Link(below, above) => {
            add_link(rule, sections, links, Link { below, above }, tally, line)
        }
        _ => Err(Fault::Form { line }),
    }
}

// A contour begins in the open section.
fn begin_contour(
    alloc: Global,
    front: Vec<Section>,
    section: Section,
    name: Name,
    count: Number,
    tally: &mut Tally,
    line: u32,
) -> Result<Body, Fault>
    ensures takes { (f : Facts) (k : ℤ) → Tallies tally.old f
        → NumberIs count k
        → TakesItem body_of line
        (checked (first_broken f (contour name k))
        (opened (map section_parts front.items) section.z (map contour_parts section.contours.items) name k
        [] (asked k))) result tally.new (after f (contour name k)) }
    ensures flat { AreFlat front.items → IsFlat section → IfOk result IsFlatBody }
{
    if tally.has_name(&name) {
        return Err(Fault::NameTwice { line });
    }
    let Some(count) = point_count(count) else {
        let limit = LimitName::ContourVertices;
        return Err(Fault::Limit { limit, line });
    };
    tally.contour(&name, count, line)?;
    let points = Vec::with_capacity(alloc, count as usize)?;
    let contour = Contour { name, points };
    Ok(Body::InContour(front, section, contour, count - 1))
}

// A section begins after another one.
fn next_section(
    alloc: Global,
    front: Vec<Section>,
    last: Section,
    z: Number,
    tally: &mut Tally,
    line: u32,
) -> Result<Body, Fault>
    ensures takes { (f : Facts) (y : ℤ) → Tallies tally.old f
        → NumberIs z y
        → TakesItem body_of line
        (checked (first_broken f (section y))
        (in_section
        (with_section (map section_parts front.items) last.z (map contour_parts last.contours.items)) y
        [])) result tally.new (after f (section y)) }
    ensures flat { AreFlat front.items → IsFlat last → IfOk result IsFlatBody }
{
    let z = next_height(z, tally, line)?;
    let front = with_section(front, last)?;
    let contours = Vec::new(alloc);
    Ok(Body::InSection(front, Section { z, contours }))
}

// The first link, after the open section.
fn first_link(
    alloc: Global,
    rule: PairRule,
    front: Vec<Section>,
    section: Section,
    added: Link,
    tally: &mut Tally,
    line: u32,
) -> Result<Body, Fault>
    ensures takes { (f : Facts) → Tallies tally.old f
        → TakesItem body_of line
        (judged
        (linked rule
        (with_section (map section_parts front.items) section.z
        (map contour_parts section.contours.items)) [] (link_parts added))
        (first_broken f (link (link_parts added)))) result tally.new (after f (link (link_parts added))) }
    ensures flat { AreFlat front.items → IsFlat section → IfOk result IsFlatBody }
{
    match rule {
        PairRule::Overlap => Err(Fault::Form { line }),
        PairRule::Links => {
            tally.link(line)?;
            let sections = with_section(front, section)?;
            with_link(sections, Vec::new(alloc), added)
        }
    }
}

fn in_section(
    alloc: Global,
    rule: PairRule,
    front: Vec<Section>,
    section: Section,
    item: Item,
    tally: &mut Tally,
    line: u32,
) -> Result<Body, Fault>
    ensures takes { (it : Said) → ItemIs item it
        → (f : Facts) → Tallies tally.old f
        → TakesItem body_of line
        (judged
        (step rule
        (in_section (map section_parts front.items) section.z
        (map contour_parts section.contours.items)) it) (first_broken f it)) result tally.new
        (after f it) }
    ensures flat { AreFlat front.items → IsFlat section → IfOk result IsFlatBody }
{
    match item {
        Item::Section(z) => next_section(alloc, front, section, z, tally, line),
        Item::Contour(name, count) => {
            begin_contour(alloc, front, section, name, count, tally, line)
        }
        Item::Link(below, above) => {
            first_link(
                alloc,
                rule,
                front,
                section,
                Link { below, above },
                tally,
                line,
            )
        }
        _ => Err(Fault::Form { line }),
    }
}

// The coordinates of a point, if both are in range.
fn coordinates(x: Number, y: Number) -> Option<(i32, i32)>
    ensures { (p : Spot) → NumberIs x p.0
        → NumberIs y p.1
        → MatchOption result ((is_coordinate p.0 && is_coordinate p.1) ≡ false) (λ q.
        (q.0 ≡ p.0) × (q.1 ≡ p.1) × ((is_coordinate p.0 && is_coordinate p.1) ≡ true)) }
{
    let Some(x) = coordinate(x) else {
        return None;
    };
    let Some(y) = coordinate(y) else {
        return None;
    };
    Some((x, y))
}

// Adds a point; the contour is whole with its last one.
fn add_point(
    front: Vec<Section>,
    section: Section,
    contour: Contour,
    missing: u32,
    x: i32,
    y: i32,
) -> Result<Body, Fault>
    ensures ok { IfOk result (λ s.
        body_of s
        ≡ opened (map section_parts front.items) section.z (map contour_parts section.contours.items) contour.name
        (pos (length contour.points.items + missing + 1)) (map spot_of contour.points.items ++ (x, y) ∷ [])
        missing) }
    ensures err { IfErr result (λ e. e ≡ Fault.NoMemory) }
    ensures flat { AreFlat front.items → IsFlat section → IsAtHeight section.z contour → IfOk result IsFlatBody }
{
    let z = section.z;
    let contour = with_point(contour, Point { x, y, z })?;
    if missing > 0 {
        return Ok(Body::InContour(front, section, contour, missing - 1));
    }
    let section = with_contour(section, contour)?;
    Ok(Body::InSection(front, section))
}

fn with_point(contour: Contour, point: Point) -> Result<Contour, Fault>
    ensures ok { IfOk result (λ c.
        (c.name ≡ contour.name)
        × (length c.points.items ≡ length contour.points.items + 1)
        × (map spot_of c.points.items ≡ map spot_of contour.points.items ++ spot_of point ∷ [])) }
    ensures err { IfErr result (λ e. e ≡ Fault.NoMemory) }
    ensures flat { IsAtHeight point.z contour → IfOk result (IsAtHeight point.z) }
{
    let mut contour = contour;
    match contour.points.push(point) {
        Err(_) => Err(Fault::NoMemory),
        Ok(()) => Ok(contour),
    }
}

fn with_contour(section: Section, contour: Contour) -> Result<Section, Fault>
    ensures ok { IfOk result (λ s.
        (s.z ≡ section.z)
        × (map contour_parts s.contours.items
        ≡ map contour_parts section.contours.items ++ contour_parts contour ∷ [])) }
    ensures err { IfErr result (λ e. e ≡ Fault.NoMemory) }
    ensures flat { IsFlat section → IsAtHeight section.z contour → IfOk result IsFlat }
{
    let mut section = section;
    match section.contours.push(contour) {
        Err(_) => Err(Fault::NoMemory),
        Ok(()) => Ok(section),
    }
}

fn in_contour(
    rule: PairRule,
    front: Vec<Section>,
    section: Section,
    contour: Contour,
    missing: u32,
    item: Item,
    tally: &mut Tally,
    line: u32,
) -> Result<Body, Fault>
    ensures takes { (it : Said) → ItemIs item it
        → (f : Facts) → Tallies tally.old f
        → TakesItem body_of line
        (judged
        (step rule
        (in_contour (map section_parts front.items) section.z (map contour_parts section.contours.items)
        contour.name (pos (length contour.points.items + missing + 1))
        (map spot_of contour.points.items) missing) it) (first_broken f it)) result tally.new
        (after f it) }
    ensures flat { AreFlat front.items → IsFlat section → IsAtHeight section.z contour → IfOk result IsFlatBody }
{
    match item {
        Item::Point(x, y) => match coordinates(x, y) {
            None => Err(Fault::Range { line }),
            Some((x, y)) => add_point(front, section, contour, missing, x, y),
        },
        _ => Err(Fault::Form { line }),
    }
}

/// Adds one more item to the open object.
pub fn take_inside(
    alloc: Global,
    rule: PairRule,
    body: Body,
    item: Item,
    tally: &mut Tally,
    line: u32,
) -> Result<Body, Fault>
    ensures takes { (it : Said) → ItemIs item it
        → (f : Facts) → Tallies tally.old f
        → TakesItem body_of line (judged (step rule (body_of body) it) (first_broken f it)) result tally.new
        (after f it) }
    ensures flat { IsFlatBody body → IfOk result IsFlatBody }
{
    match body {
        Body::Bare => bare(alloc, rule, item, tally, line),
        Body::InSection(front, section) => {
            in_section(alloc, rule, front, section, item, tally, line)
        }
        Body::InContour(front, section, contour, missing) => {
            in_contour(rule, front, section, contour, missing, item, tally, line)
        }
        Body::InLinks(sections, links) => in_links(rule, sections, links, item, tally, line),
    }
}

/// Whether no contour is open.
pub fn is_whole(body: &Body) -> bool
    ensures { result ≡ is_whole (body_of body.now) }
{
    match body {
        Body::InContour(_, _, _, _) => false,
        _ => true,
    }
}

/// The sections and links of an object no contour of which is open.
pub fn whole_parts(alloc: Global, body: Body) -> Result<(Vec<Section>, Vec<Link>), Fault>
    requires { is_whole (body_of body) ≡ true }
    ensures ok { IfOk result (λ p.
        (map section_parts p.0.items ≡ sections_of (body_of body))
        × (map link_parts p.1.items ≡ links_of (body_of body))) }
    ensures err { IfErr result (λ e. e ≡ Fault.NoMemory) }
    ensures flat { IsFlatBody body → IfOk result (λ p. AreFlat p.0.items) }
{
    match body {
        Body::Bare => Ok((Vec::new(alloc), Vec::new(alloc))),
        Body::InSection(front, section) => Ok((with_section(front, section)?, Vec::new(alloc))),
        Body::InContour(front, _section, _contour, _missing) => Ok((front, Vec::new(alloc))),
        Body::InLinks(sections, links) => Ok((sections, links)),
    }
}

/// Adds in place a point that is not the last of the open contour; returns `false` if there is no such contour.
pub fn add_inner_point(body: &mut Body, x: i32, y: i32) -> Result<bool, Fault>
    ensures added { IfOk result (λ b. b ≡ true
        → (rule : PairRule) → step rule (body_of body.old) (point (x, y)) ≡ Some (body_of body.new)) }
    ensures same { IfOk result (λ b. b ≡ false → body.new ≡ body.old) }
    // It is added wherever it can be.
    ensures exact { IfOk result (λ b. b ≡ lacks_inner (body_of body.old)) }
    ensures flat { IsFlatBody body.old → IfOk result (λ b. IsFlatBody body.new) }
    ensures err { IfErr result (λ e. e ≡ Fault.NoMemory) }
    ensures stands { IfErr result (λ e. (rule : PairRule) → IsSome (step rule (body_of body.old) (point (x, y)))) }
{
    match body {
        Body::InContour(_, section, contour, missing) if *missing > 0 => {
            let z = section.z;
            match contour.points.push(Point { x, y, z }) {
                Err(_) => Err(Fault::NoMemory),
                Ok(()) => {
                    *missing -= 1;
                    Ok(true)
                }
            }
        }
        _ => Ok(false),
    }
}
