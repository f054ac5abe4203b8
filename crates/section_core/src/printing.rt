//! The canonical text.
ghost use Rattle.std.specs.Prelude.{◌≡◌, ◌≤◌, ◌++◌, [], ◌∷◌, codes, length, pos, IfOk, OnOk, map};
ghost use Rattle.std.specs.List.{flat_map};
ghost use Rattle.std.specs.Fmt.{signed_decimal};
ghost use Rattle.section_core.specs.Costs.{cost_parts};
ghost use Rattle.section_core.specs.Parts.{CostParts, cost_line, rule_word, version_line, version_number, body_lines};
ghost use Rattle.text_io.specs.WordLists.{text, number, line_text};
ghost use Rattle.section_core.specs.Canonical.{text_of, point_text, contour_text, text_of_section, link_text, head_text, name_text, object_text, text_of_file};
ghost use Rattle.section_core.specs.Texts.{IsTextOf, IsTextOfFile};
ghost use Rattle.section_core.specs.Accepted.{IsAccepted};
ghost use Rattle.section_core.specs.Objects.{object_parts, AreUnder};

use crate::objects::{Object, Objects};
use crate::parts::{Contour, Link, Section, Version};
use crate::sections::Sections;
use fku_types::limits::MAX_INPUT_BYTES;
use fku_types::{CostRule, Name, NoMemory, PairRule, Point};
use std::alloc::{AllocError, Global};
use text_io::{put, put_count, put_number};

fn put_coordinate(out: &mut Vec<u8>, z: i32) -> Result<(), AllocError>
    ensures { OnOk result (out.new.items ≡ out.old.items ++ signed_decimal z) }
{
    put_number(out, i64::from(z))
}

fn put_point(out: &mut Vec<u8>, point: &Point) -> Result<(), AllocError>
    ensures { OnOk result (out.new.items ≡ out.old.items ++ point_text point.now) }
{
    put_coordinate(out, point.x)?;
    put(out, b" ")?;
    put_coordinate(out, point.y)?;
    put(out, b"\n")
}

fn put_points(out: &mut Vec<u8>, points: &[Point]) -> Result<(), AllocError>
    ensures { OnOk result (out.new.items ≡ out.old.items ++ flat_map point_text points.now) }
{
    for point in points {
        put_point(out, point)?;
    }
    Ok(())
}

fn put_name(out: &mut Vec<u8>, name: &Name, count: usize) -> Result<(), AllocError>
    ensures { OnOk result
        (out.new.items
        ≡ out.old.items ++ line_text (text (codes "CONTOUR") ∷ text name.now ∷ number (pos count) ∷ [])) }
{
    put(out, b"CONTOUR ")?;
    put(out, name.as_bytes())?;
    put(out, b" ")?;
    put_count(out, count)?;
    put(out, b"\n")
}

fn put_contour(out: &mut Vec<u8>, contour: &Contour) -> Result<(), AllocError>
    ensures { OnOk result (out.new.items ≡ out.old.items ++ contour_text contour.now) }
{
    put_name(out, &contour.name, contour.points.len())?;
    put_points(out, &contour.points)
}

fn put_contours(out: &mut Vec<u8>, contours: &[Contour]) -> Result<(), AllocError>
    ensures { OnOk result (out.new.items ≡ out.old.items ++ flat_map contour_text contours.now) }
{
    for contour in contours {
        put_contour(out, contour)?;
    }
    Ok(())
}

fn put_height(out: &mut Vec<u8>, z: i32) -> Result<(), AllocError>
    ensures { OnOk result (out.new.items ≡ out.old.items ++ line_text (text (codes "SECTION") ∷ number z ∷ [])) }
{
    put(out, b"SECTION ")?;
    put_coordinate(out, z)?;
    put(out, b"\n")
}

fn put_section(out: &mut Vec<u8>, section: &Section) -> Result<(), AllocError>
    ensures { OnOk result (out.new.items ≡ out.old.items ++ text_of_section section.now) }
{
    put_height(out, section.z)?;
    put_contours(out, &section.contours)
}

fn put_sections(out: &mut Vec<u8>, sections: &[Section]) -> Result<(), AllocError>
    ensures { OnOk result (out.new.items ≡ out.old.items ++ flat_map text_of_section sections.now) }
{
    for section in sections {
        put_section(out, section)?;
    }
    Ok(())
}

fn put_link(out: &mut Vec<u8>, link: &Link) -> Result<(), AllocError>
    ensures { OnOk result (out.new.items ≡ out.old.items ++ link_text link.now) }
{
    put(out, b"LINK ")?;
    put(out, link.below.as_bytes())?;
    put(out, b" ")?;
    put(out, link.above.as_bytes())?;
    put(out, b"\n")
}

fn put_links(out: &mut Vec<u8>, links: &[Link]) -> Result<(), AllocError>
    ensures { OnOk result (out.new.items ≡ out.old.items ++ flat_map link_text links.now) }
{
    for link in links {
        put_link(out, link)?;
    }
    Ok(())
}

fn rule_word(rule: PairRule) -> &'static [u8]
    ensures { result.now ≡ rule_word rule }
{
    match rule {
        PairRule::Overlap => b"overlap",
        PairRule::Links => b"links",
    }
}

fn put_version(out: &mut Vec<u8>, version: Version) -> Result<(), AllocError>
    ensures { OnOk result (out.new.items ≡ out.old.items ++ line_text (version_line version)) }
{
    put(out, b"SECTIONS ")?;
    put_count(out, version_number(version))?;
    put(out, b"\n")
}

fn version_number(version: Version) -> usize
    ensures { result ≡ version_number version }
{
    match version {
        Version::One => 1,
        Version::Two => 2,
    }
}

fn put_choice(out: &mut Vec<u8>, keyword: &[u8], word: &[u8]) -> Result<(), AllocError>
    ensures { OnOk result (out.new.items ≡ out.old.items ++ line_text (text keyword.now ∷ text word.now ∷ [])) }
{
    put(out, keyword)?;
    put(out, b" ")?;
    put(out, word)?;
    put(out, b"\n")
}

fn put_weights(out: &mut Vec<u8>, span: u32, area: u32) -> Result<(), AllocError>
    ensures { OnOk result
        (out.new.items
        ≡ out.old.items
        ++ line_text (text (codes "COST") ∷ text (codes "mix") ∷ number (pos span) ∷ number (pos area) ∷ [])) }
{
    put(out, b"COST mix ")?;
    put_count(out, span as usize)?;
    put(out, b" ")?;
    put_count(out, area as usize)?;
    put(out, b"\n")
}

fn put_cost(out: &mut Vec<u8>, cost: CostRule) -> Result<(), AllocError>
    ensures { OnOk result (out.new.items ≡ out.old.items ++ line_text (cost_line (cost_parts cost))) }
{
    match cost {
        CostRule::Span => put_choice(out, b"COST", b"span"),
        CostRule::Area => put_choice(out, b"COST", b"area"),
        CostRule::Mix { span, area } => put_weights(out, span, area),
    }
}

fn put_head(
    out: &mut Vec<u8>,
    version: Version,
    cost: CostRule,
    rule: PairRule,
) -> Result<(), AllocError>
    ensures { OnOk result (out.new.items ≡ out.old.items ++ head_text version (cost_parts cost) rule) }
{
    put_version(out, version)?;
    put_cost(out, cost)?;
    put_choice(out, b"PAIR", rule_word(rule))
}

fn put_object_name(out: &mut Vec<u8>, version: Version, name: &Name) -> Result<(), AllocError>
    ensures { OnOk result (out.new.items ≡ out.old.items ++ name_text version name.now) }
{
    match version {
        Version::One => Ok(()),
        Version::Two => put_choice(out, b"OBJECT", name.as_bytes()),
    }
}

fn put_body(out: &mut Vec<u8>, sections: &Sections) -> Result<(), AllocError>
    ensures text { OnOk result
        (out.new.items
        ≡ out.old.items
        ++ flat_map line_text (body_lines sections.now.rule sections.now.sections sections.now.links)) }
    ensures accepted { IsAccepted sections.now }
{
    let (all, links) = (sections.sections(), sections.links());
    put_sections(out, all)?;
    put_links(out, links)
}

fn put_object(out: &mut Vec<u8>, version: Version, object: &Object) -> Result<(), AllocError>
    ensures { OnOk result
        (out.new.items ≡ out.old.items ++ object_text version object.now.sections.rule (object_parts object.now)) }
{
    put_object_name(out, version, &object.name)?;
    put_body(out, &object.sections)
}

fn put_objects(out: &mut Vec<u8>, version: Version, objects: &[Object]) -> Result<(), AllocError>
    ensures { OnOk result
        ((cost : CostParts) (rule : PairRule) → AreUnder cost rule objects.now
        → out.new.items ≡ out.old.items ++ flat_map (object_text version rule) (map object_parts objects.now)) }
{
    for object in objects {
        put_object(out, version, object)?;
    }
    Ok(())
}

/// The canonical text of sections: one blank between words, a line feed after every line, no comments, no empty lines,
/// numbers without leading zeros. Or `NoMemory`.
pub fn print(alloc: Global, sections: &Sections) -> Result<Vec<u8>, NoMemory>
    // The text is the canonical one.
    ensures canonical { IfOk result (λ v. v.items ≡ text_of sections.now) }
    // The definition reads the text as these sections, with nothing after them.
    ensures law { IfOk result (λ v. IsTextOf v.items sections.now) }
    // It is short enough to be read.
    ensures short { IfOk result (λ v. length v.items ≤ MAX_INPUT_BYTES) }
{
    let mut out = Vec::new(alloc);
    put_head(&mut out, Version::One, sections.cost(), sections.rule())?;
    put_body(&mut out, sections)?;
    put(&mut out, b"END\n")?;
    Ok(out)
}

/// The canonical text of objects in their own version: the objects in order, each with its sections, contours and links
/// in order. Or `NoMemory`.
pub fn print_objects(alloc: Global, objects: &Objects) -> Result<Vec<u8>, NoMemory>
    // The text is the canonical one.
    ensures canonical { IfOk result (λ v. v.items ≡ text_of_file objects.now) }
    // The definition reads the text as these objects, with nothing after them.
    ensures law { IfOk result (λ v. IsTextOfFile v.items objects.now) }
    // It is short enough to be read.
    ensures short { IfOk result (λ v. length v.items ≤ MAX_INPUT_BYTES) }
{
    let version = objects.kept_version();
    let mut out = Vec::new(alloc);
    put_head(&mut out, version, objects.cost(), objects.rule())?;
    put_objects(&mut out, version, objects.items())?;
    put(&mut out, b"END\n")?;
    Ok(out)
}
