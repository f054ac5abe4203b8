//! Sections that are lawful and have a contour.
ghost use Rattle.std.specs.Prelude.{◌≡◌, ◌≤◌, length, map, IfOk, IfErr};
ghost use Rattle.section_core.specs.Costs.{cost_parts, cost_rule};
ghost use Rattle.section_core.specs.Views.{section_parts, link_parts};
ghost use Rattle.section_core.specs.Flat.{AreFlat, section_data};
ghost use Rattle.section_core.specs.Accepted.{IsAccepted};
ghost use Rattle.section_core.specs.ValidSections.{AreValidSections, section_of};
ghost use Rattle.fku_types.specs.Rules.{IsWeighted};
ghost use Rattle.section_core.specs.Parts.{IsParts, IsLinked};
ghost use Rattle.section_core.specs.Laws.{IsLawful};
ghost use Rattle.section_core.specs.Finished.{ended_parts, has_any, Finishes};
ghost use Rattle.std.specs.List.{list_any, AllByRecursion};
ghost use Rattle.section_core.specs.Made.{ArePiecesLawful, pieces_of, AreNamed, IsLinkNamed, IsMakeFault, IsMakeMemory, Refuses, Accepts};

use crate::making::admit_parts;
use crate::parts::{Head, Link, Section};
use fku_types::limits::MAX_LINKS;
use fku_types::{CostRule, Fault, NoMemory, PairRule};
use std::alloc::Global;
use std::marker::Model;

/// The parts of a section text without a fault: ranges, limits, distinct names and rising heights hold, each point is
/// at the height of its section, there is a contour, and there are links only under `Links`. Contracts see the parts of
/// the definition.
#[derive(Drop)]
pub struct Sections {
    cost: CostRule,
    rule: PairRule,
    sections: Vec<Section>,
    links: Vec<Link>,
}

impl Model for Sections {
    ghost use Rattle.section_core.specs.Parts.{Parts};

    ghost Value = { Parts };

    ghost use Rattle.section_core.specs.Sections.{held_parts, AreAcceptedSections};

    ghost view = { held_parts };

    ghost invariant = { AreAcceptedSections };
}

impl Sections {
    /// The sections of these parts; or the first fault that their text would have, with line 0. `Range` comes first if
    /// the weights are above `MAX_WEIGHT` or both 0; it also comes for a point whose `z` is not its section's height.
    /// `Form` for links under `Overlap` comes after every other fault but `NoContours`. `NoMemory` comes only where a
    /// contour's name is stored.
    pub fn make(
        alloc: Global,
        cost: CostRule,
        rule: PairRule,
        sections: Vec<Section>,
        links: Vec<Link>,
    ) -> Result<Sections, Fault>
        // The parts are kept.
        ensures made { IfOk result (λ s. s ≡ ended_parts (cost_parts cost) rule sections.items links.items) }
        // They are accepted, and each point is at the height of its section.
        ensures accepted { IfOk result (λ _.
            IsAccepted (ended_parts (cost_parts cost) rule sections.items links.items) × AreFlat sections.items) }
        // The parts have this fault, or memory ran out.
        ensures fault { IfErr result (IsMakeFault (cost_parts cost) rule sections.items links.items) }
        // Memory can run out only while a contour's name is stored, if neither the contour nor anything before it has a
        // fault.
        ensures memory { IfErr result (IsMakeMemory (pieces_of (cost_parts cost) sections.items links.items)) }
        // The fault of the parts is returned, unless memory runs out.
        ensures exact { (fault : Fault) → IsMakeFault (cost_parts cost) rule sections.items links.items fault
            → Refuses fault result }
        // Accepted parts are refused only if memory runs out.
        ensures fine { IsAccepted (ended_parts (cost_parts cost) rule sections.items links.items)
            → AreFlat sections.items
            → Accepts result }
    {
        make_parts(alloc, Head { cost, rule }, sections, links)
    }

    /// The cost of a step along a strip. Takes no memory.
    pub fn cost(&self) -> CostRule
        ensures parts { cost_parts result ≡ self.now.cost }
        ensures value { result ≡ cost_rule self.now.cost }
        // The weights of a mix are at most `MAX_WEIGHT`, and not both 0.
        ensures weights { IsWeighted result }
    {
        self.cost
    }

    /// How contours correspond. Takes no memory.
    pub fn rule(&self) -> PairRule
        ensures { result ≡ self.now.rule }
    {
        self.rule
    }

    /// The sections, in file order. Takes no memory.
    pub fn sections(&self) -> &[Section]
        ensures parts { map section_parts result.now ≡ self.now.sections }
        // Names, heights and points are those of the parts, each point at the height of its section.
        ensures data { map section_data result.now ≡ map section_of self.now.sections }
        // Ranges, names, heights and limits hold, and there is a contour.
        ensures kept { AreValidSections result.now }
        ensures accepted { IsAccepted self.now }
    {
        &self.sections
    }

    /// The links, in file order. Takes no memory.
    pub fn links(&self) -> &[Link]
        ensures parts { map link_parts result.now ≡ self.now.links }
        // There are at most `MAX_LINKS`, between names, and none unless the rule is `Links`.
        ensures few { length result.now ≤ MAX_LINKS }
        ensures linked { IsLinked self.now.rule self.now.links }
    {
        &self.links
    }

    /// Equal sections; or `NoMemory`.
    pub fn copy(&self, alloc: Global) -> Result<Sections, NoMemory>
        ensures { IfOk result (λ s. s ≡ self.now) }
    {
        let sections = copy_sections(alloc, &self.sections)?;
        let links = Link::copy_all(alloc, &self.links)?;
        Ok(Sections {
            cost: self.cost,
            rule: self.rule,
            sections,
            links,
        })
    }
}

fn make_parts(
    alloc: Global,
    head: Head,
    sections: Vec<Section>,
    links: Vec<Link>,
) -> Result<Sections, Fault>
    ensures made { IfOk result (λ s. s ≡ ended_parts (cost_parts head.cost) head.rule sections.items links.items) }
    ensures fine { IfOk result (λ _.
        IsAccepted (ended_parts (cost_parts head.cost) head.rule sections.items links.items)
        × AreFlat sections.items) }
    ensures fault { IfErr result (IsMakeFault (cost_parts head.cost) head.rule sections.items links.items) }
    ensures memory { IfErr result (IsMakeMemory (pieces_of (cost_parts head.cost) sections.items links.items)) }
{
    match admit_parts(alloc, head.cost, &sections, &links) {
        Err(fault) => Err(fault),
        Ok(()) => make_admitted(head, sections, links),
    }
}

// Parts that break no law and have a contour, with links only under `Links`; or their fault. Takes no memory.
fn make_admitted(head: Head, sections: Vec<Section>, links: Vec<Link>) -> Result<Sections, Fault>
    requires lawful { ArePiecesLawful (pieces_of (cost_parts head.cost) sections.items links.items) }
    requires named { AllByRecursion AreNamed sections.items × AllByRecursion IsLinkNamed links.items }
    ensures made { IfOk result (λ s. s ≡ ended_parts (cost_parts head.cost) head.rule sections.items links.items) }
    ensures fine { IfOk result (λ _.
        IsAccepted (ended_parts (cost_parts head.cost) head.rule sections.items links.items)
        × AreFlat sections.items) }
    ensures fault { IfErr result (IsMakeFault (cost_parts head.cost) head.rule sections.items links.items) }
    ensures sure { IfErr result (λ e. e ≡ Fault.NoMemory → ⊥) }
{
    match head.rule {
        PairRule::Overlap => {
            if links.len() > 0 {
                Err(Fault::Form { line: 0 })
            } else {
                finished(head, sections, links)
            }
        }
        PairRule::Links => finished(head, sections, links),
    }
}

/// The sections of accepted parts.
pub fn kept_sections(head: Head, sections: Vec<Section>, links: Vec<Link>) -> Sections
    requires accepted { IsAccepted (ended_parts (cost_parts head.cost) head.rule sections.items links.items) }
    requires flat { AreFlat sections.items }
    ensures { result ≡ ended_parts (cost_parts head.cost) head.rule sections.items links.items }
{
    Sections {
        cost: head.cost,
        rule: head.rule,
        sections,
        links,
    }
}

/// The sections of lawful parts, which have a contour.
pub fn finished(head: Head, sections: Vec<Section>, links: Vec<Link>) -> Result<Sections, Fault>
    requires are_parts { IsParts (ended_parts (cost_parts head.cost) head.rule sections.items links.items) }
    requires lawful { IsLawful (ended_parts (cost_parts head.cost) head.rule sections.items links.items) }
    requires flat { AreFlat sections.items }
    ensures finishes { Finishes (ended_parts (cost_parts head.cost) head.rule sections.items links.items) result }
    ensures accepted { IfOk result (λ _.
        IsAccepted (ended_parts (cost_parts head.cost) head.rule sections.items links.items)
        × AreFlat sections.items) }
{
    if has_contour(&sections) {
        Ok(Sections {
            cost: head.cost,
            rule: head.rule,
            sections,
            links,
        })
    } else {
        Err(Fault::NoContours)
    }
}

/// Whether there is a contour among the sections.
pub fn has_contour(sections: &[Section]) -> bool
    ensures { result ≡ list_any has_any sections.now }
{
    sections.iter().any(|s| has_any(s))
}

fn has_any(section: &Section) -> bool
    ensures { result ≡ has_any section.now }
{
    section.contours.len() > 0
}

fn copy_sections(alloc: Global, sections: &[Section]) -> Result<Vec<Section>, NoMemory>
    ensures { IfOk result (λ v. map section_data v.items ≡ map section_data sections.now) }
{
    let mut copied = Vec::with_capacity(alloc, sections.len())?;
    for section in sections {
        copied.push(section.copy(alloc)?)?;
    }
    Ok(copied)
}
