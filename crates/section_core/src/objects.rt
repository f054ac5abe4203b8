//! Several objects of one text.
ghost use Rattle.std.specs.Prelude.{◌≡◌, map, IfOk};
ghost use Rattle.std.specs.List.{list_all};
ghost use Rattle.fku_types.specs.Rules.{IsWeighted};
ghost use Rattle.section_core.specs.Costs.{cost_parts, cost_rule};
ghost use Rattle.section_core.specs.Parts.{IsFile, version_number};
ghost use Rattle.section_core.specs.Laws.{IsLawfulFile};
ghost use Rattle.section_core.specs.Accepted.{IsAcceptedFile};
ghost use Rattle.section_core.specs.Finished.{has_section, are_filled, IsReady, AreReady, FinishesObjects};
ghost use Rattle.section_core.specs.Flat.{AreFlatDrafts};
ghost use Rattle.section_core.specs.Objects.{object_parts, AreUnder};
ghost use Rattle.section_core.specs.Reader.{first_object};
ghost use Rattle.section_core.specs.Views.{draft_parts, held_file};
ghost use Rattle.section_core.specs.declared.parts.Version.TheVariants as Version;

use crate::parts::{Draft, Head, Version};
use crate::sections::{Sections, has_contour, kept_sections};
use fku_types::{CostRule, Fault, Name, NoMemory, PairRule};
use std::alloc::Global;
use std::marker::Model;

/// A named object: its sections, and its links. The one object of a text of version 1 is named `object`.
#[derive(Drop)]
pub struct Object {
    pub name: Name,
    pub sections: Sections,
}

/// The objects of a text without a fault: 1 to `MAX_OBJECTS` objects, each with a contour, all under one cost rule and
/// one pair rule. The names of objects are distinct, and so are the names of all contours of the text; the limits hold
/// over all objects. Contracts see the parts of the definition.
#[derive(Drop)]
pub struct Objects {
    version: Version,
    head: Head,
    items: Vec<Object>,
}

impl Model for Objects {
    ghost use Rattle.section_core.specs.Parts.{FileParts};

    ghost Value = { FileParts };

    ghost use Rattle.section_core.specs.Objects.{file_of, AreAcceptedObjects};

    ghost view = { file_of };

    ghost invariant = { AreAcceptedObjects };
}

impl Objects {
    /// The version of the text, 1 or 2. Takes no memory.
    pub fn version(&self) -> u32
        ensures { result ≡ version_number self.now.version }
    {
        match self.version {
            Version::One => 1,
            Version::Two => 2,
        }
    }

    /// The cost of a step along a strip, in all objects. Takes no memory.
    pub fn cost(&self) -> CostRule
        ensures parts { cost_parts result ≡ self.now.cost }
        ensures value { result ≡ cost_rule self.now.cost }
        // The weights of a mix are at most `MAX_WEIGHT`, and not both 0.
        ensures weights { IsWeighted result }
    {
        self.head.cost
    }

    /// How contours correspond, in all objects. Takes no memory.
    pub fn rule(&self) -> PairRule
        ensures { result ≡ self.now.rule }
    {
        self.head.rule
    }

    /// The objects, in file order. Takes no memory.
    pub fn items(&self) -> &[Object]
        ensures parts { map object_parts result.now ≡ self.now.objects }
        // The sections of each are under the text's rules.
        ensures under { AreUnder self.now.cost self.now.rule result.now }
        // Ranges, names, heights and limits hold over all objects, and each object has a contour.
        ensures accepted { IsAcceptedFile self.now }
    {
        &self.items
    }

    /// The objects as owned values, in file order. Takes no memory.
    pub fn into_items(self) -> Vec<Object>
        ensures parts { map object_parts result.items ≡ self.objects }
        // The sections of each are under the text's rules.
        ensures under { AreUnder self.cost self.rule result.items }
    {
        self.items
    }

    // The version.
    pub(crate) fn kept_version(&self) -> Version
        ensures { result ≡ self.now.version }
    {
        self.version
    }

    /// The sections of the one object of version 1. Takes no memory.
    pub fn into_only(self) -> Sections
        requires { self.version ≡ Version.One }
        ensures { result ≡ first_object self.objects self }
    {
        let mut items = self.items;
        items.pop().unwrap().sections
    }
}

/// The objects of a text that has ended, from its rules and the objects that were read. `NoContours` if there is no
/// object or one has no contour; or `NoMemory`.
pub fn finished_objects(
    alloc: Global,
    version: Version,
    head: Head,
    drafts: Vec<Draft>,
) -> Result<Objects, Fault>
    requires is_file { IsFile (held_file version head drafts.items) }
    requires lawful { IsLawfulFile (held_file version head drafts.items) }
    requires flat { AreFlatDrafts drafts.items }
    ensures { FinishesObjects (held_file version head drafts.items) result }
{
    if !are_filled(&drafts) {
        return Err(Fault::NoContours);
    }
    let items = objects_of(alloc, head, drafts)?;
    Ok(Objects {
        version,
        head,
        items,
    })
}

fn are_filled(drafts: &[Draft]) -> bool
    ensures { result ≡ are_filled drafts.now }
{
    drafts.len() > 0 && all_filled(drafts)
}

fn all_filled(drafts: &[Draft]) -> bool
    ensures { result ≡ list_all has_section drafts.now }
{
    drafts.iter().all(|draft| is_filled(draft))
}

fn is_filled(draft: &Draft) -> bool
    ensures { result ≡ has_section draft.now }
{
    has_contour(&draft.sections)
}

fn objects_of(alloc: Global, head: Head, drafts: Vec<Draft>) -> Result<Vec<Object>, NoMemory>
    requires { AreReady head drafts.items }
    ensures { IfOk result (λ v.
        (map object_parts v.items ≡ map draft_parts drafts.items)
        × AreUnder (cost_parts head.cost) head.rule v.items) }
{
    let mut items = Vec::new(alloc);
    for draft in drafts {
        items.push(object_of(head, draft))?;
    }
    Ok(items)
}

fn object_of(head: Head, draft: Draft) -> Object
    requires { IsReady head draft }
    ensures { (object_parts result ≡ draft_parts draft)
        × ((result.sections.cost ≡ cost_parts head.cost) × (result.sections.rule ≡ head.rule)) }
{
    Object {
        name: draft.name,
        sections: kept_sections(head, draft.sections, draft.links),
    }
}
