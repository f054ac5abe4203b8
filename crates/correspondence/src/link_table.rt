//! The names in links, by the lower ones.

ghost use Rattle.std.specs.Prelude.{◌≡◌, ◌++◌, [], ◌∷◌, List, ℕ, bytes_eq, OnOk, IfOk, map};
ghost use Rattle.std.specs.List.{list_any};
ghost use Rattle.section_core.specs.Parts.{LinkParts};
ghost use Rattle.section_core.specs.Views.{link_parts};
ghost use Rattle.indexmap.specs.IndexMap.{get};
ghost use Rattle.correspondence.specs.Named.{names_above, AreNamedAbove};

use fku_types::{Name, NoMemory};
use indexmap::IndexMap;
use section_core::{Link, Sections};
use std::alloc::{AllocError, Global};

/// The names of links: for each name that is the lower one of a link, the upper ones of its links.
#[derive(Drop)]
pub struct LinkTable {
    pub above: IndexMap<Name, Vec<Name>>,
}

// The upper names of one name, with one more.
fn with_name(alloc: Global, names: Option<Vec<Name>>, added: &Name) -> Result<Vec<Name>, AllocError>
    ensures { IfOk result (λ v. v.items ≡ names_above names ++ added.now ∷ []) }
{
    let mut names = match names {
        Some(names) => names,
        None => Vec::new(alloc),
    };
    names.push(added.copy())?;
    Ok(names)
}

// Adds the names of a link.
fn add_link(
    alloc: Global,
    above: &mut IndexMap<Name, Vec<Name>>,
    link: &Link,
) -> Result<(), AllocError>
    ensures { OnOk result
        ((links : List LinkParts) → AreNamedAbove (λ q. names_above (get bytes_eq above.old q)) links
        → AreNamedAbove (λ q. names_above (get bytes_eq above.new q)) (links ++ link_parts link.now ∷ [])) }
{
    let names = with_name(alloc, above.swap_remove(&link.below), &link.above)?;
    above.insert(link.below.copy(), names)?;
    Ok(())
}

// The upper names of each name.
fn all_above(alloc: Global, links: &[Link]) -> Result<IndexMap<Name, Vec<Name>>, AllocError>
    ensures { IfOk result (λ m. AreNamedAbove (λ q. names_above (get bytes_eq m q)) (map link_parts links.now)) }
{
    let mut above = IndexMap::new(alloc);
    for link in links {
        add_link(alloc, &mut above, link)?;
    }
    Ok(above)
}

impl LinkTable {
    ghost use Rattle.std.specs.Prelude.{◌≡◌, IfOk};
    ghost use Rattle.correspondence.specs.Named.{IsLinkTableOf, above_of};

    /// The names of the links of sections; or `NoMemory`. Takes no memory if there are none.
    pub fn of(alloc: Global, sections: &Sections) -> Result<LinkTable, NoMemory>
        ensures { IfOk result (λ t. IsLinkTableOf t sections.now.links) }
    {
        let above = all_above(alloc, sections.links())?;
        Ok(LinkTable { above })
    }

    // The upper names of a name.
    pub(crate) fn names_above(&self, below: &Name) -> &[Name]
        ensures { result.now ≡ above_of self.now below.now }
    {
        match self.above.get(below) {
            Some(names) => names.as_slice(),
            None => &[],
        }
    }
}

/// Whether a name is among others.
pub(crate) fn is_among(names: &[Name], name: &Name) -> bool
    ensures { result ≡ list_any (bytes_eq name.now) names.now }
{
    names.iter().any(|n| name == n)
}
