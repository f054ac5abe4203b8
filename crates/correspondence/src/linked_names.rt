//! The names in links.

ghost use Rattle.std.specs.Prelude.{◌≡◌, ◌++◌, [], ◌∷◌, List, ◌&&◌, bytes_eq, OnOk};
ghost use Rattle.std.specs.List.{list_any};
ghost use Rattle.section_core.specs.Parts.{LinkParts};
ghost use Rattle.section_core.specs.Views.{link_parts};
ghost use Rattle.correspondence.specs.Named.{AreLinkedNames};

use fku_types::Name;
use indexmap::IndexSet;
use section_core::Link;
use std::alloc::AllocError;

/// The names of the lower and of the upper contour of a link.
pub type LinkedNames = (Name, Name);

/// Whether a link names these two, the lower one first.
pub fn has_linked_names(linked_names: &IndexSet<LinkedNames>, below: &Name, above: &Name) -> bool
    ensures { result ≡ list_any (λ e. bytes_eq below.now e.0 && bytes_eq above.now e.1) linked_names.now.keys }
{
    let names = (below.copy(), above.copy());
    linked_names.contains(&names)
}

/// Adds the names of a link.
pub fn add_linked_names(
    linked_names: &mut IndexSet<LinkedNames>,
    link: &Link,
) -> Result<(), AllocError>
    ensures { OnOk result
        ((links : List LinkParts) → AreLinkedNames linked_names.old.keys links
        → AreLinkedNames linked_names.new.keys (links ++ link_parts link.now ∷ [])) }
{
    let names = (link.below.copy(), link.above.copy());
    linked_names.insert(names)?;
    Ok(())
}
