//! Laws on components and on good links.
ghost use Rattle.std.specs.Prelude.{◌≡◌, ℕ, List, length};
ghost use Rattle.fku_types.specs.declared.fault.LinkCause.{LinkCause};
ghost use Rattle.section_core.specs.Parts.{Parts};
ghost use Rattle.correspondence.specs.Components.{Members};
ghost use Rattle.correspondence.specs.Gaps.{AreGapMembers};
ghost use Rattle.correspondence.specs.Links.{AreGood, IsFirstBad};

/// A gap has only one list of components.
pub fn components_are_one()
    ensures { (S : Parts) (g : ℕ) (cs ds : List Members) → AreGapMembers S g cs → AreGapMembers S g ds → cs ≡ ds }
{}

/// Sections have at most one first bad link, with one cause, and none if all their links are good.
pub fn first_bad_link_is_one()
    ensures one { (S : Parts) (k n : ℕ) (below above low high : List ℕ) (cause why : LinkCause) → IsFirstBad S k below
        above cause
        → IsFirstBad S n low high why
        → (below ≡ low) × (above ≡ high) × (cause ≡ why) }
    ensures none { (S : Parts) (k : ℕ) (below above : List ℕ) (cause : LinkCause) → AreGood S (length S.links)
        → IsFirstBad S k below above cause
        → ⊥ }
{}
