//! Laws on pairs and faults.
ghost use Rattle.std.specs.Prelude.{◌≡◌, ℕ, List, map};
ghost use Rattle.fku_types.specs.declared.fault.Fault.{Fault};
ghost use Rattle.section_core.specs.Parts.{Parts};
ghost use Rattle.correspondence.specs.Components.{Members};
ghost use Rattle.correspondence.specs.Gaps.{AreGapMembers};
ghost use Rattle.section_pairs.specs.declared.moved_pairs.Shift.{Shift};
ghost use Rattle.section_pairs.specs.Pairs.{PairParts, pair_of};
ghost use Rattle.section_pairs.specs.SectionFaults.{ArePairs, IsFound};
ghost use Rattle.section_pairs.specs.Unchanged.{IsSameGap, AreShifts, moved_pair};

/// Sections have one list of pairs or one first fault, and never both.
pub fn pairs_are_one()
    ensures one { (S : Parts) (ps qs : List PairParts) → ArePairs S ps → ArePairs S qs → ps ≡ qs }
    ensures none { (S : Parts) (ps : List PairParts) (fault : Fault) → ArePairs S ps → IsFound S fault → ⊥ }
    ensures one_fault { (S : Parts) (f g : Fault) → IsFound S f → IsFound S g → f ≡ g }
{}

/// A law: the components of a gap, and its pairs except for the numbers of their vertices, depend only on the contours
/// of its two sections, on the rules and on the links.
pub fn gaps_stand_alone()
    ensures components { (S T : Parts) (g : ℕ) (cs : List Members) → IsSameGap S T g
        → AreGapMembers S g cs
        → AreGapMembers T g cs }
    ensures pairs { (S T : Parts) (g : ℕ) (low high : Shift) (cs : List Members) → IsSameGap S T g
        → AreShifts S T g low high
        → map (moved_pair low high) (map (pair_of S g) cs) ≡ map (pair_of T g) cs }
{}
