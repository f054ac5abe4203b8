//! The findings of a part of a stack, so that parts can be tested side by side.
ghost use Rattle.std.specs.Prelude.{◌≡◌, ℕ, ◌-◌, ◌+◌, ◌<◌, ◌≤◌, ◌++◌, List, All, IfOk, IfErr, MatchResult, length, map};
ghost use Rattle.section_core.specs.Flat.{SectionData, section_data};
ghost use Rattle.section_core.specs.Parts.{Parts};
ghost use Rattle.section_core.specs.ValidSections.{section_of};
ghost use Rattle.correspondence.specs.Contours.{AreOutlines};
ghost use Rattle.correspondence.specs.Named.{IsLinkTableOf};
ghost use Rattle.strip_graph.specs.Strips.{IsStrip};
ghost use Rattle.section_pairs.specs.Pairs.{pair_parts};
ghost use Rattle.section_pairs.specs.Ranges.{AreFindings};
ghost use Rattle.section_pairs.specs.SectionFaults.{ArePairs, IsLateMemory, IsPairsFault};

use crate::faults::{test_all_apart, test_all_simple};
use crate::gap_pairs::{GapPair, linked, pairs_in};
use crate::ranges::joined;
use crate::rings::first_id;
use correspondence::LinkTable;
use fku_types::Fault;
use fku_types::limits::MAX_PAIRS;
use section_core::{Section, Sections};
use std::alloc::Global;

/// The findings of some sections: whether every contour is simple, whether the contours of each section are apart, and
/// the pairs of some gaps. Each may be a fault.
#[derive(Drop)]
pub struct Findings {
    pub simple: Result<(), Fault>,
    pub apart: Result<(), Fault>,
    pub pairs: Result<Vec<GapPair>, Fault>,
}

/// The findings of the sections `part`, with the pairs of the gaps from `begin` to before `end`. The table has the
/// names of the sections' links.
pub fn find_part(
    alloc: Global,
    sections: &Sections,
    table: &LinkTable,
    part: &[Section],
    begin: usize,
    end: usize,
) -> Findings
    requires table { IsLinkTableOf table.now sections.now.links }
    requires outlines { All (λ s. AreOutlines s.contours.items) part.now }
    requires order { begin ≤ end }
    requires there { end < length sections.now.sections }
    ensures { AreFindings sections.now (map section_data part.now) begin end result }
{
    Findings {
        simple: test_all_simple(&[], part),
        apart: test_all_apart(&[], part),
        pairs: pairs_in(
            alloc,
            sections,
            table,
            begin,
            end,
            first_id(sections, begin),
        ),
    }
}

// The fault of the front; or else the result for what follows it.
fn first_fault(front: Result<(), Fault>, back: Result<(), Fault>) -> Result<(), Fault>
    ensures ok { IfOk front (λ _. result ≡ back) }
    ensures err { IfErr front (λ f. MatchResult result (λ _. ⊥) (λ g. g ≡ f)) }
{
    match front {
        Ok(()) => back,
        Err(fault) => Err(fault),
    }
}

/// The findings of two parts, one after the other, as those of one part.
pub fn merged(front: Findings, back: Findings) -> Findings
    ensures { (S : Parts) (xs ys : List SectionData) (b m e : ℕ) → AreFindings S xs b m front
        → AreFindings S ys m e back
        → AreFindings S (xs ++ ys) b e result }
{
    Findings {
        simple: first_fault(front.simple, back.simple),
        apart: first_fault(front.apart, back.apart),
        pairs: joined(front.pairs, back.pairs),
    }
}

/// The result of `pairs`, from the findings of all sections and all gaps.
pub fn concluded(alloc: Global, sections: &Sections, found: Findings) -> Result<Vec<GapPair>, Fault>
    requires { AreFindings sections.now (map section_of sections.now.sections) 0 (length sections.now.sections - 1)
        found }
    ensures pairs { IfOk result (λ v. ArePairs sections.now (map pair_parts v.items)) }
    ensures strips { IfOk result (λ v. All (λ p. IsStrip p.pair) v.items) }
    ensures gaps { IfOk result (λ v. All (λ p. p.gap + 1 < length sections.now.sections) v.items) }
    ensures few { IfOk result (λ v. length v.items ≤ MAX_PAIRS) }
    ensures fault { IfErr result (IsPairsFault sections.now) }
    ensures memory { IfErr result (IsLateMemory sections.now) }
{
    found.simple?;
    found.apart?;
    linked(alloc, sections, found.pairs)
}
