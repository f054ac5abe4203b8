//! Sections with rounded sections between those that are far apart.
ghost use Rattle.std.specs.Prelude.{◌≡◌, List, ◌+◌, ◌<◌, ◌≤◌, All, IfOk, IfErr, OnOk, filter, length, map};
ghost use Rattle.fku_types.specs.declared.rules.PairRule.TheVariants as rules;
ghost use Rattle.section_core.specs.Accepted.{IsAccepted};
ghost use Rattle.section_core.specs.Flat.{AreFlat};
ghost use Rattle.section_core.specs.Finished.{ended_parts};
ghost use Rattle.section_core.specs.Views.{section_parts};
ghost use Rattle.pair_pool.specs.Solvers.{SolvesEach, raised_by};
ghost use Rattle.surface_core.specs.Surfaces.{strips_in};
ghost use Rattle.section_pairs.specs.Pairs.{PairParts, pair_parts};
ghost use Rattle.section_pairs.specs.SectionFaults.{ArePairs, IsFound};
ghost use Rattle.section_slices.specs.Densified.{dense_pairs, IsDensified, is_at_height_of};
ghost use Rattle.section_slices.specs.Marks.{dense_gaps};
ghost use Rattle.section_slices.specs.Faults.{IsDensifyFault, IsDensifyMemory, IsMid, IsToldFault, TellsDensifyFault, IsFaultOfPairs, IsTestFault, IsRemakeFault, middle_fault};

use crate::gaps::{dense_gaps, dense_strips};
use crate::links::all_links;
use crate::loops::middle_outlines;
use crate::middles::with_middles;
use fku_types::limits::MAX_PAIRS;
use fku_types::{Fault, NoMemory, PairRule};
use pair_pool::PairSolver;
use row_paths::Solved;
use section_core::{Link, Section, Sections};
use section_pairs::{GapPair, pairs};
use std::alloc::Global;

/// Why sections are not densified, or that memory ran out. `Found` and `Mid` never have `NoMemory`.
#[derive(Drop)]
pub enum DensifyFault {
    /// The given sections have this fault, which `pairs` finds.
    Found { fault: Fault },
    /// The sections to be made have this fault: that of their parts, with line 0; or else the first that `pairs` finds
    /// in them.
    Mid { fault: Fault },
    NoMemory,
}

impl From<NoMemory> for DensifyFault {
    ghost use Rattle.section_slices.specs.declared.sections.DensifyFault.TheVariants as fault;

    ghost from_gives = { λ _ f. f ≡ fault.NoMemory };

    fn from(_error: NoMemory) -> DensifyFault {
        DensifyFault::NoMemory
    }
}

// The pairs of sections, or their first fault.
fn found_pairs<P: PairSolver>(
    alloc: Global,
    sections: &Sections,
    solver: &P,
) -> Result<Vec<GapPair>, DensifyFault>
    ensures pairs { IfOk result (λ v. ArePairs sections.now (map pair_parts v.items)) }
    ensures gaps { IfOk result (λ v. All (λ p. p.gap + 1 < length sections.now.sections) v.items) }
    ensures few { IfOk result (λ v. length v.items ≤ MAX_PAIRS) }
    ensures fault { IfErr result (IsFaultOfPairs sections.now) }
    ensures memory { IfErr result (IsDensifyMemory sections.now) }
{
    match solver.find_pairs(alloc, sections) {
        Ok(pairs) => Ok(pairs),
        Err(Fault::NoMemory) => Err(DensifyFault::NoMemory),
        Err(fault) => Err(DensifyFault::Found { fault }),
    }
}

// A fault of the sections that are made, or `NoMemory`.
fn middle_fault(fault: Fault) -> DensifyFault
    ensures { result ≡ middle_fault fault }
{
    match fault {
        Fault::NoMemory => DensifyFault::NoMemory,
        fault => DensifyFault::Mid { fault },
    }
}

// The sections if they have no fault as a whole; else that fault.
fn tested(alloc: Global, made: Sections) -> Result<Sections, DensifyFault>
    requires accepted { IsAccepted made }
    ensures same { IfOk result (λ s. s ≡ made) }
    ensures pairs { IfOk result (λ s. (ps : List PairParts) × ArePairs s ps) }
    ensures fault { IfErr result (IsTestFault made) }
{
    match pairs(alloc, &made) {
        Ok(_) => Ok(made),
        Err(fault) => Err(middle_fault(fault)),
    }
}

// Sections under links with the cost rule of others; or why they are refused.
fn remade(
    alloc: Global,
    old: &Sections,
    sections: Vec<Section>,
    links: Vec<Link>,
) -> Result<Sections, DensifyFault>
    ensures made { IfOk result (λ s. s ≡ ended_parts old.now.cost rules.Links sections.items links.items) }
    ensures accepted { IfOk result IsAccepted }
    ensures pairs { IfOk result (λ s. (ps : List PairParts) × ArePairs s ps) }
    ensures fault { IfErr result (IsRemakeFault old.now.cost rules.Links sections.items links.items) }
{
    match Sections::make(alloc, old.cost(), PairRule::Links, sections, links) {
        Ok(made) => tested(alloc, made),
        Err(fault) => Err(middle_fault(fault)),
    }
}

// The sections and links of densified sections.
#[derive(Drop)]
struct Made {
    sections: Vec<Section>,
    links: Vec<Link>,
}

// The parts of densified sections, from the solutions of the pairs of dense gaps.
fn made_parts(
    alloc: Global,
    sections: &Sections,
    pairs: &[GapPair],
    dense: &[bool],
    solved: &[Solved],
) -> Result<Made, NoMemory>
    requires pairs { ArePairs sections.now (map pair_parts pairs.now) }
    requires gaps { All (λ p. p.gap + 1 < length sections.now.sections) pairs.now }
    requires few { length pairs.now ≤ MAX_PAIRS }
    requires dense { dense.now ≡ dense_gaps sections.now (map pair_parts pairs.now) }
    requires solved { SolvesEach (strips_in (dense_pairs sections.now (map pair_parts pairs.now))) solved.now }
    ensures densified { IfOk result (λ m.
        IsDensified sections.now (ended_parts sections.now.cost rules.Links m.sections.items m.links.items)) }
    ensures flat { IfOk result (λ m. AreFlat m.sections.items) }
    ensures old { IfOk result (λ m.
        filter (is_at_height_of sections.now) (map section_parts m.sections.items) ≡ sections.now.sections) }
{
    let outlines = middle_outlines(alloc, sections, pairs, dense, solved)?;
    let parts = with_middles(alloc, sections, pairs, &outlines, dense)?;
    let links = all_links(alloc, sections, pairs, dense)?;
    Ok(Made {
        sections: parts,
        links,
    })
}

// The same, with these pairs still to be solved.
fn solved_parts<P: PairSolver>(
    alloc: Global,
    sections: &Sections,
    pairs: &[GapPair],
    solver: &mut P,
) -> Result<Made, NoMemory>
    requires pairs { ArePairs sections.now (map pair_parts pairs.now) }
    requires gaps { All (λ p. p.gap + 1 < length sections.now.sections) pairs.now }
    requires few { length pairs.now ≤ MAX_PAIRS }
    ensures densified { IfOk result (λ m.
        IsDensified sections.now (ended_parts sections.now.cost rules.Links m.sections.items m.links.items)) }
    ensures flat { IfOk result (λ m. AreFlat m.sections.items) }
    ensures old { IfOk result (λ m.
        filter (is_at_height_of sections.now) (map section_parts m.sections.items) ≡ sections.now.sections) }
    ensures counted { OnOk result
        (P.solved_pairs solver.new
        ≡ raised_by (length (dense_pairs sections.now (map pair_parts pairs.now))) (P.solved_pairs solver.old)) }
    ensures not_less { P.solved_pairs solver.old ≤ P.solved_pairs solver.new }
    ensures not_more { P.solved_pairs solver.new
        ≤ P.solved_pairs solver.old + length (dense_pairs sections.now (map pair_parts pairs.now)) }
    ensures same_workers { P.worker_count solver.new ≡ P.worker_count solver.old }
{
    let dense = dense_gaps(alloc, sections, pairs)?;
    let strips = dense_strips(alloc, sections, pairs, &dense)?;
    let solved = solver.solve_each(alloc, &strips)?;
    made_parts(alloc, sections, pairs, &dense, &solved)
}

/// The sections, with a rounded section in the middle of each dense gap. A gap is dense if its heights are at least 2
/// apart and it has pairs, each of one contour below and one above. The middle section lies half way between the two
/// heights, rounded down. It has a contour for each pair of the gap, in order: the slice of the pair at that height,
/// rounded as `round_loop` rounds, with the name `m` and the number of the pair, counted from 1 over all gaps. The pair
/// rule is `Links`. The links come gap by gap of the given sections: for each pair of a dense gap, one from its contour
/// below to the middle one and one from that to its contour above; for any other gap, one for each two contours that
/// correspond, by the index below, then above.
///
/// `Ok` and `Mid` raise the solver's count by the number of pairs of dense gaps, up to the counter's last value;
/// `Found` leaves it; `NoMemory` raises it by at most that number. The number of workers stays. `Found` has the first
/// fault that `pairs` finds in the given sections. `Mid` has the fault of the sections to be made: the one that
/// `Sections::make` returns for their parts, else the one that `pairs` finds in them. `NoMemory` comes only where the
/// given contours are simple and apart.
pub fn densify<P: PairSolver>(
    alloc: Global,
    sections: &Sections,
    solver: &mut P,
) -> Result<Sections, DensifyFault>
    ensures densified { IfOk result (IsDensified sections.now) }
    // They have pairs, and so no fault.
    ensures pairs { IfOk result (λ s. (ps : List PairParts) × ArePairs s ps) }
    ensures faultless { IfOk result (λ s. (fault : Fault) → IsFound s fault → ⊥) }
    // Those at the heights of the given sections are the given sections.
    ensures old { IfOk result (λ s. filter (is_at_height_of sections.now) s.sections ≡ sections.now.sections) }
    // The count rises by the number of pairs of dense gaps.
    ensures counted { IfOk result (λ _.
        (ps : List PairParts) → ArePairs sections.now ps
        → P.solved_pairs solver.new
        ≡ raised_by (length (dense_pairs sections.now ps)) (P.solved_pairs solver.old)) }
    // The same if the sections to be made have a fault.
    ensures counted_middle { IfErr result (λ fault.
        IsMid fault
        → (ps : List PairParts) → ArePairs sections.now ps
        → P.solved_pairs solver.new
        ≡ raised_by (length (dense_pairs sections.now ps)) (P.solved_pairs solver.old)) }
    ensures not_less { P.solved_pairs solver.old ≤ P.solved_pairs solver.new }
    ensures not_more { (ps : List PairParts) → ArePairs sections.now ps
        → P.solved_pairs solver.new ≤ P.solved_pairs solver.old + length (dense_pairs sections.now ps) }
    // If the given sections have a fault, the count stays.
    ensures uncounted { (fault : Fault) → IsFound sections.now fault
        → P.solved_pairs solver.new ≡ P.solved_pairs solver.old }
    ensures same_workers { P.worker_count solver.new ≡ P.worker_count solver.old }
    ensures fault { IfErr result (IsDensifyFault sections.now) }
    // Memory runs out only where the given contours are simple and apart.
    ensures memory { IfErr result (IsDensifyMemory sections.now) }
    // `Found` and `Mid` never have `NoMemory`.
    ensures told { IfErr result IsToldFault }
    // Such a fault is the result, unless memory runs out.
    ensures exact { (fault : DensifyFault) → IsDensifyFault sections.now fault → TellsDensifyFault fault result }
{
    let found = found_pairs(alloc, sections, &*solver)?;
    let made = solved_parts(alloc, sections, &found, solver)?;
    remade(alloc, sections, made.sections, made.links)
}
