//! The pairs of two ranges of gaps, one after the other, as those of one range.
ghost use Rattle.std.specs.Prelude.{◌≡◌, true, ℕ};
ghost use Rattle.fku_types.specs.declared.fault.Fault.TheVariants.{NoMemory};
ghost use Rattle.section_core.specs.Parts.{Parts};
ghost use Rattle.section_pairs.specs.Ranges.{AreHeldIn, IsSideFaultIn, IsGapResult};
ghost use Rattle.section_pairs.specs.SectionFaults.{OrNoMemory};

use crate::gap_pairs::GapPair;
use fku_types::Fault;

fn wants_memory(fault: &Fault) -> bool
    ensures yes { result ≡ true → fault.now ≡ NoMemory }
    ensures no { fault.now ≡ NoMemory → result ≡ true }
{
    matches!(fault, Fault::NoMemory)
}

// The fault of a composite, before the result for later gaps; or `NoMemory` if that is the result there.
fn fault_before(fault: Fault, back: &Result<Vec<GapPair>, Fault>) -> Fault
    ensures { (S : Parts) (b m e : ℕ) → OrNoMemory (IsSideFaultIn S b m) fault
        → IsGapResult S m e back.now
        → OrNoMemory (IsSideFaultIn S b e) result }
{
    match back {
        Ok(_) => fault,
        Err(other) => {
            if wants_memory(other) {
                Fault::NoMemory
            } else {
                fault
            }
        }
    }
}

// The pairs of gaps with those of later gaps, or the fault there.
fn pairs_before(
    pairs: Vec<GapPair>,
    back: Result<Vec<GapPair>, Fault>,
) -> Result<Vec<GapPair>, Fault>
    ensures { (S : Parts) (b m e : ℕ) → AreHeldIn S b m pairs.items
        → IsGapResult S m e back
        → IsGapResult S b e result }
{
    let mut all = pairs;
    let mut more = back?;
    all.append(&mut more)?;
    Ok(all)
}

/// The pairs of gaps and of later ones, or the first fault of a composite; or `NoMemory` if either is `NoMemory`.
pub fn joined(
    front: Result<Vec<GapPair>, Fault>,
    back: Result<Vec<GapPair>, Fault>,
) -> Result<Vec<GapPair>, Fault>
    ensures { (S : Parts) (b m e : ℕ) → IsGapResult S b m front
        → IsGapResult S m e back
        → IsGapResult S b e result }
{
    match front {
        Ok(pairs) => pairs_before(pairs, back),
        Err(fault) => Err(fault_before(fault, &back)),
    }
}
