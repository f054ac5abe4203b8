//! A session of edits.
ghost use Rattle.std.specs.Prelude.{◌≡◌, ◌≤◌, IfOk, IfErr, length, map};
ghost use Rattle.section_pairs.specs.Pairs.{pair_parts};
ghost use Rattle.section_pairs.specs.SectionFaults.{ArePairs};
ghost use Rattle.section_edits.specs.Edits.{IsSectionsFault};

use crate::edit::{Edit, EditFault};
use crate::editing::edited;
use crate::plans::resolve;
use fku_types::limits::MAX_PAIRS;
use fku_types::{Fault, NoMemory};
use pair_pool::PairSolver;
use row_paths::Solved;
use section_core::Sections;
use section_pairs::{GapPair, pairs_after};
use std::alloc::Global;
use std::marker::Model;
use surface_core::{Built, assemble, strips};

/// How many pairs of the edited sections are new, and how many are not: a pair is new if no pair before has its points
/// and cost rule.
#[derive(Clone, Copy, Debug, PartialEq, Eq)]
pub struct Done {
    pub solved: u32,
    pub reused: u32,
}

/// Sections with their pairs and the solution of each pair, which edits keep up to date. Only `open` makes one.
/// Contracts see the sections, their pairs, and the solution of each pair.
#[derive(Drop)]
pub struct Session {
    sections: Sections,
    pairs: Vec<GapPair>,
    solved: Vec<Solved>,
}

impl Model for Session {
    ghost use Rattle.section_edits.specs.Sessions.{Held, IsSolved, held_in};

    ghost Value = { Held };

    ghost view = { held_in };

    ghost invariant = { λ s. IsSolved (held_in s) };
}

// The pairs of sections, or the first fault that only whole sections have. The pairs of the sections before are known.
fn found_pairs(
    alloc: Global,
    old: &Sections,
    old_pairs: &[GapPair],
    sections: &Sections,
) -> Result<Vec<GapPair>, EditFault>
    requires old { ArePairs old.now (map pair_parts old_pairs.now) }
    ensures pairs { IfOk result (λ v. ArePairs sections.now (map pair_parts v.items)) }
    ensures few { IfOk result (λ v. length v.items ≤ MAX_PAIRS) }
    ensures fault { IfErr result (IsSectionsFault sections.now) }
{
    match pairs_after(alloc, old, old_pairs, sections) {
        Ok(pairs) => Ok(pairs),
        Err(Fault::NoMemory) => Err(EditFault::NoMemory),
        Err(fault) => Err(EditFault::Found { fault }),
    }
}

impl Session {
    ghost use Rattle.std.specs.Prelude.{[], All, OnOk, OnErr};
    ghost use Rattle.plane_geom.specs.Rings.{IsClosed};
    ghost use Rattle.triangle_meshes.specs.Meshes.{surface_of, IsValid};
    ghost use Rattle.pair_pool.specs.Solvers.{raised_by};
    ghost use Rattle.section_pairs.specs.SectionFaults.{IsPairsFault};
    ghost use Rattle.surface_core.specs.Surfaces.{IsBuilt};
    ghost use Rattle.fku_types.specs.declared.fault.Fault.TheVariants as found;
    ghost use Rattle.section_edits.specs.declared.edit.EditFault.TheVariants as fault;
    ghost use Rattle.section_edits.specs.Changes.{changed};
    ghost use Rattle.section_edits.specs.Refusals.{IsEditMemory};
    ghost use Rattle.section_edits.specs.Edits.{IsEdited, IsApplyFault};
    ghost use Rattle.section_edits.specs.Sessions.{IsSolved, FaultCount, CountsNew};

    /// A session of these sections. The fault is the first one that `pairs` finds, or `NoMemory`; the sections are
    /// dropped then. `Ok` raises the solver's count by the number of pairs, up to the counter's last value; `NoMemory`
    /// by at most that; no other fault raises it. The number of workers stays.
    pub fn open<P: PairSolver>(
        alloc: Global,
        sections: Sections,
        solver: &mut P,
    ) -> Result<Session, Fault>
        ensures sections { IfOk result (λ s. s.sections ≡ sections) }
        ensures solved { IfOk result IsSolved }
        ensures counted { IfOk result (λ s.
            P.solved_pairs solver.new ≡ raised_by (length s.pairs) (P.solved_pairs solver.old)) }
        ensures not_less { P.solved_pairs solver.old ≤ P.solved_pairs solver.new }
        ensures same_workers { P.worker_count solver.new ≡ P.worker_count solver.old }
        ensures fault { IfErr result (IsPairsFault sections) }
        ensures fault_count { IfErr result (λ f.
            FaultCount sections [] (P.solved_pairs solver.old) (P.solved_pairs solver.new) (f ≡ found.NoMemory)) }
    {
        let pairs = solver.find_pairs(alloc, &sections)?;
        let strips = strips(alloc, &pairs)?;
        let solved = solver.solve_each(alloc, &strips)?;
        drop(strips);
        Ok(Session {
            sections,
            pairs,
            solved,
        })
    }

    // The session after an edit, and the counts of new and of other pairs.
    fn next<P: PairSolver>(
        &self,
        alloc: Global,
        edit: &Edit,
        solver: &mut P,
    ) -> Result<(Session, Done), EditFault>
        ensures edited { IfOk result (λ n. IsEdited self.now.sections edit.now n.0.sections) }
        ensures solved { IfOk result (λ n. IsSolved n.0) }
        ensures counts { IfOk result (λ n. CountsNew self.now.pairs n.0.pairs n.1) }
        ensures counted { IfOk result (λ n.
            P.solved_pairs solver.new ≡ raised_by n.1.solved (P.solved_pairs solver.old)) }
        ensures not_less { P.solved_pairs solver.old ≤ P.solved_pairs solver.new }
        ensures same_workers { P.worker_count solver.new ≡ P.worker_count solver.old }
        ensures fault { IfErr result (IsApplyFault self.now.sections edit.now) }
        ensures memory { IfErr result (IsEditMemory self.now.sections edit.now) }
        ensures fault_count { IfErr result (λ f.
            FaultCount (changed self.now.sections edit.now) self.now.pairs (P.solved_pairs solver.old)
            (P.solved_pairs solver.new) (f ≡ fault.NoMemory)) }
        ensures before { IsSolved self.now }
    {
        let sections = edited(alloc, &self.sections, edit)?;
        let pairs = found_pairs(alloc, &self.sections, &self.pairs, &sections)?;
        let resolved = resolve(alloc, &self.pairs, &self.solved, &pairs, solver)?;
        let count = pairs.len() as u32;
        let done = Done {
            solved: resolved.fresh,
            reused: count - resolved.fresh,
        };
        let session = Session {
            sections,
            pairs,
            solved: resolved.solutions,
        };
        Ok((session, done))
    }

    /// Edits the sections. The session then has the pairs of the edited sections, each with its solution. The solver's
    /// count rises by just the new pairs (`Done::solved`), up to its last value: those whose points and cost rule no
    /// pair before has. The body takes the other solutions from the session; the contract states only the count, not
    /// that nothing else computes them. The number of workers stays.
    ///
    /// An edit is refused by the first of these: an x or y out of range (`EditForm`); no contour of the name, or no
    /// section of the height; no such vertex; fewer than three vertices; a name that is taken; the limits of
    /// `MAX_CONTOUR_VERTICES` vertices a contour, `MAX_SECTION_VERTICES` a section, `MAX_VERTICES` in all, and
    /// `MAX_CONTOURS` contours, in this order; no contour left; the first fault that `pairs` finds in the edited
    /// sections. A refusal leaves the session and the solver's count. `NoMemory` leaves the session, but may raise the
    /// count by some of the new pairs.
    pub fn apply<P: PairSolver>(
        &mut self,
        alloc: Global,
        edit: &Edit,
        solver: &mut P,
    ) -> Result<Done, EditFault>
        ensures edited { OnOk result (IsEdited self.old.sections edit.now self.new.sections) }
        ensures solved { OnOk result (IsSolved self.new) }
        // The pairs before are those of the sections before, each with its solution.
        ensures before { IsSolved self.old }
        ensures counts { IfOk result (CountsNew self.old.pairs self.new.pairs) }
        ensures counted { IfOk result (λ d.
            P.solved_pairs solver.new ≡ raised_by d.solved (P.solved_pairs solver.old)) }
        ensures not_less { P.solved_pairs solver.old ≤ P.solved_pairs solver.new }
        ensures same_workers { P.worker_count solver.new ≡ P.worker_count solver.old }
        ensures fault { IfErr result (IsApplyFault self.old.sections edit.now) }
        // Memory is asked for after the edit's own tests, and before the edited sections are tested.
        ensures memory { IfErr result (IsEditMemory self.old.sections edit.now) }
        ensures same { OnErr result (self.new ≡ self.old) }
        ensures fault_count { IfErr result (λ f.
            FaultCount (changed self.old.sections edit.now) self.old.pairs (P.solved_pairs solver.old)
            (P.solved_pairs solver.new) (f ≡ fault.NoMemory)) }
    {
        let (session, done) = self.next(alloc, edit, solver)?;
        *self = session;
        Ok(done)
    }

    /// The sections after all edits that were applied. Takes no memory.
    pub fn sections(&self) -> &Sections
        ensures sections { result.now ≡ self.now.sections }
        // Every session has the pairs of its sections, each with its solution.
        ensures solved { IsSolved self.now }
    {
        &self.sections
    }

    /// The surface of the sections, from the session's solutions; it takes no solver. `NoMemory` is its only fault.
    pub fn build(&self, alloc: Global) -> Result<Built, NoMemory>
        ensures built { IfOk result (IsBuilt self.now.sections) }
        ensures valid { IfOk result (λ b. IsValid (surface_of b.mesh)) }
        // Every directed edge occurs as often as its reverse.
        ensures closed { IfOk result (λ b. All IsClosed (surface_of b.mesh).parts) }
    {
        assemble(alloc, &self.sections, &self.pairs, &self.solved)
    }
}
