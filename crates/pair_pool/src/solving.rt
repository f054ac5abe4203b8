//! Solving pairs as a batch.
ghost use Rattle.std.specs.Prelude.{◌≡◌, ◌<◌, All, IfOk, length};
ghost use Rattle.row_paths.specs.Solutions.{Solves};

use crate::batch::Batch;
use crate::gate::Gate;
use crate::jobs::{Job, jobs_of};
use fku_types::{NoMemory, Steps};
use row_paths::{Solved, Workspace, solve_with};
use std::alloc::Global;
use std::marker::Brand;
use std::sync::ledger::{Blank, Ledger};
use strip_graph::Pair;

/// The solutions of pairs. Each pair passes the gate with its index before it is solved. Workers take those of most
/// work first.
#[derive(Drop)]
pub(crate) struct Solving<'a, G: Gate> {
    pub pairs: &'a [&'a Pair],
    pub gate: &'a G,
}

// Solves a pair with a counter of its own.
fn solve_one<L: Ledger>(
    alloc: Global,
    pair: &Pair,
    workspace: &mut Workspace,
    blank: Blank,
) -> Result<Solved, NoMemory>
    requires name { blank.name ≡ L.name }
    requires parts { blank.parts ≡ L.parts }
    requires some { 0 < L.parts }
    ensures { IfOk result (Solves pair.now) }
{
    let mut steps = Steps::<L>::begin(blank);
    solve_with(alloc, pair, workspace, &mut steps)
}

// The places of jobs.
fn places_of(alloc: Global, jobs: &[Job], count: usize) -> Result<Vec<usize>, NoMemory>
    requires { All (λ j. j.place < count) jobs.now }
    ensures { IfOk result (λ v. All (λ place. place < count) v.items) }
{
    let mut places = Vec::with_capacity(alloc, jobs.len())?;
    for job in jobs {
        places.push(job.place)?;
    }
    Ok(places)
}

impl<'a, G: Gate> Batch for Solving<'a, G> {
    ghost use Rattle.std.specs.Prelude.{length, slice_index_or};
    ghost use Rattle.strip_graph.specs.Strips.{Strip};
    ghost use Rattle.row_paths.specs.Solutions.{Solves};
    ghost use Rattle.pair_pool.specs.Solvers.{referents};

    type Tools = Workspace;

    type Made = Solved;

    ghost places = { λ s. length s.pairs.now };

    ghost is_right = { λ s k x. (p : Strip) → Solves (slice_index_or (referents s.pairs.now) k p) x };

    fn places(&self) -> usize {
        self.pairs.len()
    }

    fn order(&self, alloc: Global) -> Result<Vec<usize>, NoMemory> {
        let jobs = jobs_of(alloc, self.pairs)?;
        places_of(alloc, &jobs, self.pairs.len())
    }

    fn tools(&self, alloc: Global) -> Workspace {
        Workspace::new(alloc)
    }

    fn make(
        &self,
        alloc: Global,
        place: usize,
        workspace: &mut Workspace,
    ) -> Result<Solved, NoMemory> {
        self.gate.enter(place);
        solve_one::<Brand>(alloc, self.pairs[place], workspace, Blank::new(1))
    }
}
