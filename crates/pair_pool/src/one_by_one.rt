//! Solving pairs one after another.
ghost use Rattle.std.specs.Prelude.{◌≡◌};

use crate::gate::NoGate;
use crate::placing::in_order;
use crate::solvers::PairSolver;
use crate::solving::Solving;
use fku_types::NoMemory;
use row_paths::Solved;
use std::alloc::Global;
use std::marker::Model;
use strip_graph::Pair;

/// A solver that solves one pair after another, with any number of workers set.
#[derive(Drop)]
pub struct OneByOne {
    solved: u64,
    workers: u32,
}

impl Model for OneByOne {
    ghost use Rattle.pair_pool.specs.Solvers.{Solver};

    ghost Value = { Solver };

    ghost view = { λ s. record { solved_pairs = s.solved; worker_count = s.workers } };
}

impl OneByOne {
    /// A solver of one worker that has solved no pair. Takes no memory.
    pub fn new() -> OneByOne
        ensures { result ≡ record { solved_pairs = 0; worker_count = 1 } }
    {
        OneByOne {
            solved: 0,
            workers: 1,
        }
    }

    /// How many pairs it has solved; the count stops at the last value of a `u64`. Takes no memory.
    pub fn solved_count(&self) -> u64
        ensures { result ≡ self.now.solved_pairs }
    {
        self.solved
    }

    /// The number of workers. Takes no memory.
    pub fn workers(&self) -> u32
        ensures { result ≡ self.now.worker_count }
    {
        self.workers
    }
}

impl PairSolver for OneByOne {
    ghost solved_pairs = { λ s. s.solved_pairs };

    ghost worker_count = { λ s. s.worker_count };

    fn solve_each(&mut self, alloc: Global, pairs: &[&Pair]) -> Result<Vec<Solved>, NoMemory> {
        let solving = Solving {
            pairs,
            gate: &NoGate,
        };
        let solved = in_order(alloc, &solving)?;
        self.solved = self.solved.saturating_add(pairs.len() as u64);
        Ok(solved)
    }

    fn set_workers(&mut self, workers: u32) {
        self.workers = workers;
    }
}
