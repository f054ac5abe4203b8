//! Pools with an open gate as solvers of pairs.
use crate::finding::pairs_by_workers;
use crate::gate::NoGate;
use crate::pool::{Pool, solve_counted, solve_counted_beside};
use crate::solvers::PairSolver;
use fku_types::{Fault, NoMemory};
use row_paths::Solved;
use section_core::Sections;
use section_pairs::GapPair;
use std::alloc::Global;
use std::thread::Threads;
use strip_graph::Pair;

impl<'a, R: Threads + Sync> PairSolver for Pool<'a, R, NoGate> {
    ghost solved_pairs = { λ s. s.solved_pairs };

    ghost worker_count = { λ s. s.worker_count };

    fn solve_each(&mut self, alloc: Global, pairs: &[&Pair]) -> Result<Vec<Solved>, NoMemory> {
        solve_counted(
            self.rt,
            alloc,
            pairs,
            self.workers,
            &self.gate,
            &mut self.solved,
        )
    }

    fn solve_beside<F: FnOnce() -> A, A>(
        &mut self,
        alloc: Global,
        pairs: &[&Pair],
        beside: F,
    ) -> (Result<Vec<Solved>, NoMemory>, A) {
        solve_counted_beside(
            self.rt,
            alloc,
            pairs,
            self.workers,
            &self.gate,
            &mut self.solved,
            beside,
        )
    }

    fn find_pairs(&self, alloc: Global, sections: &Sections) -> Result<Vec<GapPair>, Fault> {
        pairs_by_workers(self.rt, alloc, sections, self.workers)
    }

    fn set_workers(&mut self, workers: u32) {
        self.workers = workers;
    }
}
