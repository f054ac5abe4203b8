//! Solving pairs side by side.
ghost use Rattle.std.specs.Prelude.{◌≡◌, ◌+◌, ◌≤◌, IfOk, OnOk, length};
ghost use Rattle.pair_pool.specs.Solvers.{SolvesEach, raised_by, referents};

use crate::by_workers::made_beside;
use crate::gate::Gate;
use crate::solvers::references;
use crate::solving::Solving;
use fku_types::NoMemory;
use fku_types::limits::MAX_WORKERS;
use row_paths::Solved;
use std::alloc::Global;
use std::marker::Model;
use std::thread::Threads;
use strip_graph::Pair;

/// A solver that solves pairs side by side, with at most as many workers as it has. It keeps the runtime, which it
/// needs to start them, and a gate that each job passes.
#[derive(Drop)]
pub struct Pool<'a, R: Threads + Sync, G: Gate> {
    pub(crate) rt: &'a R,
    pub(crate) workers: u32,
    pub(crate) gate: G,
    pub(crate) solved: u64,
}

impl<'a, R: Threads + Sync, G: Gate> Model for Pool<'a, R, G> {
    ghost use Rattle.pair_pool.specs.Solvers.{Solver};

    ghost Value = { Solver };

    ghost view = { λ s. record { solved_pairs = s.solved; worker_count = s.workers } };
}

// The solutions of pairs, made by `workers` workers and counted; and the result of `beside`, which the calling thread
// runs meanwhile.
pub(crate) fn solve_counted_beside<R: Threads, G: Gate, F: FnOnce() -> A, A>(
    rt: &R,
    alloc: Global,
    pairs: &[&Pair],
    workers: u32,
    gate: &G,
    count: &mut u64,
    beside: F,
) -> (Result<Vec<Solved>, NoMemory>, A)
    requires { F.pre beside }
    ensures solved { IfOk result.0 (λ v. SolvesEach (referents pairs.now) v.items) }
    ensures counted { OnOk result.0 (count.new ≡ raised_by (length pairs.now) count.old) }
    ensures not_less { count.old ≤ count.new }
    ensures not_more { count.new ≤ count.old + length pairs.now }
    ensures beside { F.post beside result.1 }
{
    let solving = Solving { pairs, gate };
    let (solutions, made) = made_beside(rt, alloc, &solving, workers, beside);
    if solutions.is_ok() {
        *count = count.saturating_add(pairs.len() as u64);
    }
    (solutions, made)
}

// The same with nothing beside.
pub(crate) fn solve_counted<R: Threads, G: Gate>(
    rt: &R,
    alloc: Global,
    pairs: &[&Pair],
    workers: u32,
    gate: &G,
    count: &mut u64,
) -> Result<Vec<Solved>, NoMemory>
    ensures solved { IfOk result (λ v. SolvesEach (referents pairs.now) v.items) }
    ensures counted { OnOk result (count.new ≡ raised_by (length pairs.now) count.old) }
    ensures not_less { count.old ≤ count.new }
    ensures not_more { count.new ≤ count.old + length pairs.now }
{
    solve_counted_beside(rt, alloc, pairs, workers, gate, count, || ()).0
}

impl<'a, R: Threads + Sync, G: Gate> Pool<'a, R, G> {
    /// A solver with `workers` workers, 1 to `MAX_WORKERS`, that has solved no pair. Takes no memory.
    pub fn new(rt: &'a R, workers: u32, gate: G) -> Pool<'a, R, G>
        requires some { 1 ≤ workers }
        requires few { workers ≤ MAX_WORKERS }
        ensures { result ≡ record { solved_pairs = 0; worker_count = workers } }
    {
        Pool {
            rt,
            workers,
            gate,
            solved: 0,
        }
    }

    /// How many pairs it has solved; the count stops at the last value of a `u64`. Takes no memory.
    pub fn solved_count(&self) -> u64
        ensures { result ≡ self.now.solved_pairs }
    {
        self.solved
    }

    /// The number of workers. Takes no memory.
    pub fn workers(&self) -> u32
        ensures { result ≡ self.now.worker_count }
    {
        self.workers
    }

    /// The chosen tiling and its cost of each pair, in the order of the pairs; or `NoMemory`. Counts pairs as
    /// `PairSolver::solve_pairs` does; here the gate may have any type.
    pub fn solve_pairs(&mut self, alloc: Global, pairs: &[Pair]) -> Result<Vec<Solved>, NoMemory>
        ensures solved { IfOk result (λ v. SolvesEach pairs.now v.items) }
        ensures counted { OnOk result (self.new.solved_pairs ≡ raised_by (length pairs.now) self.old.solved_pairs) }
        ensures not_less { self.old.solved_pairs ≤ self.new.solved_pairs }
        ensures not_more { self.new.solved_pairs ≤ self.old.solved_pairs + length pairs.now }
        ensures same_workers { self.new.worker_count ≡ self.old.worker_count }
    {
        let each = references(alloc, pairs)?;
        solve_counted(
            self.rt,
            alloc,
            &each,
            self.workers,
            &self.gate,
            &mut self.solved,
        )
    }

    /// Sets the number of workers, 1 to `MAX_WORKERS`. The count stays. Takes no memory. Here the gate may have any
    /// type.
    pub fn set_workers(&mut self, workers: u32)
        requires some { 1 ≤ workers }
        requires few { workers ≤ MAX_WORKERS }
        ensures set { self.new.worker_count ≡ workers }
        ensures same_count { self.new.solved_pairs ≡ self.old.solved_pairs }
    {
        self.workers = workers;
    }
}
