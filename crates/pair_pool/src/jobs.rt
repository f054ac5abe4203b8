//! The jobs of a list of pairs, in the order in which workers take them.
ghost use Rattle.std.specs.Prelude.{◌≡◌, IfOk};
ghost use Rattle.pair_pool.specs.Jobs.{work_of, AreByWork, AreJobs};
ghost use Rattle.pair_pool.specs.Solvers.{referents};

use fku_types::NoMemory;
use std::alloc::Global;
use std::cmp::Reverse;
use strip_graph::Pair;

// A pair to be solved: its estimated work, and its index in the list.
#[derive(Drop)]
pub(crate) struct Job {
    pub work: u32,
    pub place: usize,
}

// The estimated work of a pair.
fn work(pair: &Pair) -> u32
    ensures { result ≡ work_of pair.now }
{
    let (rows, cols) = (pair.low().points.len(), pair.high().points.len());
    rows as u32 * cols as u32
}

// The jobs of pairs in the order of the list.
fn jobs_in_order(alloc: Global, pairs: &[&Pair]) -> Result<Vec<Job>, NoMemory>
    ensures { IfOk result (λ v. AreJobs (referents pairs.now) v.items) }
{
    let mut jobs = Vec::with_capacity(alloc, pairs.len())?;
    for (place, pair) in pairs.iter().enumerate() {
        let work = work(pair);
        jobs.push(Job { work, place })?;
    }
    Ok(jobs)
}

// The jobs of pairs, those of most work first. Jobs of the same work keep the order of the list.
pub(crate) fn jobs_of(alloc: Global, pairs: &[&Pair]) -> Result<Vec<Job>, NoMemory>
    ensures { IfOk result (λ v. AreByWork (referents pairs.now) v.items) }
{
    let mut jobs = jobs_in_order(alloc, pairs)?;
    jobs.sort_by_key(|job| Reverse(job.work))?;
    Ok(jobs)
}
