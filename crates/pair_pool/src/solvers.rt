//! The contract of solvers of pairs.
ghost use Rattle.std.specs.Prelude.{◌≡◌, ◌+◌, ◌<◌, ◌≤◌, All, length, map, IfOk, IfErr, OnOk};
ghost use Rattle.strip_graph.specs.Strips.{IsStrip};
ghost use Rattle.section_pairs.specs.Pairs.{pair_parts};
ghost use Rattle.section_pairs.specs.SectionFaults.{ArePairs, IsLateMemory, IsPairsFault};
ghost use Rattle.pair_pool.specs.Solvers.{SolvesEach, raised_by, referents};

use fku_types::limits::{MAX_PAIRS, MAX_WORKERS};
use fku_types::{Fault, NoMemory};
use row_paths::Solved;
use section_core::Sections;
use section_pairs::{GapPair, pairs};
use std::alloc::Global;
use strip_graph::Pair;

// A reference to each pair of a list.
pub(crate) fn references<'a>(alloc: Global, pairs: &'a [Pair]) -> Result<Vec<&'a Pair>, NoMemory>
    ensures { IfOk result (λ v. referents v.items ≡ pairs.now) }
{
    let mut each = Vec::with_capacity(alloc, pairs.len())?;
    for pair in pairs {
        each.push(pair)?;
    }
    Ok(each)
}

/// Finds the pairs of sections, solves lists of pairs, and counts the pairs that it has solved.
pub trait PairSolver {
    ghost use Rattle.std.specs.Prelude.{ℕ};

    ghost solved_pairs: { Self → ℕ };

    ghost worker_count: { Self → ℕ };

    /// The chosen tiling and its cost of each pair, in the order of the pairs; or `NoMemory`. `Ok` raises the count by
    /// the number of pairs, up to the counter's last value; `NoMemory` by at most that. The number of workers stays. The
    /// pairs are given by reference, so that their owner need not copy them.
    fn solve_each(&mut self, alloc: Global, pairs: &[&Pair]) -> Result<Vec<Solved>, NoMemory>
        ensures solved { IfOk result (λ v. SolvesEach (referents pairs.now) v.items) }
        ensures counted { OnOk result (solved_pairs self.new ≡ raised_by (length pairs.now) (solved_pairs self.old)) }
        ensures not_less { solved_pairs self.old ≤ solved_pairs self.new }
        ensures not_more { solved_pairs self.new ≤ solved_pairs self.old + length pairs.now }
        ensures same_workers { worker_count self.new ≡ worker_count self.old };

    /// The result of `solve_each`, and the result of `beside`, which the calling thread runs meanwhile, since workers
    /// in threads of their own leave it idle. A solver that works on the calling thread runs it afterwards.
    fn solve_beside<F: FnOnce() -> A, A>(
        &mut self,
        alloc: Global,
        pairs: &[&Pair],
        beside: F,
    ) -> (Result<Vec<Solved>, NoMemory>, A)
        requires { F.pre beside }
        ensures solved { IfOk result.0 (λ v. SolvesEach (referents pairs.now) v.items) }
        ensures counted { OnOk result.0 (solved_pairs self.new ≡ raised_by (length pairs.now) (solved_pairs self.old)) }
        ensures not_less { solved_pairs self.old ≤ solved_pairs self.new }
        ensures not_more { solved_pairs self.new ≤ solved_pairs self.old + length pairs.now }
        ensures same_workers { worker_count self.new ≡ worker_count self.old }
        ensures beside { F.post beside result.1 }
    {
        let solved = self.solve_each(alloc, pairs);
        (solved, beside())
    }

    /// The result of `solve_each` for the pairs of a list.
    fn solve_pairs(&mut self, alloc: Global, pairs: &[Pair]) -> Result<Vec<Solved>, NoMemory>
        ensures solved { IfOk result (λ v. SolvesEach pairs.now v.items) }
        ensures counted { OnOk result (solved_pairs self.new ≡ raised_by (length pairs.now) (solved_pairs self.old)) }
        ensures not_less { solved_pairs self.old ≤ solved_pairs self.new }
        ensures not_more { solved_pairs self.new ≤ solved_pairs self.old + length pairs.now }
        ensures same_workers { worker_count self.new ≡ worker_count self.old }
    {
        let each = references(alloc, pairs)?;
        self.solve_each(alloc, &each)
    }

    /// The result of `pairs` of `section_pairs`. By default that call finds it; a solver's workers may find pairs side
    /// by side.
    fn find_pairs(&self, alloc: Global, sections: &Sections) -> Result<Vec<GapPair>, Fault>
        ensures pairs { IfOk result (λ v. ArePairs sections.now (map pair_parts v.items)) }
        ensures strips { IfOk result (λ v. All (λ p. IsStrip p.pair) v.items) }
        ensures gaps { IfOk result (λ v. All (λ p. p.gap + 1 < length sections.now.sections) v.items) }
        ensures few { IfOk result (λ v. length v.items ≤ MAX_PAIRS) }
        ensures fault { IfErr result (IsPairsFault sections.now) }
        ensures memory { IfErr result (IsLateMemory sections.now) }
    {
        pairs(alloc, sections)
    }

    /// Sets the number of workers, 1 to `MAX_WORKERS`. The count stays. Takes no memory.
    fn set_workers(&mut self, workers: u32)
        requires some { 1 ≤ workers }
        requires few { workers ≤ MAX_WORKERS }
        ensures set { worker_count self.new ≡ workers }
        ensures same_count { solved_pairs self.new ≡ solved_pairs self.old };
}
