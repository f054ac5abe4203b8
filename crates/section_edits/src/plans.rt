//! Which pairs are new, since no kept pair has their points and cost rule; and where the solutions of the others come
//! from.
ghost use Rattle.std.specs.Prelude.{◌≡◌, ◌+◌, ◌<◌, ◌≤◌, false, All, IfOk, IfSome, IfNone, length, map};
ghost use Rattle.std.specs.List.{list_any};
ghost use Rattle.section_pairs.specs.Pairs.{pair_parts};
ghost use Rattle.surface_core.specs.Surfaces.{strips_in};
ghost use Rattle.pair_pool.specs.Solvers.{SolvesEach, raised_by};
ghost use Rattle.section_edits.specs.Fresh.{same_points, same_rule, is_same_strip, fresh};
ghost use Rattle.section_edits.specs.Plans.{IsPlan, IsAmong, IsSameStripAt, solution_from};

use fku_types::limits::MAX_PAIRS;
use fku_types::{CostRule, NoMemory, Point};
use pair_pool::PairSolver;
use row_paths::Solved;
use section_pairs::GapPair;
use std::alloc::Global;
use strip_graph::Pair;

/// Where the solution of a pair comes from: a place among the kept solutions, or among the new ones.
#[derive(Clone, Copy)]
pub enum Origin {
    Kept(usize),
    Fresh(usize),
}

/// The origin of each pair's solution, and the new pairs.
#[derive(Drop)]
pub struct Plan<'a> {
    pub origins: Vec<Origin>,
    pub solving: Vec<&'a Pair>,
}

fn same_points(one: &[Point], other: &[Point]) -> bool
    ensures { result ≡ same_points one.now other.now }
{
    one == other
}

fn same_rule(one: CostRule, other: CostRule) -> bool
    ensures { result ≡ same_rule one other }
{
    one == other
}

// Whether both have the same points and the same cost rule; ids do not count.
fn is_same(one: &Pair, other: &Pair) -> bool
    ensures { result ≡ is_same_strip one.now other.now }
{
    same_rule(one.cost(), other.cost())
        && same_points(&one.low().points, &other.low().points)
        && same_points(&one.high().points, &other.high().points)
}

// The place of a kept pair that is the same: the hinted place, or else the first. If the earlier pairs were looked up
// in order, the hint is right except near a change.
fn find_same(pair: &Pair, kept: &[GapPair], hint: usize) -> Option<usize>
    ensures found { IfSome result (IsSameStripAt pair.now (strips_in (map pair_parts kept.now))) }
    ensures none { IfNone result (list_any (is_same_strip pair.now) (strips_in (map pair_parts kept.now)) ≡ false) }
{
    if hint < kept.len() && is_same(pair, &kept[hint].pair) {
        return Some(hint);
    }
    for place in 0..kept.len() {
        if is_same(pair, &kept[place].pair) {
            return Some(place);
        }
    }
    None
}

// Which of the pairs are new, since no kept pair is the same, and where the others' solutions are kept.
fn planned<'a>(alloc: Global, kept: &[GapPair], pairs: &'a [GapPair]) -> Result<Plan<'a>, NoMemory>
    ensures { IfOk result (IsPlan (strips_in (map pair_parts kept.now)) (strips_in (map pair_parts pairs.now))) }
{
    let mut origins = Vec::with_capacity(alloc, pairs.len())?;
    let mut solving = Vec::new(alloc);
    let mut hint = 0;
    for pair in pairs {
        match find_same(&pair.pair, kept, hint) {
            Some(place) => {
                origins.push(Origin::Kept(place))?;
                hint = place + 1;
            }
            None => {
                origins.push(Origin::Fresh(solving.len()))?;
                solving.push(&pair.pair)?;
                hint = hint.saturating_add(1);
            }
        }
    }
    Ok(Plan { origins, solving })
}

// The solutions of all pairs, in order.
fn solutions(
    alloc: Global,
    origins: &[Origin],
    kept: &[Solved],
    solved: &[Solved],
) -> Result<Vec<Solved>, NoMemory>
    requires { All (IsAmong (length kept.now) (length solved.now)) origins.now }
    ensures { IfOk result (λ v. v.items ≡ map (solution_from kept.now solved.now) origins.now) }
{
    let mut solutions = Vec::with_capacity(alloc, origins.len())?;
    for origin in origins {
        let solution = match *origin {
            Origin::Kept(place) => &kept[place],
            Origin::Fresh(place) => &solved[place],
        };
        solutions.push(solution.copy(alloc)?)?;
    }
    Ok(solutions)
}

/// The solutions of pairs, in order, and how many of the pairs are new.
#[derive(Drop)]
pub struct Resolved {
    pub solutions: Vec<Solved>,
    pub fresh: u32,
}

/// The solutions of pairs: kept solutions for pairs that are the same as a kept one, and solutions by the solver for
/// the new pairs, in pair order. The contract states only that the solver's count rises by the number of new pairs.
pub fn resolve<P: PairSolver>(
    alloc: Global,
    kept: &[GapPair],
    kept_solved: &[Solved],
    pairs: &[GapPair],
    solver: &mut P,
) -> Result<Resolved, NoMemory>
    requires kept { SolvesEach (strips_in (map pair_parts kept.now)) kept_solved.now }
    requires few { length pairs.now ≤ MAX_PAIRS }
    ensures solved { IfOk result (λ r. SolvesEach (strips_in (map pair_parts pairs.now)) r.solutions.items) }
    ensures fresh { IfOk result (λ r.
        r.fresh ≡ fresh (strips_in (map pair_parts kept.now)) (strips_in (map pair_parts pairs.now))) }
    ensures few { IfOk result (λ r. r.fresh ≤ length pairs.now) }
    ensures counted { IfOk result (λ r. P.solved_pairs solver.new ≡ raised_by r.fresh (P.solved_pairs solver.old)) }
    ensures not_less { P.solved_pairs solver.old ≤ P.solved_pairs solver.new }
    ensures not_more { P.solved_pairs solver.new
        ≤ P.solved_pairs solver.old
        + fresh (strips_in (map pair_parts kept.now)) (strips_in (map pair_parts pairs.now)) }
    ensures same_workers { P.worker_count solver.new ≡ P.worker_count solver.old }
{
    let plan = planned(alloc, kept, pairs)?;
    let solved = solver.solve_each(alloc, &plan.solving)?;
    let solutions = solutions(alloc, &plan.origins, kept_solved, &solved)?;
    let fresh = plan.solving.len() as u32;
    Ok(Resolved { solutions, fresh })
}
