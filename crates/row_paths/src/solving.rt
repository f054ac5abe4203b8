ghost use Rattle.std.specs.Prelude.{◌≡◌, ◌⊎◌, ℕ, ◌+◌, ◌-◌, ◌*◌, ◌<◌, ◌≤◌, ◌≤ℤ◌, pos, IfOk, IfSome, IfNone, IsSome, IsTrue, IsFalse, List, length, slice_index};
ghost use Rattle.strip_graph.specs.declared.tilings.Step.{Step};
ghost use Rattle.strip_graph.specs.Strips.{arcs, rows, cols, step_cost_limit};
ghost use Rattle.strip_graph.specs.Words.{word_cost};
ghost use Rattle.strip_graph.specs.Tilings.{IsAcceptable};
ghost use Rattle.strip_graph.specs.Distances.{IsFirst};
ghost use Rattle.strip_graph.specs.Layouts.{IsByPlace};
ghost use Rattle.row_paths.specs.Counts.{cost_readings, most_readings, swept_readings};
ghost use Rattle.row_paths.specs.Solutions.{Solves};
ghost use Rattle.row_paths.specs.StripCosts.{largest};
ghost use Rattle.row_paths.specs.Tables.{IsTableOf};
ghost use Rattle.row_paths.specs.Turns.{AreCosts, IsFirstLeast, IsGap};

use crate::amounts::Cost;
use crate::gaps::Gap;
use crate::regions::Region;
use crate::searches::find_word;
use crate::solved::Solved;
use crate::strip_costs::{CostLists, StripCosts, computed_costs, cost_table, is_long};
use crate::sweeping::{is_worth_sweeping, try_sweeps};
use crate::tables::{Table, fit_table};
use crate::turns::{find_first, find_last, turn_costs};
use crate::workspace::Workspace;
use fku_types::{NoMemory, Steps};
use itertools::Itertools;
use std::alloc::Global;
use std::sync::ledger::Ledger;
use strip_graph::{Layout, Pair, Step};

/// A solution, and the costs of all turns, among which it was chosen.
#[derive(Drop)]
pub(crate) struct Searched {
    pub solved: Solved,
    pub costs: Vec<u128>,
}

// The costs of the turns from each row to the same row, among those of all turns.
fn round_costs(alloc: Global, costs: &[u128], rows: usize) -> Result<Vec<u128>, NoMemory>
    requires { 2 * rows ≤ length costs.now + 1 }
    ensures count { IfOk result (λ r. length r.items ≡ rows) }
    ensures are { IfOk result (λ r. (k : ℕ) → k < rows → slice_index r.items k ≡ slice_index costs.now (2 * k)) }
{
    let mut rounds = Vec::with_capacity(alloc, rows)?;
    for row in 0..rows {
        rounds.push(costs[2 * row])?;
    }
    Ok(rounds)
}

// The first row of least cost.
fn first_least(costs: &[u128]) -> usize
    requires { 0 < length costs.now }
    ensures { IsFirstLeast costs.now result }
{
    costs.iter().copied().position_min().unwrap_or(0)
}

// The lower bound of a word between. If that word is the first word, which is found already, nothing lies between.
fn lower_bound<'a>(gap: &Gap<'a>, turn: u32) -> &'a [u32]
    ensures { ((turn ≡ gap.now.first) × (result.now ≡ gap.now.hi.now)) ⊎ (result.now ≡ gap.now.lo.now) }
{
    if turn == gap.first { gap.hi } else { gap.lo }
}

// The first least word of the turn from a row to itself, which lies between the words of the first and of the last row.
fn turn_word<C: Cost, L: Ledger>(
    alloc: Global,
    strip: &StripCosts<'_, C>,
    gap: &Gap<'_>,
    row: u32,
    table: &mut Table<C::Sum>,
    steps: &mut Steps<L>,
) -> Result<Vec<Step>, NoMemory>
    requires gap { IsGap strip.now gap.now }
    requires from { gap.now.first ≤ 2 * row }
    requires to { 2 * row ≤ gap.now.last }
    requires table { IsTableOf strip.now table.old }
    ensures word { IfOk result (λ w. IsFirst (arcs strip.now) row 0 (rows strip.now) (cols strip.now) w.items) }
    ensures count { steps.new
        ≤ steps.old + (2 * rows strip.now * (cols strip.now + 1) + 2 * (rows strip.now + cols strip.now + 2)) }
{
    let region = Region {
        lo: lower_bound(gap, 2 * row),
        hi: gap.hi,
        width: strip.cols(),
        start: row,
        end: row + strip.rows(),
    };
    find_word(alloc, strip, &region, table, steps)
}

// Solves a strip whose costs are known. The readings left over pay for three tables of costs and one row.
fn solve_strip<C: Cost, L: Ledger>(
    alloc: Global,
    strip: &StripCosts<'_, C>,
    table: &mut Table<C::Sum>,
    steps: &mut Steps<L>,
) -> Result<Searched, NoMemory>
    ensures solves { IfOk result (λ s. Solves strip.now s.solved) }
    ensures costs { IfOk result (λ s.
        AreCosts (arcs strip.now) (rows strip.now) (cols strip.now) (2 * rows strip.now - 1) s.costs.items) }
    ensures count { steps.new + 3 * (2 * rows strip.now * (cols strip.now + 1)) + (cols strip.now + 1)
        ≤ steps.old + most_readings (rows strip.now) (cols strip.now) }
{
    let rows = strip.rows();
    let _cols = strip.cols();
    fit_table(strip, table)?;
    let first = find_first(alloc, strip, table, steps)?;
    let last = find_last(alloc, strip, &first.path, table, steps)?;
    let gap = Gap {
        first: 0,
        hi: &first.path,
        last: 2 * (rows - 1),
        lo: &last.path,
        hint: 0,
    };
    let costs = turn_costs(alloc, strip, &gap, first.cost, last.cost, table, steps)?;
    let rounds = round_costs(alloc, &costs, rows as usize)?;
    let row = first_least(&rounds);
    let word = turn_word(alloc, strip, &gap, row as u32, table, steps)?;
    let solved = Solved::of(row as u32, word, rounds[row]);
    Ok(Searched { solved, costs })
}

// Solves a pair that is laid out, unless a cost is too large for sums of this width.
fn solve_in<'a, C: Cost, L: Ledger>(
    alloc: Global,
    layout: &'a Layout<'a>,
    by_place: bool,
    lists: &'a mut CostLists<C>,
    table: &mut Table<C::Sum>,
    steps: &mut Steps<L>,
) -> Result<Option<Searched>, NoMemory>
    requires kept { IsFalse C.IS_COMPUTED }
    requires by_place { IsTrue by_place → IsByPlace layout.now }
    ensures solves { IfOk result (λ o. IfSome o (λ s. Solves layout.now s.solved)) }
    ensures costs { IfOk result (λ o. IfSome o (λ s.
        AreCosts (arcs layout.now) (rows layout.now) (cols layout.now) (2 * rows layout.now - 1) s.costs.items)) }
    ensures some { step_cost_limit ≤ C.MOST → step_cost_limit ≤ largest C.Sum.MOST layout.now → IfOk result IsSome }
    ensures count { steps.new + 3 * (2 * rows layout.now * (cols layout.now + 1)) + (cols layout.now + 1)
        ≤ steps.old
        + cost_readings by_place (rows layout.now) (cols layout.now)
        + most_readings (rows layout.now) (cols layout.now) }
    ensures none { IfOk result (λ o.
        IfNone o (steps.new ≤ steps.old + cost_readings by_place (rows layout.now) (cols layout.now))) }
{
    let _rows = layout.rows();
    let Some(strip) = cost_table(layout, by_place, lists, steps)? else {
        return Ok(None);
    };
    let searched = solve_strip(alloc, &strip, table, steps)?;
    Ok(Some(searched))
}

// Solves a pair that is laid out, with costs in 128 bits, which are kept in tables unless there are many.
fn solve_large<L: Ledger>(
    alloc: Global,
    layout: &Layout<'_>,
    by_place: bool,
    lists: &mut CostLists<u128>,
    table: &mut Table<u128>,
    steps: &mut Steps<L>,
) -> Result<Searched, NoMemory>
    requires { IsTrue by_place → IsByPlace layout.now }
    ensures solves { IfOk result (λ s. Solves layout.now s.solved) }
    ensures costs { IfOk result (λ s.
        AreCosts (arcs layout.now) (rows layout.now) (cols layout.now) (2 * rows layout.now - 1) s.costs.items) }
    ensures count { steps.new + 3 * (2 * rows layout.now * (cols layout.now + 1)) + (cols layout.now + 1)
        ≤ steps.old
        + cost_readings by_place (rows layout.now) (cols layout.now)
        + most_readings (rows layout.now) (cols layout.now) }
{
    let _rows = layout.rows();
    let _cols = layout.cols();
    if is_long(layout) {
        return solve_strip(alloc, &computed_costs(layout), table, steps);
    }
    let searched = solve_in::<u128, L>(alloc, layout, by_place, lists, table, steps)?.unwrap();
    Ok(searched)
}

// Solves a pair that is laid out, with costs in 64 bits, if that width holds all of them, else in 128. The readings left
// over pay for a table of costs and one row.
fn solve_wide<L: Ledger>(
    alloc: Global,
    layout: &Layout<'_>,
    by_place: bool,
    workspace: &mut Workspace,
    steps: &mut Steps<L>,
) -> Result<Searched, NoMemory>
    requires { IsTrue by_place → IsByPlace layout.now }
    ensures solves { IfOk result (λ s. Solves layout.now s.solved) }
    ensures costs { IfOk result (λ s.
        AreCosts (arcs layout.now) (rows layout.now) (cols layout.now) (2 * rows layout.now - 1) s.costs.items) }
    ensures count { steps.new + 3 * (2 * rows layout.now * (cols layout.now + 1)) + (cols layout.now + 1)
        ≤ steps.old
        + 2 * cost_readings by_place (rows layout.now) (cols layout.now)
        + most_readings (rows layout.now) (cols layout.now) }
{
    let Workspace {
        medium_costs,
        large_costs,
        narrow_table,
        wide_table,
        ..
    } = workspace;
    if let Some(searched) = solve_in::<u64, L>(
        alloc,
        &*layout,
        by_place,
        medium_costs,
        narrow_table,
        steps,
    )? {
        return Ok(searched);
    }
    medium_costs.let_go(alloc);
    solve_large(alloc, layout, by_place, large_costs, wide_table, steps)
}

/// Solves a pair that is laid out, with costs in the smallest width that holds all of them. `by_place` says that both
/// steps to a place cost the same.
pub(crate) fn solve_layout<L: Ledger>(
    alloc: Global,
    layout: &Layout<'_>,
    by_place: bool,
    workspace: &mut Workspace,
    steps: &mut Steps<L>,
) -> Result<Searched, NoMemory>
    requires { IsTrue by_place → IsByPlace layout.now }
    ensures solves { IfOk result (λ s. Solves layout.now s.solved) }
    ensures costs { IfOk result (λ s.
        AreCosts (arcs layout.now) (rows layout.now) (cols layout.now) (2 * rows layout.now - 1) s.costs.items) }
    ensures count { steps.new + 3 * (2 * rows layout.now * (cols layout.now + 1)) + (cols layout.now + 1)
        ≤ steps.old
        + 3 * cost_readings by_place (rows layout.now) (cols layout.now)
        + most_readings (rows layout.now) (cols layout.now) }
{
    if let Some(searched) = solve_in::<u32, L>(
        alloc,
        &*layout,
        by_place,
        &mut workspace.small_costs,
        &mut workspace.narrow_table,
        steps,
    )? {
        return Ok(searched);
    }
    workspace.small_costs.let_go(alloc);
    solve_wide(alloc, layout, by_place, workspace, steps)
}

// Solves a pair that is laid out and whose try of sweeps was of no use. What the try counts is left over.
fn solve_after<L: Ledger>(
    alloc: Global,
    layout: &Layout<'_>,
    by_place: bool,
    workspace: &mut Workspace,
    steps: &mut Steps<L>,
) -> Result<Searched, NoMemory>
    requires { IsTrue by_place → IsByPlace layout.now }
    ensures solves { IfOk result (λ s. Solves layout.now s.solved) }
    ensures count { steps.new + swept_readings by_place (rows layout.now) (cols layout.now)
        ≤ steps.old + most_readings (rows layout.now) (cols layout.now) }
{
    workspace.sweeps.let_go(alloc);
    if by_place {
        solve_layout(alloc, layout, by_place, workspace, steps)
    } else {
        solve_wide(alloc, layout, by_place, workspace, steps)
    }
}

/// Solves a pair. The result has a tiling that costs no more than any acceptable tiling from any start: of those from
/// column 0 with this cost, the one of the least start row and then of the first word, where V comes before H. It also
/// has the cost. Or `NoMemory`.
///
/// A pair is swept first (`choose_spans` and `choose_tiles` of `round_sweeps`), unless it is small. Where sweeps do not
/// give its tiling, divided tables of least costs do.
///
/// The counter rises by at most the stated bound. A reading of a cost counts one: a call of `Pair::cost_at`, of
/// `v_cost` or `h_cost` of `RowSteps`, and of `read` where a search takes a cost from the tables of this crate. A try
/// of sweeps, which compute costs from points, counts for each place of the strip three where both steps to it cost the
/// same, else two, and one for each column, whatever it computes. So the bound excludes a table for each start row
/// (`readings_are_few`). It does not exclude a body that copies costs, computes them from points, or reads them by
/// `Pair::round_row`, which counts nothing. It says nothing of time or memory, and states no least number: a search may
/// count fewer.
pub fn solve<L: Ledger>(
    alloc: Global,
    pair: &Pair,
    steps: &mut Steps<L>,
) -> Result<Solved, NoMemory>
    ensures solves { IfOk result (Solves pair.now) }
    ensures acceptable { IfOk result (λ s. IsAcceptable (rows pair.now) (cols pair.now) s.row 0 s.word) }
    ensures least { IfOk result (λ s.
        (i j : ℕ) (w : List Step) → IsAcceptable (rows pair.now) (cols pair.now) i j w
        → s.cost ≤ℤ pos (word_cost (arcs pair.now) i j w)) }
    ensures count { steps.new ≤ steps.old + most_readings (rows pair.now) (cols pair.now) }
{
    let mut workspace = Workspace::new(alloc);
    solve_with(alloc, pair, &mut workspace, steps)
}

/// The same in a workspace, which later pairs use again, even after memory ran out.
pub fn solve_with<L: Ledger>(
    alloc: Global,
    pair: &Pair,
    workspace: &mut Workspace,
    steps: &mut Steps<L>,
) -> Result<Solved, NoMemory>
    ensures solves { IfOk result (Solves pair.now) }
    ensures acceptable { IfOk result (λ s. IsAcceptable (rows pair.now) (cols pair.now) s.row 0 s.word) }
    ensures least { IfOk result (λ s.
        (i j : ℕ) (w : List Step) → IsAcceptable (rows pair.now) (cols pair.now) i j w
        → s.cost ≤ℤ pos (word_cost (arcs pair.now) i j w)) }
    ensures count { steps.new ≤ steps.old + most_readings (rows pair.now) (cols pair.now) }
{
    let layout = Layout::of(alloc, pair)?;
    let by_place = layout.is_by_place();
    if !is_worth_sweeping(pair) {
        let searched = solve_layout(alloc, &layout, by_place, workspace, steps)?;
        return Ok(searched.solved);
    }
    let swept = try_sweeps(alloc, pair, by_place, &mut workspace.sweeps, steps)?;
    if let Some(solved) = swept {
        return Ok(solved);
    }
    let searched = solve_after(alloc, &layout, by_place, workspace, steps)?;
    Ok(searched.solved)
}
