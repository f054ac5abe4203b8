ghost use Rattle.std.specs.Prelude.{◌≡◌, ℕ, ◌+◌, ◌-◌, ◌*◌, ◌<◌, ◌≤◌, ◌++◌, IfOk, OnOk, length, replicate, take};
ghost use Rattle.strip_graph.specs.Strips.{arcs, rows, cols};
ghost use Rattle.row_paths.specs.Counts.{area, readings};
ghost use Rattle.row_paths.specs.Searches.{bound_at, last_at, IsRegion, StaysIn};
ghost use Rattle.row_paths.specs.Tables.{IsTableOf};
ghost use Rattle.row_paths.specs.Turns.{start_of, end_of, cost_of, IsPathOf, AreCosts, area_between, IsGap};

use crate::amounts::Cost;
use crate::divisions::{divide, spare_readings};
use crate::gaps::{Gap, fan};
use crate::regions::Region;
use crate::searches::find;
use crate::strip_costs::StripCosts;
use crate::tables::Table;
use fku_types::{NoMemory, Steps};
use std::alloc::Global;
use std::sync::ledger::Ledger;

/// A word that was found: its cost, and the column in which it enters each row.
#[derive(Drop)]
pub(crate) struct Found {
    pub cost: u128,
    pub path: Vec<u32>,
}

// Finds the word of a turn in a region, in which it stays.
fn find_turn<C: Cost, L: Ledger>(
    alloc: Global,
    strip: &StripCosts<'_, C>,
    lo: &[u32],
    hi: &[u32],
    turn: u32,
    table: &mut Table<C::Sum>,
    steps: &mut Steps<L>,
) -> Result<Found, NoMemory>
    requires lo { 2 * rows strip.now < length lo.now }
    requires hi { length hi.now ≡ 2 * rows strip.now + 1 }
    requires table { IsTableOf strip.now table.old }
    requires turn { turn + 2 ≤ 2 * rows strip.now }
    requires region { IsRegion (bound_at lo.now) (last_at hi.now) (cols strip.now) (end_of (rows strip.now) turn) }
    requires within { StaysIn (arcs strip.now) (bound_at lo.now) (last_at hi.now) (cols strip.now) (start_of turn)
        (end_of (rows strip.now) turn) }
    ensures cost { IfOk result (λ f. f.cost ≡ cost_of (arcs strip.now) (rows strip.now) (cols strip.now) turn) }
    ensures length { IfOk result (λ f. length f.path.items ≡ 2 * rows strip.now + 1) }
    ensures path { IfOk result (λ f. IsPathOf (arcs strip.now) (rows strip.now) (cols strip.now) turn f.path.items) }
    ensures table { IsTableOf strip.now table.new }
    ensures count { steps.new
        ≤ steps.old
        + 2
        * area (bound_at lo.now) (last_at hi.now) (start_of turn)
        (end_of (rows strip.now) turn + 1 - start_of turn) }
{
    let rows = strip.rows();
    let region = Region {
        lo,
        hi,
        width: strip.cols(),
        start: turn / 2,
        end: (turn + 1) / 2 + rows,
    };
    let mut path = vec![in alloc; 0; hi.len()]?;
    let cost = find(strip, &region, table, &mut path, steps);
    Ok(Found { cost, path })
}

// Appends the costs of the words between two. If these two share a place, two tables have all costs. Otherwise it finds
// one word in the region between the two, and the others in the two parts into which that word cuts the region.
fn between<C: Cost, L: Ledger>(
    alloc: Global,
    strip: &StripCosts<'_, C>,
    gap: &Gap<'_>,
    costs: &mut Vec<u128>,
    table: &mut Table<C::Sum>,
    spare: &mut u64,
    steps: &mut Steps<L>,
) -> Result<(), NoMemory>
    requires table { IsTableOf strip.now table.old }
    requires gap { IsGap strip.now gap.now }
    requires costs { AreCosts (arcs strip.now) (rows strip.now) (cols strip.now) (gap.now.first + 1) costs.old.items }
    ensures costs { OnOk result
        (AreCosts (arcs strip.now) (rows strip.now) (cols strip.now) gap.now.last costs.new.items) }
    ensures table { IsTableOf strip.now table.new }
    ensures count { steps.new + spare.new
        ≤ steps.old
        + spare.old
        + readings (gap.now.last - gap.now.first - 1)
        (area_between (rows strip.now) gap.now.lo.now gap.now.hi.now gap.now.first gap.now.last)
        (rows strip.now + cols strip.now + 2) }
{
    if gap.last - gap.first < 2 {
        return Ok(());
    }
    if fan(alloc, strip, gap, costs, table, steps)? {
        return Ok(());
    }
    let _rows = strip.rows();
    let division = divide(alloc, strip, gap, table, spare, steps)?;
    let middle = division.middle;
    let found = find_turn(alloc, strip, gap.lo, gap.hi, middle, table, steps)?;
    let above = Gap {
        first: gap.first,
        hi: gap.hi,
        last: middle,
        lo: &found.path,
        hint: division.hint,
    };
    between(alloc, strip, &above, costs, table, spare, steps)?;
    costs.push(found.cost)?;
    let below = Gap {
        first: middle,
        hi: &found.path,
        last: gap.last,
        lo: gap.lo,
        hint: 0,
    };
    between(alloc, strip, &below, costs, table, spare, steps)
}

// A bound that is the same for each row.
fn wall(alloc: Global, value: u32, count: usize) -> Result<Vec<u32>, NoMemory>
    requires some { 0 < count }
    ensures length { IfOk result (λ w. length w.items ≡ count) }
    ensures all { IfOk result (λ w. (x : ℕ) → bound_at w.items x ≡ value) }
{
    Ok(vec![in alloc; value; count]?)
}

/// Finds the first word, in the whole strip.
pub(crate) fn find_first<C: Cost, L: Ledger>(
    alloc: Global,
    strip: &StripCosts<'_, C>,
    table: &mut Table<C::Sum>,
    steps: &mut Steps<L>,
) -> Result<Found, NoMemory>
    requires table { IsTableOf strip.now table.old }
    ensures cost { IfOk result (λ f. f.cost ≡ cost_of (arcs strip.now) (rows strip.now) (cols strip.now) 0) }
    ensures length { IfOk result (λ f. length f.path.items ≡ 2 * rows strip.now + 1) }
    ensures path { IfOk result (λ f. IsPathOf (arcs strip.now) (rows strip.now) (cols strip.now) 0 f.path.items) }
    ensures table { IsTableOf strip.now table.new }
    ensures count { steps.new
        ≤ steps.old + (2 * rows strip.now * (cols strip.now + 1) + 2 * (rows strip.now + cols strip.now + 2)) }
{
    let rows = strip.rows() as usize;
    let lo = wall(alloc, 0, 2 * rows + 1)?;
    let hi = wall(alloc, strip.cols(), 2 * rows + 1)?;
    find_turn(alloc, strip, &lo, &hi, 0, table, steps)
}

// The columns in which a word enters the rows, if it begins so many rows below another one and has the same letters.
fn lowered(alloc: Global, path: &[u32], rows: usize) -> Result<Vec<u32>, NoMemory>
    requires { rows + 2 ≤ length path.now }
    ensures { IfOk result (λ v. v.items ≡ replicate rows 0 ++ take (rows + 2) path.now) }
{
    let mut lowered = vec![in alloc; 0; rows]?;
    lowered.extend_from_slice(&path[..rows + 2])?;
    Ok(lowered)
}

/// Finds the word of the turn from the last row to itself. It lies between the first word and the same word once round
/// below.
pub(crate) fn find_last<C: Cost, L: Ledger>(
    alloc: Global,
    strip: &StripCosts<'_, C>,
    first: &[u32],
    table: &mut Table<C::Sum>,
    steps: &mut Steps<L>,
) -> Result<Found, NoMemory>
    requires table { IsTableOf strip.now table.old }
    requires length { length first.now ≡ 2 * rows strip.now + 1 }
    requires path { IsPathOf (arcs strip.now) (rows strip.now) (cols strip.now) 0 first.now }
    ensures cost { IfOk result (λ f.
        f.cost ≡ cost_of (arcs strip.now) (rows strip.now) (cols strip.now) (2 * (rows strip.now - 1))) }
    ensures length { IfOk result (λ f. length f.path.items ≡ 2 * rows strip.now + 1) }
    ensures path { IfOk result (λ f.
        IsPathOf (arcs strip.now) (rows strip.now) (cols strip.now) (2 * (rows strip.now - 1)) f.path.items) }
    ensures table { IsTableOf strip.now table.new }
    ensures count { steps.new
        ≤ steps.old + (2 * rows strip.now * (cols strip.now + 1) + 2 * (rows strip.now + cols strip.now + 2)) }
{
    let rows = strip.rows();
    let _cols = strip.cols();
    let below = lowered(alloc, first, rows as usize)?;
    find_turn(alloc, strip, &below, first, 2 * (rows - 1), table, steps)
}

/// The least costs of the turns from each row to itself, and from each row but the last to the next one, in order; the
/// first and the last one are found already.
pub(crate) fn turn_costs<C: Cost, L: Ledger>(
    alloc: Global,
    strip: &StripCosts<'_, C>,
    gap: &Gap<'_>,
    first: u128,
    last: u128,
    table: &mut Table<C::Sum>,
    steps: &mut Steps<L>,
) -> Result<Vec<u128>, NoMemory>
    requires gap { IsGap strip.now gap.now }
    requires from { gap.now.first ≡ 0 }
    requires to { gap.now.last + 2 ≡ 2 * rows strip.now }
    requires first { first ≡ cost_of (arcs strip.now) (rows strip.now) (cols strip.now) gap.now.first }
    requires last { last ≡ cost_of (arcs strip.now) (rows strip.now) (cols strip.now) gap.now.last }
    requires table { IsTableOf strip.now table.old }
    ensures costs { IfOk result (λ c.
        AreCosts (arcs strip.now) (rows strip.now) (cols strip.now) (2 * rows strip.now - 1) c.items) }
    ensures table { IsTableOf strip.now table.new }
    ensures count { steps.new
        ≤ steps.old
        + readings (2 * rows strip.now - 3) (2 * rows strip.now * (cols strip.now + 1))
        (rows strip.now + cols strip.now + 2) }
{
    let mut costs = Vec::with_capacity(alloc, 2 * strip.rows() as usize)?;
    costs.push(first)?;
    let mut spare = spare_readings(strip, gap);
    between(alloc, strip, gap, &mut costs, table, &mut spare, steps)?;
    costs.push(last)?;
    Ok(costs)
}
