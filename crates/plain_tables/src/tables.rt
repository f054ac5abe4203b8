//! The plain program: a table of least costs for each start row.
ghost use Rattle.std.specs.Prelude.{◌≡◌, ◌+◌, ◌-◌, ◌*◌, ◌<◌, ◌≤◌, OnOk, min};
ghost use Rattle.strip_graph.specs.Strips.{rows, cols};
ghost use Rattle.row_paths.specs.Counts.{table_readings, plain_readings};

use fku_types::limits::MAX_COMPOSITE_VERTICES;
use fku_types::{NoMemory, Steps};
use std::alloc::Global;
use std::sync::ledger::Ledger;
use strip_graph::{Pair, Step};

/// The result of the plain tables: the first start row of least cost, its first least word, the cost of that word, and
/// the offsets.
#[derive(Drop)]
pub struct Plain {
    pub row: u32,
    pub word: Vec<Step>,
    pub cost: i128,
    pub offsets: Vec<i128>,
}

/// The first start row of least cost so far, that cost, and the row's table.
#[derive(Drop)]
struct Cheapest {
    row: u32,
    cost: i128,
    table: Vec<Vec<u128>>,
}

fn row_count(pair: &Pair) -> u32
    ensures value { result ≡ rows pair.now }
    ensures few { result ≤ MAX_COMPOSITE_VERTICES }
{
    pair.low().points.len() as u32
}

fn col_count(pair: &Pair) -> u32
    ensures value { result ≡ cols pair.now }
    ensures few { result ≤ MAX_COMPOSITE_VERTICES }
{
    pair.high().points.len() as u32
}

// The cost of a step.
fn cost_at<L: Ledger>(pair: &Pair, row: u32, col: u32, step: Step, steps: &mut Steps<L>) -> u128
    ensures { steps.new ≡ steps.old + 1 }
{
    pair.cost_at(row, col, step, steps) as u128
}

// The least cost if this many letters V and H are left.
fn left(table: &[Vec<u128>], v: u32, h: u32) -> u128 {
    match table.get(v as usize) {
        Some(row) => row.get(h as usize).copied().unwrap_or(u128::MAX),
        None => u128::MAX,
    }
}

// The least cost with `h` letters H left if the next letter is one of them; `after` is the cost of what follows it.
fn cost_by_h<L: Ledger>(pair: &Pair, row: u32, h: u32, after: u128, steps: &mut Steps<L>) -> u128
    requires { h ≤ cols pair.now }
    ensures { steps.new ≡ steps.old + min h 1 }
{
    if h == 0 {
        return u128::MAX;
    }
    after.saturating_add(cost_at(pair, row, col_count(pair) - h, Step::H, steps))
}

// The same with `v` letters V left, for V.
fn cost_by_v<L: Ledger>(
    pair: &Pair,
    row: u32,
    v: u32,
    h: u32,
    table: &[Vec<u128>],
    steps: &mut Steps<L>,
) -> u128
    requires { h ≤ cols pair.now }
    ensures { steps.new ≡ steps.old + min v 1 }
{
    if v == 0 {
        return u128::MAX;
    }
    let after = left(table, v - 1, h);
    after.saturating_add(cost_at(pair, row, col_count(pair) - h, Step::V, steps))
}

// The least costs with `v` letters V left on the way to row `end`, from those with one letter V less.
fn table_row<L: Ledger>(
    alloc: Global,
    pair: &Pair,
    end: u32,
    v: u32,
    table: &[Vec<u128>],
    steps: &mut Steps<L>,
) -> Result<Vec<u128>, NoMemory>
    ensures { OnOk result (steps.new ≡ steps.old + (cols pair.now + (cols pair.now + 1) * min v 1)) }
{
    let width = col_count(pair);
    let row = end.saturating_sub(v);
    let mut costs = Vec::with_capacity(alloc, width as usize + 1)?;
    let mut cost = u128::MAX;
    for h in 0..width + 1 {
        let by_h = cost_by_h(pair, row, h, cost, steps);
        let by_v = cost_by_v(pair, row, v, h, table, steps);
        cost = if v == 0 && h == 0 { 0 } else { by_v.min(by_h) };
        costs.push(cost)?;
    }
    Ok(costs)
}

// The least costs to row `end` and the last column, by the letters V and H that are left: V once more than there are
// rows, so that they give the offset too.
fn table_to<L: Ledger>(
    alloc: Global,
    pair: &Pair,
    end: u32,
    steps: &mut Steps<L>,
) -> Result<Vec<Vec<u128>>, NoMemory>
    ensures { OnOk result (steps.new ≡ steps.old + table_readings (rows pair.now) (cols pair.now)) }
{
    let height = row_count(pair) + 2;
    let mut table = Vec::new(alloc);
    for v in 0..height {
        let row = table_row(alloc, pair, end, v, &table, steps)?;
        table.push(row)?;
    }
    Ok(table)
}

// The first least word with all letters left.
fn first_word<L: Ledger>(
    alloc: Global,
    pair: &Pair,
    end: u32,
    table: &[Vec<u128>],
    steps: &mut Steps<L>,
) -> Result<Vec<Step>, NoMemory>
    ensures { OnOk result (steps.new ≡ steps.old + (rows pair.now + cols pair.now)) }
{
    let mut v = row_count(pair);
    let mut h = col_count(pair);
    let mut word = Vec::new(alloc);
    for letter in 0..v + h {
        let row = end.saturating_sub(v);
        let col = col_count(pair).saturating_sub(h);
        let by_v = cost_at(pair, row, col, Step::V, steps);
        if v > 0 && left(table, v - 1, h).saturating_add(by_v) == left(table, v, h) {
            word.push(Step::V)?;
            v -= 1;
        } else {
            word.push(Step::H)?;
            h = h.saturating_sub(1);
        }
    }
    Ok(word)
}

fn signed(cost: u128) -> i128 {
    i128::try_from(cost).unwrap_or(i128::MAX)
}

// The offset of a start row, from that of the row before it and from the row's table.
fn next_offset(pair: &Pair, row: u32, before: i128, cost: i128, table: &[Vec<u128>]) -> i128 {
    if row == 0 {
        return before;
    }
    let from_last = left(table, row_count(pair) + 1, col_count(pair));
    before.wrapping_add(signed(from_last)).wrapping_sub(cost)
}

// Adds a start row: it becomes the cheapest if it costs less than all rows before it. Returns its offset.
fn add_row<L: Ledger>(
    alloc: Global,
    pair: &Pair,
    row: u32,
    before: i128,
    best: &mut Cheapest,
    steps: &mut Steps<L>,
) -> Result<i128, NoMemory>
    requires { row ≤ MAX_COMPOSITE_VERTICES }
    ensures { OnOk result (steps.new ≡ steps.old + table_readings (rows pair.now) (cols pair.now)) }
{
    let rows = row_count(pair);
    let table = table_to(alloc, pair, row + rows, steps)?;
    let cost = signed(left(&table, rows, col_count(pair)));
    let offset = next_offset(pair, row, before, cost, &table);
    if cost < best.cost {
        *best = Cheapest { row, cost, table };
    }
    Ok(offset)
}

/// Solves a pair by one table for each start row; or `NoMemory`. At `Ok` the counter has risen by exactly what the
/// definition of this program's readings says.
pub fn solve_plainly<L: Ledger>(
    alloc: Global,
    pair: &Pair,
    steps: &mut Steps<L>,
) -> Result<Plain, NoMemory>
    ensures count { OnOk result (steps.new ≡ steps.old + plain_readings (rows pair.now) (cols pair.now)) }
{
    let rows = row_count(pair);
    let mut best = Cheapest {
        row: 0,
        cost: i128::MAX,
        table: Vec::new(alloc),
    };
    let mut offsets = Vec::new(alloc);
    let mut offset: i128 = 0;
    for row in 0..rows {
        offset = add_row(alloc, pair, row, offset, &mut best, steps)?;
        offsets.push(offset)?;
    }
    let end = best.row.saturating_add(rows);
    let word = first_word(alloc, pair, end, &best.table, steps)?;
    Ok(Plain {
        row: best.row,
        word,
        cost: best.cost,
        offsets,
    })
}
