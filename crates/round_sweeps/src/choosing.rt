//! The chosen tiling of a strip, by bounds of its turns and a search, where they give it.
ghost use Rattle.std.specs.Prelude.{◌≡◌, ℕ, ◌+◌, ◌*◌, ◌<◌, ◌≤◌, ℤ, pos, neg_ℤ, ◌+ℤ◌, ◌≤ℤ◌, ◌^◌, IfOk, IfSome, OnOk, length};
ghost use Rattle.strip_graph.specs.declared.tilings.Step.{Step};
ghost use Rattle.strip_graph.specs.declared.tilings.Step.TheVariants.{V};
ghost use Rattle.strip_graph.specs.Words.{word_cost};
ghost use Rattle.strip_graph.specs.Tilings.{IsChosen};
ghost use Rattle.strip_graph.specs.Feasible.{IsRowPeriodic};
ghost use Rattle.round_sweeps.specs.Columns.{start_limit, value_limit, at_row, IsFirstLeastAmong};
ghost use Rattle.round_sweeps.specs.Starts.{AreRates, AreStarts};
ghost use Rattle.round_sweeps.specs.Tables.{GoesRound, AreColumnsInRange, IsTable, AreFitBounds};

use crate::bands::narrow_bounds;
use crate::bounds::rise_bounds;
use crate::rates::fill_rates;
use crate::spaces::{SweepSpace, fit_space};
use crate::starts::first_column;
use crate::sweeps::{StripColumns, sweep};
use crate::turns::{search_turn, spell_ways};
use fku_types::NoMemory;
use fku_types::limits::MAX_COMPOSITE_VERTICES;
use std::alloc::Global;
use strip_graph::Step;

// A rate from which on sweeps are not worth a try: what is counted of an area goes no further.
const MOST_RATE: i64 = 196_000_000_000_000;

/// A tiling from a row and column 0, and what it costs.
#[derive(Drop)]
pub struct Choice {
    pub row: usize,
    pub word: Vec<Step>,
    pub cost: i64,
}

// The first row of the least bound.
fn first_least(bounds: &[i64]) -> usize
    requires { 0 < length bounds.now }
    ensures { IsFirstLeastAmong (length bounds.now) result bounds.now }
{
    let mut best = 0;
    for row in 1..bounds.len() {
        let here = bounds[row];
        let least = bounds[best];
        if here < least {
            best = row;
        }
    }
    best
}

// What the potential may have at the end of a turn, by its number at the start and the bound of the turn; none where
// that is too large for a search.
fn limit_of(number: i64, bound: i64) -> Option<i64>
    requires number_least { neg_ℤ start_limit ≤ℤ number }
    requires number_most { number ≤ℤ value_limit }
    ensures value { IfSome result (λ l. l ≡ number +ℤ bound) }
    ensures least { IfSome result (λ l. pos 0 ≤ℤ l) }
    ensures most { IfSome result (λ l. l ≤ℤ value_limit) }
{
    if bound < 0 || bound > 1_152_921_504_606_846_976 {
        return None;
    }
    let limit = number + bound;
    if limit < 0 || limit > 2_305_843_009_213_693_952 {
        return None;
    }
    Some(limit)
}

/// The chosen tiling of a strip, by a potential of all its places and bounds of all turns; none where the first turn of
/// the least bound does not cost its bound, or a number is too large.
pub fn find_turn<S: StripColumns>(
    alloc: Global,
    costs: &S,
    rows: usize,
    cols: usize,
    round: i64,
    table: &[i64],
    bounds: &[i64],
    sums: &mut [i64],
    ways: &mut [bool],
) -> Result<Option<Choice>, NoMemory>
    requires rows { rows ≡ S.rows costs.now }
    requires cols { cols ≡ S.cols costs.now }
    requires strip { GoesRound (S.costs costs.now) rows cols }
    requires table { AreColumnsInRange rows cols round table.now }
    requires known { AreFitBounds (S.costs costs.now) rows cols bounds.now }
    requires bounds_rows { length bounds.now ≡ rows }
    requires ways { (cols + 1) * (rows + 1) ≤ length ways.old }
    requires sums { length sums.old ≡ rows + 1 }
    requires potential { IsTable (S.costs costs.now) rows cols round table.now }
    ensures chosen { IfOk result (λ o. IfSome o (λ t. IsChosen (S.costs costs.now) rows cols t.row t.word.items)) }
    ensures cost { IfOk result (λ o.
        IfSome o (λ t. pos (word_cost (S.costs costs.now) t.row 0 t.word.items) ≡ t.cost)) }
{
    let row = first_least(bounds);
    let Some(limit) = limit_of(table[row], bounds[row]) else {
        return Ok(None);
    };
    if !search_turn(costs, rows, cols, round, table, row, limit, sums, ways) {
        return Ok(None);
    }
    let word = spell_ways(alloc, rows, cols, ways)?;
    Ok(Some(Choice {
        row,
        word,
        cost: bounds[row],
    }))
}

// Writes column 0 of a table: the sums of rates. What all rates sum up to.
fn begin_table(rates: &[i64], table: &mut [i64]) -> i64
    requires some { 0 < length rates.now }
    requires few { length rates.now ≤ MAX_COMPOSITE_VERTICES }
    requires rates { AreRates rates.now }
    requires room { length rates.now ≤ length table.old }
    ensures starts { AreStarts rates.now result table.new }
    ensures round_least { pos 0 ≤ℤ result }
    ensures round_most { result ≤ℤ value_limit }
{
    let (column, _) = table.split_at_mut(rates.len());
    first_column(rates, column)
}

// Whether no rate is so large that what sweeps count falls short of the costs.
fn are_low(rates: &[i64]) -> bool {
    rates.iter().all(|rate| *rate < MOST_RATE)
}

// Fills a table with a potential, from rates of the rows. What a turn of the rows adds to it; none where some column
// cannot be filled.
fn fill_table<S: StripColumns>(
    costs: &S,
    rows: usize,
    cols: usize,
    rates: &[i64],
    table: &mut [i64],
) -> Option<i64>
    requires rows { rows ≡ S.rows costs.now }
    requires cols { cols ≡ S.cols costs.now }
    requires some { 0 < rows }
    requires few { rows ≤ MAX_COMPOSITE_VERTICES }
    requires few_cols { cols ≤ MAX_COMPOSITE_VERTICES }
    requires count { length rates.now ≡ rows }
    requires rates { AreRates rates.now }
    requires down { (r : ℕ) → r + 1 < rows → at_row rates.now (r + 1) ≤ℤ pos (S.costs costs.now r 0 V) }
    requires round { (r : ℕ) → r + 1 ≡ rows → at_row rates.now 0 ≤ℤ pos (S.costs costs.now r 0 V) }
    requires room { (cols + 1) * rows ≤ length table.old }
    ensures potential { IfSome result (λ s. IsTable (S.costs costs.now) rows cols s table.new) }
    ensures table { IfSome result (λ s. AreColumnsInRange rows cols s table.new) }
{
    let round = begin_table(rates, table);
    if !sweep(costs, rows, cols, round, table) {
        return None;
    }
    Some(round)
}

// The chosen tiling by a potential alone; none where the first turn of the least bound that it gives costs more.
fn choose_ahead<S: StripColumns>(
    alloc: Global,
    costs: &S,
    rows: usize,
    cols: usize,
    round: i64,
    table: &[i64],
    bounds: &mut [i64],
    sums: &mut [i64],
    ways: &mut [bool],
) -> Result<Option<Choice>, NoMemory>
    requires rows { rows ≡ S.rows costs.now }
    requires cols { cols ≡ S.cols costs.now }
    requires strip { GoesRound (S.costs costs.now) rows cols }
    requires table { AreColumnsInRange rows cols round table.now }
    requires bounds { length bounds.old ≡ rows }
    requires ways { (cols + 1) * (rows + 1) ≤ length ways.old }
    requires sums { length sums.old ≡ rows + 1 }
    requires potential { IsTable (S.costs costs.now) rows cols round table.now }
    ensures chosen { IfOk result (λ o. IfSome o (λ t. IsChosen (S.costs costs.now) rows cols t.row t.word.items)) }
    ensures cost { IfOk result (λ o.
        IfSome o (λ t. pos (word_cost (S.costs costs.now) t.row 0 t.word.items) ≡ t.cost)) }
    ensures known { AreFitBounds (S.costs costs.now) rows cols bounds.new }
{
    rise_bounds(rows, cols, round, table, bounds);
    find_turn(alloc, costs, rows, cols, round, table, bounds, sums, ways)
}

// The chosen tiling by bounds that a search back from the ends of turns raises, over what a potential leaves of turns
// that cost at most `most`.
fn choose_under<S: StripColumns>(
    alloc: Global,
    costs: &S,
    rows: usize,
    cols: usize,
    round: i64,
    table: &[i64],
    row: usize,
    most: i64,
    slack: i64,
    bounds: &mut [i64],
    sums: &mut [i64],
    ways: &mut [bool],
) -> Result<Option<Choice>, NoMemory>
    requires rows { rows ≡ S.rows costs.now }
    requires cols { cols ≡ S.cols costs.now }
    requires strip { GoesRound (S.costs costs.now) rows cols }
    requires table { AreColumnsInRange rows cols round table.now }
    requires known { AreFitBounds (S.costs costs.now) rows cols bounds.old }
    requires bounds { length bounds.old ≡ rows }
    requires ways { (cols + 1) * (rows + 1) ≤ length ways.old }
    requires sums { length sums.old ≡ rows + 1 }
    requires potential { IsTable (S.costs costs.now) rows cols round table.now }
    requires row { row < rows }
    requires slack_least { pos 0 ≤ℤ slack }
    requires slack_most { slack ≤ℤ start_limit }
    ensures chosen { IfOk result (λ o. IfSome o (λ t. IsChosen (S.costs costs.now) rows cols t.row t.word.items)) }
    ensures cost { IfOk result (λ o.
        IfSome o (λ t. pos (word_cost (S.costs costs.now) t.row 0 t.word.items) ≡ t.cost)) }
    ensures ways { length ways.new ≡ length ways.old }
    ensures known { OnOk result (AreFitBounds (S.costs costs.now) rows cols bounds.new) }
{
    narrow_bounds(
        alloc, costs, rows, cols, round, table, row, most, slack, bounds,
    )?;
    find_turn(alloc, costs, rows, cols, round, table, bounds, sums, ways)
}

// How much more than the least bound the chosen tiling is first taken to cost; none where the bound is too large.
fn slack_of(least: i64) -> Option<i64>
    ensures small { IfSome result (λ s. (pos 0 ≤ℤ least) × (least ≤ℤ start_limit)) }
    ensures least { IfSome result (λ s. pos 0 ≤ℤ s) }
    ensures most { IfSome result (λ s. s ≤ℤ pos (2 ^ 57)) }
{
    if least < 0 || least > 1_152_921_504_606_846_976 {
        return None;
    }
    let share = least as u64 / 24 + 1;
    Some(share as i64)
}

// The same, first of turns that cost little more than the least bound, then of more.
fn choose_narrow<S: StripColumns>(
    alloc: Global,
    costs: &S,
    rows: usize,
    cols: usize,
    round: i64,
    table: &[i64],
    bounds: &mut [i64],
    sums: &mut [i64],
    ways: &mut [bool],
) -> Result<Option<Choice>, NoMemory>
    requires rows { rows ≡ S.rows costs.now }
    requires cols { cols ≡ S.cols costs.now }
    requires strip { GoesRound (S.costs costs.now) rows cols }
    requires table { AreColumnsInRange rows cols round table.now }
    requires known { AreFitBounds (S.costs costs.now) rows cols bounds.old }
    requires bounds { length bounds.old ≡ rows }
    requires ways { (cols + 1) * (rows + 1) ≤ length ways.old }
    requires sums { length sums.old ≡ rows + 1 }
    requires potential { IsTable (S.costs costs.now) rows cols round table.now }
    ensures chosen { IfOk result (λ o. IfSome o (λ t. IsChosen (S.costs costs.now) rows cols t.row t.word.items)) }
    ensures cost { IfOk result (λ o.
        IfSome o (λ t. pos (word_cost (S.costs costs.now) t.row 0 t.word.items) ≡ t.cost)) }
{
    let row = first_least(bounds);
    let least = bounds[row];
    let Some(slack) = slack_of(least) else {
        return Ok(None);
    };
    let most = least + slack;
    let found = choose_under(
        alloc, costs, rows, cols, round, table, row, most, slack, bounds, sums, ways,
    )?;
    let best = bounds[first_least(bounds)];
    if found.is_some() || best <= most {
        return Ok(found);
    }
    let wide = 6 * slack;
    choose_under(
        alloc,
        costs,
        rows,
        cols,
        round,
        table,
        row,
        least + wide,
        wide,
        bounds,
        sums,
        ways,
    )
}

/// The chosen tiling of a strip, by a sweep over it and searches back over what that leaves; none where these do not
/// give it.
pub fn choose_tiling<S: StripColumns>(
    alloc: Global,
    costs: &S,
    rows: usize,
    cols: usize,
    space: &mut SweepSpace,
) -> Result<Option<Choice>, NoMemory>
    requires rows { rows ≡ S.rows costs.now }
    requires cols { cols ≡ S.cols costs.now }
    requires some { 0 < rows }
    requires some_cols { 0 < cols }
    requires few { rows ≤ MAX_COMPOSITE_VERTICES }
    requires few_cols { cols ≤ MAX_COMPOSITE_VERTICES }
    requires periodic { IsRowPeriodic (S.costs costs.now) rows }
    requires periodic_cols { (i j : ℕ) (s : Step) → S.costs costs.now i (j + cols) s ≡ S.costs costs.now i j s }
    ensures chosen { IfOk result (λ o. IfSome o (λ t. IsChosen (S.costs costs.now) rows cols t.row t.word.items)) }
    ensures cost { IfOk result (λ o.
        IfSome o (λ t. pos (word_cost (S.costs costs.now) t.row 0 t.word.items) ≡ t.cost)) }
{
    let mut bounds = vec![in alloc; 0; rows]?;
    fill_rates(costs, cols, &mut bounds);
    if !are_low(&bounds) {
        return Ok(None);
    }
    fit_space(space, rows, cols)?;
    let mut sums = vec![in alloc; 0; rows + 1]?;
    let Some(round) = fill_table(costs, rows, cols, &bounds, &mut space.table) else {
        return Ok(None);
    };
    let found = choose_ahead(
        alloc,
        costs,
        rows,
        cols,
        round,
        &space.table,
        &mut bounds,
        &mut sums,
        &mut space.ways,
    )?;
    if found.is_some() {
        return Ok(found);
    }
    choose_narrow(
        alloc,
        costs,
        rows,
        cols,
        round,
        &space.table,
        &mut bounds,
        &mut sums,
        &mut space.ways,
    )
}
