//! What turns cost at least, by a search back from the ends of many turns, over what a potential leaves under a limit.
ghost use Rattle.std.specs.Prelude.{◌≡◌, ℕ, ◌+◌, ◌-◌, ◌*◌, ◌<◌, ◌≤◌, ◌^◌, ℤ, pos, neg_ℤ, ◌+ℤ◌, ◌-ℤ◌, ◌≤ℤ◌, unsigned_abs, IfSome, OnOk, length, take, drop};
ghost use Rattle.strip_graph.specs.Feasible.{lifted};
ghost use Rattle.round_sweeps.specs.Columns.{start_limit, value_limit, at_row, table_at, AreRowsBounded};
ghost use Rattle.round_sweeps.specs.Tables.{GoesRound, AreColumnsInRange, IsSearchable, IsTable, AreFitBounds};
ghost use Rattle.round_sweeps.specs.Searches.{gone, numbers_from, downs_from, rights_from, AreSumsOf, IsWindow, IsBackColumn};
ghost use Rattle.round_sweeps.specs.Bands.{IsBand};

use crate::columns::ColumnCosts;
use crate::searches::{FreeColumn, GONE, Window, number_at, ring_row, search_column};
use crate::sweeps::StripColumns;
use fku_types::NoMemory;
use fku_types::limits::MAX_COMPOSITE_VERTICES;
use std::alloc::Global;

// What the end of a turn lacks of `base`, where the turn's bound is at most `most`.
fn lack_of(number: i64, bound: i64, base: i64, most: i64) -> i64
    requires number_least { neg_ℤ start_limit ≤ℤ number }
    requires base_most { base ≤ℤ start_limit }
    ensures least { pos 0 ≤ℤ result }
    ensures most { result ≤ℤ gone }
{
    if bound <= most && number <= base {
        base - number
    } else {
        GONE
    }
}

// Writes the numbers of the ends of the turns of all rows, from row `start` on.
fn fill_ends(
    start: usize,
    round: i64,
    base: i64,
    most: i64,
    last: &[i64],
    bounds: &[i64],
    ends: &mut [i64],
)
    requires start { start < length last.now }
    requires few { length last.now ≤ MAX_COMPOSITE_VERTICES }
    requires bounds { length bounds.now ≡ length last.now }
    requires bounded { AreRowsBounded (length last.now) last.now }
    requires round_least { pos 0 ≤ℤ round }
    requires round_most { round ≤ℤ value_limit }
    requires base { base ≤ℤ start_limit }
    requires ends { AreSumsOf (2 * length last.now - 1) ends.old }
    ensures ends { AreSumsOf (2 * length last.now - 1) ends.new }
{
    let rows = last.len();
    for row in 0..rows {
        let number = number_at(last, start + row + rows, round);
        let bound = bounds[ring_row(rows, start + row)];
        ends[rows + row] = lack_of(number, bound, base, most);
    }
}

// Searches one column of a table back, in rows `start` to almost twice round further.
fn band_next<C: ColumnCosts, N: ColumnCosts>(
    here: &C,
    next: &N,
    rows: usize,
    round: i64,
    table: &[i64],
    col: usize,
    start: usize,
    limit: i64,
    window: Window,
    sums: &mut [i64],
    ways: &mut [bool],
) -> Window
    requires here_rows { C.rows here.now ≡ rows }
    requires next_rows { N.rows next.now ≡ rows }
    requires search { IsSearchable rows col round table.now start limit }
    requires ways { length ways.old ≡ 2 * rows }
    requires downs_least { (r : ℕ) → r < rows → pos 0 ≤ℤ C.downs here.now r }
    requires rights_least { (r : ℕ) → r < rows → pos 0 ≤ℤ N.rights next.now r }
    requires sums { AreSumsOf (2 * rows - 1) sums.old }
    requires window { IsWindow (2 * rows - 1) window.first window.last sums.old }
    ensures column { IsBackColumn (2 * rows - 1) limit
        (numbers_from rows round start (take rows (drop (col * rows) table.now)))
        (downs_from rows start (C.downs here.now)) (rights_from rows start (N.rights next.now)) sums.old sums.new
        ways.new }
    ensures sums { AreSumsOf (2 * rows - 1) sums.new }
    ensures window { IsWindow (2 * rows - 1) result.first result.last sums.new }
{
    let known = &table[col * rows..col * rows + rows];
    let height = 2 * rows - 1;
    search_column(
        here, next, known, round, start, limit, height, window, sums, ways,
    )
}

// Searches back from ends in all columns, in rows `start` to almost twice round further.
fn search_band<S: StripColumns>(
    costs: &S,
    rows: usize,
    cols: usize,
    round: i64,
    table: &[i64],
    start: usize,
    limit: i64,
    ends: &[i64],
    sums: &mut [i64],
    ways: &mut [bool],
)
    requires rows { rows ≡ S.rows costs.now }
    requires cols { cols ≡ S.cols costs.now }
    requires strip { GoesRound (S.costs costs.now) rows cols }
    requires search { IsSearchable rows cols round table.now start limit }
    requires potential { IsTable (S.costs costs.now) rows cols round table.now }
    requires ends { AreSumsOf (2 * rows - 1) ends.now }
    requires sums { length sums.old ≡ 2 * rows }
    requires ways { length ways.old ≡ 2 * rows }
    ensures band { IsBand (S.costs costs.now) (lifted rows round (table_at rows table.now)) start (2 * rows - 1) cols
        limit 0 (at_row ends.now) (at_row sums.new) }
    ensures sums { AreSumsOf (2 * rows - 1) sums.new }
{
    sums.copy_from_slice(ends);
    let last = costs.column(cols);
    let free = FreeColumn { rows };
    let whole = Window {
        first: 0,
        last: 2 * rows - 1,
    };
    let mut left = band_next(
        &last, &free, rows, round, table, cols, start, limit, whole, sums, ways,
    );
    for col in (0..cols).rev() {
        let here = costs.column(col);
        let next = costs.column(col + 1);
        left = band_next(
            &here, &next, rows, round, table, col, start, limit, left, sums, ways,
        );
    }
}

// The less of two numbers.
fn less_of(one: i64, other: i64) -> i64
    ensures one { result ≤ℤ one }
    ensures other { result ≤ℤ other }
    ensures least { (z : ℤ) → z ≤ℤ one → z ≤ℤ other → z ≤ℤ result }
{
    if one < other { one } else { other }
}

// The least that a limit does not leave past a number.
fn past_of(number: i64, limit: i64) -> i64
    requires number_least { neg_ℤ start_limit ≤ℤ number }
    requires number_most { number ≤ℤ (value_limit +ℤ (value_limit +ℤ value_limit)) }
    requires limit_least { pos 0 ≤ℤ limit }
    requires limit_most { limit ≤ℤ value_limit }
    ensures value { result ≡ (limit +ℤ pos 1) -ℤ number }
    ensures least { neg_ℤ (pos (2 ^ 63)) ≤ℤ result }
    ensures most { result ≤ℤ gone }
{
    limit + 1 - number
}

// What a turn costs at least, by the number of its start, the sum there and the number of its end.
fn bound_of(number: i64, limit: i64, end: i64, sum: i64) -> i64
    requires number_least { neg_ℤ start_limit ≤ℤ number }
    requires number_most { number ≤ℤ (value_limit +ℤ (value_limit +ℤ value_limit)) }
    requires limit_least { pos 0 ≤ℤ limit }
    requires limit_most { limit ≤ℤ value_limit }
    requires end_least { pos 0 ≤ℤ end }
    requires end_most { end ≤ℤ gone }
    requires sum_least { pos 0 ≤ℤ sum }
    requires sum_most { sum ≤ℤ gone }
    ensures bound { (cost : ℕ) → ((number +ℤ (pos cost +ℤ end)) ≤ℤ limit → sum ≤ℤ (pos cost +ℤ end))
        → result ≤ℤ pos cost }
    ensures least { pos 0 ≤ℤ result }
    ensures most { result ≤ℤ gone }
{
    let past = past_of(number, limit);
    let less = less_of(past, sum);
    if less < end { 0 } else { less - end }
}

// The more of two numbers.
fn more_of(one: i64, other: i64) -> i64
    requires one { unsigned_abs one < 2 ^ 63 }
    requires other { unsigned_abs other < 2 ^ 63 }
    ensures most { (z : ℤ) → one ≤ℤ z → other ≤ℤ z → result ≤ℤ z }
    ensures fits { unsigned_abs result < 2 ^ 63 }
{
    if one < other { other } else { one }
}

// Raises bounds of turns to what a search from their ends says.
fn raise_bounds<S: StripColumns>(
    costs: &S,
    rows: usize,
    cols: usize,
    round: i64,
    table: &[i64],
    start: usize,
    limit: i64,
    ends: &[i64],
    sums: &mut [i64],
    ways: &mut [bool],
    bounds: &mut [i64],
)
    requires rows { rows ≡ S.rows costs.now }
    requires cols { cols ≡ S.cols costs.now }
    requires strip { GoesRound (S.costs costs.now) rows cols }
    requires search { IsSearchable rows cols round table.now start limit }
    requires potential { IsTable (S.costs costs.now) rows cols round table.now }
    requires ends { AreSumsOf (2 * rows - 1) ends.now }
    requires sums { length sums.old ≡ 2 * rows }
    requires ways { length ways.old ≡ 2 * rows }
    requires known { AreFitBounds (S.costs costs.now) rows cols bounds.old }
    requires bounds { length bounds.old ≡ rows }
    ensures { AreFitBounds (S.costs costs.now) rows cols bounds.new }
{
    search_band(
        costs, rows, cols, round, table, start, limit, ends, sums, ways,
    );
    let first = &table[..rows];
    for row in 0..rows {
        let number = number_at(first, start + row, round);
        let bound = bound_of(number, limit, ends[rows + row], sums[row]);
        let at = ring_row(rows, start + row);
        bounds[at] = more_of(bounds[at], bound);
    }
}

// The number that the ends of turns lack, by the number of one of them; none where it is too large for a search.
fn base_of(number: i64, round: i64) -> Option<i64>
    requires number_least { neg_ℤ start_limit ≤ℤ number }
    requires number_most { number ≤ℤ (value_limit +ℤ (value_limit +ℤ value_limit)) }
    requires round_least { pos 0 ≤ℤ round }
    requires round_most { round ≤ℤ value_limit }
    ensures least { IfSome result (λ b. pos 0 ≤ℤ b) }
    ensures most { IfSome result (λ b. b ≤ℤ start_limit) }
{
    if number > 1_152_921_504_606_846_976 || round > 1_152_921_504_606_846_976 {
        return None;
    }
    let base = number + round;
    if base < 0 || base > 1_152_921_504_606_846_976 {
        return None;
    }
    Some(base)
}

/// Raises bounds of turns by a search back over what a potential leaves of turns that cost at most `most`; `row` is the
/// row of a turn that may cost least, and `slack` how much `most` is more than what the potential rises by in it.
pub(crate) fn narrow_bounds<S: StripColumns>(
    alloc: Global,
    costs: &S,
    rows: usize,
    cols: usize,
    round: i64,
    table: &[i64],
    row: usize,
    most: i64,
    slack: i64,
    bounds: &mut [i64],
) -> Result<(), NoMemory>
    requires rows { rows ≡ S.rows costs.now }
    requires cols { cols ≡ S.cols costs.now }
    requires strip { GoesRound (S.costs costs.now) rows cols }
    requires table { AreColumnsInRange rows cols round table.now }
    requires row { row < rows }
    requires potential { IsTable (S.costs costs.now) rows cols round table.now }
    requires slack_least { pos 0 ≤ℤ slack }
    requires slack_most { slack ≤ℤ start_limit }
    requires known { AreFitBounds (S.costs costs.now) rows cols bounds.old }
    requires bounds { length bounds.old ≡ rows }
    ensures { OnOk result (AreFitBounds (S.costs costs.now) rows cols bounds.new) }
{
    let start = ring_row(rows, row + rows - rows / 2);
    let last = &table[cols * rows..cols * rows + rows];
    let end = number_at(last, start + rows + rows / 2, round);
    let Some(base) = base_of(end, round) else {
        return Ok(());
    };
    let mut ends = vec![in alloc; GONE; 2 * rows]?;
    fill_ends(start, round, base, most, last, bounds, &mut ends);
    let mut sums = vec![in alloc; 0; 2 * rows]?;
    let mut ways = vec![in alloc; false; 2 * rows]?;
    let limit = base + slack;
    raise_bounds(
        costs, rows, cols, round, table, start, limit, &ends, &mut sums, &mut ways, bounds,
    );
    Ok(())
}
