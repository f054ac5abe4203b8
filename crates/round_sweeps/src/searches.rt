//! A search back from the end of a turn, column by column, over the places that a potential leaves.
ghost use Rattle.std.specs.Prelude.{◌≡◌, ◌⊎◌, ℕ, ◌+◌, ◌-◌, ◌*◌, ◌%◌, ◌<◌, ◌≤◌, ℤ, pos, neg_ℤ, ◌+ℤ◌, ◌≤ℤ◌, length};
ghost use Rattle.strip_graph.specs.Feasible.{lifted_row};
ghost use Rattle.round_sweeps.specs.Columns.{cost_limit, start_limit, value_limit, at_row, AreRowsBounded};
ghost use Rattle.round_sweeps.specs.Searches.{gone, numbers_from, downs_from, rights_from, AreSumsOf, IsWindow, IsSearchInRange, IsStepChosen, IsPlaceSearched, IsBackColumn};

use crate::columns::ColumnCosts;
use fku_types::limits::MAX_COMPOSITE_VERTICES;

// What stands at a place that is not left.
pub(crate) const GONE: i64 = 4_611_686_018_427_387_904;

// The rows of a column, from the start row of a turn on, that may be left: none outside `first` to `last`.
#[derive(Clone, Copy)]
pub(crate) struct Window {
    pub first: usize,
    pub last: usize,
}

/// A column to whose places H costs nothing, after the last one.
#[derive(Drop)]
pub(crate) struct FreeColumn {
    pub rows: usize,
}

impl ColumnCosts for FreeColumn {
    ghost use Rattle.std.specs.Prelude.{pos};

    ghost rows = { λ s. s.rows };

    ghost downs = { λ s r. pos 0 };

    ghost rights = { λ s r. pos 0 };

    fn down(&self, _row: usize) -> i64 {
        0
    }

    fn right(&self, _row: usize) -> i64 {
        0
    }

    fn lesser(&self, _row: usize, above: i64, before: i64) -> i64 {
        if above < before { above } else { before }
    }
}

// The row of the lower ring of a row less than three times round.
#[inline(always)]
pub(crate) fn ring_row(rows: usize, row: usize) -> usize
    requires some { 0 < rows }
    requires few { rows ≤ MAX_COMPOSITE_VERTICES }
    requires row { row < 3 * rows }
    ensures value { result ≡ row % rows }
    ensures range { result < rows }
{
    if row < rows {
        row
    } else if row < 2 * rows {
        row - rows
    } else {
        row - 2 * rows
    }
}

// The number of a potential in a row less than three times round.
#[inline(always)]
pub(crate) fn number_at(known: &[i64], row: usize, round: i64) -> i64
    requires some { 0 < length known.now }
    requires few { length known.now ≤ MAX_COMPOSITE_VERTICES }
    requires row { row < 3 * length known.now }
    requires bounded { AreRowsBounded (length known.now) known.now }
    requires round_least { pos 0 ≤ℤ round }
    requires round_most { round ≤ℤ value_limit }
    ensures value { result ≡ lifted_row (length known.now) round (at_row known.now) row }
    ensures least { neg_ℤ start_limit ≤ℤ result }
    ensures most { result ≤ℤ (value_limit +ℤ (value_limit +ℤ value_limit)) }
{
    let rows = known.len();
    if row < rows {
        known[row]
    } else if row < 2 * rows {
        known[row - rows] + round
    } else {
        known[row - 2 * rows] + round + round
    }
}

// The less of what both steps from a place cost on, V where it is no dearer, and whether that is V. Where the potential
// does not leave the place, `GONE`.
#[inline(always)]
fn choose(by_v: i64, by_h: i64, number: i64, limit: i64) -> (i64, bool)
    requires v_least { pos 0 ≤ℤ by_v }
    requires v_most { by_v ≤ℤ (gone +ℤ cost_limit) }
    requires h_least { pos 0 ≤ℤ by_h }
    requires h_most { by_h ≤ℤ (gone +ℤ cost_limit) }
    requires number_least { neg_ℤ start_limit ≤ℤ number }
    requires number_most { number ≤ℤ (value_limit +ℤ (value_limit +ℤ value_limit)) }
    requires limit_least { pos 0 ≤ℤ limit }
    requires limit_most { limit ≤ℤ value_limit }
    ensures step { IsStepChosen limit number by_v by_h result.0 result.1 }
    ensures least { pos 0 ≤ℤ result.0 }
    ensures most { result.0 ≤ℤ gone }
{
    let down = by_v <= by_h;
    let sum = if down { by_v } else { by_h };
    if sum <= limit - number {
        (sum, down)
    } else {
        (GONE, down)
    }
}

// What both steps from a row of a column cost on, and the way.
#[inline(always)]
fn search_place<C: ColumnCosts, N: ColumnCosts>(
    here: &C,
    next: &N,
    known: &[i64],
    round: i64,
    start: usize,
    limit: i64,
    height: usize,
    row: usize,
    below: i64,
    sum: i64,
) -> (i64, bool)
    requires here_rows { C.rows here.now ≡ length known.now }
    requires next_rows { N.rows next.now ≡ length known.now }
    requires range { IsSearchInRange start height round limit known.now }
    requires row { row ≤ height }
    requires below_least { pos 0 ≤ℤ below }
    requires below_most { below ≤ℤ gone }
    requires sum_least { pos 0 ≤ℤ sum }
    requires sum_most { sum ≤ℤ gone }
    ensures { IsPlaceSearched height row limit (numbers_from (length known.now) round start known.now row)
        (downs_from (length known.now) start (C.downs here.now) row +ℤ below)
        (rights_from (length known.now) start (N.rights next.now) row +ℤ sum) result.0 result.1 }
{
    let rows = known.len();
    let by_h = sum + next.right(ring_row(rows, start + row));
    let number = number_at(known, start + row, round);
    if row < height {
        let by_v = below + here.down(ring_row(rows, start + row + 1));
        choose(by_v, by_h, number, limit)
    } else {
        choose(GONE, by_h, number, limit)
    }
}

// A window with one row more before it, if that is left.
#[inline(always)]
fn widened(window: Window, rows: usize, row: usize, sum: i64) -> Window
    requires row { row ≤ rows }
    requires last { window.last ≤ rows }
    ensures last { result.last ≤ rows }
    ensures here { (row < result.first) ⊎ (result.last < row) → gone ≤ℤ sum }
    ensures after { (k : ℕ) → row < k → k ≤ rows → (k < result.first) ⊎ (result.last < k)
        → (k < window.first) ⊎ (window.last < k) }
{
    if sum >= GONE {
        return window;
    }
    if window.first > rows {
        Window {
            first: row,
            last: row,
        }
    } else {
        Window {
            first: row,
            last: window.last.max(row),
        }
    }
}

/// Searches one column back, from row `start` on `height` rows further: what stood in `sums` for the next column is
/// written over, and the ways are noted. The rows that are left.
pub(crate) fn search_column<C: ColumnCosts, N: ColumnCosts>(
    here: &C,
    next: &N,
    known: &[i64],
    round: i64,
    start: usize,
    limit: i64,
    height: usize,
    window: Window,
    sums: &mut [i64],
    ways: &mut [bool],
) -> Window
    requires here_rows { C.rows here.now ≡ length known.now }
    requires next_rows { N.rows next.now ≡ length known.now }
    requires range { IsSearchInRange start height round limit known.now }
    requires downs_least { (r : ℕ) → r < length known.now → pos 0 ≤ℤ C.downs here.now r }
    requires rights_least { (r : ℕ) → r < length known.now → pos 0 ≤ℤ N.rights next.now r }
    requires sums { AreSumsOf height sums.old }
    requires ways { length ways.old ≡ height + 1 }
    requires window { IsWindow height window.first window.last sums.old }
    ensures column { IsBackColumn height limit (numbers_from (length known.now) round start known.now)
        (downs_from (length known.now) start (C.downs here.now))
        (rights_from (length known.now) start (N.rights next.now)) sums.old sums.new ways.new }
    ensures sums { AreSumsOf height sums.new }
    ensures window { IsWindow height result.first result.last sums.new }
{
    let mut left = Window {
        first: height + 1,
        last: 0,
    };
    let mut below = GONE;
    for row in (0..window.last + 1).rev() {
        if row < window.first && below >= GONE {
            return left;
        }
        let (sum, down) = search_place(
            here, next, known, round, start, limit, height, row, below, sums[row],
        );
        sums[row] = sum;
        ways[row] = down;
        left = widened(left, height, row, sum);
        below = sum;
    }
    left
}
