//! The first least word of a turn, by a search back over what a potential leaves.
ghost use Rattle.std.specs.Prelude.{◌≡◌, ℕ, ◌+◌, ◌*◌, ◌<◌, ◌≤◌, ℤ, pos, neg_ℤ, ◌+ℤ◌, ◌≤ℤ◌, IfOk, IsTrue, length, drop, take};
ghost use Rattle.strip_graph.specs.Feasible.{IsRowPeriodic, lifted};
ghost use Rattle.round_sweeps.specs.Columns.{start_limit, value_limit, table_at};
ghost use Rattle.round_sweeps.specs.Tables.{IsSearchable};
ghost use Rattle.round_sweeps.specs.Searches.{way_of, way_at, numbers_from, downs_from, rights_from, AreSumsOf, IsWindow, IsBackColumn, IsSearchedTo, IsMet};
ghost use Rattle.round_sweeps.specs.Searched.{guarded, spell};

use crate::columns::ColumnCosts;
use crate::searches::{FreeColumn, GONE, Window, search_column};
use crate::sweeps::StripColumns;
use fku_types::NoMemory;
use fku_types::limits::MAX_COMPOSITE_VERTICES;
use std::alloc::Global;
use strip_graph::Step;

// Writes that only the end of a turn is left.
fn begin_search(rows: usize, sums: &mut [i64])
    requires { length sums.old ≡ rows + 1 }
    ensures sums { AreSumsOf rows sums.new }
    ensures window { IsWindow rows rows rows sums.new }
{
    for row in 0..rows {
        sums[row] = GONE;
    }
    sums[rows] = 0;
}

// Searches one column of a table back.
fn search_next<C: ColumnCosts, N: ColumnCosts>(
    here: &C,
    next: &N,
    rows: usize,
    round: i64,
    table: &[i64],
    col: usize,
    start: usize,
    limit: i64,
    window: Window,
    sums: &mut [i64],
    ways: &mut [bool],
) -> Window
    requires here_rows { C.rows here.now ≡ rows }
    requires next_rows { N.rows next.now ≡ rows }
    requires search { IsSearchable rows col round table.now start limit }
    requires ways { (col + 1) * (rows + 1) ≤ length ways.old }
    requires downs_least { (r : ℕ) → r < rows → pos 0 ≤ℤ C.downs here.now r }
    requires rights_least { (r : ℕ) → r < rows → pos 0 ≤ℤ N.rights next.now r }
    requires sums { AreSumsOf rows sums.old }
    requires window { IsWindow rows window.first window.last sums.old }
    ensures length { length ways.new ≡ length ways.old }
    ensures column { IsBackColumn rows limit (numbers_from rows round start (take rows (drop (col * rows) table.now)))
        (downs_from rows start (C.downs here.now)) (rights_from rows start (N.rights next.now)) sums.old sums.new
        (drop (col * (rows + 1)) ways.new) }
    ensures kept { (k : ℕ) → (col + 1) * (rows + 1) ≤ k → way_of ways.new k ≡ way_of ways.old k }
    ensures sums { AreSumsOf rows sums.new }
    ensures window { IsWindow rows result.first result.last sums.new }
{
    let known = &table[col * rows..col * rows + rows];
    let (_, rest) = ways.split_at_mut(col * (rows + 1));
    let (column, _) = rest.split_at_mut(rows + 1);
    search_column(
        here, next, known, round, start, limit, rows, window, sums, column,
    )
}

// Whether a place is left, by the number of the potential there and what it costs on.
fn is_left(number: i64, cost: i64, limit: i64) -> bool
    requires number_least { neg_ℤ start_limit ≤ℤ number }
    requires number_most { number ≤ℤ value_limit }
    requires limit_least { pos 0 ≤ℤ limit }
    requires limit_most { limit ≤ℤ value_limit }
    ensures { IsTrue result → (number +ℤ cost) ≤ℤ limit }
{
    cost <= limit - number
}

// Searches the columns before the last one back.
fn search_rest<S: StripColumns>(
    costs: &S,
    rows: usize,
    cols: usize,
    round: i64,
    table: &[i64],
    start: usize,
    limit: i64,
    window: Window,
    sums: &mut [i64],
    ways: &mut [bool],
)
    requires rows { rows ≡ S.rows costs.now }
    requires cols { cols ≡ S.cols costs.now }
    requires search { IsSearchable rows cols round table.now start limit }
    requires ways { (cols + 1) * (rows + 1) ≤ length ways.old }
    requires periodic { IsRowPeriodic (S.costs costs.now) rows }
    requires sums { AreSumsOf rows sums.old }
    requires window { IsWindow rows window.first window.last sums.old }
    requires searched { IsSearchedTo (S.costs costs.now) (lifted rows round (table_at rows table.now)) start rows cols
        limit cols sums.old ways.old }
    ensures searched { IsSearchedTo (S.costs costs.now) (lifted rows round (table_at rows table.now)) start rows cols
        limit 0 sums.new ways.new }
    ensures sums { AreSumsOf rows sums.new }
{
    let mut left = window;
    for col in (0..cols).rev() {
        let here = costs.column(col);
        let next = costs.column(col + 1);
        left = search_next(
            &here, &next, rows, round, table, col, start, limit, left, sums, ways,
        );
    }
}

/// Searches back from the end of a turn, over what a potential leaves under a limit: from row `start` and column 0 to
/// `rows` rows further and the last column. True: the start is met, and `ways` has the first least word of the turn.
pub fn search_turn<S: StripColumns>(
    costs: &S,
    rows: usize,
    cols: usize,
    round: i64,
    table: &[i64],
    start: usize,
    limit: i64,
    sums: &mut [i64],
    ways: &mut [bool],
) -> bool
    requires rows { rows ≡ S.rows costs.now }
    requires cols { cols ≡ S.cols costs.now }
    requires search { IsSearchable rows cols round table.now start limit }
    requires ways { (cols + 1) * (rows + 1) ≤ length ways.old }
    requires sums { length sums.old ≡ rows + 1 }
    requires periodic { IsRowPeriodic (S.costs costs.now) rows }
    ensures length { length ways.new ≡ length ways.old }
    ensures met { IsTrue result → IsMet (S.costs costs.now) rows cols round table.now start limit ways.new }
{
    begin_search(rows, sums);
    let last = costs.column(cols);
    let free = FreeColumn { rows };
    let end = Window {
        first: rows,
        last: rows,
    };
    let window = search_next(
        &last, &free, rows, round, table, cols, start, limit, end, sums, ways,
    );
    let end_cost = sums[rows];
    if end_cost > 0 {
        return false;
    }
    search_rest(
        costs, rows, cols, round, table, start, limit, window, sums, ways,
    );
    is_left(table[start], sums[0], limit)
}

// Whether the word of a search goes on by V from a place of a row, counted from the turn's start, and a column.
#[inline(always)]
fn goes_down(ways: &[bool], rows: usize, cols: usize, row: usize, col: usize) -> bool
    requires row { row ≤ rows }
    requires col { col ≤ cols }
    requires rows { rows ≤ MAX_COMPOSITE_VERTICES }
    requires cols { cols ≤ MAX_COMPOSITE_VERTICES }
    requires ways { (cols + 1) * (rows + 1) ≤ length ways.now }
    ensures { result ≡ guarded rows cols (way_at rows ways.now) row col }
{
    if row >= rows {
        return false;
    }
    if col >= cols {
        return true;
    }
    ways[col * (rows + 1) + row]
}

/// Spells the word that the ways of a search lead along, of a letter V for each row and a letter H for each column.
pub fn spell_ways(
    alloc: Global,
    rows: usize,
    cols: usize,
    ways: &[bool],
) -> Result<Vec<Step>, NoMemory>
    requires rows { rows ≤ MAX_COMPOSITE_VERTICES }
    requires cols { cols ≤ MAX_COMPOSITE_VERTICES }
    requires ways { (cols + 1) * (rows + 1) ≤ length ways.now }
    ensures { IfOk result (λ w. w.items ≡ spell (guarded rows cols (way_at rows ways.now)) (rows + cols) 0 0) }
{
    let mut word = Vec::with_capacity(alloc, rows + cols)?;
    let mut row = 0;
    let mut col = 0;
    for letter in 0..rows + cols {
        if goes_down(ways, rows, cols, row, col) {
            word.push(Step::V)?;
            row += 1;
        } else {
            word.push(Step::H)?;
            col += 1;
        }
    }
    Ok(word)
}
