//! Rates of rows: about what V costs at least into each row, and no more than what it costs in column 0.
ghost use Rattle.std.specs.Prelude.{◌≡◌, ℕ, ◌+◌, ◌<◌, ◌≤◌, pos, ◌≤ℤ◌, length};
ghost use Rattle.strip_graph.specs.declared.tilings.Step.TheVariants.{V};
ghost use Rattle.round_sweeps.specs.Columns.{at_row};
ghost use Rattle.round_sweeps.specs.Starts.{AreRates};

use crate::columns::ColumnCosts;
use crate::sweeps::StripColumns;
use fku_types::limits::MAX_COMPOSITE_VERTICES;

// One of so many columns is looked at, and more where there are few columns.
const STRIDE: usize = 8;

const SHORT_STRIDE: usize = 4;

const FEW_COLUMNS: usize = 24;

// Whether a column is looked at.
fn is_looked_at(col: usize, cols: usize) -> bool {
    if cols < FEW_COLUMNS {
        col % SHORT_STRIDE == 0
    } else {
        col % STRIDE == 0
    }
}

// The costs of V in one column.
fn first_rates<C: ColumnCosts>(column: &C, rates: &mut [i64])
    requires rows { length rates.old ≡ C.rows column.now }
    ensures rates { AreRates rates.new }
    ensures are { (r : ℕ) → r < length rates.old → at_row rates.new r ≡ C.downs column.now r }
{
    for row in 0..rates.len() {
        rates[row] = column.down(row);
    }
}

// Lowers rates to the costs of V in one column.
fn lower_rates<C: ColumnCosts>(column: &C, rates: &mut [i64])
    requires rows { length rates.old ≡ C.rows column.now }
    requires rates { AreRates rates.old }
    ensures rates { AreRates rates.new }
    ensures lower { (r : ℕ) → r < length rates.old → at_row rates.new r ≤ℤ at_row rates.old r }
{
    for row in 0..rates.len() {
        let cost = column.down(row);
        if cost < rates[row] {
            rates[row] = cost;
        }
    }
}

// Lowers rates to the costs of V in a column, if that is looked at.
fn lower_at<S: StripColumns>(costs: &S, cols: usize, col: usize, rates: &mut [i64])
    requires rows { length rates.old ≡ S.rows costs.now }
    requires cols { cols ≡ S.cols costs.now }
    requires col { col ≤ cols }
    requires rates { AreRates rates.old }
    ensures rates { AreRates rates.new }
    ensures lower { (r : ℕ) → r < length rates.old → at_row rates.new r ≤ℤ at_row rates.old r }
{
    if is_looked_at(col, cols) {
        let column = costs.column(col);
        lower_rates(&column, rates);
    }
}

// Lowers rates to the costs of V in some columns.
fn lower_all<S: StripColumns>(costs: &S, cols: usize, rates: &mut [i64])
    requires rows { length rates.old ≡ S.rows costs.now }
    requires cols { cols ≡ S.cols costs.now }
    requires few { cols ≤ MAX_COMPOSITE_VERTICES }
    requires rates { AreRates rates.old }
    ensures rates { AreRates rates.new }
    ensures lower { (r : ℕ) → r < length rates.old → at_row rates.new r ≤ℤ at_row rates.old r }
{
    for col in 1..cols + 1 {
        lower_at(costs, cols, col, rates);
    }
}

/// Writes the rates of all rows: the least of what V costs in column 0 and in some columns after it.
pub fn fill_rates<S: StripColumns>(costs: &S, cols: usize, rates: &mut [i64])
    requires rows { length rates.old ≡ S.rows costs.now }
    requires cols { cols ≡ S.cols costs.now }
    requires few { cols ≤ MAX_COMPOSITE_VERTICES }
    ensures rates { AreRates rates.new }
    ensures down { (r : ℕ) → r + 1 < length rates.old → at_row rates.new (r + 1) ≤ℤ pos (S.costs costs.now r 0 V) }
    ensures round { (r : ℕ) → r + 1 ≡ length rates.old → at_row rates.new 0 ≤ℤ pos (S.costs costs.now r 0 V) }
{
    let column = costs.column(0);
    first_rates(&column, rates);
    lower_all(costs, cols, rates);
}
