//! The potential of a strip, row by row.
ghost use Rattle.std.specs.Prelude.{◌≡◌, ◌+◌, ◌-◌, ◌*◌, ◌<◌, ◌≤◌, ◌^◌, All, IfOk, OnOk, [], length, unsigned_abs, pos, ◌+ℤ◌, slice_index_or};
ghost use Rattle.std.specs.Int.{int_min};
ghost use Rattle.strip_graph.specs.declared.tilings.Step.TheVariants.{V, H};
ghost use Rattle.strip_graph.specs.Strips.{arcs, rows, cols, step_cost_limit};
ghost use Rattle.strip_graph.specs.Certificates.{Certifies};
ghost use Rattle.row_paths.specs.Solutions.{AreOffsets, Solves};
ghost use Rattle.strip_potential.specs.Rows.{HasRow, HasRows};

use fku_types::limits::MAX_COMPOSITE_VERTICES;
use fku_types::{NoMemory, Steps};
use row_paths::{Solved, find_offsets};
use std::alloc::Global;
use std::marker::Brand;
use std::sync::ledger::{Blank, Ledger};
use strip_graph::{Pair, RoundRow};

// The value to which the step V leads from a value in a column.
#[inline(always)]
fn by_v(row: &RoundRow<'_>, col: usize, value: i128) -> i128
    requires col { col ≤ MAX_COMPOSITE_VERTICES }
    requires value { unsigned_abs value ≤ 6 * MAX_COMPOSITE_VERTICES * step_cost_limit }
    ensures { result ≡ value +ℤ pos (arcs row.now.strip row.now.row col V) }
{
    value + row.v_cost(col as u32) as i128
}

// The same for the step H.
#[inline(always)]
fn by_h(row: &RoundRow<'_>, col: usize, value: i128) -> i128
    requires col { col ≤ MAX_COMPOSITE_VERTICES }
    requires value { unsigned_abs value ≤ 6 * MAX_COMPOSITE_VERTICES * step_cost_limit }
    ensures { result ≡ value +ℤ pos (arcs row.now.strip row.now.row col H) }
{
    value + row.h_cost(col as u32) as i128
}

// The smaller of the values that the step V gives from the place above and the step H from the place to the left.
#[inline(always)]
fn next_value(
    above: &RoundRow<'_>,
    below: &RoundRow<'_>,
    col: usize,
    value: i128,
    left: i128,
) -> i128
    requires some { 0 < col }
    requires col { col ≤ MAX_COMPOSITE_VERTICES }
    requires value { unsigned_abs value ≤ 6 * MAX_COMPOSITE_VERTICES * step_cost_limit }
    requires left { unsigned_abs left ≤ 6 * MAX_COMPOSITE_VERTICES * step_cost_limit }
    ensures { result
        ≡ int_min (value +ℤ pos (arcs above.now.strip above.now.row col V))
        (left +ℤ pos (arcs below.now.strip below.now.row (col - 1) H)) }
{
    by_v(above, col, value).min(by_h(below, col - 1, left))
}

// Fills row 0, along which H alone leads on.
fn first_row(pair: &Pair, values: &mut [i128])
    requires { length values.old ≡ cols pair.now + 1 }
    ensures { HasRow pair.now 0 values.new }
{
    let _low = pair.low();
    let _high = pair.high();
    let here = pair.round_row(0);
    let mut value = 0;
    values[0] = value;
    for c in 1..values.len() {
        value = by_h(&here, c - 1, value);
        values[c] = value;
    }
}

// The value in column 0 of a row: the one that the step V gives from the row above, or the row's own offset if that is
// smaller.
fn first_of(row: u32, from_above: i128, offsets: &[i128]) -> i128
    ensures own { row < length offsets.now → result ≡ int_min from_above (slice_index_or offsets.now row (pos 0)) }
    ensures none { length offsets.now ≤ row → result ≡ from_above }
{
    match offsets.get(row as usize) {
        Some(offset) => from_above.min(*offset),
        None => from_above,
    }
}

// Goes on from the values of a row to those of the next one.
fn next_row(pair: &Pair, row: u32, offsets: &[i128], values: &mut [i128])
    requires row { row + 1 < 2 * rows pair.now }
    requires offsets { AreOffsets (arcs pair.now) (rows pair.now) (cols pair.now) (rows pair.now) offsets.now }
    requires values { HasRow pair.now row values.old }
    ensures { HasRow pair.now (row + 1) values.new }
{
    let _low = pair.low();
    let _high = pair.high();
    let above = pair.round_row(row);
    let below = pair.round_row(row + 1);
    let mut left = first_of(row + 1, by_v(&above, 0, values[0]), offsets);
    values[0] = left;
    for c in 1..values.len() {
        left = next_value(&above, &below, c, values[c], left);
        values[c] = left;
    }
}

// Fills the rows in turn; `values` has room for one of them.
fn sweep(
    pair: &Pair,
    offsets: &[i128],
    values: &mut [i128],
    pi: &mut Vec<i128>,
) -> Result<(), NoMemory>
    requires offsets { AreOffsets (arcs pair.now) (rows pair.now) (cols pair.now) (rows pair.now) offsets.now }
    requires values { length values.old ≡ cols pair.now + 1 }
    requires pi { pi.old.items ≡ [] }
    ensures { OnOk result (HasRows pair.now (2 * rows pair.now) pi.new.items) }
{
    let rows = pair.low().points.len() as u32;
    first_row(pair, values);
    pi.extend_from_slice(values)?;
    for row in 0..2 * rows - 1 {
        next_row(pair, row, offsets, values);
        pi.extend_from_slice(values)?;
    }
    Ok(())
}

// The offsets of a pair's rows, found with a counter of its own.
fn offsets_of<L: Ledger>(alloc: Global, pair: &Pair, blank: Blank) -> Result<Vec<i128>, NoMemory>
    requires name { blank.name ≡ L.name }
    requires parts { blank.parts ≡ L.parts }
    requires some { 0 < L.parts }
    ensures { IfOk result (λ x.
        AreOffsets (arcs pair.now) (rows pair.now) (cols pair.now) (rows pair.now) x.items) }
{
    let mut steps = Steps::<L>::begin(blank);
    find_offsets(alloc, pair, &mut steps)
}

/// The potential of a pair: for each of the rows 0 to 2m - 1, its values in the columns 0 to n, row after row. The
/// value at a place is the least, over the rows i below m from which the place can be reached, of the offset of row i
/// plus the least cost from column 0 of row i to the place. `solved` is what `solve` returns for the pair. Or
/// `NoMemory`.
#[tactic(auto, using(crate::proofs::RowLaws::rows_small))]
pub fn potential(alloc: Global, pair: &Pair, solved: &Solved) -> Result<Vec<i128>, NoMemory>
    requires { Solves pair.now solved.now }
    ensures values { IfOk result (λ pi. HasRows pair.now (2 * rows pair.now) pi.items) }
    ensures small { IfOk result (λ pi. All (λ v. unsigned_abs v < 10 ^ 35) pi.items) }

    // The certificate of the chosen tiling, its cost and these values is valid.
    ensures certifies { IfOk result (λ pi.
        Certifies (arcs pair.now) (rows pair.now) (cols pair.now) (rows pair.now) (cols pair.now) solved.now.cost
        solved.now.row solved.now.word pi.items) }
{
    let rows = pair.low().points.len();
    let width = pair.high().points.len() + 1;
    let offsets = offsets_of::<Brand>(alloc, pair, Blank::new(1))?;
    let mut pi = Vec::with_capacity(alloc, 2 * rows * width)?;
    let mut values = vec![in alloc; 0; width]?;
    sweep(pair, &offsets, &mut values, &mut pi)?;
    Ok(pi)
}
