ghost use Rattle.std.specs.Prelude.{◌≡◌, ◌+◌, ◌-◌, ◌*◌, ◌≤◌, ◌^◌, IfOk, ℤ, pos, ◌+ℤ◌, ◌-ℤ◌, unsigned_abs};
ghost use Rattle.strip_graph.specs.Strips.{arcs, rows, cols};
ghost use Rattle.row_paths.specs.Counts.{most_readings};
ghost use Rattle.row_paths.specs.Turns.{AreCosts};
ghost use Rattle.row_paths.specs.Solutions.{AreOffsets};

use crate::solving::solve_layout;
use crate::workspace::Workspace;
use fku_types::{NoMemory, Steps};
use std::alloc::Global;
use std::sync::ledger::Ledger;
use strip_graph::{Layout, Pair};

// The next offset, from the costs of the turns to the next row.
fn next_offset(offset: i128, to_next: u128, at_next: u128) -> i128
    requires offset { unsigned_abs offset ≤ 2 ^ 120 }
    requires to_next { to_next ≤ 2 ^ 120 }
    requires at_next { at_next ≤ 2 ^ 120 }
    ensures { result ≡ (offset +ℤ pos to_next) -ℤ pos at_next }
{
    offset + to_next as i128 - at_next as i128
}

// The offsets of all rows, from the costs of the turns.
fn row_offsets(alloc: Global, layout: &Layout<'_>, costs: &[u128]) -> Result<Vec<i128>, NoMemory>
    requires { AreCosts (arcs layout.now) (rows layout.now) (cols layout.now) (2 * rows layout.now - 1) costs.now }
    ensures { IfOk result (λ x.
        AreOffsets (arcs layout.now) (rows layout.now) (cols layout.now) (rows layout.now) x.items) }
{
    let _cols = layout.cols();
    let rows = layout.rows() as usize;
    let mut offsets = Vec::with_capacity(alloc, rows)?;
    let mut offset: i128 = 0;
    offsets.push(offset)?;
    for row in 0..rows - 1 {
        offset = next_offset(offset, costs[2 * row + 1], costs[2 * row + 2]);
        offsets.push(offset)?;
    }
    Ok(offsets)
}

/// The offsets of the rows of a pair, from the costs of all turns, as its potential needs them: row 0 has 0, and each
/// next row as much more as the turn from the row before to it costs more than the turn from it to itself. Or
/// `NoMemory`. The counter rises by at most the bound of `solve`.
pub fn find_offsets<L: Ledger>(
    alloc: Global,
    pair: &Pair,
    steps: &mut Steps<L>,
) -> Result<Vec<i128>, NoMemory>
    ensures offsets { IfOk result (λ x.
        AreOffsets (arcs pair.now) (rows pair.now) (cols pair.now) (rows pair.now) x.items) }
    ensures count { steps.new ≤ steps.old + most_readings (rows pair.now) (cols pair.now) }
{
    let layout = Layout::of(alloc, pair)?;
    let mut workspace = Workspace::new(alloc);
    let searched = solve_layout(alloc, &layout, layout.is_by_place(), &mut workspace, steps)?;
    row_offsets(alloc, &layout, &searched.costs)
}
