//! The words between two that share a place. Each of them passes that place, so two tables of costs, from the starts to
//! it and from it to the ends, give all their costs.
ghost use Rattle.std.specs.Prelude.{◌≡◌, ℕ, ◌+◌, ◌*◌, ◌<◌, ◌≤◌, min, IsTrue, IsFalse, IfOk, OnOk, IfSome, length, map, slice_index};
ghost use Rattle.strip_graph.specs.Strips.{arcs, rows, cols};
ghost use Rattle.row_paths.specs.Searches.{bound_at, last_at};
ghost use Rattle.row_paths.specs.Tables.{IsTableOf};
ghost use Rattle.row_paths.specs.Turns.{start_of, end_of, AreCosts, area_between, IsGap, IsPart};
ghost use Rattle.row_paths.specs.Fans.{IsShared, HasTurnCosts};

use crate::amounts::{Amount, Cost};
use crate::fans::fill_ends;
use crate::regions::Region;
use crate::searches::fill_table;
use crate::strip_costs::StripCosts;
use crate::tables::Table;
use fku_types::{NoMemory, Steps};
use std::alloc::Global;
use std::sync::ledger::Ledger;

/// Two words that are found already, with the columns in which they enter the rows. The words between them are still to
/// be found; if the hint is one of them, it is the first to look for.
#[derive(Drop)]
pub(crate) struct Gap<'a> {
    pub first: u32,
    pub hi: &'a [u32],
    pub last: u32,
    pub lo: &'a [u32],
    pub hint: u32,
}

// The first row in which the words share a place, if there is any.
fn shared_row<C: Cost>(strip: &StripCosts<'_, C>, gap: &Gap<'_>) -> Option<u32>
    requires gap { IsGap strip.now gap.now }
    ensures { IfSome result (λ x.
        IsShared (rows strip.now) gap.now.first gap.now.last gap.now.hi.now gap.now.lo.now x) }
{
    let rows = strip.rows();
    for row in gap.last / 2..(gap.first + 1) / 2 + rows + 1 {
        if gap.hi[row as usize] <= gap.lo[row as usize + 1] {
            return Some(row);
        }
    }
    None
}

// Bounds without the columns past one.
fn cut(alloc: Global, bounds: &[u32], col: u32) -> Result<Vec<u32>, NoMemory>
    ensures count { IfOk result (λ v. length v.items ≡ length bounds.now) }
    ensures are { IfOk result (λ v.
        (k : ℕ) → k < length bounds.now → slice_index v.items k ≡ min (slice_index bounds.now k) col) }
{
    let mut cut = Vec::with_capacity(alloc, bounds.len())?;
    for bound in bounds {
        cut.push((*bound).min(col))?;
    }
    Ok(cut)
}

/// Writes the costs between a place of the region between two words and the starts and ends of some words between. If
/// the two words share that place, these costs add up to those of the words between.
pub(crate) fn fill_place<C: Cost, L: Ledger>(
    alloc: Global,
    strip: &StripCosts<'_, C>,
    gap: &Gap<'_>,
    row: u32,
    col: u32,
    table: &mut Table<C::Sum>,
    steps: &mut Steps<L>,
) -> Result<(), NoMemory>
    requires table { IsTableOf strip.now table.old }
    requires gap { IsPart strip.now gap.now }
    requires above { start_of gap.now.last ≤ row }
    requires below { row ≤ end_of (rows strip.now) gap.now.first }
    requires left { bound_at gap.now.lo.now row ≤ col }
    requires right { col ≤ last_at gap.now.hi.now row }
    ensures table { IsTableOf strip.now table.new }
    ensures costs { OnOk result
        (IsGap strip.now gap.now
        → IsShared (rows strip.now) gap.now.first gap.now.last gap.now.hi.now gap.now.lo.now row
        → col ≡ bound_at gap.now.hi.now row
        → HasTurnCosts (arcs strip.now) (rows strip.now) (cols strip.now) gap.now.first gap.now.last
        (map C.Sum.value table.new.starts.items) (map C.Sum.value table.new.ends.items)) }
    ensures count { steps.new
        ≤ steps.old
        + 2
        * (area_between (rows strip.now) gap.now.lo.now gap.now.hi.now gap.now.first gap.now.last
        + (rows strip.now + cols strip.now + 2)) }
{
    let rows = strip.rows();
    let width = strip.cols();
    let lo = cut(alloc, gap.lo, col)?;
    let hi = cut(alloc, gap.hi, col)?;
    let before = Region {
        lo: &lo,
        hi: &hi,
        width: col,
        start: gap.first / 2,
        end: row,
    };
    fill_table(strip, &before, table, steps);
    let after = Region {
        lo: gap.lo,
        hi: gap.hi,
        width,
        start: row,
        end: (gap.last + 1) / 2 + rows,
    };
    let Table { sums, ends, .. } = table;
    fill_ends(strip, &after, col, sums, ends, steps);
    Ok(())
}

// Appends the costs of the words between, from two tables.
fn push_turns<C: Cost>(
    strip: &StripCosts<'_, C>,
    gap: &Gap<'_>,
    starts: &[C::Sum],
    ends: &[C::Sum],
    costs: &mut Vec<u128>,
) -> Result<(), NoMemory>
    requires gap { IsGap strip.now gap.now }
    requires starts { 2 * rows strip.now ≤ length starts.now }
    requires ends { 2 * rows strip.now ≤ length ends.now }
    requires costs { AreCosts (arcs strip.now) (rows strip.now) (cols strip.now) (gap.now.first + 1) costs.old.items }
    requires turns { HasTurnCosts (arcs strip.now) (rows strip.now) (cols strip.now) gap.now.first gap.now.last
        (map C.Sum.value starts.now) (map C.Sum.value ends.now) }
    ensures { OnOk result (AreCosts (arcs strip.now) (rows strip.now) (cols strip.now) gap.now.last costs.new.items) }
{
    let rows = strip.rows();
    let _cols = strip.cols();
    for turn in gap.first + 1..gap.last {
        let start = starts[turn as usize / 2];
        let end = ends[((turn + 1) / 2 + rows) as usize];
        costs.push(start.wide() + end.wide())?;
    }
    Ok(())
}

/// Appends the costs of the words between two that share a place; returns `false` and does nothing if they share none.
pub(crate) fn fan<C: Cost, L: Ledger>(
    alloc: Global,
    strip: &StripCosts<'_, C>,
    gap: &Gap<'_>,
    costs: &mut Vec<u128>,
    table: &mut Table<C::Sum>,
    steps: &mut Steps<L>,
) -> Result<bool, NoMemory>
    requires table { IsTableOf strip.now table.old }
    requires gap { IsGap strip.now gap.now }
    requires costs { AreCosts (arcs strip.now) (rows strip.now) (cols strip.now) (gap.now.first + 1) costs.old.items }
    ensures table { IsTableOf strip.now table.new }
    ensures done { IfOk result (λ done.
        IsTrue done → AreCosts (arcs strip.now) (rows strip.now) (cols strip.now) gap.now.last costs.new.items) }
    ensures left { IfOk result (λ done.
        IsFalse done
        → AreCosts (arcs strip.now) (rows strip.now) (cols strip.now) (gap.now.first + 1) costs.new.items) }
    ensures count { steps.new
        ≤ steps.old
        + 2
        * (area_between (rows strip.now) gap.now.lo.now gap.now.hi.now gap.now.first gap.now.last
        + (rows strip.now + cols strip.now + 2)) }
    ensures none { IfOk result (λ done. IsFalse done → steps.new ≡ steps.old) }
{
    match shared_row(strip, gap) {
        Some(row) => {
            let col = gap.hi[row as usize];
            fill_place(alloc, strip, gap, row, col, table, steps)?;
            push_turns(strip, gap, &table.starts, &table.ends, costs)?;
            Ok(true)
        }
        None => Ok(false),
    }
}
