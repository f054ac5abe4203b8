//! Least costs from the places of a region to its end, and the canonical word that follows from them.
ghost use Rattle.std.specs.Prelude.{◌≡◌, ◌⊎◌, IsTrue, IsFalse, IfOk, ℕ, ◌+◌, ◌-◌, ◌*◌, ◌<◌, ◌≤◌, length, map, slice_index};
ghost use Rattle.strip_graph.specs.Strips.{arcs, cols, rows};
ghost use Rattle.strip_graph.specs.Distances.{distance};
ghost use Rattle.row_paths.specs.Tables.{IsTableOf};
ghost use Rattle.row_paths.specs.Searches.{IsSameBut, LeadsDown, LeadsRight, HasEntries};
ghost use Rattle.row_paths.specs.InRegions.{first_in, last_in, places_in, HasRoom, CostsFrom, CostsBefore, StartsOf, WaysFrom, AllWays, WordsStayIn, IsFirstIn};

use crate::amounts::{Amount, Cost};
use crate::regions::Region;
use crate::strip_costs::{RowCosts, StripCosts};
use crate::tables::Table;
use fku_types::{NoMemory, Steps};
use std::alloc::Global;
use std::sync::ledger::Ledger;
use strip_graph::Step;

// Fills the columns from `last` - 1 down to `first`, from which H alone leads on.
#[inline(always)]
fn go_right<C: Cost, L: Ledger>(
    from: &RowCosts<'_, C>,
    region: &Region<'_>,
    first: usize,
    last: usize,
    sums: &mut [C::Sum],
    ways: &mut [bool],
    steps: &mut Steps<L>,
)
    requires room { HasRoom from.now.strip region.now (length sums.old) }
    requires ways { (region.now.end + 1) * (region.now.width + 1) ≤ length ways.old }
    requires row { from.now.row ≤ region.now.end }
    requires last { last ≤ last_in region.now from.now.row }
    requires shut { (c : ℕ) → c < last
        → (from.now.row ≡ region.now.end) ⊎ (c < first_in region.now (from.now.row + 1)) }
    requires right { CostsFrom C.Sum.MOST from.now.strip region.now from.now.row (map C.Sum.value sums.old) last }
    requires known { WaysFrom from.now.strip region.now from.now.row ways.old last }
    ensures costs { CostsFrom C.Sum.MOST from.now.strip region.now from.now.row (map C.Sum.value sums.new) first }
    ensures ways { WaysFrom from.now.strip region.now from.now.row ways.new first }
    ensures rest { IsSameBut region.now.width from.now.row ways.old ways.new }
    ensures count { steps.new ≤ steps.old + (last - first) }
{
    let at = from.row() as usize * (region.width as usize + 1);
    let mut cost = sums[last];
    for col in (first..last).rev() {
        let right = from.right(col, steps);
        cost = right.plus(cost);
        sums[col] = cost;
        ways[at + col] = false;
    }
}

// Fills the columns before the row's last one from which both letters lead on.
#[inline(always)]
fn choose<C: Cost, L: Ledger>(
    from: &RowCosts<'_, C>,
    region: &Region<'_>,
    sums: &mut [C::Sum],
    ways: &mut [bool],
    steps: &mut Steps<L>,
)
    requires room { HasRoom from.now.strip region.now (length sums.old) }
    requires ways { (region.now.end + 1) * (region.now.width + 1) ≤ length ways.old }
    requires row { from.now.row < region.now.end }
    requires below { CostsBefore C.Sum.MOST from.now.strip region.now (from.now.row + 1) (map C.Sum.value sums.old)
        (last_in region.now from.now.row) }
    requires right { CostsFrom C.Sum.MOST from.now.strip region.now from.now.row (map C.Sum.value sums.old)
        (last_in region.now from.now.row) }
    requires known { WaysFrom from.now.strip region.now from.now.row ways.old
        (last_in region.now from.now.row) }
    ensures costs { CostsFrom C.Sum.MOST from.now.strip region.now from.now.row (map C.Sum.value sums.new)
        (first_in region.now (from.now.row + 1)) }
    ensures ways { WaysFrom from.now.strip region.now from.now.row ways.new
        (first_in region.now (from.now.row + 1)) }
    ensures rest { IsSameBut region.now.width from.now.row ways.old ways.new }
    ensures count { steps.new
        ≤ steps.old + 2 * (last_in region.now from.now.row - first_in region.now (from.now.row + 1)) }
{
    let row = from.row() as usize;
    let at = row * (region.width as usize + 1);
    let first = region.lo[row + 1] as usize;
    let last = region.hi[row + 1] as usize;
    let mut cost = sums[last];
    for col in (first..last).rev() {
        let down = from.down(col, steps);
        let right = from.right(col, steps);
        let by_v = down.plus(sums[col]);
        let by_h = right.plus(cost);
        cost = by_v.least(by_h);
        sums[col] = cost;
        ways[at + col] = by_v.is_at_most(by_h);
    }
}

// Fills the last column of a row, from which V alone leads on.
#[inline(always)]
fn go_down<C: Cost, L: Ledger>(
    from: &RowCosts<'_, C>,
    region: &Region<'_>,
    sums: &mut [C::Sum],
    ways: &mut [bool],
    steps: &mut Steps<L>,
)
    requires room { HasRoom from.now.strip region.now (length sums.old) }
    requires ways { (region.now.end + 1) * (region.now.width + 1) ≤ length ways.old }
    requires row { from.now.row < region.now.end }
    requires below { CostsFrom C.Sum.MOST from.now.strip region.now (from.now.row + 1) (map C.Sum.value sums.old)
        (first_in region.now (from.now.row + 1)) }
    ensures below { CostsBefore C.Sum.MOST from.now.strip region.now (from.now.row + 1) (map C.Sum.value sums.new)
        (last_in region.now from.now.row) }
    ensures costs { CostsFrom C.Sum.MOST from.now.strip region.now from.now.row (map C.Sum.value sums.new)
        (last_in region.now from.now.row) }
    ensures ways { WaysFrom from.now.strip region.now from.now.row ways.new
        (last_in region.now from.now.row) }
    ensures rest { IsSameBut region.now.width from.now.row ways.old ways.new }
    ensures count { steps.new ≤ steps.old + 1 }
{
    let row = from.row() as usize;
    let at = row * (region.width as usize + 1);
    let last = region.hi[row + 1] as usize;
    let down = from.down(last, steps);
    let cost = down.plus(sums[last]);
    sums[last] = cost;
    ways[at + last] = true;
}

// Fills a row from the costs of the row below.
#[inline(always)]
fn fill_row<C: Cost, L: Ledger>(
    from: &RowCosts<'_, C>,
    region: &Region<'_>,
    sums: &mut [C::Sum],
    ways: &mut [bool],
    steps: &mut Steps<L>,
)
    requires room { HasRoom from.now.strip region.now (length sums.old) }
    requires ways { (region.now.end + 1) * (region.now.width + 1) ≤ length ways.old }
    requires row { from.now.row < region.now.end }
    requires below { CostsFrom C.Sum.MOST from.now.strip region.now (from.now.row + 1) (map C.Sum.value sums.old)
        (first_in region.now (from.now.row + 1)) }
    ensures costs { CostsFrom C.Sum.MOST from.now.strip region.now from.now.row (map C.Sum.value sums.new)
        (first_in region.now from.now.row) }
    ensures ways { WaysFrom from.now.strip region.now from.now.row ways.new
        (first_in region.now from.now.row) }
    ensures rest { IsSameBut region.now.width from.now.row ways.old ways.new }
    ensures count { steps.new
        ≤ steps.old + 2 * (last_in region.now from.now.row + 1 - first_in region.now from.now.row) }
{
    let row = from.row() as usize;
    go_down(from, region, sums, ways, steps);
    choose(from, region, sums, ways, steps);
    go_right(
        from,
        region,
        region.lo[row] as usize,
        region.lo[row + 1] as usize,
        sums,
        ways,
        steps,
    );
}

// Fills the last row, along which H alone leads on.
#[inline(always)]
fn fill_end<C: Cost, L: Ledger>(
    from: &RowCosts<'_, C>,
    region: &Region<'_>,
    sums: &mut [C::Sum],
    ways: &mut [bool],
    steps: &mut Steps<L>,
)
    requires room { HasRoom from.now.strip region.now (length sums.old) }
    requires ways { (region.now.end + 1) * (region.now.width + 1) ≤ length ways.old }
    requires row { from.now.row ≡ region.now.end }
    ensures costs { CostsFrom C.Sum.MOST from.now.strip region.now region.now.end (map C.Sum.value sums.new)
        (first_in region.now region.now.end) }
    ensures ways { WaysFrom from.now.strip region.now region.now.end ways.new
        (first_in region.now region.now.end) }
    ensures count { steps.new ≤ steps.old + (region.now.width - first_in region.now region.now.end) }
{
    let row = from.row() as usize;
    let at = row * (region.width as usize + 1);
    sums[region.width as usize] = C::Sum::none();
    ways[at + region.width as usize] = false;
    go_right(
        from,
        region,
        region.lo[row] as usize,
        region.width as usize,
        sums,
        ways,
        steps,
    );
}

// Fills the rows of a region, from the last one up. At the end it has the costs from column 0, and all ways.
fn fill<C: Cost, L: Ledger>(
    strip: &StripCosts<'_, C>,
    region: &Region<'_>,
    sums: &mut [C::Sum],
    ways: &mut [bool],
    starts: &mut [C::Sum],
    steps: &mut Steps<L>,
)
    requires room { HasRoom strip.now region.now (length sums.old) }
    requires ways { (region.now.end + 1) * (region.now.width + 1) ≤ length ways.old }
    requires starts { region.now.end < length starts.old }
    ensures ways { AllWays strip.now region.now ways.new }
    ensures starts { StartsOf strip.now region.now (map C.Sum.value starts.new) }
    ensures count { steps.new ≤ steps.old + 2 * places_in region.now }
{
    let from = strip.row(region.end);
    fill_end(&from, region, sums, ways, steps);
    starts[region.end as usize] = sums[0];
    for k in 0..region.end - region.start {
        let row = region.end - 1 - k;
        let from = strip.row(row);
        fill_row(&from, region, sums, ways, steps);
        starts[row as usize] = sums[0];
    }
}

/// Fills a table for a region: the least costs from column 0 to the region's end, for each row in which the region
/// begins there; and all ways.
pub(crate) fn fill_table<C: Cost, L: Ledger>(
    strip: &StripCosts<'_, C>,
    region: &Region<'_>,
    table: &mut Table<C::Sum>,
    steps: &mut Steps<L>,
)
    requires width { region.now.width ≤ cols strip.now }
    requires end { region.now.end < 2 * rows strip.now }
    requires table { IsTableOf strip.now table.old }
    ensures table { IsTableOf strip.now table.new }
    ensures ways { AllWays strip.now region.now table.new.ways.items }
    ensures starts { StartsOf strip.now region.now (map C.Sum.value table.new.starts.items) }
    ensures count { steps.new ≤ steps.old + 2 * places_in region.now }
{
    let Table {
        sums,
        ways,
        starts,
        ends: _,
    } = table;
    fill(strip, region, sums, ways, starts, steps);
}

// Whether the canonical word goes on from a place of the region by V rather than H.
fn goes_down<C: Cost>(
    strip: &StripCosts<'_, C>,
    region: &Region<'_>,
    row: u32,
    col: u32,
    ways: &[bool],
) -> bool
    requires width { region.now.width ≡ cols strip.now }
    requires ways { (region.now.end + 1) * (cols strip.now + 1) ≤ length ways.now }
    requires above { region.now.start ≤ row }
    requires row { row ≤ region.now.end }
    requires from { first_in region.now row ≤ col }
    requires to { col ≤ last_in region.now row }
    requires left { row + col < region.now.end + cols strip.now }
    requires known { AllWays strip.now region.now ways.now }
    ensures down { IsTrue result
        → LeadsDown (arcs strip.now) (first_in region.now) (last_in region.now) region.now.end (cols strip.now) row
        col }
    ensures right { IsFalse result
        → LeadsRight (arcs strip.now) (first_in region.now) (last_in region.now) region.now.end (cols strip.now) row
        col }
{
    ways[row as usize * (strip.cols() as usize + 1) + col as usize]
}

// Each row up to the first is entered in column 0; until a word is traced, each other row is entered in the last
// column.
fn begin_path(path: &mut [u32], start: u32, width: u32)
    ensures first { (x : ℕ) → x ≤ start → slice_index path.new x ≡ 0 }
    ensures rest { (x : ℕ) → start < x → x < length path.new → slice_index path.new x ≡ width }
{
    for x in 0..path.len() {
        path[x] = if x <= start as usize { 0 } else { width };
    }
}

// Writes the columns in which the canonical word of a region enters the rows, from the region's ways.
fn trace<C: Cost>(strip: &StripCosts<'_, C>, region: &Region<'_>, ways: &[bool], path: &mut [u32])
    requires width { region.now.width ≡ cols strip.now }
    requires ways { (region.now.end + 1) * (cols strip.now + 1) ≤ length ways.now }
    requires path { region.now.end + 1 < length path.old }
    requires known { AllWays strip.now region.now ways.now }
    requires within { WordsStayIn strip.now region.now }
    ensures { HasEntries (arcs strip.now) (cols strip.now) region.now.start region.now.end path.new }
{
    begin_path(path, region.start, region.width);
    let mut row = region.start;
    let mut col = 0;
    for letter in 0..region.end - region.start + region.width {
        if goes_down(strip, region, row, col, ways) {
            row += 1;
            path[row as usize] = col;
        } else {
            col += 1;
        }
    }
}

/// Finds the canonical word of a region, which stays in the region: writes the columns in which it enters the rows and
/// returns its cost.
pub(crate) fn find<C: Cost, L: Ledger>(
    strip: &StripCosts<'_, C>,
    region: &Region<'_>,
    table: &mut Table<C::Sum>,
    path: &mut [u32],
    steps: &mut Steps<L>,
) -> u128
    requires width { region.now.width ≡ cols strip.now }
    requires end { region.now.end < 2 * rows strip.now }
    requires table { IsTableOf strip.now table.old }
    requires path { region.now.end + 1 < length path.old }
    requires within { WordsStayIn strip.now region.now }
    ensures cost { result
        ≡ distance (arcs strip.now) region.now.start 0 (region.now.end - region.now.start) (cols strip.now) }
    ensures entries { HasEntries (arcs strip.now) (cols strip.now) region.now.start region.now.end path.new }
    ensures table { IsTableOf strip.now table.new }
    ensures count { steps.new ≤ steps.old + 2 * places_in region.now }
{
    fill_table(strip, region, table, steps);
    trace(strip, region, &table.ways, path);
    table.starts[region.start as usize].wide()
}

// Spells the canonical word of a region, from the region's ways.
fn spell<C: Cost>(
    alloc: Global,
    strip: &StripCosts<'_, C>,
    region: &Region<'_>,
    ways: &[bool],
) -> Result<Vec<Step>, NoMemory>
    requires width { region.now.width ≡ cols strip.now }
    requires ways { (region.now.end + 1) * (cols strip.now + 1) ≤ length ways.now }
    requires known { AllWays strip.now region.now ways.now }
    requires within { WordsStayIn strip.now region.now }
    ensures { IfOk result (λ w. IsFirstIn strip.now region.now w.items) }
{
    let count = region.end - region.start + region.width;
    let mut word = Vec::with_capacity(alloc, count as usize)?;
    let mut row = region.start;
    let mut col = 0;
    for letter in 0..count {
        if goes_down(strip, region, row, col, ways) {
            word.push(Step::V)?;
            row += 1;
        } else {
            word.push(Step::H)?;
            col += 1;
        }
    }
    Ok(word)
}

/// The canonical word of a region, which stays in the region.
pub(crate) fn find_word<C: Cost, L: Ledger>(
    alloc: Global,
    strip: &StripCosts<'_, C>,
    region: &Region<'_>,
    table: &mut Table<C::Sum>,
    steps: &mut Steps<L>,
) -> Result<Vec<Step>, NoMemory>
    requires width { region.now.width ≡ cols strip.now }
    requires end { region.now.end < 2 * rows strip.now }
    requires table { IsTableOf strip.now table.old }
    requires within { WordsStayIn strip.now region.now }
    ensures word { IfOk result (λ w. IsFirstIn strip.now region.now w.items) }
    ensures count { steps.new ≤ steps.old + 2 * places_in region.now }
{
    fill_table(strip, region, table, steps);
    spell(alloc, strip, region, &table.ways)
}
