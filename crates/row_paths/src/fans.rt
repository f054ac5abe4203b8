//! Least costs from one place of a region to the ends of its rows.
ghost use Rattle.std.specs.Prelude.{◌≡◌, ℕ, ◌+◌, ◌-◌, ◌*◌, ◌<◌, ◌≤◌, max, length, map};
ghost use Rattle.row_paths.specs.Counts.{area};
ghost use Rattle.row_paths.specs.InRegions.{first_in, last_in, HasRoom, ReachedTo, ReachedAfter, EndsOf};

use crate::amounts::{Amount, Cost};
use crate::regions::Region;
use crate::strip_costs::{RowCosts, StripCosts};
use fku_types::Steps;
use std::sync::ledger::Ledger;

// Goes on along a row from column `first` to column `last`, to which H alone leads.
#[inline(always)]
fn go_on<C: Cost, L: Ledger>(
    from: &RowCosts<'_, C>,
    region: &Region<'_>,
    left: usize,
    first: usize,
    last: usize,
    sums: &mut [C::Sum],
    steps: &mut Steps<L>,
)
    requires room { HasRoom from.now.strip region.now (length sums.old) }
    requires above { region.now.start ≤ from.now.row }
    requires row { from.now.row ≤ region.now.end }
    requires from { max (first_in region.now from.now.row) left ≤ first }
    requires last { last ≤ region.now.width }
    requires order { first ≤ last }
    requires shut { (k : ℕ) → from.now.row ≡ k + 1 → region.now.start < from.now.row → last_in region.now k ≤ first }
    requires reached { ReachedTo C.Sum.MOST from.now.strip region.now left from.now.row (map C.Sum.value sums.old)
        first }
    ensures reached { ReachedTo C.Sum.MOST from.now.strip region.now left from.now.row (map C.Sum.value sums.new) last }
    ensures count { steps.new ≤ steps.old + (last - first) }
{
    let mut sum = sums[first];
    for col in first..last {
        let right = from.right(col, steps);
        sum = right.plus(sum);
        sums[col + 1] = sum;
    }
}

// Enters a row from the row above, in its first column.
#[inline(always)]
fn enter<C: Cost, L: Ledger>(
    above: &RowCosts<'_, C>,
    region: &Region<'_>,
    left: usize,
    first: usize,
    sums: &mut [C::Sum],
    steps: &mut Steps<L>,
)
    requires room { HasRoom above.now.strip region.now (length sums.old) }
    requires above { region.now.start ≤ above.now.row }
    requires row { above.now.row < region.now.end }
    requires first { first ≡ max (first_in region.now (above.now.row + 1)) left }
    requires within { first ≤ last_in region.now above.now.row }
    requires reached { ReachedTo C.Sum.MOST above.now.strip region.now left above.now.row (map C.Sum.value sums.old)
        (last_in region.now above.now.row) }
    ensures reached { ReachedTo C.Sum.MOST above.now.strip region.now left (above.now.row + 1)
        (map C.Sum.value sums.new)
        first }
    ensures after { ReachedAfter C.Sum.MOST above.now.strip region.now left above.now.row (map C.Sum.value sums.new)
        first }
    ensures count { steps.new ≤ steps.old + 1 }
{
    let down = above.down(first, steps);
    let sum = down.plus(sums[first]);
    sums[first] = sum;
}

// Goes on along a row, up to the last column of the row above: both letters lead there.
#[inline(always)]
fn choose_on<C: Cost, L: Ledger>(
    above: &RowCosts<'_, C>,
    from: &RowCosts<'_, C>,
    region: &Region<'_>,
    left: usize,
    first: usize,
    last: usize,
    sums: &mut [C::Sum],
    steps: &mut Steps<L>,
)
    requires strip { from.now.strip ≡ above.now.strip }
    requires next { from.now.row ≡ above.now.row + 1 }
    requires room { HasRoom above.now.strip region.now (length sums.old) }
    requires above { region.now.start ≤ above.now.row }
    requires row { above.now.row < region.now.end }
    requires from { max (first_in region.now (above.now.row + 1)) left ≤ first }
    requires last { last ≡ last_in region.now above.now.row }
    requires order { first ≤ last }
    requires reached { ReachedTo C.Sum.MOST above.now.strip region.now left (above.now.row + 1)
        (map C.Sum.value sums.old)
        first }
    requires after { ReachedAfter C.Sum.MOST above.now.strip region.now left above.now.row (map C.Sum.value sums.old)
        first }
    ensures reached { ReachedTo C.Sum.MOST above.now.strip region.now left (above.now.row + 1)
        (map C.Sum.value sums.new) last }
    ensures count { steps.new ≤ steps.old + 2 * (last - first) }
{
    let mut sum = sums[first];
    for col in first..last {
        let down = above.down(col + 1, steps);
        let right = from.right(col, steps);
        let by_v = down.plus(sums[col + 1]);
        let by_h = right.plus(sum);
        sum = by_v.least(by_h);
        sums[col + 1] = sum;
    }
}

// Fills a row from the costs to the row above.
#[inline(always)]
fn next_row<C: Cost, L: Ledger>(
    above: &RowCosts<'_, C>,
    from: &RowCosts<'_, C>,
    region: &Region<'_>,
    left: u32,
    sums: &mut [C::Sum],
    steps: &mut Steps<L>,
)
    requires strip { from.now.strip ≡ above.now.strip }
    requires next { from.now.row ≡ above.now.row + 1 }
    requires room { HasRoom above.now.strip region.now (length sums.old) }
    requires above { region.now.start ≤ above.now.row }
    requires row { above.now.row < region.now.end }
    requires left { left ≤ last_in region.now above.now.row }
    requires reached { ReachedTo C.Sum.MOST above.now.strip region.now left above.now.row (map C.Sum.value sums.old)
        (last_in region.now above.now.row) }
    ensures reached { ReachedTo C.Sum.MOST above.now.strip region.now left (above.now.row + 1)
        (map C.Sum.value sums.new)
        (last_in region.now (above.now.row + 1)) }
    ensures count { steps.new
        ≤ steps.old
        + 2 * (last_in region.now (above.now.row + 1) + 1 - max (first_in region.now (above.now.row + 1)) left) }
{
    let row = above.row() as usize;
    let first = region.lo[row + 1].max(left) as usize;
    let middle = region.hi[row + 1] as usize;
    let last = region.hi[row + 2] as usize;
    let left = left as usize;
    enter(above, region, left, first, sums, steps);
    choose_on(above, from, region, left, first, middle, sums, steps);
    go_on(from, region, left, middle, last, sums, steps);
}

// Fills the first row, along which H alone leads.
#[inline(always)]
fn first_row<C: Cost, L: Ledger>(
    from: &RowCosts<'_, C>,
    region: &Region<'_>,
    left: u32,
    sums: &mut [C::Sum],
    steps: &mut Steps<L>,
)
    requires room { HasRoom from.now.strip region.now (length sums.old) }
    requires row { from.now.row ≡ region.now.start }
    requires from { first_in region.now region.now.start ≤ left }
    requires left { left ≤ last_in region.now region.now.start }
    ensures reached { ReachedTo C.Sum.MOST from.now.strip region.now left region.now.start (map C.Sum.value sums.new)
        (last_in region.now region.now.start) }
    ensures count { steps.new ≤ steps.old + (last_in region.now region.now.start - left) }
{
    let row = from.row() as usize;
    let last = region.hi[row + 1] as usize;
    let left = left as usize;
    sums[left] = C::Sum::none();
    go_on(from, region, left, left, last, sums, steps);
}

/// Writes the least costs from column `left` of a region's first row to the last column, for each row that reaches it.
pub(crate) fn fill_ends<C: Cost, L: Ledger>(
    strip: &StripCosts<'_, C>,
    region: &Region<'_>,
    left: u32,
    sums: &mut [C::Sum],
    ends: &mut [C::Sum],
    steps: &mut Steps<L>,
)
    requires room { HasRoom strip.now region.now (length sums.old) }
    requires ends { region.now.end < length ends.old }
    requires from { first_in region.now region.now.start ≤ left }
    requires left { left ≤ last_in region.now region.now.start }
    ensures ends { EndsOf strip.now region.now left (map C.Sum.value ends.new) }
    ensures count { steps.new
        ≤ steps.old
        + 2
        * area (λ x. max (first_in region.now x) left) (last_in region.now) region.now.start
        (region.now.end + 1 - region.now.start) }
{
    let width = region.width as usize;
    let from = strip.row(region.start);
    first_row(&from, region, left, sums, steps);
    ends[region.start as usize] = sums[width];
    for row in region.start..region.end {
        let above = strip.row(row);
        let from = strip.row(row + 1);
        next_row(&above, &from, region, left, sums, steps);
        ends[row as usize + 1] = sums[width];
    }
}
