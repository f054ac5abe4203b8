//! Where to divide the words between two: at the middle word, or, as long as the promised bound leaves readings for
//! guesses, where they probably change from one word to the other.
ghost use Rattle.std.specs.Prelude.{◌≡◌, ◌+◌, ◌-◌, ◌*◌, ◌/◌, ◌^◌, ◌<◌, ◌≤◌, ◌⊎◌, IfOk, length};
ghost use Rattle.strip_graph.specs.Strips.{rows, cols};
ghost use Rattle.row_paths.specs.Counts.{digits, readings};
ghost use Rattle.row_paths.specs.Tables.{IsTableOf};
ghost use Rattle.row_paths.specs.Turns.{area_between, IsGap, IsPart};

use crate::amounts::{Amount, Cost};
use crate::gaps::{Gap, fill_place};
use crate::strip_costs::StripCosts;
use crate::tables::Table;
use fku_types::{NoMemory, Steps};
use std::alloc::Global;
use std::sync::ledger::Ledger;

// How many places lie between the words.
fn places_between<C: Cost>(strip: &StripCosts<'_, C>, gap: &Gap<'_>) -> u64
    requires gap { IsGap strip.now gap.now }
    ensures places { result ≡ area_between (rows strip.now) gap.now.lo.now gap.now.hi.now gap.now.first gap.now.last }
    ensures few { result ≤ 2 ^ 45 }
{
    let rows = strip.rows();
    let _cols = strip.cols();
    let start = gap.first as usize / 2;
    let count = ((gap.last + 1) / 2 + rows + 1) as usize - start;
    let mut places = 0;
    for k in 0..count {
        let last = u64::from(gap.hi[start + k + 1]) + 1;
        places += last.saturating_sub(u64::from(gap.lo[start + k]));
    }
    places
}

// How many binary digits a number has.
fn digit_count(number: u32) -> u32
    ensures { result ≡ digits number }
{
    let mut rest = number;
    let mut count = 0;
    while rest > 0 {
        rest /= 2;
        count += 1;
    }
    count
}

/// How many readings are left over, since the words between take less than all places of the strip.
pub(crate) fn spare_readings<C: Cost>(strip: &StripCosts<'_, C>, gap: &Gap<'_>) -> u64
    requires gap { IsGap strip.now gap.now }
    requires first { gap.now.first ≡ 0 }
    requires last { gap.now.last + 2 ≡ 2 * rows strip.now }
    ensures { result
        + readings (gap.now.last - gap.now.first - 1)
        (area_between (rows strip.now) gap.now.lo.now gap.now.hi.now gap.now.first gap.now.last)
        (rows strip.now + cols strip.now + 2)
        ≤ readings (2 * rows strip.now - 3) (2 * rows strip.now * (cols strip.now + 1))
        (rows strip.now + cols strip.now + 2) }
{
    let rows = strip.rows();
    let whole = 2 * u64::from(rows) * (u64::from(strip.cols()) + 1);
    let unused = whole.saturating_sub(places_between(strip, gap));
    2 * u64::from(digit_count(2 * rows - 3)) * unused
}

// The costs of the words between, from the tables' numbers.
fn sums<C: Cost>(
    alloc: Global,
    strip: &StripCosts<'_, C>,
    gap: &Gap<'_>,
    table: &Table<C::Sum>,
) -> Result<Vec<u128>, NoMemory>
    requires gap { IsPart strip.now gap.now }
    requires table { IsTableOf strip.now table.now }
    ensures { IfOk result (λ v. length v.items ≡ gap.now.last - gap.now.first - 1) }
{
    let rows = strip.rows();
    let mut sums = Vec::with_capacity(alloc, (gap.last - gap.first) as usize)?;
    for turn in gap.first + 1..gap.last {
        let start = table.starts[turn as usize / 2];
        let end = table.ends[((turn + 1) / 2 + rows) as usize];
        sums.push(start.wide().saturating_add(end.wide()))?;
    }
    Ok(sums)
}

// The first word for which the second sum is smaller, or the last one.
fn first_less(gap: &Gap<'_>, by_first: &[u128], by_last: &[u128]) -> u32
    requires some { gap.now.first + 2 ≤ gap.now.last }
    requires by_first { length by_first.now ≡ gap.now.last - gap.now.first - 1 }
    requires by_last { length by_last.now ≡ gap.now.last - gap.now.first - 1 }
    ensures after { gap.now.first < result }
    ensures before { result < gap.now.last }
{
    for turn in gap.first + 1..gap.last - 1 {
        let k = (turn - gap.first - 1) as usize;
        if by_last[k] < by_first[k] {
            return turn;
        }
    }
    gap.last - 1
}

// How many words between a guess skips at either end. If there are more of them than rows, it looks at those in the
// middle: they share more of the two words, and words mostly change among them.
fn left_out(count: u32, rows: u32) -> u32
    requires rows { 3 ≤ rows }
    requires some { 2 ≤ count }
    ensures { 2 * result + 2 ≤ count }
{
    if count <= rows { 0 } else { count / 3 }
}

// The words between that a guess looks at.
fn looked_at<'a, C: Cost>(strip: &StripCosts<'_, C>, gap: &Gap<'a>) -> Gap<'a>
    requires some { gap.now.first + 2 ≤ gap.now.last }
    requires gap { IsGap strip.now gap.now }
    ensures part { IsPart strip.now result }
    ensures first { gap.now.first ≤ result.first }
    ensures some { result.first + 2 ≤ result.last }
    ensures last { result.last ≤ gap.now.last }
    ensures places { area_between (rows strip.now) result.lo.now result.hi.now result.first result.last
        ≤ area_between (rows strip.now) gap.now.lo.now gap.now.hi.now gap.now.first gap.now.last }
{
    let skipped = left_out(gap.last - gap.first, strip.rows());
    Gap {
        first: gap.first + skipped,
        hi: gap.hi,
        last: gap.last - skipped,
        lo: gap.lo,
        hint: 0,
    }
}

// A word between from which on words probably follow the last word and not the first. It compares the costs of words
// that pass a place of the one, where the last of them begins, or of the other, where the first of them ends.
fn guess<C: Cost, L: Ledger>(
    alloc: Global,
    strip: &StripCosts<'_, C>,
    gap: &Gap<'_>,
    table: &mut Table<C::Sum>,
    steps: &mut Steps<L>,
) -> Result<u32, NoMemory>
    requires table { IsTableOf strip.now table.old }
    requires some { gap.now.first + 2 ≤ gap.now.last }
    requires gap { IsGap strip.now gap.now }
    ensures table { IsTableOf strip.now table.new }
    ensures after { IfOk result (λ q. gap.now.first < q) }
    ensures before { IfOk result (λ q. q < gap.now.last) }
    ensures count { steps.new
        ≤ steps.old
        + 4
        * (area_between (rows strip.now) gap.now.lo.now gap.now.hi.now gap.now.first gap.now.last
        + (rows strip.now + cols strip.now + 2)) }
{
    let rows = strip.rows();
    let part = looked_at(strip, gap);
    let row = part.last / 2;
    fill_place(
        alloc,
        strip,
        &part,
        row,
        part.hi[row as usize],
        table,
        steps,
    )?;
    let by_first = sums(alloc, strip, &part, table)?;
    let row = (part.first + 1) / 2 + rows;
    fill_place(
        alloc,
        strip,
        &part,
        row,
        part.lo[row as usize + 1],
        table,
        steps,
    )?;
    let by_last = sums(alloc, strip, &part, table)?;
    Ok(first_less(&part, &by_first, &by_last))
}

/// Where to divide the words between, and the hint for those before.
#[derive(Drop)]
pub(crate) struct Division {
    pub middle: u32,
    pub hint: u32,
}

/// Divides the words between: in two halves; or, if that pays and enough readings are left, where they probably change
/// from one word to the other.
pub(crate) fn divide<C: Cost, L: Ledger>(
    alloc: Global,
    strip: &StripCosts<'_, C>,
    gap: &Gap<'_>,
    table: &mut Table<C::Sum>,
    spare: &mut u64,
    steps: &mut Steps<L>,
) -> Result<Division, NoMemory>
    requires table { IsTableOf strip.now table.old }
    requires some { gap.now.first + 2 ≤ gap.now.last }
    requires gap { IsGap strip.now gap.now }
    ensures table { IsTableOf strip.now table.new }
    ensures after { IfOk result (λ d. gap.now.first < d.middle) }
    ensures before { IfOk result (λ d. d.middle < gap.now.last) }
    ensures count { steps.new + spare.new ≤ steps.old + spare.old }
    ensures paid { IfOk result (λ d.
        (d.middle ≡ gap.now.first + (gap.now.last - gap.now.first) / 2)
        ⊎ (steps.new
        + spare.new
        + 2
        * (area_between (rows strip.now) gap.now.lo.now gap.now.hi.now gap.now.first gap.now.last
        + (rows strip.now + cols strip.now + 2))
        + 52 * (rows strip.now + cols strip.now + 2)
        ≤ steps.old + spare.old)) }
{
    let count = gap.last - gap.first;
    let halves = Division {
        middle: gap.first + count / 2,
        hint: 0,
    };
    let hinted = gap.first < gap.hint && gap.hint < gap.last;
    if !hinted && count < 8 {
        return Ok(halves);
    }
    let step = u64::from(strip.rows() + strip.cols() + 2);
    let searches = if hinted { 1 } else { 3 };
    let price = 2 * searches * (places_between(strip, gap) + step) + 52 * step;
    if *spare < price {
        return Ok(halves);
    }
    *spare -= price;
    if hinted {
        return Ok(Division {
            middle: gap.hint,
            hint: 0,
        });
    }
    let middle = guess(alloc, strip, gap, table, steps)?;
    Ok(Division {
        middle,
        hint: middle - 1,
    })
}
