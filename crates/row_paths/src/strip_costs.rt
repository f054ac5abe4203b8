//! The costs of all steps of a strip: computed once, or, where tables would be long, at each reading.
ghost use Rattle.std.specs.Prelude.{◌≡◌, ◌⊎◌, ℕ, ◌+◌, ◌*◌, ◌<◌, ◌≤◌, IsTrue, IsFalse, IfOk, OnOk, IfSome, IsSome, length, map, slice_index, take};
ghost use Rattle.strip_graph.specs.Strips.{IsStrip, arcs, rows, cols, step_cost_limit};
ghost use Rattle.plane_geom.specs.Rings.{IsRing};
ghost use Rattle.strip_graph.specs.Layouts.{IsByPlace};
ghost use Rattle.row_paths.specs.Counts.{cost_readings};
ghost use Rattle.row_paths.specs.StripCosts.{largest, AreFirstCosts};

use crate::amounts::{Amount, Cost, Fresh};
use fku_types::{NoMemory, Steps};
use std::alloc::Global;
use std::marker::Model;
use std::sync::ledger::Ledger;
use strip_graph::{Layout, RowSteps, Step};

/// The memory for the costs of a strip's steps, which each strip uses again.
#[derive(Drop)]
pub(crate) struct CostLists<C> {
    downs: Vec<C>,
    rights: Vec<C>,
}

// The most costs of lists that are kept although they were of no use: to make longer lists again takes little of the
// time that their pair takes. Of 128 bits no more are kept at all, since they take too much memory.
const KEPT: usize = 4_000_000;

impl<C> CostLists<C> {
    /// Lists without costs. Takes no memory.
    pub fn empty(alloc: Global) -> CostLists<C> {
        CostLists {
            downs: Vec::new(alloc),
            rights: Vec::new(alloc),
        }
    }
}

impl<C: Cost> CostLists<C> {
    /// Lets go of the memory if it is much, since the costs did not fit these numbers: larger numbers need memory too.
    pub fn let_go(&mut self, alloc: Global) {
        if self.downs.len() > KEPT {
            self.downs = Vec::new(alloc);
            self.rights = Vec::new(alloc);
        }
    }
}

/// A strip with the costs of all its steps, in tables if costs of this type are kept.
#[derive(Drop)]
pub(crate) struct StripCosts<'a, C: Cost> {
    layout: &'a Layout<'a>,
    // The cost of V from the columns 0 to n of the rows 0 to m - 1.
    downs: &'a [C],
    // The cost of H from the columns 0 to n - 1 of these rows. There is no such table if both steps to a place cost the
    // same.
    rights: Option<&'a [C]>,
}

impl<'a, C: Cost> Model for StripCosts<'a, C> {
    ghost use Rattle.strip_graph.specs.Strips.{Strip};

    ghost Value = { Strip };

    ghost view = { λ s. s.layout.now };

    ghost use Rattle.std.specs.Prelude.{map, option_map};
    ghost use Rattle.row_paths.specs.StripCosts.{AreKnown};

    ghost invariant = { λ s.
        AreKnown C.IS_COMPUTED C.MOST C.Sum.MOST s.layout.now (map C.value s.downs.now)
        (option_map (λ v. map C.value v.now) s.rights) };
}

/// The costs of the steps that leave the places of one row. A search reads a cost by `down` and `right` alone, which
/// count the reading.
#[derive(Drop)]
pub(crate) struct RowCosts<'a, C: Cost> {
    layout: &'a Layout<'a>,
    row: u32,
    // Parts of the tables, if costs are kept.
    downs: &'a [C],
    rights: &'a [C],
    // What costs are computed from, if they are not.
    from: Option<RowSteps<'a>>,
}

impl<'a, C: Cost> Model for RowCosts<'a, C> {
    ghost use Rattle.strip_graph.specs.Layouts.{StripRow};

    ghost Value = { StripRow };

    ghost view = { λ r. record { strip = r.layout.now; row = r.row } };

    ghost use Rattle.std.specs.Prelude.{map};
    ghost use Rattle.row_paths.specs.StripCosts.{AreKnownInRow};

    ghost invariant = { λ r.
        AreKnownInRow C.IS_COMPUTED C.MOST C.Sum.MOST (record { strip = r.layout.now; row = r.row }) r.from
        (map C.value r.downs.now) (map C.value r.rights.now) };
}

// The row of the first round whose steps cost the same as those of a row of the first two.
#[inline(always)]
fn in_first_round(row: u32, rows: u32) -> u32
    requires { row < 2 * rows }
    ensures within { result < rows }
    ensures same { (row ≡ result) ⊎ (row ≡ result + rows) }
{
    if row < rows { row } else { row - rows }
}

// The row before a row of the first round, counted round.
#[inline(always)]
fn row_before(row: u32, rows: u32) -> u32
    requires { row < rows }
    ensures within { result < rows }
    ensures next { (result + 1 ≡ row) ⊎ (result + 1 ≡ row + rows) }
{
    if row > 0 { row - 1 } else { rows - 1 }
}

impl<'a, C: Cost> StripCosts<'a, C> {
    /// How many points the lower ring has: m.
    pub fn rows(&self) -> u32
        ensures value { result ≡ rows self.now }
        ensures ring { IsRing self.now.low }
        ensures strip { IsStrip self.now }
    {
        self.layout.rows()
    }

    /// How many points the upper ring has: n.
    pub fn cols(&self) -> u32
        ensures value { result ≡ cols self.now }
        ensures ring { IsRing self.now.high }
    {
        self.layout.cols()
    }

    // The costs of a row from the tables.
    #[inline(always)]
    fn kept_row(&self, row: u32) -> RowCosts<'_, C>
        requires kept { IsFalse C.IS_COMPUTED }
        requires row { row < 2 * rows self.now }
        ensures strip { result.strip ≡ self.now }
        ensures row { result.row ≡ row }
    {
        let rows = self.layout.rows();
        let width = self.layout.cols() as usize;
        let size = width + 1;
        let turned = in_first_round(row, rows);
        let above = row_before(turned, rows);
        let at = turned as usize * size;
        let rights = match self.rights {
            Some(rights) => &rights[turned as usize * width..turned as usize * width + width],
            None => &self.downs[above as usize * size + 1..above as usize * size + size],
        };
        RowCosts {
            layout: self.layout,
            row,
            downs: &self.downs[at..at + size],
            rights,
            from: None,
        }
    }

    // The costs of a row, to be computed where they are read.
    #[inline(always)]
    fn computed_row(&self, row: u32) -> RowCosts<'_, C>
        requires computed { IsTrue C.IS_COMPUTED }
        requires row { row < 2 * rows self.now }
        ensures strip { result.strip ≡ self.now }
        ensures row { result.row ≡ row }
    {
        RowCosts {
            layout: self.layout,
            row,
            downs: &[],
            rights: &[],
            from: Some(self.layout.row(row)),
        }
    }

    /// The costs of a row, 0 to 2m - 1.
    #[inline(always)]
    pub fn row(&self, row: u32) -> RowCosts<'_, C>
        requires { row < 2 * rows self.now }
        ensures strip { result.strip ≡ self.now }
        ensures row { result.row ≡ row }
    {
        if C::IS_COMPUTED {
            self.computed_row(row)
        } else {
            self.kept_row(row)
        }
    }
}

impl<'a, C: Cost> RowCosts<'a, C> {
    ghost use Rattle.strip_graph.specs.declared.tilings.Step.TheVariants.{V, H};

    /// The row.
    pub fn row(&self) -> u32
        ensures { result ≡ self.now.row }
    {
        self.row
    }

    /// The cost of the step V from a column, 0 to n. Counts one step.
    #[inline(always)]
    pub fn down<L: Ledger>(&self, col: usize, steps: &mut Steps<L>) -> C
        requires { col ≤ cols self.now.strip }
        ensures value { C.value result ≡ arcs self.now.strip self.now.row col V }
        ensures small { C.value result ≤ largest C.Sum.MOST self.now.strip }
        ensures count { steps.new ≡ steps.old + 1 }
    {
        if C::IS_COMPUTED {
            let _cols = self.layout.cols();
            let from = self.from.as_ref().unwrap();
            C::of(from.v_cost(col as u32, steps))
        } else {
            read(self.downs, col, steps)
        }
    }

    /// The cost of the step H from a column, 0 to n - 1. Counts one step.
    #[inline(always)]
    pub fn right<L: Ledger>(&self, col: usize, steps: &mut Steps<L>) -> C
        requires { col < cols self.now.strip }
        ensures value { C.value result ≡ arcs self.now.strip self.now.row col H }
        ensures small { C.value result ≤ largest C.Sum.MOST self.now.strip }
        ensures count { steps.new ≡ steps.old + 1 }
    {
        if C::IS_COMPUTED {
            let _cols = self.layout.cols();
            let from = self.from.as_ref().unwrap();
            C::of(from.h_cost(col as u32, steps))
        } else {
            read(self.rights, col, steps)
        }
    }
}

// Reads the cost in a column of a row. Counts one step.
#[inline(always)]
fn read<C: Cost, L: Ledger>(costs: &[C], col: usize, steps: &mut Steps<L>) -> C
    requires { col < length costs.now }
    ensures value { C.value result ≡ slice_index (map C.value costs.now) col }
    ensures count { steps.new ≡ steps.old + 1 }
{
    steps.tick();
    costs[col]
}

// The cost of a step.
#[inline(always)]
fn step_cost<L: Ledger>(from: &RowSteps<'_>, step: Step, col: u32, steps: &mut Steps<L>) -> u128
    requires col { col ≤ cols from.now.strip }
    requires right { step ≡ Step.H → col < cols from.now.strip }
    ensures value { result ≡ arcs from.now.strip from.now.row col step }
    ensures range { result < step_cost_limit }
    ensures count { steps.new ≡ steps.old + 1 }
{
    match step {
        Step::V => from.v_cost(col, steps),
        Step::H => from.h_cost(col, steps),
    }
}

// Appends the costs of a step from the first columns of a row; returns `false` if a cost is above the limit.
#[inline(always)]
fn fill_row<C: Cost, L: Ledger>(
    from: &RowSteps<'_>,
    step: Step,
    size: u32,
    limit: u128,
    costs: &mut [C],
    steps: &mut Steps<L>,
) -> bool
    requires count { length costs.old ≡ size }
    requires size { size ≤ cols from.now.strip + 1 }
    requires right { step ≡ Step.H → size ≤ cols from.now.strip }
    requires limit { limit ≤ C.MOST }
    ensures count { length costs.new ≡ size }
    ensures are { IsTrue result
        → (c : ℕ) → c < size
        → slice_index (map C.value costs.new) c ≡ arcs from.now.strip from.now.row c step }
    ensures small { IsTrue result → (c : ℕ) → c < size → slice_index (map C.value costs.new) c ≤ limit }
    ensures all { step_cost_limit ≤ limit → IsTrue result }
    ensures steps { steps.new ≤ steps.old + size }
{
    for col in 0..size {
        let cost = step_cost(from, step, col, steps);
        if cost > limit {
            return false;
        }
        costs[col as usize] = C::of(cost);
    }
    true
}

// Overwrites a row of a table with the costs of a step from the row's first columns; returns `false` if a cost is above
// the limit. Inlined, so that each table has a loop of its own for its step.
#[inline(always)]
fn put_row<C: Cost, L: Ledger>(
    from: &RowSteps<'_>,
    step: Step,
    size: u32,
    limit: u128,
    costs: &mut [C],
    steps: &mut Steps<L>,
) -> bool
    requires size { size ≤ cols from.now.strip + 1 }
    requires right { step ≡ Step.H → size ≤ cols from.now.strip }
    requires limit { limit ≤ C.MOST }
    requires room { (from.now.row + 1) * size ≤ length costs.old }
    requires are { AreFirstCosts (limit) (λ r c. arcs from.now.strip r c step) size
        (map C.value (take (from.now.row * size) costs.old)) }
    ensures count { length costs.new ≡ length costs.old }
    ensures are { IsTrue result
        → AreFirstCosts (limit) (λ r c. arcs from.now.strip r c step) size
        (map C.value (take ((from.now.row + 1) * size) costs.new)) }
    ensures all { step_cost_limit ≤ limit → IsTrue result }
    ensures steps { steps.new ≤ steps.old + size }
{
    let begin = from.row() as usize * size as usize;
    let end = begin + size as usize;
    fill_row(from, step, size, limit, &mut costs[begin..end], steps)
}

// Gives a list this length. Old costs may remain in it.
fn fit<C: Cost>(costs: &mut Vec<C>, count: usize) -> Result<(), NoMemory>
    ensures { OnOk result (length costs.new.items ≡ count) }
{
    costs.reserve_exact(count.saturating_sub(costs.len()))?;
    costs.resize(count, C::of(0))?;
    Ok(())
}

// Writes the costs of a step from the first columns of all rows; returns `false` if a cost is above the limit.
#[inline(always)]
fn fill_rows<C: Cost, L: Ledger>(
    layout: &Layout<'_>,
    step: Step,
    size: u32,
    limit: u128,
    costs: &mut Vec<C>,
    steps: &mut Steps<L>,
) -> Result<bool, NoMemory>
    requires size { size ≤ cols layout.now + 1 }
    requires right { step ≡ Step.H → size ≤ cols layout.now }
    requires limit { limit ≤ C.MOST }
    ensures count { IfOk result (λ all. IsTrue all → length costs.new.items ≡ rows layout.now * size) }
    ensures are { IfOk result (λ all.
        IsTrue all
        → AreFirstCosts (limit) (λ r c. arcs layout.now r c step) size (map C.value costs.new.items)) }
    ensures all { step_cost_limit ≤ limit → IfOk result IsTrue }
    ensures steps { steps.new ≤ steps.old + rows layout.now * size }
{
    let rows = layout.rows();
    let _cols = layout.cols();
    fit(costs, rows as usize * size as usize)?;
    for row in 0..rows {
        let from = layout.row(row);
        if !put_row(&from, step, size, limit, costs, steps) {
            return Ok(false);
        }
    }
    Ok(true)
}

/// Whether a strip has so many costs that none of 128 bits are kept.
pub(crate) fn is_long(layout: &Layout<'_>) -> bool {
    2 * layout.rows() as usize * (layout.cols() as usize + 1) > KEPT
}

/// The costs of all steps of a strip, each to be computed where it is read.
pub(crate) fn computed_costs<'a>(layout: &'a Layout<'a>) -> StripCosts<'a, Fresh>
    ensures { result ≡ layout.now }
{
    let _rows = layout.rows();
    let _cols = layout.cols();
    StripCosts {
        layout,
        downs: &[],
        rights: None,
    }
}

/// The costs of all steps of a strip, unless one is too large for sums in these numbers. The old content of the lists
/// is lost. `by_place` says that both steps to a place cost the same.
pub(crate) fn cost_table<'a, C: Cost, L: Ledger>(
    layout: &'a Layout<'a>,
    by_place: bool,
    lists: &'a mut CostLists<C>,
    steps: &mut Steps<L>,
) -> Result<Option<StripCosts<'a, C>>, NoMemory>
    requires kept { IsFalse C.IS_COMPUTED }
    requires by_place { IsTrue by_place → IsByPlace layout.now }
    ensures costs { IfOk result (λ o. IfSome o (λ s. s ≡ layout.now)) }
    ensures some { step_cost_limit ≤ C.MOST → step_cost_limit ≤ largest C.Sum.MOST layout.now → IfOk result IsSome }
    ensures count { steps.new ≤ steps.old + cost_readings by_place (rows layout.now) (cols layout.now) }
{
    let width = layout.cols();
    let limit = C::MOST.min(C::Sum::MOST / u128::from(2 * layout.rows() + width));
    let CostLists { downs, rights } = lists;
    if !fill_rows::<C, L>(layout, Step::V, width + 1, limit, downs, steps)? {
        return Ok(None);
    }
    let rights = if by_place {
        None
    } else if fill_rows::<C, L>(layout, Step::H, width, limit, rights, steps)? {
        Some(rights.as_slice())
    } else {
        return Ok(None);
    };
    Ok(Some(StripCosts {
        layout,
        downs,
        rights,
    }))
}
