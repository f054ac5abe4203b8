//! What is counted for the steps to a column, by edges and coordinates.
ghost use Rattle.std.specs.Prelude.{◌≡◌, ℕ, ◌*◌, ◌<◌, ◌≤◌, ◌^◌, pos, neg_ℤ, ◌+ℤ◌, ◌≤ℤ◌, length};
ghost use Rattle.round_sweeps.specs.Columns.{cost_limit, start_limit, value_limit};
ghost use Rattle.round_sweeps.specs.Tiles.{FitsEnd, FitWeights, AreFitting};

use crate::columns::ColumnCosts;
use crate::tiles::{TileEnd, tile_area, tile_span};
use crate::weights::Weighing;

/// What is counted for the steps to the places of a column: the ends of the rows, and that of the column; the square of
/// how far the heights lie apart; the weights of the rule.
#[derive(Drop)]
pub(crate) struct TileColumn<'a, W: Weighing> {
    pub rows: &'a [TileEnd],
    pub here: TileEnd,
    pub rise: u64,
    pub weights: W,
    ghost rows_fit: { AreFitting rows.now },
    ghost here_fits: { FitsEnd here },
    ghost rises: { rise ≤ 4 * 10 ^ 12 },
    ghost weighted: { FitWeights (W.weights weights) },
}

// The less of two numbers, each with a cost.
#[inline(always)]
fn lesser_sum(above: i64, down: i64, before: i64, right: i64) -> i64
    requires above_least { neg_ℤ start_limit ≤ℤ above }
    requires above_most { above ≤ℤ (value_limit +ℤ cost_limit) }
    requires before_least { neg_ℤ start_limit ≤ℤ before }
    requires before_most { before ≤ℤ value_limit }
    requires down_least { pos 0 ≤ℤ down }
    requires down_most { down ≤ℤ cost_limit }
    requires right_least { pos 0 ≤ℤ right }
    requires right_most { right ≤ℤ cost_limit }
    ensures down { result ≤ℤ (above +ℤ down) }
    ensures right { result ≤ℤ (before +ℤ right) }
    ensures least { neg_ℤ start_limit ≤ℤ result }
    ensures most { result ≤ℤ (value_limit +ℤ cost_limit) }
{
    let by_v = above + down;
    let by_h = before + right;
    if by_v < by_h { by_v } else { by_h }
}

impl<'a, W: Weighing> TileColumn<'a, W> {
    ghost use Rattle.std.specs.Prelude.{◌≡◌, ◌≤◌, ◌<◌, ◌*◌, ◌^◌, pos, length};
    ghost use Rattle.round_sweeps.specs.Columns.{most_cost};
    ghost use Rattle.round_sweeps.specs.Tiles.{row_span, down_cost, right_cost};

    // The squared span of a row's place, if spans are counted.
    #[inline(always)]
    fn span(&self, row: usize) -> u64
        requires { row < length self.now.rows.now }
        ensures value { (W.weights self.now.weights).span * result
            ≡ (W.weights self.now.weights).span * row_span self.now.rows.now self.now.here self.now.rise row }
        ensures most { result ≤ 12 * 10 ^ 12 }
    {
        if self.weights.has_spans() {
            tile_span(&self.rows[row], &self.here, self.rise)
        } else {
            0
        }
    }

    // What V counts, by the squared span.
    #[inline(always)]
    fn down_at(&self, row: usize, span: u64) -> i64
        requires row { row < length self.now.rows.now }
        requires span { (W.weights self.now.weights).span * span
            ≡ (W.weights self.now.weights).span * row_span self.now.rows.now self.now.here self.now.rise row }
        requires span_most { span ≤ 12 * 10 ^ 12 }
        ensures value { result
            ≡ pos (down_cost self.now.rows.now self.now.here self.now.rise (W.weights self.now.weights) row) }
        ensures most { down_cost self.now.rows.now self.now.here self.now.rise (W.weights self.now.weights) row
            ≤ most_cost }
    {
        let area = tile_area(&self.rows[row].edge, &self.here);
        self.weights.cost(span, area)
    }

    // What H counts, by the squared span.
    #[inline(always)]
    fn right_at(&self, row: usize, span: u64) -> i64
        requires row { row < length self.now.rows.now }
        requires span { (W.weights self.now.weights).span * span
            ≡ (W.weights self.now.weights).span * row_span self.now.rows.now self.now.here self.now.rise row }
        requires span_most { span ≤ 12 * 10 ^ 12 }
        ensures value { result
            ≡ pos (right_cost self.now.rows.now self.now.here self.now.rise (W.weights self.now.weights) row) }
        ensures most { right_cost self.now.rows.now self.now.here self.now.rise (W.weights self.now.weights) row
            ≤ most_cost }
    {
        let area = tile_area(&self.here.edge, &self.rows[row]);
        self.weights.cost(span, area)
    }
}

impl<'a, W: Weighing> ColumnCosts for TileColumn<'a, W> {
    ghost use Rattle.std.specs.Prelude.{length, pos};
    ghost use Rattle.round_sweeps.specs.Tiles.{down_cost, right_cost};

    ghost rows = { λ s. length s.rows.now };

    ghost downs = { λ s r. pos (down_cost s.rows.now s.here s.rise (W.weights s.weights) r) };

    ghost rights = { λ s r. pos (right_cost s.rows.now s.here s.rise (W.weights s.weights) r) };

    #[inline(always)]
    fn down(&self, row: usize) -> i64 {
        let span = self.span(row);
        self.down_at(row, span)
    }

    #[inline(always)]
    fn right(&self, row: usize) -> i64 {
        let span = self.span(row);
        self.right_at(row, span)
    }

    #[inline(always)]
    fn lesser(&self, row: usize, above: i64, before: i64) -> i64 {
        let span = self.span(row);
        let down = self.down_at(row, span);
        let right = self.right_at(row, span);
        lesser_sum(above, down, before, right)
    }
}
