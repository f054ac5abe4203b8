//! Strips by edges and coordinates.
ghost use Rattle.std.specs.Prelude.{◌≡◌, ◌≤◌, ◌<◌, ◌%◌, length};
ghost use Rattle.round_sweeps.specs.Tiles.{AreFitting, AreTiles, FitsEnd, end_at};

use crate::sweeps::StripColumns;
use crate::tile_columns::TileColumn;
use crate::tiles::TileEnd;
use crate::weights::Weighing;

/// The ends of the rows and columns of a strip between rings that each lie at one height, the square of how far the
/// heights lie apart, and the weights of its rule.
#[derive(Drop)]
pub(crate) struct TileStrip<'a, W: Weighing> {
    pub lows: &'a [TileEnd],
    pub highs: &'a [TileEnd],
    pub rise: u64,
    pub weights: W,
    ghost tiles: { AreTiles lows.now highs.now rise (W.weights weights) },
}

// The end at an index of at most their number, counted round them.
#[inline(always)]
fn end_around(ends: &[TileEnd], index: usize) -> TileEnd
    requires some { 0 < length ends.now }
    requires index { index ≤ length ends.now }
    requires fit { AreFitting ends.now }
    ensures value { result ≡ end_at ends.now (index % length ends.now) }
    ensures fits { FitsEnd result }
{
    if index < ends.len() {
        ends[index]
    } else {
        ends[0]
    }
}

impl<'a, W: Weighing> StripColumns for TileStrip<'a, W> {
    type Column = TileColumn<'a, W>;

    ghost use Rattle.std.specs.Prelude.{length};
    ghost use Rattle.round_sweeps.specs.Tiles.{tile_arcs};

    ghost costs = { λ s. tile_arcs s.lows.now s.highs.now s.rise (W.weights s.weights) };

    ghost rows = { λ s. length s.lows.now };

    ghost cols = { λ s. length s.highs.now };

    #[inline(always)]
    fn column(&self, col: usize) -> TileColumn<'a, W> {
        TileColumn {
            rows: self.lows,
            here: end_around(self.highs, col),
            rise: self.rise,
            weights: self.weights,
        }
    }
}
