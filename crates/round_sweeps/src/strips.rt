//! The columns of strips.
ghost use Rattle.std.specs.Prelude.{◌≡◌, ◌<◌, ◌≤ℤ◌, pos, length};
ghost use Rattle.round_sweeps.specs.Planes.{AreCoordinates, rise_limit};

use crate::columns::ColumnCosts;
use crate::planes::SpanColumn;
use crate::sweeps::StripColumns;

/// A strip whose steps cost squared spans, where each ring lies at one height: the coordinates of the rows, those of
/// the columns from 0 to n, where column n is column 0 again, and the square of how far the heights lie apart.
#[derive(Drop)]
pub struct SpanStrip<'a> {
    pub xs: &'a [i64],
    pub ys: &'a [i64],
    pub us: &'a [i64],
    pub vs: &'a [i64],
    pub rise: i64,
    ghost rows_same: { length ys.now ≡ length xs.now },
    ghost cols_same: { length vs.now ≡ length us.now },
    ghost some: { 0 < length us.now },
    ghost xs_fit: { AreCoordinates xs.now },
    ghost ys_fit: { AreCoordinates ys.now },
    ghost us_fit: { AreCoordinates us.now },
    ghost vs_fit: { AreCoordinates vs.now },
    ghost rises: { pos 0 ≤ℤ rise },
    ghost low: { rise ≤ℤ rise_limit },
}

impl<'a> StripColumns for SpanStrip<'a> {
    type Column = SpanColumn<'a>;

    ghost use Rattle.std.specs.Prelude.{◌-◌, length};
    ghost use Rattle.round_sweeps.specs.Planes.{span_arcs};

    ghost costs = { λ s. span_arcs s.xs.now s.ys.now s.us.now s.vs.now s.rise };

    ghost rows = { λ s. length s.xs.now };

    ghost cols = { λ s. length s.us.now - 1 };

    #[inline(always)]
    fn column(&self, col: usize) -> SpanColumn<'a> {
        SpanColumn {
            xs: self.xs,
            ys: self.ys,
            x: self.us[col],
            y: self.vs[col],
            rise: self.rise,
        }
    }
}
