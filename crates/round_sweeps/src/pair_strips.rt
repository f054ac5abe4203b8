//! The strip of a pair by the coordinates of its rings.
ghost use Rattle.std.specs.Prelude.{◌≡◌};
ghost use Rattle.round_sweeps.specs.Planes.{AreSpans};

use crate::planes::SpanColumn;
use crate::strips::SpanStrip;
use crate::sweeps::StripColumns;
use strip_graph::Pair;

/// A pair whose steps cost squared spans and whose rings each lie at one height, with the coordinates of its rows and
/// columns.
#[derive(Drop)]
pub struct PairStrip<'a> {
    pair: &'a Pair,
    strip: SpanStrip<'a>,
    ghost spans: { AreSpans pair.now strip.xs.now strip.ys.now strip.us.now strip.vs.now strip.rise },
}

impl<'a> PairStrip<'a> {
    ghost use Rattle.round_sweeps.specs.Planes.{AreSpans};

    /// A pair with its coordinates.
    pub(crate) fn of(pair: &'a Pair, strip: SpanStrip<'a>) -> PairStrip<'a>
        requires { AreSpans pair.now strip.xs.now strip.ys.now strip.us.now strip.vs.now strip.rise }
        ensures pair { result.pair.now ≡ pair.now }
        ensures strip { result.strip ≡ strip.entry }
    {
        PairStrip { pair, strip }
    }
}

impl<'a> StripColumns for PairStrip<'a> {
    type Column = SpanColumn<'a>;

    ghost use Rattle.strip_graph.specs.Strips.{arcs, rows, cols};

    ghost costs = { λ s. arcs s.pair.now };

    ghost rows = { λ s. rows s.pair.now };

    ghost cols = { λ s. cols s.pair.now };

    #[inline(always)]
    fn column(&self, col: usize) -> SpanColumn<'a> {
        self.strip.column(col)
    }
}
