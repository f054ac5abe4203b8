//! The chosen tiling of a pair under squared spans.
ghost use Rattle.std.specs.Prelude.{◌≡◌, ◌+◌, ◌<◌, ◌-ℤ◌, ◌≤ℤ◌, IfOk, IfSome, IsTrue, pos, length};
ghost use Rattle.plane_geom.specs.Rings.{IsRing, around};
ghost use Rattle.fku_types.specs.declared.rules.CostRule.TheVariants.{Span};
ghost use Rattle.fku_types.specs.Points.{square};
ghost use Rattle.strip_graph.specs.Edges.{IsLevel};
ghost use Rattle.strip_graph.specs.Strips.{arcs, rows, cols};
ghost use Rattle.strip_graph.specs.Words.{word_cost};
ghost use Rattle.strip_graph.specs.Tilings.{IsChosen};
ghost use Rattle.round_sweeps.specs.Levels.{AreLevelRings};
ghost use Rattle.round_sweeps.specs.Planes.{rise_limit};

use crate::choosing::{Choice, choose_tiling};
use crate::lines::{Line, is_level, line_of, point_at};
use crate::pair_strips::PairStrip;
use crate::spaces::SweepSpace;
use crate::strips::SpanStrip;
use fku_types::{CostRule, NoMemory, Point};
use plane_geom::gap_square;
use std::alloc::Global;
use strip_graph::Pair;

// Whether the steps of a pair cost squared spans and both its rings are level.
fn is_plain(pair: &Pair) -> bool
    ensures rule { IsTrue result → pair.now.cost ≡ Span }
    ensures low { IsTrue result → IsLevel pair.now.low }
    ensures high { IsTrue result → IsLevel pair.now.high }
{
    match pair.cost() {
        CostRule::Span => is_level(&pair.low().points) && is_level(&pair.high().points),
        _ => false,
    }
}

/// The square of how far the heights of two rings' first points lie apart.
pub(crate) fn rise_of(low: &[Point], high: &[Point]) -> i64
    requires low { IsRing low.now }
    requires high { IsRing high.now }
    ensures value { result ≡ pos (square ((around low.now 0).z -ℤ (around high.now 0).z)) }
    ensures most { result ≤ℤ rise_limit }
{
    let below = point_at(low, 0);
    let above = point_at(high, 0);
    gap_square(below.z, above.z) as i64
}

// The strip of some coordinates.
fn strip_of<'a>(lower: &'a Line, upper: &'a Line, rise: i64) -> SpanStrip<'a>
    requires some { 0 < length upper.now.xs.items }
    requires rises { pos 0 ≤ℤ rise }
    requires low { rise ≤ℤ rise_limit }
    ensures xs { result.xs.now ≡ lower.now.xs.items }
    ensures ys { result.ys.now ≡ lower.now.ys.items }
    ensures us { result.us.now ≡ upper.now.xs.items }
    ensures vs { result.vs.now ≡ upper.now.ys.items }
    ensures rise { result.rise ≡ rise }
{
    SpanStrip {
        xs: &lower.xs,
        ys: &lower.ys,
        us: &upper.xs,
        vs: &upper.ys,
        rise,
    }
}

// The chosen tiling of such a pair, by the coordinates of its rings.
fn choose_level(
    alloc: Global,
    pair: &Pair,
    low: &[Point],
    high: &[Point],
    space: &mut SweepSpace,
) -> Result<Option<Choice>, NoMemory>
    requires rule { pair.now.cost ≡ Span }
    requires rings { AreLevelRings pair.now low.now high.now }
    ensures chosen { IfOk result (λ o.
        IfSome o (λ t. IsChosen (arcs pair.now) (rows pair.now) (cols pair.now) t.row t.word.items)) }
    ensures cost { IfOk result (λ o.
        IfSome o (λ t. pos (word_cost (arcs pair.now) t.row 0 t.word.items) ≡ t.cost)) }
{
    let rows = low.len();
    let cols = high.len();
    let lower = line_of(alloc, low, rows)?;
    let upper = line_of(alloc, high, cols + 1)?;
    let rise = rise_of(low, high);
    let ahead = strip_of(&lower, &upper, rise);
    let there = PairStrip::of(pair, ahead);
    choose_tiling(alloc, &there, rows, cols, space)
}

/// The chosen tiling of a pair whose steps cost squared spans and whose rings each lie at one height, by sweeps that
/// bound what its turns cost. None where the pair is another one, or where these bounds do not give the tiling.
pub fn choose_spans(
    alloc: Global,
    pair: &Pair,
    space: &mut SweepSpace,
) -> Result<Option<Choice>, NoMemory>
    ensures chosen { IfOk result (λ o.
        IfSome o (λ t. IsChosen (arcs pair.now) (rows pair.now) (cols pair.now) t.row t.word.items)) }
    ensures cost { IfOk result (λ o.
        IfSome o (λ t. pos (word_cost (arcs pair.now) t.row 0 t.word.items) ≡ t.cost)) }
{
    if !is_plain(pair) {
        return Ok(None);
    }
    choose_level(alloc, pair, &pair.low().points, &pair.high().points, space)
}
