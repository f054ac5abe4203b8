//! The chosen tiling of a pair by what is counted for its steps.
ghost use Rattle.std.specs.Prelude.{◌≡◌, ◌≤◌, ◌*◌, ◌^◌, IfOk, IfSome, pos};
ghost use Rattle.strip_graph.specs.Strips.{arcs, rows, cols};
ghost use Rattle.strip_graph.specs.Words.{word_cost};
ghost use Rattle.strip_graph.specs.Tilings.{IsChosen};
ghost use Rattle.round_sweeps.specs.Levels.{AreLevelRings};
ghost use Rattle.round_sweeps.specs.Tiles.{FitWeights, IsRuleOf, AreEndsOf, IsCountedChoice};

use crate::choosing::{Choice, choose_tiling};
use crate::lines::{is_level, point_at};
use crate::spaces::SweepSpace;
use crate::spans::rise_of;
use crate::tile_ends::tile_ends;
use crate::tile_strips::TileStrip;
use crate::tiles::TileEnd;
use crate::weights::{AreaAlone, Weighing, Weights};
use fku_types::{CostRule, NoMemory, Point};
use std::alloc::Global;
use strip_graph::{Pair, Tiling, tiling_cost};

// The chosen tiling by what is counted, by the ends of a pair's rings.
fn choose_ends<W: Weighing>(
    alloc: Global,
    pair: &Pair,
    lows: &[TileEnd],
    highs: &[TileEnd],
    rise: u64,
    weights: W,
    space: &mut SweepSpace,
) -> Result<Option<Choice>, NoMemory>
    requires ends { AreEndsOf pair.now lows.now highs.now rise (W.weights weights) }
    requires rise { rise ≤ 4 * 10 ^ 12 }
    requires fit { FitWeights (W.weights weights) }
    ensures { IfOk result (λ o. IfSome o (λ t. IsCountedChoice pair.now t.row t.word.items t.cost)) }
{
    let rows = lows.len();
    let cols = highs.len();
    let strip = TileStrip {
        lows,
        highs,
        rise,
        weights,
    };
    match choose_tiling(alloc, &strip, rows, cols, space)? {
        Some(choice) => Ok(Some(choice)),
        None => Ok(None),
    }
}

// The chosen tiling by what is counted, of a pair whose rings are level, by the weights of its rule.
fn choose_weighed<W: Weighing>(
    alloc: Global,
    pair: &Pair,
    low: &[Point],
    high: &[Point],
    weights: W,
    space: &mut SweepSpace,
) -> Result<Option<Choice>, NoMemory>
    requires rings { AreLevelRings pair.now low.now high.now }
    requires rule { IsRuleOf pair.now.cost (W.weights weights) }
    requires fit { FitWeights (W.weights weights) }
    ensures { IfOk result (λ o. IfSome o (λ t. IsCountedChoice pair.now t.row t.word.items t.cost)) }
{
    let below = point_at(low, 0);
    let above = point_at(high, 0);
    let lows = tile_ends(alloc, false, low, above.z)?;
    let highs = tile_ends(alloc, true, high, below.z)?;
    let rise = rise_of(low, high) as u64;
    choose_ends(alloc, pair, &lows, &highs, rise, weights, space)
}

// The chosen tiling by what is counted.
fn choose_counted(
    alloc: Global,
    pair: &Pair,
    low: &[Point],
    high: &[Point],
    space: &mut SweepSpace,
) -> Result<Option<Choice>, NoMemory>
    requires rings { AreLevelRings pair.now low.now high.now }
    ensures { IfOk result (λ o. IfSome o (λ t. IsCountedChoice pair.now t.row t.word.items t.cost)) }
{
    let rule = pair.cost();
    match rule {
        CostRule::Area => choose_weighed(alloc, pair, low, high, AreaAlone, space),
        _ => choose_weighed(alloc, pair, low, high, Weights::of(rule), space),
    }
}

// Such a tiling, if none of its steps is counted for less than it costs.
fn counted_whole(pair: &Pair, choice: Choice) -> Option<Choice>
    requires { IsCountedChoice pair.now choice.row choice.word.items choice.cost }
    ensures chosen { IfSome result (λ t. IsChosen (arcs pair.now) (rows pair.now) (cols pair.now) t.row t.word.items) }
    ensures cost { IfSome result (λ t. pos (word_cost (arcs pair.now) t.row 0 t.word.items) ≡ t.cost) }
{
    let _low = pair.low();
    let Choice { row, word, cost } = choice;
    let tiling = Tiling {
        row: row as u32,
        word,
    };
    if tiling_cost(pair, &tiling) > i128::from(cost) {
        return None;
    }
    let Tiling { word, .. } = tiling;
    Some(Choice { row, word, cost })
}

/// The chosen tiling of a pair whose rings each lie at one height, under any rule, by sweeps that bound what its turns
/// cost. None where the pair is another one, where these bounds do not give the tiling, or where less is counted for a
/// step of it than that costs.
pub fn choose_tiles(
    alloc: Global,
    pair: &Pair,
    space: &mut SweepSpace,
) -> Result<Option<Choice>, NoMemory>
    ensures chosen { IfOk result (λ o.
        IfSome o (λ t. IsChosen (arcs pair.now) (rows pair.now) (cols pair.now) t.row t.word.items)) }
    ensures cost { IfOk result (λ o.
        IfSome o (λ t. pos (word_cost (arcs pair.now) t.row 0 t.word.items) ≡ t.cost)) }
{
    let low = &pair.low().points;
    let high = &pair.high().points;
    if !is_level(low) || !is_level(high) {
        return Ok(None);
    }
    match choose_counted(alloc, pair, low, high, space)? {
        Some(choice) => Ok(counted_whole(pair, choice)),
        None => Ok(None),
    }
}
