//! The solution of a pair by sweeps, which are tried before the divided tables.
ghost use Rattle.std.specs.Prelude.{◌≡◌, ◌+◌, ◌≤◌, pos, IfOk, IfSome};
ghost use Rattle.strip_graph.specs.Strips.{arcs, rows, cols};
ghost use Rattle.strip_graph.specs.Words.{word_cost};
ghost use Rattle.strip_graph.specs.Tilings.{IsChosen};
ghost use Rattle.row_paths.specs.Counts.{swept_readings};
ghost use Rattle.row_paths.specs.Solutions.{Solves};

use crate::solved::Solved;
use fku_types::limits::MAX_COMPOSITE_VERTICES;
use fku_types::{CostRule, NoMemory, Steps};
use round_sweeps::{Choice, SweepSpace, choose_spans, choose_tiles};
use std::alloc::Global;
use std::sync::ledger::Ledger;
use strip_graph::Pair;

// Sweeps take longer than tables where the numbers of points, multiplied, are less than this.
const FEWEST_PLACES: usize = 250;

/// Whether sweeps are worth a try.
pub(crate) fn is_worth_sweeping(pair: &Pair) -> bool {
    pair.low().points.len() * pair.high().points.len() >= FEWEST_PLACES
}

// Counts a reading for each of so many places.
fn charge<L: Ledger>(places: usize, steps: &mut Steps<L>)
    ensures { steps.new ≡ steps.old + places }
{
    for place in 0..places {
        steps.tick();
    }
}

// The solution that sweeps gave.
fn solved_by(pair: &Pair, choice: Choice) -> Solved
    requires chosen { IsChosen (arcs pair.now) (rows pair.now) (cols pair.now) choice.row choice.word.items }
    requires cost { pos (word_cost (arcs pair.now) choice.row 0 choice.word.items) ≡ choice.cost }
    ensures { Solves pair.now result }
{
    let _low = pair.low();
    Solved::of(choice.row as u32, choice.word, choice.cost as u128)
}

// What a try of sweeps counts.
fn swept_readings(by_place: bool, rows: usize, cols: usize) -> usize
    requires rows { rows ≤ MAX_COMPOSITE_VERTICES }
    requires cols { cols ≤ MAX_COMPOSITE_VERTICES }
    ensures { result ≡ swept_readings by_place rows cols }
{
    let each = if by_place { 3 } else { 2 };
    (each * rows + 1) * (cols + 1)
}

// The chosen tiling, where sweeps give it.
fn choose_by_sweeps(
    alloc: Global,
    pair: &Pair,
    space: &mut SweepSpace,
) -> Result<Option<Choice>, NoMemory>
    ensures chosen { IfOk result (λ o.
        IfSome o (λ t. IsChosen (arcs pair.now) (rows pair.now) (cols pair.now) t.row t.word.items)) }
    ensures cost { IfOk result (λ o.
        IfSome o (λ t. pos (word_cost (arcs pair.now) t.row 0 t.word.items) ≡ t.cost)) }
{
    match pair.cost() {
        CostRule::Span => choose_spans(alloc, pair, space),
        _ => choose_tiles(alloc, pair, space),
    }
}

/// The solution of a pair, where sweeps give it. A try counts the same whatever it computes. `by_place` says that both
/// steps to a place cost the same.
pub(crate) fn try_sweeps<L: Ledger>(
    alloc: Global,
    pair: &Pair,
    by_place: bool,
    space: &mut SweepSpace,
    steps: &mut Steps<L>,
) -> Result<Option<Solved>, NoMemory>
    ensures solves { IfOk result (λ o. IfSome o (Solves pair.now)) }
    ensures count { steps.new ≤ steps.old + swept_readings by_place (rows pair.now) (cols pair.now) }
{
    let rows = pair.low().points.len();
    let cols = pair.high().points.len();
    charge(swept_readings(by_place, rows, cols), steps);
    match choose_by_sweeps(alloc, pair, space)? {
        Some(choice) => Ok(Some(solved_by(pair, choice))),
        None => Ok(None),
    }
}
