//! The least tiling that contains all marks.
ghost use Rattle.std.specs.Prelude.{◌≡◌, ℕ, ◌+◌, ◌*◌, ◌<◌, ◌≤◌, pos, ◌≤ℤ◌, List, length, take, IfOk, IfErr, All};
ghost use Rattle.plane_geom.specs.Planes.{signed_sum};
ghost use Rattle.strip_graph.specs.declared.tilings.Step.{Step};
ghost use Rattle.std.specs.List.{sum_by};
ghost use Rattle.strip_graph.specs.Strips.{arcs, rows, cols, step_cost_limit};
ghost use Rattle.strip_graph.specs.Words.{word_cost};
ghost use Rattle.landmarks.specs.declared.pieces.Marked.{Marked};
ghost use Rattle.landmarks.specs.declared.marks.MarkFault.TheVariants.{Cross};
ghost use Rattle.landmarks.specs.declared.marks.MarkFault.TheVariants as faults;
ghost use Rattle.landmarks.specs.Marks.{IsMarked, HaveNoTiling};
ghost use Rattle.landmarks.specs.Faults.{AreMarksApart, AreSoundMarks, IsFirstFaultOfMarks};
ghost use Rattle.landmarks.specs.Pieces.{IsLeastPiece};
ghost use Rattle.landmarks.specs.Marked.{HoldsMarked, SolvesMarked, SaySame};
ghost use Rattle.landmarks.specs.Chains.{IsByRow, AreSpansInOrder, IsDistanceRound, ArePieces, AreOfCanonicalWords};

use crate::faults::test_marks;
use crate::marks::{Mark, MarkFault};
use crate::pieces::{Marked, Piece};
use crate::sweeps::distances;
use crate::traces::trace;
use fku_types::NoMemory;
use fku_types::limits::{MAX_COMPOSITE_VERTICES, MAX_MARKS, MAX_STEPS};
use std::alloc::Global;
use strip_graph::{Pair, Step, next_place};

// The distance from one index of a ring to another, and once round if they are equal.
fn way(count: u32, from: u32, to: u32) -> u32
    requires from { from < count }
    requires to { to < count }
    requires few { count ≤ MAX_COMPOSITE_VERTICES }
    ensures way { IsDistanceRound count from to result }
    ensures fits { result ≤ count }
{
    if from < to {
        to - from
    } else {
        to + count - from
    }
}

// The marks in the order of their rows; or `NoMemory`.
fn by_row(alloc: Global, marks: &[Mark]) -> Result<Vec<Mark>, NoMemory>
    requires { AreMarksApart marks.now }
    ensures { IfOk result (λ sorted. IsByRow marks.now sorted.items) }
{
    let mut sorted = marks.to_vec(alloc)?;
    sorted.sort_unstable_by_key(|mark| mark.row);
    Ok(sorted)
}

// The piece from one mark to the next one.
fn piece_between(alloc: Global, pair: &Pair, from: Mark, to: Mark) -> Result<Piece, NoMemory>
    requires from { from.row < rows pair.now × from.col < cols pair.now }
    requires to { to.row < rows pair.now × to.col < cols pair.now }
    ensures from { IfOk result (λ p. p.from ≡ from) }
    ensures rows { IfOk result (λ p. IsDistanceRound (rows pair.now) from.row to.row p.rows) }
    ensures cols { IfOk result (λ p. IsDistanceRound (cols pair.now) from.col to.col p.cols) }
    ensures rows_fit { IfOk result (λ p. p.rows ≤ rows pair.now) }
    ensures cols_fit { IfOk result (λ p. p.cols ≤ cols pair.now) }
    ensures least { IfOk result (IsLeastPiece (arcs pair.now)) }
{
    let rows = way(pair.low().points.len() as u32, from.row, to.row);
    let cols = way(pair.high().points.len() as u32, from.col, to.col);
    let phi = distances(alloc, pair, from, rows, cols)?;
    let cost = phi[phi.len() - 1];
    Ok(Piece {
        from,
        rows,
        cols,
        cost,
        phi,
    })
}

// The pieces between marks in the order of their rows.
fn pieces_between(alloc: Global, pair: &Pair, sorted: &[Mark]) -> Result<Vec<Piece>, NoMemory>
    requires { AreSpansInOrder (rows pair.now) (cols pair.now) sorted.now }
    ensures { IfOk result (λ pieces.
        ArePieces (arcs pair.now) (rows pair.now) (cols pair.now) sorted.now (length sorted.now) pieces.items) }
{
    let mut pieces = Vec::with_capacity(alloc, sorted.len())?;
    for k in 0..sorted.len() {
        let next = next_place(k, sorted.len());
        let piece = piece_between(alloc, pair, sorted[k], sorted[next])?;
        pieces.push(piece)?;
    }
    Ok(pieces)
}

// The canonical words of pieces in turn. Their letters are found from the last one back to the first.
fn word_of(alloc: Global, pair: &Pair, pieces: &[Piece]) -> Result<Vec<Step>, NoMemory>
    requires least { All (IsLeastPiece (arcs pair.now)) pieces.now }
    requires from { All (λ p. (p.from.row ≤ MAX_COMPOSITE_VERTICES) × (p.from.col ≤ MAX_COMPOSITE_VERTICES))
        pieces.now }
    requires rows { All (λ p. p.rows ≤ MAX_COMPOSITE_VERTICES) pieces.now }
    requires cols { All (λ p. p.cols ≤ MAX_COMPOSITE_VERTICES) pieces.now }
    ensures { IfOk result (λ w. AreOfCanonicalWords (arcs pair.now) pieces.now w.items) }
{
    let capacity = pair.low().points.len() + pair.high().points.len();
    let mut word = Vec::with_capacity(alloc, capacity)?;
    for k in 0..pieces.len() {
        trace(pair, &pieces[pieces.len() - 1 - k], &mut word)?;
    }
    word.reverse();
    Ok(word)
}

// The sum of the costs of pieces.
fn cost_of(pieces: &[Piece]) -> i128
    requires low { All (λ p. pos 0 ≤ℤ p.cost) pieces.now }
    requires high { All (λ p. p.cost ≤ℤ pos ((p.rows + p.cols) * step_cost_limit)) pieces.now }
    requires few { sum_by (λ p. p.rows) pieces.now + sum_by (λ p. p.cols) pieces.now ≤ MAX_STEPS }
    ensures { result ≡ signed_sum (λ p. p.cost) pieces.now }
{
    let mut cost = 0;
    for piece in pieces {
        cost += piece.cost;
    }
    cost
}

// Solves a pair with good marks.
fn solve_good(alloc: Global, pair: &Pair, marks: &[Mark]) -> Result<Marked, NoMemory>
    requires { AreSoundMarks (rows pair.now) (cols pair.now) marks.now }
    ensures { IfOk result (SolvesMarked pair.now marks.now) }
{
    let _low = pair.low();
    let _high = pair.high();
    let sorted = by_row(alloc, marks)?;
    let pieces = pieces_between(alloc, pair, &sorted)?;
    let word = word_of(alloc, pair, &pieces)?;
    let cost = cost_of(&pieces);
    Ok(Marked {
        at: sorted[0],
        cost,
        word,
        pieces,
    })
}

/// The least tiling of a pair that contains all of 1 to `MAX_MARKS` marks, with its pieces, their costs and their
/// certificates. The tiling starts at the mark of least row; of the least words from there it has the first one, where
/// V comes before H.
///
/// The error gives the index of the first mark with a fault; or it is `NoMemory`.
pub fn solve_marked(alloc: Global, pair: &Pair, marks: &[Mark]) -> Result<Marked, MarkFault>
    requires some { 1 ≤ length marks.now }
    requires few { length marks.now ≤ MAX_MARKS }
    ensures good { IfOk result (λ t. AreSoundMarks (rows pair.now) (cols pair.now) marks.now) }
    ensures fault { IfErr result (IsFirstFaultOfMarks (rows pair.now) (cols pair.now) marks.now) }
    // Memory is asked for good marks alone, so a mark with a fault is reported whatever memory there is.
    ensures memory { IfErr result (λ f. f ≡ faults.NoMemory → AreSoundMarks (rows pair.now) (cols pair.now) marks.now) }
    ensures crossed { IfErr result (λ f.
        (q : ℕ) → f ≡ Cross q → HaveNoTiling (rows pair.now) (cols pair.now) (take (q + 1) marks.now)) }
    ensures solves { IfOk result (SolvesMarked pair.now marks.now) }

    // Every solution has this start, cost, word and these pieces.
    ensures only { IfOk result (λ t. (u : Marked) → SolvesMarked pair.now marks.now u → SaySame t u) }
    ensures marked { IfOk result (λ t.
        IsMarked (rows pair.now) (cols pair.now) marks.now t.at.row t.at.col t.word.items) }
    ensures least { IfOk result (λ t.
        (i j : ℕ) (w : List Step) → IsMarked (rows pair.now) (cols pair.now) marks.now i j w
        → t.cost ≤ℤ pos (word_cost (arcs pair.now) i j w)) }
    ensures holds { IfOk result (HoldsMarked pair.now marks.now) }
{
    let rows = pair.low().points.len() as u32;
    let cols = pair.high().points.len() as u32;
    test_marks(rows, cols, marks)?;
    Ok(solve_good(alloc, pair, marks)?)
}
