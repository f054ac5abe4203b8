//! The spans that a tiling passes.
ghost use Rattle.std.specs.Prelude.{◌≡◌, ◌+◌, ◌<◌, ◌%◌, All, length, map};
ghost use Rattle.std.specs.Iterator.{YieldsFirst, item_count};
ghost use Rattle.strip_graph.specs.Spans.{IsOf, round, spans};
ghost use Rattle.strip_graph.specs.Strips.{rows, cols};

use crate::pairs::Pair;
use crate::tilings::{Step, Tiling};
use std::marker::Model;

/// A span that a word passes, with the step that leaves it.
#[derive(Clone, Copy, PartialEq, Eq, Debug)]
pub struct SpanStep {
    /// The row, counted from 0 round the lower ring.
    pub row: usize,
    /// The column, counted from 0 round the upper ring.
    pub col: usize,
    pub step: Step,
}

/// The spans that a tiling passes, in order, as an iterator. Contracts see the list of those that are left.
#[derive(Drop)]
pub struct Spans<'a> {
    word: &'a [Step],
    row: usize,
    col: usize,
    rows: usize,
    cols: usize,
}

impl<'a> Model for Spans<'a> {
    ghost use Rattle.std.specs.Prelude.{List, map};
    ghost use Rattle.strip_graph.specs.declared.spans.SpanStep.{SpanStep};

    ghost Value = { List SpanStep };

    ghost use Rattle.strip_graph.specs.Spans.{round, spans};

    ghost view = { λ s. map (round s.rows s.cols) (spans s.row s.col s.word.now) };

    ghost use Rattle.std.specs.Prelude.{◌<◌};

    ghost invariant = { λ s. (s.row < s.rows) × (s.col < s.cols) };
}

/// The place after a place of a ring of `count` places; place 0 comes after the last one.
pub fn next_place(place: usize, count: usize) -> usize
    requires { place < count }
    ensures value { result ≡ (place + 1) % count }
    ensures range { result < count }
{
    if place + 1 < count { place + 1 } else { 0 }
}

impl Pair {
    /// The spans that a tiling passes: the one before each step of its word, with that step. The tiling starts at a row
    /// of the pair. Takes no memory.
    pub fn spans<'a>(&self, tiling: &'a Tiling) -> Spans<'a>
        requires { tiling.now.row < rows self.now }
        ensures spans { result
            ≡ map (round (rows self.now) (cols self.now)) (spans tiling.now.row 0 tiling.now.word.items) }
        ensures one_a_step { length result ≡ length tiling.now.word.items }
        ensures range { All (IsOf (rows self.now) (cols self.now)) result }
    {
        Spans {
            word: &tiling.word,
            row: tiling.row as usize,
            col: 0,
            rows: self.low().points.len(),
            cols: self.high().points.len(),
        }
    }
}

impl<'a> Iterator for Spans<'a> {
    type Item = SpanStep;

    ghost next_gives = { YieldsFirst (λ left. left) };

    ghost remaining = { item_count (λ left. left) };

    fn next(&mut self) -> Option<SpanStep> {
        let (step, word) = self.word.split_first()?;
        let span = SpanStep {
            row: self.row,
            col: self.col,
            step: *step,
        };
        self.word = word;
        match span.step {
            Step::V => self.row = next_place(self.row, self.rows),
            Step::H => self.col = next_place(self.col, self.cols),
        }
        Some(span)
    }
}
