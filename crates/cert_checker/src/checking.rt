//! The check of a certificate.
ghost use Rattle.std.specs.Prelude.{◌≡◌, ℕ, ◌+◌, ◌*◌, ◌<◌, ◌≤◌, pos, ◌≤ℤ◌, ◌↔◌, IsTrue, MatchOption, List, length, All, slice_index_or};
ghost use Rattle.strip_graph.specs.declared.tilings.Step.{Step};
ghost use Rattle.strip_graph.specs.Strips.{arcs, rows, cols};
ghost use Rattle.strip_graph.specs.Words.{word_cost};
ghost use Rattle.strip_graph.specs.Tilings.{IsAcceptable};
ghost use Rattle.strip_graph.specs.Certificates.{IsModest, value_at, StepHolds, TurnHolds};
ghost use Rattle.cert_checker.specs.declared.certs.Verdict.{Verdict};
ghost use Rattle.cert_checker.specs.declared.certs.Verdict.TheVariants.{Accept};
ghost use Rattle.cert_checker.specs.Verdicts.{Holds, FitsPair, IsFirstStep, IsFirstRow, IsVerdict};
ghost use Rattle.cert_checker.specs.Steps.{RowStepHolds, IsFirstInRow};

use crate::certs::{Cert, Verdict};
use fku_types::limits::MAX_COMPOSITE_VERTICES;
use strip_graph::{
    Pair, RoundRow, Step, are_modest, is_acceptable, is_modest, rises_at_least, rises_at_most,
    tiling_cost,
};

// A step from the place of a row and a column.
#[derive(Clone, Copy)]
struct Place {
    row: u32,
    col: u32,
    step: Step,
}

// Whether a certificate has the sizes of a pair, and modest numbers.
fn fits_pair(pair: &Pair, cert: &Cert) -> bool
    ensures { IsTrue result ↔ FitsPair pair.now cert.now }
{
    let rows = pair.low().points.len();
    let cols = pair.high().points.len();
    cert.rows as usize == rows
        && cert.cols as usize == cols
        && cert.pi.len() == 2 * rows * (cols + 1)
        && is_modest(cert.cost)
        && are_modest(&cert.pi)
}

// The numbers of a row.
fn row_of(pi: &[i128], cols: usize, row: usize) -> &[i128]
    requires cols { cols ≤ MAX_COMPOSITE_VERTICES }
    requires row { row < 2 * MAX_COMPOSITE_VERTICES }
    requires within { (row + 1) * (cols + 1) ≤ length pi.now }
    requires modest { All IsModest pi.now }
    ensures length { length result.now ≡ cols + 1 }
    ensures modest { All IsModest result.now }
    ensures values { (c : ℕ) → c ≤ cols → slice_index_or result.now c (pos 0) ≡ value_at cols pi.now row c }
{
    let width = cols + 1;
    pi.split_at(row * width).1.split_at(width).0
}

// The numbers of the next row; none after the last of `rows` rows.
fn row_below(pi: &[i128], rows: usize, cols: usize, row: usize) -> &[i128]
    requires rows { rows ≤ 2 * MAX_COMPOSITE_VERTICES }
    requires cols { cols ≤ MAX_COMPOSITE_VERTICES }
    requires row { row < rows }
    requires size { length pi.now ≡ rows * (cols + 1) }
    requires modest { All IsModest pi.now }
    ensures length { row + 1 < rows → length result.now ≡ cols + 1 }
    ensures none { row + 1 ≡ rows → length result.now ≡ 0 }
    ensures modest { All IsModest result.now }
    ensures values { (c : ℕ) → row + 1 < rows
        → c ≤ cols
        → slice_index_or result.now c (pos 0) ≡ value_at cols pi.now (row + 1) c }
{
    if row + 1 < rows {
        row_of(pi, cols, row + 1)
    } else {
        &pi[..0]
    }
}

// The first step from a row of numbers that raises them by more than it costs.
fn first_in_row(steps: &RoundRow<'_>, row: u32, here: &[i128], below: &[i128]) -> Option<Place>
    requires few { length here.now ≤ MAX_COMPOSITE_VERTICES + 1 }
    requires below { length below.now ≤ length here.now }
    requires modest { All IsModest here.now }
    requires modest_below { All IsModest below.now }
    ensures { MatchOption result
        ((j : ℕ) (s : Step) → RowStepHolds (arcs steps.now.strip) steps.now.row here.now below.now j s)
        (λ p.
        (p.row ≡ row)
        × IsFirstInRow (RowStepHolds (arcs steps.now.strip) steps.now.row here.now below.now) p.col p.step) }
{
    for c in 0..here.len() {
        let col = c as u32;
        if c < below.len() && !rises_at_most(here[c], below[c], steps.v_cost(col)) {
            return Some(Place {
                row,
                col,
                step: Step::V,
            });
        }
        if c + 1 < here.len() && !rises_at_most(here[c], here[c + 1], steps.h_cost(col)) {
            return Some(Place {
                row,
                col,
                step: Step::H,
            });
        }
    }
    None
}

// The first step from a row of the strip that raises the numbers by more than it costs.
fn first_from(pair: &Pair, pi: &[i128], row: u32) -> Option<Place>
    requires row { row < 2 * rows pair.now }
    requires size { length pi.now ≡ 2 * rows pair.now * (cols pair.now + 1) }
    requires modest { All IsModest pi.now }
    ensures { MatchOption result
        ((j : ℕ) (s : Step) → StepHolds (arcs pair.now) (rows pair.now) (cols pair.now) pi.now row j s)
        (λ p.
        (p.row ≡ row)
        × IsFirstInRow (StepHolds (arcs pair.now) (rows pair.now) (cols pair.now) pi.now row) p.col p.step) }
{
    let rows = 2 * pair.low().points.len();
    let cols = pair.high().points.len();
    let here = row_of(pi, cols, row as usize);
    let below = row_below(pi, rows, cols, row as usize);
    first_in_row(&pair.round_row(row), row, here, below)
}

// The first step inside the strip that raises the numbers by more than it costs.
fn first_arc(pair: &Pair, pi: &[i128]) -> Option<Place>
    requires size { length pi.now ≡ 2 * rows pair.now * (cols pair.now + 1) }
    requires modest { All IsModest pi.now }
    ensures { MatchOption result
        ((i j : ℕ) (s : Step) → StepHolds (arcs pair.now) (rows pair.now) (cols pair.now) pi.now i j s)
        (λ p. IsFirstStep (StepHolds (arcs pair.now) (rows pair.now) (cols pair.now) pi.now) p.row p.col p.step) }
{
    let rows = 2 * pair.low().points.len() as u32;
    for row in 0..rows {
        if let Some(place) = first_from(pair, pi, row) {
            return Some(place);
        }
    }
    None
}

// Whether once round both rings from a row raises the numbers by at least a cost.
fn turn_holds(pair: &Pair, pi: &[i128], cost: i128, row: usize) -> bool
    requires row { row < rows pair.now }
    requires size { length pi.now ≡ 2 * rows pair.now * (cols pair.now + 1) }
    requires modest { All IsModest pi.now }
    ensures { IsTrue result ↔ TurnHolds (rows pair.now) (cols pair.now) pi.now cost row }
{
    let rows = pair.low().points.len();
    let cols = pair.high().points.len();
    rises_at_least(
        row_of(pi, cols, row)[0],
        row_of(pi, cols, row + rows)[cols],
        cost,
    )
}

// The first row from which once round both rings raises the numbers by less than a cost.
fn first_turn(pair: &Pair, pi: &[i128], cost: i128) -> Option<u32>
    requires size { length pi.now ≡ 2 * rows pair.now * (cols pair.now + 1) }
    requires modest { All IsModest pi.now }
    ensures { MatchOption result ((i : ℕ) → TurnHolds (rows pair.now) (cols pair.now) pi.now cost i)
        (IsFirstRow (TurnHolds (rows pair.now) (cols pair.now) pi.now cost)) }
{
    for row in 0..pair.low().points.len() {
        if !turn_holds(pair, pi, cost, row) {
            return Some(row as u32);
        }
    }
    None
}

/// The verdict on a certificate: the first condition that fails, or `Accept`. `Accept` proves, however the certificate
/// was found, that its tiling's cost is as stated and that no tiling from any start costs less. Takes no memory.
pub fn check(pair: &Pair, cert: &Cert) -> Verdict
    ensures verdict { IsVerdict pair.now cert.now result }
    ensures only { (other : Verdict) → IsVerdict pair.now cert.now other → other ≡ result }
    ensures accept { result ≡ Accept ↔ Holds pair.now cert.now }
    ensures acceptable { result ≡ Accept
        → IsAcceptable (rows pair.now) (cols pair.now) cert.now.tiling.row 0 cert.now.tiling.word.items }
    ensures cost { result ≡ Accept
        → cert.now.cost ≡ pos (word_cost (arcs pair.now) cert.now.tiling.row 0 cert.now.tiling.word.items) }
    ensures least { result ≡ Accept
        → (i j : ℕ) (word : List Step) → IsAcceptable (rows pair.now) (cols pair.now) i j word
        → cert.now.cost ≤ℤ pos (word_cost (arcs pair.now) i j word) }
{
    if !fits_pair(pair, cert) {
        return Verdict::Size;
    }
    if !is_acceptable(pair, &cert.tiling) {
        return Verdict::Word;
    }
    if tiling_cost(pair, &cert.tiling) != cert.cost {
        return Verdict::Cost;
    }
    if let Some(place) = first_arc(pair, &cert.pi) {
        return Verdict::Arc {
            row: place.row,
            col: place.col,
            step: place.step,
        };
    }
    match first_turn(pair, &cert.pi, cert.cost) {
        Some(row) => Verdict::Turn { row },
        None => Verdict::Accept,
    }
}
