//! The first fault of a list of marks.
ghost use Rattle.std.specs.Prelude.{◌≡◌, ℕ, ◌<◌, ◌≤◌, IsTrue, ◌↔◌, ◌⊎◌, length, MatchResult, IfErr};
ghost use Rattle.landmarks.specs.declared.marks.MarkFault.TheVariants as fault;
ghost use Rattle.landmarks.specs.Faults.{mark_at, distance_after, GoAcross, ShareLine, IsRepeated, MarksCross, IsGood, AreSoundMarks, AreGoodBefore, IsFirstFaultOfMarks};

use crate::marks::{Mark, MarkFault};
use fku_types::limits::{MAX_COMPOSITE_VERTICES, MAX_MARKS};

// The distance from one index to another, counted round a ring of `count`.
fn after(count: u32, from: u32, to: u32) -> u32
    requires from { from < count }
    requires to { to < count }
    requires few { count ≤ MAX_COMPOSITE_VERTICES }
    ensures { result ≡ distance_after count from to }
{
    if from <= to {
        to - from
    } else {
        to + count - from
    }
}

// Whether two marks share a row or a column.
fn share_line(earlier: Mark, mark: Mark) -> bool
    ensures { IsTrue result ↔ ShareLine earlier mark }
{
    earlier.row == mark.row || earlier.col == mark.col
}

// Whether, seen from a first mark, two marks cross.
fn go_across(rows: u32, cols: u32, first: Mark, earlier: Mark, mark: Mark) -> bool
    requires rows { rows ≤ MAX_COMPOSITE_VERTICES }
    requires cols { cols ≤ MAX_COMPOSITE_VERTICES }
    requires first { first.row < rows × first.col < cols }
    requires earlier { earlier.row < rows × earlier.col < cols }
    requires mark { mark.row < rows × mark.col < cols }
    ensures { IsTrue result ↔ (GoAcross rows cols first earlier mark ⊎ GoAcross rows cols first mark earlier) }
{
    let row = after(rows, first.row, mark.row);
    let col = after(cols, first.col, mark.col);
    let earlier_row = after(rows, first.row, earlier.row);
    let earlier_col = after(cols, first.col, earlier.col);
    earlier_row < row && col < earlier_col || row < earlier_row && earlier_col < col
}

// Whether an earlier mark shares a row or a column with the one at a place.
fn is_repeated(marks: &[Mark], place: usize) -> bool
    requires { place < length marks.now }
    ensures { IsTrue result ↔ IsRepeated marks.now place }
{
    for earlier in 0..place {
        if share_line(marks[earlier], marks[place]) {
            return true;
        }
    }
    false
}

// Whether an earlier mark and the one at a place cross.
fn is_crossed(rows: u32, cols: u32, marks: &[Mark], place: usize) -> bool
    requires rows { rows ≤ MAX_COMPOSITE_VERTICES }
    requires cols { cols ≤ MAX_COMPOSITE_VERTICES }
    requires place { place < length marks.now }
    requires spans { (q : ℕ) → q ≤ place → ((mark_at marks.now q).row < rows) × ((mark_at marks.now q).col < cols) }
    ensures { IsTrue result ↔ MarksCross rows cols marks.now place }
{
    for earlier in 0..place {
        if go_across(rows, cols, marks[0], marks[earlier], marks[place]) {
            return true;
        }
    }
    false
}

/// The fault of the mark at `place`, where the earlier marks of the list have none. A reader of marks calls it for each
/// mark in turn. `rows` and `cols` are the numbers of points of the rings. Takes no memory.
pub fn test_mark(rows: u32, cols: u32, marks: &[Mark], place: usize) -> Result<(), MarkFault>
    requires rows { rows ≤ MAX_COMPOSITE_VERTICES }
    requires cols { cols ≤ MAX_COMPOSITE_VERTICES }
    requires few { length marks.now ≤ MAX_MARKS }
    requires place { place < length marks.now }
    requires earlier { AreGoodBefore rows cols marks.now place }
    ensures fault { MatchResult result (λ _. IsGood rows cols marks.now place) (IsFirstFaultOfMarks rows cols marks.now) }
    // `NoMemory` never comes.
    ensures sure { IfErr result (λ f. f ≡ fault.NoMemory → ⊥) }
{
    let mark = place as u32;
    if marks[place].row >= rows || marks[place].col >= cols {
        return Err(MarkFault::NoSpan { mark });
    }
    if is_repeated(marks, place) {
        return Err(MarkFault::Repeated { mark });
    }
    if is_crossed(rows, cols, marks, place) {
        return Err(MarkFault::Cross { mark });
    }
    Ok(())
}

/// The first fault of a list of marks. Good marks have different rows, so a fault comes by the mark after the first
/// `MAX_COMPOSITE_VERTICES` ones at the latest, and each mark is compared with at most so many earlier ones.
pub(crate) fn test_marks(rows: u32, cols: u32, marks: &[Mark]) -> Result<(), MarkFault>
    requires rows { rows ≤ MAX_COMPOSITE_VERTICES }
    requires cols { cols ≤ MAX_COMPOSITE_VERTICES }
    requires some { 1 ≤ length marks.now }
    requires few { length marks.now ≤ MAX_MARKS }
    ensures fault { MatchResult result (λ _. AreSoundMarks rows cols marks.now)
        (IsFirstFaultOfMarks rows cols marks.now) }
    ensures sure { IfErr result (λ f. f ≡ fault.NoMemory → ⊥) }
{
    for place in 0..marks.len() {
        test_mark(rows, cols, marks, place)?;
    }
    Ok(())
}
