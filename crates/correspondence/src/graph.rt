//! Contours of a gap as the nodes of a graph: those below first, then those above.

ghost use Rattle.std.specs.Prelude.{◌≡◌, ◌+◌, ◌<◌, ◌≤◌, ◌^◌, min, IfOk, OnOk, All, length};
ghost use Rattle.correspondence.specs.Graphs.{table_of, adjacent, Visits, AreReached, marked_places};

use std::alloc::{AllocError, Global};

/// Whether two nodes correspond, by the row of one and the column of the other.
pub fn adjacent(rows: &[Vec<bool>], a: usize, b: usize) -> bool
    requires first { All (λ v. a < length rows.now + length v.items) rows.now }
    requires second { All (λ v. b < length rows.now + length v.items) rows.now }
    ensures { result ≡ adjacent (table_of rows.now) a b }
{
    if a < rows.len() {
        b >= rows.len() && rows[a][b - rows.len()]
    } else {
        b < rows.len() && rows[b][a - rows.len()]
    }
}

// The nodes to which one may be adjacent begin here: those above for a node below, and those below for one above.
fn opposite_begin(below: usize, from: usize) -> usize
    ensures of_below { from < below → result ≡ below }
    ensures of_above { below ≤ from → result ≡ 0 }
{
    if from < below { below } else { 0 }
}

// They end here.
fn opposite_end(below: usize, size: usize, from: usize) -> usize
    ensures of_below { from < below → result ≡ size }
    ensures of_above { below ≤ from → result ≡ min below size }
    ensures within { result ≤ size }
{
    if from < below { size } else { below.min(size) }
}

// Marks the nodes that are adjacent to a node, and appends those that had no mark to the waiting ones.
fn visit(
    rows: &[Vec<bool>],
    from: usize,
    marks: &mut [bool],
    waiting: &mut Vec<usize>,
) -> Result<(), AllocError>
    requires columns { All (λ v. length rows.now + length v.items ≡ length marks.old) rows.now }
    requires from { from < length marks.old }
    ensures { OnOk result
        (Visits (adjacent (table_of rows.now)) from (length marks.old) marks.old marks.new waiting.old.items
        waiting.new.items) }
{
    let begin = opposite_begin(rows.len(), from);
    let end = opposite_end(rows.len(), marks.len(), from);
    for to in begin..end {
        if !marks[to] && adjacent(rows, from, to) {
            marks[to] = true;
            waiting.push(to)?;
        }
    }
    Ok(())
}

/// Marks the nodes to which a path of corresponding nodes leads from a root; or `NoMemory`.
pub fn reached(
    alloc: Global,
    rows: &[Vec<bool>],
    size: usize,
    root: usize,
) -> Result<Vec<bool>, AllocError>
    requires columns { All (λ v. length rows.now + length v.items ≡ size) rows.now }
    requires root { root < size }
    ensures { IfOk result (λ v. AreReached (adjacent (table_of rows.now)) root size v.items) }
{
    let mut marks = vec![in alloc; false; size]?;
    marks[root] = true;
    let mut waiting = Vec::new(alloc);
    waiting.push(root)?;
    while let Some(node) = waiting.pop() {
        visit(rows, node, &mut marks, &mut waiting)?;
    }
    Ok(marks)
}

/// The places of the marks.
pub fn marked_places(alloc: Global, marks: &[bool]) -> Result<Vec<u32>, AllocError>
    requires { length marks.now < 2 ^ 32 }
    ensures { IfOk result (λ v. v.items ≡ marked_places marks.now) }
{
    let mut places = Vec::new(alloc);
    for place in 0..marks.len() {
        if marks[place] {
            places.push(place as u32)?;
        }
    }
    Ok(places)
}
