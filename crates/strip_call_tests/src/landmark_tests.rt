//! A least tiling through a marked span. `tools/tests/rows/landmarks.rows` has more, and marks with a fault.
use crate::comparisons::same;
use crate::rings::squares;
use fku_types::NoMemory;
use landmarks::{Mark, MarkFault, Marked, check_marked, solve_marked};
use std::alloc::Global;
use std::process::Abort;
use std::test::Fail;
use strip_graph::Step;

const MARKS: [Mark; 1] = [Mark { row: 0, col: 2 }];

const V: Step = Step::V;

const H: Step = Step::H;

const WHOLE_ROUND: [i128; 25] = [
    0, 200, 300, 500, 800, 200, 500, 500, 600, 800, 300, 500, 800, 800, 900, 500, 600, 800, 1100,
    1100, 800, 800, 900, 1100, 1400,
];

// Asserts that the tiling has one piece, which goes round both rings from the mark on.
fn has_one_piece<R: Abort>(rt: &R, marked: &Marked) -> Result<(), Fail> {
    same(rt, (marked.cost, marked.at), (1400, MARKS[0]));
    same(rt, marked.word.as_slice(), &[V, V, V, H, V, H, H, H]);
    let [piece] = marked.pieces.as_slice() else {
        return Err("there is one piece".into());
    };
    let wanted = (MARKS[0], 4, 4, 1400);
    same(rt, (piece.from, piece.rows, piece.cols, piece.cost), wanted);
    same(rt, piece.phi.as_slice(), &WHOLE_ROUND);
    Ok(())
}

fn marked(alloc: Global) -> Result<Marked, Fail> {
    let pair = squares(alloc)?;
    let solved = solve_marked(alloc, &pair, &MARKS);
    Ok(solved.ok().ok_or("there is a tiling")?)
}

#[test]
fn one_mark_has_one_piece_round_both_rings(rt: HostRuntime) -> Result<(), Fail> {
    has_one_piece(&rt, &marked(rt.alloc())?)
}

// No command reads a marked tiling.
#[test]
fn a_changed_marked_tiling_is_not_accepted(rt: HostRuntime) -> Result<(), Fail> {
    let pair = squares(rt.alloc())?;
    let mut marked = marked(rt.alloc())?;
    same(&rt, check_marked(&pair, &MARKS, &marked), true);
    marked.cost = 1399;
    same(&rt, check_marked(&pair, &MARKS, &marked), false);
    Ok(())
}

#[test]
fn want_of_memory_is_a_fault_of_its_own(rt: HostRuntime) {
    assert!(rt; matches!(MarkFault::from(NoMemory), MarkFault::NoMemory));
}
