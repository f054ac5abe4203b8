//! The potential of two squares. `tools/tests/rows/certify.rows` has more.
ghost use Rattle.std.specs.Prelude.{◌≡◌, ◌<◌, IfOk};
ghost use Rattle.row_paths.specs.Solutions.{Solves};

use crate::comparisons::same;
use crate::rings::squares;
use fku_types::{NoMemory, Steps};
use row_paths::{Solved, solve};
use std::alloc::Global;
use std::marker::Brand;
use std::sync::ledger::{Blank, Ledger};
use std::test::Fail;
use strip_graph::Pair;
use strip_potential::potential;

const WORKED: [i128; 40] = [
    0, 200, 500, 700, 800, 200, 300, 500, 800, 1000, 300, 500, 600, 800, 1100, 500, 800, 800, 900,
    1100, 600, 800, 1100, 1100, 1200, 800, 900, 1100, 1400, 1400, 1100, 1100, 1200, 1400, 1700,
    1300, 1400, 1400, 1500, 1700,
];

fn solve_by<L: Ledger>(alloc: Global, pair: &Pair, blank: Blank) -> Result<Solved, NoMemory>
    requires name { blank.name ≡ L.name }
    requires parts { blank.parts ≡ L.parts }
    requires some { 0 < L.parts }
    ensures { IfOk result (Solves pair.now) }
{
    let mut steps = Steps::<L>::begin(blank);
    solve(alloc, pair, &mut steps)
}

fn solved(alloc: Global, pair: &Pair) -> Result<Solved, NoMemory>
    ensures { IfOk result (Solves pair.now) }
{
    solve_by::<Brand>(alloc, pair, Blank::new(1))
}

#[test]
fn two_squares_have_the_worked_values(rt: HostRuntime) -> Result<(), Fail> {
    let pair = squares(rt.alloc())?;
    let solved = solved(rt.alloc(), &pair)?;
    same(
        &rt,
        potential(rt.alloc(), &pair, &solved)?.as_slice(),
        &WORKED,
    );
    Ok(())
}
