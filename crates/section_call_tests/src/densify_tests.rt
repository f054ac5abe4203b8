//! A section between sections. `tools/tests/rows/densify.rows` has more.
ghost use Rattle.std.specs.Prelude.{◌≤◌, length};

use crate::comparisons::{same, tell};
use crate::texts::{SELF_CROSSING, SQUARES, sections_of};
use fku_types::Spot;
use pair_pool::OneByOne;
use section_core::{Sections, print};
use section_slices::{DensifyFault, densify, round_loop};
use std::alloc::Global;
use std::test::Fail;
use strip_graph::Cut;

const DENSE: &[u8] =
    b"SECTIONS 1\nCOST span\nPAIR links\nSECTION 0\nCONTOUR a 4\n0 0\n10 0\n10 10\n0 10\nSECTION 5\nCONTOUR m1 8\n0 0\n5 0\n10 0\n10 5\n10 10\n5 10\n0 10\n0 5\nSECTION 10\nCONTOUR b 4\n0 0\n10 0\n10 10\n0 10\nLINK a m1\nLINK m1 b\nEND\n";

// If the first edge is cut in half, the rounded spot is the fourth vertex.
const CROSSED: &[u8] =
    b"SECTIONS 1\nCOST span\nPAIR overlap\nSECTION 0\nCONTOUR a 5\n0 0\n21 1\n21 20\n11 1\n0 20\nSECTION 2\nCONTOUR b 5\n0 0\n21 1\n21 20\n11 1\n0 20\nEND\n";

// The result of densifying a text, and how many pairs the solver counted.
fn made(alloc: Global, text: &[u8]) -> Result<(Result<Sections, DensifyFault>, u64), Fail>
    requires { length text.now ≤ 1000 }
{
    let sections = sections_of(alloc, text)?;
    let mut solver = OneByOne::new();
    let made = densify(alloc, &sections, &mut solver);
    Ok((made, solver.solved_count()))
}

#[test]
fn a_section_between_squares(rt: HostRuntime) -> Result<(), Fail> {
    let (made, solved) = made(rt.alloc(), SQUARES)?;
    let sections = made.ok().ok_or("there is a fault")?;
    let printed = print(rt.alloc(), &sections)?;
    same(&rt, printed.as_slice(), DENSE);
    same(&rt, solved, 1);
    Ok(())
}

// The fault of the middle is told after the pairs are solved, and a fault of what is given before.
#[test]
fn faults(rt: HostRuntime) -> Result<(), Fail> {
    let (crossed, solved) = made(rt.alloc(), CROSSED)?;
    same(&rt, solved, 1);
    let Err(DensifyFault::Mid { fault }) = crossed else {
        return Err(Fail::from("there is no fault of the middle"));
    };
    tell(&rt, Some(fault), b"8 SELF CROSSING m1 0 5")?;
    let (crossing, solved) = made(rt.alloc(), SELF_CROSSING)?;
    same(&rt, solved, 0);
    assert!(rt; matches!(crossing, Err(DensifyFault::Found { .. })));
    Ok(())
}

#[test]
fn rounded_loops(rt: HostRuntime) -> Result<(), Fail> {
    let near = [Cut { x: 0, y: 0 }, Cut { x: 1, y: 0 }, Cut { x: 0, y: 1 }];
    let one = round_loop(rt.alloc(), &near, 10)?;
    same(&rt, one.as_slice(), [Spot { x: 0, y: 0 }].as_slice());
    let half = round_loop(rt.alloc(), &[Cut { x: -5, y: 5 }], 10)?;
    same(&rt, half.as_slice(), [Spot { x: 0, y: 1 }].as_slice());
    Ok(())
}
