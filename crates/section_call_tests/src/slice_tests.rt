//! Slices between sections. `tools/tests/rows/slice.rows` has more.
ghost use Rattle.std.specs.Prelude.{◌≤◌, IfOk, length, map};
ghost use Rattle.fku_types.specs.Points.{IsCoordinate};
ghost use Rattle.section_pairs.specs.SectionFaults.{ArePairs};
ghost use Rattle.section_pairs.specs.Pairs.{pair_parts};

use crate::comparisons::{same, tell};
use crate::texts::{THREE_SQUARES, sections_of};
use fku_types::Fault;
use pair_pool::OneByOne;
use section_core::Sections;
use section_pairs::{GapPair, pairs};
use section_slices::{SliceLoops, slice, slice_pairs, test_height};
use std::alloc::Global;
use std::process::Abort;
use std::test::Fail;

// The slice of a text at a height, and how many pairs the solver counted.
fn sliced(alloc: Global, text: &[u8], z: i32) -> Result<(Result<SliceLoops, Fault>, u64), Fail>
    requires text { length text.now ≤ 1000 }
    requires z { IsCoordinate z }
{
    let sections = sections_of(alloc, text)?;
    let mut solver = OneByOne::new();
    let made = slice(alloc, &sections, &mut solver, z);
    Ok((made, solver.solved_count()))
}

const MIDDLE: [(i64, i64); 8] = [
    (0, 0),
    (50, 0),
    (100, 0),
    (100, 50),
    (100, 100),
    (50, 100),
    (0, 100),
    (0, 50),
];

// Asserts that a slice has the denominator 10 and one loop of these points.
fn expect_middle<R: Abort>(rt: &R, made: &SliceLoops) -> Result<(), Fail> {
    same(rt, (made.den, made.loops.len()), (10, 1));
    let one = made.loops.first().ok_or("there is no loop")?;
    same(rt, one.len(), MIDDLE.len());
    for (cut, point) in one.iter().zip(&MIDDLE) {
        same(rt, (cut.x, cut.y), *point);
    }
    Ok(())
}

#[test]
fn a_slice_solves_the_pairs_of_its_gap(rt: HostRuntime) -> Result<(), Fail> {
    let (made, solved) = sliced(rt.alloc(), THREE_SQUARES, 15)?;
    let made = made.ok().ok_or("there is no slice")?;
    same(&rt, solved, 1);
    expect_middle(&rt, &made)
}

#[test]
fn no_pair_is_solved_for_a_height_without_a_slice(rt: HostRuntime) -> Result<(), Fail> {
    let (made, solved) = sliced(rt.alloc(), THREE_SQUARES, 10)?;
    same(&rt, solved, 0);
    tell(&rt, made.err(), b"18 HEIGHT ON SECTION 10")
}

// The sections of a text, with their pairs.
fn paired(alloc: Global, text: &[u8]) -> Result<(Sections, Vec<GapPair>), Fail>
    requires { length text.now ≤ 1000 }
    ensures { IfOk result (λ p. ArePairs p.0 (map pair_parts p.1.items)) }
{
    let sections = sections_of(alloc, text)?;
    match pairs(alloc, &sections) {
        Err(_) => Err(Fail::from("the sections have a fault")),
        Ok(found) => Ok((sections, found)),
    }
}

#[test]
fn a_slice_of_known_pairs(rt: HostRuntime) -> Result<(), Fail> {
    let (sections, found) = paired(rt.alloc(), THREE_SQUARES)?;
    let mut solver = OneByOne::new();
    assert!(rt; test_height(&sections, 15).is_ok());
    let made = slice_pairs(rt.alloc(), &sections, &found, &mut solver, 15);
    expect_middle(&rt, &made.ok().ok_or("there is no slice")?)?;
    same(&rt, solver.solved_count(), 1);
    Ok(())
}
