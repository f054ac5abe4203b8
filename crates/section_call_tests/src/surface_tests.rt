//! The surface of sections. `tools/tests/rows/reconstruct.rows` has more.
use crate::comparisons::same;
use crate::texts::{SQUARES, sections_of};
use pair_pool::OneByOne;
use std::process::Abort;
use std::test::Fail;
use surface_core::{Built, surface};

const SQUARES_MESH: [[u32; 3]; 12] = [
    [3, 1, 0],
    [1, 3, 2],
    [0, 1, 4],
    [5, 4, 1],
    [1, 2, 5],
    [6, 5, 2],
    [2, 3, 6],
    [7, 6, 3],
    [3, 0, 7],
    [4, 7, 0],
    [7, 4, 5],
    [5, 6, 7],
];

fn is_worked<R: Abort>(rt: &R, built: &Built) -> Result<(), Fail> {
    let part = built.mesh.parts.first().ok_or("there is no part")?;
    same(rt, part.as_slice(), &SQUARES_MESH);
    same(rt, (built.pairs, built.cost, built.folded), (1, 1200, 0));
    Ok(())
}

#[test]
fn the_surface_of_two_squares(rt: HostRuntime) -> Result<(), Fail> {
    let sections = sections_of(rt.alloc(), SQUARES)?;
    let mut solver = OneByOne::new();
    let built = surface(rt.alloc(), &sections, &mut solver).ok();
    is_worked(&rt, &built.ok_or("there is a surface")?)?;
    same(&rt, solver.solved_count(), 1);
    Ok(())
}
