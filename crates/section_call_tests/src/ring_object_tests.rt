//! The caps of a ring that is an object. `tools/tests/rows/objects.rows` has more.
use crate::comparisons::same;
use crate::ring_tests::expect_caps;
use crate::texts::objects_of;
use pair_pool::OneByOne;
use ring_caps::ring_surface_all;
use std::test::Fail;

// Two equal squares, one above the other, which have one pair; and a square with a square hole.
const SQUARES_AND_RING: &[u8] =
    b"SECTIONS 2\nCOST span\nPAIR overlap\nOBJECT p\nSECTION 0\nCONTOUR a 4\n0 0\n10 0\n10 10\n0 10\nSECTION 10\nCONTOUR b 4\n0 0\n10 0\n10 10\n0 10\nOBJECT q\nSECTION 0\nCONTOUR o 4\n0 0\n30 0\n30 30\n0 30\nCONTOUR h 4\n10 10\n20 10\n20 20\n10 20\nEND\n";

// The triangles of the top cap of the ring.
const TOPS: [[u32; 3]; 8] = [
    [11, 8, 12],
    [11, 12, 15],
    [11, 15, 14],
    [13, 12, 8],
    [13, 8, 9],
    [14, 13, 9],
    [14, 9, 10],
    [14, 10, 11],
];

#[test]
fn the_caps_of_a_ring_that_is_the_second_object(rt: HostRuntime) -> Result<(), Fail> {
    let objects = objects_of(rt.alloc(), SQUARES_AND_RING)?;
    let mut solver = OneByOne::new();
    let built = ring_surface_all(rt.alloc(), &objects, &mut solver).ok();
    let built = built.ok_or("there is a surface")?;
    same(&rt, (built.pairs, built.cost, built.folded), (1, 1200, 0));
    same(&rt, solver.solved_count(), 1);
    let part = built.mesh.parts.last().ok_or("there is no part")?;
    expect_caps(&rt, part, &TOPS);
    Ok(())
}
