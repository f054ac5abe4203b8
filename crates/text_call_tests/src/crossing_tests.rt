//! Triangles of a part that cross. `tools/tests/rows/crossings.rows` has the largest coordinates.
use crate::answers::same;
use fku_types::Point;
use mesh_measures::crossings;
use std::test::Fail;

// A floor, a triangle that stands upright in it, another beside that one, and a triangle that stands on the floor.
const VERTICES: [Point; 10] = [
    Point { x: 0, y: 0, z: 0 },
    Point { x: 4, y: 0, z: 0 },
    Point { x: 0, y: 4, z: 0 },
    Point { x: 1, y: 1, z: -1 },
    Point { x: 1, y: 1, z: 1 },
    Point { x: 9, y: 9, z: 1 },
    Point { x: 2, y: 1, z: -1 },
    Point { x: 2, y: 1, z: 1 },
    Point { x: 9, y: 1, z: 1 },
    Point { x: 1, y: 1, z: 0 },
];

const TRIANGLES: [[u32; 3]; 4] = [[0, 1, 2], [3, 4, 5], [6, 7, 8], [9, 4, 5]];

#[test]
fn a_floor_is_crossed_by_two_triangles_and_touched_by_one(rt: HostRuntime) -> Result<(), Fail> {
    let found = crossings(rt.alloc(), &VERTICES, &TRIANGLES)?;
    same(&rt, found.counts.as_slice(), [2, 1, 1, 0].as_slice());
    same(&rt, found.pairs, 2);
    Ok(())
}
