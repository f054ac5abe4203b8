//! Measures of a cube. `tools/tests/rows/measure.rows` has open parts, edges of three triangles and the largest
//! coordinates.
use crate::answers::same;
use crate::solids::{CORNERS, CUBE};
use fku_types::Point;
use mesh_measures::{Area, Bounds, Measures, Sides, Solid, measure};
use std::test::Fail;

fn at(x: i32, y: i32, z: i32) -> Point {
    Point { x, y, z }
}

#[test]
fn a_cube(rt: HostRuntime) -> Result<(), Fail> {
    let found = measure(rt.alloc(), &CORNERS, &CUBE)?;
    let want = Measures {
        vertices: 8,
        polygons: 12,
        bounds: Bounds {
            least: at(0, 0, 0),
            greatest: at(10, 10, 10),
        },
        area: Area {
            low: 1200000,
            high: 1200000,
        },
        sides: Sides { edges: 18, many: 0 },
        // Its centre lies at 5: 120000 = 5 * 4 * 6000.
        solid: Some(Solid {
            six_volume: 6000,
            moment_x: 120000,
            moment_y: 120000,
            moment_z: 120000,
        }),
    };
    same(&rt, found, want);
    Ok(())
}
