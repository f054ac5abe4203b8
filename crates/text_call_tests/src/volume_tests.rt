//! Volumes inside surfaces. `tools/tests/rows/measure.rows` has more.
ghost use Rattle.fku_types.specs.Points.{IsInRange};
ghost use Rattle.triangle_meshes.specs.Meshes.{surface_of, IsValid};

use crate::answers::same;
use crate::solids::{CORNERS, CUBE, two_parts};
use fku_types::Point;
use std::test::Fail;
use triangle_meshes::{Mesh, six_volume, six_volume_about};

// The tetrahedron of the corner (0, 0, 0) and its three neighbours: a sixth of the cube.
const TETRAHEDRON: [[u32; 3]; 4] = [[0, 3, 1], [0, 4, 3], [0, 1, 4], [1, 3, 4]];

// Half of the cube's upper face: twice its area is 100, at height 10.
const HALF_FACE: [[u32; 3]; 1] = [[5, 6, 7]];

const POINT: Point = Point { x: 7, y: -3, z: 5 };

// Six volumes about (0, 0, 0) and about another point.
fn volumes(mesh: &Mesh, about: Point) -> (i128, i128)
    requires valid { IsValid (surface_of mesh.now) }
    requires about { IsInRange about }
{
    (six_volume(mesh), six_volume_about(mesh, about))
}

#[test]
fn the_parts_are_counted_together(rt: HostRuntime) -> Result<(), Fail> {
    let alloc = rt.alloc();
    let both = two_parts(alloc, &CORNERS, &CUBE, &TETRAHEDRON)?;
    same(&rt, volumes(&both, POINT), (7000, 7000));
    // The half face lies 5 above the point.
    let open = two_parts(alloc, &CORNERS, &HALF_FACE, &TETRAHEDRON)?;
    same(&rt, volumes(&open, POINT), (2000, 1500));
    Ok(())
}
