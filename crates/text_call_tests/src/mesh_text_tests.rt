//! The written text of a mesh.
ghost use Rattle.std.specs.Prelude.{◌≡◌, [], ◌∷◌, IfOk};
ghost use Rattle.triangle_meshes.specs.Meshes.{surface_of};

use crate::answers::same;
use byu_text::write_byu;
use fku_types::{NoMemory, Point};
use std::alloc::Global;
use std::process::Abort;
use std::test::Fail;
use triangle_meshes::Mesh;

const FAR_CORNERS: [Point; 3] = [
    Point {
        x: -999999,
        y: -999999,
        z: -999999,
    },
    Point {
        x: 999999,
        y: -999999,
        z: -999999,
    },
    Point {
        x: 0,
        y: 999999,
        z: -999999,
    },
];

const CAPS: [[u32; 3]; 2] = [[0, 2, 1], [0, 1, 2]];

const CAPS_TEXT: &[u8] = b"       1       3       2       6
       1       2
-9.99999E+05-9.99999E+05-9.99999E+05 9.99999E+05-9.99999E+05-9.99999E+05
 0.00000E+00 9.99999E+05-9.99999E+05
       1       3      -2
       1       2      -3
";

fn mesh(alloc: Global, vertices: &[Point], triangles: &[[u32; 3]]) -> Result<Mesh, NoMemory>
    ensures { IfOk result (λ m. surface_of m ≡ record { vertices = vertices.now; parts = triangles.now ∷ [] }) }
{
    let vertices = vertices.to_vec(alloc)?;
    let parts = vec![in alloc; triangles.to_vec(alloc)?]?;
    Ok(Mesh { vertices, parts })
}

// Asserts that these bytes are written, into no more room than they need.
fn is_text<R: Abort>(rt: &R, text: &Vec<u8>, wanted: &[u8]) {
    same(rt, text.as_slice(), wanted);
    assert_eq!(rt; text.capacity(), text.len(), "the text grew");
}

#[test]
fn an_odd_vertex_stands_alone(rt: HostRuntime) -> Result<(), Fail> {
    let alloc = rt.alloc();
    let caps = mesh(alloc, &FAR_CORNERS, &CAPS)?;
    let text = write_byu(alloc, &caps)?;
    is_text(&rt, &text, CAPS_TEXT);
    Ok(())
}
