//! A text of a mesh that is read and counted. `tools/tests/rows/count.rows` has those that are refused.
use crate::answers::same;
use byu_text::{first_lines_tell_a_front, read_back, read_byu, texts_have_one_reading};
use fku_types::Point;
use mesh_measures::{MeshCounts, counts};
use std::process::Abort;
use std::test::Fail;
use triangle_meshes::Mesh;

// Three vertices in the far corners, and a triangle in each of two parts.
const TWO_PARTS: &[u8] = b"       2       3       2       6
       1       1
       2       2
-9.99999E+05-9.99999E+05-9.99999E+05 9.99999E+05-9.99999E+05-9.99999E+05
 0.00000E+00 9.99999E+05-9.99999E+05
       1       3      -2
       1       2      -3
";

// Asserts that the mesh has the three vertices and the two parts of the text.
fn has_two_parts<R: Abort>(rt: &R, mesh: &Mesh) -> Result<(), Fail> {
    let last = Point {
        x: 0,
        y: 999999,
        z: -999999,
    };
    same(rt, mesh.vertices.len(), 3);
    same(rt, mesh.vertices.get(2), Some(&last));
    let [first, second] = mesh.parts.as_slice() else {
        return Err("there are two parts".into());
    };
    same(rt, first.as_slice(), &[[0, 2, 1]]);
    same(rt, second.as_slice(), &[[0, 1, 2]]);
    Ok(())
}

// An edge of both parts counts once; no part is closed by itself.
const COUNTS: MeshCounts = MeshCounts {
    parts: 2,
    vertices: 3,
    polygons: 2,
    edges: 3,
    closed: false,
};

#[test]
fn two_parts_and_an_odd_vertex(rt: HostRuntime) -> Result<(), Fail> {
    let mesh = read_byu(rt.alloc(), TWO_PARTS).map_err(|_| "no mesh")?;
    has_two_parts(&rt, &mesh)?;
    same(&rt, counts(rt.alloc(), &mesh)?, COUNTS);
    let again = read_back(rt.alloc(), &mesh).map_err(|_| "no mesh")?;
    has_two_parts(&rt, &again)?;
    texts_have_one_reading();
    first_lines_tell_a_front();
    Ok(())
}
