//! The whole text.
ghost use Rattle.std.specs.Prelude.{◌≡◌, ◌+◌, ◌*◌, ◌<◌, ◌≤◌, ◌++◌, length, sum_by, All, IfOk, OnOk};
ghost use Rattle.std.specs.List.{flat_map};
ghost use Rattle.fku_types.specs.Points.{IsInRange};
ghost use Rattle.triangle_meshes.specs.Meshes.{surface_of, triangle_lists, IsValid};
ghost use Rattle.byu_text.specs.Numbers.{vertex_table};
ghost use Rattle.byu_text.specs.Byu.{counts_line, part_ranges, vertex_lines, polygon_line, byu_of};

use crate::fields::{Height, number_field};
use crate::lines::{put_fields, put_part, put_points, put_triangle};
use crate::numbers::{VertexFields, vertex_table};
use fku_types::limits::{MAX_MESH_PARTS, MAX_MESH_TRIANGLES, MAX_MESH_VERTICES};
use fku_types::{NoMemory, Point};
use std::alloc::Global;
use triangle_meshes::{Mesh, triangle_count};

// How many bytes a text has with these numbers of parts, vertices and polygons.
fn text_size(parts: usize, vertices: usize, polygons: usize) -> usize
    requires parts { parts ≤ MAX_MESH_PARTS }
    requires vertices { vertices ≤ MAX_MESH_VERTICES }
    requires polygons { polygons ≤ MAX_MESH_TRIANGLES }
    ensures { result ≤ 33 + 17 * parts + 37 * vertices + 25 * polygons }
{
    33 + 17 * parts + 36 * vertices + vertices.div_ceil(2) + 25 * polygons
}

fn write_counts(text: &mut Vec<u8>, mesh: &Mesh, polygons: usize) -> Result<(), NoMemory>
    requires valid { IsValid (surface_of mesh.now) }
    requires polygons { polygons ≡ sum_by length (surface_of mesh.now).parts }
    ensures { OnOk result (text.new.items ≡ text.old.items ++ counts_line (surface_of mesh.now)) }
{
    let parts = number_field(mesh.parts.len() as i32);
    let vertices = number_field(mesh.vertices.len() as i32);
    let entries = number_field(3 * polygons as i32);
    let polygons = number_field(polygons as i32);
    put_fields(text, &[parts, vertices, polygons, entries])
}

fn write_parts(text: &mut Vec<u8>, parts: &[Vec<[u32; 3]>]) -> Result<(), NoMemory>
    requires { sum_by length (triangle_lists parts.now) ≤ MAX_MESH_TRIANGLES }
    ensures { OnOk result (text.new.items ≡ text.old.items ++ part_ranges 1 (triangle_lists parts.now)) }
{
    let mut next = 1;
    for part in parts {
        let first = next;
        next += part.len();
        put_part(text, first, next - 1)?;
    }
    Ok(())
}

fn write_vertices(text: &mut Vec<u8>, vertices: &[Point]) -> Result<(), NoMemory>
    requires { All IsInRange vertices.now }
    ensures { OnOk result (text.new.items ≡ text.old.items ++ vertex_lines vertices.now) }
{
    let mut height = Height::new(0);
    for points in vertices.chunks(2) {
        put_points(text, &mut height, points)?;
    }
    Ok(())
}

fn write_polygons(
    text: &mut Vec<u8>,
    table: &[VertexFields],
    triangles: &[[u32; 3]],
) -> Result<(), NoMemory>
    requires table { table.now ≡ vertex_table (length table.now) }
    requires ids { All (All (λ id. id < length table.now)) triangles.now }
    ensures { OnOk result (text.new.items ≡ text.old.items ++ flat_map polygon_line triangles.now) }
{
    for triangle in triangles {
        let [a, b, c] = *triangle;
        put_triangle(text, table, a, b, c)?;
    }
    Ok(())
}

/// The text of a valid mesh; or `NoMemory`. First a line with the numbers of parts, vertices, polygons and connectivity
/// entries, three for each polygon; then for each part a line with its first and its last polygon, counted from 1 over
/// the file; the vertices, two on a line, each with x, y and z; and for each triangle a line with its vertex numbers,
/// counted from 1, the last one negative. `docs/formats.md` defines how a number and a coordinate are written.
pub fn write_byu(alloc: Global, mesh: &Mesh) -> Result<Vec<u8>, NoMemory>
    requires { IsValid (surface_of mesh.now) }
    ensures { IfOk result (λ text. text.items ≡ byu_of (surface_of mesh.now)) }
{
    let polygons = triangle_count(mesh);
    let size = text_size(mesh.parts.len(), mesh.vertices.len(), polygons);
    let mut text = Vec::with_capacity(alloc, size)?;
    write_counts(&mut text, mesh, polygons)?;
    write_parts(&mut text, &mesh.parts)?;
    write_vertices(&mut text, &mesh.vertices)?;
    let table = vertex_table(alloc, mesh.vertices.len())?;
    for part in &mesh.parts {
        write_polygons(&mut text, &table, part)?;
    }
    Ok(text)
}
