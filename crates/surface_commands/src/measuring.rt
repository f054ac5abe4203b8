//! The command `measure`.
ghost use Rattle.std.specs.Prelude.{◌≡◌, ◌≤◌, ◌++◌, ℕ, IfOk, OnOk, length, string_bytes, IfErr};
ghost use Rattle.std.specs.List.{AllZip};
ghost use Rattle.triangle_meshes.specs.Meshes.{surface_of, IsValid};
ghost use Rattle.byu_text.specs.Answers.{IsMeshMemory};
ghost use Rattle.command_replies.specs.Reply.{Replies};
ghost use Rattle.surface_commands.specs.Measure.{AreMeasures, area_text, box_text, part_head_text, measure, measured_text, measures_text, corner_text, sides_text, solid_text};

use crate::counting::put_parts;
use byu_text::read_byu;
use fku_types::limits::{MAX_MESH_BYTES, MAX_MESH_PARTS};
use fku_types::{Fault, NoMemory, Point};
use mesh_measures::{Area, Bounds, Measures, Sides, Solid, measure};
use std::alloc::{AllocError, Global};
use text_io::put;
use triangle_meshes::Mesh;

fn head_text(
    alloc: Global,
    number: usize,
    vertices: u32,
    polygons: u32,
) -> Result<String, AllocError>
    ensures { IfOk result (λ s. string_bytes s ≡ part_head_text number vertices polygons) }
{
    format!(in alloc; "PART {number}\nVERTICES {vertices}\nPOLYGONS {polygons}\n")
}

fn point_text(alloc: Global, point: &Point) -> Result<String, AllocError>
    ensures { IfOk result (λ s. string_bytes s ≡ corner_text point.now) }
{
    let (x, y, z) = (point.x, point.y, point.z);
    format!(in alloc; "{x} {y} {z}")
}

fn put_box(alloc: Global, out: &mut Vec<u8>, bounds: &Bounds) -> Result<(), AllocError>
    ensures { OnOk result (out.new.items ≡ out.old.items ++ box_text bounds.now) }
{
    put(out, b"BOX ")?;
    put(out, point_text(alloc, &bounds.least)?.as_bytes())?;
    put(out, b" ")?;
    put(out, point_text(alloc, &bounds.greatest)?.as_bytes())?;
    put(out, b"\n")
}

fn area_text(alloc: Global, area: &Area) -> Result<String, AllocError>
    ensures { IfOk result (λ s. string_bytes s ≡ area_text area.now) }
{
    let (low, high) = (area.low, area.high);
    format!(in alloc; "AREA {low} {high} DEN 2000\n")
}

fn sides_text(alloc: Global, sides: &Sides) -> Result<String, AllocError>
    ensures { IfOk result (λ s. string_bytes s ≡ sides_text sides.now) }
{
    let (edges, many) = (sides.edges, sides.many);
    format!(in alloc; "EDGES {edges} MANY {many}\n")
}

fn solid_text(alloc: Global, solid: &Option<Solid>) -> Result<String, AllocError>
    ensures { IfOk result (λ s. string_bytes s ≡ solid_text solid.now) }
{
    let Some(solid) = solid else {
        return format!(in alloc; "CLOSED no\n");
    };
    let volume = solid.six_volume;
    let (x, y, z) = (solid.moment_x, solid.moment_y, solid.moment_z);
    format!(in alloc; "CLOSED yes\nSIXVOLUME {volume}\nMOMENT {x} {y} {z}\n")
}

// Appends the lines of a part to a text.
fn put_measures(
    alloc: Global,
    out: &mut Vec<u8>,
    number: usize,
    part: &Measures,
) -> Result<(), AllocError>
    ensures { OnOk result (out.new.items ≡ out.old.items ++ measured_text number part.now) }
{
    put(
        out,
        head_text(alloc, number, part.vertices, part.polygons)?.as_bytes(),
    )?;
    put_box(alloc, out, &part.bounds)?;
    put(out, area_text(alloc, &part.area)?.as_bytes())?;
    put(out, sides_text(alloc, &part.sides)?.as_bytes())?;
    put(out, solid_text(alloc, &part.solid)?.as_bytes())
}

// The measures of each part of a mesh.
fn parts_measured(alloc: Global, mesh: &Mesh) -> Result<Vec<Measures>, NoMemory>
    requires { IsValid (surface_of mesh.now) }
    ensures { IfOk result (λ v.
        AllZip (AreMeasures (surface_of mesh.now).vertices) (surface_of mesh.now).parts v.items) }
{
    let mut all = Vec::with_capacity(alloc, mesh.parts.len())?;
    for part in &mesh.parts {
        all.push(measure(alloc, &mesh.vertices, part)?)?;
    }
    Ok(all)
}

fn measures_text(alloc: Global, parts: &[Measures]) -> Result<Vec<u8>, AllocError>
    requires { length parts.now ≤ MAX_MESH_PARTS }
    ensures { IfOk result (λ v. v.items ≡ measures_text parts.now) }
{
    let mut text = Vec::new(alloc);
    put_parts(&mut text, parts.len())?;
    for (place, part) in parts.iter().enumerate() {
        put_measures(alloc, &mut text, place + 1, part)?;
    }
    Ok(text)
}

/// The measures of each part of a mesh. The input is its MOVIE.BYU text, of at most `MAX_MESH_BYTES` bytes; else the
/// input's fault; or `NoMemory`. It takes no solver.
pub fn measured(alloc: Global, input: &[u8]) -> Result<Vec<u8>, Fault>
    requires { length input.now ≤ MAX_MESH_BYTES }
    ensures reply { (solved : ℕ) → Replies (measure input.now) solved solved result }
    // A fault in the first line is reported whatever memory there is.
    ensures memory { IfErr result (IsMeshMemory input.now) }
{
    let mesh = read_byu(alloc, input)?;
    let parts = parts_measured(alloc, &mesh)?;
    let text = measures_text(alloc, &parts)?;
    Ok(text)
}
