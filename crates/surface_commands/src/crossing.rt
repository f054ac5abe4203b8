//! The command `crossings`.
ghost use Rattle.std.specs.Prelude.{◌≡◌, ◌≤◌, ◌+◌, ◌++◌, ℕ, IfOk, OnOk, length, IfErr};
ghost use Rattle.triangle_meshes.specs.Meshes.{surface_of, IsValid};
ghost use Rattle.byu_text.specs.Answers.{IsMeshMemory};
ghost use Rattle.command_replies.specs.Reply.{Replies};
ghost use Rattle.surface_commands.specs.Crossings.{cross_line, cross_lines, crossed_text, crossings, crossings_text};

use crate::counting::put_parts;
use byu_text::read_byu;
use fku_types::limits::{MAX_MESH_BYTES, MAX_MESH_TRIANGLES};
use fku_types::{Fault, NoMemory};
use mesh_measures::{CrossingCounts, crossings};
use std::alloc::{AllocError, Global};
use text_io::{put, put_count};
use triangle_meshes::Mesh;

fn put_cross(out: &mut Vec<u8>, polygon: usize, count: u32) -> Result<(), AllocError>
    ensures { OnOk result (out.new.items ≡ out.old.items ++ cross_line polygon count) }
{
    if count == 0 {
        return Ok(());
    }
    put(out, b"CROSS ")?;
    put_count(out, polygon)?;
    put(out, b" ")?;
    put_count(out, count as usize)?;
    put(out, b"\n")
}

// The lines of the polygons of a part, of which the first has this number in the file.
fn put_crosses(out: &mut Vec<u8>, first: usize, counts: &[u32]) -> Result<(), AllocError>
    requires { first + length counts.now ≤ MAX_MESH_TRIANGLES + 1 }
    ensures { OnOk result (out.new.items ≡ out.old.items ++ cross_lines first counts.now) }
{
    for (place, count) in counts.iter().enumerate() {
        put_cross(out, first + place, *count)?;
    }
    Ok(())
}

// Appends the lines of a part to a text.
fn put_crossings(
    out: &mut Vec<u8>,
    number: usize,
    first: usize,
    found: &CrossingCounts,
) -> Result<(), AllocError>
    requires { first + length found.now.counts.items ≤ MAX_MESH_TRIANGLES + 1 }
    ensures { OnOk result (out.new.items
        ≡ out.old.items ++ crossed_text number first found.now.counts.items found.now.pairs) }
{
    put(out, b"PART ")?;
    put_count(out, number)?;
    put(out, b"\n")?;
    put_crosses(out, first, &found.counts)?;
    put(out, b"CROSSINGS ")?;
    put_count(out, found.pairs as usize)?;
    put(out, b"\n")
}

fn crossings_text(alloc: Global, mesh: &Mesh) -> Result<Vec<u8>, NoMemory>
    requires { IsValid (surface_of mesh.now) }
    ensures { IfOk result (λ v. v.items ≡ crossings_text (surface_of mesh.now)) }
{
    let mut text = Vec::new(alloc);
    put_parts(&mut text, mesh.parts.len())?;
    let mut first = 1;
    for (place, part) in mesh.parts.iter().enumerate() {
        let found = crossings(alloc, &mesh.vertices, part)?;
        put_crossings(&mut text, place + 1, first, &found)?;
        first += part.len();
    }
    Ok(text)
}

/// The triangles that cross within each part of a mesh. The input is its MOVIE.BYU text, of at most `MAX_MESH_BYTES`
/// bytes; else the input's fault; or `NoMemory`. It takes no solver.
pub fn crossed(alloc: Global, input: &[u8]) -> Result<Vec<u8>, Fault>
    requires { length input.now ≤ MAX_MESH_BYTES }
    ensures reply { (solved : ℕ) → Replies (crossings input.now) solved solved result }
    // A fault in the first line is reported whatever memory there is.
    ensures memory { IfErr result (IsMeshMemory input.now) }
{
    let mesh = read_byu(alloc, input)?;
    let text = crossings_text(alloc, &mesh)?;
    Ok(text)
}
