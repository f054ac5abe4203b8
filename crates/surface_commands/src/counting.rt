//! The command `count`.
ghost use Rattle.std.specs.Prelude.{◌≡◌, ◌≤◌, ◌++◌, ℕ, IfOk, OnOk, length, string_bytes, IfErr};
ghost use Rattle.byu_text.specs.Answers.{IsMeshMemory};
ghost use Rattle.command_replies.specs.Reply.{Replies};
ghost use Rattle.surface_commands.specs.Count.{count, has_text, yes_or_no};
ghost use Rattle.surface_commands.specs.MeshTexts.{parts_line};

use byu_text::read_byu;
use fku_types::limits::MAX_MESH_BYTES;
use fku_types::{Fault, NoMemory};
use mesh_measures::{MeshCounts, counts};
use std::alloc::{AllocError, Global};
use text_io::{put, put_count};

/// Appends the line with the number of a mesh's parts to a text.
pub(crate) fn put_parts(out: &mut Vec<u8>, parts: usize) -> Result<(), AllocError>
    ensures { OnOk result (out.new.items ≡ out.old.items ++ parts_line parts) }
{
    put(out, b"PARTS ")?;
    put_count(out, parts)?;
    put(out, b"\n")
}

fn yes_or_no(yes: bool) -> &'static str
    ensures { result.now ≡ yes_or_no yes }
{
    if yes { "yes" } else { "no" }
}

fn has_line(
    alloc: Global,
    parts: u32,
    vertices: u32,
    polygons: u32,
    edges: u32,
    closed: bool,
) -> Result<String, AllocError>
    ensures { IfOk result (λ s. string_bytes s ≡ has_text parts vertices polygons edges closed) }
{
    let word = yes_or_no(closed);
    format!(in alloc;
        "PARTS {parts}\nVERTICES {vertices}\nPOLYGONS {polygons}\nEDGES {edges}\nCLOSED {word}\n"
    )
}

// The five lines of counts.
fn count_text(alloc: Global, counts: MeshCounts) -> Result<Vec<u8>, NoMemory>
    ensures { IfOk result (λ v.
        v.items ≡ has_text counts.parts counts.vertices counts.polygons counts.edges counts.closed) }
{
    let MeshCounts {
        parts,
        vertices,
        polygons,
        edges,
        closed,
    } = counts;
    let lines = has_line(alloc, parts, vertices, polygons, edges, closed)?;
    Ok(Vec::from_slice(alloc, lines.as_bytes())?)
}

/// The counts of a MOVIE.BYU text of at most `MAX_MESH_BYTES` bytes. Else its fault; or `NoMemory`. It takes no solver.
pub fn count(alloc: Global, input: &[u8]) -> Result<Vec<u8>, Fault>
    requires { length input.now ≤ MAX_MESH_BYTES }
    ensures reply { (solved : ℕ) → Replies (count input.now) solved solved result }
    // A fault in the first line is reported whatever memory there is.
    ensures memory { IfErr result (IsMeshMemory input.now) }
{
    let mesh = read_byu(alloc, input)?;
    let counts = counts(alloc, &mesh)?;
    let text = count_text(alloc, counts)?;
    Ok(text)
}
