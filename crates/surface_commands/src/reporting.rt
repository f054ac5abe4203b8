//! The commands `report` and `demo`.
ghost use Rattle.std.specs.Prelude.{◌≡◌, ◌≤◌, ◌<◌, ◌^◌, ◌++◌, List, IfOk, length, string_bytes, sum_by, IfErr};
ghost use Rattle.section_core.specs.Parts.{SectionParts, all_sections, contours_of};
ghost use Rattle.triangle_meshes.specs.Meshes.{surface_of, IsValid};
ghost use Rattle.plane_geom.specs.Rings.{origin};
ghost use Rattle.triangle_meshes.specs.Volumes.{six_volume};
ghost use Rattle.section_core.specs.declared.parts.Version.TheVariants as Version;
ghost use Rattle.section_text.specs.Fronts.{IsReadMemory};
ghost use Rattle.command_replies.specs.Reply.{Replies};
ghost use Rattle.command_replies.specs.Stages.{on_objects};
ghost use Rattle.surface_commands.specs.Report.{sizes_text, four_measures, report, report_text, demo_line, demo_report};

use command_replies::objects_in;
use demo_stack::demo_sections;
use fku_types::limits::{MAX_CHECK_BYTES, MAX_CONTOURS, MAX_DEMO_SECTIONS, MAX_DEMO_VERTICES};
use fku_types::{Fault, NoMemory};
use pair_pool::PairSolver;
use section_core::{Objects, Section};
use std::alloc::{AllocError, Global};
use surface_core::{Built, surface, surface_all};
use triangle_meshes::{six_volume, triangle_count};

// How many contours sections have.
fn contours_in(sections: &[Section]) -> usize
    requires { sum_by (λ s. length s.contours.items) sections.now ≤ MAX_CONTOURS }
    ensures { result ≡ sum_by (λ s. length s.contours.items) sections.now }
{
    let mut count = 0;
    for section in sections {
        count += section.contours.len();
    }
    count
}

fn sizes_text(
    alloc: Global,
    sections: usize,
    contours: usize,
    vertices: usize,
    triangles: usize,
) -> Result<String, AllocError>
    ensures { IfOk result (λ s. string_bytes s ≡ sizes_text sections contours vertices triangles) }
{
    format!(in alloc;
        "SECTIONS {sections}\nCONTOURS {contours}\nVERTICES {vertices}\nTRIANGLES {triangles}\n"
    )
}

fn measures_text(
    alloc: Global,
    folded: u32,
    pairs: u32,
    cost: i128,
    volume: i128,
) -> Result<String, AllocError>
    ensures { IfOk result (λ s. string_bytes s ≡ four_measures folded pairs cost volume) }
{
    format!(in alloc; "FOLDED {folded}\nPAIRS {pairs}\nCOST {cost}\nSIXVOLUME {volume}\n")
}

// After a head, the eight lines on sections, with their numbers of sections and contours, and on their surface, with
// six times the volume of its mesh.
fn report_text(
    alloc: Global,
    head: &[u8],
    sections: usize,
    contours: usize,
    built: &Built,
    volume: i128,
) -> Result<Vec<u8>, NoMemory>
    requires valid { IsValid (surface_of built.now.mesh) }
    requires volume { volume ≡ six_volume (surface_of built.now.mesh) origin }
    ensures { (all : List SectionParts) → sections ≡ length all
        → contours ≡ length (contours_of all)
        → IfOk result (λ v. v.items ≡ head.now ++ report_text all built.now) }
{
    let triangles = triangle_count(&built.mesh);
    let vertices = built.mesh.vertices.len();
    let sizes = sizes_text(alloc, sections, contours, vertices, triangles)?;
    let measures = measures_text(alloc, built.folded, built.pairs, built.cost, volume)?;
    let mut text = Vec::from_slice(alloc, head)?;
    text.extend_from_slice(sizes.as_bytes())?;
    text.extend_from_slice(measures.as_bytes())?;
    Ok(text)
}

// How many sections objects have.
fn count_sections(objects: &Objects) -> usize
    ensures { result ≡ length (all_sections objects.now.objects) }
{
    let mut count = 0;
    for object in objects.items() {
        count += object.sections.sections().len();
    }
    count
}

// How many contours objects have.
fn count_contours(objects: &Objects) -> usize
    ensures { result ≡ length (contours_of (all_sections objects.now.objects)) }
{
    let mut count = 0;
    for object in objects.items() {
        count += contours_in(object.sections.sections());
    }
    count
}

/// The counts of the surface of the objects in a text of at most `MAX_CHECK_BYTES` bytes. Else the first fault of the
/// text or of its objects; or `NoMemory`. `Ok` raises the solver's count by the number of pairs, up to its last value.
pub fn report<P: PairSolver>(alloc: Global, input: &[u8], solver: &mut P) -> Result<Vec<u8>, Fault>
    requires { length input.now ≤ MAX_CHECK_BYTES }
    ensures reply { Replies (on_objects report input.now) (P.solved_pairs solver.old) (P.solved_pairs solver.new)
        result }
    ensures same_workers { P.worker_count solver.new ≡ P.worker_count solver.old }
    // A fault in the first four kept lines, or the end of the text before a fourth, is reported whatever memory there
    // is.
    ensures memory { IfErr result (IsReadMemory Version.Two input.now) }
{
    let objects = objects_in(alloc, input)?;
    let built = surface_all(alloc, &objects, solver)?;
    let (sections, contours) = (count_sections(&objects), count_contours(&objects));
    let volume = six_volume(&built.mesh);
    let text = report_text(alloc, &[], sections, contours, &built, volume)?;
    Ok(text)
}

fn demo_line(alloc: Global, seed: u32, sections: u32, vertices: u32) -> Result<String, AllocError>
    ensures { IfOk result (λ s. string_bytes s ≡ demo_line seed sections vertices) }
{
    format!(in alloc; "DEMO {seed} {sections} {vertices}\n")
}

/// The line of a stack that is made from a seed, with 1 to `MAX_DEMO_SECTIONS` sections of 3 to `MAX_DEMO_VERTICES`
/// vertices each, and the counts of its surface; or the first fault of its sections; or `NoMemory`. `Ok` raises the
/// solver's count by the number of pairs, up to its last value.
pub fn demo<P: PairSolver>(
    alloc: Global,
    seed: u32,
    sections: u32,
    vertices: u32,
    solver: &mut P,
) -> Result<Vec<u8>, Fault>
    requires seed { seed < 2 ^ 31 }
    requires some_section { 1 ≤ sections }
    requires few_sections { sections ≤ MAX_DEMO_SECTIONS }
    requires enough_vertices { 3 ≤ vertices }
    requires few_vertices { vertices ≤ MAX_DEMO_VERTICES }
    ensures reply { Replies (demo_report seed sections vertices) (P.solved_pairs solver.old) (P.solved_pairs solver.new)
        result }
    ensures same_workers { P.worker_count solver.new ≡ P.worker_count solver.old }
{
    let made = demo_sections(alloc, seed, sections, vertices)?;
    let line = demo_line(alloc, seed, sections, vertices)?;
    let built = surface(alloc, &made, solver)?;
    let (sections, contours) = (made.sections().len(), contours_in(made.sections()));
    let volume = six_volume(&built.mesh);
    let text = report_text(alloc, line.as_bytes(), sections, contours, &built, volume)?;
    Ok(text)
}
