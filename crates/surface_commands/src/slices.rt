//! The command `slice`.
ghost use Rattle.std.specs.Prelude.{◌≡◌, ◌≤◌, ◌++◌, length, IfOk, IfErr, OnOk, string_bytes};
ghost use Rattle.std.specs.List.{flat_map};
ghost use Rattle.fku_types.specs.Points.{IsCoordinate};
ghost use Rattle.section_core.specs.Objects.{object_parts};
ghost use Rattle.section_core.specs.Parts.{version_number};
ghost use Rattle.section_core.specs.declared.parts.Version.{Version as HeldVersion};
ghost use Rattle.section_core.specs.declared.parts.Version.TheVariants as Version;
ghost use Rattle.section_text.specs.Fronts.{IsReadMemory};
ghost use Rattle.command_replies.specs.Reply.{Replies};
ghost use Rattle.command_replies.specs.Stages.{on_objects};
ghost use Rattle.surface_commands.specs.Slice.{IsHeightFaultOfAll, cut_text, cuts_text, loop_text, height_text, object_cut, slice, slice_text};
ghost use Rattle.surface_commands.specs.SliceSteps.{FitsHeight, is_outside};

use command_replies::{objects_in, put_object};
use fku_types::Fault;
use fku_types::limits::MAX_CHECK_BYTES;
use pair_pool::PairSolver;
use section_core::{Object, Objects};
use section_slices::{SliceLoops, slice_all, test_height};
use std::alloc::{AllocError, Global};
use strip_graph::Cut;
use surface_core::pairs_all;
use text_io::{put, put_count, put_number};

fn put_cut(out: &mut Vec<u8>, cut: Cut) -> Result<(), AllocError>
    ensures { OnOk result (out.new.items ≡ out.old.items ++ cut_text cut) }
{
    put_number(out, cut.x)?;
    put(out, b" ")?;
    put_number(out, cut.y)?;
    put(out, b"\n")
}

fn put_cuts(out: &mut Vec<u8>, cuts: &[Cut]) -> Result<(), AllocError>
    ensures { OnOk result (out.new.items ≡ out.old.items ++ flat_map cut_text cuts.now) }
{
    for cut in cuts {
        put_cut(out, *cut)?;
    }
    Ok(())
}

fn put_loop(out: &mut Vec<u8>, cuts: &[Cut]) -> Result<(), AllocError>
    ensures { OnOk result (out.new.items ≡ out.old.items ++ loop_text cuts.now) }
{
    put(out, b"LOOP ")?;
    put_count(out, cuts.len())?;
    put(out, b"\n")?;
    put_cuts(out, cuts)
}

fn put_loops(out: &mut Vec<u8>, loops: &[Vec<Cut>]) -> Result<(), AllocError>
    ensures { OnOk result (out.new.items ≡ out.old.items ++ flat_map (λ v. loop_text v.items) loops.now) }
{
    for cuts in loops {
        put_loop(out, cuts)?;
    }
    Ok(())
}

fn height_line(alloc: Global, z: i32, den: i32, count: usize) -> Result<String, AllocError>
    ensures { IfOk result (λ s. string_bytes s ≡ height_text z den count) }
{
    format!(in alloc; "SLICE {z} DEN {den} LOOPS {count}\n")
}

fn put_slice(alloc: Global, out: &mut Vec<u8>, z: i32, slice: &SliceLoops) -> Result<(), AllocError>
    ensures { OnOk result (out.new.items ≡ out.old.items ++ slice_text z slice.now) }
{
    let line = height_line(alloc, z, slice.den, slice.loops.len())?;
    put(out, line.as_bytes())?;
    put_loops(out, &slice.loops)
}

fn is_outside(fault: &Fault) -> bool
    ensures { result ≡ is_outside fault.now }
{
    match fault {
        Fault::Outside { .. } => true,
        _ => false,
    }
}

// Tests that the height lies between two of some object, and is that of a section of none.
fn test_heights(objects: &Objects, z: i32) -> Result<(), Fault>
    requires { IsCoordinate z }
    ensures fits { OnOk result (FitsHeight objects.now z) }
    ensures fault { IfErr result (IsHeightFaultOfAll objects.now z) }
{
    let mut is_cut = false;
    for object in objects.items() {
        match test_height(&object.sections, z) {
            Ok(()) => is_cut = true,
            Err(fault) => {
                if !is_outside(&fault) {
                    return Err(fault);
                }
            }
        }
    }
    if is_cut {
        Ok(())
    } else {
        Err(Fault::Outside { z })
    }
}

// Appends the slice of an object after its name, and nothing if it has none.
fn put_cut_of(
    alloc: Global,
    out: &mut Vec<u8>,
    version: u32,
    object: &Object,
    cut: &Option<SliceLoops>,
    z: i32,
) -> Result<(), AllocError>
    ensures { OnOk result
        ((v : HeldVersion) → version ≡ version_number v
        → out.new.items ≡ out.old.items ++ object_cut v z (object_parts object.now) cut.now) }
{
    match cut {
        Some(slice) => {
            put_object(out, version, &object.name)?;
            put_slice(alloc, out, z, slice)
        }
        None => Ok(()),
    }
}

// The slices of all objects.
fn cuts_text(
    alloc: Global,
    objects: &Objects,
    cuts: &[Option<SliceLoops>],
    z: i32,
) -> Result<Vec<u8>, AllocError>
    requires { length cuts.now ≡ length objects.now.objects }
    ensures { IfOk result (λ v. v.items ≡ cuts_text objects.now.version z objects.now.objects cuts.now) }
{
    let (version, items) = (objects.version(), objects.items());
    let mut text = Vec::new(alloc);
    for i in 0..items.len() {
        put_cut_of(alloc, &mut text, version, &items[i], &cuts[i], z)?;
    }
    Ok(text)
}

/// The loops of the surface of the objects in a text of at most `MAX_CHECK_BYTES` bytes, at a height that is a
/// coordinate. Else the first fault of the text, of its objects or of the height; or `NoMemory`. `Ok` raises the
/// solver's count by the number of loops, up to its last value.
pub fn loops<P: PairSolver>(
    alloc: Global,
    input: &[u8],
    height: i32,
    solver: &mut P,
) -> Result<Vec<u8>, Fault>
    requires short { length input.now ≤ MAX_CHECK_BYTES }
    requires height { IsCoordinate height }
    ensures reply { Replies (on_objects (slice height) input.now) (P.solved_pairs solver.old)
        (P.solved_pairs solver.new) result }
    ensures same_workers { P.worker_count solver.new ≡ P.worker_count solver.old }
    // A fault in the first four kept lines, or the end of the text before a fourth, is reported whatever memory there
    // is.
    ensures memory { IfErr result (IsReadMemory Version.Two input.now) }
{
    let objects = objects_in(alloc, input)?;
    let pairs = pairs_all(alloc, &objects, &*solver)?;
    test_heights(&objects, height)?;
    let cuts = slice_all(alloc, &objects, &pairs, solver, height)?;
    let text = cuts_text(alloc, &objects, &cuts, height)?;
    Ok(text)
}
