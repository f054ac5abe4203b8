//! The command `tilings`.
ghost use Rattle.std.specs.Prelude.{◌≡◌, ◌+◌, ◌≤◌, ◌++◌, [], map, drop, length, string_bytes, IfOk, OnOk, IfErr};
ghost use Rattle.section_core.specs.Views.{contour_parts, section_parts};
ghost use Rattle.surface_core.specs.Objects.{numbered, pair_lists};
ghost use Rattle.section_pairs.specs.Pairs.{pair_parts};
ghost use Rattle.section_core.specs.declared.parts.Version.TheVariants as Version;
ghost use Rattle.section_text.specs.Fronts.{IsReadMemory};
ghost use Rattle.command_replies.specs.Reply.{Replies};
ghost use Rattle.command_replies.specs.Stages.{on_objects};
ghost use Rattle.pair_commands.specs.Tilings.{contours_at, blank_and_name, names_text, number_text, members_text, counts_text, pair_text, pairs_text, tilings, tilings_text};

use cert_checker::put_letters;
use command_replies::{objects_in, put_object};
use fku_types::limits::MAX_CHECK_BYTES;
use fku_types::{Fault, NoMemory};
use pair_pool::PairSolver;
use row_paths::Solved;
use section_core::{Contour, Objects, Section};
use section_pairs::GapPair;
use std::alloc::{AllocError, Global};
use surface_core::{all_strips, pairs_all};
use text_io::{put, put_count};

fn contours_at(sections: &[Section], place: usize) -> &[Contour]
    ensures { map contour_parts result.now ≡ contours_at (map section_parts sections.now) place }
{
    match sections.get(place) {
        Some(section) => section.contours.as_slice(),
        None => &[],
    }
}

fn put_name(out: &mut Vec<u8>, contours: &[Contour], place: usize) -> Result<(), AllocError>
    ensures { OnOk result (out.new.items ≡ out.old.items ++ blank_and_name (map contour_parts contours.now) place) }
{
    match contours.get(place) {
        Some(contour) => {
            put(out, b" ")?;
            put(out, contour.name.as_bytes())
        }
        None => Ok(()),
    }
}

fn put_names(out: &mut Vec<u8>, contours: &[Contour], places: &[u32]) -> Result<(), AllocError>
    ensures { OnOk result (out.new.items ≡ out.old.items ++ names_text (map contour_parts contours.now) places.now) }
{
    for place in places {
        put_name(out, contours, *place as usize)?;
    }
    Ok(())
}

fn number_line(alloc: Global, number: usize, gap: u32) -> Result<String, AllocError>
    ensures { IfOk result (λ s. string_bytes s ≡ number_text number gap) }
{
    let above = u64::from(gap) + 1;
    format!(in alloc; "PAIR {number} GAP {above}\nBELOW")
}

fn put_members(out: &mut Vec<u8>, sections: &[Section], pair: &GapPair) -> Result<(), AllocError>
    ensures { OnOk result
        (out.new.items ≡ out.old.items ++ members_text (map section_parts sections.now) (pair_parts pair.now)) }
{
    let gap = pair.gap as usize;
    put_names(out, contours_at(sections, gap), &pair.below)?;
    put(out, b"\nABOVE")?;
    put_names(out, contours_at(sections, gap + 1), &pair.above)
}

fn counts_text(alloc: Global, pair: &GapPair, solved: &Solved) -> Result<String, AllocError>
    ensures { IfOk result (λ s. string_bytes s ≡ counts_text (pair_parts pair.now) solved.now) }
{
    let rows = pair.pair.low().points.len();
    let cols = pair.pair.high().points.len();
    let cost = solved.cost();
    let row = solved.tiling().row;
    format!(in alloc; "\nROWS {rows} COLS {cols} COST {cost} START {row}\nWORD ")
}

fn put_pair(
    alloc: Global,
    out: &mut Vec<u8>,
    sections: &[Section],
    number: usize,
    pair: &GapPair,
    solved: &Solved,
) -> Result<(), AllocError>
    ensures { OnOk result
        (out.new.items
        ≡ out.old.items ++ pair_text (map section_parts sections.now) number (pair_parts pair.now) solved.now) }
{
    let line = number_line(alloc, number, pair.gap)?;
    put(out, line.as_bytes())?;
    put_members(out, sections, pair)?;
    let counts = counts_text(alloc, pair, solved)?;
    put(out, counts.as_bytes())?;
    put_letters(out, &solved.tiling().word)?;
    put(out, b"\n")
}

// The lines of the pairs of an object, after those of others, each with its solution.
fn put_pairs(
    alloc: Global,
    out: &mut Vec<u8>,
    sections: &[Section],
    before: usize,
    pairs: &[GapPair],
    solved: &[Solved],
) -> Result<(), AllocError>
    requires { before + length pairs.now ≤ length solved.now }
    ensures { OnOk result
        (out.new.items
        ≡ out.old.items
        ++ pairs_text (map section_parts sections.now) (before + 1) (map pair_parts pairs.now)
        (drop before solved.now)) }
{
    for i in 0..pairs.len() {
        let place = before + i;
        put_pair(alloc, out, sections, place + 1, &pairs[i], &solved[place])?;
    }
    Ok(())
}

// The text of the pairs of all objects, each with its solution.
fn tilings_text(
    alloc: Global,
    objects: &Objects,
    pairs: &[Vec<GapPair>],
    solved: &[Solved],
) -> Result<Vec<u8>, NoMemory>
    requires objects { length pairs.now ≡ length objects.now.objects }
    requires pairs { length solved.now ≡ length (numbered (pair_lists pairs.now)) }
    ensures { IfOk result (λ v. v.items ≡ tilings_text objects.now (pair_lists pairs.now) solved.now) }
{
    let (version, items) = (objects.version(), objects.items());
    let mut text = Vec::new(alloc);
    let mut count = 0;
    for i in 0..items.len() {
        let (object, list) = (&items[i], pairs[i].as_slice());
        put_object(&mut text, version, &object.name)?;
        put_pairs(
            alloc,
            &mut text,
            object.sections.sections(),
            count,
            list,
            solved,
        )?;
        count += list.len();
    }
    put(&mut text, b"PAIRS ")?;
    put_count(&mut text, count)?;
    put(&mut text, b"\n")?;
    Ok(text)
}

/// The chosen tiling of each pair of the objects in a text of at most `MAX_CHECK_BYTES` bytes. Else the first fault of
/// the text or of its objects; or `NoMemory`. `Ok` raises the solver's count by the number of pairs, up to its last
/// value; no fault but `NoMemory` raises it.
pub fn tilings<P: PairSolver>(alloc: Global, input: &[u8], solver: &mut P) -> Result<Vec<u8>, Fault>
    requires { length input.now ≤ MAX_CHECK_BYTES }
    ensures reply { Replies (on_objects tilings input.now) (P.solved_pairs solver.old) (P.solved_pairs solver.new)
        result }
    ensures same_workers { P.worker_count solver.new ≡ P.worker_count solver.old }
    // A fault in the first four kept lines, or the end of the text before a fourth, is reported whatever memory there
    // is.
    ensures memory { IfErr result (IsReadMemory Version.Two input.now) }
{
    let objects = objects_in(alloc, input)?;
    let pairs = pairs_all(alloc, &objects, &*solver)?;
    let strips = all_strips(alloc, &pairs)?;
    let solved = solver.solve_each(alloc, &strips)?;
    let text = tilings_text(alloc, &objects, &pairs, &solved)?;
    Ok(text)
}
