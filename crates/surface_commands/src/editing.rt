//! The command `edit`.
ghost use Rattle.std.specs.Prelude.{◌≡◌, ◌⊎◌, ◌≤◌, ◌++◌, codes, decimal, IfOk, OnOk, Ok, Err, [], drop, length, unwrap_or, IfErr};
ghost use Rattle.text_io.specs.Text.{words};
ghost use Rattle.text_io.specs.WordLists.{first_number, lines_of};
ghost use Rattle.section_edits.specs.declared.edit.EditFault.TheVariants as refusal;
ghost use Rattle.section_edits.specs.Words.{edit_fault_words};
ghost use Rattle.section_core.specs.declared.parts.Version.TheVariants as Version;
ghost use Rattle.section_text.specs.Fronts.{IsReadMemory};
ghost use Rattle.triangle_meshes.specs.Meshes.{surface_of, IsValid};
ghost use Rattle.command_replies.specs.Reply.{Replies, refusal_text};
ghost use Rattle.command_replies.specs.Stages.{on_front};
ghost use Rattle.surface_commands.specs.Edit.{answer_text, answer_words, edit, edit_sections};
ghost use Rattle.surface_commands.specs.EditSteps.{IsTailOf, kept_in, IsApplied, IsTextOfEdits, HasAnswered, HasEdited};

use crate::writing::SurfaceWriter;
use command_replies::only_sections;
use fku_types::limits::{MAX_CHECK_BYTES, MAX_EDITS};
use fku_types::{Fault, LimitName, NoMemory};
use pair_pool::PairSolver;
use section_core::Sections;
use section_edits::{Done, EditFault, Session, edit_fault_line, read_edit};
use section_text::parse_objects;
use std::alloc::{AllocError, Global};
use text_io::{kept_line_at, put, put_count};
use triangle_meshes::Mesh;

// The place where a tail begins: the byte, and the number of the line before it.
#[derive(Clone, Copy)]
struct Tail {
    at: usize,
    passed: u32,
}

// The number of the first kept line of a tail that is one edit too many.
fn line_too_many(input: &[u8], tail: Tail) -> Option<u32>
    requires tail { IsTailOf input.now tail }
    ensures { result ≡ first_number (drop MAX_EDITS (kept_in input.now tail)) }
{
    let mut at = tail.at;
    let mut number = tail.passed;
    for _ in 0..MAX_EDITS {
        let Some(line) = kept_line_at(input, at, number) else {
            return None;
        };
        at = line.next;
        number = line.number;
    }
    match kept_line_at(input, at, number) {
        Some(line) => Some(line.number),
        None => None,
    }
}

// Does what a line asks for, or returns why it is refused.
fn apply_line<P: PairSolver>(
    alloc: Global,
    line: &[u8],
    session: &mut Session,
    solver: &mut P,
) -> Result<Done, EditFault>
    ensures answer { (result ≡ Err refusal.NoMemory)
        ⊎ IsApplied session.old.sections (words line.now) result session.new.sections (P.solved_pairs solver.old)
        (P.solved_pairs solver.new) }
    ensures later { P.solved_pairs solver.old ≤ P.solved_pairs solver.new }
    ensures same_workers { P.worker_count solver.new ≡ P.worker_count solver.old }
{
    let edit = read_edit(alloc, line)?;
    session.apply(alloc, &edit, solver)
}

fn put_done(alloc: Global, out: &mut Vec<u8>, done: Done) -> Result<(), AllocError>
    ensures { OnOk result (out.new.items ≡ out.old.items ++ answer_words (Ok done)) }
{
    let solved = done.solved;
    let reused = done.reused;
    let words = format!(in alloc; "DONE solved {solved} reused {reused}\n")?;
    put(out, words.as_bytes())
}

// `NoMemory` has no words.
fn put_refusal(out: &mut Vec<u8>, fault: &EditFault) -> Result<(), NoMemory>
    ensures text { OnOk result
        (out.new.items ≡ out.old.items ++ refusal_text (unwrap_or (edit_fault_words fault.now) [])) }
    ensures told { OnOk result (fault.now ≡ refusal.NoMemory → ⊥) }
{
    let Some(words) = edit_fault_line(fault) else {
        return Err(NoMemory);
    };
    put(out, b"REFUSED ")?;
    put(out, &words)?;
    put(out, b"\n")?;
    Ok(())
}

// The line of an answer; `NoMemory` has none.
fn put_answer(
    alloc: Global,
    out: &mut Vec<u8>,
    number: usize,
    answer: &Result<Done, EditFault>,
) -> Result<(), NoMemory>
    ensures text { OnOk result (out.new.items ≡ out.old.items ++ answer_text number answer.now) }
    ensures told { OnOk result (answer.now ≡ Err refusal.NoMemory → ⊥) }
{
    let head = format!(in alloc; "EDIT {number} ")?;
    put(out, head.as_bytes())?;
    match answer {
        Ok(done) => Ok(put_done(alloc, out, *done)?),
        Err(fault) => put_refusal(out, fault),
    }
}

// Answers one line.
fn answer_line<P: PairSolver>(
    alloc: Global,
    out: &mut Vec<u8>,
    number: usize,
    line: &[u8],
    session: &mut Session,
    solver: &mut P,
) -> Result<(), NoMemory>
    ensures answered { OnOk result
        (HasAnswered session.old.sections (words line.now) number out.old.items out.new.items session.new.sections
        (P.solved_pairs solver.old) (P.solved_pairs solver.new)) }
    ensures later { P.solved_pairs solver.old ≤ P.solved_pairs solver.new }
    ensures same_workers { P.worker_count solver.new ≡ P.worker_count solver.old }
{
    let answer = apply_line(alloc, line, session, solver);
    put_answer(alloc, out, number, &answer)
}

// Answers all kept lines of a tail, and returns how many they are.
fn put_answers<P: PairSolver>(
    alloc: Global,
    out: &mut Vec<u8>,
    input: &[u8],
    tail: Tail,
    session: &mut Session,
    solver: &mut P,
) -> Result<usize, NoMemory>
    requires tail { IsTailOf input.now tail }
    ensures edited { IfOk result (λ n.
        HasEdited session.old.sections (lines_of (kept_in input.now tail)) n
        out.old.items out.new.items session.new.sections (P.solved_pairs solver.old)
        (P.solved_pairs solver.new)) }
    ensures later { P.solved_pairs solver.old ≤ P.solved_pairs solver.new }
    ensures same_workers { P.worker_count solver.new ≡ P.worker_count solver.old }
{
    let mut at = tail.at;
    let mut number = tail.passed;
    let mut count = 0;
    while let Some(line) = kept_line_at(input, at, number) {
        count += 1;
        answer_line(
            alloc,
            out,
            count,
            &input[line.first..line.end],
            session,
            solver,
        )?;
        at = line.next;
        number = line.number;
    }
    Ok(count)
}

// The line that tells how many answers there are.
fn put_total(out: &mut Vec<u8>, count: usize) -> Result<(), AllocError>
    ensures { OnOk result (out.new.items ≡ out.old.items ++ (codes "EDITS " ++ (decimal count ++ codes "\n"))) }
{
    put(out, b"EDITS ")?;
    put_count(out, count)?;
    put(out, b"\n")
}

fn put_mesh<W: SurfaceWriter>(
    alloc: Global,
    out: &mut Vec<u8>,
    mesh: &Mesh,
    writer: &W,
) -> Result<(), NoMemory>
    requires { IsValid (surface_of mesh.now) }
    ensures { OnOk result (out.new.items ≡ out.old.items ++ W.format (surface_of mesh.now)) }
{
    let surface = writer.write(alloc, mesh)?;
    Ok(put(out, &surface)?)
}

// Appends the answers to the edits of a tail, and the surface of the edited sections.
fn put_edits<P: PairSolver, W: SurfaceWriter>(
    alloc: Global,
    out: &mut Vec<u8>,
    input: &[u8],
    tail: Tail,
    session: &mut Session,
    solver: &mut P,
    writer: &W,
) -> Result<(), NoMemory>
    requires tail { IsTailOf input.now tail }
    ensures text { OnOk result
        (out.old.items ≡ [] → IsTextOfEdits W.format session.old.sections
        (lines_of (kept_in input.now tail)) out.new.items
        (P.solved_pairs solver.old) (P.solved_pairs solver.new)) }
    ensures later { P.solved_pairs solver.old ≤ P.solved_pairs solver.new }
    ensures same_workers { P.worker_count solver.new ≡ P.worker_count solver.old }
{
    let count = put_answers(alloc, out, input, tail, session, solver)?;
    put_total(out, count)?;
    let built = session.build(alloc)?;
    put_mesh(alloc, out, &built.mesh, writer)
}

// The text for the edits of a tail.
fn edits_text<P: PairSolver, W: SurfaceWriter>(
    alloc: Global,
    input: &[u8],
    tail: Tail,
    session: Session,
    solver: &mut P,
    writer: &W,
) -> Result<Vec<u8>, NoMemory>
    requires tail { IsTailOf input.now tail }
    ensures text { IfOk result (λ v.
        IsTextOfEdits W.format session.sections
        (lines_of (kept_in input.now tail))
        v.items (P.solved_pairs solver.old) (P.solved_pairs solver.new)) }
    ensures later { P.solved_pairs solver.old ≤ P.solved_pairs solver.new }
    ensures same_workers { P.worker_count solver.new ≡ P.worker_count solver.old }
{
    let mut session = session;
    let mut text = Vec::new(alloc);
    put_edits(alloc, &mut text, input, tail, &mut session, solver, writer)?;
    Ok(text)
}

// The reply for sections and the tail after them.
fn edit_sections<P: PairSolver, W: SurfaceWriter>(
    alloc: Global,
    input: &[u8],
    tail: Tail,
    sections: Sections,
    solver: &mut P,
    writer: &W,
) -> Result<Vec<u8>, Fault>
    requires tail { IsTailOf input.now tail }
    ensures reply { Replies
        (edit_sections W.format (kept_in input.now tail) sections)
        (P.solved_pairs solver.old) (P.solved_pairs solver.new) result }
    ensures same_workers { P.worker_count solver.new ≡ P.worker_count solver.old }
{
    if let Some(line) = line_too_many(input, tail) {
        // The faults of the sections come before this one.
        solver.find_pairs(alloc, &sections)?;
        return Err(Fault::Limit {
            limit: LimitName::Edits,
            line,
        });
    }
    let session = Session::open(alloc, sections, solver)?;
    let text = edits_text(alloc, input, tail, session, solver, writer)?;
    Ok(text)
}

/// The answers to the edits after the one object in a text of at most `MAX_CHECK_BYTES` bytes, and the surface of the
/// edited sections. Else the first fault of the text or of its sections, or that there are several objects or too many
/// lines; or `NoMemory`. `Ok` raises the solver's count by the number of the sections' pairs, and then for each edit by
/// just the new pairs, whose points and cost rule no pair before it has. The contract states this count, not that
/// nothing else solves pairs.
pub fn edits<P: PairSolver, W: SurfaceWriter>(
    alloc: Global,
    input: &[u8],
    solver: &mut P,
    writer: &W,
) -> Result<Vec<u8>, Fault>
    requires { length input.now ≤ MAX_CHECK_BYTES }
    ensures reply { Replies (on_front (edit W.format) input.now) (P.solved_pairs solver.old)
        (P.solved_pairs solver.new) result }
    ensures same_workers { P.worker_count solver.new ≡ P.worker_count solver.old }
    // A fault in the first four kept lines, or the end of the text before a fourth, is reported whatever memory there
    // is.
    ensures memory { IfErr result (IsReadMemory Version.Two input.now) }
{
    let front = parse_objects(alloc, input)?;
    let tail = Tail {
        at: front.used,
        passed: front.lines,
    };
    let sections = only_sections(alloc, front.objects, &*solver)?;
    edit_sections(alloc, input, tail, sections, solver, writer)
}
