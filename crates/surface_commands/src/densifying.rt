//! The command `densify`.
ghost use Rattle.std.specs.Prelude.{◌≡◌, ◌≤◌, ℕ, List, IfOk, IfErr, None, Some, length};
ghost use Rattle.fku_types.specs.Fault.{fault_words};
ghost use Rattle.section_core.specs.Texts.{IsTextOfFile};
ghost use Rattle.command_replies.specs.Reply.{IsWritten, Reply, counted, refusal_text, text_bytes};
ghost use Rattle.command_replies.specs.Stages.{AreSeveral, IsOnly, IsTextFault, on_objects};
ghost use Rattle.surface_commands.specs.Densify.{Densified, IsFoundBy, IsSameFault, densify, middle_words};

use command_replies::{
    Answer, AnswerText, Status, objects_in, only_sections, refusal_line, refused,
};
use fku_types::limits::MAX_CHECK_BYTES;
use fku_types::{Fault, NoMemory, fault_line};
use pair_pool::PairSolver;
use section_core::{Objects, Sections, print};
use section_slices::{DensifyFault, densify};
use std::alloc::Global;

// The same fault, as a fault of `densify`.
fn found(fault: Fault) -> DensifyFault
    ensures { IsSameFault fault result }
{
    match fault {
        Fault::NoMemory => DensifyFault::NoMemory,
        fault => DensifyFault::Found { fault },
    }
}

// The objects in a text, or its fault.
fn read(alloc: Global, input: &[u8]) -> Result<Objects, DensifyFault>
    requires { length input.now ≤ MAX_CHECK_BYTES }
    ensures text { IfOk result (IsTextOfFile input.now) }
    ensures fault { IfErr result (IsFoundBy (IsTextFault input.now)) }
{
    match objects_in(alloc, input) {
        Ok(objects) => Ok(objects),
        Err(fault) => Err(found(fault)),
    }
}

// The sections of the only object, or why there is none.
fn only<P: PairSolver>(
    alloc: Global,
    objects: Objects,
    solver: &P,
) -> Result<Sections, DensifyFault>
    ensures only { IfOk result (IsOnly objects) }
    ensures fault { IfErr result (IsFoundBy (AreSeveral objects)) }
{
    match only_sections(alloc, objects, solver) {
        Ok(sections) => Ok(sections),
        Err(fault) => Err(found(fault)),
    }
}

// The text of the densified sections of the one object in a text.
fn densified_text<P: PairSolver>(
    alloc: Global,
    input: &[u8],
    solver: &mut P,
) -> Result<Vec<u8>, DensifyFault>
    requires { length input.now ≤ MAX_CHECK_BYTES }
    ensures reply { Densified (on_objects densify input.now) (P.solved_pairs solver.old) (P.solved_pairs solver.new)
        result }
    ensures later { P.solved_pairs solver.old ≤ P.solved_pairs solver.new }
    ensures same_workers { P.worker_count solver.new ≡ P.worker_count solver.old }
{
    let objects = read(alloc, input)?;
    let sections = only(alloc, objects, &*solver)?;
    let made = densify(alloc, &sections, solver)?;
    let text = print(alloc, &made)?;
    Ok(text)
}

// The answer for a fault of the sections that `densify` would make; `NoMemory` has none.
fn refused_middle(fault: &Fault) -> Result<Answer, NoMemory>
    ensures status { IfOk result (λ a. a.status ≡ Status.Refused) }
    ensures text { IfOk result (λ a.
        (line : List ℕ) × (fault_words fault.now ≡ Some line) × (text_bytes a.text ≡ refusal_text (middle_words line))) }
    ensures memory { IfErr result (λ _. fault_words fault.now ≡ None) }
{
    let Some(line) = fault_line(fault) else {
        return Err(NoMemory);
    };
    Ok(Answer {
        status: Status::Refused,
        text: AnswerText::Line(refusal_line(b"28 MID ", &line)),
    })
}

/// The text of the one object in a text of at most `MAX_CHECK_BYTES` bytes, with rounded sections between those that
/// are far apart; or the refusal of the sections, or of those to be made; or `NoMemory`. The solver's count rises by
/// the pairs of the gaps that get a section, both for the text and for a refusal of the sections to be made.
pub fn densified<P: PairSolver>(
    alloc: Global,
    input: &[u8],
    solver: &mut P,
) -> Result<Answer, NoMemory>
    requires { length input.now ≤ MAX_CHECK_BYTES }
    ensures written { IfOk result (λ a.
        (reply : Reply) × (n : ℕ)
        × on_objects densify input.now reply
        × IsWritten reply a.status (text_bytes a.text) n
        × (P.solved_pairs solver.new ≡ counted n (P.solved_pairs solver.old))) }
    ensures later { P.solved_pairs solver.old ≤ P.solved_pairs solver.new }
    ensures same_workers { P.worker_count solver.new ≡ P.worker_count solver.old }
{
    match densified_text(alloc, input, solver) {
        Ok(text) => Ok(Answer {
            status: Status::Done,
            text: AnswerText::Made(text),
        }),
        Err(DensifyFault::Found { fault }) => refused(&fault),
        Err(DensifyFault::Mid { fault }) => refused_middle(&fault),
        Err(DensifyFault::NoMemory) => Err(NoMemory),
    }
}
