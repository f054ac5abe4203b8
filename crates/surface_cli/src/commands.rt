//! The commands. A new one is here a variant of `Command`, its name in `USAGE`, a line of `meaning_at` and a line of
//! `text_of`; its words, its limit and its rule stand in `specs/Commands.antt`.
ghost use Rattle.std.specs.Prelude.{◌≡◌, ◌≤◌, ℕ, IfOk, IfSome, Ok, None, false, map, string_bytes};
ghost use Rattle.command_replies.specs.Reply.{IsWritten, Replies, Reply, counted, text_bytes};
ghost use Rattle.surface_cli.specs.Commands.{commands, input_limit, rule_of};
ghost use Rattle.surface_cli.specs.Words.{AreValuesInRange, IsTaskInRange, is_command, meaning_among};
ghost use Rattle.surface_cli.specs.Run.{IsInputWithin};

use crate::formats::Byu;
use crate::replies::told;
use crate::words::{Task, bare_task, certify_task, demo_task, plain_task, slice_task};
use command_replies::{Answer, Status};
use fku_types::limits::{MAX_CHECK_BYTES, MAX_INPUT_BYTES, MAX_MESH_BYTES};
use fku_types::{Fault, NoMemory};
use pair_commands::{certify, landmarks, tilings, verdict};
use pair_pool::PairSolver;
use std::alloc::Global;
use surface_commands::{
    count, crossed, demo, densified, edits, loops, measured, reconstruct, report, ring_caps,
};

/// A command with the values of its options and positionals, except `--workers`.
#[derive(Clone, Copy, Debug, PartialEq, Eq)]
pub enum Command {
    /// `tilings [--workers W]`: the chosen tiling of each pair.
    Tilings,
    /// `reconstruct [--workers W]`: the surface.
    Reconstruct,
    /// `report [--workers W]`: the counts of the surface.
    Report,
    /// `certify [--pair K]`: a certificate that the chosen tiling of a pair is least. Pairs are numbered from 1 to
    /// `MAX_PAIRS`.
    Certify {
        pair: u32,
    },
    /// `check`: the verdict on a certificate that follows sections.
    Check,
    /// `slice --height=Z [--workers W]`: the surface cut at a height, a coordinate.
    Slice {
        height: i32,
    },
    /// `edit [--workers W]`: edits of the sections, and the surface of the edited sections.
    Edit,
    /// `demo SEED SECTIONS VERTICES [--workers W]`: the counts of a generated stack of 1 to `MAX_DEMO_SECTIONS`
    /// sections, each of 3 to `MAX_DEMO_VERTICES` vertices, made from a seed below 2 to the 31st.
    Demo {
        seed: u32,
        sections: u32,
        vertices: u32,
    },
    /// `landmarks [--workers W]`: the least tilings that contain marked spans.
    Landmarks,
    /// `ringcaps [--workers W]`: the surface with one cap for an outline and the holes that end with it.
    RingCaps,
    /// `count`: the counts of a MOVIE.BYU text.
    Count,
    /// `densify [--workers W]`: the sections, with rounded sections between those that are far apart.
    Densify,
    /// `measure`: the measures of the parts of a mesh, from its MOVIE.BYU text.
    Measure,
    /// `crossings`: the triangles of such a mesh that cross.
    Crossings,
}

/// The line for a usage error.
pub(crate) const USAGE: &[u8] =
    b"USAGE fku tilings|reconstruct|report|certify|check|slice|edit|demo|landmarks|ringcaps|count|densify|measure|crossings\n";

/// The meaning of the words, the first of which is `name`.
pub(crate) fn meaning_at(
    alloc: Global,
    name: &str,
    words: &[String],
) -> Result<Option<Task>, NoMemory>
    ensures meaning { IfOk result (λ m. m ≡ meaning_among commands name.now (map string_bytes words.now)) }
    ensures in_range { IfOk result (λ m. IfSome m IsTaskInRange) }
    ensures unnamed { is_command name.now ≡ false → result ≡ Ok None }
{
    match name {
        "tilings" => plain_task(alloc, "tilings", Command::Tilings, words),
        "reconstruct" => plain_task(alloc, "reconstruct", Command::Reconstruct, words),
        "report" => plain_task(alloc, "report", Command::Report, words),
        "certify" => certify_task(alloc, words),
        "check" => bare_task(alloc, "check", Command::Check, words),
        "slice" => slice_task(alloc, words),
        "edit" => plain_task(alloc, "edit", Command::Edit, words),
        "demo" => demo_task(alloc, words),
        "landmarks" => plain_task(alloc, "landmarks", Command::Landmarks, words),
        "ringcaps" => plain_task(alloc, "ringcaps", Command::RingCaps, words),
        "count" => bare_task(alloc, "count", Command::Count, words),
        "densify" => plain_task(alloc, "densify", Command::Densify, words),
        "measure" => bare_task(alloc, "measure", Command::Measure, words),
        "crossings" => bare_task(alloc, "crossings", Command::Crossings, words),
        _ => Ok(None),
    }
}

/// How many bytes of its input a command reads at most; none for a command that reads nothing.
pub(crate) fn input_limit(command: Command) -> Option<usize>
    ensures { result ≡ input_limit command }
{
    match command {
        Command::Check => Some(MAX_CHECK_BYTES),
        Command::Demo { .. } => None,
        Command::Count | Command::Measure | Command::Crossings => Some(MAX_MESH_BYTES),
        _ => Some(MAX_INPUT_BYTES),
    }
}

// The text of a command for the bytes that it has read, or the fault by which it refuses them. `densify` may refuse with
// words that no fault has, and gives an answer of its own.
fn text_of<P: PairSolver>(
    alloc: Global,
    command: Command,
    input: &[u8],
    solver: &mut P,
) -> Result<Vec<u8>, Fault>
    requires within { IsInputWithin command input.now }
    requires range { AreValuesInRange command }
    requires other { command ≡ Command.Densify → ⊥ }
    ensures reply { Replies (rule_of command input.now) (P.solved_pairs solver.old) (P.solved_pairs solver.new) result }
    ensures same_workers { P.worker_count solver.new ≡ P.worker_count solver.old }
{
    match command {
        Command::Tilings => tilings(alloc, input, solver),
        Command::Reconstruct => reconstruct(alloc, input, solver, &Byu {}),
        Command::Report => report(alloc, input, solver),
        Command::Certify { pair } => certify(alloc, input, pair, solver),
        Command::Check => verdict(alloc, input),
        Command::Slice { height } => loops(alloc, input, height, solver),
        Command::Edit => edits(alloc, input, solver, &Byu {}),
        Command::Demo {
            seed,
            sections,
            vertices,
        } => demo(alloc, seed, sections, vertices, solver),
        Command::Landmarks => landmarks(alloc, input),
        Command::RingCaps => ring_caps(alloc, input, solver, &Byu {}),
        Command::Count => count(alloc, input),
        Command::Densify => unreachable!(),
        Command::Measure => measured(alloc, input),
        Command::Crossings => crossed(alloc, input),
    }
}

/// The answer of a command to the bytes that it has read.
pub(crate) fn answer_to<P: PairSolver>(
    alloc: Global,
    command: Command,
    input: &[u8],
    solver: &mut P,
) -> Result<Answer, NoMemory>
    requires within { IsInputWithin command input.now }
    requires range { AreValuesInRange command }
    ensures written { IfOk result (λ a.
        (reply : Reply) × (n : ℕ)
        × rule_of command input.now reply
        × IsWritten reply a.status (text_bytes a.text) n
        × (P.solved_pairs solver.new ≡ counted n (P.solved_pairs solver.old))) }
    ensures refusal { IfOk result (λ a.
        (command ≡ Command.Densify → ⊥)
        → a.status ≡ Status.Refused
        → P.solved_pairs solver.new ≡ P.solved_pairs solver.old) }
    ensures later { P.solved_pairs solver.old ≤ P.solved_pairs solver.new }
    ensures same_workers { P.worker_count solver.new ≡ P.worker_count solver.old }
{
    match command {
        Command::Densify => densified(alloc, input, solver),
        _ => told(text_of(alloc, command, input, solver)),
    }
}
