//! The answer of a command to the content of a source.
ghost use Rattle.std.specs.Prelude.{◌≡◌, ℕ, ◌+◌, ◌<◌, ◌≤◌, List, length, IfOk, IfSome, OnOk, IsErrOf, IsSome, None, Some};
ghost use Rattle.std.specs.Io.KnownBytes.{IsAtEnd};
ghost use Rattle.text_io.specs.Outside.{Rose, TakesSome, piece_size};
ghost use Rattle.surface_cli.specs.Commands.{input_limit};
ghost use Rattle.surface_cli.specs.Words.{AreValuesInRange};
ghost use Rattle.surface_cli.specs.Out.{Answers};
ghost use Rattle.command_replies.specs.Reply.{counted, text_bytes};
ghost use Rattle.surface_cli.specs.Run.{EndsReading, IsGiven, IsReply};

use crate::commands::{Command, answer_to, input_limit};
use command_replies::{Answer, Status, refused};
use fku_types::{Fault, LimitName, NoMemory};
use pair_pool::PairSolver;
use std::alloc::Global;
use text_io::{InFault, Source, read_all};

/// Why there is no answer.
#[derive(Drop)]
pub(crate) enum Stop {
    ReadFault,
    NoMemory,
}

impl From<NoMemory> for Stop {
    ghost use Rattle.surface_cli.specs.declared.reading.Stop.TheVariants.{NoMemory};

    ghost from_gives = { λ error made. made ≡ NoMemory };

    fn from(_: NoMemory) -> Stop {
        Stop::NoMemory
    }
}

fn too_long() -> Fault
    ensures { result ≡ Fault.Limit LimitName.Bytes 0 }
{
    Fault::Limit {
        limit: LimitName::Bytes,
        line: 0,
    }
}

// All bytes that are left in the source, if they are within a limit; `None` if they are more.
fn taken<S: Source>(alloc: Global, input: &mut S, limit: usize) -> Result<Option<Vec<u8>>, Stop>
    ensures all { IfOk result (λ o. IfSome o (λ v. IfSome (S.left input.old) (λ bytes. v.items ≡ bytes))) }
    ensures end { IfOk result (λ o. IfSome o (λ v. IsAtEnd (S.left input.new))) }
    ensures within { IfOk result (λ o. IfSome o (λ v. length v.items ≤ limit)) }
    ensures too_long { IfOk result (λ o.
        o ≡ None
        → TakesSome (S.left input.old) (S.left input.new) (λ bytes.
        (limit < length bytes) × (length bytes ≤ limit + piece_size))) }
    ensures cause { IsErrOf result Stop.ReadFault → Rose (S.faults input.old) (S.faults input.new) }
    ensures later { S.faults input.old ≤ S.faults input.new }
{
    match read_all(alloc, input, limit) {
        Ok(bytes) => Ok(Some(bytes)),
        Err(InFault::TooLong) => Ok(None),
        Err(InFault::ReadFault) => Err(Stop::ReadFault),
        Err(InFault::NoMemory) => Err(Stop::NoMemory),
    }
}

/// The answer of a command to the bytes that are left in the source. A command that reads takes them to their end, or
/// as many as show that they are too many; `demo` takes none.
pub(crate) fn answer_of<S: Source, P: PairSolver>(
    alloc: Global,
    command: Command,
    input: &mut S,
    solver: &mut P,
) -> Result<Answer, Stop>
    requires { AreValuesInRange command }
    ensures answer { IfOk result (λ a.
        (bytes : List ℕ) → IsGiven command (S.left input.old) bytes
        → (n : ℕ) × Answers command bytes a.status (text_bytes a.text) n
        × (P.solved_pairs solver.new ≡ counted n (P.solved_pairs solver.old))) }
    ensures reply { IfOk result (λ a. IsReply a.status) }
    ensures refusal { IfOk result (λ a.
        (command ≡ Command.Densify → ⊥)
        → a.status ≡ Status.Refused
        → P.solved_pairs solver.new ≡ P.solved_pairs solver.old) }
    ensures end { OnOk result (EndsReading command (S.left input.old) (S.left input.new)) }
    ensures unread { input_limit command ≡ None → input.new ≡ input.old }
    ensures cause { IsErrOf result Stop.ReadFault
        → IsSome (input_limit command) × Rose (S.faults input.old) (S.faults input.new) }
    ensures unsolved { IsErrOf result Stop.ReadFault → P.solved_pairs solver.new ≡ P.solved_pairs solver.old }
    ensures later { S.faults input.old ≤ S.faults input.new }
    ensures not_less { P.solved_pairs solver.old ≤ P.solved_pairs solver.new }
    ensures same_workers { P.worker_count solver.new ≡ P.worker_count solver.old }
{
    let Some(limit) = input_limit(command) else {
        return Ok(answer_to(alloc, command, &[], solver)?);
    };
    match taken(alloc, input, limit)? {
        None => Ok(refused(&too_long())?),
        Some(bytes) => Ok(answer_to(alloc, command, &bytes, solver)?),
    }
}
