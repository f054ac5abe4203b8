//! The command `reconstruct`.
ghost use Rattle.std.specs.Prelude.{◌≡◌, ◌≤◌, length, IfErr};
ghost use Rattle.section_core.specs.declared.parts.Version.TheVariants as Version;
ghost use Rattle.section_text.specs.Fronts.{IsReadMemory};
ghost use Rattle.command_replies.specs.Reply.{Replies};
ghost use Rattle.command_replies.specs.Stages.{on_objects};
ghost use Rattle.surface_commands.specs.Reconstruct.{reconstruct};

use crate::writing::SurfaceWriter;
use command_replies::objects_in;
use fku_types::Fault;
use fku_types::limits::MAX_CHECK_BYTES;
use pair_pool::PairSolver;
use std::alloc::Global;
use surface_core::surface_all;

/// The text of the surface of the objects in a text of at most `MAX_CHECK_BYTES` bytes. Else the first fault of the
/// text or of its objects; or `NoMemory`. `Ok` raises the solver's count by the number of pairs, up to its last value.
pub fn reconstruct<P: PairSolver, W: SurfaceWriter>(
    alloc: Global,
    input: &[u8],
    solver: &mut P,
    writer: &W,
) -> Result<Vec<u8>, Fault>
    requires { length input.now ≤ MAX_CHECK_BYTES }
    ensures reply { Replies (on_objects (reconstruct W.format) input.now) (P.solved_pairs solver.old)
        (P.solved_pairs solver.new) result }
    ensures same_workers { P.worker_count solver.new ≡ P.worker_count solver.old }
    // A fault in the first four kept lines, or the end of the text before a fourth, is reported whatever memory there
    // is.
    ensures memory { IfErr result (IsReadMemory Version.Two input.now) }
{
    let objects = objects_in(alloc, input)?;
    let built = surface_all(alloc, &objects, solver)?;
    let text = writer.write(alloc, &built.mesh)?;
    Ok(text)
}
