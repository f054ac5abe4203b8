//! The answer for what a command returns.
ghost use Rattle.std.specs.Prelude.{◌≡◌, IfErr, IfOk, Err};
ghost use Rattle.command_replies.specs.Reply.{IsAnswer};

use command_replies::{Answer, AnswerText, Status, refused};
use fku_types::{Fault, NoMemory};

/// The answer for the result of a command: its text, or its fault.
pub(crate) fn told(given: Result<Vec<u8>, Fault>) -> Result<Answer, NoMemory>
    ensures answer { IfOk result (IsAnswer given) }
    // The line of a refusal takes no memory.
    ensures memory { IfErr result (λ _. given ≡ Err Fault.NoMemory) }
{
    match given {
        Err(fault) => refused(&fault),
        Ok(text) => Ok(Answer {
            status: Status::Done,
            text: AnswerText::Made(text),
        }),
    }
}
