//! The output for an input.
ghost use Rattle.std.specs.Prelude.{◌≡◌, ◌≤◌, ◌+◌, ◌++◌, length, IfErr, IfOk};
ghost use Rattle.arrayvec.specs.ArrayVec.{array_vec_len};
ghost use Rattle.command_replies.specs.Reply.{IsWritten, Reply, refusal_text, text_bytes};

use crate::status::Status;
use arrayvec::ArrayVec;
use fku_types::fault_lines::LINE_BYTES;
use fku_types::{Fault, FaultLine, NoMemory, fault_line};

/// The most bytes of the line of a refusal, with its line end.
pub const REFUSAL_BYTES: usize = LINE_BYTES + 32;

/// The line of a refusal, with its line end.
pub type RefusalLine = ArrayVec<u8, REFUSAL_BYTES>;

/// The text of an answer: one that was made in memory, or the line of a refusal, which has room of its own.
#[derive(Drop)]
pub enum AnswerText {
    Made(Vec<u8>),
    Line(RefusalLine),
}

impl AnswerText {
    /// Its bytes. Takes no memory.
    pub fn bytes(&self) -> &[u8]
        ensures { result.now ≡ text_bytes self.now }
    {
        match self {
            AnswerText::Made(text) => text.as_slice(),
            AnswerText::Line(line) => line.as_slice(),
        }
    }
}

/// The output for an input, and the status.
#[derive(Drop)]
pub struct Answer {
    pub status: Status,
    pub text: AnswerText,
}

// Puts bytes after those of a line that has room for them.
fn put_in(line: &mut RefusalLine, bytes: &[u8])
    requires { array_vec_len line.old + length bytes.now ≤ REFUSAL_BYTES }
    ensures bytes { line.new.items ≡ line.old.items ++ bytes.now }
    ensures len { array_vec_len line.new ≡ array_vec_len line.old + length bytes.now }
{
    line.try_extend_from_slice(bytes).unwrap();
}

/// The line of a refusal of these bytes, at most 16, and the words of a fault after them. Takes no memory.
pub fn refusal_line(before: &[u8], words: &FaultLine) -> RefusalLine
    requires { length before.now ≤ 16 }
    ensures { result.items ≡ refusal_text (before.now ++ words.now.items) }
{
    let mut line = ArrayVec::new();
    put_in(&mut line, b"REFUSED ");
    put_in(&mut line, before);
    put_in(&mut line, words.as_slice());
    put_in(&mut line, b"\n");
    line
}

/// The answer for a fault; `NoMemory` has none. Takes no memory.
pub fn refused(fault: &Fault) -> Result<Answer, NoMemory>
    ensures written { IfOk result (λ a. IsWritten (Reply.refused fault.now) a.status (text_bytes a.text) 0) }
    // Only `NoMemory` has no words.
    ensures words { IfOk result (λ a. fault.now ≡ Fault.NoMemory → ⊥) }
    ensures memory { IfErr result (λ _. fault.now ≡ Fault.NoMemory) }
{
    match fault_line(fault) {
        None => Err(NoMemory),
        Some(line) => Ok(Answer {
            status: Status::Refused,
            text: AnswerText::Line(refusal_line(b"", &line)),
        }),
    }
}
