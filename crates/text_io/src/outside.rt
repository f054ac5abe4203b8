//! Sources and sinks of bytes, which count their faults.
ghost use Rattle.std.specs.Prelude.{◌≡◌, ℕ, ◌+◌, ◌<◌, ◌≤◌, List, length, Option, IfOk, IfSome, OnOk, OnErr, IsErrOf};
ghost use Rattle.std.specs.Io.KnownBytes.{Appends, IsAtEnd};
ghost use Rattle.text_io.specs.Outside.{Rose, Takes, Gives, TakesSome, AppendsFront, piece_size};
ghost use Rattle.text_io.specs.declared.outside.InFault.TheVariants.{NoMemory};

use std::alloc::{AllocError, Global};
use thiserror::Error;

/// The result of a read.
#[derive(Clone, Copy, Debug, PartialEq, Eq)]
pub enum Took {
    Bytes(usize),
    End,
    Failed,
}

/// The result of a write.
#[derive(Clone, Copy, Debug, PartialEq, Eq)]
pub enum Gave {
    Bytes(usize),
    Failed,
}

/// Bytes that come from outside.
pub trait Source {
    /// The bytes that are left, if the source knows them.
    ghost left: { Self → Option (List ℕ) };

    /// How often the source has failed. The count never decreases.
    ghost faults: { Self → ℕ };

    /// Reads the next bytes, at least one; or reports the end, or a failure.
    fn read(&mut self, buf: &mut [u8]) -> Took
        requires { 0 < length buf.old }
        ensures bytes { Takes result (left self.old) (left self.new) buf.new }
        ensures later { faults self.old ≤ faults self.new }
        ensures cause { result ≡ Took.Failed → Rose (faults self.old) (faults self.new) };
}

/// A place that bytes are written to.
pub trait Sink {
    /// The bytes that were written, if the sink knows them.
    ghost held: { Self → Option (List ℕ) };

    /// How often the sink has failed. The count never decreases.
    ghost faults: { Self → ℕ };

    /// Appends the first bytes of the piece, at least one; or fails and appends nothing.
    fn write(&mut self, piece: &[u8]) -> Gave
        requires { 0 < length piece.now }
        ensures bytes { Gives result (held self.old) (held self.new) piece.now }
        ensures later { faults self.old ≤ faults self.new }
        ensures cause { result ≡ Gave.Failed → Rose (faults self.old) (faults self.new) };
}

/// Why an input was not read.
#[derive(Debug, Drop, Error)]
pub enum InFault {
    #[error("the input could not be read")]
    ReadFault,
    #[error("the input is too long")]
    TooLong,
    #[error("out of memory")]
    NoMemory,
}

impl From<AllocError> for InFault {
    ghost from_gives = { λ _ e. e ≡ NoMemory };

    fn from(_e: AllocError) -> InFault {
        InFault::NoMemory
    }
}

/// Why an output was not written.
#[derive(Debug, Drop, Error)]
pub enum OutFault {
    #[error("the output could not be written")]
    WriteFault,
}

// How many bytes a read asks for.
const PIECE_SIZE: usize = 4096;

/// Reads all bytes to the end, at most `limit` of them. `TooLong` comes only for an input that is longer; the read that
/// shows it, of at most 4,096 bytes, is the last one. `ReadFault` comes only if a read failed within the limit.
/// `NoMemory` comes only after the source gave bytes.
pub fn read_all<S: Source>(alloc: Global, src: &mut S, limit: usize) -> Result<Vec<u8>, InFault>
    ensures all { IfOk result (λ v. IfSome (S.left src.old) (λ bytes. v.items ≡ bytes)) }
    ensures end { OnOk result (IsAtEnd (S.left src.new)) }
    ensures within { IfOk result (λ v. length v.items ≤ limit) }
    ensures too_long { IsErrOf result InFault.TooLong
        → TakesSome (S.left src.old) (S.left src.new) (λ bytes.
        (limit < length bytes) × (length bytes ≤ limit + piece_size)) }
    ensures fault_within { IsErrOf result InFault.ReadFault
        → TakesSome (S.left src.old) (S.left src.new) (λ bytes. length bytes ≤ limit) }
    ensures cause { IsErrOf result InFault.ReadFault → Rose (S.faults src.old) (S.faults src.new) }
    // Memory is asked for bytes that were given: never at a source that fails at once or has none left.
    ensures memory { IsErrOf result InFault.NoMemory
        → TakesSome (S.left src.old) (S.left src.new) (λ bytes. 1 ≤ length bytes) }
    ensures later { S.faults src.old ≤ S.faults src.new }
{
    let mut bytes = Vec::new(alloc);
    let mut buf = [0u8; PIECE_SIZE];
    while bytes.len() <= limit {
        match src.read(&mut buf) {
            Took::Bytes(n) => bytes.extend_from_slice(&buf[..n])?,
            Took::End => return Ok(bytes),
            Took::Failed => return Err(InFault::ReadFault),
        }
    }
    Err(InFault::TooLong)
}

/// Appends all bytes. `WriteFault` comes only if the sink failed; the sink then holds a front of them.
pub fn put_all<K: Sink>(sink: &mut K, bytes: &[u8]) -> Result<(), OutFault>
    ensures ok { OnOk result (Appends (K.held sink.old) (K.held sink.new) bytes.now) }
    ensures front { OnErr result (AppendsFront (K.held sink.old) (K.held sink.new) bytes.now) }
    ensures cause { OnErr result (Rose (K.faults sink.old) (K.faults sink.new)) }
    ensures later { K.faults sink.old ≤ K.faults sink.new }
{
    let mut rest = bytes;
    while !rest.is_empty() {
        match sink.write(rest) {
            Gave::Bytes(n) => rest = rest.split_at(n).1,
            Gave::Failed => return Err(OutFault::WriteFault),
        }
    }
    Ok(())
}
