//! Sources and sinks, over bytes in memory and over readers and writers; and the counter of steps.
ghost use Rattle.std.specs.Prelude.{◌≡◌, ◌<◌};

use crate::answers::same;
use fku_types::Steps;
use std::alloc::Global;
use std::io;
use std::io::{Read, Write};
use std::marker::Brand;
use std::process::Abort;
use std::sync::ledger::{Blank, Ledger};
use std::test::Fail;
use text_io::{
    InFault, MemSink, MemSource, StdSink, StdSource, SureSink, SureSource, put_all, read_all,
};

fn source(alloc: Global, failing: Vec<u64>) -> Result<MemSource, Fail> {
    let bytes = Vec::from_slice(alloc, b"one\ntwo\n")?;
    Ok(MemSource::new(bytes, 3, failing))
}

#[test]
fn bytes_are_read_to_the_end(rt: HostRuntime) -> Result<(), Fail> {
    let alloc = rt.alloc();
    let mut good = source(alloc, Vec::new(alloc))?;
    let read = read_all(alloc, &mut good, 8).ok().ok_or("read")?;
    same(&rt, read.as_slice(), b"one\ntwo\n");
    same(&rt, good.left().len(), 0);
    Ok(())
}

#[test]
fn a_source_without_faults_is_read(rt: HostRuntime) -> Result<(), Fail> {
    let alloc = rt.alloc();
    let mut sure = SureSource::new(Vec::from_slice(alloc, b"END\n")?, 3);
    let read = read_all(alloc, &mut sure, 100).ok().ok_or("read")?;
    same(&rt, read.as_slice(), b"END\n");
    Ok(())
}

// Asserts that reading eight bytes up to a limit, with these calls failing, finds them too long or fails, and that this
// many are left.
fn reading_fails<R: Abort + AllocGlobal>(
    rt: &R,
    failing: Vec<u64>,
    limit: usize,
    too_long: bool,
    left: usize,
) -> Result<(), Fail> {
    let mut source = source(rt.alloc(), failing)?;
    let found = match read_all(rt.alloc(), &mut source, limit) {
        Err(InFault::TooLong) => Some(true),
        Err(InFault::ReadFault) => Some(false),
        _ => None,
    };
    same(rt, found, Some(too_long));
    same(rt, source.left().len(), left);
    Ok(())
}

// Each call of the source gives three bytes.
#[test]
fn reading_ends_at_the_first_fault(rt: HostRuntime) -> Result<(), Fail> {
    let alloc = rt.alloc();
    reading_fails(&rt, Vec::new(alloc), 7, true, 0)?;
    reading_fails(&rt, Vec::new(alloc), 2, true, 5)?;
    reading_fails(&rt, vec![in alloc; 2]?, 100, false, 5)
}

// Asserts that eight bytes are written, or not, into a sink of this much room with these calls failing, and that the
// sink has these bytes then.
fn is_written<R: Abort + AllocGlobal>(
    rt: &R,
    room: usize,
    failing: Vec<u64>,
    good: bool,
    held: &[u8],
) -> Result<(), Fail> {
    let mut sink = MemSink::new(rt.alloc(), room, 3, failing)
        .ok()
        .ok_or("room")?;
    same(rt, put_all(&mut sink, b"one\ntwo\n").is_ok(), good);
    same(rt, sink.bytes(), held);
    Ok(())
}

#[test]
fn bytes_are_written_up_to_the_first_fault(rt: HostRuntime) -> Result<(), Fail> {
    let alloc = rt.alloc();
    is_written(&rt, 100, Vec::new(alloc), true, b"one\ntwo\n")?;
    is_written(&rt, 100, vec![in alloc; 2]?, false, b"one")?;
    is_written(&rt, 4, Vec::new(alloc), false, b"one\n")?;
    assert!(rt; put_all(&mut SureSink::new(), b"END\n").is_ok());
    Ok(())
}

/// How a reader or writer behaves.
#[derive(Clone, Copy, Debug, PartialEq, Eq)]
enum Manner {
    Good,
    TakesNothing,
    Fails,
    FailsToFlush,
}

fn broken() -> io::Error {
    io::Error::from(io::ErrorKind::BrokenPipe)
}

/// Gives its bytes, or fails.
#[derive(Drop)]
struct Reader<'a> {
    bytes: &'a [u8],
    manner: Manner,
}

impl<'a> Read for Reader<'a> {
    fn read(&mut self, buf: &mut [u8]) -> io::Result<usize> {
        match self.manner {
            Manner::Good => self.bytes.read(buf),
            _ => Err(broken()),
        }
    }
}

/// Writes into a list that the test reads, or fails.
#[derive(Drop)]
struct Writer<'a> {
    held: &'a mut Vec<u8>,
    manner: Manner,
}

impl<'a> Write for Writer<'a> {
    fn write(&mut self, buf: &[u8]) -> io::Result<usize> {
        match self.manner {
            Manner::TakesNothing => Ok(0),
            Manner::Fails => Err(broken()),
            _ => {
                let count = buf.len().min(3);
                self.held.extend_from_slice(&buf[..count])?;
                Ok(count)
            }
        }
    }

    fn flush(&mut self) -> io::Result<()> {
        match self.manner {
            Manner::FailsToFlush => Err(broken()),
            _ => Ok(()),
        }
    }
}

// Asserts that a reader of this manner is read, or that it fails as the manner says.
fn is_read<R: Abort + AllocGlobal>(rt: &R, manner: Manner) -> Result<(), Fail> {
    let bytes = b"END\n".as_slice();
    let mut source = StdSource::new(Reader { bytes, manner });
    match read_all(rt.alloc(), &mut source, 100) {
        Ok(read) => same(rt, read.as_slice(), bytes),
        Err(InFault::ReadFault) => same(rt, manner, Manner::Fails),
        Err(_) => return Err("a fault of another kind".into()),
    }
    Ok(())
}

#[test]
fn std_readers_are_read(rt: HostRuntime) -> Result<(), Fail> {
    is_read(&rt, Manner::Good)?;
    is_read(&rt, Manner::Fails)
}

// Asserts that bytes are written, or not, into a writer of this manner, which has these bytes then.
fn is_put<R: Abort + AllocGlobal>(rt: &R, manner: Manner, good: bool, bytes: &[u8]) {
    let mut held = Vec::new(rt.alloc());
    let mut sink = StdSink::new(Writer {
        held: &mut held,
        manner,
    });
    same(rt, put_all(&mut sink, b"END\n").is_ok(), good);
    same(rt, held.as_slice(), bytes);
}

#[test]
fn std_writers_are_written(rt: HostRuntime) {
    is_put(&rt, Manner::Good, true, b"END\n");
    is_put(&rt, Manner::TakesNothing, false, b"");
    is_put(&rt, Manner::Fails, false, b"");
    is_put(&rt, Manner::FailsToFlush, false, b"END");
}

fn ticks<L: Ledger>(blank: Blank)
    requires name { blank.name ≡ L.name }
    requires parts { blank.parts ≡ L.parts }
    requires some { 0 < L.parts }
{
    let mut steps = Steps::<L>::begin(blank);
    steps.tick();
}

#[test]
fn steps_are_counted() {
    ticks::<Brand>(Blank::new(1));
}
