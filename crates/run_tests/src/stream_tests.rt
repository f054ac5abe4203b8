//! Runs that read nothing, and faults at each call of the outside.
ghost use Rattle.std.specs.Prelude.{◌≤◌};

use crate::answers::{begins_with, same};
use crate::runs::{GOOD, Streams, streamed, words_of};
use crate::texts::{BOX, TILED, TWO_SQUARES, joined};
use std::alloc::Global;
use std::process::Abort;
use std::test::Fail;
use surface_cli::{Status, run};
use text_io::{MemSink, MemSource, SureSink, SureSource};

fn squares_source(alloc: Global, failing: Vec<u64>) -> Result<MemSource, Fail> {
    let bytes = joined(alloc, &[TWO_SQUARES])?;
    Ok(MemSource::new(bytes, 10, failing))
}

// A sink of this much room, which takes this many bytes a call.
fn sink(alloc: Global, room: usize, per_call: usize, failing: Vec<u64>) -> Result<MemSink, Fail>
    requires { 1 ≤ per_call }
{
    Ok(MemSink::new(alloc, room, per_call, failing).map_err(|_| "room")?)
}

// Asserts that a run of these words reads nothing, and writes the usage line.
fn is_without_meaning<R: Abort + AllocGlobal>(rt: &R, words: &[String]) -> Result<(), Fail> {
    let alloc = rt.alloc();
    let mut source = squares_source(alloc, Vec::new(alloc))?;
    let mut sink = sink(alloc, 200, 200, Vec::new(alloc))?;
    let before = source.left().len();
    same(
        rt,
        run(alloc, words, &mut source, &mut sink),
        Status::BadWords,
    );
    begins_with(rt, sink.bytes(), b"USAGE fku tilings|");
    same(rt, source.left().len(), before);
    Ok(())
}

#[test]
fn words_without_a_meaning_read_nothing(rt: HostRuntime) -> Result<(), Fail> {
    let lines = [
        "weave",
        "Tilings",
        "certify --pair=0",
        "tilings --workers 0",
        "tilings --workers 2 --workers 3",
        "slice",
        "slice --height -5",
        "slice --height=1000000",
        "demo 7 40",
        "demo 7 65 200",
        "report --help",
        "reconstruct tilings",
    ];
    is_without_meaning(&rt, &[])?;
    for line in lines {
        is_without_meaning(&rt, &words_of(rt.alloc(), line)?)?;
    }
    Ok(())
}

// Asserts that a run of these words succeeds and reads nothing of its source, whose first read would fail.
fn makes_alone<R: Abort + AllocGlobal>(rt: &R, line: &str) -> Result<(), Fail> {
    let mut source = squares_source(rt.alloc(), vec![in rt.alloc(); 1]?)?;
    let before = source.left().len();
    let mut sink = sink(rt.alloc(), 4096, 100, Vec::new(rt.alloc()))?;
    ends(rt, line, &mut source, &mut sink, Status::Done)?;
    same(rt, source.left().len(), before);
    Ok(())
}

#[test]
fn stacks_made_from_a_number_read_nothing(rt: HostRuntime) -> Result<(), Fail> {
    for line in [
        "demo 7 10 50",
        "demo 7 40 200 --workers 1",
        "demo --workers=8 7 40 200",
    ] {
        makes_alone(&rt, line)?;
    }
    Ok(())
}

// Asserts how a run of these words ends.
fn ends<R: Abort + AllocGlobal>(
    rt: &R,
    line: &str,
    source: &mut MemSource,
    sink: &mut MemSink,
    status: Status,
) -> Result<(), Fail> {
    let words = words_of(rt.alloc(), line)?;
    same(rt, run(rt.alloc(), &words, source, sink), status);
    Ok(())
}

#[test]
fn a_source_that_fails_in_mid_stream(rt: HostRuntime) -> Result<(), Fail> {
    let alloc = rt.alloc();
    let mut source = squares_source(alloc, vec![in alloc; 2]?)?;
    let mut sink = sink(alloc, 4096, 100, Vec::new(alloc))?;
    ends(&rt, "tilings", &mut source, &mut sink, Status::ReadFault)?;
    same(&rt, sink.bytes().len(), 0);
    Ok(())
}

// Asserts that the run of these words has read its whole source when the sink fails, which has the front of this text
// then.
fn fails_to_write<R: Abort + AllocGlobal>(
    rt: &R,
    line: &str,
    mut sink: MemSink,
    front: &[u8],
) -> Result<(), Fail> {
    let mut source = squares_source(rt.alloc(), Vec::new(rt.alloc()))?;
    ends(rt, line, &mut source, &mut sink, Status::WriteFault)?;
    same(rt, sink.bytes(), front);
    same(rt, source.left().len(), 0);
    Ok(())
}

#[test]
fn sinks_that_fail_in_mid_stream(rt: HostRuntime) -> Result<(), Fail> {
    let alloc = rt.alloc();
    let failing = sink(alloc, 4096, 30, vec![in alloc; 3]?)?;
    fails_to_write(&rt, "tilings", failing, &TILED.as_bytes()[..60])?;
    let small = sink(alloc, 100, 100, Vec::new(alloc))?;
    fails_to_write(&rt, "reconstruct", small, &BOX.as_bytes()[..100])
}

#[test]
fn a_source_and_a_sink_without_faults(rt: HostRuntime) -> Result<(), Fail> {
    let alloc = rt.alloc();
    let words = words_of(alloc, "reconstruct")?;
    let mut source = SureSource::new(joined(alloc, &[TWO_SQUARES])?, 10);
    let mut sink = SureSink::new();
    same(
        &rt,
        run(alloc, &words, &mut source, &mut sink),
        Status::Done,
    );
    Ok(())
}

// Asserts that the run of `tilings` on the two squares, with 7 bytes a read, writes nothing if this read fails.
fn fails_to_read<R: Abort + AllocGlobal>(rt: &R, failing_read: u64) -> Result<(), Fail> {
    let streams = Streams {
        read: 7,
        failing_read,
        ..GOOD
    };
    let (status, text) = streamed(rt.alloc(), "tilings", TWO_SQUARES.as_bytes(), streams)?;
    same(rt, status, Status::ReadFault);
    same(rt, text.len(), 0);
    Ok(())
}

#[test]
fn each_read_that_fails(rt: HostRuntime) -> Result<(), Fail> {
    let input = TWO_SQUARES.as_bytes();
    let reads = (input.len() / 7 + 2) as u64;
    for failing_read in 1..=reads {
        fails_to_read(&rt, failing_read)?;
    }
    let streams = Streams {
        read: 7,
        failing_read: reads + 1,
        ..GOOD
    };
    let (status, text) = streamed(rt.alloc(), "tilings", input, streams)?;
    same(&rt, status, Status::Done);
    same(&rt, text.as_slice(), TILED.as_bytes());
    Ok(())
}

// Asserts how the run of `reconstruct` on the two squares ends if this write fails, with 50 bytes a write, and how many
// bytes of the whole text it has written.
fn is_cut<R: Abort + AllocGlobal>(
    rt: &R,
    whole: &[u8],
    failing_write: u64,
    status: Status,
    length: usize,
) -> Result<(), Fail> {
    let streams = Streams {
        write: 50,
        failing_write,
        ..GOOD
    };
    let (found, text) = streamed(rt.alloc(), "reconstruct", TWO_SQUARES.as_bytes(), streams)?;
    same(rt, found, status);
    same(rt, text.len(), length);
    begins_with(rt, whole, &text);
    Ok(())
}

#[test]
fn each_write_that_fails(rt: HostRuntime) -> Result<(), Fail> {
    let (_, whole) = streamed(rt.alloc(), "reconstruct", TWO_SQUARES.as_bytes(), GOOD)?;
    same(&rt, whole.len(), 642);
    for k in 0..13usize {
        is_cut(&rt, &whole, k as u64 + 1, Status::WriteFault, 50 * k)?;
    }
    is_cut(&rt, &whole, 14, Status::Done, 642)
}
