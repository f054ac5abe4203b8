//! Runs over a source and a sink in memory.
use fku_types::NoMemory;
use pair_pool::{OneByOne, PairSolver};
use std::alloc::Global;
use std::test::Fail;
use surface_cli::{Status, run, run_with};
use text_io::{MemSink, MemSource};

/// How many workers the solver of `told` has before the run.
pub(crate) const WORKERS: u32 = 5;

/// How a run ended, what it wrote, how many pairs its solver has counted, and how many workers that has then.
#[derive(Drop)]
pub(crate) struct Outcome {
    pub status: Status,
    pub text: Vec<u8>,
    pub solved: u64,
    pub workers: u32,
}

/// The words of a line, separated by single blanks.
pub(crate) fn words_of(alloc: Global, line: &str) -> Result<Vec<String>, NoMemory> {
    let mut words = Vec::new(alloc);
    for word in line.split(' ') {
        words.push(word.to_string(alloc)?)?;
    }
    Ok(words)
}

/// The status and the text of `run_with` for a line of words and an input, with this solver. The source and the sink
/// move 4,096 bytes a call, and the sink has room for 2,000,000.
pub(crate) fn told_by<P: PairSolver>(
    alloc: Global,
    line: &str,
    input: &[u8],
    solver: &mut P,
) -> Result<(Status, Vec<u8>), NoMemory> {
    let words = words_of(alloc, line)?;
    let mut source = MemSource::new(Vec::from_slice(alloc, input)?, 4096, Vec::new(alloc));
    let mut sink = MemSink::new(alloc, 2000000, 4096, Vec::new(alloc))?;
    let status = run_with(alloc, &words, &mut source, &mut sink, solver);
    Ok((status, Vec::from_slice(alloc, sink.bytes())?))
}

/// The same with a new solver that solves one pair after another, with `WORKERS` workers set.
pub(crate) fn told(alloc: Global, line: &str, input: &[u8]) -> Result<Outcome, NoMemory> {
    let mut solver = OneByOne::new();
    solver.set_workers(WORKERS);
    let (status, text) = told_by(alloc, line, input, &mut solver)?;
    Ok(Outcome {
        status,
        text,
        solved: solver.solved_count(),
        workers: solver.workers(),
    })
}

/// How many bytes a source gives and a sink takes a call, the calls that fail, and the room of the sink.
#[derive(Clone, Copy)]
pub(crate) struct Streams {
    pub read: usize,
    pub failing_read: u64,
    pub write: usize,
    pub failing_write: u64,
    pub room: usize,
}

/// No call fails.
pub(crate) const GOOD: Streams = Streams {
    read: 4096,
    failing_read: 0,
    write: 4096,
    failing_write: 0,
    room: 65_536,
};

fn source_of(alloc: Global, input: &[u8], streams: Streams) -> Result<MemSource, Fail> {
    let reads = vec![in alloc; streams.failing_read]?;
    let bytes = Vec::from_slice(alloc, input)?;
    Ok(MemSource::new(bytes, streams.read.max(1), reads))
}

fn sink_of(alloc: Global, streams: Streams) -> Result<MemSink, Fail> {
    let writes = vec![in alloc; streams.failing_write]?;
    let sink = MemSink::new(alloc, streams.room, streams.write.max(1), writes);
    Ok(sink.map_err(|_| "room")?)
}

/// The status of a run of these words on an input, and what it has written.
pub(crate) fn streamed(
    alloc: Global,
    line: &str,
    input: &[u8],
    streams: Streams,
) -> Result<(Status, Vec<u8>), Fail> {
    let words = words_of(alloc, line)?;
    let mut source = source_of(alloc, input, streams)?;
    let mut sink = sink_of(alloc, streams)?;
    let status = run(alloc, &words, &mut source, &mut sink);
    Ok((status, Vec::from_slice(alloc, sink.bytes())?))
}
