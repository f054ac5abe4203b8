//! Sources and sinks in memory.
ghost use Rattle.std.specs.Prelude.{◌≡◌, ◌<◌, ◌≤◌, ◌-◌, ◌||◌, min, false, [], length, take, Some, None, IfOk};
ghost use Rattle.text_io.specs.Outside.{Rose, Takes, Gives};
ghost use Rattle.text_io.specs.Memory.{raised_count, is_listed, read_failed, write_failed, read_count, write_count, Supplies, Stores};
ghost use Rattle.std.specs.Prelude.{◌==◌, if◌then◌else◌};

use crate::outside::{Gave, Sink, Source, Took};
use fku_types::NoMemory;
use std::alloc::Global;
use std::marker::Model;

/// A source in memory. A read moves as many bytes as `per_call`, its buffer and the bytes left allow. `failing` lists
/// the calls that fail, by number from 1; a call that fails takes nothing.
#[derive(Drop)]
pub struct MemSource {
    bytes: Vec<u8>,
    taken: usize,
    per_call: usize,
    failing: Vec<u64>,
    calls: u64,
    faults: u64,
}

impl Model for MemSource {
    ghost use Rattle.std.specs.Prelude.{◌≤◌, drop, length};
    ghost use Rattle.text_io.specs.Memory.{Supply};

    ghost Value = { Supply };

    ghost view = { λ s.
        record {
          left = drop s.taken s.bytes.items;
          per_call = s.per_call;
          failing = s.failing.items;
          calls = s.calls;
          faults = s.faults;
        } };

    ghost invariant = { λ s. (s.taken ≤ length s.bytes.items) × (1 ≤ s.per_call) };
}

impl MemSource {
    /// A source of these bytes that has not been read yet. A read gives at most `per_call` bytes, which is at least 1.
    /// Takes no memory.
    pub fn new(bytes: Vec<u8>, per_call: usize, failing: Vec<u64>) -> MemSource
        requires { 1 ≤ per_call }
        ensures { result
            ≡ record { left = bytes.items; per_call = per_call; failing = failing.items; calls = 0; faults = 0 } }
    {
        MemSource {
            bytes,
            taken: 0,
            per_call,
            failing,
            calls: 0,
            faults: 0,
        }
    }

    /// The bytes that have not been read.
    pub fn left(&self) -> &[u8]
        ensures { result.now ≡ self.now.left }
    {
        let bytes: &[u8] = &self.bytes;
        bytes.split_at(self.taken).1
    }
}

impl Source for MemSource {
    ghost left = { λ s. Some s.left };

    ghost faults = { λ s. s.faults };

    fn read(&mut self, buf: &mut [u8]) -> Took
        requires { 0 < length buf.old }
        ensures bytes { Takes result (Some self.old.left) (Some self.new.left) buf.new }
        ensures later { self.old.faults ≤ self.new.faults }
        ensures cause { result ≡ Took.Failed → Rose self.old.faults self.new.faults }
        ensures listed { read_failed result ≡ is_listed self.old.failing self.old.calls }
        ensures faults { self.new.faults ≡ (if read_failed result then raised_count self.old.faults else
            self.old.faults) }
        ensures count { Supplies result (read_count self.old (length buf.old)) }
        ensures rest { (self.new.per_call ≡ self.old.per_call)
            × (self.new.failing ≡ self.old.failing)
            × (self.new.calls ≡ raised_count self.old.calls) }
    {
        self.calls = self.calls.saturating_add(1);
        if self.failing.contains(&self.calls) {
            self.faults = self.faults.saturating_add(1);
            return Took::Failed;
        }
        let bytes: &[u8] = &self.bytes;
        let count = copy_front(bytes.split_at(self.taken).1, self.per_call, buf);
        if count == 0 {
            return Took::End;
        }
        self.taken += count;
        Took::Bytes(count)
    }
}

/// A sink in memory. A write moves as many bytes as `per_call`, its piece and the room left allow. `failing` lists the
/// calls that fail, by number from 1; a call also fails where no room is left. A call that fails appends nothing.
#[derive(Drop)]
pub struct MemSink {
    bytes: Vec<u8>,
    room: usize,
    per_call: usize,
    failing: Vec<u64>,
    calls: u64,
    faults: u64,
}

impl Model for MemSink {
    ghost use Rattle.std.specs.Prelude.{◌≤◌, length, vec_capacity};
    ghost use Rattle.text_io.specs.Memory.{Store};

    ghost Value = { Store };

    ghost view = { λ s.
        record {
          held = s.bytes.items;
          room = s.room;
          per_call = s.per_call;
          failing = s.failing.items;
          calls = s.calls;
          faults = s.faults;
        } };

    ghost invariant = { λ s. (length s.bytes.items ≤ s.room) × (s.room ≤ vec_capacity s.bytes) × (1 ≤ s.per_call) };
}

impl MemSink {
    /// An empty sink with room for `room` bytes. A write takes at most `per_call` bytes, which is at least 1. Takes
    /// memory for the whole room; `NoMemory` where there is none.
    pub fn new(
        alloc: Global,
        room: usize,
        per_call: usize,
        failing: Vec<u64>,
    ) -> Result<MemSink, NoMemory>
        requires { 1 ≤ per_call }
        ensures { IfOk result (λ s.
            s
            ≡ record {
              held = [];
              room = room;
              per_call = per_call;
              failing = failing.items;
              calls = 0;
              faults = 0;
            }) }
    {
        let bytes = Vec::with_capacity(alloc, room)?;
        Ok(MemSink {
            bytes,
            room,
            per_call,
            failing,
            calls: 0,
            faults: 0,
        })
    }

    /// The bytes that were written.
    pub fn bytes(&self) -> &[u8]
        ensures { result.now ≡ self.now.held }
    {
        &self.bytes
    }
}

impl Sink for MemSink {
    ghost held = { λ s. Some s.held };

    ghost faults = { λ s. s.faults };

    fn write(&mut self, piece: &[u8]) -> Gave
        requires { 0 < length piece.now }
        ensures bytes { Gives result (Some self.old.held) (Some self.new.held) piece.now }
        ensures later { self.old.faults ≤ self.new.faults }
        ensures cause { result ≡ Gave.Failed → Rose self.old.faults self.new.faults }
        ensures listed { write_failed result
            ≡ (is_listed self.old.failing self.old.calls || self.old.room == length self.old.held) }
        ensures faults { self.new.faults ≡ (if write_failed result then raised_count self.old.faults else
            self.old.faults) }
        ensures count { Stores result (write_count self.old (length piece.now)) }
        ensures rest { (self.new.room ≡ self.old.room)
            × (self.new.per_call ≡ self.old.per_call)
            × (self.new.failing ≡ self.old.failing)
            × (self.new.calls ≡ raised_count self.old.calls) }
    {
        self.calls = self.calls.saturating_add(1);
        let left = self.room - self.bytes.len();
        if self.failing.contains(&self.calls) || left == 0 {
            self.faults = self.faults.saturating_add(1);
            return Gave::Failed;
        }
        let count = self.per_call.min(piece.len().min(left));
        self.bytes
            .extend_from_slice(piece.split_at(count).0)
            .unwrap();
        Gave::Bytes(count)
    }
}

/// A source in memory that never fails: its fault count is 0.
#[derive(Drop)]
pub struct SureSource {
    bytes: Vec<u8>,
    taken: usize,
    per_call: usize,
}

impl Model for SureSource {
    ghost use Rattle.std.specs.Prelude.{◌≤◌, drop, length};
    ghost use Rattle.text_io.specs.Memory.{SureSupply};

    ghost Value = { SureSupply };

    ghost view = { λ s. record { left = drop s.taken s.bytes.items; per_call = s.per_call } };

    ghost invariant = { λ s. (s.taken ≤ length s.bytes.items) × (1 ≤ s.per_call) };
}

impl SureSource {
    /// A source of these bytes. A read gives at least one byte and at most `per_call`, which is at least 1. Takes no
    /// memory.
    pub fn new(bytes: Vec<u8>, per_call: usize) -> SureSource
        requires { 1 ≤ per_call }
        ensures { result ≡ record { left = bytes.items; per_call = per_call } }
    {
        SureSource {
            bytes,
            taken: 0,
            per_call,
        }
    }
}

impl Source for SureSource {
    ghost left = { λ s. Some s.left };

    ghost faults = { λ _. 0 };

    fn read(&mut self, buf: &mut [u8]) -> Took
        requires { 0 < length buf.old }
        ensures bytes { Takes result (Some self.old.left) (Some self.new.left) buf.new }
        ensures later { 0 ≤ 0 }
        ensures cause { result ≡ Took.Failed → Rose 0 0 }
        ensures sure { read_failed result ≡ false }
        ensures count { Supplies result (min self.old.per_call (min (length buf.old) (length self.old.left))) }
        ensures rest { self.new.per_call ≡ self.old.per_call }
    {
        let bytes: &[u8] = &self.bytes;
        let count = copy_front(bytes.split_at(self.taken).1, self.per_call, buf);
        if count == 0 {
            return Took::End;
        }
        self.taken += count;
        Took::Bytes(count)
    }
}

/// A sink that takes every piece whole, keeps nothing and never fails: its fault count is 0.
#[derive(Drop)]
pub struct SureSink {}

impl SureSink {
    /// A new one. Takes no memory.
    pub fn new() -> SureSink {
        SureSink {}
    }
}

impl Sink for SureSink {
    ghost held = { λ _. None };

    ghost faults = { λ _. 0 };

    fn write(&mut self, piece: &[u8]) -> Gave
        requires { 0 < length piece.now }
        ensures bytes { Gives result None None piece.now }
        ensures later { 0 ≤ 0 }
        ensures cause { result ≡ Gave.Failed → Rose 0 0 }
        ensures whole { result ≡ Gave.Bytes (length piece.now) }
    {
        Gave::Bytes(piece.len())
    }
}

// Copies as many bytes as `per_call` and both slices allow.
fn copy_front(from: &[u8], per_call: usize, into: &mut [u8]) -> usize
    ensures count { result ≡ min per_call (min (length into.old) (length from.now)) }
    ensures bytes { take result into.new ≡ take result from.now }
{
    let count = per_call.min(into.len().min(from.len()));
    into[..count].copy_from_slice(&from[..count]);
    count
}
