//! The source over a reader and the sink over a writer of std. Nothing is known of the bytes of a real stream.
ghost use Rattle.std.specs.Prelude.{◌≡◌, ℕ, None};

use crate::outside::{Gave, Sink, Source, Took};
use std::io::{Read, Write};
use std::marker::Model;

/// A source over a reader. It knows the bytes that are left if its reader does; a real stream does not. Each error
/// counts as a fault.
#[derive(Drop)]
pub struct StdSource<R: Read> {
    inner: R,
    faults: u64,
}

impl<R: Read> Model for StdSource<R> {
    ghost use Rattle.text_io.specs.Outside.{Stream};

    ghost Value = { Stream };

    ghost view = { λ s. record { left = R.remaining s.inner; faults = s.faults } };
}

impl<R: Read> StdSource<R> {
    /// A source over this reader, with a fault count of 0. Takes no memory.
    pub fn new(inner: R) -> StdSource<R>
        ensures { result ≡ record { left = R.remaining inner; faults = 0 } }
    {
        StdSource { inner, faults: 0 }
    }
}

impl<R: Read> Source for StdSource<R> {
    ghost left = { λ s. s.left };

    ghost faults = { λ s. s.faults };

    fn read(&mut self, buf: &mut [u8]) -> Took {
        match self.inner.read(buf) {
            Ok(0) => Took::End,
            Ok(count) => Took::Bytes(count),
            Err(_) => {
                self.faults = self.faults.saturating_add(1);
                Took::Failed
            }
        }
    }
}

/// A sink over a writer, which it flushes after each write. Each error counts as a fault, and so does a write that
/// takes nothing. It does not know the bytes that were written: if a flush fails, the write before it may have come
/// through.
#[derive(Drop)]
pub struct StdSink<W: Write> {
    inner: W,
    faults: u64,
}

impl<W: Write> Model for StdSink<W> {
    ghost use Rattle.std.specs.Prelude.{ℕ};

    ghost Value = { ℕ };

    ghost view = { λ s. s.faults };
}

impl<W: Write> StdSink<W> {
    /// A sink over this writer, with a fault count of 0. Takes no memory.
    pub fn new(inner: W) -> StdSink<W>
        ensures { result ≡ 0 }
    {
        StdSink { inner, faults: 0 }
    }
}

impl<W: Write> Sink for StdSink<W> {
    ghost held = { λ _. None };

    ghost faults = { λ count. count };

    fn write(&mut self, piece: &[u8]) -> Gave {
        if let Ok(count) = self.inner.write(piece)
            && count > 0
            && self.inner.flush().is_ok()
        {
            return Gave::Bytes(count);
        }
        self.faults = self.faults.saturating_add(1);
        Gave::Failed
    }
}
