//! Readers and writers of the system as sources and sinks: the trusted edge.
//!
//! They tell of their bytes what the reader or writer tells, and count what it refuses.
ghost use Rattle.std.specs.Prelude.{◌≡◌, [], take, IfOk, OnOk, OnErr, IsTrue, false};
ghost use Rattle.st_port.specs.Faults.{GoesOn, Rose, counter};
ghost use Rattle.st_port.specs.Streams.{Gains, TakesSome};
ghost use Rattle.st_port.specs.Edge.{writer_state};

use crate::{Failed, Sink, Source};
use std::io::{Read, Write};

/// A reader of the system, with the count of its errors.
#[derive(Drop)]
pub struct StdSource<R> {
    reader: R,
    faults: u64,
}

impl<R: Read> StdSource<R> {
    /// The source of what the reader has left, with no fault so far.
    pub fn new(reader: R) -> StdSource<R>
        ensures left { (⟦<StdSource<R> as Source>⟧.state result).left ≡ R.remaining reader }
        ensures faults { (⟦<StdSource<R> as Source>⟧.state result).faults ≡ counter 0 }
    {
        StdSource { reader, faults: 0 }
    }
}

impl<R: Read> Source for StdSource<R> {
    ghost use Rattle.st_port.specs.Faults.{counter};

    ghost state = { λ s. record { left = R.remaining s.reader; faults = counter s.faults } };

    fn read(&mut self, buf: &mut [u8]) -> Result<usize, Failed> {
        match self.reader.read(buf) {
            Ok(n) => Ok(n),
            Err(_) => {
                self.faults = self.faults.saturating_add(1);
                Err(Failed)
            }
        }
    }
}

/// A writer of the system, with the count of its errors and of its refusals to take a byte.
#[derive(Drop)]
pub struct StdSink<W> {
    writer: W,
    faults: u64,
    flushed: bool,
}

impl<W: Write> StdSink<W> {
    /// The sink over what the writer holds, with no fault so far.
    pub fn new(writer: W) -> StdSink<W>
        ensures taken { (⟦<StdSink<W> as Sink>⟧.state result).taken ≡ W.contents writer }
        ensures flushed { (⟦<StdSink<W> as Sink>⟧.state result).is_flushed ≡ false }
        ensures faults { (⟦<StdSink<W> as Sink>⟧.state result).faults ≡ counter 0 }
    {
        StdSink {
            writer,
            faults: 0,
            flushed: false,
        }
    }
}

impl<W: Write> Sink for StdSink<W> {
    ghost use Rattle.st_port.specs.Streams.{tells_length};
    ghost use Rattle.st_port.specs.Edge.{writer_state};

    ghost state = { λ s. writer_state (W.contents s.writer) s.flushed s.faults };

    ghost tells = { λ s. tells_length (W.contents s.writer) };

    fn write(&mut self, piece: &[u8]) -> Result<usize, Failed>
        ensures bound { IfOk result (λ n. TakesSome n piece.now) }
        ensures ok { IfOk result (λ n. Gains (writer_state (W.contents self.old.writer) self.old.flushed self.old.faults) (writer_state (W.contents self.new.writer) self.new.flushed self.new.faults) (take n piece.now)) }
        ensures err { OnErr result (Gains (writer_state (W.contents self.old.writer) self.old.flushed self.old.faults) (writer_state (W.contents self.new.writer) self.new.flushed self.new.faults) []) }
        ensures quiet { OnOk result (self.new.faults ≡ self.old.faults) }
        ensures count { GoesOn (counter self.old.faults) (counter self.new.faults) }
        ensures cause { OnErr result (Rose (counter self.old.faults) (counter self.new.faults)) }
        ensures cleared { self.new.flushed ≡ false }
    {
        self.flushed = false;
        match self.writer.write(piece) {
            Ok(n) if n > 0 || piece.is_empty() => Ok(n),
            _ => {
                self.faults = self.faults.saturating_add(1);
                Err(Failed)
            }
        }
    }

    fn flush(&mut self) -> Result<(), Failed> {
        match self.writer.flush() {
            Ok(()) => {
                self.flushed = true;
                Ok(())
            }
            Err(_) => {
                self.faults = self.faults.saturating_add(1);
                Err(Failed)
            }
        }
    }
}
