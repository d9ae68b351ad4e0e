//! A source and a sink that never fail: one gives a text out of memory, the other only counts what it takes.
ghost use Rattle.std.specs.Prelude.{◌≡◌, ◌+◌, ◌-◌, ◌^◌, [], length, take, min, IfOk, IsOk, OnErr, OnOk, Some, IsTrue};
ghost use Rattle.std.specs.Io.{ReadsAtMost};
ghost use Rattle.std.specs.Io.KnownBytes.{ReadConsumes};
ghost use Rattle.st_port.specs.Faults.{GoesOn, Rose, no_fault};
ghost use Rattle.st_port.specs.Streams.{Gains, TakesSome};
ghost use Rattle.st_port.specs.Sure.{count_state};

use crate::memory::give;
use crate::{Failed, Sink, Source};
use st_ids::Text;
use std::marker::Model;

/// Gives the bytes of a text, as many in a call as fit.
#[derive(Drop)]
pub struct SureSource {
    bytes: Text,
    at: usize,
}

impl Model for SureSource {
    ghost use Rattle.std.specs.Prelude.{List, ℕ, drop, length, ◌≤◌};

    ghost Value = { List ℕ };

    ghost view = { λ s. drop s.at s.bytes };

    ghost invariant = { λ s. s.at ≤ length s.bytes };
}

impl SureSource {
    /// A source of the bytes of the text.
    pub fn new(bytes: Text) -> SureSource
        ensures { result ≡ bytes }
    {
        SureSource { bytes, at: 0 }
    }
}

impl Source for SureSource {
    ghost use Rattle.st_port.specs.Sure.{sure_state};

    ghost state = { λ s. sure_state s };

    fn read(&mut self, buf: &mut [u8]) -> Result<usize, Failed>
        ensures bound { ReadsAtMost result buf.new }
        ensures bytes { ReadConsumes (Some self.old) (Some self.new) result buf.new }
        ensures quiet { OnOk result (no_fault ≡ no_fault) }
        ensures count { GoesOn no_fault no_fault }
        ensures cause { OnErr result (Rose no_fault no_fault) }
        ensures never { IsOk result }
        ensures portion { IfOk result (λ n. n ≡ min (length buf.old) (length self.old)) }
    {
        let left = &self.bytes.bytes()[self.at..];
        let n = buf.len().min(left.len());
        give(left, n, buf);
        self.at += n;
        Ok(n)
    }
}

/// Counts the bytes that it takes, and keeps none.
#[derive(Drop)]
pub struct CountSink {
    bytes: u64,
}

impl Model for CountSink {
    ghost use Rattle.std.specs.Prelude.{ℕ};

    ghost Value = { ℕ };

    ghost view = { λ s. s.bytes };
}

impl CountSink {
    /// A sink that has taken nothing.
    pub fn new() -> CountSink
        ensures { result ≡ 0 }
    {
        CountSink { bytes: 0 }
    }

    /// How many bytes were taken, or the greatest number of its type once that is reached.
    pub fn bytes(&self) -> u64
        ensures { result ≡ self.now }
    {
        self.bytes
    }
}

impl Sink for CountSink {
    ghost use Rattle.st_port.specs.Sure.{count_state};

    ghost state = { λ s. count_state s };

    ghost tells = { λ s. tt };

    fn write(&mut self, piece: &[u8]) -> Result<usize, Failed>
        ensures bound { IfOk result (λ n. TakesSome n piece.now) }
        ensures ok { IfOk result (λ n. Gains (count_state self.old) (count_state self.new) (take n piece.now)) }
        ensures err { OnErr result (Gains (count_state self.old) (count_state self.new) []) }
        ensures quiet { OnOk result (no_fault ≡ no_fault) }
        ensures count { GoesOn no_fault no_fault }
        ensures cause { OnErr result (Rose no_fault no_fault) }
        ensures whole { IfOk result (λ n. n ≡ length piece.now) }
        ensures never { IsOk result }
        ensures counted { self.new ≡ min (self.old + length piece.now) (2 ^ 64 - 1) }
    {
        self.bytes = self.bytes.saturating_add(piece.len() as u64);
        Ok(piece.len())
    }

    fn flush(&mut self) -> Result<(), Failed>
        ensures same { self.new ≡ self.old }
        ensures never { IsOk result }
    {
        Ok(())
    }
}
