//! A source and a sink in memory, which fail where they are told to: for tests, and for callers that hold the bytes.
ghost use Rattle.std.specs.Prelude.{◌≡◌, ◌+◌, ◌-◌, ◌^◌, ◌<◌, ◌≤◌, ◌↔◌, [], length, take, IfOk, OnOk, OnErr, IsErr, IsTrue, min, Some, IsOk, true, false};
ghost use Rattle.std.specs.Io.{ReadsAtMost};
ghost use Rattle.std.specs.Io.KnownBytes.{ReadConsumes};
ghost use Rattle.st_port.specs.Faults.{GoesOn, Rose, counter};
ghost use Rattle.st_port.specs.Streams.{Gains, TakesSome};
ghost use Rattle.st_port.specs.Memory.{portion_of, Fails, IsRefused, feed_state, tank_state};

use crate::{Failed, Sink, Source};
use st_ids::NoMemory;
use std::alloc::Global;
use std::marker::Model;

/// Gives bytes out of memory.
#[derive(Drop)]
pub struct MemSource {
    bytes: Vec<u8>,
    at: usize,
    per_call: usize,
    fails: Vec<u64>,
    calls: u64,
    faults: u64,
}

impl Model for MemSource {
    ghost use Rattle.std.specs.Prelude.{drop, length, ◌≤◌};
    ghost use Rattle.st_port.specs.Memory.{Feed};

    ghost Value = { Feed };

    ghost view = { λ s. record { left = drop s.at s.bytes.items; per_call = s.per_call; fails = s.fails.items; calls = s.calls; faults = s.faults } };

    ghost invariant = { λ s. s.at ≤ length s.bytes.items };
}

impl MemSource {
    /// A source of the bytes. A call gives at most `per_call` of them, or as many as fit where that is 0, and fails
    /// where its number stands in `fails`; the first call is 1.
    ///
    /// Cost: one copy of both lists; a call looks through `fails`.
    pub fn new(
        alloc: Global,
        bytes: &[u8],
        per_call: usize,
        fails: &[u64],
    ) -> Result<MemSource, NoMemory>
        ensures { IfOk result (λ s. s ≡ record { left = bytes.now; per_call = per_call; fails = fails.now; calls = 0; faults = 0 }) }
    {
        let bytes = Vec::from_slice(alloc, bytes).map_err(|_| NoMemory)?;
        let fails = Vec::from_slice(alloc, fails).map_err(|_| NoMemory)?;
        Ok(MemSource {
            bytes,
            at: 0,
            per_call,
            fails,
            calls: 0,
            faults: 0,
        })
    }

    /// How many calls have failed.
    pub fn faults(&self) -> u64
        ensures { result ≡ self.now.faults }
    {
        self.faults
    }
}

// The number of bytes that move in a call.
fn portion(per_call: usize, most: usize, left: usize) -> usize
    ensures value { result ≡ portion_of per_call (min most left) }
    ensures most { result ≤ most }
    ensures left { result ≤ left }
    ensures some { 0 < most → 0 < left → 0 < result }
{
    let most = most.min(left);
    if per_call == 0 {
        most
    } else {
        most.min(per_call)
    }
}

/// Copies the first n bytes.
pub fn give(from: &[u8], n: usize, buf: &mut [u8])
    requires from { n ≤ length from.now }
    requires room { n ≤ length buf.old }
    ensures { take n buf.new ≡ take n from.now }
{
    buf[..n].copy_from_slice(&from[..n]);
}

impl Source for MemSource {
    ghost use Rattle.st_port.specs.Memory.{feed_state};

    ghost state = { λ s. feed_state s };

    fn read(&mut self, buf: &mut [u8]) -> Result<usize, Failed>
        ensures bound { ReadsAtMost result buf.new }
        ensures bytes { ReadConsumes (Some self.old.left) (Some self.new.left) result buf.new }
        ensures count { GoesOn (counter self.old.faults) (counter self.new.faults) }
        ensures cause { OnErr result (Rose (counter self.old.faults) (counter self.new.faults)) }
        ensures exact { IsErr result ↔ Fails self.old.fails self.old.calls }
        ensures quiet { OnOk result (self.new.faults ≡ self.old.faults) }
        ensures fault { OnErr result (self.new ≡ record self.old { calls = min (self.old.calls + 1) (2 ^ 64 - 1); faults = min (self.old.faults + 1) (2 ^ 64 - 1) }) }
        ensures portion { IfOk result (λ n. n ≡ portion_of self.old.per_call (min (length buf.old) (length self.old.left))) }
        ensures calls { self.new.calls ≡ min (self.old.calls + 1) (2 ^ 64 - 1) }
        ensures settings { (self.new.per_call ≡ self.old.per_call) × (self.new.fails ≡ self.old.fails) }
    {
        let number = self.calls.checked_add(1);
        self.calls = self.calls.saturating_add(1);
        if let Some(number) = number {
            if self.fails.contains(&number) {
                self.faults = self.faults.saturating_add(1);
                return Err(Failed);
            }
        }
        let left = &self.bytes[self.at..];
        let n = portion(self.per_call, buf.len(), left.len());
        give(left, n, buf);
        self.at += n;
        Ok(n)
    }
}

/// Takes bytes into memory.
#[derive(Drop)]
pub struct MemSink {
    bytes: Vec<u8>,
    room: usize,
    per_call: usize,
    fails: Vec<u64>,
    calls: u64,
    faults: u64,
    flushed: bool,
}

impl Model for MemSink {
    ghost use Rattle.std.specs.Prelude.{length, vec_capacity, ◌+◌, ◌≤◌};
    ghost use Rattle.st_port.specs.Memory.{Tank};

    ghost Value = { Tank };

    ghost view = { λ s. record { taken = s.bytes.items; room = s.room; per_call = s.per_call; fails = s.fails.items; calls = s.calls; faults = s.faults; is_flushed = s.flushed } };

    ghost invariant = { λ s. length s.bytes.items + s.room ≤ vec_capacity s.bytes };
}

impl MemSink {
    /// A sink with room for so many bytes, which is taken here. A `write` takes at most `per_call` bytes, or all where
    /// that is 0, and fails where its number stands in `fails` or no room is left; the first is 1. `flush` never fails.
    pub fn new(
        alloc: Global,
        room: usize,
        per_call: usize,
        fails: &[u64],
    ) -> Result<MemSink, NoMemory>
        ensures { IfOk result (λ s. s ≡ record { taken = []; room = room; per_call = per_call; fails = fails.now; calls = 0; faults = 0; is_flushed = false }) }
    {
        let bytes = Vec::with_capacity(alloc, room).map_err(|_| NoMemory)?;
        let fails = Vec::from_slice(alloc, fails).map_err(|_| NoMemory)?;
        Ok(MemSink {
            bytes,
            room,
            per_call,
            fails,
            calls: 0,
            faults: 0,
            flushed: false,
        })
    }

    /// The bytes taken so far.
    pub fn taken(&self) -> &[u8]
        ensures { result.now ≡ self.now.taken }
    {
        &self.bytes
    }

    /// How many calls have failed.
    pub fn faults(&self) -> u64
        ensures { result ≡ self.now.faults }
    {
        self.faults
    }
}

impl Sink for MemSink {
    ghost use Rattle.std.specs.Prelude.{refl};
    ghost use Rattle.st_port.specs.Memory.{tank_state};

    ghost state = { λ s. tank_state s };

    ghost tells = { λ s. refl };

    fn write(&mut self, piece: &[u8]) -> Result<usize, Failed>
        ensures bound { IfOk result (λ n. TakesSome n piece.now) }
        ensures gains { IfOk result (λ n. Gains (tank_state self.old) (tank_state self.new) (take n piece.now)) }
        ensures err { OnErr result (Gains (tank_state self.old) (tank_state self.new) []) }
        ensures count { GoesOn (counter self.old.faults) (counter self.new.faults) }
        ensures cause { OnErr result (Rose (counter self.old.faults) (counter self.new.faults)) }
        ensures exact { IsErr result ↔ IsRefused self.old piece.now }
        ensures quiet { OnOk result (self.new.faults ≡ self.old.faults) }
        ensures fault { OnErr result (self.new ≡ record self.old { calls = min (self.old.calls + 1) (2 ^ 64 - 1); faults = min (self.old.faults + 1) (2 ^ 64 - 1); is_flushed = false }) }
        ensures portion { IfOk result (λ n. n ≡ portion_of self.old.per_call (min (length piece.now) self.old.room)) }
        ensures room { IfOk result (λ n. self.new.room + n ≡ self.old.room) }
        ensures cleared { self.new.is_flushed ≡ false }
        ensures calls { self.new.calls ≡ min (self.old.calls + 1) (2 ^ 64 - 1) }
        ensures settings { (self.new.per_call ≡ self.old.per_call) × (self.new.fails ≡ self.old.fails) }
    {
        let number = self.calls.checked_add(1);
        self.calls = self.calls.saturating_add(1);
        self.flushed = false;
        if let Some(number) = number {
            if self.fails.contains(&number) {
                self.faults = self.faults.saturating_add(1);
                return Err(Failed);
            }
        }
        if self.room == 0 && !piece.is_empty() {
            self.faults = self.faults.saturating_add(1);
            return Err(Failed);
        }
        let n = portion(self.per_call, piece.len(), self.room);
        self.bytes.extend_from_slice(&piece[..n]).unwrap();
        self.room -= n;
        Ok(n)
    }

    fn flush(&mut self) -> Result<(), Failed>
        ensures same { self.new ≡ record self.old { is_flushed = true } }
        ensures never { IsOk result }
    {
        self.flushed = true;
        Ok(())
    }
}
