//! A sink in memory that grows: for callers that want the text of what is written.
ghost use Rattle.std.specs.Prelude.{◌≡◌, ◌+◌, ◌-◌, ◌^◌, [], length, take, min, IfOk, IsOk, OnErr, OnOk, true, false};
ghost use Rattle.st_port.specs.Faults.{GoesOn, Rose, counter};
ghost use Rattle.st_port.specs.Streams.{Gains, TakesSome};
ghost use Rattle.st_port.specs.Memory.{vessel_state};

use crate::{Failed, Sink};
use st_ids::{NoMemory, Text};
use std::alloc::Global;
use std::marker::Model;

/// Takes bytes into a text, as long as there is memory.
#[derive(Drop)]
pub struct TextSink {
    text: Text,
    faults: u64,
    flushed: bool,
}

impl Model for TextSink {
    ghost use Rattle.st_port.specs.Memory.{Vessel};

    ghost Value = { Vessel };

    ghost view = { λ s. record { taken = s.text; faults = s.faults; is_flushed = s.flushed } };
}

impl TextSink {
    /// A sink that has taken nothing. It takes no memory.
    pub fn new(alloc: Global) -> TextSink
        ensures { result ≡ record { taken = []; faults = 0; is_flushed = false } }
    {
        TextSink {
            text: Text::new(alloc),
            faults: 0,
            flushed: false,
        }
    }

    /// The bytes taken so far.
    pub fn taken(&self) -> &[u8]
        ensures { result.now ≡ self.now.taken }
    {
        self.text.bytes()
    }

    /// The bytes taken, as a text. It copies nothing.
    pub fn into_text(self) -> Text
        ensures { result ≡ self.taken }
    {
        self.text
    }

    /// How many writes have failed.
    pub fn faults(&self) -> u64
        ensures { result ≡ self.now.faults }
    {
        self.faults
    }
}

impl Sink for TextSink {
    ghost use Rattle.std.specs.Prelude.{refl};
    ghost use Rattle.st_port.specs.Memory.{vessel_state};

    ghost state = { λ s. vessel_state s };

    ghost tells = { λ s. refl };

    fn write(&mut self, piece: &[u8]) -> Result<usize, Failed>
        ensures bound { IfOk result (λ n. TakesSome n piece.now) }
        ensures ok { IfOk result (λ n. Gains (vessel_state self.old) (vessel_state self.new) (take n piece.now)) }
        ensures err { OnErr result (Gains (vessel_state self.old) (vessel_state self.new) []) }
        ensures quiet { OnOk result (self.new.faults ≡ self.old.faults) }
        ensures count { GoesOn (counter self.old.faults) (counter self.new.faults) }
        ensures cause { OnErr result (Rose (counter self.old.faults) (counter self.new.faults)) }
        ensures whole { IfOk result (λ n. n ≡ length piece.now) }
        ensures fault { OnErr result (self.new ≡ record self.old { faults = min (self.old.faults + 1) (2 ^ 64 - 1); is_flushed = false }) }
        ensures cleared { self.new.is_flushed ≡ false }
    {
        self.flushed = false;
        match self.text.append(piece) {
            Ok(()) => Ok(piece.len()),
            Err(NoMemory) => {
                self.faults = self.faults.saturating_add(1);
                Err(Failed)
            }
        }
    }

    fn flush(&mut self) -> Result<(), Failed>
        ensures same { self.new ≡ record self.old { is_flushed = true } }
        ensures never { IsOk result }
    {
        self.flushed = true;
        Ok(())
    }
}
