//! What one read of a source gives, in a fixed block.
ghost use Rattle.std.specs.Prelude.{◌≡◌, ◌≤◌, [], length, OnOk, OnErr};
ghost use Rattle.std.specs.Io.KnownBytes.{IsAtEnd, Keeps};
ghost use Rattle.st_port.specs.Faults.{GoesOn, Rose};
ghost use Rattle.st_port.specs.Reading.{Takes};

use crate::{Failed, Source};
use std::marker::Model;

// The bytes that one read asks for.
const ROOM: usize = 4096;

/// The bytes that the last read gave, at most 4,096. A contract sees the list of them.
#[derive(Drop)]
pub struct Piece {
    bytes: [u8; ROOM],
    len: usize,
}

impl Model for Piece {
    ghost use Rattle.std.specs.Prelude.{List, ℕ, take, ◌≤◌};

    ghost Value = { List ℕ };

    ghost view = { λ a. take a.len a.bytes };

    ghost invariant = { λ a. a.len ≤ 4096 };
}

impl Piece {
    /// No bytes so far. It takes no memory.
    pub fn new() -> Piece
        ensures { result ≡ [] }
    {
        Piece {
            bytes: [0; ROOM],
            len: 0,
        }
    }

    /// Reads once, in place of the bytes so far. No bytes are the end of input.
    ///
    /// Errors: `Failed` where the read failed; nothing was taken then, and the piece has no bytes.
    pub fn read<S: Source>(&mut self, src: &mut S) -> Result<(), Failed>
        ensures takes { OnOk result (Takes (S.state src.old) (S.state src.new) self.new) }
        ensures most { length self.new ≤ 4096 }
        ensures end { OnOk result (self.new ≡ [] → IsAtEnd (S.state src.new).left) }
        ensures keeps { OnErr result (Keeps (S.state src.old).left (S.state src.new).left) }
        ensures none { OnErr result (self.new ≡ []) }
        ensures count { GoesOn (S.state src.old).faults (S.state src.new).faults }
        ensures cause { OnErr result (Rose (S.state src.old).faults (S.state src.new).faults) }
    {
        self.len = 0;
        self.len = src.read(&mut self.bytes)?;
        Ok(())
    }

    /// The bytes that the last read gave.
    pub fn bytes(&self) -> &[u8]
        ensures value { result.now ≡ self.now }
        ensures most { length result.now ≤ 4096 }
    {
        &self.bytes[..self.len]
    }
}
