//! Reads and writes of whole texts over any source and sink.
ghost use Rattle.std.specs.Prelude.{◌≡◌, ◌≤◌, ◌^◌, OnOk, OnErr, IsErrOf};
ghost use Rattle.std.specs.Io.KnownBytes.{IsAtEnd};
ghost use Rattle.st_port.specs.Faults.{Rose, GoesOn};
ghost use Rattle.st_port.specs.Reading.{Reads, ReadsWhole};
ghost use Rattle.st_port.specs.Writes.{Writes};

use crate::{Failed, Piece, ReadEnd, Sink, Source};
use st_ids::Text;
use std::alloc::Global;

/// Reads all that is left, at most `limit` bytes.
///
/// Errors: `Failed` at the first read that fails, behind which nothing is read; `TooLong` once more than `limit` bytes were
/// taken; `NoMemory`.
/// Cost: one pass, one text of the bytes read and a piece of 4,096 bytes.
pub fn read_all<S: Source>(alloc: Global, src: &mut S, limit: usize) -> Result<Text, ReadEnd>
    requires { limit ≤ 2 ^ 31 }
    ensures reads { Reads (λ s. S.state s) src.old src.new limit (λ text taken. text ≡ taken) result }
    ensures bytes { ReadsWhole (S.state src.old).left (S.state src.new).left limit result }
    ensures end { OnOk result (IsAtEnd (S.state src.new).left) }
    ensures count { GoesOn (S.state src.old).faults (S.state src.new).faults }
    ensures cause { IsErrOf result ReadEnd.Failed → Rose (S.state src.old).faults (S.state src.new).faults }
{
    let mut text = Text::new(alloc);
    let mut piece = Piece::new();
    loop {
        if piece.read(src).is_err() {
            return Err(ReadEnd::Failed);
        }
        let bytes = piece.bytes();
        if bytes.is_empty() {
            return Ok(text);
        }
        if bytes.len() > limit - text.bytes().len() {
            return Err(ReadEnd::TooLong);
        }
        if text.append(bytes).is_err() {
            return Err(ReadEnd::NoMemory);
        }
    }
}

/// Writes the whole piece, unless the sink fails.
///
/// Cost: one call of the sink for what it takes at once; no memory.
pub fn write_all<K: Sink>(sink: &mut K, piece: &[u8]) -> Result<(), Failed>
    ensures writes { Writes (K.state sink.old) (K.state sink.new) result piece.now }
{
    let mut at = 0;
    while at < piece.len() {
        at += sink.write(&piece[at..])?;
    }
    Ok(())
}
