//! The text of a drawing read back, and found clean or not.
ghost use Rattle.std.specs.Prelude.{◌<◌, ◌^◌, length};
ghost use Rattle.st_callers.specs.ReadBack.{IsLookedAt};

use eps_check::examine;
use eps_core::{EpsFault, read_eps};
use st_ids::NoMemory;
use st_shape::Fault;
use std::alloc::Global;

/// What bytes are found to be.
#[derive(Clone, Copy, Debug, PartialEq, Eq)]
pub enum Drawn {
    /// The text of a drawing in which nothing is wrong.
    Clean,
    /// The text of a drawing with this first fault, by items from 0.
    NotClean(Fault),
    /// No text of a drawing: this is the first bad line, from 1.
    NoDrawing(u32),
    /// Not known, since memory ran out.
    NoMemory,
}

/// Whether the bytes are the text of a clean drawing.
///
/// Cost: that of `read_eps` and of `examine`.
pub fn looked_at(alloc: Global, bytes: &[u8]) -> Drawn
    requires { length bytes.now < 2 ^ 31 }
    ensures { IsLookedAt bytes.now result }
{
    let picture = match read_eps(alloc, bytes) {
        Ok(picture) => picture,
        Err(EpsFault::BadLine { line }) => return Drawn::NoDrawing(line),
        Err(EpsFault::NoMemory) => return Drawn::NoMemory,
    };
    match examine(alloc, &picture) {
        Ok(None) => Drawn::Clean,
        Ok(Some(fault)) => Drawn::NotClean(fault),
        Err(NoMemory) => Drawn::NoMemory,
    }
}
