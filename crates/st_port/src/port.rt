//! The traits of sources and sinks, and what goes wrong with them.
ghost use Rattle.std.specs.Prelude.{◌≡◌, [], take, IfOk, OnOk, OnErr, IsTrue};
ghost use Rattle.std.specs.Io.{ReadsAtMost};
ghost use Rattle.std.specs.Io.KnownBytes.{ReadConsumes};
ghost use Rattle.st_port.specs.Faults.{GoesOn, Rose};
ghost use Rattle.st_port.specs.Streams.{SourceState, SinkState, Gains, TakesSome, TellsNumber};

use thiserror::Error;

/// A source or a sink failed.
#[derive(Clone, Copy, Debug, PartialEq, Eq, Error)]
#[error("failed")]
pub struct Failed;

/// Why a source was not read to its end.
#[derive(Clone, Copy, Debug, PartialEq, Eq, Error)]
pub enum ReadEnd {
    /// A read failed.
    #[error("read failed")]
    Failed,
    /// There are more bytes than the limit.
    #[error("too many bytes")]
    TooLong,
    /// Memory ran out.
    #[error("no memory")]
    NoMemory,
}

/// Where bytes come from.
pub trait Source {
    /// The bytes that are left, where the source tells them, and its count of faults.
    ghost state: { Self → SourceState };

    /// Takes bytes that are left into the front of the buffer, and answers how many. 0 on a buffer that isn't empty
    /// is the end of input. A read that fails takes nothing; one that doesn't fail counts no fault.
    fn read(&mut self, buf: &mut [u8]) -> Result<usize, Failed>
        ensures bound { ReadsAtMost result buf.new }
        ensures bytes { ReadConsumes (state self.old).left (state self.new).left result buf.new }
        ensures quiet { OnOk result ((state self.new).faults ≡ (state self.old).faults) }
        ensures count { GoesOn (state self.old).faults (state self.new).faults }
        ensures cause { OnErr result (Rose (state self.old).faults (state self.new).faults) };
}

/// Where bytes go. A call that doesn't fail counts no fault.
pub trait Sink {
    /// The bytes taken and their number, where the sink tells them, whether it is flushed, and its count of faults.
    ghost state: { Self → SinkState };

    /// Appends the front of the piece, and answers how many bytes that are. It takes at least one of a piece that
    /// isn't empty.
    fn write(&mut self, piece: &[u8]) -> Result<usize, Failed>
        ensures bound { IfOk result (λ n. TakesSome n piece.now) }
        ensures ok { IfOk result (λ n. Gains (state self.old) (state self.new) (take n piece.now)) }
        ensures err { OnErr result (Gains (state self.old) (state self.new) []) }
        ensures quiet { OnOk result ((state self.new).faults ≡ (state self.old).faults) }
        ensures count { GoesOn (state self.old).faults (state self.new).faults }
        ensures cause { OnErr result (Rose (state self.old).faults (state self.new).faults) };

    /// Sends all that was taken on its way.
    fn flush(&mut self) -> Result<(), Failed>
        ensures same { Gains (state self.old) (state self.new) [] }
        ensures flushed { OnOk result (IsTrue (state self.new).is_flushed) }
        ensures quiet { OnOk result ((state self.new).faults ≡ (state self.old).faults) }
        ensures count { GoesOn (state self.old).faults (state self.new).faults }
        ensures cause { OnErr result (Rose (state self.old).faults (state self.new).faults) };

    /// A sink that tells its bytes tells their number.
    ghost tells: { (s : Self) → TellsNumber (state s) };
}
