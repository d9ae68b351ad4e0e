//! A buffer before a sink, which passes bytes on in large pieces.
ghost use Rattle.std.specs.Prelude.{◌≡◌, ◌++◌, ◌+◌, ◌≤◌, [], length};
ghost use Rattle.st_port.specs.Writes.{Queues};

use crate::{Failed, Sink, write_all};
use std::marker::Model;

// The bytes that are held at most.
const ROOM: usize = 4096;

/// Bytes on their way to a sink, at most 4,096. A contract sees the list of them, in the order in which they were put.
///
/// All calls on one buffer go to the same sink. What is held when the buffer is let go is lost: `finish` comes last.
#[derive(Drop)]
pub struct Buffered {
    held: [u8; ROOM],
    len: usize,
}

impl Model for Buffered {
    ghost use Rattle.std.specs.Prelude.{List, ℕ, take, ◌≤◌};

    ghost Value = { List ℕ };

    ghost view = { λ a. take a.len a.held };

    ghost invariant = { λ a. a.len ≤ 4096 };
}

impl Buffered {
    /// A buffer that holds nothing. It takes no memory.
    pub fn new() -> Buffered
        ensures { result ≡ [] }
    {
        Buffered {
            held: [0; ROOM],
            len: 0,
        }
    }

    // Holds the piece too.
    fn hold(&mut self, piece: &[u8])
        requires { length self.old + length piece.now ≤ 4096 }
        ensures { self.new ≡ self.old ++ piece.now }
    {
        let end = self.len + piece.len();
        self.held[self.len..end].copy_from_slice(piece);
        self.len = end;
    }

    /// Takes the piece. What was held passes on to the sink first where there is no room for both; then a piece of more than
    /// 4,096 bytes passes on at once.
    ///
    /// Errors: `Failed` where the sink's count of faults rose; nothing is held then, and the sink has got a front of what was
    /// held, followed by the piece. It takes no memory.
    pub fn put<K: Sink>(&mut self, sink: &mut K, piece: &[u8]) -> Result<(), Failed>
        ensures { Queues (K.state sink.old) (K.state sink.new) self.old self.new result piece.now }
    {
        if piece.len() <= ROOM - self.len {
            self.hold(piece);
            return Ok(());
        }
        self.finish(sink)?;
        if piece.len() > ROOM {
            return write_all(sink, piece);
        }
        self.hold(piece);
        Ok(())
    }

    /// Passes on what is held. Nothing is held afterwards, whatever is answered. It does not flush.
    ///
    /// Errors: `Failed` where the sink's count of faults rose; the sink has got a front of what was held. It takes no memory.
    pub fn finish<K: Sink>(&mut self, sink: &mut K) -> Result<(), Failed>
        ensures queues { Queues (K.state sink.old) (K.state sink.new) self.old self.new result [] }
        ensures none { self.new ≡ [] }
    {
        let len = self.len;
        self.len = 0;
        write_all(sink, &self.held[..len])
    }
}
