//! A list of bytes that holds a short text in itself.
ghost use Rattle.std.specs.Prelude.{◌≡◌, ◌↔◌, ◌+◌, ◌≤◌, [], ◌++◌, length, take, IfOk, IsTrue, OnOk, OnErr};
ghost use Rattle.std.specs.Bool.{OnTrue, OnFalse};
ghost use Rattle.st_ids.specs.Held.{held_bytes};

use crate::NoMemory;
use itoa::{Buffer, Integer};
use std::alloc::Global;
use std::marker::Model;

/// A list of at most 14 bytes, which takes no block.
#[derive(Debug, Drop)]
struct FewBytes {
    len: u8,
    bytes: [u8; 14],
}

impl Model for FewBytes {
    ghost use Rattle.std.specs.Prelude.{List, ℕ, ◌≤◌, take};

    ghost Value = { List ℕ };

    ghost view = { λ a. take a.len a.bytes };

    ghost invariant = { λ a. a.len ≤ 14 };
}

impl FewBytes {
    fn new() -> FewBytes
        ensures { result ≡ [] }
    {
        FewBytes {
            len: 0,
            bytes: [0; 14],
        }
    }

    /// The first n of these bytes, which are copied at once.
    fn front(bytes: &[u8], n: usize) -> FewBytes
        requires fits { n ≤ 14 }
        requires there { 14 ≤ length bytes.now }
        ensures { result ≡ take n bytes.now }
    {
        let mut few = [0; 14];
        few.copy_from_slice(&bytes[..14]);
        FewBytes {
            len: n as u8,
            bytes: few,
        }
    }

    /// Appends the bytes of the piece where there is room for them, and answers whether there is.
    fn append(&mut self, piece: &[u8]) -> bool
        ensures room { IsTrue result ↔ (length self.old + length piece.now ≤ 14) }
        ensures yes { OnTrue result (self.new ≡ self.old ++ piece.now) }
        ensures no { OnFalse result (self.new ≡ self.old) }
    {
        let from = self.len as usize;
        if piece.len() > 14 - from {
            return false;
        }
        let to = from + piece.len();
        self.bytes[from..to].copy_from_slice(piece);
        self.len = to as u8;
        true
    }

    fn bytes(&self) -> &[u8]
        ensures { result.now ≡ self.now }
    {
        &self.bytes[..self.len as usize]
    }
}

/// The bytes of a text.
#[derive(Debug, Drop)]
enum Bytes {
    Short(FewBytes),
    Long(Box<Vec<u8>>),
}

/// A list of bytes, which a contract sees as such. One of at most 14 bytes takes no block.
#[derive(Debug, Drop)]
pub struct Text {
    held: Bytes,
    alloc: Global,
}

impl Model for Text {
    ghost use Rattle.std.specs.Prelude.{List, ℕ};
    ghost use Rattle.st_ids.specs.Held.{held_bytes};

    ghost Value = { List ℕ };

    ghost view = { λ a. held_bytes a.held };
}

/// The bytes of both, in a block.
fn joined(alloc: Global, first: &[u8], second: &[u8]) -> Result<Bytes, NoMemory>
    ensures { IfOk result (λ held. held_bytes held ≡ first.now ++ second.now) }
{
    let mut whole = Vec::with_capacity(alloc, first.len() + second.len())?;
    whole.extend_from_slice(first)?;
    whole.extend_from_slice(second)?;
    Ok(Bytes::Long(Box::new(alloc, whole)?))
}

impl Text {
    /// The empty text.
    pub fn new(alloc: Global) -> Text
        ensures { result ≡ [] }
    {
        Text {
            held: Bytes::Short(FewBytes::new()),
            alloc,
        }
    }

    /// The first n bytes of these, as a text that takes no block. Of any n, 14 bytes are copied at once.
    #[inline(always)]
    pub fn front(alloc: Global, bytes: &[u8], n: usize) -> Text
        requires fits { n ≤ 14 }
        requires there { 14 ≤ length bytes.now }
        ensures { result ≡ take n bytes.now }
    {
        Text {
            held: Bytes::Short(FewBytes::front(bytes, n)),
            alloc,
        }
    }

    /// Appends the bytes of the piece. Errors: `NoMemory`; the text stays as it is.
    pub fn append(&mut self, piece: &[u8]) -> Result<(), NoMemory>
        ensures ok { OnOk result (self.new ≡ self.old ++ piece.now) }
        ensures err { OnErr result (self.new ≡ self.old) }
    {
        let alloc = self.alloc;
        match &mut self.held {
            Bytes::Short(few) => {
                if few.append(piece) {
                    return Ok(());
                }
                let long = joined(alloc, few.bytes(), piece)?;
                self.held = long;
                Ok(())
            }
            Bytes::Long(block) => {
                block.extend_from_slice(piece)?;
                Ok(())
            }
        }
    }

    /// Appends the number in decimal. Errors: `NoMemory`; the text stays as it is. Only a long text takes memory.
    pub fn append_number<I: Integer>(&mut self, n: I) -> Result<(), NoMemory>
        ensures ok { OnOk result (self.new ≡ self.old ++ I.text n) }
        ensures err { OnErr result (self.new ≡ self.old) }
    {
        let mut buffer = Buffer::new();
        self.append(buffer.format(n).as_bytes())
    }

    /// All bytes.
    pub fn bytes(&self) -> &[u8]
        ensures { result.now ≡ self.now }
    {
        match &self.held {
            Bytes::Short(few) => few.bytes(),
            Bytes::Long(block) => block.as_slice(),
        }
    }
}
