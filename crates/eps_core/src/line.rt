//! A line that is being built, in a fixed buffer.
ghost use Rattle.std.specs.Prelude.{◌≡◌, ◌+◌, ◌≤◌, ℤ, pos, ◌≤ℤ◌, [], ◌∷◌, ◌++◌, length, drop};
ghost use Rattle.std.specs.Fmt.{decimal, signed_decimal};
ghost use Rattle.st_ids.specs.declared.limits.TheConstants.{MOST_COORDINATE};
ghost use Rattle.eps_core.specs.Text.{coordinate, beside, printed};

use itoa::{Buffer, write_digits};
use std::marker::Model;

// More than the longest line with its line feed.
const ROOM: usize = 256;

// A space and the longest number.
const LONGEST: usize = 21;

/// A line of at most 256 bytes. A contract sees the list of them.
#[derive(Drop)]
pub struct Line {
    bytes: [u8; ROOM],
    len: usize,
}

impl Model for Line {
    ghost use Rattle.std.specs.Prelude.{List, ℕ, take, ◌≤◌};

    ghost Value = { List ℕ };

    ghost view = { λ a. take a.len a.bytes };

    ghost invariant = { λ a. a.len ≤ 256 };
}

// Writes the number so that it ends at byte 21, and answers where it starts.
#[inline(always)]
fn spell(n: i64, bytes: &mut [u8; 2 * LONGEST]) -> usize
    ensures some { 1 ≤ result }
    ensures start { result + length (signed_decimal n) ≡ 21 }
    ensures text { drop result bytes.new ≡ signed_decimal n ++ drop 21 bytes.old }
{
    let start = write_digits(n.unsigned_abs(), bytes, LONGEST);
    if n >= 0 {
        return start;
    }
    bytes[start - 1] = b'-';
    start - 1
}

// Writes a space and the number so that they end at byte 21, and answers where they start.
#[inline(always)]
fn spell_spaced(n: i64, bytes: &mut [u8; 2 * LONGEST]) -> usize
    ensures start { result + (length (signed_decimal n) + 1) ≡ 21 }
    ensures text { drop result bytes.new ≡ 32 ∷ signed_decimal n ++ drop 21 bytes.old }
{
    let start = spell(n, bytes) - 1;
    bytes[start] = b' ';
    start
}

impl Line {
    /// The empty line.
    pub fn new() -> Line
        ensures { result ≡ [] }
    {
        Line {
            bytes: [0; ROOM],
            len: 0,
        }
    }

    /// Begins again with these bytes.
    #[inline(always)]
    pub fn start(&mut self, piece: &[u8])
        requires { length piece.now ≤ 256 }
        ensures { self.new ≡ piece.now }
    {
        self.len = 0;
        self.put(piece);
    }

    /// The bytes so far.
    pub fn bytes(&self) -> &[u8]
        ensures { result.now ≡ self.now }
    {
        &self.bytes[..self.len]
    }

    /// Puts bytes at the end.
    #[inline(always)]
    pub fn put(&mut self, piece: &[u8])
        requires { length self.old + length piece.now ≤ 256 }
        ensures { self.new ≡ self.old ++ piece.now }
    {
        let end = self.len + piece.len();
        self.bytes[self.len..end].copy_from_slice(piece);
        self.len = end;
    }

    /// Puts a space and a word at the end.
    #[inline(always)]
    pub fn word(&mut self, piece: &[u8])
        requires { length self.old + length piece.now ≤ 255 }
        ensures text { self.new ≡ self.old ++ 32 ∷ piece.now }
        ensures len { length self.new ≡ length self.old + (length piece.now + 1) }
    {
        self.put(b" ");
        self.put(piece);
    }

    /// Puts a space and a number in decimal at the end.
    pub fn number(&mut self, n: i64)
        requires { length self.old + 21 ≤ 256 }
        ensures text { self.new ≡ self.old ++ 32 ∷ signed_decimal n }
        ensures len { length self.new ≤ length self.old + 21 }
    {
        let mut spelled = [0; 2 * LONGEST];
        let start = spell_spaced(n, &mut spelled);
        // As many bytes each time, which is two moves: those behind the number are never read.
        self.bytes[self.len..self.len + LONGEST].copy_from_slice(&spelled[start..start + LONGEST]);
        self.len += LONGEST - start;
    }

    /// Begins again with a coordinate of a label.
    pub fn start_beside(&mut self, g: i64)
        requires low { pos 0 ≤ℤ g }
        requires high { g ≤ℤ pos MOST_COORDINATE }
        ensures text { self.new ≡ beside g }
        ensures len { length self.new ≤ 20 }
    {
        let mut buffer = Buffer::new();
        self.start(buffer.format(24 * g + 42).as_bytes());
    }

    /// Puts a space and a side of the bounding box at the end.
    pub fn edge(&mut self, g: i64)
        requires room { length self.old + 21 ≤ 256 }
        requires low { pos 0 ≤ℤ g }
        requires high { g ≤ℤ pos MOST_COORDINATE }
        ensures text { self.new ≡ self.old ++ 32 ∷ signed_decimal (printed 72 g) }
        ensures len { length self.new ≤ length self.old + 21 }
    {
        self.number(24 * g + 72);
    }

    /// Puts a space and a coordinate of a label at the end.
    pub fn beside(&mut self, g: i64)
        requires room { length self.old + 21 ≤ 256 }
        requires low { pos 0 ≤ℤ g }
        requires high { g ≤ℤ pos MOST_COORDINATE }
        ensures text { self.new ≡ self.old ++ 32 ∷ beside g }
        ensures len { length self.new ≤ length self.old + 21 }
    {
        self.number(24 * g + 42);
    }

    /// Puts a space and a coordinate of the grid at the end.
    pub fn at(&mut self, g: i64)
        requires room { length self.old + 21 ≤ 256 }
        requires low { pos 0 ≤ℤ g }
        requires high { g ≤ℤ pos MOST_COORDINATE }
        ensures text { self.new ≡ self.old ++ 32 ∷ coordinate g }
        ensures len { length self.new ≤ length self.old + 21 }
    {
        self.number(24 * g + 36);
    }
}
