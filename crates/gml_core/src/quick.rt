//! Pairs that lie within a piece, taken at once.
//!
//! Most pairs are a short key and an integer, or begin or end a list. Such a pair is read in one pass, and no token is
//! made. A byte of white space that is needed or likely behind it is taken too, so that the next pair begins at once.

ghost use Rattle.std.specs.Prelude.{◌≡◌, ◌<◌, ◌≤◌, ◌+◌, ◌^◌, length, slice_index, None, Some, IfOk};
ghost use Rattle.std.specs.Bool.{OnTrue};

use crate::lexing::{is_space, quote_at};
use crate::parsing::{Builder, Waiting};
use crate::text::front_of;
use crate::token::TokenKind;
use crate::tree::{int_value, real_value, str_value};
use crate::within::{past_one, short_int, short_key, white, whole};
use st_ids::limits::MOST_DEPTH;
use st_ids::{NoMemory, Text};
use std::alloc::Global;

impl Builder {
    ghost use Rattle.gml_core.specs.Readers.{ReadsOn};

    /// Whether a pair may begin.
    #[inline(always)]
    pub fn is_at_pair(&self) -> bool
        ensures { OnTrue result (self.now.waits ≡ None) }
    {
        self.waits.is_none()
    }

    /// Takes the bracket that begins a list, and a byte of white space behind it.
    #[inline(always)]
    fn open_quickly(&mut self, waiting: Waiting, at: u32, rest: &[u8]) -> Result<usize, NoMemory>
        requires waits { self.old.waits ≡ None }
        requires some { 0 < length rest.now }
        requires bracket { slice_index rest.now 0 ≡ 91 }
        ensures within { IfOk result (λ n. n ≤ length rest.now) }
        ensures reads { IfOk result (ReadsOn (record self.old { waits = Some waiting }) self.new at rest.now) }
    {
        match self.begin(waiting, at) {
            Ok(()) => Ok(past_one(rest, 1)),
            Err(_) => Err(NoMemory),
        }
    }

    /// Takes a short integer or the bracket of a list, and a byte of white space, or else keeps the key until its value
    /// comes.
    #[inline(always)]
    fn value_quickly(&mut self, waiting: Waiting, at: u32, rest: &[u8]) -> Result<usize, NoMemory>
        requires waits { self.old.waits ≡ None }
        requires fits { at + length rest.now < 2 ^ 32 }
        ensures within { IfOk result (λ n. n ≤ length rest.now) }
        ensures reads { IfOk result (ReadsOn (record self.old { waits = Some waiting }) self.new at rest.now) }
    {
        let found = short_int(rest);
        if 0 < found.len {
            return match self.put(waiting, at, int_value(found.value as i64)) {
                Ok(()) => Ok(found.len + 1),
                Err(_) => Err(NoMemory),
            };
        }
        if !rest.is_empty() && rest[0] == b'[' && self.stack.len() < MOST_DEPTH {
            return self.open_quickly(waiting, at, rest);
        }
        self.waits = Some(waiting);
        Ok(0)
    }

    /// Takes a short key and a byte of white space, and what `value_quickly` takes behind it.
    #[inline(always)]
    fn pair_quickly(&mut self, alloc: Global, at: u32, rest: &[u8]) -> Result<usize, NoMemory>
        requires waits { self.old.waits ≡ None }
        requires fits { at + length rest.now < 2 ^ 32 }
        ensures within { IfOk result (λ n. n ≤ length rest.now) }
        ensures reads { IfOk result (ReadsOn self.old self.new at rest.now) }
    {
        let word = short_key(rest);
        if word == 0 {
            return Ok(0);
        }
        let key = Text::front(alloc, rest, word);
        let n = word + 1;
        let more = self.value_quickly(Waiting { key, at }, at + n as u32, &rest[n..])?;
        Ok(n + more)
    }

    /// Takes the bracket that ends a list, and a byte of white space, or else what `pair_quickly` takes.
    #[inline(always)]
    fn one_quickly(&mut self, alloc: Global, at: u32, rest: &[u8]) -> Result<usize, NoMemory>
        requires waits { self.old.waits ≡ None }
        requires fits { at + length rest.now < 2 ^ 32 }
        ensures within { IfOk result (λ n. n ≤ length rest.now) }
        ensures reads { IfOk result (ReadsOn self.old self.new at rest.now) }
    {
        if rest.is_empty() || rest[0] != b']' || self.stack.is_empty() {
            return self.pair_quickly(alloc, at, rest);
        }
        match self.close(alloc, at) {
            Ok(()) => Ok(past_one(rest, 1)),
            Err(_) => Err(NoMemory),
        }
    }

    /// Takes what `one_quickly` takes, or else white space, and answers how many bytes. The rest lies at a place.
    #[inline(always)]
    pub fn take_quickly(&mut self, alloc: Global, at: u32, rest: &[u8]) -> Result<usize, NoMemory>
        requires waits { self.old.waits ≡ None }
        requires fits { at + length rest.now < 2 ^ 32 }
        ensures within { IfOk result (λ n. n ≤ length rest.now) }
        ensures reads { IfOk result (ReadsOn self.old self.new at rest.now) }
    {
        let n = self.one_quickly(alloc, at, rest)?;
        if n == 0 {
            return Ok(white(rest));
        }
        Ok(n)
    }

    /// Takes the string that a key waits for, and a byte of white space behind it, or else nothing.
    fn text_quickly(&mut self, alloc: Global, at: u32, rest: &[u8]) -> Result<usize, NoMemory>
        requires some { 0 < length rest.now }
        requires quote { slice_index rest.now 0 ≡ 34 }
        ensures within { IfOk result (λ n. n ≤ length rest.now) }
        ensures reads { IfOk result (ReadsOn self.old self.new at rest.now) }
    {
        let behind = &rest[1..];
        match quote_at(behind) {
            None => Ok(0),
            Some(n) => match self.waits.take() {
                None => Ok(0),
                Some(waiting) => {
                    let text = front_of(alloc, behind, n)?;
                    match self.put(waiting, at, str_value(text)) {
                        Ok(()) => Ok(past_one(rest, n + 2)),
                        Err(_) => Err(NoMemory),
                    }
                }
            },
        }
    }
    /// Takes the real that a key waits for, and a byte of white space behind it, or else nothing.
    fn real_quickly(&mut self, alloc: Global, at: u32, rest: &[u8]) -> Result<usize, NoMemory>
        requires { 0 < length rest.now }
        ensures within { IfOk result (λ n. n ≤ length rest.now) }
        ensures reads { IfOk result (ReadsOn self.old self.new at rest.now) }
    {
        if is_space(rest[0]) {
            return Ok(0);
        }
        match whole(rest) {
            None => Ok(0),
            Some(found) => match found.kind {
                TokenKind::Real => match self.waits.take() {
                    None => Ok(0),
                    Some(waiting) => {
                        let text = front_of(alloc, rest, found.len)?;
                        match self.put(waiting, at, real_value(text)) {
                            Ok(()) => Ok(past_one(rest, found.len)),
                            Err(_) => Err(NoMemory),
                        }
                    }
                },
                _ => Ok(0),
            },
        }
    }
    /// Takes the string or the real that a key waits for, and a byte of white space behind it, or else nothing.
    pub fn atom_quickly(&mut self, alloc: Global, at: u32, rest: &[u8]) -> Result<usize, NoMemory>
        requires { 0 < length rest.now }
        ensures within { IfOk result (λ n. n ≤ length rest.now) }
        ensures reads { IfOk result (ReadsOn self.old self.new at rest.now) }
    {
        if rest[0] == b'"' {
            self.text_quickly(alloc, at, rest)
        } else {
            self.real_quickly(alloc, at, rest)
        }
    }
}
