//! Reads the tree of a text, token by token.
//!
//! A `Builder` takes one token at a time. It holds the open lists in a stack, so that no call nests with the input, and
//! names the fault of a token that it does not take.

ghost use Rattle.std.specs.Prelude.{◌≡◌, ◌≢◌, ◌<◌, ◌≤◌, ◌+◌, ◌-◌, ◌^◌, [], None, Some, Err, OnOk, IfOk, IfErr, MatchResult, ◌⊎◌, IsTrue, length, take, drop, reverse};
ghost use Rattle.gml_core.specs.Reading.{said_by, step_at, end_fault, IsText, IsFirstFault};
ghost use Rattle.gml_core.specs.Nested.{nested};
ghost use Rattle.gml_core.specs.Views.{view};
ghost use Rattle.gml_core.specs.Trees.{Entries, Word, opens, closes, key};
ghost use Rattle.gml_core.specs.Printing.{printed, at_zero};
ghost use Rattle.gml_core.specs.Sound.{IsSound};
ghost use Rattle.gml_core.specs.declared.fault.GmlFault.{GmlFault};

use crate::fault::GmlFault;
use crate::number::integer;
use crate::readers::TreeReader;
use crate::text::text_of;
use crate::token::TokenKind;
use crate::tree::{
    Pair, Tree, Value, int_value, list_value, make_pair, make_tree, real_value, str_value,
};
use sqlite_items::Items;
use st_ids::Text;
use st_ids::limits::MOST_DEPTH;
use std::alloc::{AllocError, Global};
use std::mem;

/// A list that is not read to its end: its key, where the key and the list begin, and how many pairs stand before its own.
#[derive(Drop)]
pub struct Frame {
    key: Text,
    at: u32,
    from: u32,
    start: usize,
}

/// A key whose value comes next.
#[derive(Drop)]
pub struct Waiting {
    pub(crate) key: Text,
    pub(crate) at: u32,
}

/// What was read so far: the pairs of all open lists, those of the outer ones first.
#[derive(Drop)]
pub struct Builder {
    pub(crate) stack: Vec<Frame>,
    pairs: Vec<Pair>,
    pub(crate) waits: Option<Waiting>,
    ghost nested: { IsTrue (nested (reverse stack.items) (length pairs.items)) },
}

/// Cuts off the pairs from a place on. The shorter part moves, so that a long list keeps the block where it was read.
fn cut_off(pairs: &mut Vec<Pair>, start: usize) -> Result<Vec<Pair>, AllocError>
    requires { start ≤ length pairs.old.items }
    ensures front { OnOk result (pairs.new.items ≡ take start pairs.old.items) }
    ensures tail { IfOk result (λ inner. inner.items ≡ drop start pairs.old.items) }
    ensures left { start ≤ length pairs.new.items }
{
    let count = pairs.len() - start;
    if count <= start {
        return pairs.split_off(start);
    }
    pairs.rotate_left(start);
    let front = pairs.split_off(count)?;
    let mut inner = mem::replace(pairs, front);
    inner.shrink_to_fit();
    Ok(inner)
}

impl Builder {
    ghost use Rattle.gml_core.specs.Building.{state_of, TakesWord, IsAtom, IsFinished};

    pub fn new(alloc: Global) -> Builder
        ensures stack { result.stack.items ≡ [] }
        ensures pairs { result.pairs.items ≡ [] }
        ensures waits { result.waits ≡ None }
    {
        Builder {
            stack: Vec::new(alloc),
            pairs: Vec::new(alloc),
            waits: None,
        }
    }

    /// Ends the innermost list.
    #[inline(always)]
    pub(crate) fn close(&mut self, alloc: Global, at: u32) -> Result<(), GmlFault>
        requires { self.old.waits ≡ None }
        ensures ok { OnOk result (TakesWord at closes self.old self.new) }
        ensures err { IfErr result (λ e. e ≢ GmlFault.NoMemory → step_at (state_of self.old) at closes ≡ Err e) }
    {
        match self.stack.pop() {
            None => Err(GmlFault::Stray { at }),
            Some(frame) => {
                let Frame { key, at, start, .. } = frame;
                let inner = Items::from_vec(cut_off(&mut self.pairs, start)?);
                let pair = make_pair(key, at, list_value(make_tree(inner, alloc)));
                self.pairs.push(pair)?;
                Ok(())
            }
        }
    }

    /// Keeps a key until its value comes.
    fn wait(&mut self, alloc: Global, at: u32, text: &[u8]) -> Result<(), GmlFault>
        requires { self.old.waits ≡ None }
        ensures ok { OnOk result (TakesWord at (key text.now at) self.old self.new) }
        ensures err { IfErr result (λ e. e ≡ GmlFault.NoMemory) }
    {
        let key = text_of(alloc, text)?;
        self.waits = Some(Waiting { key, at });
        Ok(())
    }

    /// Takes a word where a pair may begin.
    #[inline(always)]
    #[tactic(auto, unfolding(crate::specs::Reading::step_at))]
    fn take_at_pair(
        &mut self,
        alloc: Global,
        kind: TokenKind,
        at: u32,
        text: &[u8],
    ) -> Result<(), GmlFault>
        requires { self.old.waits ≡ None }
        ensures ok { OnOk result (TakesWord at (said_by kind at text.now) self.old self.new) }
        ensures err { IfErr result (λ e. e ≢ GmlFault.NoMemory → step_at (state_of self.old) at (said_by kind at text.now) ≡ Err e) }
    {
        match kind {
            TokenKind::Key => self.wait(alloc, at, text),
            TokenKind::CloseList => self.close(alloc, at),
            _ => Err(GmlFault::Stray { at }),
        }
    }

    /// Begins the list that is a key's value.
    #[inline(always)]
    pub(crate) fn begin(&mut self, waiting: Waiting, at: u32) -> Result<(), GmlFault>
        requires { self.old.waits ≡ None }
        ensures ok { OnOk result (TakesWord at opens (record self.old { waits = Some waiting }) self.new) }
        ensures err { IfErr result (λ e. e ≢ GmlFault.NoMemory → step_at (state_of (record self.old { waits = Some waiting })) at opens ≡ Err e) }
    {
        if self.stack.len() >= MOST_DEPTH {
            return Err(GmlFault::TooDeep { at });
        }
        let Waiting { key, at: place } = waiting;
        let start = self.pairs.len();
        self.stack.push(Frame {
            key,
            at: place,
            from: at,
            start,
        })?;
        Ok(())
    }

    /// Ends a pair with a value that is no list.
    #[inline(always)]
    pub(crate) fn put(&mut self, waiting: Waiting, at: u32, value: Value) -> Result<(), GmlFault>
        requires { self.old.waits ≡ None }
        ensures ok { (w : Word) → IsAtom w value → OnOk result (TakesWord at w (record self.old { waits = Some waiting }) self.new) }
        ensures err { IfErr result (λ e. e ≡ GmlFault.NoMemory) }
    {
        let Waiting { key, at: place } = waiting;
        self.pairs.push(make_pair(key, place, value))?;
        Ok(())
    }

    /// Takes a word where the value of a key may stand.
    #[inline(always)]
    #[tactic(auto, unfolding(crate::specs::Reading::step_at))]
    fn take_at_value(
        &mut self,
        alloc: Global,
        waiting: Waiting,
        kind: TokenKind,
        at: u32,
        text: &[u8],
    ) -> Result<(), GmlFault>
        requires { self.old.waits ≡ None }
        ensures ok { OnOk result (TakesWord at (said_by kind at text.now) (record self.old { waits = Some waiting }) self.new) }
        ensures err { IfErr result (λ e. e ≢ GmlFault.NoMemory → step_at (state_of (record self.old { waits = Some waiting })) at (said_by kind at text.now) ≡ Err e) }
    {
        match kind {
            TokenKind::Key | TokenKind::CloseList => Err(GmlFault::NoValue { at: waiting.at }),
            TokenKind::OpenList => self.begin(waiting, at),
            TokenKind::Int => match integer(text) {
                None => Err(GmlFault::BigNumber { at }),
                Some(n) => self.put(waiting, at, int_value(n)),
            },
            TokenKind::Real => {
                let text = text_of(alloc, text)?;
                self.put(waiting, at, real_value(text))
            }
            TokenKind::Str => {
                let text = text_of(alloc, text)?;
                self.put(waiting, at, str_value(text))
            }
        }
    }

    /// Takes the next word: a token of this kind at this place, by its text.
    pub fn take(
        &mut self,
        alloc: Global,
        kind: TokenKind,
        at: u32,
        text: &[u8],
    ) -> Result<(), GmlFault>
        ensures ok { OnOk result (TakesWord at (said_by kind at text.now) self.old self.new) }
        ensures err { IfErr result (λ e. e ≢ GmlFault.NoMemory → step_at (state_of self.old) at (said_by kind at text.now) ≡ Err e) }
    {
        match self.waits.take() {
            None => self.take_at_pair(alloc, kind, at, text),
            Some(waiting) => self.take_at_value(alloc, waiting, kind, at, text),
        }
    }

    /// The tree, where the text ends.
    pub fn finish(self, alloc: Global) -> Result<Tree, GmlFault>
        ensures ok { IfOk result (λ t. IsFinished self t) }
        ensures err { IfErr result (λ e. end_fault (state_of self) ≡ Some e) }
    {
        let Builder {
            mut stack,
            mut pairs,
            waits,
        } = self;
        if let Some(waiting) = waits {
            return Err(GmlFault::NoValue { at: waiting.at });
        }
        match stack.pop() {
            Some(frame) => Err(GmlFault::Unclosed { at: frame.from }),
            None => {
                pairs.shrink_to_fit();
                Ok(make_tree(Items::from_vec(pairs), alloc))
            }
        }
    }
}

/// The tree of the bytes, or their first fault.
///
/// Errors: each fault exactly where it is the first, at its place, and `NoMemory`.
/// Cost: one pass, O(bytes) time; a list takes one block of its length, and a long key, real or string
/// one of its own.
pub fn parse(alloc: Global, bytes: &[u8]) -> Result<Tree, GmlFault>
    requires { length bytes.now < 2 ^ 32 }
    ensures text { IfOk result (λ t. IsText bytes.now (view t)) }
    ensures fault { IfErr result (λ e. e ≢ GmlFault.NoMemory → IsFirstFault bytes.now e) }

    ensures sound { IfOk result (λ t. IsSound (view t)) }

    // There is no other answer, unless memory runs out.
    ensures only_text { (t : Entries) → IsText bytes.now t → MatchResult result (λ u. view u ≡ t) (λ e. e ≡ GmlFault.NoMemory) }
    ensures only_fault { (f : GmlFault) → IsFirstFault bytes.now f → MatchResult result (λ _. ⊥) (λ e. (e ≡ f) ⊎ (e ≡ GmlFault.NoMemory)) }

    // What is printed is read again, apart from places.
    ensures again { (t : Entries) → IsSound t → bytes.now ≡ printed t
        → MatchResult result (λ u. at_zero (view u) ≡ at_zero t) (λ e. e ≡ GmlFault.NoMemory) }
{
    let reader = TreeReader::new(alloc).feed(bytes)?;
    reader.finish()
}
