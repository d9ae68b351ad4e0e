//! Trees: lists of pairs of a key and a value.

ghost use Rattle.std.specs.Prelude.{◌≡◌, ◌≢◌, ◌<◌, ◌≤◌, ◌-◌, ◌^◌, [], ◌∷◌, ◌++◌, IfOk, OnOk, OnErr, length, slice_get, Some};
ghost use Rattle.gml_core.specs.Trees.{Entries, entry, atom, none, push, listed, depth, list as list_datum, int as int_atom, real as real_atom, str as str_atom};
ghost use Rattle.std.specs.List.{All};
ghost use Rattle.gml_core.specs.Views.{datum, entry_view, view, entries};
ghost use Rattle.gml_core.specs.Sound.{IsSpelled, IsSound, IsSoundDatum};

use crate::text::text_of;
use crate::token::TokenKind;
use sqlite_items::Items;
use st_ids::{NoMemory, Text};
use std::alloc::{AllocError, Global};

/// What a key stands for. A real and a string have their bytes as read, a string without its quotes.
#[cycle(tree)]
#[derive(Drop)]
pub enum Value {
    Int(i64),
    Real(Text),
    Str(Text),
    List(Tree),
}

/// A key, its offset in the file, and its value.
#[cycle(tree)]
#[derive(Drop)]
pub struct Pair {
    pub key: Text,
    pub at: u32,
    pub value: Value,
}

/// A list of pairs, in their order.
#[cycle(tree)]
#[derive(Drop)]
pub struct Tree {
    pub(crate) pairs: Items<Pair>,
    alloc: Global,
}

pub fn make_pair(key: Text, at: u32, value: Value) -> Pair
    ensures { entry_view result ≡ entry key at (datum value) }
{
    Pair { key, at, value }
}

pub fn make_tree(pairs: Items<Pair>, alloc: Global) -> Tree
    ensures { view result ≡ entries pairs }
{
    Tree { pairs, alloc }
}

pub fn list_value(tree: Tree) -> Value
    ensures { datum result ≡ list_datum (view tree) }
{
    Value::List(tree)
}

pub fn int_value(n: i64) -> Value
    ensures { datum result ≡ atom (int_atom n) }
{
    Value::Int(n)
}

pub fn real_value(text: Text) -> Value
    ensures { datum result ≡ atom (real_atom text) }
{
    Value::Real(text)
}

pub fn str_value(text: Text) -> Value
    ensures { datum result ≡ atom (str_atom text) }
{
    Value::Str(text)
}

#[tactic(auto, using(crate::proofs::Pushes::entries_push))]
fn push_pair(pairs: &mut Items<Pair>, pair: Pair) -> Result<(), AllocError>
    ensures ok { OnOk result (entries pairs.new ≡ push (entries pairs.old) (entry_view pair)) }
    ensures err { OnErr result (pairs.new ≡ pairs.old) }
{
    pairs.push(pair)
}

#[tactic(auto, using(crate::proofs::Pushes::length_listed))]
fn count(pairs: &[Pair]) -> u32
    requires { length (listed (entries pairs.now)) < 2 ^ 32 }
    ensures { result ≡ length (listed (entries pairs.now)) }
{
    pairs.len() as u32
}

#[tactic(auto, using(crate::proofs::Pushes::length_listed, crate::proofs::Pushes::get_listed))]
fn nth(pairs: &[Pair], i: u32) -> &Pair
    requires { i < length (listed (entries pairs.now)) }
    ensures entry { slice_get (listed (entries pairs.now)) i ≡ Some (entry_view result.now) }
    ensures parts { entry_view result.now ≡ entry result.now.key result.now.at (datum result.now.value) }
{
    &pairs[i as usize]
}

impl Tree {
    /// The empty list.
    pub fn new(alloc: Global) -> Tree
        ensures empty { view result ≡ none }
        ensures sound { IsSound (view result) }
    {
        Tree {
            pairs: Items::new(alloc),
            alloc,
        }
    }

    /// The empty list, with room for so many pairs: as many are appended without a new block.
    ///
    /// Errors: `NoMemory`.
    /// Cost: one block, and none for no pairs.
    pub fn with_room(alloc: Global, n: u32) -> Result<Tree, NoMemory>
        ensures empty { IfOk result (λ t. view t ≡ none) }
        ensures sound { IfOk result (λ t. IsSound (view t)) }
    {
        let pairs = Items::from_vec(Vec::with_capacity(alloc, n as usize)?);
        Ok(Tree { pairs, alloc })
    }

    /// All pairs, in order.
    pub(crate) fn pairs(&self) -> &[Pair]
        ensures { entries result.now ≡ view self.now }
    {
        self.pairs.as_slice()
    }

    /// The number of pairs.
    pub fn len(&self) -> u32
        requires { IsSound (view self.now) }
        ensures { result ≡ length (listed (view self.now)) }
    {
        count(self.pairs())
    }

    /// Pair i of the list, from 0.
    pub fn pair(&self, i: u32) -> &Pair
        requires { i < length (listed (view self.now)) }
        ensures entry { slice_get (listed (view self.now)) i ≡ Some (entry_view result.now) }
        ensures parts { entry_view result.now ≡ entry result.now.key result.now.at (datum result.now.value) }

        // A list inside a sound tree is sound.
        ensures inner { (list : Entries) → IsSound (view self.now) → datum result.now.value ≡ list_datum list → IsSound list }
    {
        nth(self.pairs(), i)
    }

    /// Appends a pair, whatever its key and value.
    fn place(&mut self, key: &[u8], value: Value) -> Result<(), NoMemory>
        ensures ok { OnOk result (view self.new ≡ push (view self.old) (entry key.now 0 (datum value))) }
        ensures err { OnErr result (view self.new ≡ view self.old) }
    {
        let key = text_of(self.alloc, key)?;
        match push_pair(&mut self.pairs, make_pair(key, 0, value)) {
            Ok(()) => Ok(()),
            Err(_) => Err(NoMemory),
        }
    }

    /// Appends a pair that keeps a sound tree sound.
    fn put(&mut self, key: &[u8], value: Value) -> Result<(), NoMemory>
        requires sound { IsSound (view self.old) }
        requires room { length (listed (view self.old)) < 2 ^ 31 - 1 }
        requires key { IsSpelled TokenKind.Key key.now }
        requires value { IsSoundDatum (datum value) }
        ensures ok { OnOk result (view self.new ≡ push (view self.old) (entry key.now 0 (datum value))) }
        ensures err { OnErr result (view self.new ≡ view self.old) }
        ensures sound { IsSound (view self.new) }
    {
        self.place(key, value)
    }

    /// Appends a pair with an integer. Its place is 0.
    ///
    /// Errors: `NoMemory`; the tree is as before.
    pub fn push_int(&mut self, key: &[u8], n: i64) -> Result<(), NoMemory>
        requires sound { IsSound (view self.old) }
        requires room { length (listed (view self.old)) < 2 ^ 31 - 1 }
        requires key { IsSpelled TokenKind.Key key.now }
        ensures ok { OnOk result (view self.new ≡ push (view self.old) (entry key.now 0 (atom (int_atom n)))) }
        ensures err { OnErr result (view self.new ≡ view self.old) }
        ensures sound { IsSound (view self.new) }
    {
        self.put(key, int_value(n))
    }

    /// Appends a pair with a string. Its place is 0.
    ///
    /// Errors: `NoMemory`; the tree is as before.
    pub fn push_str(&mut self, key: &[u8], text: &[u8]) -> Result<(), NoMemory>
        requires sound { IsSound (view self.old) }
        requires room { length (listed (view self.old)) < 2 ^ 31 - 1 }
        requires key { IsSpelled TokenKind.Key key.now }
        requires no_quote { All (λ b. b ≢ 34) text.now }
        ensures ok { OnOk result (view self.new ≡ push (view self.old) (entry key.now 0 (atom (str_atom text.now)))) }
        ensures err { OnErr result (view self.new ≡ view self.old) }
        ensures sound { IsSound (view self.new) }
    {
        let text = text_of(self.alloc, text)?;
        self.put(key, str_value(text))
    }

    /// Appends a pair with a list. Its place is 0.
    ///
    /// Errors: `NoMemory`; the tree is as before, and the list is dropped.
    pub fn push_list(&mut self, key: &[u8], list: Tree) -> Result<(), NoMemory>
        requires sound { IsSound (view self.old) }
        requires room { length (listed (view self.old)) < 2 ^ 31 - 1 }
        requires key { IsSpelled TokenKind.Key key.now }
        requires list { IsSound (view list) }
        requires nests { depth (view list) ≤ 31 }
        ensures ok { OnOk result (view self.new ≡ push (view self.old) (entry key.now 0 (list_datum (view list)))) }
        ensures err { OnErr result (view self.new ≡ view self.old) }
        ensures sound { IsSound (view self.new) }
    {
        self.put(key, list_value(list))
    }
}
