//! A list that is indexed by ids, so that a vertex can't be looked up in a list of edges.
ghost use Rattle.std.specs.Prelude.{◌≡◌, ℕ, ◌<◌, ◌^◌, [], ◌∷◌, ◌++◌, length, replicate, slice_get, slice_index_or, slice_set, IfOk, OnOk, OnErr, Some};

use crate::{EdgeId, EdgeList, Id, NoMemory};
use std::alloc::Global;
use std::marker::{Model, PhantomData};
use std::mem;

/// A list of `T` that is indexed by `K`. A contract sees the list of its items.
#[derive(Drop)]
pub struct IdVec<K: Id, T> {
    items: Vec<T>,
    of: PhantomData<K>,
}

impl<K: Id, T> Model for IdVec<K, T> {
    ghost use Rattle.std.specs.Prelude.{List, length, ◌<◌, ◌^◌};
    ghost use Rattle.std.specs.Coded.{coded_list};

    ghost Value = { List T };

    ghost coded = { coded_list T.code };

    ghost view = { λ a. a.items.items };

    ghost invariant = { λ a. length a.items.items < 2 ^ 32 };
}

impl<K: Id, T> IdVec<K, T> {
    /// The empty list.
    pub fn new(alloc: Global) -> Self
        ensures { result ≡ [] }
    {
        IdVec {
            items: Vec::new(alloc),
            of: PhantomData,
        }
    }

    /// The value, n times.
    pub fn with_len(alloc: Global, n: u32, value: T) -> Result<Self, NoMemory>
    where
        T: Copy,
        ensures { IfOk result (λ v. v ≡ replicate n value) }
    {
        let mut items = Vec::with_capacity(alloc, n as usize)?;
        items.resize(n as usize, value)?;
        Ok(IdVec {
            items,
            of: PhantomData,
        })
    }

    /// The empty list, with room for n items.
    pub fn with_capacity(alloc: Global, n: u32) -> Result<Self, NoMemory>
        ensures { IfOk result (λ v. v ≡ []) }
    {
        let items = Vec::with_capacity(alloc, n as usize)?;
        Ok(IdVec {
            items,
            of: PhantomData,
        })
    }

    /// Takes room for n more items. Errors: `NoMemory`.
    pub fn reserve(&mut self, n: u32) -> Result<(), NoMemory>
        ensures { self.new ≡ self.old }
    {
        self.items.reserve_exact(n as usize)?;
        Ok(())
    }

    /// The number of items.
    pub fn len(&self) -> u32
        ensures { result ≡ length self.now }
    {
        self.items.len() as u32
    }

    /// Appends the value, and answers its place.
    ///
    /// Cost: as `Vec::push`, O(1) on average.
    pub fn push(&mut self, value: T) -> Result<K, NoMemory>
    where
        T: Drop,
        requires { length self.old < 2 ^ 31 }
        ensures key { IfOk result (λ k. k ≡ K.at (length self.old)) }
        ensures ok { OnOk result (self.new ≡ self.old ++ value ∷ []) }
        ensures err { OnErr result (self.new ≡ self.old) }
    {
        let key = K::of(self.items.len() as u32);
        match self.items.push(value) {
            Ok(()) => Ok(key),
            Err(_) => Err(NoMemory),
        }
    }

    /// The item at a place.
    pub fn get(&self, k: K) -> &T
        requires { K.index k < length self.now }
        ensures value { slice_get self.now (K.index k) ≡ Some result.now }
        ensures read { result.now ≡ slice_index_or self.now (K.index k) result.now }
    {
        &self.items[k.number() as usize]
    }

    /// Puts the value at a place.
    pub fn set(&mut self, k: K, value: T)
    where
        T: Drop,
        requires { K.index k < length self.old }
        ensures { self.new ≡ slice_set self.old (K.index k) value }
    {
        self.items[k.number() as usize] = value;
    }

    /// Puts the value at a place, and answers what stood there. So an item that can't be copied is changed: taken
    /// out, changed, and put back.
    pub fn replace(&mut self, k: K, value: T) -> T
        requires { K.index k < length self.old }
        ensures value { slice_get self.old (K.index k) ≡ Some result }
        ensures list { self.new ≡ slice_set self.old (K.index k) value }
    {
        mem::replace(&mut self.items[k.number() as usize], value)
    }

    /// All items.
    pub fn items(&self) -> &[T]
        ensures { result.now ≡ self.now }
    {
        &self.items
    }
}

impl<K: Id> IdVec<K, EdgeList> {
    /// Appends an edge to the list at a place. Errors: `NoMemory`; the lists stay as they are.
    #[inline(always)]
    pub fn push_at(&mut self, k: K, e: EdgeId) -> Result<(), NoMemory>
        requires { K.index k < length self.old }
        ensures ok { OnOk result (self.new ≡ slice_set self.old (K.index k) (slice_index_or self.old (K.index k) [] ++ e.0 ∷ [])) }
        ensures err { OnErr result (self.new ≡ self.old) }
    {
        let list = &mut self.items[k.number() as usize];
        list.push(e)
    }
}
