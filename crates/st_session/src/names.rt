//! Names that are found by a hash index, which edits keep up to date.
ghost use Rattle.std.specs.Prelude.{◌≡◌, ℤ, pos, [], ◌∷◌, ◌++◌, ◌<◌, ◌^◌, List, length, slice_get, IfOk, IfSome, MatchOption, OnErr, OnOk, Some};
ghost use Rattle.std.specs.List.{position, swap_remove};
ghost use Rattle.std.specs.Ordering.{int_eq};
ghost use Rattle.st_session.specs.States.{HasEachOnce, IsNameAt, LacksName};

use indexmap::IndexSet;
use st_ids::NoMemory;
use std::alloc::Global;
use std::hash::{BuildHasher, DefaultHasher, Hasher};
use std::marker::Model;

/// Makes hashers that begin with all names of a graph, so that no graph has names of one hash by design.
#[derive(Clone, Copy)]
struct Salted {
    begun: DefaultHasher,
}

impl BuildHasher for Salted {
    type Hasher = DefaultHasher;

    ghost build_hasher = { λ s. s.begun };

    fn build_hasher(&self) -> DefaultHasher {
        self.begun
    }
}

/// Hashers that begin with these names.
fn make_salted(names: &[i64]) -> Salted {
    let mut begun = DefaultHasher::new();
    for name in names {
        begun.write_i64(*name);
    }
    Salted { begun }
}

fn find_in(set: &IndexSet<i64, Salted>, name: &i64) -> Option<u32>
    requires { length set.now.keys < 2 ^ 32 }
    ensures number { result ≡ position (int_eq name.now) set.now.keys }
    ensures within { IfSome result (λ i. i < length set.now.keys) }
{
    match set.get_index_of(name) {
        Some(i) => Some(i as u32),
        None => None,
    }
}

/// Different names, each of which has its place in the list as its number.
#[derive(Drop)]
pub struct NameIndex {
    set: IndexSet<i64, Salted>,
}

impl Model for NameIndex {
    ghost use Rattle.std.specs.Prelude.{List, ℤ};

    ghost Value = { List ℤ };

    ghost view = { λ a. a.set.keys };
}

impl NameIndex {
    /// The index of these names.
    pub fn of(alloc: Global, names: &[i64]) -> Result<NameIndex, NoMemory>
        requires { HasEachOnce names.now }
        ensures { IfOk result (λ s. s ≡ names.now) }
    {
        let Ok(set) = IndexSet::with_capacity_and_hasher(alloc, names.len(), make_salted(names))
        else {
            return Err(NoMemory);
        };
        let mut index = NameIndex { set };
        for name in names {
            index.add(*name)?;
        }
        Ok(index)
    }

    /// Puts a new name at the end. Errors: `NoMemory`, and the names are as before.
    pub fn add(&mut self, name: i64) -> Result<(), NoMemory>
        requires { LacksName self.old name }
        ensures ok { OnOk result (self.new ≡ self.old ++ name ∷ []) }
        ensures err { OnErr result (self.new ≡ self.old) }
    {
        match self.set.insert_full(name) {
            Ok(_) => Ok(()),
            Err(_) => Err(NoMemory),
        }
    }

    /// Takes the last name out.
    pub fn drop_last(&mut self)
        ensures { (names : List ℤ) (name : ℤ) → self.old ≡ names ++ name ∷ [] → self.new ≡ names }
    {
        let _ = self.set.pop();
    }

    /// Takes the name at a place out, and the last one takes its place.
    pub fn take_out(&mut self, i: u32)
        requires { i < length self.old }
        ensures { self.new ≡ swap_remove self.old i (pos 0) }
    {
        let _ = self.set.swap_remove_index(i as usize);
    }

    /// The place of a name. Cost: O(1) on average.
    pub fn find(&self, name: i64) -> Option<u32>
        requires { length self.now < 2 ^ 32 }
        ensures place { MatchOption result (LacksName self.now name) (λ i. IsNameAt self.now i name) }
        ensures within { IfSome result (λ i. i < length self.now) }
    {
        find_in(&self.set, &name)
    }

    /// The name at a place.
    pub fn name(&self, i: u32) -> i64
        requires { i < length self.now }
        ensures { IsNameAt self.now i result }
    {
        self.set.as_slice()[i as usize]
    }

    /// That the names differ.
    pub fn facts(&self)
        ensures { HasEachOnce self.now }
    {
        let _ = self.set.len();
    }
}
