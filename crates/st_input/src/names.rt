//! Names and their numbers: by differences at the beginning, where they follow one another, and by a hash index behind.
ghost use Rattle.st_input.specs.Names.{is_among, number_of};
ghost use Rattle.std.specs.Prelude.{◌≡◌, ◌≢◌, ℕ, [], ◌∷◌, ◌++◌, ◌<◌, ◌^◌, not, length, if◌then◌else◌, IfOk, IfSome, MatchOption, OnOk, Some, slice_get};

use crate::runs::Run;
use indexmap::IndexSet;
use st_ids::NoMemory;
use std::alloc::Global;
use std::hash::{BuildHasher, DefaultHasher, Hasher};
use std::marker::Model;

#[tactic(auto, unfolding(crate::specs::Names::number_of))]
fn find_in(set: &IndexSet<i64, Salted>, name: &i64) -> Option<u32>
    requires { length set.now.keys < 2 ^ 32 }
    ensures number { result ≡ number_of set.now.keys name.now }
    ensures within { IfSome result (λ n. n < length set.now.keys) }
{
    match set.get_index_of(name) {
        Some(n) => Some(n as u32),
        None => None,
    }
}

/// Makes hashers that begin with all names of a file, so that no file has names of one hash by design.
#[derive(Clone, Copy)]
pub(crate) struct Salted {
    begun: DefaultHasher,
}

impl BuildHasher for Salted {
    type Hasher = DefaultHasher;

    ghost build_hasher = { λ s. s.begun };

    fn build_hasher(&self) -> DefaultHasher {
        self.begun
    }
}

impl Salted {
    pub(crate) fn new() -> Salted {
        Salted {
            begun: DefaultHasher::new(),
        }
    }

    /// Takes a name in.
    pub(crate) fn take(&mut self, name: i64) {
        self.begun.write_i64(name);
    }
}

/// Puts a name into a set, which takes room for n names with its first one; and says whether it is a new one.
#[inline(never)]
#[tactic(auto, unfolding(crate::specs::Names::is_among))]
fn insert_in(set: &mut IndexSet<i64, Salted>, n: usize, name: i64) -> Result<bool, NoMemory>
    ensures fresh { IfOk result (λ fresh. fresh ≡ not (is_among set.old.keys name)) }
    ensures names { OnOk result (set.new.keys ≡ (if is_among set.old.keys name then set.old.keys else set.old.keys ++ name ∷ [])) }
{
    let room = if set.is_empty() { n } else { 0 };
    if set.reserve(room).is_err() {
        return Err(NoMemory);
    }
    match set.insert_full(name) {
        Ok((_, fresh)) => Ok(fresh),
        Err(_) => Err(NoMemory),
    }
}

/// Different names, each of which has its place in the list as its number. Those at the beginning that follow one
/// another need no hash; those behind them are found by one.
#[derive(Drop)]
pub(crate) struct NameSet {
    run: Run,
    others: IndexSet<i64, Salted>,
    room: usize,
}

impl Model for NameSet {
    ghost use Rattle.std.specs.Prelude.{◌++◌, List, ℤ};

    ghost Value = { List ℤ };

    ghost view = { λ a. a.run ++ a.others.keys };
}

impl NameSet {
    /// No names yet. Room for n of them is taken with the first one that needs a hash.
    pub(crate) fn with_room(alloc: Global, n: usize, salt: Salted) -> NameSet
        ensures { result ≡ [] }
    {
        NameSet {
            run: Run::new(),
            others: IndexSet::with_hasher(alloc, salt),
            room: n,
        }
    }

    /// Puts a name at the end, behind those that follow one another.
    #[tactic(auto, using(crate::proofs::RunLemmas::among_either, crate::proofs::RunLemmas::among_where_some, crate::proofs::RunLemmas::not_among_where_none))]
    fn add_behind(&mut self, name: i64) -> Result<bool, NoMemory>
        ensures fresh { IfOk result (λ fresh. fresh ≡ not (is_among self.old name)) }
        ensures names { OnOk result (self.new ≡ (if is_among self.old name then self.old else self.old ++ name ∷ [])) }
    {
        if self.run.find(name).is_some() {
            return Ok(false);
        }
        insert_in(&mut self.others, self.room, name)
    }

    /// Puts a name at the end, and says whether it is a new one.
    #[tactic(auto, using(crate::proofs::RunLemmas::among_either))]
    pub(crate) fn add(&mut self, name: i64) -> Result<bool, NoMemory>
        ensures fresh { IfOk result (λ fresh. fresh ≡ not (is_among self.old name)) }
        ensures names { OnOk result (self.new ≡ (if is_among self.old name then self.old else self.old ++ name ∷ [])) }
    {
        if self.others.is_empty() && self.run.follow(name) {
            return Ok(true);
        }
        self.add_behind(name)
    }

    #[tactic(auto, using(crate::proofs::RunLemmas::number_first, crate::proofs::RunLemmas::number_rest))]
    fn find_either(&self, name: i64) -> Option<u32>
        requires { length self.now < 2 ^ 32 }
        ensures number { result ≡ number_of self.now name }
        ensures within { IfSome result (λ n. n < length self.now) }
    {
        match self.run.find(name) {
            Some(n) => Some(n as u32),
            None => match find_in(&self.others, &name) {
                Some(n) => Some(self.run.len() as u32 + n),
                None => None,
            },
        }
    }

    /// The number of a name.
    pub(crate) fn find(&self, name: i64) -> Option<u32>
        requires { length self.now < 2 ^ 32 }
        ensures number { result ≡ number_of self.now name }
        ensures within { IfSome result (λ n. n < length self.now) }
        ensures place { MatchOption result ((v : ℕ) → slice_get self.now v ≢ Some name) (λ n. slice_get self.now n ≡ Some name) }
    {
        self.find_either(name)
    }
}
