//! Names that follow one another, as most programs write them: each is found by a difference.
ghost use Rattle.st_input.specs.Names.{is_among, names_from, number_of};
ghost use Rattle.std.specs.Prelude.{◌≡◌, [], ◌∷◌, ◌++◌, ◌<◌, ◌<ℤ◌, ◌^◌, pos, length, false, if◌then◌else◌, IfSome, IsTrue, MatchOption};

use std::marker::Model;

/// The size of a name that isn't negative.
fn size_of(name: i64) -> Option<u64>
    ensures size { MatchOption result (name <ℤ pos 0) (λ n. name ≡ pos n) }
    ensures small { IfSome result (λ n. n < 2 ^ 63) }
{
    if name < 0 {
        None
    } else {
        Some(name.unsigned_abs())
    }
}

/// The place of the name n among so many names from a first one on.
#[tactic(auto, using(crate::proofs::RunLemmas::found_by_difference), unfolding(crate::specs::Names::by_difference))]
fn place_of(first: u64, count: u64, n: u64) -> Option<u64>
    ensures number { result ≡ number_of (names_from first count) (pos n) }
    ensures within { IfSome result (λ k. k < count) }
{
    if first <= n && n - first < count {
        Some(n - first)
    } else {
        None
    }
}

/// So many names from a first one on, each one more than the one before; none is negative.
#[derive(Drop)]
pub(crate) struct Run {
    first: u64,
    count: u64,
}

impl Model for Run {
    ghost use Rattle.std.specs.Prelude.{◌≤◌, ◌+◌, ◌^◌, List, ℤ};
    ghost use Rattle.st_input.specs.Names.{names_from};

    ghost Value = { List ℤ };

    ghost view = { λ r. names_from r.first r.count };

    ghost invariant = { λ r. r.first + r.count ≤ 2 ^ 63 };
}

impl Run {
    #[tactic(auto, unfolding(crate::specs::Names::names_from))]
    pub(crate) fn new() -> Run
        ensures { result ≡ [] }
    {
        Run { first: 0, count: 0 }
    }

    #[tactic(auto, using(crate::proofs::RunLemmas::run_begun, crate::proofs::RunLemmas::run_grown, crate::proofs::RunLemmas::begun_fresh, crate::proofs::RunLemmas::grown_fresh))]
    fn follow_by(&mut self, n: u64) -> bool
        requires { n < 2 ^ 63 }
        ensures names { self.new ≡ (if result then self.old ++ pos n ∷ [] else self.old) }
        ensures fresh { IsTrue result → is_among self.old (pos n) ≡ false }
    {
        if self.count == 0 {
            *self = Run { first: n, count: 1 };
            return true;
        }
        if n != self.first + self.count {
            return false;
        }
        self.count += 1;
        true
    }

    /// Puts a name at the end if it follows the last one, or if it is the first; and says whether it did.
    pub(crate) fn follow(&mut self, name: i64) -> bool
        ensures names { self.new ≡ (if result then self.old ++ name ∷ [] else self.old) }
        ensures fresh { IsTrue result → is_among self.old name ≡ false }
    {
        match size_of(name) {
            Some(n) => self.follow_by(n),
            None => false,
        }
    }

    /// The number of a name.
    #[tactic(auto, using(crate::proofs::RunLemmas::none_negative, crate::proofs::RunLemmas::names_from_length))]
    pub(crate) fn find(&self, name: i64) -> Option<u64>
        ensures number { result ≡ number_of self.now name }
        ensures within { IfSome result (λ k. k < length self.now) }
    {
        let first = self.first;
        let count = self.count;
        match size_of(name) {
            Some(n) => place_of(first, count, n),
            None => None,
        }
    }

    /// The number of names.
    #[tactic(auto, using(crate::proofs::RunLemmas::names_from_length))]
    pub(crate) fn len(&self) -> u64
        ensures { result ≡ length self.now }
    {
        self.count
    }
}
