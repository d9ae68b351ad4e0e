//! A stored closure that places vertices.
ghost use Rattle.std.specs.Prelude.{◌≡◌, ◌≤ℤ◌};
ghost use Rattle.draw_poly.specs.Placing.{AreEnds, IsPlacement};

use std::marker::Model;

/// A closure that answers a column from `lo` to `hi` for `0 <= lo <= hi <= MOST_COORDINATE`. A contract sees the record
/// `PlacerValue`.
///
/// A closure could have several lawful answers for one pair: a call that takes a `Placer` asks once for each vertex, and its
/// contract speaks of the answers that it took. That the closure is lawful is a condition of `new` and of each call.
#[derive(Drop)]
pub struct Placer<F> {
    closure: F,
}

impl<F> Model for Placer<F> {
    ghost use Rattle.draw_poly.specs.Placing.{PlacerValue};

    ghost Value = { PlacerValue F };

    ghost view = { λ a. record { closure = a.closure } };
}

impl<F: Fn(i64, i64) -> i64> Placer<F> {
    /// The closure, stored. It takes no memory.
    pub fn new(f: F) -> Placer<F>
        requires { IsPlacement F.pre F.post (record { closure = f }) }
        ensures value { result ≡ record { closure = f } }
        ensures lawful { IsPlacement F.pre F.post result }
    {
        Placer { closure: f }
    }

    /// A column that the closure answers for these two, from `lo` to `hi`. It is asked once.
    pub fn place(&self, lo: i64, hi: i64) -> i64
        requires ends { AreEnds lo hi }
        requires lawful { IsPlacement F.pre F.post self.now }
        ensures answer { F.post self.now.closure lo hi result }
        ensures from { lo ≤ℤ result }
        ensures to { result ≤ℤ hi }
    {
        (self.closure)(lo, hi)
    }
}
