//! A stored closure that weighs edges.
ghost use Rattle.std.specs.Prelude.{◌≡◌, ◌<◌, ◌≤◌};
ghost use Rattle.st_number.specs.Weighing.{AreLawfulWeights};

use st_ids::EdgeId;
use std::marker::Model;

/// A closure that answers a weight from 1 to `most` on each edge below `edges`. A contract sees the record `WeightsValue`.
///
/// A closure could have several lawful answers for one edge: a call that takes a `Weights` asks once on each edge, and its
/// contract speaks of the answers that it took. That the closure is lawful is a condition of `new` and of each call.
#[derive(Drop)]
pub struct Weights<F> {
    closure: F,
    edges: u32,
    most: u32,
}

impl<F> Model for Weights<F> {
    ghost use Rattle.std.specs.Prelude.{◌≤◌};
    ghost use Rattle.st_number.specs.Weighing.{WeightsValue};

    ghost Value = { WeightsValue F };

    ghost view = { λ a. record { closure = a.closure; edges = a.edges; most = a.most } };

    ghost invariant = { λ a. (1 ≤ a.most) × (a.most ≤ 1000) };
}

impl<F: Fn(EdgeId) -> u32> Weights<F> {
    /// The closure with the number of edges that it is for, and the greatest weight, from 1 to 1000.
    pub fn new(f: F, edges: u32, most: u32) -> Weights<F>
        requires lawful { AreLawfulWeights F.pre F.post (record { closure = f; edges = edges; most = most }) }
        requires some { 1 ≤ most }
        requires few { most ≤ 1000 }
        ensures value { result ≡ record { closure = f; edges = edges; most = most } }
        ensures lawful { AreLawfulWeights F.pre F.post result }
    {
        Weights {
            closure: f,
            edges,
            most,
        }
    }

    /// A weight that the closure answers on the edge, from 1 to `most`. It is asked once.
    pub fn weight(&self, e: EdgeId) -> u32
        requires there { e.0 < self.now.edges }
        requires lawful { AreLawfulWeights F.pre F.post self.now }
        ensures answer { F.post self.now.closure e result }
        ensures from_one { 1 ≤ result }
        ensures to_most { result ≤ self.now.most }
    {
        (self.closure)(e)
    }

    /// The number of edges that the closure is for.
    pub fn edges(&self) -> u32
        ensures { result ≡ self.now.edges }
    {
        self.edges
    }

    /// The greatest weight, from 1 to 1000.
    pub fn most(&self) -> u32
        ensures value { result ≡ self.now.most }
        ensures some { 1 ≤ result }
        ensures few { result ≤ 1000 }
    {
        self.most
    }
}
