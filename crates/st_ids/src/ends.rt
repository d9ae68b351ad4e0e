//! The ends of edges, which rotations and faces are made of.
ghost use Rattle.std.specs.Prelude.{◌≡◌, ◌+◌, ◌*◌, ◌<◌, ◌^◌};
ghost use Rattle.st_ids.specs.Ends.{twin, edge_of, is_out};

use crate::{EdgeId, Id};

/// An end of an edge: `2e` is the end of edge e at its tail, and `2e + 1` the one at its head.
#[derive(Clone, Copy, Debug, PartialEq, Eq, PartialOrd, Ord)]
pub struct Dart(pub u32);

impl Id for Dart {
    ghost use Rattle.std.specs.Prelude.{refl};

    ghost index = { λ k. k.0 };

    ghost at = { λ n. record { 0 = n } };

    ghost index_at = { λ n. refl };

    ghost at_index = { λ k. refl };

    fn of(n: u32) -> Self {
        Dart(n)
    }

    fn number(self) -> u32 {
        self.0
    }
}

impl Dart {
    /// The end of the edge at its tail.
    pub fn tail_end(e: EdgeId) -> Dart
        requires { e.0 < 2 ^ 30 }
        ensures { result.0 ≡ 2 * e.0 }
    {
        Dart(2 * e.0)
    }

    /// The end of the edge at its head.
    pub fn head_end(e: EdgeId) -> Dart
        requires { e.0 < 2 ^ 30 }
        ensures { result.0 ≡ 2 * e.0 + 1 }
    {
        Dart(2 * e.0 + 1)
    }

    /// The other end of the edge.
    #[tactic(auto, unfolding(crate::specs::Ends::twin))]
    pub fn twin(self) -> Dart
        ensures value { result.0 ≡ twin self.0 }
        ensures back { twin result.0 ≡ self.0 }
    {
        if self.0 % 2 == 0 {
            Dart(self.0 + 1)
        } else {
            Dart(self.0 - 1)
        }
    }

    /// The edge whose end it is.
    #[tactic(auto, unfolding(crate::specs::Ends::edge_of))]
    pub fn edge(self) -> EdgeId
        ensures { result.0 ≡ edge_of self.0 }
    {
        EdgeId(self.0 / 2)
    }

    /// Whether it is the end at the tail, where the edge goes out of its vertex.
    #[tactic(auto, unfolding(crate::specs::Ends::is_out))]
    pub fn is_out(self) -> bool
        ensures { result ≡ is_out self.0 }
    {
        self.0 % 2 == 0
    }
}
