//! A sweep as a value: all nodes of the dual, from left to right.
ghost use Rattle.std.specs.Prelude.{◌≡◌};
ghost use Rattle.st_sides.specs.Sweep.{node_numbers};

use st_ids::FaceId;
use std::marker::Model;

/// The nodes of the dual in the order of a sweep from left to right. A contract sees the list of their numbers.
#[derive(Drop)]
pub struct Sweep {
    nodes: Vec<FaceId>,
}

impl Model for Sweep {
    ghost use Rattle.std.specs.Prelude.{List, ℕ};
    ghost use Rattle.st_sides.specs.Sweep.{node_numbers};

    ghost Value = { List ℕ };

    ghost view = { λ a. node_numbers a.nodes.items };
}

impl Sweep {
    /// The sweep of these nodes.
    pub(crate) fn of(nodes: Vec<FaceId>) -> Sweep
        ensures { result ≡ node_numbers nodes.items }
    {
        Sweep { nodes }
    }

    /// Each node once, the node on the left of each edge before the node on its right.
    pub fn items(&self) -> &[FaceId]
        ensures { node_numbers result.now ≡ self.now }
    {
        &self.nodes
    }
}
