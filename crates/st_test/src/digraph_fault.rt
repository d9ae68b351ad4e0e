//! The poles of a directed graph, and the reasons why it has none.
use st_ids::{EdgeList, NoMemory, VertexId};
use std::alloc::AllocError;
use thiserror::Error;

/// The first of the tests on a directed graph that fails, with its evidence.
#[derive(Debug, Drop, Error)]
pub enum DigraphFault {
    /// There are fewer than two vertices: n of them.
    #[error("too few vertices: {n}")]
    TooFew {
        n: u32,
    },
    /// There is a cycle. Its edges lead from the first vertex on it, in file order, back to that vertex.
    #[error("cycle of {} edges", .edges.items().len())]
    Cycle {
        edges: EdgeList,
    },
    /// So many vertices have no edge in, and these are the first two.
    #[error("{count} sources, the first {} and {}", .first.0, .second.0)]
    Sources {
        first: VertexId,
        second: VertexId,
        count: u32,
    },
    /// So many vertices have no edge out, and these are the first two.
    #[error("{count} sinks, the first {} and {}", .first.0, .second.0)]
    Sinks {
        first: VertexId,
        second: VertexId,
        count: u32,
    },
    /// Memory ran out.
    #[error("no memory")]
    NoMemory,
}

/// The one vertex without an edge in, and the one without an edge out.
#[derive(Clone, Copy, Debug, PartialEq, Eq)]
pub struct Poles {
    pub source: VertexId,
    pub sink: VertexId,
}

impl From<AllocError> for DigraphFault {
    ghost use Rattle.std.specs.Prelude.{◌≡◌};
    ghost use Rattle.st_test.specs.declared.digraph_fault.DigraphFault.{DigraphFault};
    ghost use Rattle.st_test.specs.declared.digraph_fault.DigraphFault.TheVariants.{NoMemory as no_memory};

    ghost from_gives = { λ _ e. e ≡ no_memory };

    fn from(_e: AllocError) -> DigraphFault {
        DigraphFault::NoMemory
    }
}

impl From<NoMemory> for DigraphFault {
    ghost use Rattle.std.specs.Prelude.{◌≡◌};
    ghost use Rattle.st_test.specs.declared.digraph_fault.DigraphFault.{DigraphFault};
    ghost use Rattle.st_test.specs.declared.digraph_fault.DigraphFault.TheVariants.{NoMemory as no_memory};

    ghost from_gives = { λ _ e. e ≡ no_memory };

    fn from(_e: NoMemory) -> DigraphFault {
        DigraphFault::NoMemory
    }
}
