//! What may be wrong with a tree that is to be a graph.
ghost use Rattle.std.specs.Prelude.{◌≡◌};

use st_ids::NoMemory;
use thiserror::Error;

/// The first fault of a tree. The faults are looked for in the order of the variants, each at its first place, but
/// that those of an edge, `NoEnd` to `BadLength`, are looked for edge by edge, and that the unknown edge of an outer
/// face comes after a bad outer face. A place is the byte at which a pair's key begins.
#[derive(Clone, Copy, Debug, PartialEq, Eq, Error)]
pub enum ShapeFault {
    /// The text has no pair `graph`.
    #[error("no graph")]
    NoGraph,
    /// The text has a second pair `graph`.
    #[error("second graph at {at}")]
    SecondGraph { at: u32 },
    /// A used pair has a value of the wrong kind.
    #[error("wrong kind of value at {at}")]
    BadKind { at: u32 },
    /// A node has no `id`.
    #[error("node without id at {at}")]
    NoId { at: u32 },
    /// An earlier node has the same `id`.
    #[error("node id {id} twice")]
    SameId { id: i64 },
    /// An edge, by its position, lacks `source` or `target`.
    #[error("edge {edge} lacks an end")]
    NoEnd { edge: u32 },
    /// The source of an edge, by its position, or else its target is the `id` of no node.
    #[error("edge {edge} ends at unknown node {id}")]
    UnknownEnd { edge: u32, id: i64 },
    /// The `minlen` of an edge isn't from 1 to 500.
    #[error("bad minlen at {at}")]
    BadLength { at: u32 },
    /// All edges have an `id`, and an earlier edge has the same one.
    #[error("edge id {id} twice")]
    SameEdgeId { id: i64 },
    /// An order, or the outer face, names no edge.
    #[error("unknown edge at {at}")]
    UnknownEdge { at: u32 },
    /// The outer face lacks its edge or its side, or the side is neither 0 nor 1.
    #[error("bad outer at {at}")]
    BadOuter { at: u32 },
    /// There are more vertices than the limit.
    #[error("too many vertices: {n}")]
    TooManyVertices { n: u32 },
    /// There are more edges than the limit.
    #[error("too many edges: {m}")]
    TooManyEdges { m: u32 },
    /// Memory ran out.
    #[error("no memory")]
    NoMemory,
}

impl From<NoMemory> for ShapeFault {
    ghost use Rattle.std.specs.Prelude.{◌≡◌};
    ghost use Rattle.st_input.specs.declared.fault.ShapeFault.TheVariants.{NoMemory as no_memory};

    ghost from_gives = { λ _ f. f ≡ no_memory };

    fn from(_e: NoMemory) -> ShapeFault {
        ShapeFault::NoMemory
    }
}

/// Why the written paths can't be told by their edges.
#[derive(Clone, Copy, Debug, PartialEq, Eq, Error)]
pub enum PathNameFault {
    /// A path, by its position, has a name that no edge has.
    #[error("{path} names unknown edge {name}")]
    UnknownEdge { path: u32, name: i64 },
    /// Memory ran out.
    #[error("no memory")]
    NoMemory,
}

impl From<NoMemory> for PathNameFault {
    ghost use Rattle.std.specs.Prelude.{◌≡◌};
    ghost use Rattle.st_input.specs.declared.fault.PathNameFault.TheVariants.{NoMemory as no_memory};

    ghost from_gives = { λ _ f. f ≡ no_memory };

    fn from(_e: NoMemory) -> PathNameFault {
        PathNameFault::NoMemory
    }
}
