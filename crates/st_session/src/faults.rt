//! The faults of edits and of questions.
use st_ids::NoMemory;
use thiserror::Error;

/// The first fault of an edit, in the order of the edit's list. After it the session stands for the same state.
#[derive(Clone, Copy, Debug, PartialEq, Eq, Error)]
pub enum EditFault {
    /// A vertex has the new vertex's name.
    #[error("vertex name {name} is used")]
    UsedVertex { name: i64 },
    /// An edge has the new edge's name.
    #[error("edge name {name} is used")]
    UsedEdge { name: i64 },
    /// No vertex has the name.
    #[error("unknown vertex {name}")]
    UnknownVertex { name: i64 },
    /// No edge has the name.
    #[error("unknown edge {name}")]
    UnknownEdge { name: i64 },
    /// The tail of the new edge is its head.
    #[error("tail and head are one vertex")]
    Loop,
    /// The edge has no end at the vertex.
    #[error("edge {edge} is not at vertex {vertex}")]
    NotAt { edge: i64, vertex: i64 },
    /// There would be n vertices, more than the limit.
    #[error("{n} vertices")]
    TooManyVertices { n: u32 },
    /// There would be m edges, more than the limit.
    #[error("{m} edges")]
    TooManyEdges { m: u32 },
    /// The clockwise next of a named end is of the outer face.
    #[error("corner in the outer face")]
    OuterCorner,
    /// The head of the new edge reaches its tail.
    #[error("vertex {head} reaches vertex {tail}")]
    Cycle { tail: i64, head: i64 },
    /// The clockwise nexts of the two named ends are of two faces.
    #[error("corners in two faces")]
    OtherFace,
    /// The edge's head, which has this name, has no other edge in.
    #[error("leaves a source at vertex {vertex}")]
    Source { vertex: i64 },
    /// The edge's tail, which has this name, has no other edge out.
    #[error("leaves a sink at vertex {vertex}")]
    Sink { vertex: i64 },
    /// Memory ran out.
    #[error("no memory")]
    NoMemory,
}

impl From<NoMemory> for EditFault {
    ghost use Rattle.std.specs.Prelude.{◌≡◌};
    ghost use Rattle.st_session.specs.declared.faults.EditFault.{EditFault};
    ghost use Rattle.st_session.specs.declared.faults.EditFault.TheVariants.{NoMemory as no_memory};

    ghost from_gives = { λ _ e. e ≡ no_memory };

    fn from(_e: NoMemory) -> EditFault {
        EditFault::NoMemory
    }
}

/// The fault of a question. After it the session stands for the same state.
#[derive(Clone, Copy, Debug, PartialEq, Eq, Error)]
pub enum AskFault {
    /// No vertex has the name; where neither has one, it is the first.
    #[error("unknown vertex {name}")]
    UnknownVertex { name: i64 },
    /// Memory ran out.
    #[error("no memory")]
    NoMemory,
}

impl From<NoMemory> for AskFault {
    ghost use Rattle.std.specs.Prelude.{◌≡◌};
    ghost use Rattle.st_session.specs.declared.faults.AskFault.{AskFault};
    ghost use Rattle.st_session.specs.declared.faults.AskFault.TheVariants.{NoMemory as no_memory};

    ghost from_gives = { λ _ e. e ≡ no_memory };

    fn from(_e: NoMemory) -> AskFault {
        AskFault::NoMemory
    }
}
