//! What may be wrong with listed paths.
use st_ids::{EdgeId, NoMemory, VertexId};
use thiserror::Error;

/// The first fault of listed paths: path by path in their order, and for each path in the order of these cases. Paths are
/// numbered from 0.
#[derive(Debug, Drop, Error)]
pub enum PathFault {
    /// The path is empty, or its edges are no directed walk.
    #[error("path {path} is no path")]
    NotAPath {
        path: u32,
    },
    /// An edge of the path is in an earlier path; it is the first such edge along it.
    #[error("path {path} shares edge {}", .edge.0)]
    SharedEdge {
        path: u32,
        edge: EdgeId,
    },
    /// The path crosses an earlier one at the vertex. It is the first such vertex along the path, and the other path is the
    /// least that it crosses there.
    #[error("path {path} crosses path {other} at vertex {}", .vertex.0)]
    Crossing {
        path: u32,
        other: u32,
        vertex: VertexId,
    },
    /// Memory ran out.
    #[error("no memory")]
    NoMemory,
}

impl From<NoMemory> for PathFault {
    ghost use Rattle.std.specs.Prelude.{◌≡◌};
    ghost use Rattle.draw_align.specs.declared.path_fault.PathFault.{PathFault};
    ghost use Rattle.draw_align.specs.declared.path_fault.PathFault.TheVariants.{NoMemory as no_memory};

    ghost from_gives = { λ _ e. e ≡ no_memory };

    fn from(_e: NoMemory) -> PathFault {
        PathFault::NoMemory
    }
}
