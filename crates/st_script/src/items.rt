//! What one record of a session says.

/// An edit of a graph, or a question on it. Vertices and edges are named as in the file.
#[derive(Clone, Copy, Debug, PartialEq, Eq)]
pub enum ScriptItem {
    /// The edge is split by a new vertex; the new edge goes from it to the old head.
    Split {
        edge: i64,
        vertex: i64,
        new_edge: i64,
    },
    /// A new edge; its ends stand clockwise next after those of two edges at its tail and its head.
    Insert {
        edge: i64,
        tail: i64,
        tail_after: i64,
        head: i64,
        head_after: i64,
    },
    /// The edge is removed.
    Remove {
        edge: i64,
    },
    /// Whether a vertex reaches another, and their numbers.
    Ask {
        from: i64,
        to: i64,
    },
}
