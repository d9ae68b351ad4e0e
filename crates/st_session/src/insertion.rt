//! The names of an insert.

/// The new edge, its tail with the edge after whose end its own stands there, and the same at its head.
#[derive(Clone, Copy, Debug, PartialEq, Eq)]
pub struct InsertNames {
    pub edge: i64,
    pub tail: i64,
    pub tail_after: i64,
    pub head: i64,
    pub head_after: i64,
}
