//! The names of a graph's vertices and edges.
use crate::{EdgeId, IdVec, Text, VertexId};

/// The name of each vertex and edge, and the label of each vertex that has one.
#[derive(Drop)]
pub struct Names {
    pub vertex: IdVec<VertexId, i64>,
    pub edge: IdVec<EdgeId, i64>,
    pub label: IdVec<VertexId, Option<Text>>,
}
