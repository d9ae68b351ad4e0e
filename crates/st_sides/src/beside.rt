//! The dual nodes left and right of each vertex.
ghost use Rattle.std.specs.Prelude.{◌≡◌, ◌⊎◌, ◌<◌, [], length, slice_index_or, IfOk};
ghost use Rattle.st_map.specs.Embedded.{edges};
ghost use Rattle.st_sides.specs.Beside.{IsBeside, end_of};
ghost use Rattle.st_sides.specs.Conditions.{AreOuts};
ghost use Rattle.st_sides.specs.Filled.{IsFilled};

use crate::stars::is_pole;
use st_ids::{EdgeId, IdVec, NoMemory, PathList, VertexId};
use st_test::StGraph;
use std::alloc::Global;

/// The leftmost or the rightmost edge out of a vertex that is no pole.
fn end_edge(graph: &StGraph, outs: &PathList, v: VertexId, right: bool) -> EdgeId
    requires outs { IsFilled [] (λ v es. AreOuts graph.now.map.graph graph.now.source graph.now.outer v es) graph.now.map.graph.vertices outs.now }
    requires there { v.0 < graph.now.map.graph.vertices }
    requires inner { (v.0 ≡ graph.now.source) ⊎ (v.0 ≡ graph.now.sink) → ⊥ }
    ensures value { result.0 ≡ end_of right (slice_index_or outs.now v.0 []) }
    ensures within { result.0 < edges graph.now.map.graph }
{
    let _ = graph.map();
    let list = outs.path(v.0);
    if right { list[list.len() - 1] } else { list[0] }
}

/// The node on one side of a vertex: at the poles a half of the outer face, else that beside its last edge out on this
/// side.
fn beside(
    graph: &StGraph,
    outs: &PathList,
    nodes: &IdVec<EdgeId, u32>,
    v: VertexId,
    right: bool,
    half: u32,
) -> u32
    requires outs { IsFilled [] (λ v es. AreOuts graph.now.map.graph graph.now.source graph.now.outer v es) graph.now.map.graph.vertices outs.now }
    requires size { length nodes.now ≡ edges graph.now.map.graph }
    requires there { v.0 < graph.now.map.graph.vertices }
    ensures { IsBeside graph.now.source graph.now.sink nodes.now right half (slice_index_or outs.now v.0 []) v.0 result }
{
    if is_pole(graph, v) {
        return half;
    }
    *nodes.get(end_edge(graph, outs, v, right))
}

/// The node on one side of each vertex.
pub(crate) fn vertex_nodes(
    alloc: Global,
    graph: &StGraph,
    outs: &PathList,
    nodes: &IdVec<EdgeId, u32>,
    right: bool,
    half: u32,
) -> Result<IdVec<VertexId, u32>, NoMemory>
    requires outs { IsFilled [] (λ v es. AreOuts graph.now.map.graph graph.now.source graph.now.outer v es) graph.now.map.graph.vertices outs.now }
    requires size { length nodes.now ≡ edges graph.now.map.graph }
    ensures { IfOk result (λ r. IsFilled 0 (λ v z. IsBeside graph.now.source graph.now.sink nodes.now right half (slice_index_or outs.now v []) v z) graph.now.map.graph.vertices r) }
{
    let mut list = IdVec::with_capacity(alloc, graph.map().vertices())?;
    for v in 0..graph.map().vertices() {
        list.push(beside(graph, outs, nodes, VertexId(v), right, half))?;
    }
    Ok(list)
}
