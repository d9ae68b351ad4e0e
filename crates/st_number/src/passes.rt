//! Heights: one pass along the edges, each after all edges into its tail.
ghost use Rattle.std.specs.Prelude.{◌≡◌, ◌+◌, ◌<◌, ◌≤◌, ◌^◌, ℕ, pos, length, map, slice_index, IfOk};
ghost use Rattle.st_ids.specs.EdgeNumbers.{numbers};
ghost use Rattle.st_ids.specs.Graph.{HasEnds};
ghost use Rattle.st_map.specs.Embedded.{edges};
ghost use Rattle.st_number.specs.Heights.{AreHeights, AreSums, AreTaken};
ghost use Rattle.st_number.specs.Passing.{IsEdgeOrder, IsPassTable};
ghost use Rattle.st_number.specs.Weighing.{AreLawfulWeights};

use crate::weights::Weights;
use st_ids::{Digraph, EdgeId, Id, IdVec, NoMemory, VertexId};
use st_map::Map;
use st_test::{StGraph, topological_order};
use std::alloc::Global;

/// The weights of all edges of a map: the closure is asked once on each.
fn take_all<F: Fn(EdgeId) -> u32>(
    alloc: Global,
    map: &Map,
    w: &Weights<F>,
) -> Result<IdVec<EdgeId, u32>, NoMemory>
    requires lawful { AreLawfulWeights F.pre F.post w.now }
    requires edges { w.now.edges ≡ edges map.now.graph }
    ensures { IfOk result (AreTaken (F.post w.now.closure) (edges map.now.graph) w.now.most) }
{
    let mut taken = IdVec::with_capacity(alloc, map.edges())?;
    for e in 0..map.edges() {
        taken.push(w.weight(EdgeId(e)))?;
    }
    Ok(taken)
}

/// What one pass along the edges brings to each vertex: no less than any edge into the vertex brings, and what one of them
/// brings, or 0. An edge brings what its tail has, and its own weight. Where there is no cycle and an edge leads to each vertex
/// but one, these are the greatest weights of walks from that one (`laws::greatest`).
///
/// Shape: one entry per vertex, by number.
/// Conditions: there are fewer than 2^30 edges, whose ends are vertices, and one weight an edge, at most `most`, which is at
/// most 1000; the order has each edge once, after all edges into its tail.
/// Errors: `NoMemory`.
/// Cost: O(V + E) time, one list. Not proved.
pub fn pass(
    alloc: Global,
    graph: &Digraph,
    taken: &IdVec<EdgeId, u32>,
    most: u32,
    order: &[EdgeId],
) -> Result<IdVec<VertexId, u64>, NoMemory>
    requires ends { HasEnds graph.now }
    requires few { length graph.now.ends < 2 ^ 30 }
    requires size { length taken.now ≡ length graph.now.ends }
    requires weights { (e : ℕ) → e < length taken.now → slice_index taken.now e ≤ most }
    requires small { most ≤ 1000 }
    requires order { IsEdgeOrder graph.now.ends (numbers order.now) }
    ensures { IfOk result (IsPassTable graph.now.vertices graph.now.ends (slice_index taken.now)) }
{
    let mut sums = IdVec::with_len(alloc, graph.vertices(), 0u64)?;
    for k in 0..order.len() {
        let e = order[k];
        let (tail, head) = (graph.tail(e), graph.head(e));
        let reached = *sums.get(tail) + u64::from(*taken.get(e));
        if *sums.get(head) < reached {
            sums.set(head, reached);
        }
    }
    Ok(sums)
}

/// The numbers as signed ones, which coordinates are.
///
/// Errors: `NoMemory`.
/// Cost: one pass over the list, one list. Not proved.
pub fn signed<K: Id>(alloc: Global, sums: &IdVec<K, u64>) -> Result<IdVec<K, i64>, NoMemory>
    requires room { length sums.now ≤ 2 ^ 31 }
    requires few { (k : ℕ) → k < length sums.now → slice_index sums.now k < 2 ^ 63 }
    ensures { IfOk result (λ v. v ≡ map (λ n. pos n) sums.now) }
{
    let mut list = IdVec::with_capacity(alloc, sums.len())?;
    let items = sums.items();
    for k in 0..items.len() {
        list.push(items[k] as i64)?;
    }
    Ok(list)
}

/// The greatest weight of a walk from the source to each vertex.
fn sum_up(
    alloc: Global,
    graph: &StGraph,
    taken: &IdVec<EdgeId, u32>,
    most: u32,
) -> Result<IdVec<VertexId, u64>, NoMemory>
    requires size { length taken.now ≡ edges graph.now.map.graph }
    requires weights { (e : ℕ) → e < length taken.now → slice_index taken.now e ≤ most }
    requires small { most ≤ 1000 }
    ensures { IfOk result (AreSums graph.now.map.graph graph.now.source (slice_index taken.now) most) }
{
    let copy = graph.map().digraph(alloc)?;
    let order = topological_order(alloc, &copy)?;
    let sums = pass(alloc, &copy, taken, most, order.edges())?;
    Ok(sums)
}

/// The height of each vertex: the greatest weight of a walk from the source, under one answer of the closure on each edge.
///
/// Errors: `NoMemory`.
/// Cost: O(V + E) time, one call of the closure an edge. Not proved.
pub fn heights<F: Fn(EdgeId) -> u32>(
    alloc: Global,
    graph: &StGraph,
    w: &Weights<F>,
) -> Result<IdVec<VertexId, i64>, NoMemory>
    requires lawful { AreLawfulWeights F.pre F.post w.now }
    requires edges { w.now.edges ≡ edges graph.now.map.graph }
    ensures { IfOk result (AreHeights (F.post w.now.closure) graph.now.map.graph graph.now.source w.now.most) }
{
    let taken = take_all(alloc, graph.map(), w)?;
    let sums = sum_up(alloc, graph, &taken, w.most())?;
    let heights = signed(alloc, &sums)?;
    Ok(heights)
}
