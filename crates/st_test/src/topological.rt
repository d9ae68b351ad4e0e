//! A topological order of a graph without a cycle, of its vertices and of its edges.
ghost use Rattle.std.specs.Prelude.{◌≡◌, ◌<◌, ◌^◌, length, IfOk};
ghost use Rattle.st_ids.specs.EdgeNumbers.{numbers};
ghost use Rattle.st_ids.specs.Graph.{AreWithin, arcs_of};
ghost use Rattle.st_ids.specs.Walks.{IsAcyclic};
ghost use Rattle.st_test.specs.Poles.{graph_of};
ghost use Rattle.st_test.specs.Topological.{AreOrdered, IsTopologicalOrder, vertex_numbers};

use crate::stripping::{Order, strip};
use st_ids::{Digraph, EdgeId, NoMemory, VertexId};
use std::alloc::Global;
use std::marker::Model;

/// The vertices and the edges of a graph in an order that goes with its edges. A contract sees the two lists of numbers
/// (`OrderLists`).
#[derive(Drop)]
pub struct TopologicalOrder {
    vertices: Vec<VertexId>,
    edges: Vec<EdgeId>,
}

impl Model for TopologicalOrder {
    ghost use Rattle.st_ids.specs.EdgeNumbers.{numbers};
    ghost use Rattle.st_test.specs.Topological.{OrderLists, vertex_numbers};

    ghost Value = { OrderLists };

    ghost view = { λ a. record { vertices = vertex_numbers a.vertices.items; edges = numbers a.edges.items } };
}

impl TopologicalOrder {
    /// The vertices, each after the tails of all edges into it.
    pub fn vertices(&self) -> &[VertexId]
        ensures { vertex_numbers result.now ≡ self.now.vertices }
    {
        &self.vertices
    }

    /// The edges, each after all edges into its tail.
    pub fn edges(&self) -> &[EdgeId]
        ensures { numbers result.now ≡ self.now.edges }
    {
        &self.edges
    }
}

/// The vertices with these numbers.
fn vertex_list(alloc: Global, order: &[u32]) -> Result<Vec<VertexId>, NoMemory>
    ensures { IfOk result (λ l. vertex_numbers l.items ≡ order.now) }
{
    let mut list = Vec::with_capacity(alloc, order.len())?;
    for k in 0..order.len() {
        list.push(VertexId(order[k]))?;
    }
    Ok(list)
}

/// The edges with these numbers.
fn edge_list(alloc: Global, order: &[u32]) -> Result<Vec<EdgeId>, NoMemory>
    ensures { IfOk result (λ l. numbers l.items ≡ order.now) }
{
    let mut list = Vec::with_capacity(alloc, order.len())?;
    for k in 0..order.len() {
        list.push(EdgeId(order[k]))?;
    }
    Ok(list)
}

/// The order in which the nodes can be taken away where there is no cycle.
fn strip_all(alloc: Global, n: u32, arcs: &[(u32, u32)]) -> Result<Order, NoMemory>
    requires within { AreWithin n arcs.now }
    requires few { length arcs.now < 2 ^ 30 }
    requires acyclic { IsAcyclic (arcs_of (graph_of n arcs.now)) }
    ensures order { IfOk result (λ o. IsTopologicalOrder (graph_of n arcs.now) o.vertices.items o.edges.items) }
    ensures places { IfOk result (λ o. AreOrdered (graph_of n arcs.now) o.vertices.items o.edges.items) }
{
    match strip(alloc, n, arcs) {
        Ok(order) => Ok(order),
        Err(_) => Err(NoMemory),
    }
}

/// The same as `topological_order`, of n nodes with these arcs, the tail and the head of each: for relations that are
/// given by arcs.
///
/// Errors: `NoMemory`.
/// Cost: O(n + arcs) time, a few lists of u32 of as many items. Not proved.
pub fn order_arcs(alloc: Global, n: u32, arcs: &[(u32, u32)]) -> Result<TopologicalOrder, NoMemory>
    requires within { AreWithin n arcs.now }
    requires few { length arcs.now < 2 ^ 30 }
    requires acyclic { IsAcyclic (arcs_of (graph_of n arcs.now)) }
    ensures order { IfOk result (λ o. IsTopologicalOrder (graph_of n arcs.now) o.vertices o.edges) }
    ensures places { IfOk result (λ o. AreOrdered (graph_of n arcs.now) o.vertices o.edges) }
{
    let order = strip_all(alloc, n, arcs)?;
    let vertices = vertex_list(alloc, &order.vertices)?;
    let edges = edge_list(alloc, &order.edges)?;
    Ok(TopologicalOrder { vertices, edges })
}

/// The vertices of a graph without a cycle, the tail of each edge before its head, and its edges, each after all edges
/// into its tail: one pass over these edges meets each when all that leads to its tail is done.
///
/// Errors: `NoMemory`.
/// Cost: O(V + E) time, a few lists of u32 of as many items. Not proved.
pub fn topological_order(alloc: Global, graph: &Digraph) -> Result<TopologicalOrder, NoMemory>
    requires { IsAcyclic (arcs_of graph.now) }
    ensures order { IfOk result (λ o. IsTopologicalOrder graph.now o.vertices o.edges) }
    ensures places { IfOk result (λ o. AreOrdered graph.now o.vertices o.edges) }
{
    let (vertices, ends) = (graph.vertices(), graph.ends());
    order_arcs(alloc, vertices, ends)
}
