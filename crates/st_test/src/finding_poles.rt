//! The four tests that a directed graph has to pass, each with its evidence where it is the first to fail.
ghost use Rattle.std.specs.Prelude.{◌≡◌, ◌<◌, ◌≤◌, ◌^◌, length, IfOk};
ghost use Rattle.st_ids.specs.Graph.{AreWithin};
ghost use Rattle.st_test.specs.Poles.{NoneIn, NoneOut, graph_of};
ghost use Rattle.st_test.specs.Stripping.{IsStripped};
ghost use Rattle.st_test.specs.PolesAnswer.{AreInOrder, IsPolesAnswer};
ghost use Rattle.st_test.specs.BackTables.{AllListed};

use crate::cycle::{find_first, mark_left, name_cycle};
use crate::digraph_fault::{DigraphFault, Poles};
use crate::stripping::{Order, count_edges_in, count_edges_out, list_zeros, strip};
use st_ids::{Digraph, VertexId};
use std::alloc::{AllocError, Global};

/// The vertices without an edge in, in file order.
fn list_sources(
    alloc: Global,
    n: u32,
    ends: &[(u32, u32)],
    order: &Order,
) -> Result<Vec<u32>, AllocError>
    requires within { AreWithin n ends.now }
    requires few { length ends.now < 2 ^ 30 }
    requires some { 2 ≤ n }
    requires stripped { IsStripped n ends.now order.now.vertices.items order.now.edges.items }
    requires all { AllListed n order.now.vertices.items }
    ensures those { IfOk result (λ v. AreInOrder n (NoneIn (graph_of n ends.now)) v.items) }
    ensures some { IfOk result (λ v. 1 ≤ length v.items) }
    ensures fits { IfOk result (λ v. length v.items ≤ n) }
{
    let degree = count_edges_in(alloc, n, ends)?;
    list_zeros(alloc, n, &degree)
}

/// The vertices without an edge out, in file order.
fn list_sinks(
    alloc: Global,
    n: u32,
    ends: &[(u32, u32)],
    order: &Order,
) -> Result<Vec<u32>, AllocError>
    requires within { AreWithin n ends.now }
    requires few { length ends.now < 2 ^ 30 }
    requires some { 2 ≤ n }
    requires stripped { IsStripped n ends.now order.now.vertices.items order.now.edges.items }
    requires all { AllListed n order.now.vertices.items }
    ensures those { IfOk result (λ v. AreInOrder n (NoneOut (graph_of n ends.now)) v.items) }
    ensures some { IfOk result (λ v. 1 ≤ length v.items) }
    ensures fits { IfOk result (λ v. length v.items ≤ n) }
{
    let degree = count_edges_out(alloc, n, ends)?;
    list_zeros(alloc, n, &degree)
}

/// The poles of a graph without a cycle.
fn find_poles(
    alloc: Global,
    n: u32,
    ends: &[(u32, u32)],
    order: &Order,
) -> Result<Poles, DigraphFault>
    requires within { AreWithin n ends.now }
    requires few { length ends.now < 2 ^ 30 }
    requires some { 2 ≤ n }
    requires stripped { IsStripped n ends.now order.now.vertices.items order.now.edges.items }
    requires all { AllListed n order.now.vertices.items }
    ensures { IsPolesAnswer (graph_of n ends.now) result }
{
    let sources = list_sources(alloc, n, ends, order)?;
    if sources.len() > 1 {
        return Err(DigraphFault::Sources {
            first: VertexId(sources[0]),
            second: VertexId(sources[1]),
            count: sources.len() as u32,
        });
    }
    let sinks = list_sinks(alloc, n, ends, order)?;
    if sinks.len() > 1 {
        return Err(DigraphFault::Sinks {
            first: VertexId(sinks[0]),
            second: VertexId(sinks[1]),
            count: sinks.len() as u32,
        });
    }
    Ok(Poles {
        source: VertexId(sources[0]),
        sink: VertexId(sinks[0]),
    })
}

/// The one source and the one sink of a graph, or the first test that it fails: at least two vertices, no cycle, one
/// vertex without an edge in, one without an edge out.
///
/// The cycle that is named: begin at the first vertex, in file order, at which a walk of as many edges as there are
/// vertices ends. Go back along the first edge that comes from such a vertex, until a vertex comes a second time. The
/// edges of this loop are listed in their direction, from the one that leaves the loop's first vertex in file order.
///
/// Errors: the first test that fails, with its evidence; `NoMemory`.
/// Cost: O(V + E) time, a few lists of u32, the longest of the number of vertices or edges. Not proved.
pub fn poles(alloc: Global, graph: &Digraph) -> Result<Poles, DigraphFault>
    ensures { IsPolesAnswer graph.now result }
{
    let n = graph.vertices();
    if n < 2 {
        return Err(DigraphFault::TooFew { n });
    }
    let ends = graph.ends();
    let order = strip(alloc, n, ends)?;
    let left = mark_left(alloc, n, &order.vertices)?;
    match find_first(n, &left) {
        Some(start) => {
            let edges = name_cycle(alloc, n, ends, &order, &left, start)?;
            Err(DigraphFault::Cycle { edges })
        }
        None => find_poles(alloc, n, ends, &order),
    }
}
