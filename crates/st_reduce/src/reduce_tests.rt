//! The dummies of small graphs.
ghost use Rattle.std.specs.Prelude.{◌≡◌, ◌<◌, ℕ, length, slice_index, IfSome};
ghost use Rattle.st_map.specs.Embedded.{bare};
ghost use Rattle.st_map.specs.Orders.{HasNoLoop, order_at};

use crate::{Reduced, reduce};
use st_ids::{Digraph, EdgeId, EdgeList, IdVec, VertexId};
use st_map::Map;
use st_sides::Sides;
use st_test::{StGraph, laws, poles, test};
use std::alloc::Global;

/// The graph of n vertices with these edges.
fn graph_of(alloc: Global, n: u32, edges: &[(u32, u32)]) -> Option<Digraph> {
    let mut graph = Digraph::new(alloc);
    if n > 100 {
        return None;
    }
    graph.add_vertices(n);
    for (tail, head) in edges {
        if *tail >= graph.vertices() || *head >= graph.vertices() || graph.edges() > 100 {
            return None;
        }
        graph.add_edge(VertexId(*tail), VertexId(*head)).ok()?;
    }
    Some(graph)
}

/// A list of some of the first edges.
fn list_of(alloc: Global, edges: u32, row: &[u32]) -> Option<EdgeList>
    ensures { IfSome result (λ es. (k : ℕ) → k < length es → slice_index es k < edges) }
{
    let mut list = EdgeList::new(alloc);
    for e in row {
        if *e >= edges {
            return None;
        }
        list.push(EdgeId(*e)).ok()?;
    }
    Some(list)
}

/// A list for each vertex.
fn lists_of(alloc: Global, edges: u32, rows: &[&[u32]]) -> Option<IdVec<VertexId, EdgeList>>
    ensures { IfSome result (λ lists. (v : ℕ) → v < length lists → (k : ℕ) → k < length (order_at lists v) → slice_index (order_at lists v) k < edges) }
{
    let mut lists: IdVec<VertexId, EdgeList> = IdVec::new(alloc);
    for row in rows {
        if lists.len() > 100 {
            return None;
        }
        lists.push(list_of(alloc, edges, row)?).ok()?;
    }
    Some(lists)
}

fn map_of(alloc: Global, graph: &Digraph, rows: &[&[u32]]) -> Option<Map>
    requires { HasNoLoop graph.now }
    ensures { IfSome result (λ m. bare m.graph ≡ graph.now) }
{
    let lists = lists_of(alloc, graph.edges(), rows)?;
    if lists.len() != graph.vertices() {
        return None;
    }
    Map::from_orders(alloc, graph, &lists).ok()
}

/// The planar st-graph with these edges and lists.
fn st_graph_of(alloc: Global, n: u32, edges: &[(u32, u32)], rows: &[&[u32]]) -> Option<StGraph> {
    let graph = graph_of(alloc, n, edges)?;
    let Ok(found) = poles(alloc, &graph) else {
        return None;
    };
    laws::no_loop();
    let map = map_of(alloc, &graph, rows)?;
    match test(alloc, map, found, None) {
        Ok(graph) => Some(graph),
        Err(_) => None,
    }
}

/// The number of the new vertex of each edge, and 99 where it has none.
fn told(alloc: Global, reduced: &Reduced) -> Option<Vec<u32>> {
    let mut list = Vec::new(alloc);
    for dummy in reduced.dummy.items() {
        match dummy {
            Some(vertex) => list.push(vertex.0).ok()?,
            None => list.push(99).ok()?,
        }
    }
    Some(list)
}

/// The new vertices of the reduced graph of the graph with these edges and lists.
fn dummies_of(alloc: Global, n: u32, edges: &[(u32, u32)], rows: &[&[u32]]) -> Option<Vec<u32>> {
    let graph = st_graph_of(alloc, n, edges, rows)?;
    if graph.map().vertices() > 100 || graph.map().edges() > 100 {
        return None;
    }
    let sides = Sides::of(alloc, &graph).ok()?;
    let reduced = reduce(alloc, graph, &sides).ok()?;
    told(alloc, &reduced)
}

/// Two edges with a longer walk beside them, two parallel edges, and an edge between two inner faces.
#[test]
fn transitive_edges_have_new_vertices(rt: HostRuntime) {
    let alloc = rt.alloc();
    let chords = [(0, 1), (1, 3), (1, 2), (0, 2), (2, 3)];
    let chord_rows: [&[u32]; 4] = [&[0, 3], &[1, 2, 0], &[4, 3, 2], &[4, 1]];
    let dummies = dummies_of(alloc, 4, &chords, &chord_rows).expect(&rt, "memory");
    assert_eq!(rt; dummies.as_slice(), [99, 4, 99, 5, 99].as_slice());
    let dummies = dummies_of(alloc, 2, &[(0, 1), (0, 1)], &[&[0, 1], &[1, 0]]);
    assert_eq!(rt; dummies.expect(&rt, "memory").as_slice(), [2, 3].as_slice());
    let middle = [(0, 1), (1, 3), (0, 3), (0, 2), (2, 3)];
    let middle_rows: [&[u32]; 4] = [&[0, 2, 3], &[1, 0], &[4, 3], &[4, 2, 1]];
    let dummies = dummies_of(alloc, 4, &middle, &middle_rows).expect(&rt, "memory");
    assert_eq!(rt; dummies.as_slice(), [99, 99, 4, 99, 99].as_slice());
}
