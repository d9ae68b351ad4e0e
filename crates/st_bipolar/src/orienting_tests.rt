//! Orientations of small maps.
ghost use Rattle.std.specs.Prelude.{◌≡◌, ◌<◌, ℕ, length, slice_index, IfOk, IfSome, IsTrue};
ghost use Rattle.st_map.specs.Embedded.{bare};
ghost use Rattle.st_map.specs.Orders.{HasNoLoop, order_at};

use crate::{OrientFault, Oriented, orient};
use st_ids::{Dart, Digraph, EdgeId, EdgeList, IdVec, VertexId};
use st_map::Map;
use std::alloc::Global;

/// The graph of n vertices with these edges.
fn graph_of(alloc: Global, n: u32, edges: &[(u32, u32)]) -> Option<Digraph> {
    let mut graph = Digraph::new(alloc);
    if n > 100 {
        return None;
    }
    graph.add_vertices(n);
    for (tail, head) in edges {
        if *tail >= graph.vertices() || *head >= graph.vertices() || graph.edges() > 100 {
            return None;
        }
        graph.add_edge(VertexId(*tail), VertexId(*head)).ok()?;
    }
    Some(graph)
}

fn is_loopless(graph: &Digraph) -> bool
    ensures { IsTrue result → HasNoLoop graph.now }
{
    for e in 0..graph.edges() {
        if graph.tail(EdgeId(e)) == graph.head(EdgeId(e)) {
            return false;
        }
    }
    true
}

/// A list of some of the first edges.
fn list_of(alloc: Global, edges: u32, row: &[u32]) -> Option<EdgeList>
    ensures { IfSome result (λ es. (k : ℕ) → k < length es → slice_index es k < edges) }
{
    let mut list = EdgeList::new(alloc);
    for e in row {
        if *e >= edges {
            return None;
        }
        list.push(EdgeId(*e)).ok()?;
    }
    Some(list)
}

/// A list for each vertex.
fn lists_of(alloc: Global, edges: u32, rows: &[&[u32]]) -> Option<IdVec<VertexId, EdgeList>>
    ensures { IfSome result (λ lists. (v : ℕ) → v < length lists
        → (k : ℕ) → k < length (order_at lists v) → slice_index (order_at lists v) k < edges) }
{
    let mut lists: IdVec<VertexId, EdgeList> = IdVec::new(alloc);
    for row in rows {
        if lists.len() > 100 {
            return None;
        }
        lists.push(list_of(alloc, edges, row)?).ok()?;
    }
    Some(lists)
}

fn map_of(alloc: Global, graph: &Digraph, rows: &[&[u32]]) -> Option<Map>
    requires { HasNoLoop graph.now }
    ensures { IfSome result (λ m. bare m.graph ≡ graph.now) }
{
    let lists = lists_of(alloc, graph.edges(), rows)?;
    if lists.len() != graph.vertices() {
        return None;
    }
    Map::from_orders(alloc, graph, &lists).ok()
}

fn oriented(
    alloc: Global,
    n: u32,
    edges: &[(u32, u32)],
    rows: &[&[u32]],
    s: u32,
    t: u32,
    outer: Option<u32>,
) -> Option<Result<Oriented, OrientFault>> {
    let graph = graph_of(alloc, n, edges)?;
    if !is_loopless(&graph) {
        return None;
    }
    let map = map_of(alloc, &graph, rows)?;
    if s >= map.vertices() || t >= map.vertices() || s == t {
        return None;
    }
    match outer {
        None => Some(orient(alloc, map, VertexId(s), VertexId(t), None)),
        Some(d) => {
            if d >= 2 * map.edges() {
                return None;
            }
            Some(orient(alloc, map, VertexId(s), VertexId(t), Some(Dart(d))))
        }
    }
}

/// The tail and head of each edge, and the outer end.
fn told(alloc: Global, found: &Oriented) -> Option<String> {
    let mut text = String::new(alloc);
    let map = found.graph.map();
    for e in 0..map.edges() {
        let (tail, head) = (map.tail(EdgeId(e)).0, map.head(EdgeId(e)).0);
        text.push_str(&format!(in alloc; "{tail}-{head} ").ok()?)
            .ok()?;
    }
    text.push_str(&format!(in alloc; "outer {}", found.graph.outer_end().0).ok()?)
        .ok()?;
    Some(text)
}

const SQUARE: [(u32, u32); 4] = [(0, 1), (0, 2), (1, 3), (2, 3)];

const SQUARE_LISTS: [&[u32]; 4] = [&[0, 1], &[2, 0], &[3, 1], &[3, 2]];

/// A square between two opposite corners and from corner to corner; one edge; a triangle.
#[test]
fn edges_are_turned(rt: HostRuntime) {
    let rows: [(u32, &[(u32, u32)], &[&[u32]], u32, u32, Option<u32>, &str); 5] = [
        (
            4,
            &SQUARE,
            &SQUARE_LISTS,
            1,
            2,
            None,
            "1-0 0-2 1-3 3-2 outer 4",
        ),
        (
            4,
            &SQUARE,
            &SQUARE_LISTS,
            0,
            3,
            Some(1),
            "0-1 0-2 1-3 2-3 outer 1",
        ),
        (
            4,
            &SQUARE,
            &SQUARE_LISTS,
            0,
            1,
            None,
            "0-1 0-2 3-1 2-3 outer 0",
        ),
        (2, &[(0, 1)], &[&[0], &[0]], 1, 0, None, "1-0 outer 0"),
        (
            3,
            &[(0, 1), (1, 2), (2, 0)],
            &[&[0, 2], &[1, 0], &[2, 1]],
            0,
            2,
            None,
            "0-1 1-2 0-2 outer 0",
        ),
    ];
    for (n, edges, lists, s, t, outer, want) in rows {
        let answer = oriented(rt.alloc(), n, edges, lists, s, t, outer).expect(&rt, "a map");
        let found = answer.ok().expect(&rt, "an orientation");
        let text = told(rt.alloc(), &found).expect(&rt, "memory");
        assert_eq!(rt; text.as_str(), want, "with poles {s} and {t}");
    }
}

/// Each fault once, and of two cuts the first with its first vertex.
#[test]
fn the_first_fault_is_named(rt: HostRuntime) {
    let rows: [(
        u32,
        &[(u32, u32)],
        &[&[u32]],
        u32,
        u32,
        Option<u32>,
        OrientFault,
    ); 6] = [
        (
            5,
            &SQUARE,
            &[&[0, 1], &[2, 0], &[3, 1], &[3, 2], &[]],
            0,
            3,
            None,
            OrientFault::Apart {
                vertex: VertexId(4),
            },
        ),
        (
            4,
            &[(0, 1), (2, 3)],
            &[&[0], &[0], &[1], &[1]],
            0,
            2,
            None,
            OrientFault::Apart {
                vertex: VertexId(2),
            },
        ),
        (
            4,
            &[(0, 1), (0, 2), (1, 3), (2, 3), (0, 3), (1, 2)],
            &[&[0, 1, 4], &[0, 2, 5], &[1, 3, 5], &[2, 3, 4]],
            0,
            3,
            None,
            OrientFault::BadFaces { v: 4, e: 6, f: 2 },
        ),
        (
            4,
            &[(0, 1), (0, 2), (1, 3), (2, 3), (1, 2)],
            &[&[0, 1], &[2, 4, 0], &[1, 4, 3], &[3, 2]],
            0,
            3,
            Some(8),
            OrientFault::Outer {
                misses_source: true,
                misses_sink: false,
            },
        ),
        (
            3,
            &[(0, 1), (1, 2)],
            &[&[0], &[1, 0], &[1]],
            0,
            1,
            None,
            OrientFault::Cut {
                cut: VertexId(1),
                apart: VertexId(2),
            },
        ),
        (
            6,
            &[(5, 4), (4, 3), (3, 2), (1, 4), (3, 0)],
            &[&[4], &[3], &[2], &[4, 2, 1], &[3, 1, 0], &[0]],
            5,
            2,
            None,
            OrientFault::Cut {
                cut: VertexId(3),
                apart: VertexId(0),
            },
        ),
    ];
    for (n, edges, lists, s, t, outer, want) in rows {
        let answer = oriented(rt.alloc(), n, edges, lists, s, t, outer).expect(&rt, "a map");
        assert_eq!(rt; answer.err(), Some(want), "with poles {s} and {t}");
    }
}
