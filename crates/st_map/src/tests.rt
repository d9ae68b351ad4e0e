//! Small maps, and lists that make none.
ghost use Rattle.std.specs.Prelude.{◌≡◌, ◌≢◌, ◌<◌, ℕ, length, slice_index, slice_index_or, [], IsTrue};
ghost use Rattle.st_ids.specs.EdgeNumbers.{numbers};
ghost use Rattle.st_ids.specs.Graph.{tail_of, head_of};
ghost use Rattle.st_map.specs.Orders.{HasEdges, HasNoLoop, order_at};
ghost use Rattle.st_map.specs.Tables.{AreEdges};

use crate::{Map, MapFault, orders};
use st_ids::{Dart, Digraph, EdgeId, EdgeList, IdVec, VertexId};
use std::alloc::{AllocError, Global};

/// The graph of n vertices with these edges.
fn graph_of(alloc: Global, n: u32, edges: &[(u32, u32)]) -> Option<Digraph> {
    let mut graph = Digraph::new(alloc);
    if n > 100 {
        return None;
    }
    graph.add_vertices(n);
    for (tail, head) in edges {
        if *tail >= graph.vertices() || *head >= graph.vertices() || graph.edges() > 100 {
            return None;
        }
        graph.add_edge(VertexId(*tail), VertexId(*head)).ok()?;
    }
    Some(graph)
}

fn list_of(alloc: Global, edges: &[u32]) -> Option<EdgeList> {
    let mut list = EdgeList::new(alloc);
    for e in edges {
        list.push(EdgeId(*e)).ok()?;
    }
    Some(list)
}

fn lists_of(alloc: Global, orders: &[&[u32]]) -> Option<IdVec<VertexId, EdgeList>> {
    let mut lists: IdVec<VertexId, EdgeList> = IdVec::new(alloc);
    for order in orders {
        if lists.len() > 100 {
            return None;
        }
        lists.push(list_of(alloc, order)?).ok()?;
    }
    Some(lists)
}

fn is_loopless(graph: &Digraph) -> bool
    ensures { IsTrue result → HasNoLoop graph.now }
{
    for e in 0..graph.edges() {
        if graph.tail(EdgeId(e)) == graph.head(EdgeId(e)) {
            return false;
        }
    }
    true
}

fn has_edges_only(edges: u32, list: &EdgeList) -> bool
    ensures { IsTrue result → (k : ℕ) → k < length list.now → slice_index list.now k < edges }
{
    for k in 0..orders::list_len(list.items()) {
        if orders::edge_at(list.items(), k) >= edges {
            return false;
        }
    }
    true
}

fn are_edges(graph: &Digraph, lists: &IdVec<VertexId, EdgeList>) -> bool
    ensures { IsTrue result → (v : ℕ) → v < length lists.now → AreEdges graph.now.ends (order_at lists.now v) }
{
    for v in 0..lists.len() {
        if !has_edges_only(graph.edges(), lists.get(VertexId(v))) {
            return false;
        }
    }
    true
}

fn map_of(
    alloc: Global,
    n: u32,
    edges: &[(u32, u32)],
    orders: &[&[u32]],
) -> Option<Result<Map, MapFault>> {
    let graph = graph_of(alloc, n, edges)?;
    let lists = lists_of(alloc, orders)?;
    if lists.len() != graph.vertices() || !are_edges(&graph, &lists) || !is_loopless(&graph) {
        return None;
    }
    Some(Map::from_orders(alloc, &graph, &lists))
}

/// A copy with its first edge split; `None` where it has none or is large, or memory runs out.
fn split_copy(map: &Map) -> Option<Map> {
    let mut copy = map.copy().ok()?;
    if copy.edges() == 0 || copy.vertices() > 100 || copy.edges() > 100 {
        return None;
    }
    match copy.reserve(1) {
        Ok(()) => {
            copy.split_edge(EdgeId(0));
            Some(copy)
        }
        Err(_) => None,
    }
}

/// A copy with an edge put in behind the ends 0 and 7, and then without edge 0; `None` where it lacks these, or memory
/// runs out.
fn exchanged_copy(map: &Map) -> Option<Map> {
    let mut copy = map.copy().ok()?;
    if copy.edges() != 4 || copy.vertices() > 100 {
        return None;
    }
    copy.reserve(1).ok()?;
    if copy.vertex_of(Dart(0)) == copy.vertex_of(Dart(7)) {
        return None;
    }
    if copy.insert_edge(Dart(0), Dart(7)).0 != 4 {
        return None;
    }
    match copy.remove_edge(EdgeId(0)) {
        Some(EdgeId(4)) => Some(copy),
        _ => None,
    }
}

/// A copy without edge 3, which is the last; `None` where it isn't, or memory runs out.
fn shortened_copy(map: &Map) -> Option<Map> {
    let mut copy = map.copy().ok()?;
    if copy.edges() != 4 || copy.remove_edge(EdgeId(3)).is_some() {
        return None;
    }
    Some(copy)
}

/// A square of two paths from 0 to 3, whose lists have the edges out and then the edges in, last first.
#[test]
fn a_diamond_has_its_lists(rt: HostRuntime) {
    let edges = [(0, 1), (0, 2), (1, 3), (2, 3)];
    let lists: [&[u32]; 5] = [&[0, 1], &[2, 0], &[3, 1], &[3, 2], &[]];
    let made = map_of(rt.alloc(), 5, &edges, &lists).expect(&rt, "memory");
    let map = made.expect(&rt, "lawful lists");
    assert_eq!(rt; (map.vertices(), map.edges()), (5, 4));
    if map.vertices() == 5 && map.edges() == 4 {
        let edge = EdgeId(2);
        assert_eq!(rt;
            (map.tail(edge), map.head(edge)),
            (VertexId(1), VertexId(3))
        );
        for (v, first, degree) in [(0, 0, 2), (1, 4, 2), (2, 6, 2), (3, 7, 2)] {
            assert_eq!(rt; map.at(VertexId(v)), Some(Dart(first)), "at {v}");
            assert_eq!(rt; map.degree(VertexId(v)), degree, "at {v}");
        }
        assert_eq!(rt; map.at(VertexId(4)), None);
        for (end, next) in [
            (0, 2),
            (2, 0),
            (4, 1),
            (1, 4),
            (6, 3),
            (3, 6),
            (7, 5),
            (5, 7),
        ] {
            assert_eq!(rt; map.next_cw(Dart(end)), Dart(next), "at {end}");
            assert_eq!(rt; map.next_ccw(Dart(next)), Dart(end), "at {end}");
        }
    }
}

/// The first edge of a square is split in a copy.
#[test]
fn a_split_edge_has_its_new_vertex_in_the_middle(rt: HostRuntime) {
    let edges = [(0, 1), (0, 2), (1, 3), (2, 3)];
    let lists: [&[u32]; 4] = [&[0, 1], &[2, 0], &[3, 1], &[3, 2]];
    let made = map_of(rt.alloc(), 4, &edges, &lists).expect(&rt, "memory");
    let map = made.expect(&rt, "lawful lists");
    let copy = split_copy(&map).expect(&rt, "memory");
    assert_eq!(rt; (copy.vertices(), copy.edges()), (5, 5));
    if copy.vertices() == 5 && copy.edges() == 5 {
        for (e, tail, head) in [(0, 0, 4), (4, 4, 1), (2, 1, 3)] {
            let edge = EdgeId(e);
            assert_eq!(rt;
                (copy.tail(edge), copy.head(edge)),
                (VertexId(tail), VertexId(head)),
                "edge {e}"
            );
        }
        assert_eq!(rt; copy.at(VertexId(4)), Some(Dart(8)));
        for (end, next) in [(8, 1), (1, 8), (4, 9), (9, 4)] {
            assert_eq!(rt; copy.next_cw(Dart(end)), Dart(next), "at {end}");
        }
    }
    assert_eq!(rt; (map.vertices(), map.edges()), (4, 4));
}

/// An edge from 0 to 3 is put in behind the ends 0 and 7, and takes the number of edge 0 when that is taken out.
#[test]
fn the_last_edge_takes_the_number_of_one_taken_out(rt: HostRuntime) -> Result<(), AllocError> {
    let edges = [(0, 1), (0, 2), (1, 3), (2, 3)];
    let lists: [&[u32]; 4] = [&[0, 1], &[2, 0], &[3, 1], &[3, 2]];
    let made = map_of(rt.alloc(), 4, &edges, &lists).expect(&rt, "memory");
    let map = made.expect(&rt, "lawful lists");
    let copy = exchanged_copy(&map).expect(&rt, "memory");
    assert_eq!(rt; (copy.vertices(), copy.edges()), (4, 4));
    if copy.vertices() == 4 && copy.edges() == 4 {
        let edge = EdgeId(0);
        assert_eq!(rt; (copy.tail(edge).0, copy.head(edge).0), (0, 3));
        for (v, first, degree) in [(0, 0, 2), (1, 4, 1), (2, 6, 2), (3, 7, 3)] {
            assert_eq!(rt; copy.at(VertexId(v)), Some(Dart(first)), "at {v}");
            assert_eq!(rt; copy.degree(VertexId(v)), degree, "at {v}");
        }
        for (end, next) in [
            (0, 2),
            (2, 0),
            (4, 4),
            (6, 3),
            (3, 6),
            (7, 1),
            (1, 5),
            (5, 7),
        ] {
            assert_eq!(rt; copy.next_cw(Dart(end)), Dart(next), "at {end}");
            assert_eq!(rt; copy.next_ccw(Dart(next)), Dart(end), "at {end}");
        }
    }
    for round in &copy.rounds(rt.alloc())? {
        assert!(rt; follows(&copy, round));
    }
    Ok(())
}

#[test]
fn the_last_edge_is_taken_out(rt: HostRuntime) {
    let edges = [(0, 1), (0, 2), (1, 3), (2, 3)];
    let lists: [&[u32]; 4] = [&[0, 1], &[2, 0], &[3, 1], &[3, 2]];
    let made = map_of(rt.alloc(), 4, &edges, &lists).expect(&rt, "memory");
    let map = made.expect(&rt, "lawful lists");
    let copy = shortened_copy(&map).expect(&rt, "memory");
    assert_eq!(rt; (copy.vertices(), copy.edges()), (4, 3));
    if copy.vertices() == 4 && copy.edges() == 3 {
        assert_eq!(rt; copy.at(VertexId(2)), Some(Dart(3)));
        assert_eq!(rt; copy.at(VertexId(3)), Some(Dart(5)));
        for (end, next) in [(0, 2), (2, 0), (4, 1), (1, 4), (3, 3), (5, 5)] {
            assert_eq!(rt; copy.next_cw(Dart(end)), Dart(next), "at {end}");
        }
    }
}

/// Whether each end of a round is the clockwise next of the one before, and the first that of the last.
fn follows(map: &Map, round: &[u32]) -> bool {
    for k in 0..round.len() {
        let next = if k + 1 < round.len() {
            round[k + 1]
        } else {
            round[0]
        };
        if round[k] / 2 >= map.edges() || map.next_cw(Dart(round[k])) != Dart(next) {
            return false;
        }
    }
    true
}

/// The lists by the keys in the slab, from each record of a square on.
#[test]
fn keys_lead_round_each_vertex(rt: HostRuntime) -> Result<(), AllocError> {
    let edges = [(0, 1), (0, 2), (1, 3), (2, 3)];
    let lists: [&[u32]; 4] = [&[0, 1], &[2, 0], &[3, 1], &[3, 2]];
    let made = map_of(rt.alloc(), 4, &edges, &lists).expect(&rt, "memory");
    let map = made.expect(&rt, "lawful lists");
    let rounds = map.rounds(rt.alloc())?;
    assert_eq!(rt; rounds.len(), 8);
    for round in &rounds {
        assert_eq!(rt; round.len(), 2);
        assert!(rt; follows(&map, round));
    }
    Ok(())
}

#[test]
fn the_first_bad_order_is_named(rt: HostRuntime) {
    let edges = [(0, 1), (1, 2), (0, 2)];
    let rows: [([&[u32]; 3], u32); 5] = [
        ([&[0, 0], &[1, 0], &[1, 2]], 0),
        ([&[0, 2], &[1], &[1, 2]], 1),
        ([&[0, 2], &[1, 2], &[1, 2]], 1),
        ([&[0, 2], &[1, 0, 1], &[1, 2]], 1),
        ([&[0, 2], &[1, 0], &[]], 2),
    ];
    for (lists, bad) in rows {
        let made = map_of(rt.alloc(), 3, &edges, &lists).expect(&rt, "memory");
        let fault = made.err();
        assert_eq!(rt;
            fault,
            Some(MapFault::BadOrder {
                vertex: VertexId(bad)
            }),
            "at {bad}"
        );
    }
}

#[test]
fn faults_are_printed(rt: HostRuntime) -> Result<(), AllocError> {
    let fault = MapFault::BadOrder {
        vertex: VertexId(3),
    };
    assert_eq!(rt;
        format!(in rt.alloc(); "{fault}")?.as_str(),
        "bad order at vertex 3"
    );
    assert_eq!(rt;
        format!(in rt.alloc(); "{}", MapFault::NoMemory)?.as_str(),
        "no memory"
    );
    Ok(())
}
