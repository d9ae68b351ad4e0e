//! Faces and verdicts of small maps.
ghost use Rattle.std.specs.Prelude.{◌≡◌, ◌<◌, ℕ, length, slice_index, IfOk, IfSome, IsTrue};
ghost use Rattle.st_map.specs.Embedded.{bare};
ghost use Rattle.st_map.specs.Orders.{HasNoLoop, order_at};

use crate::{EmbedFault, StGraph, faces, laws, poles, test};
use st_ids::{Dart, Digraph, EdgeId, EdgeList, IdVec, OrbitId, VertexId};
use st_map::Map;
use std::alloc::{AllocError, Global};

/// The graph of n vertices with these edges.
fn graph_of(alloc: Global, n: u32, edges: &[(u32, u32)]) -> Option<Digraph> {
    let mut graph = Digraph::new(alloc);
    if n > 100 {
        return None;
    }
    graph.add_vertices(n);
    for (tail, head) in edges {
        if *tail >= graph.vertices() || *head >= graph.vertices() || graph.edges() > 100 {
            return None;
        }
        graph.add_edge(VertexId(*tail), VertexId(*head)).ok()?;
    }
    Some(graph)
}

/// A list of some of the first edges.
fn list_of(alloc: Global, edges: u32, row: &[u32]) -> Option<EdgeList>
    ensures { IfSome result (λ es. (k : ℕ) → k < length es → slice_index es k < edges) }
{
    let mut list = EdgeList::new(alloc);
    for e in row {
        if *e >= edges {
            return None;
        }
        list.push(EdgeId(*e)).ok()?;
    }
    Some(list)
}

/// A list for each vertex.
fn lists_of(alloc: Global, edges: u32, rows: &[&[u32]]) -> Option<IdVec<VertexId, EdgeList>>
    ensures { IfSome result (λ lists. (v : ℕ) → v < length lists → (k : ℕ) → k < length (order_at lists v) → slice_index (order_at lists v) k < edges) }
{
    let mut lists: IdVec<VertexId, EdgeList> = IdVec::new(alloc);
    for row in rows {
        if lists.len() > 100 {
            return None;
        }
        lists.push(list_of(alloc, edges, row)?).ok()?;
    }
    Some(lists)
}

fn map_of(alloc: Global, graph: &Digraph, rows: &[&[u32]]) -> Option<Map>
    requires { HasNoLoop graph.now }
    ensures { IfSome result (λ m. bare m.graph ≡ graph.now) }
{
    let lists = lists_of(alloc, graph.edges(), rows)?;
    if lists.len() != graph.vertices() {
        return None;
    }
    Map::from_orders(alloc, graph, &lists).ok()
}

fn tested(
    alloc: Global,
    n: u32,
    edges: &[(u32, u32)],
    rows: &[&[u32]],
    outer: Option<u32>,
) -> Option<Result<StGraph, EmbedFault>> {
    let graph = graph_of(alloc, n, edges)?;
    let Ok(found) = poles(alloc, &graph) else {
        return None;
    };
    laws::no_loop();
    let map = map_of(alloc, &graph, rows)?;
    match outer {
        None => Some(test(alloc, map, found, None)),
        Some(d) => {
            if d >= 2 * map.edges() {
                return None;
            }
            Some(test(alloc, map, found, Some(Dart(d))))
        }
    }
}

/// The number of the face of each end.
fn orbits_of(alloc: Global, n: u32, edges: &[(u32, u32)], rows: &[&[u32]]) -> Option<Vec<u32>> {
    let graph = graph_of(alloc, n, edges)?;
    poles(alloc, &graph).ok()?;
    laws::no_loop();
    let map = map_of(alloc, &graph, rows)?;
    let found = faces(alloc, &map).ok()?;
    let mut orbits = Vec::new(alloc);
    for d in 0..2 * map.edges() {
        orbits.push(found.orbit(Dart(d)).0).ok()?;
    }
    Some(orbits)
}

const BRIDGE: [(u32, u32); 8] = [
    (0, 1),
    (0, 2),
    (1, 3),
    (2, 3),
    (3, 4),
    (3, 5),
    (4, 6),
    (5, 6),
];

const CHORDS: [(u32, u32); 5] = [(0, 1), (1, 3), (1, 2), (0, 2), (2, 3)];

const CHORD_LISTS: [&[u32]; 4] = [&[0, 3], &[1, 2, 0], &[4, 3, 2], &[4, 1]];

const TWISTED: [&[u32]; 7] = [
    &[0, 1],
    &[2, 0],
    &[3, 1],
    &[4, 3, 5, 2],
    &[6, 4],
    &[7, 5],
    &[7, 6],
];

const BEADS: [(u32, u32); 4] = [(0, 1), (1, 2), (1, 2), (2, 3)];

const BEAD_LISTS: [&[u32]; 4] = [&[0], &[1, 2, 0], &[3, 2, 1], &[3]];

/// Two paths between two vertices; two such one above the other; a path with two more edges beside it.
#[test]
fn faces_are_numbered_by_their_least_ends(rt: HostRuntime) {
    let rows: [(u32, &[(u32, u32)], &[&[u32]], &[u32]); 3] = [
        (
            4,
            &[(0, 1), (0, 2), (1, 3), (2, 3)],
            &[&[0, 1], &[2, 0], &[3, 1], &[3, 2]],
            &[0, 1, 1, 0, 0, 1, 1, 0],
        ),
        (
            7,
            &BRIDGE,
            &[
                &[0, 1],
                &[2, 0],
                &[3, 1],
                &[4, 5, 3, 2],
                &[6, 4],
                &[7, 5],
                &[7, 6],
            ],
            &[0, 1, 1, 0, 0, 1, 1, 0, 0, 2, 2, 0, 0, 2, 2, 0],
        ),
        (4, &CHORDS, &CHORD_LISTS, &[0, 1, 0, 2, 2, 1, 1, 0, 2, 0]),
    ];
    for (n, edges, lists, want) in rows {
        let orbits = orbits_of(rt.alloc(), n, edges, lists).expect(&rt, "a map");
        assert_eq!(rt; orbits.as_slice(), want, "{n} vertices");
    }
}

#[test]
fn the_first_failed_test_is_named(rt: HostRuntime) {
    let rows: [(
        u32,
        &[(u32, u32)],
        &[&[u32]],
        Option<u32>,
        Option<EmbedFault>,
    ); 6] = [
        (
            7,
            &BRIDGE,
            &TWISTED,
            None,
            Some(EmbedFault::BadFaces { v: 7, e: 8, f: 1 }),
        ),
        (4, &CHORDS, &CHORD_LISTS, None, None),
        (4, &CHORDS, &CHORD_LISTS, Some(0), None),
        (
            4,
            &CHORDS,
            &CHORD_LISTS,
            Some(6),
            Some(EmbedFault::Outer {
                misses_source: false,
                misses_sink: true,
            }),
        ),
        (
            4,
            &CHORDS,
            &CHORD_LISTS,
            Some(4),
            Some(EmbedFault::Outer {
                misses_source: true,
                misses_sink: false,
            }),
        ),
        (
            4,
            &BEADS,
            &BEAD_LISTS,
            Some(3),
            Some(EmbedFault::Outer {
                misses_source: true,
                misses_sink: true,
            }),
        ),
    ];
    for (n, edges, lists, outer, want) in rows {
        let answer = tested(rt.alloc(), n, edges, lists, outer).expect(&rt, "a map");
        assert_eq!(rt; answer.err(), want, "{n} vertices");
    }
}

#[test]
fn an_accepted_graph_is_read(rt: HostRuntime) {
    let answer = tested(rt.alloc(), 4, &CHORDS, &CHORD_LISTS, Some(9)).expect(&rt, "a map");
    let graph = answer.ok().expect(&rt, "a planar st-graph");
    laws::planar_st(&graph);
    assert_eq!(rt; (graph.source(), graph.sink()), (VertexId(0), VertexId(3)));
    assert_eq!(rt; (graph.outer(), graph.outer_end()), (OrbitId(0), Dart(9)));
    assert_eq!(rt; (graph.map().edges(), graph.faces().count()), (5, 3));
    assert_eq!(rt; graph.into_map().vertices(), 4);
}

#[test]
fn faults_are_printed(rt: HostRuntime) -> Result<(), AllocError> {
    let rows = [
        (
            EmbedFault::BadFaces { v: 7, e: 8, f: 1 },
            "7 vertices, 8 edges, 1 faces",
        ),
        (
            EmbedFault::Outer {
                misses_source: true,
                misses_sink: false,
            },
            "outer face misses a pole",
        ),
        (EmbedFault::NoMemory, "no memory"),
    ];
    for (fault, text) in rows {
        assert_eq!(rt; format!(in rt.alloc(); "{fault}")?.as_str(), text);
    }
    Ok(())
}
