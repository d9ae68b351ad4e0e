//! The rows of a session on a small graph.
ghost use Rattle.std.specs.Prelude.{◌≡◌, ◌<◌, ℕ, length, slice_index, IfOk, IfSome, IsTrue};
ghost use Rattle.st_map.specs.Embedded.{bare};
ghost use Rattle.st_map.specs.Orders.{HasNoLoop, order_at};
ghost use Rattle.st_session.specs.States.{HasEachOnce};

use crate::{AskFault, EditFault, Reply, Session};
use st_ids::{Digraph, EdgeId, EdgeList, Id, IdVec, Names, VertexId};
use st_map::Map;
use st_test::{StGraph, laws, poles, test};
use std::alloc::Global;
use std::test::Fail;

/// The graph of n vertices with these edges.
fn graph_of(alloc: Global, n: u32, edges: &[(u32, u32)]) -> Option<Digraph> {
    let mut graph = Digraph::new(alloc);
    if n > 100 {
        return None;
    }
    graph.add_vertices(n);
    for (tail, head) in edges {
        if *tail >= graph.vertices() || *head >= graph.vertices() || graph.edges() > 100 {
            return None;
        }
        graph.add_edge(VertexId(*tail), VertexId(*head)).ok()?;
    }
    Some(graph)
}

/// A list of some of the first edges.
fn list_of(alloc: Global, edges: u32, row: &[u32]) -> Option<EdgeList>
    ensures { IfSome result (λ es. (k : ℕ) → k < length es → slice_index es k < edges) }
{
    let mut list = EdgeList::new(alloc);
    for e in row {
        if *e >= edges {
            return None;
        }
        list.push(EdgeId(*e)).ok()?;
    }
    Some(list)
}

/// A list for each vertex.
fn lists_of(alloc: Global, edges: u32, rows: &[&[u32]]) -> Option<IdVec<VertexId, EdgeList>>
    ensures { IfSome result (λ lists. (v : ℕ) → v < length lists → (k : ℕ) → k < length (order_at lists v) → slice_index (order_at lists v) k < edges) }
{
    let mut lists: IdVec<VertexId, EdgeList> = IdVec::new(alloc);
    for row in rows {
        if lists.len() > 100 {
            return None;
        }
        lists.push(list_of(alloc, edges, row)?).ok()?;
    }
    Some(lists)
}

fn map_of(alloc: Global, graph: &Digraph, rows: &[&[u32]]) -> Option<Map>
    requires { HasNoLoop graph.now }
    ensures { IfSome result (λ m. bare m.graph ≡ graph.now) }
{
    let lists = lists_of(alloc, graph.edges(), rows)?;
    if lists.len() != graph.vertices() {
        return None;
    }
    Map::from_orders(alloc, graph, &lists).ok()
}

/// The planar st-graph with these edges and lists.
fn made(alloc: Global, n: usize, edges: &[(u32, u32)], rows: &[&[u32]]) -> Option<StGraph> {
    if n > 100 {
        return None;
    }
    let graph = graph_of(alloc, n as u32, edges)?;
    let Ok(found) = poles(alloc, &graph) else {
        return None;
    };
    laws::no_loop();
    let map = map_of(alloc, &graph, rows)?;
    test(alloc, map, found, None).ok()
}

/// The names of n vertices or edges, counted from the first one.
fn names_of<K: Id>(alloc: Global, first: u32, n: u32) -> Option<IdVec<K, i64>>
    requires first { first < 100 }
    requires n { n < 100 }
    ensures length { IfSome result (λ names. length names ≡ n) }
    ensures differ { IfSome result HasEachOnce }
{
    let mut names: IdVec<K, i64> = IdVec::new(alloc);
    for i in 0..n {
        let Ok(_) = names.push(i64::from(first + i)) else {
            return None;
        };
    }
    Some(names)
}

/// The session of a planar st-graph, with vertices named from 1 on and edges from 0 on.
fn session_of(
    alloc: Global,
    edges: &[(u32, u32)],
    rows: &[&[u32]],
    max_vertices: u32,
    max_edges: u32,
) -> Option<Session>
    requires vertices { max_vertices < 100 }
    requires edges { max_edges < 100 }
{
    let graph = made(alloc, rows.len(), edges, rows)?;
    let n = graph.map().vertices();
    let m = graph.map().edges();
    if n > max_vertices || m > max_edges {
        return None;
    }
    let names = Names {
        vertex: names_of(alloc, 1, n)?,
        edge: names_of(alloc, 0, m)?,
        label: IdVec::new(alloc),
    };
    Session::new(alloc, graph, &names, max_vertices, max_edges).ok()
}

/// Vertices 1 to 4, and edges 0 from 1 to 2, 1 from 1 to 3, 2 from 2 to 4, 3 from 3 to 4.
fn diamond(alloc: Global, max_vertices: u32, max_edges: u32) -> Option<Session>
    requires vertices { max_vertices < 100 }
    requires edges { max_edges < 100 }
{
    let edges = [(0, 1), (0, 2), (1, 3), (2, 3)];
    let rows: [&[u32]; 4] = [&[0, 1], &[2, 0], &[3, 1], &[3, 2]];
    session_of(alloc, &edges, &rows, max_vertices, max_edges)
}

/// Two such diamonds, one above the other: vertices 1 to 7, the middle one 4, and edges 0 to 7.
fn two_diamonds(alloc: Global) -> Option<Session> {
    let edges = [
        (0, 1),
        (0, 2),
        (1, 3),
        (2, 3),
        (3, 4),
        (3, 5),
        (4, 6),
        (5, 6),
    ];
    let rows: [&[u32]; 7] = [
        &[0, 1],
        &[2, 0],
        &[3, 1],
        &[4, 5, 3, 2],
        &[6, 4],
        &[7, 5],
        &[7, 6],
    ];
    session_of(alloc, &edges, &rows, 99, 99)
}

fn reply(reaches: bool, from_x: u32, from_y: u32, to_x: u32, to_y: u32) -> Result<Reply, AskFault> {
    Ok(Reply {
        reaches,
        from_x,
        from_y,
        to_x,
        to_y,
    })
}

#[test]
fn answers_between_edits(rt: HostRuntime) -> Result<(), Fail> {
    let alloc = rt.alloc();
    let mut session = diamond(alloc, 99, 99).expect(&rt, "a session");
    assert_eq!(rt; session.ask(2, 3), reply(false, 1, 2, 2, 1));
    assert_eq!(rt; session.insert(9, 2, 2, 3, 1), Ok(()));
    assert_eq!(rt; session.ask(2, 3), reply(true, 1, 1, 2, 2));
    assert_eq!(rt; session.remove(1), Ok(()));
    assert_eq!(rt; session.ask(1, 3), reply(true, 0, 0, 2, 2));
    assert_eq!(rt; session.split(0, 7, 8), Ok(()));
    assert_eq!(rt; session.ask(7, 1), reply(false, 1, 1, 0, 0));
    assert_eq!(rt; session.ask(5, 6), Err(AskFault::UnknownVertex { name: 5 }));
    assert_eq!(rt; session.ask(1, 6), Err(AskFault::UnknownVertex { name: 6 }));
    Ok(())
}

#[test]
fn splits_name_the_first_fault(rt: HostRuntime) -> Result<(), Fail> {
    let alloc = rt.alloc();
    let mut full = diamond(alloc, 4, 4).expect(&rt, "a session");
    assert_eq!(rt;
        full.split(9, 1, 1),
        Err(EditFault::UnknownEdge { name: 9 })
    );
    assert_eq!(rt; full.split(0, 1, 1), Err(EditFault::UsedVertex { name: 1 }));
    assert_eq!(rt; full.split(0, 7, 1), Err(EditFault::UsedEdge { name: 1 }));
    assert_eq!(rt;
        full.split(0, 7, 9),
        Err(EditFault::TooManyVertices { n: 5 })
    );
    let mut session = diamond(alloc, 5, 4).expect(&rt, "a session");
    assert_eq!(rt;
        session.split(0, 7, 9),
        Err(EditFault::TooManyEdges { m: 5 })
    );
    Ok(())
}

#[test]
fn inserts_name_the_first_fault(rt: HostRuntime) -> Result<(), Fail> {
    let alloc = rt.alloc();
    let mut full = diamond(alloc, 4, 4).expect(&rt, "a session");
    assert_eq!(rt;
        full.insert(0, 9, 9, 9, 9),
        Err(EditFault::UsedEdge { name: 0 })
    );
    assert_eq!(rt;
        full.insert(9, 9, 9, 9, 9),
        Err(EditFault::UnknownVertex { name: 9 })
    );
    assert_eq!(rt;
        full.insert(9, 1, 9, 8, 9),
        Err(EditFault::UnknownVertex { name: 8 })
    );
    assert_eq!(rt;
        full.insert(9, 1, 9, 1, 8),
        Err(EditFault::UnknownEdge { name: 9 })
    );
    assert_eq!(rt;
        full.insert(9, 1, 0, 1, 8),
        Err(EditFault::UnknownEdge { name: 8 })
    );
    assert_eq!(rt; full.insert(9, 1, 0, 1, 0), Err(EditFault::Loop));
    assert_eq!(rt;
        full.insert(9, 1, 3, 2, 3),
        Err(EditFault::NotAt { edge: 3, vertex: 1 })
    );
    assert_eq!(rt;
        full.insert(9, 1, 0, 2, 3),
        Err(EditFault::NotAt { edge: 3, vertex: 2 })
    );
    assert_eq!(rt;
        full.insert(9, 1, 0, 2, 0),
        Err(EditFault::TooManyEdges { m: 5 })
    );
    Ok(())
}

#[test]
fn refuses_edges_across(rt: HostRuntime) -> Result<(), Fail> {
    let alloc = rt.alloc();
    let mut session = diamond(alloc, 9, 9).expect(&rt, "a session");
    assert_eq!(rt; session.insert(9, 1, 1, 4, 2), Err(EditFault::OuterCorner));
    assert_eq!(rt;
        session.insert(9, 4, 3, 1, 0),
        Err(EditFault::Cycle { tail: 4, head: 1 })
    );
    assert_eq!(rt; session.insert(9, 1, 0, 4, 3), Ok(()));
    assert_eq!(rt; session.insert(8, 2, 2, 3, 1), Err(EditFault::OtherFace));
    Ok(())
}

#[test]
fn removals_name_the_first_fault(rt: HostRuntime) -> Result<(), Fail> {
    let alloc = rt.alloc();
    let mut session = diamond(alloc, 9, 9).expect(&rt, "a session");
    assert_eq!(rt; session.remove(9), Err(EditFault::UnknownEdge { name: 9 }));
    assert_eq!(rt; session.remove(0), Err(EditFault::Source { vertex: 2 }));
    assert_eq!(rt; session.insert(9, 1, 0, 4, 3), Ok(()));
    assert_eq!(rt; session.remove(9), Ok(()));
    assert_eq!(rt; session.insert(9, 2, 2, 3, 1), Ok(()));
    assert_eq!(rt; session.remove(2), Ok(()));
    assert_eq!(rt; session.remove(9), Err(EditFault::Sink { vertex: 2 }));
    assert_eq!(rt; session.ask(2, 4), reply(true, 1, 1, 3, 3));
    Ok(())
}

#[test]
fn corners_of_two_faces(rt: HostRuntime) -> Result<(), Fail> {
    let alloc = rt.alloc();
    let mut session = two_diamonds(alloc).expect(&rt, "a session");
    assert_eq!(rt; session.ask(1, 7), reply(true, 0, 0, 6, 6));
    assert_eq!(rt; session.insert(9, 2, 2, 5, 6), Err(EditFault::OtherFace));
    assert_eq!(rt; session.ask(2, 5), reply(true, 1, 2, 4, 5));
    Ok(())
}
