//! The numbers of small graphs.
ghost use Rattle.std.specs.Prelude.{◌≡◌, ◌<◌, ℕ, length, slice_index, IfOk, IfSome, IsTrue};
ghost use Rattle.st_map.specs.Embedded.{bare};
ghost use Rattle.st_map.specs.Orders.{HasNoLoop, order_at};

use crate::{Labels, labels};
use st_ids::{Digraph, EdgeId, EdgeList, IdVec, VertexId};
use st_map::Map;
use st_sides::Sides;
use st_test::{laws, poles, test};
use std::alloc::Global;

/// The graph of n vertices with these edges.
fn graph_of(alloc: Global, n: u32, edges: &[(u32, u32)]) -> Option<Digraph> {
    let mut graph = Digraph::new(alloc);
    if n > 100 {
        return None;
    }
    graph.add_vertices(n);
    for (tail, head) in edges {
        if *tail >= graph.vertices() || *head >= graph.vertices() || graph.edges() > 100 {
            return None;
        }
        graph.add_edge(VertexId(*tail), VertexId(*head)).ok()?;
    }
    Some(graph)
}

/// A list of some of the first edges.
fn list_of(alloc: Global, edges: u32, row: &[u32]) -> Option<EdgeList>
    ensures { IfSome result (λ es. (k : ℕ) → k < length es → slice_index es k < edges) }
{
    let mut list = EdgeList::new(alloc);
    for e in row {
        if *e >= edges {
            return None;
        }
        list.push(EdgeId(*e)).ok()?;
    }
    Some(list)
}

/// A list for each vertex.
fn lists_of(alloc: Global, edges: u32, rows: &[&[u32]]) -> Option<IdVec<VertexId, EdgeList>>
    ensures { IfSome result (λ lists. (v : ℕ) → v < length lists → (k : ℕ) → k < length (order_at lists v) → slice_index (order_at lists v) k < edges) }
{
    let mut lists: IdVec<VertexId, EdgeList> = IdVec::new(alloc);
    for row in rows {
        if lists.len() > 100 {
            return None;
        }
        lists.push(list_of(alloc, edges, row)?).ok()?;
    }
    Some(lists)
}

fn map_of(alloc: Global, graph: &Digraph, rows: &[&[u32]]) -> Option<Map>
    requires { HasNoLoop graph.now }
    ensures { IfSome result (λ m. bare m.graph ≡ graph.now) }
{
    let lists = lists_of(alloc, graph.edges(), rows)?;
    if lists.len() != graph.vertices() {
        return None;
    }
    Map::from_orders(alloc, graph, &lists).ok()
}

/// The sides of the graph with these edges and lists.
fn sides_of(alloc: Global, n: u32, edges: &[(u32, u32)], rows: &[&[u32]]) -> Option<Sides> {
    let graph = graph_of(alloc, n, edges)?;
    let Ok(found) = poles(alloc, &graph) else {
        return None;
    };
    laws::no_loop();
    let map = map_of(alloc, &graph, rows)?;
    let Ok(graph) = test(alloc, map, found, None) else {
        return None;
    };
    Sides::of(alloc, &graph).ok()
}

/// The numbers X of all vertices, and then the numbers Y.
fn numbers_of(alloc: Global, n: u32, edges: &[(u32, u32)], rows: &[&[u32]]) -> Option<Vec<u32>> {
    let found = labels(alloc, &sides_of(alloc, n, edges, rows)?).ok()?;
    let mut list = Vec::new(alloc);
    list.extend_from_slice(found.x.items()).ok()?;
    list.extend_from_slice(found.y.items()).ok()?;
    Some(list)
}

/// Labels of two vertices, one of which comes first by X, and the other by Y.
fn crossed(alloc: Global) -> Option<Labels> {
    let mut x: IdVec<VertexId, u32> = IdVec::with_len(alloc, 2, 0).ok()?;
    x.set(VertexId(1), 1);
    let mut y: IdVec<VertexId, u32> = IdVec::with_len(alloc, 2, 0).ok()?;
    y.set(VertexId(0), 1);
    Some(Labels { x, y })
}

/// Whether the one reaches the other, either way round.
fn both_ways(found: &Labels, u: u32, v: u32) -> Option<(bool, bool)> {
    let n = found.x.len();
    if found.y.len() != n || u >= n || v >= n {
        return None;
    }
    Some((
        found.reaches(VertexId(u), VertexId(v)),
        found.reaches(VertexId(v), VertexId(u)),
    ))
}

fn crossed_reached(alloc: Global) -> Option<(bool, bool)> {
    both_ways(&crossed(alloc)?, 0, 1)
}

fn reached_of(
    alloc: Global,
    n: u32,
    edges: &[(u32, u32)],
    rows: &[&[u32]],
    u: u32,
    v: u32,
) -> Option<(bool, bool)> {
    both_ways(
        &labels(alloc, &sides_of(alloc, n, edges, rows)?).ok()?,
        u,
        v,
    )
}

const CHORDS: [(u32, u32); 5] = [(0, 1), (1, 3), (1, 2), (0, 2), (2, 3)];

const CHORD_LISTS: [&[u32]; 4] = [&[0, 3], &[1, 2, 0], &[4, 3, 2], &[4, 1]];

const DIAMONDS: [(u32, u32); 8] = [
    (0, 1),
    (0, 2),
    (1, 3),
    (2, 3),
    (3, 4),
    (3, 5),
    (4, 6),
    (5, 6),
];

const DIAMOND_LISTS: [&[u32]; 7] = [
    &[0, 1],
    &[2, 0],
    &[3, 1],
    &[4, 5, 3, 2],
    &[6, 4],
    &[7, 5],
    &[7, 6],
];

#[cfg(test)]
mod tests {
    use super::*;
    use std::test::Fail;

    #[test]
    fn left_and_right_differ_in_two_diamonds(rt: HostRuntime) -> Result<(), Fail> {
        let alloc = rt.alloc();
        let expected = [0, 1, 2, 3, 4, 5, 6, 0, 2, 1, 3, 5, 4, 6];
        assert_eq!(rt;
            numbers_of(alloc, 7, &DIAMONDS, &DIAMOND_LISTS).as_deref(),
            Some(expected.as_slice())
        );
        Ok(())
    }

    #[test]
    fn vertices_on_one_walk_have_one_order(rt: HostRuntime) -> Result<(), Fail> {
        let alloc = rt.alloc();
        let expected = [0, 1, 2, 3, 0, 1, 2, 3];
        assert_eq!(rt;
            numbers_of(alloc, 4, &CHORDS, &CHORD_LISTS).as_deref(),
            Some(expected.as_slice())
        );
        Ok(())
    }

    #[test]
    fn reaching_wants_both_numbers(rt: HostRuntime) -> Result<(), Fail> {
        let alloc = rt.alloc();
        assert_eq!(rt;
            reached_of(alloc, 7, &DIAMONDS, &DIAMOND_LISTS, 1, 5),
            Some((true, false))
        );
        assert_eq!(rt; crossed_reached(alloc), Some((false, false)));
        Ok(())
    }
}
