//! Parallels, heights and columns of small graphs.
ghost use Rattle.std.specs.Prelude.{All, ◌≡◌, ◌<◌, ℕ, length, slice_index, IfOk, IfSome, IsTrue};
ghost use Rattle.st_map.specs.Embedded.{bare};
ghost use Rattle.st_map.specs.Orders.{HasNoLoop, order_at};
ghost use Rattle.st_ids.specs.Lengths.{IsLength};

use crate::{Weights, columns, heights, parallel, spread};
use st_ids::limits::MOST_LENGTH;
use st_ids::{Digraph, EdgeId, EdgeList, FaceId, IdVec, VertexId};
use st_map::Map;
use st_sides::Sides;
use st_test::{StGraph, laws, poles, test};
use std::alloc::Global;

/// The graph of n vertices with these edges.
fn graph_of(alloc: Global, n: u32, edges: &[(u32, u32)]) -> Option<Digraph> {
    let mut graph = Digraph::new(alloc);
    if n > 100 {
        return None;
    }
    graph.add_vertices(n);
    for (tail, head) in edges {
        if *tail >= graph.vertices() || *head >= graph.vertices() || graph.edges() > 100 {
            return None;
        }
        graph.add_edge(VertexId(*tail), VertexId(*head)).ok()?;
    }
    Some(graph)
}

/// A list of some of the first edges.
fn list_of(alloc: Global, edges: u32, row: &[u32]) -> Option<EdgeList>
    ensures { IfSome result (λ es. (k : ℕ) → k < length es → slice_index es k < edges) }
{
    let mut list = EdgeList::new(alloc);
    for e in row {
        if *e >= edges {
            return None;
        }
        list.push(EdgeId(*e)).ok()?;
    }
    Some(list)
}

/// A list for each vertex.
fn lists_of(alloc: Global, edges: u32, rows: &[&[u32]]) -> Option<IdVec<VertexId, EdgeList>>
    ensures { IfSome result (λ lists. (v : ℕ) → v < length lists → (k : ℕ) → k < length (order_at lists v) → slice_index (order_at lists v) k < edges) }
{
    let mut lists: IdVec<VertexId, EdgeList> = IdVec::new(alloc);
    for row in rows {
        if lists.len() > 100 {
            return None;
        }
        lists.push(list_of(alloc, edges, row)?).ok()?;
    }
    Some(lists)
}

fn map_of(alloc: Global, graph: &Digraph, rows: &[&[u32]]) -> Option<Map>
    requires { HasNoLoop graph.now }
    ensures { IfSome result (λ m. bare m.graph ≡ graph.now) }
{
    let lists = lists_of(alloc, graph.edges(), rows)?;
    if lists.len() != graph.vertices() {
        return None;
    }
    Map::from_orders(alloc, graph, &lists).ok()
}

/// The planar st-graph with these edges and lists.
fn embedded_of(alloc: Global, n: u32, edges: &[(u32, u32)], rows: &[&[u32]]) -> Option<StGraph> {
    let graph = graph_of(alloc, n, edges)?;
    let Ok(found) = poles(alloc, &graph) else {
        return None;
    };
    laws::no_loop();
    let map = map_of(alloc, &graph, rows)?;
    test(alloc, map, found, None).ok()
}

/// The heights of the graph, where the first edge weighs 3 and the others weigh 1.
fn heights_of(
    alloc: Global,
    n: u32,
    edges: &[(u32, u32)],
    rows: &[&[u32]],
) -> Option<IdVec<VertexId, i64>> {
    let graph = embedded_of(alloc, n, edges, rows)?;
    let weigh = |e: EdgeId| if e.0 == 0 { 3u32 } else { 1u32 };
    let weights = Weights::new(weigh, graph.map().edges(), 3);
    heights(alloc, &graph, &weights).ok()
}

/// The columns of the graph.
fn columns_of(
    alloc: Global,
    n: u32,
    edges: &[(u32, u32)],
    rows: &[&[u32]],
) -> Option<IdVec<FaceId, i64>> {
    let graph = embedded_of(alloc, n, edges, rows)?;
    let sides = Sides::of(alloc, &graph).ok()?;
    columns(alloc, &sides).ok()
}

/// Which of its edges have a parallel.
fn parallels_of(
    alloc: Global,
    n: u32,
    edges: &[(u32, u32)],
    rows: &[&[u32]],
) -> Option<IdVec<EdgeId, bool>> {
    let graph = embedded_of(alloc, n, edges, rows)?;
    parallel(alloc, &graph).ok()
}

/// A list of lengths.
fn lengths_of(alloc: Global, row: &[u32]) -> Option<IdVec<EdgeId, u32>>
    ensures { IfSome result (All IsLength) }
{
    let mut list: IdVec<EdgeId, u32> = IdVec::new(alloc);
    for n in row {
        if *n < 1 || *n > MOST_LENGTH || list.len() > 100 {
            return None;
        }
        list.push(*n).ok()?;
    }
    Some(list)
}

/// The rows of its edges, where they have these lengths.
fn rows_of(
    alloc: Global,
    n: u32,
    edges: &[(u32, u32)],
    rows: &[&[u32]],
    lengths: &[u32],
) -> Option<IdVec<EdgeId, u32>> {
    let graph = embedded_of(alloc, n, edges, rows)?;
    let lengths = lengths_of(alloc, lengths)?;
    if lengths.len() != graph.map().edges() {
        return None;
    }
    spread(alloc, &graph, &lengths).ok()
}

const CHORDS: [(u32, u32); 5] = [(0, 1), (1, 3), (1, 2), (0, 2), (2, 3)];

const CHORD_LISTS: [&[u32]; 4] = [&[0, 3], &[1, 2, 0], &[4, 3, 2], &[4, 1]];

const DIAMOND: [(u32, u32); 4] = [(0, 1), (0, 2), (1, 3), (2, 3)];

const DIAMOND_LISTS: [&[u32]; 4] = [&[0, 1], &[2, 0], &[3, 1], &[3, 2]];

const DOUBLE: [(u32, u32); 4] = [(0, 1), (1, 2), (0, 1), (0, 2)];

const DOUBLE_LISTS: [&[u32]; 3] = [&[0, 2, 3], &[1, 2, 0], &[3, 1]];

#[cfg(test)]
mod tests {
    use super::*;
    use std::test::Fail;

    #[test]
    fn nodes_stand_in_columns(rt: HostRuntime) -> Result<(), Fail> {
        let found = columns_of(rt.alloc(), 4, &CHORDS, &CHORD_LISTS);
        assert_eq!(rt;
            found.as_ref().map(|c| c.items()),
            Some([0i64, 2, 1, 3].as_slice())
        );
        Ok(())
    }

    #[test]
    fn a_heavy_edge_lifts_its_head(rt: HostRuntime) -> Result<(), Fail> {
        let found = heights_of(rt.alloc(), 4, &DIAMOND, &DIAMOND_LISTS);
        assert_eq!(rt;
            found.as_ref().map(|h| h.items()),
            Some([0i64, 3, 1, 4].as_slice())
        );
        Ok(())
    }

    #[test]
    fn both_of_two_parallel_edges_are_told(rt: HostRuntime) -> Result<(), Fail> {
        let found = parallels_of(rt.alloc(), 3, &DOUBLE, &DOUBLE_LISTS);
        assert_eq!(rt;
            found.as_ref().map(|p| p.items()),
            Some([true, false, true, false].as_slice())
        );
        Ok(())
    }

    #[test]
    fn a_parallel_edge_takes_two_rows_or_its_length(rt: HostRuntime) -> Result<(), Fail> {
        let found = rows_of(rt.alloc(), 3, &DOUBLE, &DOUBLE_LISTS, &[1, 4, 5, 1]);
        assert_eq!(rt;
            found.as_ref().map(|r| r.items()),
            Some([2u32, 4, 5, 1].as_slice())
        );
        Ok(())
    }
}
