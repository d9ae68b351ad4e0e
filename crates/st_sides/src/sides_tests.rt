//! The sides of small graphs.
ghost use Rattle.std.specs.Prelude.{◌≡◌, ◌<◌, ℕ, length, slice_index, IfOk, IfSome, IsTrue};
ghost use Rattle.st_map.specs.Embedded.{bare};
ghost use Rattle.st_map.specs.Orders.{HasNoLoop, order_at};

use crate::{Sides, sweep};
use st_ids::{Digraph, EdgeId, EdgeList, FaceId, IdVec, VertexId};
use st_map::Map;
use st_test::{laws, poles, test};
use std::alloc::Global;

/// The graph of n vertices with these edges.
fn graph_of(alloc: Global, n: u32, edges: &[(u32, u32)]) -> Option<Digraph> {
    let mut graph = Digraph::new(alloc);
    if n > 100 {
        return None;
    }
    graph.add_vertices(n);
    for (tail, head) in edges {
        if *tail >= graph.vertices() || *head >= graph.vertices() || graph.edges() > 100 {
            return None;
        }
        graph.add_edge(VertexId(*tail), VertexId(*head)).ok()?;
    }
    Some(graph)
}

/// A list of some of the first edges.
fn list_of(alloc: Global, edges: u32, row: &[u32]) -> Option<EdgeList>
    ensures { IfSome result (λ es. (k : ℕ) → k < length es → slice_index es k < edges) }
{
    let mut list = EdgeList::new(alloc);
    for e in row {
        if *e >= edges {
            return None;
        }
        list.push(EdgeId(*e)).ok()?;
    }
    Some(list)
}

/// A list for each vertex.
fn lists_of(alloc: Global, edges: u32, rows: &[&[u32]]) -> Option<IdVec<VertexId, EdgeList>>
    ensures { IfSome result (λ lists. (v : ℕ) → v < length lists → (k : ℕ) → k < length (order_at lists v) → slice_index (order_at lists v) k < edges) }
{
    let mut lists: IdVec<VertexId, EdgeList> = IdVec::new(alloc);
    for row in rows {
        if lists.len() > 100 {
            return None;
        }
        lists.push(list_of(alloc, edges, row)?).ok()?;
    }
    Some(lists)
}

fn map_of(alloc: Global, graph: &Digraph, rows: &[&[u32]]) -> Option<Map>
    requires { HasNoLoop graph.now }
    ensures { IfSome result (λ m. bare m.graph ≡ graph.now) }
{
    let lists = lists_of(alloc, graph.edges(), rows)?;
    if lists.len() != graph.vertices() {
        return None;
    }
    Map::from_orders(alloc, graph, &lists).ok()
}

/// The sides of the graph with these edges and lists.
fn sides_of(alloc: Global, n: u32, edges: &[(u32, u32)], rows: &[&[u32]]) -> Option<Sides> {
    let graph = graph_of(alloc, n, edges)?;
    let Ok(found) = poles(alloc, &graph) else {
        return None;
    };
    laws::no_loop();
    let map = map_of(alloc, &graph, rows)?;
    let Ok(graph) = test(alloc, map, found, None) else {
        return None;
    };
    Sides::of(alloc, &graph).ok()
}

fn append(list: &mut Vec<u32>, edges: &[EdgeId]) -> Option<()> {
    for e in edges {
        list.push(e.0).ok()?;
    }
    list.push(99).ok()
}

/// The edges out and in of each vertex, each list ended by 99, and the nodes on its left and right.
fn told_vertices(alloc: Global, sides: &Sides) -> Option<Vec<u32>> {
    let mut list = Vec::new(alloc);
    for v in 0..sides.vertices() {
        append(&mut list, sides.outs(VertexId(v)))?;
        append(&mut list, sides.ins(VertexId(v)))?;
        list.push(sides.left(VertexId(v)).0).ok()?;
        list.push(sides.right(VertexId(v)).0).ok()?;
    }
    Some(list)
}

/// The tail, the head and the nodes on the left and right of each edge.
fn told_edges(alloc: Global, sides: &Sides) -> Option<Vec<u32>> {
    let mut list = Vec::new(alloc);
    for e in 0..sides.edges() {
        list.push(sides.tail(EdgeId(e)).0).ok()?;
        list.push(sides.head(EdgeId(e)).0).ok()?;
        list.push(sides.face_left(EdgeId(e)).0).ok()?;
        list.push(sides.face_right(EdgeId(e)).0).ok()?;
    }
    Some(list)
}

/// The lowest and highest vertex and the left and right path of each node, each path ended by 99.
fn told_faces(alloc: Global, sides: &Sides) -> Option<Vec<u32>> {
    let mut list = Vec::new(alloc);
    for f in 0..sides.faces() {
        list.push(sides.low(FaceId(f)).0).ok()?;
        list.push(sides.high(FaceId(f)).0).ok()?;
        append(&mut list, sides.left_path(FaceId(f)))?;
        append(&mut list, sides.right_path(FaceId(f)))?;
    }
    Some(list)
}

const CHORDS: [(u32, u32); 5] = [(0, 1), (1, 3), (1, 2), (0, 2), (2, 3)];

const CHORD_LISTS: [&[u32]; 4] = [&[0, 3], &[1, 2, 0], &[4, 3, 2], &[4, 1]];

/// What the sides of a graph tell of its vertices.
fn vertices_of(alloc: Global, n: u32, edges: &[(u32, u32)], rows: &[&[u32]]) -> Option<Vec<u32>> {
    told_vertices(alloc, &sides_of(alloc, n, edges, rows)?)
}

/// What they tell of its edges.
fn edges_of(alloc: Global, n: u32, edges: &[(u32, u32)], rows: &[&[u32]]) -> Option<Vec<u32>> {
    told_edges(alloc, &sides_of(alloc, n, edges, rows)?)
}

/// What they tell of the nodes.
fn faces_of(alloc: Global, n: u32, edges: &[(u32, u32)], rows: &[&[u32]]) -> Option<Vec<u32>> {
    told_faces(alloc, &sides_of(alloc, n, edges, rows)?)
}

/// The nodes in the order of a sweep.
fn sweep_of(alloc: Global, n: u32, edges: &[(u32, u32)], rows: &[&[u32]]) -> Option<Vec<u32>> {
    let sides = sides_of(alloc, n, edges, rows)?;
    let found = sweep(alloc, &sides).ok()?;
    let mut list = Vec::new(alloc);
    for f in found.items() {
        list.push(f.0).ok()?;
    }
    Some(list)
}

const DIAMONDS: [(u32, u32); 8] = [
    (0, 1),
    (0, 2),
    (1, 3),
    (2, 3),
    (3, 4),
    (3, 5),
    (4, 6),
    (5, 6),
];

const DIAMOND_LISTS: [&[u32]; 7] = [
    &[0, 1],
    &[2, 0],
    &[3, 1],
    &[4, 5, 3, 2],
    &[6, 4],
    &[7, 5],
    &[7, 6],
];

#[cfg(test)]
mod tests {
    use super::*;
    use std::test::Fail;

    #[test]
    fn vertices_are_told(rt: HostRuntime) -> Result<(), Fail> {
        let alloc = rt.alloc();
        let expected = [
            0, 3, 99, 99, 0, 3, 1, 2, 99, 0, 99, 0, 1, 4, 99, 2, 3, 99, 2, 3, 99, 1, 4, 99, 0, 3,
        ];
        assert_eq!(rt;
            vertices_of(alloc, 4, &CHORDS, &CHORD_LISTS).as_deref(),
            Some(expected.as_slice())
        );
        Ok(())
    }

    #[test]
    fn edges_are_told(rt: HostRuntime) -> Result<(), Fail> {
        let alloc = rt.alloc();
        let expected = [0, 1, 0, 1, 1, 3, 0, 2, 1, 2, 2, 1, 0, 2, 1, 3, 2, 3, 2, 3];
        assert_eq!(rt;
            edges_of(alloc, 4, &CHORDS, &CHORD_LISTS).as_deref(),
            Some(expected.as_slice())
        );
        Ok(())
    }

    #[test]
    fn faces_are_told(rt: HostRuntime) -> Result<(), Fail> {
        let alloc = rt.alloc();
        let expected = [
            0, 3, 99, 0, 1, 99, 0, 2, 0, 2, 99, 3, 99, 1, 3, 1, 99, 2, 4, 99, 0, 3, 3, 4, 99, 99,
        ];
        assert_eq!(rt;
            faces_of(alloc, 4, &CHORDS, &CHORD_LISTS).as_deref(),
            Some(expected.as_slice())
        );
        Ok(())
    }

    #[test]
    fn nodes_are_swept_from_left_to_right(rt: HostRuntime) -> Result<(), Fail> {
        let alloc = rt.alloc();
        assert_eq!(rt;
            sweep_of(alloc, 4, &CHORDS, &CHORD_LISTS).as_deref(),
            Some([0, 2, 1, 3].as_slice())
        );
        Ok(())
    }

    #[test]
    fn halves_of_a_single_edge_are_told(rt: HostRuntime) -> Result<(), Fail> {
        let alloc = rt.alloc();
        let expected = [0, 1, 99, 0, 99, 0, 1, 0, 99, 99];
        assert_eq!(rt;
            faces_of(alloc, 2, &[(0, 1)], &[&[0], &[0]]).as_deref(),
            Some(expected.as_slice())
        );
        Ok(())
    }

    #[test]
    fn both_halves_of_the_outer_face_are_told_at_a_cut_vertex(rt: HostRuntime) -> Result<(), Fail> {
        let alloc = rt.alloc();
        let expected = [
            0, 1, 99, 99, 0, 3, 2, 99, 0, 99, 0, 1, 3, 99, 1, 99, 1, 3, 4, 5, 99, 2, 3, 99, 0, 3,
            6, 99, 4, 99, 0, 2, 7, 99, 5, 99, 2, 3, 99, 6, 7, 99, 0, 3,
        ];
        assert_eq!(rt;
            vertices_of(alloc, 7, &DIAMONDS, &DIAMOND_LISTS).as_deref(),
            Some(expected.as_slice())
        );
        Ok(())
    }

    #[test]
    fn faces_below_and_above_a_cut_vertex_are_told(rt: HostRuntime) -> Result<(), Fail> {
        let alloc = rt.alloc();
        let expected = [
            0, 6, 99, 0, 2, 4, 6, 99, 0, 3, 0, 2, 99, 1, 3, 99, 3, 6, 4, 6, 99, 5, 7, 99, 0, 6, 1,
            3, 5, 7, 99, 99,
        ];
        assert_eq!(rt;
            faces_of(alloc, 7, &DIAMONDS, &DIAMOND_LISTS).as_deref(),
            Some(expected.as_slice())
        );
        Ok(())
    }
}
