//! The picture of a small graph, item by item.
ghost use Rattle.std.specs.Prelude.{◌≡◌, ◌+◌, ◌<◌, ◌≤◌, ◌≤ℤ◌, ◌<ℤ◌, ◌↔◌, ℕ, [], ◌∷◌, Some, None, length, slice_index, IfSome, IsTrue};
ghost use Rattle.st_ids.specs.Graph.{Graph};
ghost use Rattle.st_map.specs.Embedded.{bare};
ghost use Rattle.st_map.specs.Orders.{HasNoLoop, order_at};
ghost use Rattle.st_picture.specs.Bars.{AreTables, HasFrame, HasNaturals, number_at};
ghost use Rattle.st_picture.specs.Growing.{GrowsRight, GrowsUp, HasLines};
ghost use Rattle.st_picture.specs.Naming.{AreNames};
ghost use Rattle.st_sides.specs.Sides.{SidesValue, edge_count, edge_head, edge_tail, face_left, face_right};

use crate::bars::{bars_and_lines, corner, number_in};
use st_ids::{Digraph, EdgeId, EdgeList, FaceId, Id, IdVec, Names, Text, VertexId};
use st_map::Map;
use st_shape::{Form, GREATEST, Item, Picture, Point};
use st_sides::Sides;
use st_test::{laws, poles, test};
use std::alloc::Global;

/// The graph of three vertices with these edges.
fn graph_of(alloc: Global, edges: &[(u32, u32)]) -> Option<Digraph> {
    let mut graph = Digraph::new(alloc);
    graph.add_vertices(3);
    for (tail, head) in edges {
        if *tail >= graph.vertices() || *head >= graph.vertices() || graph.edges() > 100 {
            return None;
        }
        graph.add_edge(VertexId(*tail), VertexId(*head)).ok()?;
    }
    Some(graph)
}

/// A list of two of the first edges.
fn list_of(alloc: Global, edges: u32, a: u32, b: u32) -> Option<EdgeList>
    ensures { IfSome result (λ es. (k : ℕ) → k < length es → slice_index es k < edges) }
{
    let mut list = EdgeList::new(alloc);
    if a >= edges || b >= edges {
        return None;
    }
    list.push(EdgeId(a)).ok()?;
    list.push(EdgeId(b)).ok()?;
    Some(list)
}

/// A list for each of three vertices.
fn lists_of(alloc: Global, edges: u32, rows: [(u32, u32); 3]) -> Option<IdVec<VertexId, EdgeList>>
    ensures { IfSome result (λ lists. (v : ℕ) → v < length lists → (k : ℕ) → k < length (order_at lists v) → slice_index (order_at lists v) k < edges) }
{
    let mut lists: IdVec<VertexId, EdgeList> = IdVec::new(alloc);
    for row in rows.as_slice() {
        if lists.len() > 100 {
            return None;
        }
        lists.push(list_of(alloc, edges, row.0, row.1)?).ok()?;
    }
    Some(lists)
}

fn map_of(alloc: Global, graph: &Digraph, rows: [(u32, u32); 3]) -> Option<Map>
    requires { HasNoLoop graph.now }
    ensures { IfSome result (λ m. bare m.graph ≡ graph.now) }
{
    let lists = lists_of(alloc, graph.edges(), rows)?;
    if lists.len() != graph.vertices() {
        return None;
    }
    Map::from_orders(alloc, graph, &lists).ok()
}

/// The sides of a triangle, whose third edge leads past the middle vertex on its right.
fn triangle(alloc: Global) -> Option<Sides> {
    let graph = graph_of(alloc, [(0, 1), (1, 2), (0, 2)].as_slice())?;
    let Ok(found) = poles(alloc, &graph) else {
        return None;
    };
    laws::no_loop();
    let map = map_of(alloc, &graph, [(0, 2), (1, 0), (2, 1)])?;
    let Ok(graph) = test(alloc, map, found, None) else {
        return None;
    };
    Sides::of(alloc, &graph).ok()
}

/// Whether the table has n entries, all of them natural numbers.
fn has_naturals(table: &[i64], n: u32) -> bool
    ensures { IsTrue result → HasNaturals table.now n }
{
    if table.len() < n as usize {
        return false;
    }
    for i in 0..n {
        if table[i as usize] < 0 {
            return false;
        }
    }
    true
}

/// Whether the edge goes up, has its left before its right, and a column between them.
fn edge_fits(sides: &Sides, heights: &[i64], columns: &[i64], lines: &[i64], e: EdgeId) -> bool
    requires there { e.0 < edge_count sides.now }
    requires heights { HasNaturals heights.now sides.now.vertices }
    requires columns { HasNaturals columns.now (sides.now.t_star + 1) }
    requires lines { HasNaturals lines.now (edge_count sides.now) }
    ensures up { IsTrue result → number_at heights.now (edge_tail sides.now e.0) < number_at heights.now (edge_head sides.now e.0) }
    ensures from { IsTrue result → number_at columns.now (face_left sides.now e.0) ≤ number_at lines.now e.0 }
    ensures to { IsTrue result → number_at lines.now e.0 < number_at columns.now (face_right sides.now e.0) }
{
    st_sides::laws::local(sides);
    let low = number_in(heights, sides.tail(e).0);
    let high = number_in(heights, sides.head(e).0);
    let left = number_in(columns, sides.face_left(e).0);
    let right = number_in(columns, sides.face_right(e).0);
    let column = number_in(lines, e.0);
    low < high && are_in_order(left, column, right)
}

/// Whether `a` is at most `b`, and `b` less than `c`.
fn are_in_order(a: i64, b: i64, c: i64) -> bool
    ensures { IsTrue result ↔ ((a ≤ℤ b) × (b <ℤ c)) }
{
    a <= b && b < c
}

/// Whether each edge goes up, has its left before its right, and a column between them.
fn edges_fit(sides: &Sides, heights: &[i64], columns: &[i64], lines: &[i64]) -> bool
    requires heights { HasNaturals heights.now sides.now.vertices }
    requires columns { HasNaturals columns.now (sides.now.t_star + 1) }
    requires lines { HasNaturals lines.now (edge_count sides.now) }
    ensures up { IsTrue result → GrowsUp sides.now (number_at heights.now) }
    ensures rightward { IsTrue result → GrowsRight sides.now (number_at columns.now) }
    ensures between { IsTrue result → HasLines sides.now (number_at columns.now) (number_at lines.now) }
{
    st_sides::laws::local(sides);
    for e in 0..sides.edges() {
        if !edge_fits(sides, heights, columns, lines, EdgeId(e)) {
            return false;
        }
    }
    true
}

/// Whether the tables are such as bars and lines need.
fn are_tables(sides: &Sides, heights: &[i64], columns: &[i64], lines: &[i64]) -> bool
    ensures { IsTrue result → AreTables sides.now heights.now columns.now lines.now }
{
    if !has_naturals(heights, sides.vertices())
        || !has_naturals(columns, sides.faces())
        || !has_naturals(lines, sides.edges())
    {
        return false;
    }
    edges_fit(sides, heights, columns, lines)
}

/// Whether the frame has at most `MOST_COORDINATE` units each way.
fn is_framed(sides: &Sides, heights: &[i64], columns: &[i64]) -> bool
    requires heights { HasNaturals heights.now sides.now.vertices }
    requires columns { HasNaturals columns.now (sides.now.t_star + 1) }
    requires rightward { GrowsRight sides.now (number_at columns.now) }
    ensures { IsTrue result → HasFrame sides.now heights.now columns.now }
{
    let corner = corner(sides, heights, columns);
    corner.x <= GREATEST && corner.y <= GREATEST
}

/// The text of these bytes.
fn text_of(alloc: Global, bytes: &[u8]) -> Option<Text>
    ensures { IfSome result (λ text. text ≡ bytes.now) }
{
    let mut text = Text::new(alloc);
    text.append(bytes).ok()?;
    Some(text)
}

/// A list of three numbers.
fn three<K: Id>(alloc: Global, a: i64, b: i64, c: i64) -> Option<IdVec<K, i64>>
    ensures { IfSome result (λ list. list ≡ a ∷ b ∷ c ∷ []) }
{
    let mut list: IdVec<K, i64> = IdVec::new(alloc);
    list.push(a).ok()?;
    list.push(b).ok()?;
    list.push(c).ok()?;
    Some(list)
}

/// Labels of the first and the last of three vertices.
fn labels_of(alloc: Global) -> Option<IdVec<VertexId, Option<Text>>>
    ensures { IfSome result (λ list. list ≡ Some (65 ∷ []) ∷ None ∷ Some (126 ∷ 32 ∷ []) ∷ []) }
{
    let first = text_of(alloc, b"A")?;
    let last = text_of(alloc, b"~ ")?;
    let mut list: IdVec<VertexId, Option<Text>> = IdVec::new(alloc);
    list.push(Some(first)).ok()?;
    list.push(None).ok()?;
    list.push(Some(last)).ok()?;
    Some(list)
}

/// Names and labels of three vertices and three edges.
fn names_of(alloc: Global) -> Option<Names>
    ensures { IfSome result (λ N. (g : SidesValue) → g.vertices ≡ 3 → edge_count g ≡ 3 → AreNames g N) }
{
    let vertex = three(alloc, 70, -5, 9)?;
    let edge = three(alloc, 1, -2, 3)?;
    let label = labels_of(alloc)?;
    Some(Names {
        vertex,
        edge,
        label,
    })
}

/// The picture of the triangle, where the tables meet what is asked of them.
fn drawn(alloc: Global) -> Option<Picture> {
    let sides = triangle(alloc)?;
    let names = names_of(alloc)?;
    let heights = [0, 2, 5];
    let columns = [0, 3, 7];
    let lines = [1, 2, 6];
    st_sides::laws::local(&sides);
    if sides.vertices() != 3 || sides.edges() != 3 || sides.faces() != 3 {
        return None;
    }
    if !are_tables(&sides, &heights, &columns, &lines) || !is_framed(&sides, &heights, &columns) {
        return None;
    }
    bars_and_lines(
        alloc,
        Form::Visibility,
        &sides,
        &heights,
        &columns,
        &lines,
        &names,
    )
    .ok()
}

/// Puts the points behind the list.
fn put_points(list: &mut Vec<i64>, points: &[Point]) -> Option<()> {
    for p in points {
        list.push(p.x).ok()?;
        list.push(p.y).ok()?;
    }
    Some(())
}

/// Puts the bytes behind the list.
fn put_bytes(list: &mut Vec<i64>, bytes: &[u8]) -> Option<()> {
    for b in bytes {
        list.push(i64::from(*b)).ok()?;
    }
    Some(())
}

/// Puts an item behind the list: 2 for a bar, 3 for a line or 6 for a label, its names, and its places.
fn put_item(list: &mut Vec<i64>, item: &Item) -> Option<()> {
    match item {
        Item::Bar { name, y, from, to } => {
            list.extend_from_slice([2, *name, *y, *from, *to].as_slice())
                .ok()
        }
        Item::Line {
            name,
            tail,
            head,
            points,
        } => {
            list.extend_from_slice([3, *name, *tail, *head].as_slice())
                .ok()?;
            put_points(list, points.items())
        }
        Item::Label { name, p, text } => {
            list.extend_from_slice([6, *name, p.x, p.y].as_slice())
                .ok()?;
            put_bytes(list, text.bytes())
        }
        Item::Dot { .. } => None,
        Item::Rect { .. } => None,
        Item::Face { .. } => None,
    }
}

/// The frame, the number of items, and these items of the picture.
fn told(alloc: Global, from: usize, to: usize) -> Option<Vec<i64>> {
    let picture = drawn(alloc)?;
    let items = picture.items();
    let mut list = Vec::new(alloc);
    list.push(picture.frame().x).ok()?;
    list.push(picture.frame().y).ok()?;
    list.push(i64::try_from(items.len()).ok()?).ok()?;
    if from > to || to > items.len() {
        return None;
    }
    for item in &items[from..to] {
        put_item(&mut list, item)?;
    }
    Some(list)
}

#[test]
fn bars_come_first(rt: HostRuntime) {
    let expected = [6, 5, 8, 2, 70, 0, 0, 6, 2, -5, 2, 0, 2, 2, 9, 5, 0, 6];
    assert_eq!(rt;
        told(rt.alloc(), 0, 3).as_deref(),
        Some(expected.as_slice())
    );
}

#[test]
fn lines_lead_from_tail_to_head(rt: HostRuntime) {
    let expected = [
        6, 5, 8, 3, 1, 70, -5, 1, 0, 1, 2, 3, -2, -5, 9, 2, 2, 2, 5, 3, 3, 70, 9, 6, 0, 6, 5,
    ];
    assert_eq!(rt;
        told(rt.alloc(), 3, 6).as_deref(),
        Some(expected.as_slice())
    );
}

#[test]
fn labels_come_last(rt: HostRuntime) {
    let expected = [6, 5, 8, 6, 70, 0, 0, 65, 6, 9, 0, 5, 126, 32];
    assert_eq!(rt;
        told(rt.alloc(), 6, 8).as_deref(),
        Some(expected.as_slice())
    );
}
