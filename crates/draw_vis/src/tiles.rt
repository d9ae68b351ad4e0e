//! Tessellation: vertices as level bars, edges as boxes, the nodes of the dual as upright lines.
ghost use Rattle.std.specs.Prelude.{◌≡◌, ◌+◌, ◌*◌, ◌<◌, ◌≤◌, ◌^◌, ◌++◌, length, IfOk, OnOk};
ghost use Rattle.st_ids.specs.declared.limits.TheConstants.{MOST_COORDINATE};
ghost use Rattle.draw_vis.specs.Rows.{IsTessellated};
ghost use Rattle.draw_vis.specs.Tables.{IsLaidOut, frame_of};
ghost use Rattle.draw_vis.specs.Tessellation.{IsTessellationBy, box, boxes, full_bar, post};
ghost use Rattle.st_number.specs.Weighing.{AreLawfulWeights};
ghost use Rattle.st_picture.specs.Bars.{number_at};
ghost use Rattle.st_picture.specs.Items.{items_by};
ghost use Rattle.st_picture.specs.Naming.{AreNames};
ghost use Rattle.st_sides.specs.Sides.{edge_count};
ghost use Rattle.st_sides.specs.SidesOf.{IsSidesOf};

use crate::grid::Grid;
use st_ids::{EdgeId, FaceId, Names, NoMemory, VertexId};
use st_number::Weights;
use st_picture::{push_each, push_labels};
use st_shape::{Form, Item, Picture};
use st_sides::{Sides, laws};
use st_test::StGraph;
use std::alloc::Global;

/// The tessellation picture. A vertex is a level bar at its height, from the column of the face on its left to that of the face
/// on its right. An edge is a box, from the column of the face on its left to that of the face on its right, and from the
/// height of its tail to that of its head. Each node of the dual is an upright line in its column, from the height of its
/// lowest vertex to that of its highest. A label stands at the left end of its bar. The items are the vertices and the edges,
/// in the order of the file, the nodes by number, and the labels.
///
/// The height of a vertex is the greatest weight of a walk from the source, under one answer of the closure on each edge.
/// The column of a face is the greatest number of edges that a walk from the left half of the outer face to it crosses.
///
/// Conditions: the sides are those of the graph, the names are for it, the weights are for its number of edges; there are
/// at most `MOST_COORDINATE` edges, and at most `MOST_COORDINATE` vertices times the greatest weight.
/// Errors: `NoMemory`.
/// Cost: O(V + E) time, one call of the closure an edge, and the memory of the picture beside two tables. Not proved.
pub fn tessellation<F: Fn(EdgeId) -> u32>(
    alloc: Global,
    graph: &StGraph,
    sides: &Sides,
    w: &Weights<F>,
    names: &Names,
) -> Result<Picture, NoMemory>
    requires sides { IsSidesOf graph.now.map.graph graph.now.source graph.now.sink graph.now.outer sides.now }
    requires names { AreNames sides.now names.now }
    requires weights { w.now.edges ≡ edge_count sides.now }
    requires lawful { AreLawfulWeights F.pre F.post w.now }
    requires high { sides.now.vertices * w.now.most ≤ MOST_COORDINATE }
    requires wide { edge_count sides.now ≤ MOST_COORDINATE }

    ensures picture { IfOk result (IsTessellationBy (F.post w.now.closure) sides.now names.now) }
    ensures tiles { IfOk result (IsTessellated sides.now) }
{
    laws::local(sides);
    let grid = Grid::of(alloc, graph, sides, w)?;
    boxes(alloc, sides, &grid, names)
}

/// The bar of the vertex, from the column of its left to that of its right.
fn full_bar(sides: &Sides, grid: &Grid, names: &Names, v: VertexId) -> Item
    requires there { v.0 < sides.now.vertices }
    requires names { AreNames sides.now names.now }
    requires tables { IsLaidOut sides.now grid.now.heights grid.now.columns }
    ensures { result ≡ full_bar sides.now names.now (number_at grid.now.heights) (number_at grid.now.columns) v.0 }
{
    laws::local(sides);
    Item::Bar {
        name: *names.vertex.get(v),
        y: grid.height(v),
        from: grid.column(sides.left(v)),
        to: grid.column(sides.right(v)),
    }
}

/// The box of the edge, from its left to its right and from its tail to its head.
fn edge_box(sides: &Sides, grid: &Grid, names: &Names, e: EdgeId) -> Item
    requires there { e.0 < edge_count sides.now }
    requires names { AreNames sides.now names.now }
    requires tables { IsLaidOut sides.now grid.now.heights grid.now.columns }
    ensures { result ≡ box sides.now names.now (number_at grid.now.heights) (number_at grid.now.columns) e.0 }
{
    laws::local(sides);
    let (tail, head) = (sides.tail(e), sides.head(e));
    Item::Rect {
        name: *names.edge.get(e),
        tail: *names.vertex.get(tail),
        head: *names.vertex.get(head),
        low: grid.point(sides.face_left(e), tail),
        high: grid.point(sides.face_right(e), head),
    }
}

/// The upright line of the node, from its lowest vertex to its highest.
fn node_post(sides: &Sides, grid: &Grid, f: FaceId) -> Item
    requires there { f.0 ≤ sides.now.t_star }
    requires tables { IsLaidOut sides.now grid.now.heights grid.now.columns }
    ensures { result ≡ post sides.now (number_at grid.now.heights) (number_at grid.now.columns) f.0 }
{
    laws::local(sides);
    Item::Face {
        number: f.0,
        x: grid.column(f),
        from: grid.height(sides.low(f)),
        to: grid.height(sides.high(f)),
    }
}

/// Adds the bar of each vertex.
fn push_bars(
    picture: &mut Picture,
    sides: &Sides,
    grid: &Grid,
    names: &Names,
) -> Result<(), NoMemory>
    requires names { AreNames sides.now names.now }
    requires tables { IsLaidOut sides.now grid.now.heights grid.now.columns }
    requires frame { picture.old.frame ≡ frame_of sides.now (number_at grid.now.heights) (number_at grid.now.columns) }
    requires room { length picture.old.items + sides.now.vertices < 2 ^ 31 }
    ensures { OnOk result (picture.new ≡ record picture.old { items = picture.old.items ++ items_by (full_bar sides.now names.now (number_at grid.now.heights) (number_at grid.now.columns)) sides.now.vertices }) }
{
    laws::local(sides);
    push_each(picture, sides.vertices(), |v| {
        full_bar(sides, grid, names, VertexId(v))
    })
}

/// Adds the box of each edge.
fn push_boxes(
    picture: &mut Picture,
    sides: &Sides,
    grid: &Grid,
    names: &Names,
) -> Result<(), NoMemory>
    requires names { AreNames sides.now names.now }
    requires tables { IsLaidOut sides.now grid.now.heights grid.now.columns }
    requires frame { picture.old.frame ≡ frame_of sides.now (number_at grid.now.heights) (number_at grid.now.columns) }
    requires room { length picture.old.items + edge_count sides.now < 2 ^ 31 }
    ensures { OnOk result (picture.new ≡ record picture.old { items = picture.old.items ++ items_by (box sides.now names.now (number_at grid.now.heights) (number_at grid.now.columns)) (edge_count sides.now) }) }
{
    laws::local(sides);
    push_each(picture, sides.edges(), |e| {
        edge_box(sides, grid, names, EdgeId(e))
    })
}

/// Adds the upright line of each node of the dual.
fn push_posts(picture: &mut Picture, sides: &Sides, grid: &Grid) -> Result<(), NoMemory>
    requires tables { IsLaidOut sides.now grid.now.heights grid.now.columns }
    requires frame { picture.old.frame ≡ frame_of sides.now (number_at grid.now.heights) (number_at grid.now.columns) }
    requires room { length picture.old.items + (sides.now.t_star + 1) < 2 ^ 31 }
    ensures { OnOk result (picture.new ≡ record picture.old { items = picture.old.items ++ items_by (post sides.now (number_at grid.now.heights) (number_at grid.now.columns)) (sides.now.t_star + 1) }) }
{
    laws::local(sides);
    push_each(picture, sides.faces(), |f| {
        node_post(sides, grid, FaceId(f))
    })
}

/// The picture of bars, boxes and upright lines of these heights and columns.
fn boxes(alloc: Global, sides: &Sides, grid: &Grid, names: &Names) -> Result<Picture, NoMemory>
    requires names { AreNames sides.now names.now }
    requires tables { IsLaidOut sides.now grid.now.heights grid.now.columns }
    requires few { edge_count sides.now ≤ MOST_COORDINATE }
    ensures { IfOk result (λ d. d ≡ boxes sides.now names.now (number_at grid.now.heights) (number_at grid.now.columns)) }
{
    sides.facts();
    laws::local(sides);
    let last = FaceId(sides.faces() - 1);
    let corner = grid.point(last, sides.high(last));
    let mut picture = Picture::new(alloc, Form::Tessellation, corner);
    push_bars(&mut picture, sides, grid, names)?;
    push_boxes(&mut picture, sides, grid, names)?;
    push_posts(&mut picture, sides, grid)?;
    push_labels(alloc, picture, names)
}
