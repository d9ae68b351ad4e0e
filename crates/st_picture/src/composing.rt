//! Pictures that are put together from figures, lines and labels.
ghost use Rattle.std.specs.Prelude.{◌≡◌, ℕ, ◌+◌, ◌<◌, ◌≤◌, ◌^◌, List, length, IfOk};
ghost use Rattle.st_picture.specs.Composed.{Composes};
ghost use Rattle.st_picture.specs.Items.{drawing, line, item_place};
ghost use Rattle.st_picture.specs.Naming.{AreNames, vertex_name};
ghost use Rattle.st_shape.specs.Rules.{IsFrame};
ghost use Rattle.st_shape.specs.declared.item.Item.{Item};
ghost use Rattle.st_shape.specs.declared.point.Point.{Point};
ghost use Rattle.st_sides.specs.Sides.{edge_count};

use crate::labels::push_labels;
use crate::pushing::push_each;
use st_ids::{EdgeId, Names, NoMemory, VertexId};
use st_shape::{Form, Item, Picture, Point, Points};
use st_sides::Sides;
use std::alloc::Global;

/// The vertex as a dot at the point.
///
/// Condition: the vertex has a name.
/// Cost: O(1), no memory.
pub fn dot(names: &Names, v: VertexId, p: Point) -> Item
    requires { v.0 < length names.now.vertex }
    ensures { result ≡ Item.Dot (vertex_name names.now v.0) p }
{
    Item::Dot {
        name: *names.vertex.get(v),
        p,
    }
}

/// The edge as a line through the points.
///
/// Conditions: the names are for the graph, which has the edge.
/// Cost: O(1), no memory.
pub fn line(sides: &Sides, names: &Names, e: EdgeId, points: Points) -> Item
    requires there { e.0 < edge_count sides.now }
    requires names { AreNames sides.now names.now }
    ensures { result ≡ line sides.now names.now (λ _. points) e.0 }
{
    let tail = sides.tail(e);
    let head = sides.head(e);
    Item::Line {
        name: *names.edge.get(e),
        tail: *names.vertex.get(tail),
        head: *names.vertex.get(head),
        points,
    }
}

/// How many vertices have a label.
fn labelled(names: &Names) -> u32
    ensures { result ≤ length names.now.label }
{
    let mut count = 0;
    for v in 0..names.label.len() {
        if names.label.get(VertexId(v)).is_some() {
            count += 1;
        }
    }
    count
}

/// The picture of a figure for each vertex, a line for each edge and the labels, in the order of the file. A label stands at
/// the point of its figure, or at the left end of its bar. The closures answer the figure of a vertex and the line of an
/// edge by their numbers.
///
/// Conditions: the names are for the graph; the frame lies on the grid, and there is room for all items; the closures answer,
/// for each vertex and each edge of the graph, one item that lies in the frame: a point or a bar, and the line of the edge.
/// Errors: `NoMemory`.
/// Cost: one call of a closure for each vertex and each edge, and one block of memory for all items.
pub fn compose<F: Fn(u32) -> Item, L: Fn(u32) -> Item>(
    alloc: Global,
    form: Form,
    frame: Point,
    sides: &Sides,
    names: &Names,
    figure: F,
    line: L,
) -> Result<Picture, NoMemory>
    requires names { AreNames sides.now names.now }
    requires frame { IsFrame frame }
    requires room { sides.now.vertices + edge_count sides.now + sides.now.vertices < 2 ^ 31 }
    requires items { (f : ℕ → Item) × (p : ℕ → List Point) × Composes sides.now names.now frame (F.pre figure) (F.post figure) (L.pre line) (L.post line) f p }
    ensures { (f : ℕ → Item) (p : ℕ → List Point) → Composes sides.now names.now frame (F.pre figure) (F.post figure) (L.pre line) (L.post line) f p → IfOk result (λ d. d ≡ drawing sides.now names.now form frame f p (λ v. item_place (f v))) }
{
    let mut picture = Picture::new(alloc, form, frame);
    picture.reserve(sides.vertices() + sides.edges() + labelled(names))?;
    push_each(&mut picture, sides.vertices(), figure)?;
    push_each(&mut picture, sides.edges(), line)?;
    push_labels(alloc, picture, names)
}
