//! Pictures of bars and lines.
ghost use Rattle.std.specs.Prelude.{◌≡◌, ℕ, ◌+◌, ◌-◌, ◌<◌, ◌≤◌, ◌^◌, ◌++◌, length, pos, slice_index_or, ◌≤ℤ◌, IfOk, OnOk};
ghost use Rattle.st_picture.specs.Bars.{AreTables, HasFrame, HasNaturals, bar, bars, number_at, upright};
ghost use Rattle.st_picture.specs.Growing.{GrowsRight};
ghost use Rattle.st_picture.specs.Items.{grid_point, items_by, line};
ghost use Rattle.st_picture.specs.Naming.{AreNames};
ghost use Rattle.st_shape.specs.Rules.{FitsFrame};
ghost use Rattle.st_sides.specs.Sides.{edge_count};

use crate::composing::{compose, line};
use st_ids::{EdgeId, FaceId, Names, NoMemory, VertexId};
use st_shape::{Form, Item, Picture, Point, Points};
use st_sides::{Sides, laws};
use std::alloc::Global;

/// The number that stands at a place of the table.
pub fn number_in(table: &[i64], i: u32) -> i64
    requires there { i < length table.now }
    requires natural { pos 0 ≤ℤ slice_index_or table.now i (pos 0) }
    ensures { result ≡ pos (number_at table.now i) }
{
    table[i as usize]
}

/// The number before the one that stands at a place of the table.
fn number_before(table: &[i64], i: u32) -> i64
    requires there { i < length table.now }
    requires positive { 1 ≤ number_at table.now i }
    requires natural { pos 0 ≤ℤ slice_index_or table.now i (pos 0) }
    ensures { result ≡ pos (number_at table.now i - 1) }
{
    table[i as usize] - 1
}

/// The point in a column and at a height.
fn point_in(columns: &[i64], column: u32, heights: &[i64], row: u32) -> Point
    requires column { column < length columns.now }
    requires column_natural { pos 0 ≤ℤ slice_index_or columns.now column (pos 0) }
    requires row { row < length heights.now }
    requires row_natural { pos 0 ≤ℤ slice_index_or heights.now row (pos 0) }
    ensures { result ≡ grid_point (number_at columns.now column) (number_at heights.now row) }
{
    Point {
        x: number_in(columns, column),
        y: number_in(heights, row),
    }
}

/// The corner of the frame: the column before the last node of the dual, and the height of the sink.
pub(crate) fn corner(sides: &Sides, heights: &[i64], columns: &[i64]) -> Point
    requires heights { HasNaturals heights.now sides.now.vertices }
    requires columns { HasNaturals columns.now (sides.now.t_star + 1) }
    requires rightward { GrowsRight sides.now (number_at columns.now) }
    ensures { result ≡ grid_point (number_at columns.now sides.now.t_star - 1) (number_at heights.now sides.now.sink) }
{
    laws::local(sides);
    Point {
        x: number_before(columns, sides.faces() - 1),
        y: number_in(heights, sides.high(FaceId(0)).0),
    }
}

/// The bar of a vertex.
fn bar(sides: &Sides, heights: &[i64], columns: &[i64], names: &Names, v: VertexId) -> Item
    requires there { v.0 < sides.now.vertices }
    requires names { AreNames sides.now names.now }
    requires heights { HasNaturals heights.now sides.now.vertices }
    requires columns { HasNaturals columns.now (sides.now.t_star + 1) }
    requires rightward { GrowsRight sides.now (number_at columns.now) }
    ensures { result ≡ bar sides.now names.now (number_at heights.now) (number_at columns.now) v.0 }
{
    laws::local(sides);
    Item::Bar {
        name: *names.vertex.get(v),
        y: number_in(heights, v.0),
        from: number_in(columns, sides.left(v).0),
        to: number_before(columns, sides.right(v).0),
    }
}

/// The upright line of an edge.
fn upright(
    alloc: Global,
    sides: &Sides,
    heights: &[i64],
    lines: &[i64],
    names: &Names,
    e: EdgeId,
) -> Item
    requires there { e.0 < edge_count sides.now }
    requires names { AreNames sides.now names.now }
    requires heights { HasNaturals heights.now sides.now.vertices }
    requires lines { HasNaturals lines.now (edge_count sides.now) }
    ensures { result ≡ line sides.now names.now (upright sides.now (number_at heights.now) (number_at lines.now)) e.0 }
{
    let tail = sides.tail(e);
    let head = sides.head(e);
    let low = point_in(lines, e.0, heights, tail.0);
    let high = point_in(lines, e.0, heights, head.0);
    line(sides, names, e, Points::two(alloc, low, high))
}

/// The picture of bars and lines: each vertex is a level bar at its height, from the column of its left to the one before
/// that of its right; each edge is an upright line in its column, from the bar of its tail to that of its head; each label
/// stands at the left end of its bar. The items are the vertices, the edges and the labels, in the order of the file.
///
/// `heights` has a number for each vertex, `columns` one for each node of the dual, and `lines` one for each edge; what
/// follows these is not looked at. The frame is as wide as the column before that of the last node, and as high as the sink.
///
/// Condition: heights grow along the edges, columns along the arcs of the dual, and each edge's column is between its left
/// and its right; the frame has at most `MOST_COORDINATE` units each way, and there is room for all items.
/// Errors: `NoMemory`.
/// Cost: O(V + E) time, and the memory of the picture.
pub fn bars_and_lines(
    alloc: Global,
    form: Form,
    sides: &Sides,
    heights: &[i64],
    columns: &[i64],
    lines: &[i64],
    names: &Names,
) -> Result<Picture, NoMemory>
    requires names { AreNames sides.now names.now }
    requires tables { AreTables sides.now heights.now columns.now lines.now }
    requires frame { HasFrame sides.now heights.now columns.now }
    requires room { sides.now.vertices + edge_count sides.now + sides.now.vertices < 2 ^ 31 }
    ensures { IfOk result (λ d. d ≡ bars sides.now names.now form (number_at heights.now) (number_at columns.now) (number_at lines.now)) }
{
    laws::local(sides);
    let frame = corner(sides, heights, columns);
    let figure = |v| bar(sides, heights, columns, names, VertexId(v));
    let upright = |e| upright(alloc, sides, heights, lines, names, EdgeId(e));
    compose(alloc, form, frame, sides, names, figure, upright)
}
