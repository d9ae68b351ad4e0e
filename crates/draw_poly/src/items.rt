//! The items of a polyline picture: dots, lines and labels.
ghost use Rattle.std.specs.Prelude.{◌≡◌, ℕ, ◌+◌, ◌<◌, ◌^◌, ◌<ℤ◌, pos, IfOk};
ghost use Rattle.draw_poly.specs.Polyline.{bends, bent, dot, polylines};
ghost use Rattle.draw_poly.specs.Tables.{ArePolylineTables};
ghost use Rattle.st_picture.specs.Bars.{number_at};
ghost use Rattle.st_picture.specs.Items.{grid_point, line};
ghost use Rattle.st_picture.specs.Naming.{AreNames};
ghost use Rattle.st_sides.specs.Sides.{edge_count};

use crate::grid::Grid;
use st_ids::{EdgeId, Names, NoMemory, VertexId};
use st_picture::{compose, dot, line};
use st_shape::{Form, Item, Picture, Point, Points};
use st_sides::{Sides, laws};
use std::alloc::Global;

/// The points of a line from `low` to `high`, which bends in the column `x`: one row above its low end and one row below its
/// high end, once where these are one point, and not at all where the line is one row high.
fn bends(alloc: Global, low: Point, high: Point, x: i64) -> Points
    requires { low.y <ℤ high.y }
    ensures { (a i k b j : ℕ) → low ≡ grid_point a i → high ≡ grid_point b j → x ≡ pos k → result ≡ bends a i k b j }
{
    let first = Point { x, y: low.y + 1 };
    let second = Point { x, y: high.y - 1 };
    if high.y == first.y {
        Points::two(alloc, low, high)
    } else if first.y == second.y {
        Points::three(alloc, low, first, high)
    } else {
        Points::four(alloc, low, first, second, high)
    }
}

/// The vertex as a dot.
fn dot_of(sides: &Sides, grid: &Grid, names: &Names, v: VertexId) -> Item
    requires there { v.0 < sides.now.vertices }
    requires names { AreNames sides.now names.now }
    requires tables { ArePolylineTables sides.now grid.now.heights grid.now.columns grid.now.places }
    ensures { result ≡ dot names.now (number_at grid.now.places) (number_at grid.now.heights) v.0 }
{
    dot(names, v, grid.dot_place(sides, v))
}

/// The edge as a line.
fn bent(alloc: Global, sides: &Sides, grid: &Grid, names: &Names, e: EdgeId) -> Item
    requires there { e.0 < edge_count sides.now }
    requires names { AreNames sides.now names.now }
    requires tables { ArePolylineTables sides.now grid.now.heights grid.now.columns grid.now.places }
    ensures { result ≡ line sides.now names.now (bent sides.now (number_at grid.now.heights) (number_at grid.now.columns) (number_at grid.now.places)) e.0 }
{
    laws::local(sides);
    let (tail, head) = (sides.tail(e), sides.head(e));
    let low = grid.dot_place(sides, tail);
    let high = grid.dot_place(sides, head);
    let x = grid.column(sides.face_left(e));
    line(sides, names, e, bends(alloc, low, high, x))
}

/// The picture of dots and lines of these tables.
pub(crate) fn dots_and_lines(
    alloc: Global,
    sides: &Sides,
    grid: &Grid,
    names: &Names,
) -> Result<Picture, NoMemory>
    requires names { AreNames sides.now names.now }
    requires tables { ArePolylineTables sides.now grid.now.heights grid.now.columns grid.now.places }
    requires room { sides.now.vertices + edge_count sides.now + sides.now.vertices < 2 ^ 31 }
    ensures { IfOk result (λ d. d ≡ polylines sides.now names.now (number_at grid.now.heights) (number_at grid.now.columns) (number_at grid.now.places)) }
{
    laws::local(sides);
    let frame = grid.corner(sides);
    let figure = |v| dot_of(sides, grid, names, VertexId(v));
    let bent = |e| bent(alloc, sides, grid, names, EdgeId(e));
    compose(alloc, Form::Polyline, frame, sides, names, figure, bent)
}
