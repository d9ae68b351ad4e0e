//! The items of a dominance picture: dots, lines and labels.
ghost use Rattle.std.specs.Prelude.{◌≡◌, ◌+◌, ◌<◌, ◌^◌, length, IfOk};
ghost use Rattle.draw_dom.specs.Pictures.{point_dot, dummied, points_and_lines};
ghost use Rattle.draw_dom.specs.Points.{vertex_point};
ghost use Rattle.draw_dom.specs.Shown.{AreDots};
ghost use Rattle.st_picture.specs.Items.{line};
ghost use Rattle.st_picture.specs.Naming.{AreNames};
ghost use Rattle.st_reduce.specs.Marks.{dummy_numbers};
ghost use Rattle.st_reduce.specs.Reduced.{dummy_at};
ghost use Rattle.st_sides.specs.Sides.{edge_count};

use crate::table::Compact;
use st_ids::{EdgeId, FaceId, IdVec, Names, NoMemory, VertexId};
use st_picture::{compose, dot, line};
use st_shape::{Form, Item, Picture, Point, Points};
use st_sides::{Sides, laws};
use std::alloc::Global;

/// The point of a vertex or a dummy.
fn place(points: &Compact, v: VertexId) -> Point
    requires { v.0 < length points.now }
    ensures { result ≡ vertex_point points.now v.0 }
{
    points.point(v)
}

/// The points of the line of an edge: straight, by the point of its dummy if it has one.
fn dummied(
    alloc: Global,
    sides: &Sides,
    points: &Compact,
    dummies: &IdVec<EdgeId, Option<VertexId>>,
    e: EdgeId,
) -> Points
    requires there { e.0 < edge_count sides.now }
    requires dots { AreDots sides.now dummies.now points.now }
    ensures { result ≡ dummied sides.now (dummy_at (dummy_numbers dummies.now)) (vertex_point points.now) e.0 }
{
    laws::local(sides);
    let (tail, head) = (sides.tail(e), sides.head(e));
    let low = place(points, tail);
    let high = place(points, head);
    match dummies.get(e) {
        Some(w) => {
            let mid = place(points, *w);
            Points::three(alloc, low, mid, high)
        }
        None => Points::two(alloc, low, high),
    }
}

/// The vertex as a dot at its point.
fn dot_of(points: &Compact, names: &Names, v: VertexId) -> Item
    requires there { v.0 < length points.now }
    requires named { v.0 < length names.now.vertex }
    ensures { result ≡ point_dot names.now (vertex_point points.now) v.0 }
{
    dot(names, v, place(points, v))
}

/// The edge as a line.
fn line_of(
    alloc: Global,
    sides: &Sides,
    points: &Compact,
    dummies: &IdVec<EdgeId, Option<VertexId>>,
    names: &Names,
    e: EdgeId,
) -> Item
    requires there { e.0 < edge_count sides.now }
    requires names { AreNames sides.now names.now }
    requires dots { AreDots sides.now dummies.now points.now }
    ensures { result ≡ line sides.now names.now (dummied sides.now (dummy_at (dummy_numbers dummies.now)) (vertex_point points.now)) e.0 }
{
    line(sides, names, e, dummied(alloc, sides, points, dummies, e))
}

/// The picture of dots and lines at these points.
pub(crate) fn points_and_lines(
    alloc: Global,
    sides: &Sides,
    points: &Compact,
    dummies: &IdVec<EdgeId, Option<VertexId>>,
    names: &Names,
) -> Result<Picture, NoMemory>
    requires names { AreNames sides.now names.now }
    requires dots { AreDots sides.now dummies.now points.now }
    requires room { sides.now.vertices + edge_count sides.now + sides.now.vertices < 2 ^ 31 }
    ensures { IfOk result (λ d. d ≡ points_and_lines sides.now names.now (dummy_at (dummy_numbers dummies.now)) (vertex_point points.now)) }
{
    laws::local(sides);
    let frame = place(points, sides.high(FaceId(0)));
    let figure = |v| dot_of(points, names, VertexId(v));
    let straight = |e| line_of(alloc, sides, points, dummies, names, EdgeId(e));
    compose(
        alloc,
        Form::Dominance,
        frame,
        sides,
        names,
        figure,
        straight,
    )
}
