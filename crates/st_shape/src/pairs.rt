//! Whether two items are a faulty pair.

ghost use Rattle.std.specs.Prelude.{◌≡◌, ◌↔◌, ◌⊎◌, IsTrue};
ghost use Rattle.st_shape.specs.Clean.{CrossAway, FaultyShapes, FaultyVertexAndLine, line, shape_of, vertex};
ghost use Rattle.st_shape.specs.Meeting.{Meet};
ghost use Rattle.st_shape.specs.Steps.{AreOnGrid, IsClimbingLine, IsOrdinary};

use crate::crossing::{SameEnds, cross_apart};
use crate::item::Item;
use crate::meeting::meet;
use crate::names::Name;
use crate::point::{Point, Segment};
use crate::touching::is_faulty_at;

/// A vertex by its name and its figure.
#[derive(Clone, Copy)]
struct Vertex {
    name: Name,
    figure: Segment,
}

/// The names of a line's tail and of its head.
#[derive(Clone, Copy)]
struct Ends {
    tail: Name,
    head: Name,
}

/// Whether two vertices have one name or a point in common.
fn are_faulty_vertices(v: Vertex, w: Vertex) -> bool
    requires v { AreOnGrid v.figure }
    requires w { AreOnGrid w.figure }
    ensures { IsTrue result ↔ ((v.name.number ≡ w.name.number) ⊎ Meet v.figure w.figure) }
{
    v.name.is(w.name) || meet(v.figure, w.figure)
}

/// Whether a vertex and a line are a faulty pair.
fn are_faulty_vertex_and_line(v: Vertex, ends: Ends, points: &[Point]) -> bool
    requires v { AreOnGrid v.figure }
    requires points { IsClimbingLine points.now }
    ensures { IsTrue result ↔ FaultyVertexAndLine v.name.number v.figure ends.tail.number ends.head.number points.now }
{
    let at_tail = ends.tail.is(v.name);
    let at_head = ends.head.is(v.name);
    is_faulty_at(v.figure, points, at_tail, at_head)
}

/// Whether two lines are a faulty pair.
fn are_faulty_lines(ends: Ends, points: &[Point], other_ends: Ends, other_points: &[Point]) -> bool
    requires points { IsClimbingLine points.now }
    requires other_points { IsClimbingLine other_points.now }
    ensures { IsTrue result ↔ CrossAway ends.tail.number ends.head.number points.now other_ends.tail.number other_ends.head.number other_points.now }
{
    let tails = ends.tail.is(other_ends.tail);
    let tail_head = ends.tail.is(other_ends.head);
    let head_tail = ends.head.is(other_ends.tail);
    let heads = ends.head.is(other_ends.head);
    let same = SameEnds {
        tails,
        tail_head,
        head_tail,
        heads,
    };
    cross_apart(points, other_points, same)
}

/// Whether a vertex and an item are a faulty pair.
fn is_faulty_with_vertex(v: Vertex, item: &Item) -> bool
    requires v { AreOnGrid v.figure }
    requires item { IsOrdinary item.now }
    ensures { IsTrue result ↔ FaultyShapes (vertex v.name.number v.figure) (shape_of item.now) }
{
    match item {
        Item::Dot { name, p } => {
            let w = Vertex {
                name: Name { number: *name },
                figure: Segment { a: *p, b: *p },
            };
            are_faulty_vertices(v, w)
        }
        Item::Bar { name, y, from, to } => {
            let w = Vertex {
                name: Name { number: *name },
                figure: Segment {
                    a: Point { x: *from, y: *y },
                    b: Point { x: *to, y: *y },
                },
            };
            are_faulty_vertices(v, w)
        }
        Item::Line {
            tail,
            head,
            points,
            ..
        } => {
            let ends = Ends {
                tail: Name { number: *tail },
                head: Name { number: *head },
            };
            are_faulty_vertex_and_line(v, ends, points.items())
        }
        Item::Rect { .. } => false,
        Item::Face { .. } => false,
        Item::Label { .. } => false,
    }
}

/// Whether a line and an item are a faulty pair.
fn is_faulty_with_line(ends: Ends, points: &[Point], item: &Item) -> bool
    requires points { IsClimbingLine points.now }
    requires item { IsOrdinary item.now }
    ensures { IsTrue result ↔ FaultyShapes (line ends.tail.number ends.head.number points.now) (shape_of item.now) }
{
    match item {
        Item::Dot { name, p } => {
            let v = Vertex {
                name: Name { number: *name },
                figure: Segment { a: *p, b: *p },
            };
            are_faulty_vertex_and_line(v, ends, points)
        }
        Item::Bar { name, y, from, to } => {
            let v = Vertex {
                name: Name { number: *name },
                figure: Segment {
                    a: Point { x: *from, y: *y },
                    b: Point { x: *to, y: *y },
                },
            };
            are_faulty_vertex_and_line(v, ends, points)
        }
        Item::Line {
            tail,
            head,
            points: other_points,
            ..
        } => {
            let other_ends = Ends {
                tail: Name { number: *tail },
                head: Name { number: *head },
            };
            are_faulty_lines(ends, points, other_ends, other_points.items())
        }
        Item::Rect { .. } => false,
        Item::Face { .. } => false,
        Item::Label { .. } => false,
    }
}

/// Whether two items are a faulty pair.
///
/// Range: coordinates from 0 to 50,000,000, and lines that rise, as those that are not faulty by themselves.
pub fn is_faulty_pair(e: &Item, f: &Item) -> bool
    requires e { IsOrdinary e.now }
    requires f { IsOrdinary f.now }
    ensures { IsTrue result ↔ FaultyShapes (shape_of e.now) (shape_of f.now) }
{
    match e {
        Item::Dot { name, p } => {
            let v = Vertex {
                name: Name { number: *name },
                figure: Segment { a: *p, b: *p },
            };
            is_faulty_with_vertex(v, f)
        }
        Item::Bar { name, y, from, to } => {
            let v = Vertex {
                name: Name { number: *name },
                figure: Segment {
                    a: Point { x: *from, y: *y },
                    b: Point { x: *to, y: *y },
                },
            };
            is_faulty_with_vertex(v, f)
        }
        Item::Line {
            tail,
            head,
            points,
            ..
        } => {
            let ends = Ends {
                tail: Name { number: *tail },
                head: Name { number: *head },
            };
            is_faulty_with_line(ends, points.items(), f)
        }
        Item::Rect { .. } => false,
        Item::Face { .. } => false,
        Item::Label { .. } => false,
    }
}
