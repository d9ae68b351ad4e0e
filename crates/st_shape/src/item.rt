//! The items of a picture, and whether one fits a frame.
ghost use Rattle.std.specs.Prelude.{◌≡◌, ◌<◌, ◌≤◌, ◌^◌, ◌↔◌, ◌≤ℤ◌, ◌<ℤ◌, IsTrue, length};
ghost use Rattle.std.specs.List.{AllByRecursion};
ghost use Rattle.st_shape.specs.Inside.{IsInside, point};
ghost use Rattle.st_shape.specs.Rules.{FitsFrame, HasNames, IsPrintable};

use crate::{Point, Points};
use st_ids::Text;

/// An item of a picture, in units of the grid.
#[derive(Drop)]
pub enum Item {
    /// A vertex drawn as a point.
    Dot {
        name: i64,
        p: Point,
    },
    /// A vertex drawn as a level line at height `y`.
    Bar {
        name: i64,
        y: i64,
        from: i64,
        to: i64,
    },
    /// An edge: a line through these points, from that of its tail to that of its head.
    Line {
        name: i64,
        tail: i64,
        head: i64,
        points: Points,
    },
    /// An edge drawn as a box.
    Rect {
        name: i64,
        tail: i64,
        head: i64,
        low: Point,
        high: Point,
    },
    /// A face drawn as an upright line at `x`.
    Face {
        number: u32,
        x: i64,
        from: i64,
        to: i64,
    },
    /// The text beside a vertex.
    Label {
        name: i64,
        p: Point,
        text: Text,
    },
}

impl Item {
    /// Whether a picture with this frame may have the item.
    pub fn fits(&self, frame: Point) -> bool
        ensures { IsTrue result ↔ FitsFrame frame self.now }
    {
        match self {
            Item::Dot { p, .. } => p.is_inside(frame),
            Item::Bar { y, from, to, .. } => is_bar(frame, *y, *from, *to),
            Item::Line { points, .. } => are_inside(points.items(), frame),
            Item::Rect { low, high, .. } => is_box(frame, *low, *high),
            Item::Face { x, from, to, .. } => is_post(frame, *x, *from, *to),
            Item::Label { p, text, .. } => p.is_inside(frame) && is_label(text.bytes()),
        }
    }
}

/// Whether `a` is at most `b`.
fn at_most(a: i64, b: i64) -> bool
    ensures { IsTrue result ↔ (a ≤ℤ b) }
{
    a <= b
}

/// Whether `a` is less than `b`.
fn less(a: i64, b: i64) -> bool
    ensures { IsTrue result ↔ (a <ℤ b) }
{
    a < b
}

/// Whether both points lie in the frame.
fn are_both_inside(frame: Point, a: Point, b: Point) -> bool
    ensures { IsTrue result ↔ (IsInside frame a × IsInside frame b) }
{
    a.is_inside(frame) && b.is_inside(frame)
}

/// Whether `low` is below `high` and left of it.
fn is_below_left(low: Point, high: Point) -> bool
    ensures { IsTrue result ↔ ((low.x <ℤ high.x) × (low.y <ℤ high.y)) }
{
    less(low.x, high.x) && less(low.y, high.y)
}

/// Whether the ends of the bar lie in the frame, and `from` is no greater than `to`.
fn is_bar(frame: Point, y: i64, from: i64, to: i64) -> bool
    ensures { IsTrue result ↔ (IsInside frame (point from y) × IsInside frame (point to y) × (from ≤ℤ to)) }
{
    are_both_inside(frame, Point { x: from, y }, Point { x: to, y }) && at_most(from, to)
}

/// Whether the ends of the upright line lie in the frame, and `from` is no greater than `to`.
fn is_post(frame: Point, x: i64, from: i64, to: i64) -> bool
    ensures { IsTrue result ↔ (IsInside frame (point x from) × IsInside frame (point x to) × (from ≤ℤ to)) }
{
    are_both_inside(frame, Point { x, y: from }, Point { x, y: to }) && at_most(from, to)
}

/// Whether the box lies in the frame and is wider and higher than 0.
fn is_box(frame: Point, low: Point, high: Point) -> bool
    ensures { IsTrue result ↔ (IsInside frame low × IsInside frame high × (low.x <ℤ high.x) × (low.y <ℤ high.y)) }
{
    are_both_inside(frame, low, high) && is_below_left(low, high)
}

/// Whether all points lie in the frame.
fn are_inside(points: &[Point], frame: Point) -> bool
    ensures { IsTrue result ↔ AllByRecursion (IsInside frame) points.now }
{
    match points {
        [] => true,
        [p, rest @ ..] => p.is_inside(frame) && are_inside(rest, frame),
    }
}

/// Whether the text has 1 to 80 bytes, which all print.
fn is_label(text: &[u8]) -> bool
    ensures { IsTrue result ↔ ((1 ≤ length text.now) × (length text.now ≤ 80) × AllByRecursion IsPrintable text.now) }
{
    !text.is_empty() && text.len() <= 80 && are_printable(text)
}

/// Whether all bytes are from 32 to 126.
fn are_printable(text: &[u8]) -> bool
    ensures { IsTrue result ↔ AllByRecursion IsPrintable text.now }
{
    text.iter().all(|b| 32 <= *b && *b <= 126)
}
