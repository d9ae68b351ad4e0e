//! The values that pictures are made of: points, segments, turns, and the points of a line.
ghost use Rattle.std.specs.Prelude.{◌≡◌, [], ◌∷◌, ◌≤◌, ◌↔◌, IsTrue, length};
ghost use Rattle.st_shape.specs.Inside.{IsInside};

use smallvec::SmallVec;
use st_ids::limits::MOST_COORDINATE;
use std::alloc::Global;
use std::marker::Model;

/// The greatest coordinate of a picture.
pub const GREATEST: i64 = MOST_COORDINATE as i64;

/// A point of the grid.
#[derive(Clone, Copy, Debug, Default, PartialEq, Eq)]
pub struct Point {
    pub x: i64,
    pub y: i64,
}

/// A straight line from `a` to `b`, which may be one point.
#[derive(Clone, Copy, Debug, PartialEq, Eq)]
pub struct Segment {
    pub a: Point,
    pub b: Point,
}

/// Which way a walk from a point by a second to a third turns at the second.
#[derive(Clone, Copy, Debug, PartialEq, Eq)]
pub enum Turn {
    Left,
    Straight,
    Right,
}

impl Point {
    /// Whether the point lies between (0, 0) and the corner.
    pub fn is_inside(self, corner: Point) -> bool
        ensures { IsTrue result ↔ IsInside corner self }
    {
        0 <= self.x && self.x <= corner.x && 0 <= self.y && self.y <= corner.y
    }
}

/// Two to four points, which lie within the value.
///
/// A contract sees the list of them.
#[derive(Drop)]
pub struct Points {
    held: SmallVec<Point, 4>,
}

impl Model for Points {
    ghost use Rattle.std.specs.Prelude.{List, length, ◌≤◌};
    ghost use Rattle.st_shape.specs.declared.point.Point.{Point};

    ghost Value = { List Point };

    ghost view = { λ a. a.held.items };

    ghost invariant = { λ a. (2 ≤ length a.held.items) × (length a.held.items ≤ 4) };
}

impl Points {
    /// The two points. It takes no memory: the allocator is only kept.
    pub fn two(alloc: Global, a: Point, b: Point) -> Points
        ensures { result ≡ a ∷ b ∷ [] }
    {
        let mut held = SmallVec::new(alloc);
        held.push_reserved(a);
        held.push_reserved(b);
        Points { held }
    }

    /// The three points. It takes no memory: the allocator is only kept.
    pub fn three(alloc: Global, a: Point, b: Point, c: Point) -> Points
        ensures { result ≡ a ∷ b ∷ c ∷ [] }
    {
        let mut held = SmallVec::new(alloc);
        held.push_reserved(a);
        held.push_reserved(b);
        held.push_reserved(c);
        Points { held }
    }

    /// The four points. It takes no memory: the allocator is only kept.
    pub fn four(alloc: Global, a: Point, b: Point, c: Point, d: Point) -> Points
        ensures { result ≡ a ∷ b ∷ c ∷ d ∷ [] }
    {
        let mut held = SmallVec::new(alloc);
        held.push_reserved(a);
        held.push_reserved(b);
        held.push_reserved(c);
        held.push_reserved(d);
        Points { held }
    }

    /// The points, from the first to the last.
    pub fn items(&self) -> &[Point]
        ensures same { result.now ≡ self.now }
        ensures some { 2 ≤ length self.now }
        ensures few { length self.now ≤ 4 }
    {
        self.held.as_slice()
    }
}
