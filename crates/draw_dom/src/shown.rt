//! A dominance drawing: a picture, and the points that decide reaching.
ghost use Rattle.std.specs.Prelude.{◌≡◌, ◌<◌, ◌↔◌, IsTrue, length, slice_get, Some};
ghost use Rattle.draw_dom.specs.Pictures.{IsAtMost};
ghost use Rattle.draw_dom.specs.Points.{IsPointAtMost};

use st_ids::{IdVec, VertexId};
use st_shape::{Picture, Point};

/// Whether neither coordinate of p is above that of q.
fn is_at_most(p: Point, q: Point) -> bool
    ensures { IsTrue result ↔ IsAtMost p q }
{
    p.x <= q.x && p.y <= q.y
}

/// Whether neither coordinate of u's point is above that of v's. With the points of `dominance_points` this says whether u
/// reaches v; a vertex reaches itself.
///
/// Condition: there are points for both.
/// Cost: O(1), no memory.
pub fn reaches_by(points: &IdVec<VertexId, Point>, u: VertexId, v: VertexId) -> bool
    requires first { u.0 < length points.now }
    requires second { v.0 < length points.now }
    ensures { IsTrue result ↔ IsPointAtMost points.now u.0 v.0 }
{
    is_at_most(*points.get(u), *points.get(v))
}

/// A dominance picture, and the point of each vertex, as `dominance` finds them. Anyone can write a value; `reaches` compares
/// whatever points it holds.
#[derive(Drop)]
pub struct Dominance {
    /// The picture.
    pub picture: Picture,
    /// The point of each vertex of the file.
    pub points: IdVec<VertexId, Point>,
}

impl Dominance {
    /// The point of the vertex.
    ///
    /// Condition: there is a point for it.
    /// Cost: O(1), no memory.
    pub fn point(&self, v: VertexId) -> Point
        requires there { v.0 < length self.now.points }
        ensures { slice_get self.now.points v.0 ≡ Some result }
    {
        *self.points.get(v)
    }

    /// Whether neither coordinate of u's point is above that of v's. In the drawing of a graph this says whether u reaches v; a
    /// vertex reaches itself.
    ///
    /// Condition: there are points for both.
    /// Cost: O(1), no memory.
    pub fn reaches(&self, u: VertexId, v: VertexId) -> bool
        requires first { u.0 < length self.now.points }
        requires second { v.0 < length self.now.points }
        ensures { IsTrue result ↔ IsPointAtMost self.now.points u.0 v.0 }
    {
        reaches_by(&self.points, u, v)
    }
}
