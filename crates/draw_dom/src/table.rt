//! A table of compact points.
ghost use Rattle.std.specs.Prelude.{◌≡◌, ◌<◌, length, slice_get, Some};

use st_ids::VertexId;
use st_shape::Point;
use std::marker::Model;

/// The compact point of each vertex. A contract sees the list of them.
#[derive(Drop)]
pub struct Compact {
    points: Vec<Point>,
}

impl Model for Compact {
    ghost use Rattle.std.specs.Prelude.{List};
    ghost use Rattle.st_shape.specs.declared.point.Point.{Point};

    ghost Value = { List Point };

    ghost view = { λ a. a.points.items };
}

impl Compact {
    /// The table of these points.
    pub(crate) fn of(points: Vec<Point>) -> Compact
        ensures { result ≡ points.items }
    {
        Compact { points }
    }

    /// The compact point of the vertex.
    ///
    /// Condition: the labels that the points are for have an entry for it.
    /// Cost: O(1), no memory.
    pub fn point(&self, v: VertexId) -> Point
        requires there { v.0 < length self.now }
        ensures { slice_get self.now v.0 ≡ Some result }
    {
        self.points[v.0 as usize]
    }
}
