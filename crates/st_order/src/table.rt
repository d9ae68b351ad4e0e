//! The two numbers of each vertex, and the comparison that they are for.
ghost use Rattle.std.specs.Prelude.{◌<◌, ◌↔◌, IsTrue, length};
ghost use Rattle.st_order.specs.Labels.{AreAtMost};

use st_ids::{IdVec, VertexId};

/// Two numbers of each vertex, as `labels` finds them: from 0 to one less than the number of vertices. Anyone can write a
/// value; `reaches` compares whatever it holds.
#[derive(Drop)]
pub struct Labels {
    /// How many other vertices reach the vertex or are left of it.
    pub x: IdVec<VertexId, u32>,
    /// How many other vertices reach the vertex or are right of it.
    pub y: IdVec<VertexId, u32>,
}

impl Labels {
    /// Whether both numbers of u are at most those of v. Of the labels of a graph this says whether u reaches v; a vertex
    /// reaches itself.
    ///
    /// Cost: O(1), no memory.
    pub fn reaches(&self, u: VertexId, v: VertexId) -> bool
        requires u_in_x { u.0 < length self.now.x }
        requires u_in_y { u.0 < length self.now.y }
        requires v_in_x { v.0 < length self.now.x }
        requires v_in_y { v.0 < length self.now.y }
        ensures { IsTrue result ↔ AreAtMost self.now u.0 v.0 }
    {
        *self.x.get(u) <= *self.x.get(v) && *self.y.get(u) <= *self.y.get(v)
    }
}
