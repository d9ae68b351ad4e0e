//! Heights and columns of a graph as tables.
ghost use Rattle.std.specs.Prelude.{◌≡◌, ◌*◌, ◌<◌, ◌≤◌, ◌≤ℤ◌, length, pos, slice_index_or, IfOk};
ghost use Rattle.st_ids.specs.declared.limits.TheConstants.{MOST_COORDINATE};
ghost use Rattle.draw_vis.specs.Tables.{AreTablesBy, IsLaidOut};
ghost use Rattle.st_number.specs.Weighing.{AreLawfulWeights};
ghost use Rattle.st_picture.specs.Bars.{number_at};
ghost use Rattle.st_picture.specs.Items.{grid_point};
ghost use Rattle.st_sides.specs.Sides.{edge_count};
ghost use Rattle.st_sides.specs.SidesOf.{IsSidesOf};

use st_ids::{EdgeId, FaceId, IdVec, NoMemory, VertexId};
use st_number::{Weights, columns, heights};
use st_picture::number_in;
use st_shape::Point;
use st_sides::{Sides, laws};
use st_test::StGraph;
use std::alloc::Global;

/// The height of each vertex, and the column of each node of the dual.
#[derive(Drop)]
pub(crate) struct Grid {
    pub(crate) heights: IdVec<VertexId, i64>,
    pub(crate) columns: IdVec<FaceId, i64>,
}

impl Grid {
    /// The heights and the columns of the graph, under one answer of the closure on each edge.
    pub(crate) fn of<F: Fn(EdgeId) -> u32>(
        alloc: Global,
        graph: &StGraph,
        sides: &Sides,
        w: &Weights<F>,
    ) -> Result<Grid, NoMemory>
        requires sides { IsSidesOf graph.now.map.graph graph.now.source graph.now.sink graph.now.outer sides.now }
        requires weights { w.now.edges ≡ edge_count sides.now }
        requires lawful { AreLawfulWeights F.pre F.post w.now }
        requires high { sides.now.vertices * w.now.most ≤ MOST_COORDINATE }
        requires wide { edge_count sides.now ≤ MOST_COORDINATE }

        ensures tables { IfOk result (λ t. AreTablesBy (F.post w.now.closure) sides.now t.heights t.columns) }
        ensures laid { IfOk result (λ t. IsLaidOut sides.now t.heights t.columns) }
    {
        laws::local(sides);
        let heights = heights(alloc, graph, w)?;
        let columns = columns(alloc, sides)?;
        Ok(Grid { heights, columns })
    }

    /// The height of the vertex.
    pub(crate) fn height(&self, v: VertexId) -> i64
        requires there { v.0 < length self.now.heights }
        requires natural { pos 0 ≤ℤ slice_index_or self.now.heights v.0 (pos 0) }
        ensures { result ≡ pos (number_at self.now.heights v.0) }
    {
        number_in(self.heights.items(), v.0)
    }

    /// The column of the node.
    pub(crate) fn column(&self, f: FaceId) -> i64
        requires there { f.0 < length self.now.columns }
        requires natural { pos 0 ≤ℤ slice_index_or self.now.columns f.0 (pos 0) }
        ensures { result ≡ pos (number_at self.now.columns f.0) }
    {
        number_in(self.columns.items(), f.0)
    }

    /// The point in the column of the node and at the height of the vertex.
    pub(crate) fn point(&self, f: FaceId, v: VertexId) -> Point
        requires node { f.0 < length self.now.columns }
        requires column { pos 0 ≤ℤ slice_index_or self.now.columns f.0 (pos 0) }
        requires vertex { v.0 < length self.now.heights }
        requires height { pos 0 ≤ℤ slice_index_or self.now.heights v.0 (pos 0) }
        ensures { result ≡ grid_point (number_at self.now.columns f.0) (number_at self.now.heights v.0) }
    {
        Point {
            x: self.column(f),
            y: self.height(v),
        }
    }
}
