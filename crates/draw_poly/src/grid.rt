//! Heights, columns and places of a graph as tables.
ghost use Rattle.std.specs.Prelude.{◌≡◌, ◌*◌, ◌<◌, ◌≤◌, ◌≤ℤ◌, length, pos, slice_index_or, IfOk};
ghost use Rattle.st_ids.specs.declared.limits.TheConstants.{MOST_COORDINATE};
ghost use Rattle.draw_poly.specs.Numbers.{IsLongOnParallels};
ghost use Rattle.draw_poly.specs.Placing.{IsPlacement};
ghost use Rattle.draw_poly.specs.Polyline.{corner_of, dot_place};
ghost use Rattle.draw_poly.specs.Tables.{ArePolylineTables, ArePolylineTablesBy};
ghost use Rattle.st_number.specs.Weighing.{AreLawfulWeights};
ghost use Rattle.st_picture.specs.Bars.{number_at};
ghost use Rattle.st_sides.specs.Sides.{edge_count};
ghost use Rattle.st_sides.specs.SidesOf.{IsSidesOf};

use crate::placer::Placer;
use crate::places::places;
use st_ids::{EdgeId, FaceId, IdVec, NoMemory, VertexId};
use st_number::{Weights, columns, heights};
use st_picture::number_in;
use st_shape::Point;
use st_sides::{Sides, laws};
use st_test::StGraph;
use std::alloc::Global;

/// The height of each vertex, the column of each node of the dual, and the column in which each vertex stands.
#[derive(Drop)]
pub(crate) struct Grid {
    pub(crate) heights: IdVec<VertexId, i64>,
    pub(crate) columns: IdVec<FaceId, i64>,
    pub(crate) places: IdVec<VertexId, i64>,
}

impl Grid {
    /// The tables of the graph, under one answer of the weights on each edge and one of the placement for each vertex.
    pub(crate) fn of<F: Fn(EdgeId) -> u32, G: Fn(i64, i64) -> i64>(
        alloc: Global,
        graph: &StGraph,
        sides: &Sides,
        w: &Weights<F>,
        placer: &Placer<G>,
    ) -> Result<Grid, NoMemory>
        requires sides { IsSidesOf graph.now.map.graph graph.now.source graph.now.sink graph.now.outer sides.now }
        requires weights { w.now.edges ≡ edge_count sides.now }
        requires lawful { AreLawfulWeights F.pre F.post w.now }
        requires long { IsLongOnParallels (F.post w.now.closure) graph.now.map.graph }
        requires placement { IsPlacement G.pre G.post placer.now }
        requires high { sides.now.vertices * w.now.most ≤ MOST_COORDINATE }
        requires wide { edge_count sides.now ≤ MOST_COORDINATE }

        ensures by { IfOk result (λ t. ArePolylineTablesBy (F.post w.now.closure) (G.post placer.now.closure) sides.now t.heights t.columns t.places) }
        ensures tables { IfOk result (λ t. ArePolylineTables sides.now t.heights t.columns t.places) }
    {
        laws::local(sides);
        let heights = heights(alloc, graph, w)?;
        let columns = columns(alloc, sides)?;
        let places = places(alloc, sides, &columns, placer)?;
        Ok(Grid {
            heights,
            columns,
            places,
        })
    }

    /// The height of the vertex.
    pub(crate) fn height(&self, v: VertexId) -> i64
        requires there { v.0 < length self.now.heights }
        requires natural { pos 0 ≤ℤ slice_index_or self.now.heights v.0 (pos 0) }
        ensures { result ≡ pos (number_at self.now.heights v.0) }
    {
        number_in(self.heights.items(), v.0)
    }

    /// The column of the node.
    pub(crate) fn column(&self, f: FaceId) -> i64
        requires there { f.0 < length self.now.columns }
        requires natural { pos 0 ≤ℤ slice_index_or self.now.columns f.0 (pos 0) }
        ensures { result ≡ pos (number_at self.now.columns f.0) }
    {
        number_in(self.columns.items(), f.0)
    }

    /// The column in which the vertex stands.
    fn place(&self, v: VertexId) -> i64
        requires there { v.0 < length self.now.places }
        requires natural { pos 0 ≤ℤ slice_index_or self.now.places v.0 (pos 0) }
        ensures { result ≡ pos (number_at self.now.places v.0) }
    {
        number_in(self.places.items(), v.0)
    }

    /// Where the vertex stands.
    pub(crate) fn dot_place(&self, sides: &Sides, v: VertexId) -> Point
        requires there { v.0 < sides.now.vertices }
        requires tables { ArePolylineTables sides.now self.now.heights self.now.columns self.now.places }
        ensures { result ≡ dot_place (number_at self.now.places) (number_at self.now.heights) v.0 }
    {
        Point {
            x: self.place(v),
            y: self.height(v),
        }
    }

    /// The corner of the frame: the column before the last node of the dual, and the height of the sink.
    pub(crate) fn corner(&self, sides: &Sides) -> Point
        requires { ArePolylineTables sides.now self.now.heights self.now.columns self.now.places }
        ensures { result ≡ corner_of sides.now (number_at self.now.heights) (number_at self.now.columns) }
    {
        laws::local(sides);
        Point {
            x: self.column(FaceId(sides.faces() - 1)) - 1,
            y: self.height(sides.high(FaceId(0))),
        }
    }
}
