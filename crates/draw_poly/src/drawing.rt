//! Polyline pictures: vertices as dots, edges as lines with at most two bends.
ghost use Rattle.std.specs.Prelude.{◌≡◌, ◌*◌, ◌≤◌, IfOk};
ghost use Rattle.st_ids.specs.declared.limits.TheConstants.{MOST_COORDINATE};
ghost use Rattle.draw_poly.specs.Numbers.{IsLongOnParallels};
ghost use Rattle.draw_poly.specs.Placing.{IsPlacement};
ghost use Rattle.draw_poly.specs.Polyline.{IsPolylineBy};
ghost use Rattle.st_number.specs.Weighing.{AreLawfulWeights};
ghost use Rattle.st_picture.specs.Drawn.{IsDrawn};
ghost use Rattle.st_picture.specs.Naming.{AreNames};
ghost use Rattle.st_sides.specs.Sides.{edge_count};
ghost use Rattle.st_sides.specs.SidesOf.{IsSidesOf};

use crate::grid::Grid;
use crate::items::dots_and_lines;
use crate::placer::Placer;
use st_ids::{EdgeId, Names, NoMemory};
use st_number::Weights;
use st_shape::Picture;
use st_sides::{Sides, laws};
use st_test::StGraph;
use std::alloc::Global;

/// The polyline picture. A vertex is a dot at its height, in the column that the placement answers for the ends of its bar:
/// the column of the face on its left, and the one before that of the face on its right. An edge of height 1 is the straight
/// line between its dots. A higher one goes from its tail's dot to one row above it in the column of the face on the edge's
/// left, straight up in that column, and from one row below its head's dot to that dot; where these two bends are equal they
/// are one point. A label stands at its dot. The items are the vertices, the edges and the labels, in the order of the file.
///
/// The height of a vertex is the greatest weight of a walk from the source, under one answer of the weights on each edge.
/// The column of a face is the greatest number of edges that a walk from the left half of the outer face to it crosses.
///
/// Conditions: the sides are those of the graph, the names are for it, the weights are for its number of edges; each edge
/// that has a parallel weighs 2 or more; there are at most `MOST_COORDINATE` edges, and at most `MOST_COORDINATE` vertices
/// times the greatest weight.
/// Errors: `NoMemory`.
/// Cost: O(V + E) time, one call of the weights an edge and one of the placement a vertex, and the memory of the picture
/// beside three tables. Not proved.
pub fn polyline<F: Fn(EdgeId) -> u32, G: Fn(i64, i64) -> i64>(
    alloc: Global,
    graph: &StGraph,
    sides: &Sides,
    w: &Weights<F>,
    placer: &Placer<G>,
    names: &Names,
) -> Result<Picture, NoMemory>
    requires sides { IsSidesOf graph.now.map.graph graph.now.source graph.now.sink graph.now.outer sides.now }
    requires names { AreNames sides.now names.now }
    requires weights { w.now.edges ≡ edge_count sides.now }
    requires lawful { AreLawfulWeights F.pre F.post w.now }
    requires long { IsLongOnParallels (F.post w.now.closure) graph.now.map.graph }
    requires placement { IsPlacement G.pre G.post placer.now }
    requires high { sides.now.vertices * w.now.most ≤ MOST_COORDINATE }
    requires wide { edge_count sides.now ≤ MOST_COORDINATE }

    ensures picture { IfOk result (IsPolylineBy (F.post w.now.closure) (G.post placer.now.closure) sides.now names.now) }
    ensures drawn { IfOk result (IsDrawn sides.now) }
{
    sides.facts();
    laws::local(sides);
    let grid = Grid::of(alloc, graph, sides, w, placer)?;
    dots_and_lines(alloc, sides, &grid, names)
}
