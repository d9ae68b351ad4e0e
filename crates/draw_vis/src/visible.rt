//! Visibility: vertices as level bars, edges as upright lines.
ghost use Rattle.std.specs.Prelude.{◌≡◌, ◌*◌, ◌≤◌, IfOk};
ghost use Rattle.st_ids.specs.declared.limits.TheConstants.{MOST_COORDINATE};
ghost use Rattle.draw_vis.specs.Tables.{AreEdgeColumns, IsLaidOut};
ghost use Rattle.draw_vis.specs.Visibility.{IsVisibilityBy};
ghost use Rattle.st_number.specs.Weighing.{AreLawfulWeights};
ghost use Rattle.st_picture.specs.Bars.{number_at};
ghost use Rattle.st_picture.specs.Drawn.{IsDrawn};
ghost use Rattle.st_picture.specs.Naming.{AreNames};
ghost use Rattle.st_sides.specs.Sides.{edge_count};
ghost use Rattle.st_sides.specs.SidesOf.{IsSidesOf};

use crate::grid::Grid;
use st_ids::{EdgeId, IdVec, Names, NoMemory};
use st_number::Weights;
use st_picture::bars_and_lines;
use st_shape::{Form, Picture};
use st_sides::{Sides, laws};
use st_test::StGraph;
use std::alloc::Global;

/// The visibility picture. A vertex is a level bar at its height, from the column of the face on its left to the one before
/// that of the face on its right; an edge is an upright line in the column of the face on its left, from the bar of its tail
/// to that of its head; a label stands at the left end of its bar. The items are the vertices, the edges and the labels, in
/// the order of the file.
///
/// The height of a vertex is the greatest weight of a walk from the source, under one answer of the closure on each edge.
/// The column of a face is the greatest number of edges that a walk from the left half of the outer face to it crosses.
///
/// Conditions: the sides are those of the graph, the names are for it, the weights are for its number of edges; there are
/// at most `MOST_COORDINATE` edges, and at most `MOST_COORDINATE` vertices times the greatest weight.
/// Errors: `NoMemory`.
/// Cost: O(V + E) time, one call of the closure an edge, and the memory of the picture beside three tables. Not proved.
pub fn visibility<F: Fn(EdgeId) -> u32>(
    alloc: Global,
    graph: &StGraph,
    sides: &Sides,
    w: &Weights<F>,
    names: &Names,
) -> Result<Picture, NoMemory>
    requires sides { IsSidesOf graph.now.map.graph graph.now.source graph.now.sink graph.now.outer sides.now }
    requires names { AreNames sides.now names.now }
    requires weights { w.now.edges ≡ edge_count sides.now }
    requires lawful { AreLawfulWeights F.pre F.post w.now }
    requires high { sides.now.vertices * w.now.most ≤ MOST_COORDINATE }
    requires wide { edge_count sides.now ≤ MOST_COORDINATE }

    ensures picture { IfOk result (IsVisibilityBy (F.post w.now.closure) sides.now names.now) }
    ensures drawn { IfOk result (IsDrawn sides.now) }
{
    sides.facts();
    laws::local(sides);
    let grid = Grid::of(alloc, graph, sides, w)?;
    let lines = left_columns(alloc, sides, &grid)?;
    bars_and_lines(
        alloc,
        Form::Visibility,
        sides,
        grid.heights.items(),
        grid.columns.items(),
        lines.items(),
        names,
    )
}

/// For each edge the column of the node on its left.
fn left_columns(alloc: Global, sides: &Sides, grid: &Grid) -> Result<IdVec<EdgeId, i64>, NoMemory>
    requires { IsLaidOut sides.now grid.now.heights grid.now.columns }
    ensures { IfOk result (AreEdgeColumns sides.now (number_at grid.now.columns)) }
{
    laws::local(sides);
    let mut lines = IdVec::new(alloc);
    for e in 0..sides.edges() {
        lines.push(grid.column(sides.face_left(EdgeId(e))))?;
    }
    Ok(lines)
}
