//! Constrained visibility: vertices as level bars, edges as upright lines, the edges of each listed path in one column.
ghost use Rattle.std.specs.Prelude.{◌≡◌, ◌+◌, ◌*◌, ◌<◌, ◌≤◌, pos, length, slice_index_or, IfOk, IfErr, OnOk};
ghost use Rattle.st_ids.specs.declared.limits.TheConstants.{MOST_COORDINATE};
ghost use Rattle.draw_align.specs.Built.{AreLines, HasHomes};
ghost use Rattle.draw_align.specs.Constrained.{IsAligned, IsConstrainedBy};
ghost use Rattle.draw_align.specs.Faults.{AreThere, IsPathFault};
ghost use Rattle.draw_align.specs.Homes.{HasPaths};
ghost use Rattle.draw_align.specs.Listed.{AreSound};
ghost use Rattle.st_number.specs.Weighing.{AreLawfulWeights};
ghost use Rattle.st_picture.specs.Drawn.{IsDrawn};
ghost use Rattle.st_picture.specs.Naming.{AreNames};
ghost use Rattle.st_sides.specs.Sides.{edge_count};
ghost use Rattle.st_sides.specs.SidesOf.{IsSidesOf};

use crate::alignment::{columns_of, path_node};
use crate::faults::test_paths;
use crate::homes::{Homes, homes_of};
use crate::path_fault::PathFault;
use st_ids::{EdgeId, IdVec, Names, NoMemory, PathList, VertexId};
use st_number::{Weights, columns, heights, signed};
use st_picture::bars_and_lines;
use st_shape::{Form, Picture};
use st_sides::{Sides, laws};
use st_test::StGraph;
use std::alloc::Global;

/// The column of the node.
fn column_at(columns: &IdVec<VertexId, i64>, v: VertexId) -> i64
    requires { v.0 < length columns.now }
    ensures { result ≡ slice_index_or columns.now v.0 (pos 0) }
{
    *columns.get(v)
}

/// For each edge the column of its path.
fn lines_of(
    alloc: Global,
    sides: &Sides,
    homes: &IdVec<EdgeId, u32>,
    columns: &IdVec<VertexId, i64>,
    n: u32,
) -> Result<IdVec<EdgeId, i64>, NoMemory>
    requires homes { HasHomes sides.now homes.now n }
    requires size { length columns.now ≡ n }
    ensures { IfOk result (AreLines sides.now homes.now columns.now (edge_count sides.now)) }
{
    let mut lines = IdVec::new(alloc);
    for e in 0..sides.edges() {
        lines.push(column_at(columns, path_node(sides, homes, n, e)))?;
    }
    Ok(lines)
}

/// The constrained visibility picture. A vertex is a level bar at its height, from the column of the face on its left to the
/// one before that of the face on its right; an edge is an upright line from the bar of its tail to that of its head, and the
/// edges of each listed path stand in one column; a label stands at the left end of its bar. The items are the vertices, the
/// edges and the labels, in the order of the file.
///
/// The height of a vertex is the greatest weight of a walk from the source, under one answer of the closure on each edge.
/// Columns are greatest weights too, in the graph of the faces and the paths that has two arcs an edge: one of weight 0 from
/// the face on its left to its path, and one of weight 1 from its path to the face on its right. An edge in no listed path is
/// a path of its own.
///
/// Conditions: the sides are those of the graph, the names are for it, the weights are for its number of edges, each listed
/// edge is there; there are at most `MOST_COORDINATE` edges, and at most `MOST_COORDINATE` vertices times the greatest weight.
/// Errors: `NotAPath`, `SharedEdge` and `Crossing` exactly where each is the first fault, path by path, and for each path in
/// this order; `NoMemory`.
/// Cost: O(V + E) time, or O((V + E) log P) where two of P paths cross; one call of the closure an edge, and the memory of the
/// picture beside some tables. Not proved.
pub fn constrained<F: Fn(EdgeId) -> u32>(
    alloc: Global,
    graph: &StGraph,
    sides: &Sides,
    w: &Weights<F>,
    paths: &PathList,
    names: &Names,
) -> Result<Picture, PathFault>
    requires sides { IsSidesOf graph.now.map.graph graph.now.source graph.now.sink graph.now.outer sides.now }
    requires names { AreNames sides.now names.now }
    requires weights { w.now.edges ≡ edge_count sides.now }
    requires lawful { AreLawfulWeights F.pre F.post w.now }
    requires high { sides.now.vertices * w.now.most ≤ MOST_COORDINATE }
    requires wide { edge_count sides.now ≤ MOST_COORDINATE }
    requires edges { AreThere sides.now paths.now }

    ensures picture { IfOk result (IsConstrainedBy (F.post w.now.closure) sides.now paths.now names.now) }
    ensures drawn { IfOk result (IsDrawn sides.now) }
    ensures aligned { IfOk result (IsAligned sides.now paths.now) }
    ensures sound { OnOk result (AreSound sides.now paths.now (length paths.now)) }
    ensures fault { IfErr result (IsPathFault sides.now paths.now) }
{
    sides.facts();
    laws::local(sides);
    let ranks = columns(alloc, sides)?;
    let steps = test_paths(alloc, sides, &ranks, paths)?;
    let homes = homes_of(alloc, sides, paths, &steps)?;
    let picture = draw(alloc, graph, sides, w, paths, &homes, names)?;
    Ok(picture)
}

/// The picture of sound paths.
fn draw<F: Fn(EdgeId) -> u32>(
    alloc: Global,
    graph: &StGraph,
    sides: &Sides,
    w: &Weights<F>,
    paths: &PathList,
    homes: &Homes,
    names: &Names,
) -> Result<Picture, NoMemory>
    requires sides { IsSidesOf graph.now.map.graph graph.now.source graph.now.sink graph.now.outer sides.now }
    requires names { AreNames sides.now names.now }
    requires weights { w.now.edges ≡ edge_count sides.now }
    requires lawful { AreLawfulWeights F.pre F.post w.now }
    requires high { sides.now.vertices * w.now.most ≤ MOST_COORDINATE }
    requires wide { edge_count sides.now ≤ MOST_COORDINATE }
    requires sound { AreSound sides.now paths.now (length paths.now) }
    requires few { length paths.now ≤ edge_count sides.now }
    requires paths { HasPaths sides.now paths.now homes.now.table homes.now.count }
    ensures { IfOk result (IsConstrainedBy (F.post w.now.closure) sides.now paths.now names.now) }
{
    sides.facts();
    laws::local(sides);
    let heights = heights(alloc, graph, w)?;
    let sums = columns_of(alloc, sides, paths, homes)?;
    let columns = signed(alloc, &sums)?;
    let lines = lines_of(
        alloc,
        sides,
        &homes.table,
        &columns,
        sides.faces() + homes.count,
    )?;
    bars_and_lines(
        alloc,
        Form::Constrained,
        sides,
        heights.items(),
        columns.items(),
        lines.items(),
        names,
    )
}
