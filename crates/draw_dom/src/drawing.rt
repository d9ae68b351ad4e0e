//! Dominance pictures, from a graph to its picture and points.
ghost use Rattle.std.specs.Prelude.{◌≡◌, ℕ, ◌+◌, ◌<◌, ◌≤◌, ◌^◌, ◌↔◌, length, slice_get, IfOk};
ghost use Rattle.draw_dom.specs.Points.{IsPointAtMost};
ghost use Rattle.draw_dom.specs.Shown.{AreDominancePoints, IsDominanceOf};
ghost use Rattle.draw_dom.specs.Splitting.{IsSplitLayout};
ghost use Rattle.st_ids.specs.Graph.{arcs_of};
ghost use Rattle.st_ids.specs.declared.limits.TheConstants.{MOST_COORDINATE};
ghost use Rattle.st_ids.specs.Walks.{Reaches};
ghost use Rattle.st_map.specs.Embedded.{bare};
ghost use Rattle.st_picture.specs.Drawn.{IsDrawn};
ghost use Rattle.st_picture.specs.Naming.{AreNames};
ghost use Rattle.st_reduce.specs.Marks.{dummy_numbers};
ghost use Rattle.st_sides.specs.Sides.{edge_count};
ghost use Rattle.st_sides.specs.SidesOf.{IsSidesOf};

use crate::compaction::compact;
use crate::items::points_and_lines;
use crate::splitting::split_labels;
use crate::{shown, table};
use st_ids::{IdVec, Names, NoMemory, VertexId};
use st_reduce::{Dummies, find_dummies};
use st_shape::Point;
use st_sides::{Sides, laws};
use st_test::StGraph;
use st_test::laws::planar_st;
use std::alloc::Global;

/// The dummies of a graph, and the compact point of each vertex of its reduced graph.
#[derive(Drop)]
struct Layout {
    dummies: Dummies,
    points: table::Compact,
}

/// The dummies of the graph, and the compact point of each vertex of its reduced graph. The graph is given up first.
fn laid(alloc: Global, graph: StGraph, sides: &Sides) -> Result<Layout, NoMemory>
    requires sides { IsSidesOf graph.map.graph graph.source graph.sink graph.outer sides.now }
    requires few { sides.now.vertices + edge_count sides.now ≤ MOST_COORDINATE }
    ensures { IfOk result (λ l. IsSplitLayout graph.map.graph graph.source graph.sink graph.outer (dummy_numbers l.dummies.of_edges) l.points) }
{
    planar_st(&graph);
    laws::value_exists();
    drop(graph);
    let dummies = find_dummies(alloc, sides)?;
    let labels = split_labels(alloc, sides, &dummies)?;
    let points = compact(alloc, &labels)?;
    Ok(Layout { dummies, points })
}

/// The points of the first n vertices.
fn first_points(
    alloc: Global,
    points: &table::Compact,
    n: u32,
) -> Result<IdVec<VertexId, Point>, NoMemory>
    requires there { n ≤ length points.now }
    requires few { n < 2 ^ 30 }
    ensures size { IfOk result (λ first. length first ≡ n) }
    ensures each { IfOk result (λ first. (v : ℕ) → v < n → slice_get first v ≡ slice_get points.now v) }
{
    let mut first = IdVec::with_capacity(alloc, n)?;
    for v in 0..n {
        first.push(points.point(VertexId(v)))?;
    }
    Ok(first)
}

/// The point of each vertex in the dominance picture of the graph, without the picture: no item is made.
///
/// One vertex reaches another exactly where its point is at most the other's, as `reaches_by` tells.
///
/// Conditions: the sides are those of the graph, and there are at most `MOST_COORDINATE` vertices and edges together.
/// Errors: `NoMemory`. The graph is given up then.
/// Cost: O(V + E) time, and memory for the points and numbers of the reduced graph. Not proved.
pub fn dominance_points(
    alloc: Global,
    graph: StGraph,
    sides: &Sides,
) -> Result<IdVec<VertexId, Point>, NoMemory>
    requires sides { IsSidesOf graph.map.graph graph.source graph.sink graph.outer sides.now }
    requires few { sides.now.vertices + edge_count sides.now ≤ MOST_COORDINATE }

    ensures points { IfOk result (AreDominancePoints graph.map.graph graph.source graph.sink graph.outer sides.now) }
    ensures size { IfOk result (λ points. length points ≡ graph.map.graph.vertices) }
    ensures reaching { IfOk result (λ points. (u v : ℕ) → u < graph.map.graph.vertices → v < graph.map.graph.vertices → Reaches (arcs_of (bare graph.map.graph)) u v ↔ IsPointAtMost points u v) }
{
    planar_st(&graph);
    laws::local(sides);
    let layout = laid(alloc, graph, sides)?;
    let points = first_points(alloc, &layout.points, sides.vertices())?;
    Ok(points)
}

/// The dominance picture, and the point of each vertex. A vertex is a dot at its compact point in the reduced graph, in which
/// each transitive edge is split by a dummy; an edge is the straight line between its dots, and a transitive edge goes by the
/// point of its dummy, which stays a point of the line where it lies straight between. A label stands at its dot. The items
/// are the vertices, the edges and the labels, in the order of the file. The frame is the point of the sink.
///
/// One vertex reaches another exactly where its point is at most the other's.
///
/// Conditions: the sides are those of the graph, the names are for it, and there are at most `MOST_COORDINATE` vertices and
/// edges together.
/// Errors: `NoMemory`. The graph is given up then.
/// Cost: O(V + E) time, and memory for the points and numbers of the reduced graph beside the picture. Not proved.
pub fn dominance(
    alloc: Global,
    graph: StGraph,
    sides: &Sides,
    names: &Names,
) -> Result<shown::Dominance, NoMemory>
    requires sides { IsSidesOf graph.map.graph graph.source graph.sink graph.outer sides.now }
    requires names { AreNames sides.now names.now }
    requires few { sides.now.vertices + edge_count sides.now ≤ MOST_COORDINATE }

    ensures picture { IfOk result (λ d. IsDominanceOf graph.map.graph graph.source graph.sink graph.outer sides.now names.now d.picture d.points) }
    ensures drawn { IfOk result (λ d. IsDrawn sides.now d.picture) }
    ensures reaching { IfOk result (λ d. (u v : ℕ) → u < graph.map.graph.vertices → v < graph.map.graph.vertices → Reaches (arcs_of (bare graph.map.graph)) u v ↔ IsPointAtMost d.points u v) }
{
    planar_st(&graph);
    laws::local(sides);
    let layout = laid(alloc, graph, sides)?;
    let picture = points_and_lines(
        alloc,
        sides,
        &layout.points,
        &layout.dummies.of_edges,
        names,
    )?;
    let points = first_points(alloc, &layout.points, sides.vertices())?;
    Ok(shown::Dominance { picture, points })
}
