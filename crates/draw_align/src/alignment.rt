//! The alignment graph, whose greatest weights of walks are the columns.
ghost use Rattle.std.specs.Prelude.{◌≡◌, ◌+◌, ◌<◌, ◌≤◌, ◌^◌, length, slice_index, IfOk, OnOk};
ghost use Rattle.st_ids.specs.declared.limits.TheConstants.{MOST_COORDINATE};
ghost use Rattle.draw_align.specs.Built.{AreArcWeights, AreNodeColumns, HasHomes, IsBuilt, arc_from, arc_to};
ghost use Rattle.draw_align.specs.Homes.{HasPaths};
ghost use Rattle.draw_align.specs.Listed.{AreSound};
ghost use Rattle.st_sides.specs.Sides.{edge_count};

use crate::homes::Homes;
use st_ids::{Digraph, EdgeId, IdVec, NoMemory, PathList, VertexId};
use st_number::pass;
use st_sides::{Sides, laws};
use st_test::topological_order;
use std::alloc::Global;

/// The node of the path of edge e.
pub(crate) fn path_node(sides: &Sides, homes: &IdVec<EdgeId, u32>, n: u32, e: u32) -> VertexId
    requires there { e < edge_count sides.now }
    requires homes { HasHomes sides.now homes.now n }
    ensures value { result.0 ≡ sides.now.t_star + 1 + slice_index homes.now e }
    ensures within { result.0 < n }
{
    VertexId(sides.faces() + *homes.get(EdgeId(e)))
}

/// Where arc a leads from.
fn from_node(sides: &Sides, homes: &IdVec<EdgeId, u32>, n: u32, a: u32) -> VertexId
    requires there { a < edge_count sides.now + edge_count sides.now }
    requires homes { HasHomes sides.now homes.now n }
    ensures value { result.0 ≡ arc_from sides.now homes.now a }
    ensures within { result.0 < n }
{
    if a < sides.edges() {
        VertexId(sides.face_left(EdgeId(a)).0)
    } else {
        path_node(sides, homes, n, a - sides.edges())
    }
}

/// Where arc a leads to.
fn to_node(sides: &Sides, homes: &IdVec<EdgeId, u32>, n: u32, a: u32) -> VertexId
    requires there { a < edge_count sides.now + edge_count sides.now }
    requires homes { HasHomes sides.now homes.now n }
    ensures value { result.0 ≡ arc_to sides.now homes.now a }
    ensures within { result.0 < n }
{
    if a < sides.edges() {
        path_node(sides, homes, n, a)
    } else {
        VertexId(sides.face_right(EdgeId(a - sides.edges())).0)
    }
}

/// The alignment graph, of n nodes.
fn build(
    alloc: Global,
    sides: &Sides,
    homes: &IdVec<EdgeId, u32>,
    n: u32,
) -> Result<Digraph, NoMemory>
    requires homes { HasHomes sides.now homes.now n }
    requires few { n < 2 ^ 30 }
    requires short { edge_count sides.now + edge_count sides.now < 2 ^ 30 }
    ensures { IfOk result (IsBuilt sides.now homes.now n (edge_count sides.now + edge_count sides.now)) }
{
    let mut graph = Digraph::new(alloc);
    graph.add_vertices(n);
    for a in 0..2 * sides.edges() {
        let tail = from_node(sides, homes, n, a);
        let head = to_node(sides, homes, n, a);
        graph.add_edge(tail, head)?;
    }
    Ok(graph)
}

/// The weights of the arcs: those to paths weigh 0, those from paths 1.
fn weights_of(alloc: Global, sides: &Sides) -> Result<IdVec<EdgeId, u32>, NoMemory>
    requires short { edge_count sides.now + edge_count sides.now < 2 ^ 30 }
    ensures { IfOk result (AreArcWeights sides.now (edge_count sides.now + edge_count sides.now)) }
{
    let mut weights = IdVec::new(alloc);
    for a in 0..2 * sides.edges() {
        weights.push(if a < sides.edges() { 0u32 } else { 1u32 })?;
    }
    Ok(weights)
}

/// The column of each node of the alignment graph: those of the dual, and then the paths.
pub(crate) fn columns_of(
    alloc: Global,
    sides: &Sides,
    paths: &PathList,
    homes: &Homes,
) -> Result<IdVec<VertexId, u64>, NoMemory>
    requires sound { AreSound sides.now paths.now (length paths.now) }
    requires few { length paths.now ≤ edge_count sides.now }
    requires wide { edge_count sides.now ≤ MOST_COORDINATE }
    requires paths { HasPaths sides.now paths.now homes.now.table homes.now.count }
    ensures { IfOk result (AreNodeColumns sides.now paths.now homes.now.table homes.now.count) }
{
    sides.facts();
    laws::local(sides);
    let n = sides.faces() + homes.count;
    let graph = build(alloc, sides, &homes.table, n)?;
    let weights = weights_of(alloc, sides)?;
    let order = topological_order(alloc, &graph)?;
    let columns = pass(alloc, &graph, &weights, 1, order.edges())?;
    Ok(columns)
}
