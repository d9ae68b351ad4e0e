//! The reduced graph, computed.
ghost use Rattle.std.specs.Prelude.{◌≡◌, ◌+◌, ◌*◌, ◌<◌, ◌≤◌, ◌^◌, true, false, IfOk, None, Some, option_map};
ghost use Rattle.st_map.specs.Counting.{bit};
ghost use Rattle.st_map.specs.Embedded.{edges};
ghost use Rattle.st_map.specs.Split.{split};
ghost use Rattle.st_sides.specs.SidesOf.{IsSidesOf};
ghost use Rattle.st_reduce.specs.Marks.{AreMarks, dummy_numbers, marked_below};
ghost use Rattle.st_reduce.specs.Reduced.{IsReduced, ReducedIs};
ghost use Rattle.st_test.specs.Planar.{IsPlanarSt};

use crate::marks::{count_marks, mark_transitive};
use st_ids::{Dart, EdgeId, IdVec, NoMemory, VertexId};
use st_map::Map;
use st_sides::Sides;
use st_test::{EmbedFault, Poles, StGraph, test};
use std::alloc::Global;

/// A graph whose transitive edges are split, and the new vertex of each edge of the graph that it was made of, if any.
#[derive(Drop)]
pub struct Reduced {
    pub graph: StGraph,
    pub dummy: IdVec<EdgeId, Option<VertexId>>,
}

/// Splits the edge if it is marked, and answers the new vertex.
fn split_if(map: &mut Map, e: EdgeId, marked: bool) -> Option<VertexId>
    requires there { e.0 < edges map.old.graph }
    requires room { marked ≡ true → 1 ≤ map.old.spare }
    ensures plain { marked ≡ false → (option_map (λ w. w.0) result ≡ None) × (map.new.graph ≡ map.old.graph) }
    ensures split { marked ≡ true → (option_map (λ w. w.0) result ≡ Some map.old.graph.vertices) × (map.new.graph ≡ split map.old.graph e.0) }
    ensures spare { map.old.spare ≡ map.new.spare + bit marked }
{
    if !marked {
        return None;
    }
    let (vertex, _) = map.split_edge(e);
    Some(vertex)
}

/// Splits the marked edges one after the other, and answers the new vertex of each edge.
fn split_marked(
    alloc: Global,
    map: &mut Map,
    marks: &IdVec<EdgeId, bool>,
) -> Result<IdVec<EdgeId, Option<VertexId>>, NoMemory>
    requires marks { AreMarks map.old.graph marks.now }
    requires few { edges map.old.graph < 2 ^ 30 }
    requires room { marked_below marks.now (edges map.old.graph) ≤ map.old.spare }
    ensures { IfOk result (λ ds. IsReduced map.old.graph (dummy_numbers ds) map.new.graph) }
{
    let mut dummy: IdVec<EdgeId, Option<VertexId>> = IdVec::with_capacity(alloc, marks.len())?;
    for e in 0..marks.len() {
        let vertex = split_if(map, EdgeId(e), *marks.get(EdgeId(e)));
        dummy.push(vertex)?;
    }
    Ok(dummy)
}

/// The planar st-graph of a map that is known to be one.
fn known(alloc: Global, map: Map, poles: Poles, outer: Dart) -> Result<StGraph, NoMemory>
    requires { IsPlanarSt map.graph poles.source.0 poles.sink.0 outer.0 }
    ensures { IfOk result (λ g. g ≡ record { map = map; source = poles.source.0; sink = poles.sink.0; outer = outer.0 }) }
{
    match test(alloc, map, poles, Some(outer)) {
        Ok(graph) => Ok(graph),
        Err(EmbedFault::NoMemory) => Err(NoMemory),
        Err(EmbedFault::BadFaces { v: _, e: _, f: _ }) => unreachable!(),
        Err(
            EmbedFault::Outer {
                misses_source: _,
                misses_sink: _,
            },
        ) => unreachable!(),
    }
}

/// The reduced graph: each transitive edge, one whose head a walk from its tail reaches without it, ends at a new vertex,
/// and a new edge leads from there to its old head. New vertices and new edges are numbered after the old ones, in the
/// order of the edges. `dummy` has an entry for each old edge, which is `None` exactly where the edge isn't transitive.
/// The result has no transitive edge, and the old vertices reach each other as before.
///
/// Errors: `NoMemory`. The graph is given up then.
/// Cost: O(V + E) time. Not proved.
pub fn reduce(alloc: Global, graph: StGraph, sides: &Sides) -> Result<Reduced, NoMemory>
    requires sides { IsSidesOf graph.map.graph graph.source graph.sink graph.outer sides.now }
    requires room { graph.map.graph.vertices + 2 * edges graph.map.graph < 2 ^ 30 }
    ensures reduced { IfOk result (λ r. IsReduced graph.map.graph (dummy_numbers r.dummy) r.graph.map.graph) }
    ensures law { IfOk result (λ r. ReducedIs graph.map.graph graph.source graph.sink graph.outer (dummy_numbers r.dummy) r.graph.map.graph) }
    ensures poles { IfOk result (λ r. (r.graph.source ≡ graph.source) × (r.graph.sink ≡ graph.sink) × (r.graph.outer ≡ graph.outer)) }
{
    let marks = mark_transitive(alloc, sides)?;
    let poles = Poles {
        source: graph.source(),
        sink: graph.sink(),
    };
    let outer = graph.outer_end();
    let count = count_marks(&marks, graph.map().edges());
    let mut map = graph.into_map();
    map.reserve(count)?;
    let dummy = split_marked(alloc, &mut map, &marks)?;
    let graph = known(alloc, map, poles, outer)?;
    Ok(Reduced { graph, dummy })
}
