//! The edges out and in at each vertex, from left to right.
ghost use Rattle.std.specs.Prelude.{◌≡◌, ◌≢◌, ◌⊎◌, ◌↔◌, ◌<◌, [], false, IfOk, OnOk, IsTrue};
ghost use Rattle.st_ids.specs.EdgeNumbers.{numbers};
ghost use Rattle.st_map.specs.Embedded.{at, darts};
ghost use Rattle.st_test.specs.FaceNumbers.{orbit_number};
ghost use Rattle.st_sides.specs.Conditions.{AreOuts, AreIns};
ghost use Rattle.st_sides.specs.Filled.{AreStarts, Begins, IsFilled};

use crate::parts::parts;
use crate::starts::list_starts;
use st_ids::{Dart, EdgeId, NoMemory, OrbitId, PathList, VertexId};
use st_test::StGraph;
use std::alloc::Global;

/// Whether the end is in the face and at v.
fn is_on(graph: &StGraph, face: OrbitId, d: Dart, v: VertexId) -> bool
    requires { d.0 < darts graph.now.map.graph }
    ensures { IsTrue result ↔ ((orbit_number graph.now.map.graph d.0 ≡ face.0) × (at graph.now.map.graph d.0 ≡ v.0)) }
{
    let there = graph.map().vertex_of(d);
    graph.faces().orbit(d).0 == face.0 && there.0 == v.0
}

/// Whether the vertex is the source or the sink.
pub(crate) fn is_pole(graph: &StGraph, v: VertexId) -> bool
    ensures { IsTrue result ↔ ((v.0 ≡ graph.now.source) ⊎ (v.0 ≡ graph.now.sink)) }
{
    v.0 == graph.source().0 || v.0 == graph.sink().0
}

/// The end at a pole that is on the outer face: that of the leftmost edge out of the source, or of the rightmost edge into
/// the sink.
fn pole_start(graph: &StGraph, v: VertexId) -> Dart
    requires { (v.0 ≡ graph.now.source) ⊎ (v.0 ≡ graph.now.sink) }
    ensures { Begins graph.now.map.graph graph.now.source graph.now.sink graph.now.outer v.0 result.0 }
{
    let outer = graph.outer();
    let map = graph.map();
    for d in 0..2 * map.edges() {
        if is_on(graph, outer, Dart(d), v) {
            return Dart(d);
        }
    }
    graph.outer_end()
}

/// The end at the vertex where its list begins: that of the leftmost edge out, or at the sink that of the rightmost edge
/// in.
fn star_start(graph: &StGraph, starts: &[u32], v: VertexId) -> Dart
    requires starts { AreStarts graph.now.map.graph false (darts graph.now.map.graph) starts.now }
    requires there { v.0 < graph.now.map.graph.vertices }
    ensures { Begins graph.now.map.graph graph.now.source graph.now.sink graph.now.outer v.0 result.0 }
{
    if is_pole(graph, v) {
        return pole_start(graph, v);
    }
    let _ = graph.map();
    Dart(starts[v.0 as usize])
}

/// Fills the lists with the edges out of the vertex and those into it, from left to right.
fn star(
    graph: &StGraph,
    v: VertexId,
    start: Dart,
    outs: &mut Vec<EdgeId>,
    ins: &mut Vec<EdgeId>,
) -> Result<(), NoMemory>
    requires { Begins graph.now.map.graph graph.now.source graph.now.sink graph.now.outer v.0 start.0 }
    ensures outs { OnOk result (AreOuts graph.now.map.graph graph.now.source graph.now.outer v.0 (numbers outs.new.items)) }
    ensures ins { OnOk result (AreIns graph.now.map.graph graph.now.sink graph.now.outer v.0 (numbers ins.new.items)) }
{
    let _stop = parts(graph.map(), false, start, outs, ins)?;
    Ok(())
}

/// Two lists without paths, with room for n paths of m edges in each.
pub(crate) fn two_lists(alloc: Global, n: u32, m: u32) -> Result<(PathList, PathList), NoMemory>
    ensures { IfOk result (λ r. (r.0 ≡ []) × (r.1 ≡ [])) }
{
    let mut first = PathList::new(alloc);
    let mut second = PathList::new(alloc);
    first.reserve(n, m)?;
    second.reserve(n, m)?;
    Ok((first, second))
}

/// The edges out of each vertex and those into it, from left to right.
pub(crate) fn stars(alloc: Global, graph: &StGraph) -> Result<(PathList, PathList), NoMemory>
    ensures outs { IfOk result (λ r. IsFilled [] (λ v es. AreOuts graph.now.map.graph graph.now.source graph.now.outer v es) graph.now.map.graph.vertices r.0) }
    ensures ins { IfOk result (λ r. IsFilled [] (λ v es. AreIns graph.now.map.graph graph.now.sink graph.now.outer v es) graph.now.map.graph.vertices r.1) }
{
    let starts = list_starts(alloc, graph, false)?;
    let (mut all_outs, mut all_ins) = two_lists(
        alloc,
        graph.map().vertices(),
        graph.map().edges(),
    )?;
    let mut outs = Vec::new(alloc);
    let mut ins = Vec::new(alloc);
    for v in 0..graph.map().vertices() {
        let start = star_start(graph, &starts, VertexId(v));
        star(graph, VertexId(v), start, &mut outs, &mut ins)?;
        all_outs.push_edges(&outs)?;
        all_ins.push_edges(&ins)?;
    }
    Ok((all_outs, all_ins))
}
