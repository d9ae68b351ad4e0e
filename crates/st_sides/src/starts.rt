//! Where the runs of ends out begin, round each vertex and along each face.
ghost use Rattle.std.specs.Prelude.{◌≡◌, ◌<◌, ◌↔◌, true, false, length, replicate, IfOk, IsTrue};
ghost use Rattle.st_ids.specs.Ends.{is_out};
ghost use Rattle.st_map.specs.Embedded.{darts, face};
ghost use Rattle.st_test.specs.FaceNumbers.{orbit_number};
ghost use Rattle.st_sides.specs.Filled.{AreStarts, key, keys};

use crate::runs::step;
use st_ids::{Dart, NoMemory};
use st_test::StGraph;
use std::alloc::Global;

/// The number of the end's face, or its vertex.
fn key_of(graph: &StGraph, face: bool, d: Dart) -> u32
    requires { d.0 < darts graph.now.map.graph }
    ensures value { result ≡ key graph.now.map.graph face d.0 }
    ensures within { result < keys graph.now.map.graph face }
{
    let map = graph.map();
    if face {
        graph.faces().orbit(d).0
    } else {
        map.vertex_of(d).0
    }
}

/// How many faces or vertices there are.
fn count_keys(graph: &StGraph, face: bool) -> u32
    ensures { result ≡ keys graph.now.map.graph face }
{
    if face {
        graph.faces().count()
    } else {
        graph.map().vertices()
    }
}

/// Whether an end in is followed by an end out.
fn turns(d: Dart, to: Dart) -> bool
    ensures { IsTrue result ↔ ((is_out d.0 ≡ false) × (is_out to.0 ≡ true)) }
{
    !d.is_out() && to.is_out()
}

/// For each face, or each vertex, an end out that follows an end in, where there is one.
pub(crate) fn list_starts(alloc: Global, graph: &StGraph, face: bool) -> Result<Vec<u32>, NoMemory>
    ensures { IfOk result (λ v. AreStarts graph.now.map.graph face (darts graph.now.map.graph) v.items) }
{
    let mut starts = Vec::new(alloc);
    if starts.resize(count_keys(graph, face) as usize, 0).is_err() {
        return Err(NoMemory);
    }
    let map = graph.map();
    for d in 0..2 * map.edges() {
        let to = step(map, face, Dart(d));
        if turns(Dart(d), to) {
            starts[key_of(graph, face, to) as usize] = to.0;
        }
    }
    Ok(starts)
}
