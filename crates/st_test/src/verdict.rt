//! The two tests of an embedding: Euler's formula, and both poles on the outer face.
ghost use Rattle.std.specs.Prelude.{◌≡◌, ◌⊎◌, ◌↔◌, ◌+◌, ◌*◌, ◌<◌, ℕ, IfOk, IfErr, IfSome, IsTrue};
ghost use Rattle.st_map.specs.Embedded.{Touches, at, bare, darts, edges, faces};
ghost use Rattle.st_map.specs.Orders.{IsEdgeAt};
ghost use Rattle.st_test.specs.FaceNumbers.{AreFaces, orbit_number};
ghost use Rattle.st_test.specs.Planar.{IsPlanarSt, outer_of};
ghost use Rattle.st_test.specs.Poles.{ArePoles};
ghost use Rattle.st_test.specs.Verdict.{IsEmbedFault};

use crate::digraph_fault::Poles;
use crate::graph::StGraph;
use crate::orbits::Faces;
use crate::tracing::faces;
use st_ids::{Dart, NoMemory, OrbitId, VertexId};
use st_map::Map;
use std::alloc::Global;
use thiserror::Error;

/// The first of the tests on an embedding that fails, with its evidence.
#[derive(Clone, Copy, Debug, PartialEq, Eq, Error)]
pub enum EmbedFault {
    /// `v - e + f` isn't 2, so the lists of the ends are no planar embedding of a connected graph.
    #[error("{v} vertices, {e} edges, {f} faces")]
    BadFaces {
        v: u32,
        e: u32,
        f: u32,
    },
    /// The outer face has no end at the source, or none at the sink, or neither.
    #[error("outer face misses a pole")]
    Outer {
        misses_source: bool,
        misses_sink: bool,
    },
    /// Memory ran out.
    #[error("no memory")]
    NoMemory,
}

impl From<NoMemory> for EmbedFault {
    ghost use Rattle.std.specs.Prelude.{◌≡◌};
    ghost use Rattle.st_test.specs.declared.verdict.EmbedFault.{EmbedFault};
    ghost use Rattle.st_test.specs.declared.verdict.EmbedFault.TheVariants.{NoMemory as no_memory};

    ghost from_gives = { λ _ e. e ≡ no_memory };

    fn from(_e: NoMemory) -> EmbedFault {
        EmbedFault::NoMemory
    }
}

/// Whether the end is in the face and at v.
fn is_on(map: &Map, faces: &Faces, face: OrbitId, d: Dart, v: VertexId) -> bool
    requires faces { AreFaces map.now.graph faces.now }
    requires there { d.0 < darts map.now.graph }
    ensures { IsTrue result ↔ ((orbit_number map.now.graph d.0 ≡ face.0) × (at map.now.graph d.0 ≡ v.0)) }
{
    faces.orbit(d).0 == face.0 && map.vertex_of(d).0 == v.0
}

/// Whether the face of an end has an end at v.
pub fn touches(map: &Map, faces: &Faces, outer: Dart, v: VertexId) -> bool
    requires faces { AreFaces map.now.graph faces.now }
    requires there { outer.0 < darts map.now.graph }
    ensures { IsTrue result ↔ Touches map.now.graph outer.0 v.0 }
{
    let face = faces.orbit(outer);
    for d in 0..2 * map.edges() {
        if is_on(map, faces, face, Dart(d), v) {
            return true;
        }
    }
    false
}

/// The end that names the outer face.
pub fn outer_end(map: &Map, source: VertexId, outer: Option<Dart>) -> Dart
    requires there { IfSome outer (λ d. d.0 < darts map.now.graph) }
    requires source { source.0 < map.now.graph.vertices }
    requires edge { (e : ℕ) × IsEdgeAt map.now.graph.ends source.0 e }
    ensures value { result.0 ≡ outer_of map.now.graph source.0 outer }
    ensures within { result.0 < darts map.now.graph }
{
    match outer {
        Some(d) => d,
        None => map.at(source).unwrap(),
    }
}

/// The planar st-graph of a map with these poles, or the first of the two tests that it fails. The outer face is that
/// of the end `outer`, else that of the first end in the order of the source.
///
/// Errors: `BadFaces` exactly where `v - e + f` isn't 2; else `Outer` exactly where the outer face misses a pole;
/// `NoMemory`. The map is given up then.
/// Cost: O(V + E) time and one table of the ends. Not proved.
pub fn test(
    alloc: Global,
    map: Map,
    poles: Poles,
    outer: Option<Dart>,
) -> Result<StGraph, EmbedFault>
    requires poles { ArePoles (bare map.graph) poles.source.0 poles.sink.0 }
    requires there { IfSome outer (λ d. d.0 < darts map.graph) }
    ensures graph { IfOk result (λ g. g ≡ record { map = map; source = poles.source.0; sink = poles.sink.0; outer = outer_of map.graph poles.source.0 outer }) }
    ensures planar { IfOk result (λ _. IsPlanarSt map.graph poles.source.0 poles.sink.0 (outer_of map.graph poles.source.0 outer)) }
    ensures fault { IfErr result (IsEmbedFault map.graph poles.source.0 poles.sink.0 (outer_of map.graph poles.source.0 outer)) }
{
    let found = faces(alloc, &map)?;
    let (v, e, f) = (map.vertices(), map.edges(), found.count());
    if v + f != e + 2 {
        return Err(EmbedFault::BadFaces { v, e, f });
    }
    let end = outer_end(&map, poles.source, outer);
    let misses_source = !touches(&map, &found, end, poles.source);
    let misses_sink = !touches(&map, &found, end, poles.sink);
    if misses_source || misses_sink {
        return Err(EmbedFault::Outer {
            misses_source,
            misses_sink,
        });
    }
    Ok(StGraph::of(map, found, poles, end))
}
