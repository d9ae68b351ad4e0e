//! An undirected plane graph made a planar st-graph, by turning some of its edges round.
ghost use Rattle.std.specs.Prelude.{◌≡◌, ◌≢◌, ◌+◌, ◌<◌, ◌^◌, length, IfOk, IfErr, IfSome};
ghost use Rattle.st_map.specs.Embedded.{Embedded, Touches, bare, darts, edges, faces};
ghost use Rattle.st_map.specs.Orders.{HasNoLoop};
ghost use Rattle.st_test.specs.Planar.{IsPlanarSt, outer_of};
ghost use Rattle.st_bipolar.specs.Orientation.{IsOrientation, IsTurned, turned_end};
ghost use Rattle.st_ids.specs.Undirected.{IsConnected};
ghost use Rattle.st_bipolar.specs.OrientFault.{IsOrientFault};
ghost use Rattle.st_bipolar.specs.Turning.{is_turned, with_lists};

use crate::faults::{first_apart, first_cut};
use crate::numbering::st_numbering;
use crate::searching::search;
use crate::turning::{Directed, turn, turned_map};
use st_ids::{Dart, EdgeId, IdVec, NoMemory, VertexId};
use st_map::Map;
use st_map::laws::rotation;
use st_test::{EmbedFault, Poles, StGraph, faces as number_faces, outer_end, test, touches};
use std::alloc::{AllocError, Global};
use thiserror::Error;

/// Why no edges of a plane graph can be turned so that it is a planar st-graph: the first fault.
#[derive(Clone, Copy, Debug, PartialEq, Eq, Error)]
pub enum OrientFault {
    /// No undirected walk joins the vertex to the source. It is the first such vertex.
    #[error("vertex {} is apart", .vertex.0)]
    Apart {
        vertex: VertexId,
    },
    /// `v - e + f` isn't 2, so the lists of the ends are no planar embedding.
    #[error("{v} vertices, {e} edges, {f} faces")]
    BadFaces {
        v: u32,
        e: u32,
        f: u32,
    },
    /// The outer face has no end at the source, or none at the sink, or neither.
    #[error("outer face misses a pole")]
    Outer {
        misses_source: bool,
        misses_sink: bool,
    },
    /// Each undirected walk from `apart` to a pole goes through `cut`. It is the first such `cut`, and for it the first
    /// such `apart`.
    #[error("vertex {} cuts off vertex {}", .cut.0, .apart.0)]
    Cut {
        cut: VertexId,
        apart: VertexId,
    },
    /// Memory ran out.
    #[error("no memory")]
    NoMemory,
}

impl From<AllocError> for OrientFault {
    ghost use Rattle.std.specs.Prelude.{◌≡◌};
    ghost use Rattle.st_bipolar.specs.declared.orienting.OrientFault.{OrientFault};
    ghost use Rattle.st_bipolar.specs.declared.orienting.OrientFault.TheVariants.{NoMemory as no_memory};

    ghost from_gives = { λ _ e. e ≡ no_memory };

    fn from(_e: AllocError) -> OrientFault {
        OrientFault::NoMemory
    }
}

impl From<NoMemory> for OrientFault {
    ghost use Rattle.std.specs.Prelude.{◌≡◌};
    ghost use Rattle.st_bipolar.specs.declared.orienting.OrientFault.{OrientFault};
    ghost use Rattle.st_bipolar.specs.declared.orienting.OrientFault.TheVariants.{NoMemory as no_memory};

    ghost from_gives = { λ _ e. e ≡ no_memory };

    fn from(_e: NoMemory) -> OrientFault {
        OrientFault::NoMemory
    }
}

/// A planar st-graph that was made from a map, and which of the map's edges were turned.
#[derive(Drop)]
pub struct Oriented {
    pub graph: StGraph,
    pub turned: IdVec<EdgeId, bool>,
}

/// The planar st-graph of a map that is known to be one.
fn known(alloc: Global, map: Map, poles: Poles, outer: Dart) -> Result<StGraph, NoMemory>
    requires { IsPlanarSt map.graph poles.source.0 poles.sink.0 outer.0 }
    ensures { IfOk result (λ g. g ≡
        record { map = map; source = poles.source.0; sink = poles.sink.0; outer = outer.0 }) }
{
    match test(alloc, map, poles, Some(outer)) {
        Ok(graph) => Ok(graph),
        Err(EmbedFault::NoMemory) => Err(NoMemory),
        Err(EmbedFault::BadFaces { v: _, e: _, f: _ }) => unreachable!(),
        Err(
            EmbedFault::Outer {
                misses_source: _,
                misses_sink: _,
            },
        ) => unreachable!(),
    }
}

/// The end that names the outer face, where Euler's formula holds and both poles are on that face.
fn outer_face(
    alloc: Global,
    map: &Map,
    s: VertexId,
    t: VertexId,
    outer: Option<Dart>,
) -> Result<Dart, OrientFault>
    requires source { s.0 < map.now.graph.vertices }
    requires sink { t.0 < map.now.graph.vertices }
    requires poles { s.0 ≢ t.0 }
    requires there { IfSome outer (λ d. d.0 < darts map.now.graph) }
    requires connected { IsConnected (bare map.now.graph) s.0 }
    ensures value { IfOk result (λ d. d.0 ≡ outer_of map.now.graph s.0 outer) }
    ensures within { IfOk result (λ d. d.0 < darts map.now.graph) }
    ensures euler { IfOk result (λ _. map.now.graph.vertices + faces map.now.graph ≡ edges map.now.graph + 2) }
    ensures outer_s { IfOk result (λ d. Touches map.now.graph d.0 s.0) }
    ensures outer_t { IfOk result (λ d. Touches map.now.graph d.0 t.0) }
    ensures fault { IfErr result (IsOrientFault map.now.graph s.0 t.0 (outer_of map.now.graph s.0 outer)) }
{
    let found = number_faces(alloc, map)?;
    let (v, e, f) = (map.vertices(), map.edges(), found.count());
    if v + f != e + 2 {
        return Err(OrientFault::BadFaces { v, e, f });
    }
    let end = outer_end(map, s, outer);
    let misses_source = !touches(map, &found, end, s);
    let misses_sink = !touches(map, &found, end, t);
    if misses_source || misses_sink {
        return Err(OrientFault::Outer {
            misses_source,
            misses_sink,
        });
    }
    Ok(end)
}

/// Turns some of the edges so that the map's lists make them a planar st-graph with source s and sink t, or names the
/// first fault that forbids it. The outer face is that of the end `outer`, else that of the first end in the order of s.
/// Each edge keeps its number. It is `orient` for a caller that needs no map.
///
/// Errors: the first fault, in the order of the variants; `NoMemory`.
/// Cost: O(V + E) time. Not proved.
pub fn direct(
    alloc: Global,
    map: &Map,
    s: VertexId,
    t: VertexId,
    outer: Option<Dart>,
) -> Result<Directed, OrientFault>
    requires source { s.0 < map.now.graph.vertices }
    requires sink { t.0 < map.now.graph.vertices }
    requires poles { s.0 ≢ t.0 }
    requires no_loop { HasNoLoop (bare map.now.graph) }
    requires there { IfSome outer (λ d. d.0 < darts map.now.graph) }

    // The digraph with the map's lists is an orientation, and so is each graph with these edges turned.
    ensures orientation { IfOk result (λ d. IsOrientation map.now.graph s.0 t.0 (outer_of map.now.graph s.0 outer)
        (is_turned d.turned) (with_lists map.now.graph (is_turned d.turned) d.graph)) }
    ensures each { IfOk result (λ d. (h : Embedded) → IsTurned map.now.graph h (is_turned d.turned)
        → IsOrientation map.now.graph s.0 t.0 (outer_of map.now.graph s.0 outer) (is_turned d.turned) h) }

    ensures outer { IfOk result (λ d. d.outer.0 ≡ turned_end (is_turned d.turned) (outer_of map.now.graph s.0 outer)) }
    ensures size { IfOk result (λ d. length d.turned ≡ edges map.now.graph) }
    ensures fault { IfErr result (IsOrientFault map.now.graph s.0 t.0 (outer_of map.now.graph s.0 outer)) }
{
    rotation(map);
    let visit = search(alloc, map, s, t)?;
    if let Some(vertex) = first_apart(alloc, map, &visit)? {
        return Err(OrientFault::Apart {
            vertex: VertexId(vertex),
        });
    }
    let end = match outer_face(alloc, map, s, t, outer) {
        Ok(end) => end,
        Err(fault) => return Err(fault),
    };
    if let Some(off) = first_cut(alloc, map, &visit)? {
        return Err(OrientFault::Cut {
            cut: VertexId(off.cut),
            apart: VertexId(off.apart),
        });
    }
    let numbers = st_numbering(alloc, map, &visit)?;
    let directed = turn(alloc, map, &numbers, end)?;
    Ok(directed)
}

/// Turns some of the edges so that the map is a planar st-graph with source s and sink t, or names the first fault
/// that forbids it. The outer face is that of the end `outer`, else that of the first end in the order of s. Each edge
/// keeps its number, and each vertex the order of its edges.
///
/// Errors: the first fault, in the order of the variants; `NoMemory`. The map is given up then.
/// Cost: O(V + E) time. Not proved.
pub fn orient(
    alloc: Global,
    map: Map,
    s: VertexId,
    t: VertexId,
    outer: Option<Dart>,
) -> Result<Oriented, OrientFault>
    requires source { s.0 < map.graph.vertices }
    requires sink { t.0 < map.graph.vertices }
    requires poles { s.0 ≢ t.0 }
    requires no_loop { HasNoLoop (bare map.graph) }
    requires there { IfSome outer (λ d. d.0 < darts map.graph) }
    ensures orientation { IfOk result (λ o.
        IsOrientation map.graph s.0 t.0 (outer_of map.graph s.0 outer) (is_turned o.turned) o.graph.map.graph) }
    ensures source { IfOk result (λ o. o.graph.source ≡ s.0) }
    ensures sink { IfOk result (λ o. o.graph.sink ≡ t.0) }
    ensures outer { IfOk result (λ o. o.graph.outer ≡ turned_end (is_turned o.turned) (outer_of map.graph s.0 outer)) }
    ensures size { IfOk result (λ o. length o.turned ≡ edges map.graph) }
    ensures fault { IfErr result (IsOrientFault map.graph s.0 t.0 (outer_of map.graph s.0 outer)) }
{
    let found = match direct(alloc, &map, s, t, outer) {
        Ok(found) => found,
        Err(fault) => return Err(fault),
    };
    let made = turned_map(alloc, &map, &found)?;
    let Directed {
        outer: end,
        turned,
        ..
    } = found;
    let poles = Poles { source: s, sink: t };
    let graph = known(alloc, made, poles, end)?;
    Ok(Oriented { graph, turned })
}
