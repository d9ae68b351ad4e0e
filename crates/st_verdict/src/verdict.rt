//! Whether the graph of a file is a planar st-graph, and why it isn't, in the names of the file.
ghost use Rattle.std.specs.Prelude.{◌≡◌, ◌<◌, ℕ, length, map, slice_index, IfOk, Ok};
ghost use Rattle.st_ids.specs.EdgeNumbers.{numbers};
ghost use Rattle.st_map.specs.Orders.{HasNoLoop};
ghost use Rattle.st_test.specs.PolesAnswer.{IsFirstDigraphFault};
ghost use Rattle.st_verdict.specs.Verdict.{HasPoles, HasMap, IsPlanar, IsAccepted, file_vertex_name, file_edge_name};
ghost use Rattle.st_verdict.specs.Stops.{IsStop, StopsAt, Gives};

use st_ids::{EdgeId, NoMemory, VertexId};
use st_input::GraphSpec;
use st_map::{Map, MapFault};
use st_report::{NameList, NotSt, Refusal, Stop};
use st_test::laws::no_loop;
use st_test::{DigraphFault, EmbedFault, Poles, StGraph, poles, test};
use std::alloc::Global;

/// The name of a vertex. O(1).
pub fn name_of_vertex(spec: &GraphSpec, v: VertexId) -> i64
    requires { v.0 < spec.now.graph.vertices }
    ensures { result ≡ file_vertex_name spec.now v.0 }
{
    *spec.names().vertex.get(v)
}

/// The name of an edge. O(1).
pub fn name_of_edge(spec: &GraphSpec, e: EdgeId) -> i64
    requires { e.0 < length spec.now.graph.ends }
    ensures { result ≡ file_edge_name spec.now e.0 }
{
    *spec.names().edge.get(e)
}

// The names of edges.
fn edge_names(alloc: Global, spec: &GraphSpec, edges: &[EdgeId]) -> Result<NameList, NoMemory>
    requires { (i : ℕ) → i < length edges.now → slice_index (numbers edges.now) i < length spec.now.graph.ends }
    ensures { IfOk result (λ names. names ≡ map (file_edge_name spec.now) (numbers edges.now)) }
{
    let mut names = NameList::new(alloc);
    for i in 0..edges.len() {
        names.push(name_of_edge(spec, edges[i]))?;
    }
    Ok(names)
}

// What is told of a fault of the digraph.
fn digraph_stop(alloc: Global, spec: &GraphSpec, fault: DigraphFault) -> Stop
    requires { IsFirstDigraphFault spec.now.graph fault }
    ensures { IsStop (HasPoles spec.now) result }
{
    let why = match fault {
        DigraphFault::TooFew { n } => NotSt::TooFew { n },
        DigraphFault::Cycle { edges } => match edge_names(alloc, spec, edges.items()) {
            Ok(edges) => NotSt::Cycle { edges },
            Err(NoMemory) => return Stop::NoMemory,
        },
        DigraphFault::Sources {
            first,
            second,
            count,
        } => NotSt::Sources {
            first: name_of_vertex(spec, first),
            second: name_of_vertex(spec, second),
            count,
        },
        DigraphFault::Sinks {
            first,
            second,
            count,
        } => NotSt::Sinks {
            first: name_of_vertex(spec, first),
            second: name_of_vertex(spec, second),
            count,
        },
        DigraphFault::NoMemory => return Stop::NoMemory,
    };
    Stop::Refused(Refusal::NotSt(why))
}

// The poles of the graph, or the first of the four tests on the digraph that it fails.
fn poles_of(alloc: Global, spec: &GraphSpec) -> Result<Poles, Stop>
    ensures ok { IfOk result (λ p. HasPoles spec.now (Ok p)) }
    ensures err { StopsAt (HasPoles spec.now) result }
{
    match poles(alloc, spec.graph()) {
        Ok(found) => Ok(found),
        Err(fault) => Err(digraph_stop(alloc, spec, fault)),
    }
}

/// The rotation map of the graph's orders, or the first vertex whose order lists the wrong edges.
///
/// Errors: `NotSt` with `BadOrder`, `NoMemory`.
/// Cost: that of `Map::from_orders`.
pub fn map_of(alloc: Global, spec: &GraphSpec) -> Result<Map, Stop>
    requires { HasNoLoop spec.now.graph }
    ensures ok { IfOk result (λ m. HasMap spec.now (Ok m.graph)) }
    ensures spare { IfOk result (λ m. m.spare ≡ 0) }
    ensures err { StopsAt (HasMap spec.now) result }
{
    match Map::from_orders(alloc, spec.graph(), spec.orders()) {
        Ok(map) => Ok(map),
        Err(MapFault::BadOrder { vertex }) => {
            let vertex = name_of_vertex(spec, vertex);
            Err(Stop::Refused(Refusal::NotSt(NotSt::BadOrder { vertex })))
        }
        Err(MapFault::NoMemory) => Err(Stop::NoMemory),
    }
}

// The planar st-graph of the map, or the first of the two tests on the embedding that it fails.
fn planar_of(alloc: Global, spec: &GraphSpec, poles: Poles, map: Map) -> Result<StGraph, Stop>
    requires poles { HasPoles spec.now (Ok poles) }
    requires map { HasMap spec.now (Ok map.graph) }
    requires spare { map.spare ≡ 0 }
    ensures ok { IfOk result (λ st. IsPlanar spec.now poles map.graph (Ok st)) }
    ensures err { StopsAt (IsPlanar spec.now poles map.graph) result }
{
    match test(alloc, map, poles, spec.outer()) {
        Ok(graph) => Ok(graph),
        Err(EmbedFault::BadFaces { v, e, f }) => Err(Stop::Refused(Refusal::NotSt(NotSt::BadFaces {
            v,
            e,
            f,
        }))),
        Err(
            EmbedFault::Outer {
                misses_source,
                misses_sink,
            },
        ) => Err(Stop::Refused(Refusal::NotSt(NotSt::Outer {
            misses_source,
            misses_sink,
        }))),
        Err(EmbedFault::NoMemory) => Err(Stop::NoMemory),
    }
}

/// The planar st-graph of a file's graph, or the first of the seven tests that it fails.
///
/// Errors: `NotSt` with the evidence in the file's names, `NoMemory`.
/// Cost: O(V + E) time; a rotation map and a table of faces.
pub fn accept(alloc: Global, spec: &GraphSpec) -> Result<StGraph, Stop>
    ensures { Gives (IsAccepted spec.now) result }
{
    let poles = match poles_of(alloc, spec) {
        Ok(poles) => poles,
        Err(stop) => return Err(stop),
    };
    // Without a cycle no edge is a loop, which a map asks for.
    no_loop();
    let map = match map_of(alloc, spec) {
        Ok(map) => map,
        Err(stop) => return Err(stop),
    };
    planar_of(alloc, spec, poles, map)
}
