//! The file of an orientation: the graph of a file with some edges turned, so that it is a planar st-graph from one
//! vertex to another.
ghost use Rattle.std.specs.Prelude.{◌≡◌, ◌≢◌, ◌*◌, ◌<◌, length, IfOk, Ok};
ghost use Rattle.gml_core.specs.Printing.{printed};
ghost use Rattle.gml_core.specs.Sound.{IsSound};
ghost use Rattle.st_input.specs.WithEnds.{with_ends};
ghost use Rattle.st_input.specs.Writable.{IsWritable};
ghost use Rattle.st_writer.specs.Written.{written_entries};
ghost use Rattle.st_map.specs.Orders.{HasNoLoop};
ghost use Rattle.st_verdict.specs.Stops.{Gives, IsStop};
ghost use Rattle.st_verdict.specs.Verdict.{HasMap};
ghost use Rattle.stdraw_core.specs.Oriented.{AnswersGraphOriented, AnswersPlane, AnswersPoles, ArePolesNamed, AreTwo, IsLoopless, IsThere, TellsAt};

use crate::query::unknown;
use gml_core::print;
use st_bipolar::{Directed, OrientFault, direct};
use st_ids::{Dart, Digraph, EdgeId, NoMemory, Text};
use st_input::GraphSpec;
use st_map::Map;
use st_report::{NoOrientation, NotSt, Refusal, Stop};
use st_test::Poles;
use st_verdict::{map_of, name_of_edge, name_of_vertex};
use st_writer::written_tree;
use std::alloc::Global;

// The vertices of the two names.
fn poles_named(spec: &GraphSpec, from: i64, to: i64) -> Result<Poles, Stop>
    ensures gives { Gives (ArePolesNamed from to spec.now) result }
    ensures source { IfOk result (λ p. p.source.0 < spec.now.graph.vertices) }
    ensures sink { IfOk result (λ p. p.sink.0 < spec.now.graph.vertices) }
{
    let Some(source) = spec.vertex_of(from) else {
        return Err(unknown(from));
    };
    let Some(sink) = spec.vertex_of(to) else {
        return Err(unknown(to));
    };
    Ok(Poles { source, sink })
}

// Whether the poles are two vertices.
fn are_two(poles: Poles) -> Result<(), Stop>
    ensures { Gives (AreTwo poles) result }
{
    if poles.source.0 == poles.sink.0 {
        return Err(Stop::Refused(Refusal::NoOrientation(NoOrientation::OnePole)));
    }
    Ok(())
}

// Whether no edge is a loop.
fn loopless(spec: &GraphSpec) -> Result<(), Stop>
    ensures { Gives (IsLoopless spec.now) result }
{
    let graph = spec.graph();
    for e in 0..graph.edges() {
        if graph.tail(EdgeId(e)).0 == graph.head(EdgeId(e)).0 {
            let edge = name_of_edge(spec, EdgeId(e));
            return Err(Stop::Refused(Refusal::NoOrientation(NoOrientation::Loop { edge })));
        }
    }
    Ok(())
}

// What is told of a fault, in the names of the file.
fn fault_stop(spec: &GraphSpec, fault: OrientFault) -> Stop
    requires { IsThere spec.now fault }
    ensures { IsStop (TellsAt spec.now fault) result }
{
    let refusal = match fault {
        OrientFault::Apart { vertex } => {
            let vertex = name_of_vertex(spec, vertex);
            Refusal::NoOrientation(NoOrientation::Apart { vertex })
        }
        OrientFault::BadFaces { v, e, f } => Refusal::NotSt(NotSt::BadFaces { v, e, f }),
        OrientFault::Outer {
            misses_source,
            misses_sink,
        } => Refusal::NotSt(NotSt::Outer {
            misses_source,
            misses_sink,
        }),
        OrientFault::Cut { cut, apart } => {
            let cut = name_of_vertex(spec, cut);
            let apart = name_of_vertex(spec, apart);
            Refusal::NoOrientation(NoOrientation::Cut { cut, apart })
        }
        OrientFault::NoMemory => return Stop::NoMemory,
    };
    Stop::Refused(refusal)
}

// The printed form of the tree of an orientation: the graph with these edges, and with the outer face of this end.
fn file_of(alloc: Global, spec: GraphSpec, graph: Digraph, outer: Dart) -> Result<Text, NoMemory>
    requires writable { IsWritable spec }
    requires vertices { graph.vertices ≡ spec.graph.vertices }
    requires edges { length graph.ends ≡ length spec.graph.ends }
    requires outer { outer.0 < 2 * length graph.ends }
    ensures text { IfOk result (λ out. out ≡ printed (written_entries (with_ends spec graph outer.0))) }
    ensures sound { IfOk result (λ _. IsSound (written_entries (with_ends spec graph outer.0))) }
{
    let made = spec.with_ends(alloc, graph, outer);
    let tree = written_tree(alloc, &made)?;
    print(alloc, &tree)
}

// The file of an orientation, or the first fault of the map.
fn plane_answer(alloc: Global, spec: GraphSpec, poles: Poles, map: Map) -> Result<Text, Stop>
    requires writable { IsWritable spec }
    requires two { poles.source.0 ≢ poles.sink.0 }
    requires source { poles.source.0 < spec.graph.vertices }
    requires sink { poles.sink.0 < spec.graph.vertices }
    requires no_loop { HasNoLoop spec.graph }
    requires map { HasMap spec (Ok map.graph) }
    ensures { Gives (AnswersPlane spec poles map.graph) result }
{
    let directed = match direct(alloc, &map, poles.source, poles.sink, spec.outer()) {
        Ok(directed) => directed,
        Err(fault) => return Err(fault_stop(&spec, fault)),
    };
    drop(map);
    let Directed { graph, outer, .. } = directed;
    match file_of(alloc, spec, graph, outer) {
        Ok(text) => Ok(text),
        Err(NoMemory) => Err(Stop::NoMemory),
    }
}

// What is answered about the graph and its poles.
fn poles_answer(alloc: Global, spec: GraphSpec, poles: Poles) -> Result<Text, Stop>
    requires writable { IsWritable spec }
    requires source { poles.source.0 < spec.graph.vertices }
    requires sink { poles.sink.0 < spec.graph.vertices }
    ensures { Gives (AnswersPoles spec poles) result }
{
    match are_two(poles) {
        Ok(()) => {}
        Err(stop) => return Err(stop),
    }
    match loopless(&spec) {
        Ok(()) => {}
        Err(stop) => return Err(stop),
    }
    let map = match map_of(alloc, &spec) {
        Ok(map) => map,
        Err(stop) => return Err(stop),
    };
    plane_answer(alloc, spec, poles, map)
}

/// The file of an orientation of the graph with these poles, or the first reason why there is none.
///
/// Errors: `UnknownVertex`, `NoOrientation`, `NotSt`, `NoMemory`.
/// Cost: O(V + E) time and memory, and the text. Not proved.
pub fn answer_orient(alloc: Global, spec: GraphSpec, from: i64, to: i64) -> Result<Text, Stop>
    requires writable { IsWritable spec }
    ensures { Gives (AnswersGraphOriented from to spec) result }
{
    let poles = match poles_named(&spec, from, to) {
        Ok(poles) => poles,
        Err(stop) => return Err(stop),
    };
    poles_answer(alloc, spec, poles)
}
