//! From the bytes of a file to its planar st-graph, with each cause of a refusal matched.
ghost use Rattle.std.specs.Prelude.{◌≡◌};
ghost use Rattle.st_callers.specs.Accepted.{IsReceived, upload_at, upload_of};

use gml_core::GmlFault;
use st_ids::limits::MOST_BYTES;
use st_input::ShapeFault;
use st_report::{NotSt, Refusal, Stop};
use st_test::StGraph;
use st_verdict::{accept, graph_in};
use std::alloc::Global;

/// What the bytes of a file are.
#[derive(Drop)]
pub enum Upload {
    /// This planar st-graph.
    Graph(StGraph),
    /// No GML text: its first fault, with its place.
    NotGml(GmlFault),
    /// A GML text without a graph, or with a bad one: its first fault.
    NoGraph(ShapeFault),
    /// More bytes than the limit.
    TooLong,
    /// More vertices than the limit: so many.
    TooManyVertices(u32),
    /// More edges than the limit: so many.
    TooManyEdges(u32),
    /// A graph that is no planar st-graph: the first test that it fails, in the names of the file.
    NotPlanar(NotSt),
    /// Not known, since memory ran out.
    NoMemory,
}

// What a file is that is refused.
fn refused(refusal: Refusal) -> Upload
    ensures { result ≡ upload_of refusal }
{
    match refusal {
        Refusal::Gml(fault) => Upload::NotGml(fault),
        Refusal::Shape(ShapeFault::TooManyVertices { n }) => Upload::TooManyVertices(n),
        Refusal::Shape(ShapeFault::TooManyEdges { m }) => Upload::TooManyEdges(m),
        Refusal::Shape(fault) => Upload::NoGraph(fault),
        Refusal::NotSt(why) => Upload::NotPlanar(why),
        _ => Upload::NoMemory,
    }
}

// What a file is at which a call stops.
fn stopped(stop: Stop) -> Upload
    ensures { result ≡ upload_at stop }
{
    match stop {
        Stop::Refused(refusal) => refused(refusal),
        _ => Upload::NoMemory,
    }
}

/// What the bytes of a file are: a planar st-graph, or the first reason why not.
///
/// Cost: O(bytes) time on average.
pub fn received(alloc: Global, bytes: &[u8]) -> Upload
    ensures { IsReceived bytes.now result }
{
    if bytes.len() > MOST_BYTES {
        return Upload::TooLong;
    }
    let graph = match graph_in(alloc, bytes) {
        Ok(graph) => graph,
        Err(stop) => return stopped(stop),
    };
    match accept(alloc, &graph) {
        Ok(graph) => Upload::Graph(graph),
        Err(stop) => stopped(stop),
    }
}
