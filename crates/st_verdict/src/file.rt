//! The tree of a file's bytes, and the graph of a tree.
ghost use Rattle.std.specs.Prelude.{◌<◌, ◌≤◌, ◌^◌, length, IfOk, Ok};
ghost use Rattle.gml_core.specs.Views.{view};
ghost use Rattle.gml_core.specs.Sound.{IsSound};
ghost use Rattle.st_input.specs.InputGraph.{IsConsistent};
ghost use Rattle.st_verdict.specs.File.{IsGraph, IsGraphIn, IsTree};
ghost use Rattle.st_verdict.specs.Stops.{Gives, StopsAt};

use gml_core::{GmlFault, Tree, parse};
use st_ids::limits::{MOST_EDGES, MOST_VERTICES};
use st_input::laws::limits_hold;
use st_input::{GraphSpec, ShapeFault, read_graph};
use st_report::{Refusal, Stop};
use std::alloc::Global;

/// The tree of the bytes, or their first fault.
///
/// Errors: `Gml`, `NoMemory`.
/// Cost: that of `gml_core::parse`.
pub fn tree_of(alloc: Global, bytes: &[u8]) -> Result<Tree, Stop>
    requires { length bytes.now < 2 ^ 32 }
    ensures ok { IfOk result (λ tree. IsTree bytes.now (Ok (view tree))) }
    ensures err { StopsAt (IsTree bytes.now) result }
    ensures sound { IfOk result (λ tree. IsSound (view tree)) }
{
    match parse(alloc, bytes) {
        Ok(tree) => Ok(tree),
        Err(GmlFault::NoMemory) => Err(Stop::NoMemory),
        Err(fault) => Err(Stop::Refused(Refusal::Gml(fault))),
    }
}

/// The graph of the tree within the limits of vertices and edges, or the tree's first fault.
///
/// Errors: `Shape`, `NoMemory`.
/// Cost: that of `st_input::read_graph`.
pub fn graph_of(alloc: Global, tree: &Tree) -> Result<GraphSpec, Stop>
    requires { IsSound (view tree.now) }
    ensures ok { IfOk result (λ g. IsGraph (view tree.now) (Ok g)) }
    ensures consistent { IfOk result (λ g. IsConsistent g) }
    ensures high { IfOk result (λ g. g.graph.vertices ≤ MOST_VERTICES) }
    ensures wide { IfOk result (λ g. length g.graph.ends ≤ MOST_EDGES) }
    ensures err { StopsAt (IsGraph (view tree.now)) result }
{
    limits_hold();
    match read_graph(alloc, tree, MOST_VERTICES, MOST_EDGES) {
        Ok(graph) => Ok(graph),
        Err(ShapeFault::NoMemory) => Err(Stop::NoMemory),
        Err(fault) => Err(Stop::Refused(Refusal::Shape(fault))),
    }
}

/// The graph of the bytes within the limits of vertices and edges, or the first fault. The tree is dropped.
///
/// Errors: `Gml`, `Shape`, `NoMemory`.
/// Cost: that of `tree_of` and of `graph_of`.
pub fn graph_in(alloc: Global, bytes: &[u8]) -> Result<GraphSpec, Stop>
    requires { length bytes.now < 2 ^ 32 }
    ensures gives { Gives (IsGraphIn bytes.now) result }
    ensures consistent { IfOk result (λ g. IsConsistent g) }
    ensures high { IfOk result (λ g. g.graph.vertices ≤ MOST_VERTICES) }
    ensures wide { IfOk result (λ g. length g.graph.ends ≤ MOST_EDGES) }
{
    let tree = match tree_of(alloc, bytes) {
        Ok(tree) => tree,
        Err(stop) => return Err(stop),
    };
    graph_of(alloc, &tree)
}
