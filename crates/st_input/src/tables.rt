//! The tables of a graph: its ends, and the names of its vertices and edges.
ghost use Rattle.st_input.specs.Faults.{edge_ids, edge_names, node_name};
ghost use Rattle.st_input.specs.Names.{positions};
ghost use Rattle.st_input.specs.Orders.{HasEndsBelow};
ghost use Rattle.std.specs.Prelude.{◌≡◌, ◌<◌, ◌^◌, length, map, All, IfOk};

use crate::edges::{all_have_ids, id_of};
use sqlite_items::Items;
use st_ids::{Digraph, EdgeId, IdVec, NoMemory, VertexId};
use st_parts::parts::{Edge, Node};
use std::alloc::Global;

fn graph_with(alloc: Global, n: u32, ends: &[(u32, u32)]) -> Result<Digraph, NoMemory>
    requires vertices { n < 2 ^ 30 }
    requires edges { length ends.now < 2 ^ 30 }
    requires within { All (HasEndsBelow n) ends.now }
    ensures { IfOk result (λ g. g ≡ record { vertices = n; ends = ends.now }) }
{
    let mut graph = Digraph::new(alloc);
    graph.add_vertices(n);
    graph.reserve(ends.len() as u32)?;
    for pair in ends {
        let _: EdgeId = graph.add_edge(VertexId(pair.0), VertexId(pair.1))?;
    }
    Ok(graph)
}

/// The graph with n vertices and these ends of edges, which are then given up.
pub(crate) fn graph_of(alloc: Global, n: u32, ends: Items<(u32, u32)>) -> Result<Digraph, NoMemory>
    requires vertices { n < 2 ^ 30 }
    requires edges { length ends < 2 ^ 30 }
    requires within { All (HasEndsBelow n) ends }
    ensures { IfOk result (λ g. g ≡ record { vertices = n; ends = ends }) }
{
    graph_with(alloc, n, ends.as_slice())
}

/// The names of the vertices.
pub(crate) fn vertex_table(alloc: Global, nodes: &[Node]) -> Result<IdVec<VertexId, i64>, NoMemory>
    requires { length nodes.now < 2 ^ 31 }
    ensures { IfOk result (λ ns. ns ≡ map node_name nodes.now) }
{
    let mut names = IdVec::with_capacity(alloc, nodes.len() as u32)?;
    for node in nodes {
        let name = match node.id {
            Some(id) => id,
            None => 0,
        };
        let _: VertexId = names.push(name)?;
    }
    Ok(names)
}

fn ids_table(alloc: Global, edges: &[Edge]) -> Result<IdVec<EdgeId, i64>, NoMemory>
    requires { length edges.now < 2 ^ 31 }
    ensures { IfOk result (λ ns. ns ≡ edge_ids edges.now) }
{
    let mut names = IdVec::with_capacity(alloc, edges.len() as u32)?;
    for edge in edges {
        let _: EdgeId = names.push(id_of(*edge))?;
    }
    Ok(names)
}

#[tactic(auto, using(crate::proofs::NameLemmas::positions_more), unfolding(crate::specs::Names::positions))]
pub(crate) fn positions_table(alloc: Global, n: usize) -> Result<IdVec<EdgeId, i64>, NoMemory>
    requires { n < 2 ^ 31 }
    ensures { IfOk result (λ ns. ns ≡ positions n) }
{
    let mut names = IdVec::with_capacity(alloc, n as u32)?;
    for i in 0..n {
        let _: EdgeId = names.push(i as i64)?;
    }
    Ok(names)
}

/// The names of the edges.
#[tactic(auto, unfolding(crate::specs::Faults::edge_names))]
pub(crate) fn edge_table(alloc: Global, edges: &[Edge]) -> Result<IdVec<EdgeId, i64>, NoMemory>
    requires { length edges.now < 2 ^ 31 }
    ensures { IfOk result (λ ns. ns ≡ edge_names edges.now) }
{
    if all_have_ids(edges) {
        ids_table(alloc, edges)
    } else {
        positions_table(alloc, edges.len())
    }
}
