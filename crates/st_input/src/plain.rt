//! A graph that no file gives: a digraph with the names and the orders that its printed tree has.
ghost use Rattle.st_input.specs.InputGraph.{IsConsistent};
ghost use Rattle.st_input.specs.Plain.{counted, default_orders, plain_graph};
ghost use Rattle.std.specs.Prelude.{◌≡◌, ◌<◌, ◌^◌, [], None, replicate, IfOk};

use crate::edges::EdgeNames;
use crate::graph::{GraphSpec, assemble};
use crate::names::{NameSet, Salted};
use crate::orders::fill_free;
use crate::tables::positions_table;
use sqlite_items::Items;
use st_ids::{Digraph, EdgeList, IdVec, Names, NoMemory, Text, VertexId};
use std::alloc::Global;

/// The names 1, 2 and on.
#[tactic(auto, using(crate::proofs::PlainLemmas::counted_pushed), unfolding(crate::specs::Plain::counted))]
fn counted_table(alloc: Global, n: u32) -> Result<IdVec<VertexId, i64>, NoMemory>
    requires { n < 2 ^ 31 }
    ensures { IfOk result (λ names. names ≡ counted n) }
{
    let mut names = IdVec::with_capacity(alloc, n)?;
    for v in 0..n {
        let _: VertexId = names.push(i64::from(v + 1))?;
    }
    Ok(names)
}

/// The same names, to find their numbers.
#[tactic(auto, using(crate::proofs::PlainLemmas::counted_added), unfolding(crate::specs::Plain::counted))]
fn counted_set(alloc: Global, n: u32) -> Result<NameSet, NoMemory>
    ensures { IfOk result (λ names. names ≡ counted n) }
{
    let mut names = NameSet::with_room(alloc, n as usize, Salted::new());
    for v in 0..n {
        names.add(i64::from(v + 1))?;
    }
    Ok(names)
}

fn no_labels(alloc: Global, n: u32) -> Result<IdVec<VertexId, Option<Text>>, NoMemory>
    requires { n < 2 ^ 31 }
    ensures { IfOk result (λ labels. labels ≡ replicate n None) }
{
    let mut labels = IdVec::with_capacity(alloc, n)?;
    for _ in 0..n {
        let _: VertexId = labels.push(None)?;
    }
    Ok(labels)
}

fn empty_orders(alloc: Global, n: u32) -> Result<IdVec<VertexId, EdgeList>, NoMemory>
    requires { n < 2 ^ 31 }
    ensures { IfOk result (λ orders. orders ≡ replicate n []) }
{
    let mut orders = IdVec::with_capacity(alloc, n)?;
    for _ in 0..n {
        let _: VertexId = orders.push(EdgeList::new(alloc))?;
    }
    Ok(orders)
}

/// The default order of each vertex.
fn default_table(alloc: Global, graph: &Digraph) -> Result<IdVec<VertexId, EdgeList>, NoMemory>
    ensures { IfOk result (λ orders. orders ≡ default_orders graph.now) }
{
    let free = IdVec::with_len(alloc, graph.vertices(), true)?;
    let mut orders = empty_orders(alloc, graph.vertices())?;
    fill_free(&mut orders, &free, graph.ends())?;
    Ok(orders)
}

impl GraphSpec {
    /// The graph of a digraph alone, as if it came from a file with its vertices named 1, 2 and on, and with nothing
    /// else but its edges.
    ///
    /// Shape: edges are named by their positions, from 0, have the length 1, and lie at each vertex in the default
    /// order.
    /// Errors: `NoMemory`; the digraph is dropped.
    /// Cost: O(V + E) on average.
    pub fn plain(alloc: Global, graph: Digraph) -> Result<GraphSpec, NoMemory>
        ensures value { IfOk result (λ spec. spec ≡ plain_graph graph) }
        ensures consistent { IfOk result IsConsistent }
    {
        let names = Names {
            vertex: counted_table(alloc, graph.vertices())?,
            edge: positions_table(alloc, graph.edges() as usize)?,
            label: no_labels(alloc, graph.vertices())?,
        };
        let lengths = IdVec::with_len(alloc, graph.edges(), 1)?;
        let by_name = counted_set(alloc, graph.vertices())?;
        let orders = default_table(alloc, &graph)?;
        let edge_names = EdgeNames::Positions(graph.edges());
        let paths = Items::new(alloc);
        Ok(assemble(
            graph, names, lengths, orders, None, paths, by_name, edge_names,
        ))
    }
}
