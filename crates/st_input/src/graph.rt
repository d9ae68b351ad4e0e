//! The graph of a tree, with its names, labels and orders.
ghost use Rattle.gml_core.specs.Sound.{IsSound};
ghost use Rattle.gml_core.specs.Trees.{listed};
ghost use Rattle.gml_core.specs.Views.{entry_view, view};
ghost use Rattle.st_ids.specs.declared.limits.TheConstants.{MOST_LENGTH};
ghost use Rattle.st_input.specs.EdgeNames.{known_names};
ghost use Rattle.st_input.specs.Embedding.{embedded_graph, embedded_in};
ghost use Rattle.st_input.specs.Faults.{FailsBy};
ghost use Rattle.st_input.specs.Found.{IsFoundInParts, tabled};
ghost use Rattle.st_input.specs.FirstFault.{parts_fault, shape_fault, text_fault};
ghost use Rattle.st_ids.specs.Lengths.{IsLength};
ghost use Rattle.st_input.specs.InputGraph.{AreShownLabels, AreListed, IsConsistent};
ghost use Rattle.st_input.specs.Names.{AreDifferent};
ghost use Rattle.st_parts.specs.Parts.{parts_in};
ghost use Rattle.st_input.specs.Paths.{ArePathsThere, PathsFailBy, path_name_fault, paths_by};
ghost use Rattle.st_input.specs.WithEnds.{with_ends};
ghost use Rattle.st_input.specs.Writable.{IsWritable};
ghost use Rattle.st_parts.specs.Used.{HasSoundList, datum_of, first_with};
ghost use Rattle.std.specs.Prelude.{◌≡◌, ◌≢◌, ◌<◌, ◌≤◌, ◌*◌, ◌^◌, ℕ, codes, length, option_map, slice_get, All, None, Some, IfOk, IfSome, MatchOption, OnOk};

use crate::edges::{EdgeNames, edges_by_name, orders_of};
use crate::fault::{PathNameFault, ShapeFault};
use crate::names::NameSet;
use crate::nodes::{Arcs, arcs_of, nodes_by_name};
use crate::orders::whole_orders;
use crate::outer::{limits, outer_of};
use crate::paths::paths_of;
use crate::tables::{edge_table, graph_of, vertex_table};
use gml_core::{Pair, Tree};
use sqlite_items::Items;
use st_ids::{Dart, Digraph, EdgeId, EdgeList, IdVec, Names, NoMemory, PathList, VertexId};
use st_parts::parts::{Parts, Scan, scan_graph};
use st_parts::used::{first_pair, second_at};
use std::alloc::Global;
use std::marker::Model;

/// A graph with its names, lengths, labels, orders, outer face and written paths. A contract sees them as plain data
/// (`InputGraph`), whose tables fit together.
#[derive(Drop)]
pub struct GraphSpec {
    graph: Digraph,
    names: Names,
    lengths: IdVec<EdgeId, u32>,
    orders: IdVec<VertexId, EdgeList>,
    outer: Option<Dart>,
    paths: Items<Items<i64>>,
    by_name: NameSet,
    edge_names: EdgeNames,
}

impl Model for GraphSpec {
    ghost use Rattle.std.specs.Prelude.{◌≡◌, option_map};
    ghost use Rattle.st_input.specs.InputGraph.{InputGraph};

    ghost Value = { InputGraph };

    ghost use Rattle.st_input.specs.GraphSpec.{graph_view, IsIndexed};

    ghost view = { graph_view };

    ghost invariant = { IsIndexed };
}

impl GraphSpec {
    /// The digraph: vertices and edges in file order.
    pub fn graph(&self) -> &Digraph
        ensures { result.now ≡ self.now.graph }
    {
        &self.graph
    }

    /// The name of each vertex and edge, and the shown label of each vertex that has one.
    pub fn names(&self) -> &Names
        ensures vertex { result.now.vertex ≡ self.now.vertex_names }
        ensures edge { result.now.edge ≡ self.now.edge_names }
        ensures label { result.now.label ≡ self.now.labels }

        // There is one of each, names of vertices differ and so do those of edges, and what is to be shown can be
        // shown.
        ensures vertices { length self.now.vertex_names ≡ self.now.graph.vertices }
        ensures few { length self.now.vertex_names < 2 ^ 30 }
        ensures edges { length self.now.edge_names ≡ length self.now.graph.ends }
        ensures few_edges { length self.now.edge_names < 2 ^ 30 }
        ensures labels { length self.now.labels ≡ self.now.graph.vertices }
        ensures different { AreDifferent self.now.vertex_names }
        ensures edges_different { AreDifferent self.now.edge_names }
        ensures shown { AreShownLabels self.now.labels }
    {
        &self.names
    }

    /// The least length of an edge, in rows: the written one, else 1.
    pub fn length(&self, e: EdgeId) -> u32
        requires there { e.0 < length self.now.graph.ends }
        ensures value { slice_get self.now.lengths e.0 ≡ Some result }
        ensures from_one { 1 ≤ result }
        ensures to_most { result ≤ MOST_LENGTH }
    {
        *self.lengths.get(e)
    }

    /// The least length of each edge, in rows, by number.
    pub fn lengths(&self) -> &IdVec<EdgeId, u32>
        ensures value { result.now ≡ self.now.lengths }
        ensures size { length self.now.lengths ≡ length self.now.graph.ends }
        ensures rows { All IsLength self.now.lengths }
    {
        &self.lengths
    }

    /// The clockwise list of the edges at each vertex: the written one, else the default.
    pub fn orders(&self) -> &IdVec<VertexId, EdgeList>
        ensures value { result.now ≡ self.now.orders }
        ensures size { length self.now.orders ≡ self.now.graph.vertices }
        ensures listed { AreListed self.now.graph self.now.orders }
    {
        &self.orders
    }

    /// An end of an edge whose face is the outer one, where the file names one: `2e + side`.
    pub fn outer(&self) -> Option<Dart>
        ensures value { option_map (λ d. d.0) result ≡ self.now.outer }
        ensures within { IfSome result (λ d. d.0 < 2 * length self.now.graph.ends) }
    {
        self.outer
    }

    /// The vertex with a name; `None` where there is none. Cost: O(1) on average.
    pub fn vertex_of(&self, name: i64) -> Option<VertexId>
        ensures vertex { MatchOption result ((v : ℕ) → slice_get self.now.vertex_names v ≢ Some name) (λ v. slice_get self.now.vertex_names v.0 ≡ Some name) }
        ensures within { IfSome result (λ v. v.0 < self.now.graph.vertices) }
    {
        match self.by_name.find(name) {
            Some(n) => Some(VertexId(n)),
            None => None,
        }
    }

    /// The written paths in file order, each as the list of its edges.
    ///
    /// Errors: `UnknownEdge`, where a name is that of no edge: the first path that has one, and in it the first;
    /// `NoMemory`.
    /// Cost: O(length of all paths) on average.
    pub fn paths(&self, alloc: Global) -> Result<PathList, PathNameFault>
        ensures paths { IfOk result (λ ps. ps ≡ paths_by self.now.edge_names self.now.paths) }
        ensures there { IfOk result (ArePathsThere self.now.graph) }
        ensures known { OnOk result (path_name_fault self.now.edge_names self.now.paths ≡ None) }
        ensures fault { PathsFailBy (path_name_fault self.now.edge_names self.now.paths) result }
    {
        paths_of(alloc, &self.edge_names, self.paths.as_slice())
    }

    /// The same vertices and edges with their names, lengths, labels and orders, where the edges have the ends that
    /// `graph` says.
    ///
    /// Shape: the outer face is that of the end `outer`; there are no written paths.
    /// Cost: O(1); the tables are handed on. Not proved.
    #[tactic(auto, using(crate::proofs::EndsLemmas::ends_fit))]
    pub fn with_ends(self, alloc: Global, graph: Digraph, outer: Dart) -> GraphSpec
        requires vertices { graph.vertices ≡ self.graph.vertices }
        requires edges { length graph.ends ≡ length self.graph.ends }
        requires outer { outer.0 < 2 * length graph.ends }
        ensures value { result ≡ with_ends self graph outer.0 }
        ensures consistent { IsConsistent result }
        ensures writable { IsWritable self → IsWritable result }
    {
        let GraphSpec {
            names,
            lengths,
            orders,
            by_name,
            edge_names,
            ..
        } = self;
        let paths = Items::new(alloc);
        assemble(
            graph,
            names,
            lengths,
            orders,
            Some(outer),
            paths,
            by_name,
            edge_names,
        )
    }
}

/// What the names of a graph lead to: the ends of its edges with their lengths, its written orders, and its outer end.
#[derive(Drop)]
struct Found {
    by_name: NameSet,
    edge_names: EdgeNames,
    ends: Items<(u32, u32)>,
    lengths: IdVec<EdgeId, u32>,
    orders: IdVec<VertexId, EdgeList>,
    outer: Option<Dart>,
}

fn look_up(
    alloc: Global,
    parts: &Parts,
    max_vertices: u32,
    max_edges: u32,
) -> Result<Found, ShapeFault>
    requires nodes { length parts.now.nodes < 2 ^ 31 }
    requires edges { length parts.now.edges < 2 ^ 31 }
    ensures found { IfOk result (IsFoundInParts parts.now) }
    ensures vertices { OnOk result (length parts.now.nodes ≤ max_vertices) }
    ensures edges { OnOk result (length parts.now.edges ≤ max_edges) }
    ensures none { OnOk result (parts_fault parts.now max_vertices max_edges ≡ None) }
    ensures fault { FailsBy (parts_fault parts.now max_vertices max_edges) result }
{
    let nodes = parts.nodes.as_slice();
    let edges = parts.edges.as_slice();
    let by_name = nodes_by_name(alloc, nodes)?;
    let Arcs { ends, lengths } = arcs_of(alloc, &by_name, edges)?;
    let edge_names = edges_by_name(alloc, edges)?;
    let orders = orders_of(alloc, &edge_names, nodes)?;
    let outer = outer_of(&edge_names, parts.outer)?;
    limits(
        nodes.len() as u32,
        edges.len() as u32,
        max_vertices,
        max_edges,
    )?;
    Ok(Found {
        by_name,
        edge_names,
        ends,
        lengths,
        orders,
        outer,
    })
}

pub(crate) fn assemble(
    graph: Digraph,
    names: Names,
    lengths: IdVec<EdgeId, u32>,
    orders: IdVec<VertexId, EdgeList>,
    outer: Option<Dart>,
    paths: Items<Items<i64>>,
    by_name: NameSet,
    edge_names: EdgeNames,
) -> GraphSpec
    requires index { by_name ≡ names.vertex }
    requires edge_index { known_names edge_names ≡ names.edge }
    requires few_paths { length paths < 2 ^ 31 }
    requires consistent { IsConsistent (tabled graph names lengths orders outer paths) }
    ensures { result ≡ tabled graph names lengths orders outer paths }
{
    GraphSpec {
        graph,
        names,
        lengths,
        orders,
        outer,
        paths,
        by_name,
        edge_names,
    }
}

fn build(alloc: Global, parts: Parts, found: Found) -> Result<GraphSpec, NoMemory>
    requires found { IsFoundInParts parts found }
    requires consistent { IsConsistent (embedded_in parts) }
    requires vertices { length parts.nodes < 2 ^ 30 }
    requires edges { length parts.edges < 2 ^ 30 }
    requires paths { length parts.paths < 2 ^ 31 }
    ensures { IfOk result (λ s. s ≡ embedded_in parts) }
{
    let Parts {
        nodes,
        labels,
        edges,
        paths,
        ..
    } = parts;
    let Found {
        by_name,
        edge_names,
        ends,
        lengths,
        orders,
        outer,
    } = found;
    let graph = graph_of(alloc, nodes.len() as u32, ends)?;
    let orders = whole_orders(alloc, orders, nodes.as_slice(), graph.ends())?;
    let names = Names {
        vertex: vertex_table(alloc, nodes.as_slice())?,
        edge: edge_table(alloc, edges.as_slice())?,
        label: labels,
    };
    Ok(assemble(
        graph, names, lengths, orders, outer, paths, by_name, edge_names,
    ))
}

/// What the pair `graph` of a tree says, where it is the only one and each used pair has the right kind.
fn scanned(alloc: Global, tree: &Tree, graph: &Pair) -> Result<Parts, ShapeFault>
    requires tree { IsSound (view tree.now) }
    requires sound { HasSoundList (datum_of (entry_view graph.now)) }
    requires first { first_with (codes "graph") (listed (view tree.now)) ≡ Some (entry_view graph.now) }
    ensures parts { IfOk result (λ p. p ≡ parts_in (entry_view graph.now)) }
    ensures nodes { IfOk result (λ p. length p.nodes < 2 ^ 31) }
    ensures edges { IfOk result (λ p. length p.edges < 2 ^ 31) }
    ensures paths { IfOk result (λ p. length p.paths < 2 ^ 31) }
    ensures none { OnOk result (text_fault (listed (view tree.now)) ≡ None) }
    ensures fault { FailsBy (text_fault (listed (view tree.now))) result }
{
    if let Some(at) = second_at(tree, b"graph") {
        return Err(ShapeFault::SecondGraph { at });
    }
    let Scan { parts, wrong } = scan_graph(alloc, graph)?;
    match wrong {
        Some(at) => Err(ShapeFault::BadKind { at }),
        None => Ok(parts),
    }
}

fn spec_of(
    alloc: Global,
    parts: Parts,
    max_vertices: u32,
    max_edges: u32,
) -> Result<GraphSpec, ShapeFault>
    requires labels { length parts.labels ≡ length parts.nodes }
    requires shown { AreShownLabels parts.labels }
    requires nodes { length parts.nodes < 2 ^ 31 }
    requires edges { length parts.edges < 2 ^ 31 }
    requires paths { length parts.paths < 2 ^ 31 }
    requires few_vertices { max_vertices < 2 ^ 30 }
    requires few_edges { max_edges < 2 ^ 30 }
    ensures value { IfOk result (λ s. s ≡ embedded_in parts) }
    ensures none { OnOk result (parts_fault parts max_vertices max_edges ≡ None) }
    ensures fault { FailsBy (parts_fault parts max_vertices max_edges) result }
{
    let found = look_up(alloc, &parts, max_vertices, max_edges)?;
    Ok(build(alloc, parts, found)?)
}

#[tactic(auto, unfolding(crate::specs::Embedding::embedded_graph, crate::specs::FirstFault::shape_fault))]
/// The graph of a tree, or its first fault.
///
/// The limits are the greatest numbers of vertices and edges that are allowed. Faults are looked for in the order of
/// `ShapeFault`: no graph, a second one, a value of the wrong kind, then the nodes, the ends and lengths of edges, the
/// ids of edges, the orders, the outer face, and last the limits.
///
/// Errors: the first fault, with its place or name; `NoMemory`.
/// Cost: O(n) on average, for a tree of n pairs. The tree is only read.
pub fn read_graph(
    alloc: Global,
    tree: &Tree,
    max_vertices: u32,
    max_edges: u32,
) -> Result<GraphSpec, ShapeFault>
    requires sound { IsSound (view tree.now) }
    requires vertices { max_vertices < 2 ^ 30 }
    requires edges { max_edges < 2 ^ 30 }
    ensures value { IfOk result (λ s. embedded_graph (view tree.now) ≡ Some s) }
    ensures none { OnOk result (shape_fault (view tree.now) max_vertices max_edges ≡ None) }
    ensures fault { FailsBy (shape_fault (view tree.now) max_vertices max_edges) result }
{
    match first_pair(tree, b"graph") {
        Some(graph) => {
            let parts = scanned(alloc, tree, graph)?;
            spec_of(alloc, parts, max_vertices, max_edges)
        }
        None => Err(ShapeFault::NoGraph),
    }
}
