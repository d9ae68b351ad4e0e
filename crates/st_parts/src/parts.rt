//! What a pair `graph` says, taken out of the tree in one pass.
ghost use Rattle.gml_core.specs.Sound.{IsSound};
ghost use Rattle.gml_core.specs.Trees.{listed};
ghost use Rattle.gml_core.specs.Views.{entry_view, view};
ghost use Rattle.st_parts.specs.Keys.{IsKnown};
ghost use Rattle.st_parts.specs.Kinds.{earlier, edge_wrong, graph_wrong, inside, names_wrong, node_wrong, part_wrong};
ghost use Rattle.st_parts.specs.Parts.{edge_in, label_in, node_in, parts_in, parts_say, path_in};
ghost use Rattle.st_parts.specs.Used.{HasSoundList, datum_of, each, first_with};
ghost use Rattle.std.specs.Option.{option_or};
ghost use Rattle.std.specs.Prelude.{◌≡◌, [], ◌∷◌, ◌++◌, ◌<◌, ◌^◌, codes, length, None, option_map, IfOk, IfSome, OnOk};

use crate::edges::edge_of;
use crate::firsts::or_pair;
use crate::keys::{Key, key_of};
use crate::kinds::earlier_of;
use crate::mentions::path_of;
use crate::nodes::node_of;
use crate::outer::{OuterSaid, outer_of};
use crate::used::{list_of, pair_at, place};
use gml_core::{Pair, Tree};
use sqlite_items::Items;
use st_ids::{IdVec, NoMemory, Text, VertexId};
use std::alloc::Global;

/// The name of an edge, and where it stands.
#[derive(Clone, Copy)]
pub struct Mention {
    pub at: u32,
    pub name: i64,
}

/// What a pair `node` says, but for its label.
#[derive(Drop)]
pub struct Node {
    pub at: u32,
    pub id: Option<i64>,
    pub order: Option<Items<Mention>>,
}

/// A least length, in rows, and where it stands.
#[derive(Clone, Copy)]
pub struct Minlen {
    pub rows: i64,
    pub at: u32,
}

/// What a pair `edge` says.
#[derive(Clone, Copy)]
pub struct Edge {
    pub id: Option<i64>,
    pub source: Option<i64>,
    pub target: Option<i64>,
    pub minlen: Option<Minlen>,
}

/// What the pair `outer` says.
#[derive(Clone, Copy)]
pub struct Outer {
    pub at: u32,
    pub edge: Option<Mention>,
    pub side: Option<i64>,
}

/// What the pair `graph` says.
#[derive(Drop)]
pub struct Parts {
    pub nodes: Items<Node>,
    pub labels: IdVec<VertexId, Option<Text>>,
    pub edges: Items<Edge>,
    pub outer: Option<Outer>,
    pub paths: Items<Items<i64>>,
}

/// What a pair `graph` says, and the least place of a used pair in it whose value has another kind than it should.
#[derive(Drop)]
pub struct Scan {
    pub parts: Parts,
    pub wrong: Option<u32>,
}

/// Appends an item. Cost: O(1) on average.
pub fn put<T: Drop>(items: &mut Items<T>, item: T) -> Result<(), NoMemory>
    ensures { OnOk result (items.new ≡ items.old ++ item ∷ []) }
{
    match items.push(item) {
        Ok(()) => Ok(()),
        Err(_) => Err(NoMemory),
    }
}

/// What the pairs of a graph say that went by.
#[derive(Drop)]
struct Lists {
    nodes: Items<Node>,
    labels: IdVec<VertexId, Option<Text>>,
    edges: Items<Edge>,
    paths: Items<Items<i64>>,
    wrong: Option<u32>,
}

fn take_node(alloc: Global, lists: &mut Lists, pair: &Pair) -> Result<(), NoMemory>
    requires sound { HasSoundList (datum_of (entry_view pair.now)) }
    requires room { length lists.old.labels < 2 ^ 31 }
    ensures nodes { OnOk result (lists.new.nodes ≡ lists.old.nodes ++ node_in (entry_view pair.now) ∷ []) }
    ensures labels { OnOk result (lists.new.labels ≡ lists.old.labels ++ label_in (entry_view pair.now) ∷ []) }
    ensures edges { OnOk result (lists.new.edges ≡ lists.old.edges) }
    ensures paths { OnOk result (lists.new.paths ≡ lists.old.paths) }
    ensures wrong { OnOk result (lists.new.wrong ≡ earlier lists.old.wrong (inside node_wrong (entry_view pair.now))) }
{
    let said = node_of(alloc, pair)?;
    put(&mut lists.nodes, said.node)?;
    let _: VertexId = lists.labels.push(said.label)?;
    lists.wrong = earlier_of(lists.wrong, said.wrong);
    Ok(())
}

fn take_edge(lists: &mut Lists, pair: &Pair) -> Result<(), NoMemory>
    requires sound { HasSoundList (datum_of (entry_view pair.now)) }
    ensures edges { OnOk result (lists.new.edges ≡ lists.old.edges ++ edge_in (entry_view pair.now) ∷ []) }
    ensures nodes { OnOk result (lists.new.nodes ≡ lists.old.nodes) }
    ensures labels { OnOk result (lists.new.labels ≡ lists.old.labels) }
    ensures paths { OnOk result (lists.new.paths ≡ lists.old.paths) }
    ensures wrong { OnOk result (lists.new.wrong ≡ earlier lists.old.wrong (inside edge_wrong (entry_view pair.now))) }
{
    let said = edge_of(pair);
    put(&mut lists.edges, said.edge)?;
    lists.wrong = earlier_of(lists.wrong, said.wrong);
    Ok(())
}

fn take_path(alloc: Global, lists: &mut Lists, pair: &Pair) -> Result<(), NoMemory>
    requires sound { HasSoundList (datum_of (entry_view pair.now)) }
    ensures paths { OnOk result (lists.new.paths ≡ lists.old.paths ++ path_in (entry_view pair.now) ∷ []) }
    ensures nodes { OnOk result (lists.new.nodes ≡ lists.old.nodes) }
    ensures labels { OnOk result (lists.new.labels ≡ lists.old.labels) }
    ensures edges { OnOk result (lists.new.edges ≡ lists.old.edges) }
    ensures wrong { OnOk result (lists.new.wrong ≡ earlier lists.old.wrong (inside names_wrong (entry_view pair.now))) }
{
    let said = path_of(alloc, pair)?;
    put(&mut lists.paths, said.names)?;
    lists.wrong = earlier_of(lists.wrong, said.wrong);
    Ok(())
}

/// Takes what a pair of the graph says that is used each time.
fn take(alloc: Global, lists: &mut Lists, key: Option<Key>, pair: &Pair) -> Result<(), NoMemory>
    requires known { IsKnown key (entry_view pair.now) }
    requires sound { HasSoundList (datum_of (entry_view pair.now)) }
    requires room { length lists.old.labels < 2 ^ 31 }
    ensures nodes { OnOk result (lists.new.nodes ≡ lists.old.nodes ++ each (codes "node") node_in (entry_view pair.now ∷ [])) }
    ensures labels { OnOk result (lists.new.labels ≡ lists.old.labels ++ each (codes "node") label_in (entry_view pair.now ∷ [])) }
    ensures edges { OnOk result (lists.new.edges ≡ lists.old.edges ++ each (codes "edge") edge_in (entry_view pair.now ∷ [])) }
    ensures paths { OnOk result (lists.new.paths ≡ lists.old.paths ++ each (codes "path") path_in (entry_view pair.now ∷ [])) }
    ensures wrong { OnOk result (lists.new.wrong ≡ earlier lists.old.wrong (part_wrong (entry_view pair.now))) }
{
    match key {
        Some(Key::Node) => take_node(alloc, lists, pair),
        Some(Key::Edge) => take_edge(lists, pair),
        Some(Key::Path) => take_path(alloc, lists, pair),
        _ => Ok(()),
    }
}

/// The first pair `outer`: the one before, or else this one.
fn or_outer<'a>(outer: Option<&'a Pair>, key: Option<Key>, pair: &'a Pair) -> Option<&'a Pair>
    requires known { IsKnown key (entry_view pair.now) }
    requires pair { HasSoundList (datum_of (entry_view pair.now)) }
    requires outer { IfSome outer (λ p. HasSoundList (datum_of (entry_view p.now))) }
    ensures outer { option_map (λ p. entry_view p.now) result ≡ option_or (option_map (λ p. entry_view p.now) outer.entry) (first_with (codes "outer") (entry_view pair.now ∷ [])) }
    ensures sound { IfSome result (λ p. HasSoundList (datum_of (entry_view p.now))) }
{
    match key {
        Some(Key::Outer) => or_pair(outer, pair),
        _ => outer,
    }
}

fn scan_of(lists: Lists, outer: OuterSaid) -> Scan
    ensures parts { result.parts ≡ record { nodes = lists.nodes; labels = lists.labels; edges = lists.edges; outer = outer.outer; paths = lists.paths } }
    ensures wrong { result.wrong ≡ earlier outer.wrong lists.wrong }
{
    let Lists {
        nodes,
        labels,
        edges,
        paths,
        wrong,
    } = lists;
    Scan {
        parts: Parts {
            nodes,
            labels,
            edges,
            outer: outer.outer,
            paths,
        },
        wrong: earlier_of(outer.wrong, wrong),
    }
}

fn no_lists(alloc: Global) -> Lists
    ensures nodes { result.nodes ≡ [] }
    ensures labels { result.labels ≡ [] }
    ensures edges { result.edges ≡ [] }
    ensures paths { result.paths ≡ [] }
    ensures wrong { result.wrong ≡ None }
{
    Lists {
        nodes: Items::new(alloc),
        labels: IdVec::new(alloc),
        edges: Items::new(alloc),
        paths: Items::new(alloc),
        wrong: None,
    }
}

fn scan_list(alloc: Global, tree: &Tree) -> Result<Scan, NoMemory>
    requires { IsSound (view tree.now) }
    ensures parts { IfOk result (λ s. s.parts ≡ parts_say (listed (view tree.now))) }
    ensures wrong { IfOk result (λ s. s.wrong ≡ graph_wrong (listed (view tree.now))) }
    ensures nodes { IfOk result (λ s. length s.parts.nodes < 2 ^ 31) }
    ensures edges { IfOk result (λ s. length s.parts.edges < 2 ^ 31) }
    ensures paths { IfOk result (λ s. length s.parts.paths < 2 ^ 31) }
{
    let mut lists = no_lists(alloc);
    let mut outer = None;
    for i in 0..tree.len() {
        let pair = pair_at(tree, i);
        let key = key_of(pair);
        outer = or_outer(outer, key, pair);
        take(alloc, &mut lists, key, pair)?;
    }
    Ok(scan_of(lists, outer_of(outer)))
}

/// What the list of a pair `graph` says: its nodes with their labels, its edges and paths in file order, and the
/// first outer face; and the least place of a used pair in it whose value has another kind than it should.
///
/// A value of another kind says nothing, or the name 0. Of pairs that may stand once the first decides. A graph that
/// is no list has nothing in it, and its own place is the least.
///
/// Errors: `NoMemory`.
/// Cost: O(n) on average, for n pairs in the graph: one pass.
pub fn scan_graph(alloc: Global, graph: &Pair) -> Result<Scan, NoMemory>
    requires { HasSoundList (datum_of (entry_view graph.now)) }
    ensures parts { IfOk result (λ s. s.parts ≡ parts_in (entry_view graph.now)) }
    ensures wrong { IfOk result (λ s. s.wrong ≡ inside graph_wrong (entry_view graph.now)) }
    ensures nodes { IfOk result (λ s. length s.parts.nodes < 2 ^ 31) }
    ensures edges { IfOk result (λ s. length s.parts.edges < 2 ^ 31) }
    ensures paths { IfOk result (λ s. length s.parts.paths < 2 ^ 31) }
{
    match list_of(graph) {
        Some(tree) => scan_list(alloc, tree),
        None => Ok(Scan {
            parts: Parts {
                nodes: Items::new(alloc),
                labels: IdVec::new(alloc),
                edges: Items::new(alloc),
                outer: None,
                paths: Items::new(alloc),
            },
            wrong: Some(place(graph)),
        }),
    }
}
