//! The tree of a graph's file: with its names, lengths, labels, orders and outer face, so that it is read again as the
//! graph, or with its vertices and edges alone.
ghost use Rattle.gml_core.specs.Sound.{IsSound, IsSpelled};
ghost use Rattle.gml_core.specs.Trees.{depth, listed};
ghost use Rattle.gml_core.specs.Views.{view};
ghost use Rattle.gml_core.specs.declared.token.TokenKind.{TokenKind};
ghost use Rattle.st_ids.specs.EdgeNumbers.{numbers};
ghost use Rattle.st_input.specs.Writable.{HasNoQuote, IsWritable};
ghost use Rattle.st_writer.specs.Plain.{int_pair, plain_entries};
ghost use Rattle.st_writer.specs.Written.{CanBeWritten, arc_pairs, arc_by, end_pairs, entries_by, id_pairs, label_pairs, length_by, name_pair};
ghost use Rattle.st_writer.specs.Written.{name_of, node_by, outer_by, outer_pairs, pairs_by, rest_pairs, vertex_pairs, written_entries};
ghost use Rattle.std.specs.Prelude.{◌≡◌, ◌+◌, ◌*◌, ◌<◌, ◌≤◌, ◌^◌, [], ◌∷◌, ◌++◌, length, map, option_map, All, IfOk, IfSome, OnOk};
ghost use Rattle.std.specs.List.{range_with_len};

use gml_core::Tree;
use st_ids::{Dart, EdgeId, Id, IdVec, NoMemory, Text, VertexId};
use st_input::GraphSpec;
use std::alloc::Global;

/// How much of a graph its tree has.
#[derive(Clone, Copy)]
enum Extent {
    /// The names of the vertices and the ends of the edges.
    Plain,
    /// All but the written paths.
    Whole,
}

/// Appends a pair with an integer.
fn push_number(tree: &mut Tree, key: &[u8], n: i64) -> Result<(), NoMemory>
    requires sound { IsSound (view tree.old) }
    requires room { length (listed (view tree.old)) + 1 < 2 ^ 31 }
    requires key { IsSpelled TokenKind.Key key.now }
    ensures pairs { OnOk result (listed (view tree.new) ≡ listed (view tree.old) ++ int_pair key.now n ∷ []) }
    ensures sound { IsSound (view tree.new) }
{
    tree.push_int(key, n)?;
    Ok(())
}

/// Appends a pair with the name of a vertex or an edge.
fn push_name<K: Id>(
    tree: &mut Tree,
    key: &[u8],
    names: &IdVec<K, i64>,
    k: K,
) -> Result<(), NoMemory>
    requires sound { IsSound (view tree.old) }
    requires room { length (listed (view tree.old)) + 1 < 2 ^ 31 }
    requires key { IsSpelled TokenKind.Key key.now }
    requires there { K.index k < length names.now }
    ensures pairs { OnOk result
        (listed (view tree.new) ≡ listed (view tree.old) ++ int_pair key.now (name_of names.now (K.index k)) ∷ []) }
    ensures sound { IsSound (view tree.new) }
{
    push_number(tree, key, *names.get(k))?;
    Ok(())
}

/// The names of the edges of a list.
#[tactic(auto, unfolding(gml_core::specs::Lexing::token_at))]
fn order_tree(alloc: Global, names: &IdVec<EdgeId, i64>, order: &[EdgeId]) -> Result<Tree, NoMemory>
    requires short { length order.now < 2 ^ 31 }
    requires within { All (λ e. e.0 < length names.now) order.now }
    ensures pairs { IfOk result (λ t. listed (view t) ≡ map (name_pair names.now) (numbers order.now)) }
    ensures sound { IfOk result (λ t. IsSound (view t)) }
{
    let mut tree = Tree::with_room(alloc, order.len() as u32)?;
    for e in order {
        push_name(&mut tree, b"e", names, *e)?;
    }
    Ok(tree)
}

/// Appends a label, where there is one.
#[tactic(auto, using(crate::proofs::WrittenLemmas::label_pushed), unfolding(gml_core::specs::Lexing::token_at))]
fn push_label(node: &mut Tree, label: &Option<Text>) -> Result<(), NoMemory>
    requires sound { IsSound (view node.old) }
    requires room { length (listed (view node.old)) + 1 < 2 ^ 31 }
    requires no_quote { HasNoQuote label.now }
    ensures pairs { OnOk result (listed (view node.new) ≡ listed (view node.old) ++ label_pairs label.now) }
    ensures sound { IsSound (view node.new) }
{
    match label {
        Some(text) => node.push_str(b"label", text.bytes())?,
        None => (),
    }
    Ok(())
}

/// Appends the label and the order of a vertex, where all is written.
#[tactic(auto, unfolding(gml_core::specs::Lexing::token_at))]
fn push_rest(
    alloc: Global,
    node: &mut Tree,
    spec: &GraphSpec,
    v: VertexId,
    extent: Extent,
) -> Result<(), NoMemory>
    requires sound { IsSound (view node.old) }
    requires room { length (listed (view node.old)) ≡ 1 }
    requires writable { CanBeWritten extent spec.now }
    requires there { v.0 < spec.now.graph.vertices }
    ensures pairs { OnOk result (listed (view node.new) ≡ listed (view node.old) ++ rest_pairs extent spec.now v.0) }
    ensures sound { OnOk result (IsSound (view node.new)) }
{
    match extent {
        Extent::Plain => (),
        Extent::Whole => {
            let names = spec.names();
            let order = order_tree(alloc, &names.edge, spec.orders().get(v).items())?;
            push_label(node, names.label.get(v))?;
            node.push_list(b"order", order)?;
        }
    }
    Ok(())
}

/// How many pairs the list of a vertex has.
fn node_room(spec: &GraphSpec, v: VertexId, extent: Extent) -> u32
    requires there { v.0 < spec.now.graph.vertices }
{
    match extent {
        Extent::Plain => 1,
        Extent::Whole => match spec.names().label.get(v) {
            None => 2,
            Some(_) => 3,
        },
    }
}

/// What the pair of a vertex holds.
#[tactic(auto, unfolding(gml_core::specs::Lexing::token_at))]
fn node_tree(alloc: Global, spec: &GraphSpec, v: VertexId, extent: Extent) -> Result<Tree, NoMemory>
    requires writable { CanBeWritten extent spec.now }
    requires there { v.0 < spec.now.graph.vertices }
    ensures pairs { IfOk result (λ t. listed (view t) ≡ vertex_pairs extent spec.now v.0) }
    ensures sound { IfOk result (λ t. IsSound (view t)) }
{
    let mut node = Tree::with_room(alloc, node_room(spec, v, extent))?;
    push_name(&mut node, b"id", &spec.names().vertex, v)?;
    push_rest(alloc, &mut node, spec, v, extent)?;
    Ok(node)
}

/// Appends the name of an edge, where all is written.
#[tactic(auto, unfolding(gml_core::specs::Lexing::token_at))]
fn push_id(
    edge: &mut Tree,
    names: &IdVec<EdgeId, i64>,
    e: EdgeId,
    extent: Extent,
) -> Result<(), NoMemory>
    requires sound { IsSound (view edge.old) }
    requires room { length (listed (view edge.old)) + 1 < 2 ^ 31 }
    requires there { e.0 < length names.now }
    ensures pairs { OnOk result (listed (view edge.new) ≡ listed (view edge.old) ++ id_pairs extent names.now e.0) }
    ensures sound { IsSound (view edge.new) }
{
    match extent {
        Extent::Plain => (),
        Extent::Whole => push_name(edge, b"id", names, e)?,
    }
    Ok(())
}

/// Appends the length of an edge, where it isn't 1 and all is written.
#[tactic(auto, unfolding(gml_core::specs::Lexing::token_at))]
fn push_length(edge: &mut Tree, rows: u32, extent: Extent) -> Result<(), NoMemory>
    requires sound { IsSound (view edge.old) }
    requires room { length (listed (view edge.old)) + 1 < 2 ^ 31 }
    ensures pairs { OnOk result (listed (view edge.new) ≡ listed (view edge.old) ++ length_by extent rows) }
    ensures sound { IsSound (view edge.new) }
{
    match extent {
        Extent::Plain => Ok(()),
        Extent::Whole => {
            if rows == 1 {
                return Ok(());
            }
            push_number(edge, b"minlen", i64::from(rows))
        }
    }
}

/// How many pairs the list of an edge has.
fn edge_room(rows: u32, extent: Extent) -> u32 {
    match extent {
        Extent::Plain => 2,
        Extent::Whole => { if rows == 1 { 3 } else { 4 } }
    }
}

/// What the pair of an edge holds.
#[tactic(auto, unfolding(gml_core::specs::Lexing::token_at))]
fn edge_tree(alloc: Global, spec: &GraphSpec, e: EdgeId, extent: Extent) -> Result<Tree, NoMemory>
    requires there { e.0 < length spec.now.graph.ends }
    ensures pairs { IfOk result (λ t. listed (view t) ≡ arc_pairs extent spec.now e.0) }
    ensures sound { IfOk result (λ t. IsSound (view t)) }
{
    let names = spec.names();
    let rows = spec.length(e);
    let mut edge = Tree::with_room(alloc, edge_room(rows, extent))?;
    push_id(&mut edge, &names.edge, e, extent)?;
    push_name(&mut edge, b"source", &names.vertex, spec.graph().tail(e))?;
    push_name(&mut edge, b"target", &names.vertex, spec.graph().head(e))?;
    push_length(&mut edge, rows, extent)?;
    Ok(edge)
}

/// The edge and the side of an end.
#[tactic(auto, unfolding(gml_core::specs::Lexing::token_at))]
fn end_tree(alloc: Global, names: &IdVec<EdgeId, i64>, d: Dart) -> Result<Tree, NoMemory>
    requires there { d.0 < 2 * length names.now }
    ensures pairs { IfOk result (λ t. listed (view t) ≡ end_pairs names.now d.0) }
    ensures sound { IfOk result (λ t. IsSound (view t)) }
{
    let side = if d.is_out() { 0 } else { 1 };
    let mut outer = Tree::new(alloc);
    push_name(&mut outer, b"edge", names, d.edge())?;
    push_number(&mut outer, b"side", side)?;
    Ok(outer)
}

/// The outer end, where it is named and all is written.
fn outer_shown(spec: &GraphSpec, extent: Extent) -> Option<Dart>
    ensures value { option_map (λ d. d.0) result ≡ outer_by extent spec.now }
    ensures there { IfSome result (λ d. d.0 < 2 * length spec.now.graph.ends) }
{
    match extent {
        Extent::Plain => None,
        Extent::Whole => spec.outer(),
    }
}

/// Appends the outer face, where it is named.
#[tactic(auto, using(crate::proofs::WrittenLemmas::end_depth, crate::proofs::WrittenLemmas::outer_pushed), unfolding(gml_core::specs::Lexing::token_at))]
fn push_outer(
    alloc: Global,
    graph: &mut Tree,
    names: &IdVec<EdgeId, i64>,
    outer: Option<Dart>,
) -> Result<(), NoMemory>
    requires sound { IsSound (view graph.old) }
    requires room { length (listed (view graph.old)) + 1 < 2 ^ 31 }
    requires there { IfSome outer (λ d. d.0 < 2 * length names.now) }
    ensures pairs { OnOk result
        (listed (view graph.new) ≡ listed (view graph.old) ++ outer_pairs names.now (option_map (λ d. d.0) outer)) }
    ensures sound { OnOk result (IsSound (view graph.new)) }
{
    match outer {
        Some(d) => {
            let end = end_tree(alloc, names, d)?;
            graph.push_list(b"outer", end)?;
        }
        None => (),
    }
    Ok(())
}

/// Appends all vertices.
#[tactic(auto, unfolding(gml_core::specs::Lexing::token_at))]
fn push_nodes(
    alloc: Global,
    graph: &mut Tree,
    spec: &GraphSpec,
    extent: Extent,
) -> Result<(), NoMemory>
    requires sound { IsSound (view graph.old) }
    requires writable { CanBeWritten extent spec.now }
    requires room { length (listed (view graph.old)) + spec.now.graph.vertices < 2 ^ 31 }
    ensures pairs { OnOk result (listed (view graph.new) ≡ listed (view graph.old)
        ++ map (node_by extent spec.now) (range_with_len 0 spec.now.graph.vertices)) }
    ensures sound { OnOk result (IsSound (view graph.new)) }
{
    for v in 0..spec.graph().vertices() {
        let node = node_tree(alloc, spec, VertexId(v), extent)?;
        graph.push_list(b"node", node)?;
    }
    Ok(())
}

/// Appends all edges.
#[tactic(auto, unfolding(gml_core::specs::Lexing::token_at))]
fn push_edges(
    alloc: Global,
    graph: &mut Tree,
    spec: &GraphSpec,
    extent: Extent,
) -> Result<(), NoMemory>
    requires sound { IsSound (view graph.old) }
    requires room { length (listed (view graph.old)) + length spec.now.graph.ends < 2 ^ 31 }
    ensures pairs { OnOk result (listed (view graph.new) ≡ listed (view graph.old)
        ++ map (arc_by extent spec.now) (range_with_len 0 (length spec.now.graph.ends))) }
    ensures sound { OnOk result (IsSound (view graph.new)) }
{
    for e in 0..spec.graph().edges() {
        let edge = edge_tree(alloc, spec, EdgeId(e), extent)?;
        graph.push_list(b"edge", edge)?;
    }
    Ok(())
}

/// What the pair `graph` holds.
#[tactic(auto, unfolding(gml_core::specs::Lexing::token_at))]
fn graph_tree(alloc: Global, spec: &GraphSpec, extent: Extent) -> Result<Tree, NoMemory>
    requires writable { CanBeWritten extent spec.now }
    ensures pairs { IfOk result (λ t. listed (view t) ≡ pairs_by extent spec.now) }
    ensures nests { IfOk result (λ t. depth (view t) ≤ 31) }
    ensures sound { IfOk result (λ t. IsSound (view t)) }
{
    let names = spec.names();
    let room = spec.graph().vertices() + spec.graph().edges() + 2;
    let mut graph = Tree::with_room(alloc, room)?;
    push_number(&mut graph, b"directed", 1)?;
    push_outer(alloc, &mut graph, &names.edge, outer_shown(spec, extent))?;
    push_nodes(alloc, &mut graph, spec, extent)?;
    push_edges(alloc, &mut graph, spec, extent)?;
    Ok(graph)
}

/// The tree of the file.
#[tactic(auto, unfolding(gml_core::specs::Lexing::token_at))]
fn file_tree(alloc: Global, spec: &GraphSpec, extent: Extent) -> Result<Tree, NoMemory>
    requires writable { CanBeWritten extent spec.now }
    ensures entries { IfOk result (λ t. view t ≡ entries_by extent spec.now) }
    ensures sound { IfOk result (λ t. IsSound (view t)) }
{
    let graph = graph_tree(alloc, spec, extent)?;
    let mut tree = Tree::new(alloc);
    tree.push_list(b"graph", graph)?;
    Ok(tree)
}

/// The tree of a file with all that the graph has but written paths.
///
/// Shape: one pair `graph` with `directed 1`, then `outer` where the outer face is named, then a `node` with `id`,
/// `label` where there is one, and `order` for each vertex, then an `edge` with `id`, `source`, `target`, and `minlen`
/// where the length isn't 1, for each edge. Each place is 0.
/// Errors: `NoMemory`.
/// Cost: O(V + E + length of the orders), a list for each vertex, edge and order. Not proved.
pub fn written_tree(alloc: Global, spec: &GraphSpec) -> Result<Tree, NoMemory>
    requires { IsWritable spec.now }
    ensures entries { IfOk result (λ t. view t ≡ written_entries spec.now) }
    ensures sound { IfOk result (λ t. IsSound (view t)) }
{
    let tree = file_tree(alloc, spec, Extent::Whole)?;
    Ok(tree)
}

/// The tree of a file with the graph's vertices, by their names, and its edges, and with nothing else.
///
/// Shape: one pair `graph` with `directed 1`, then a `node` with its `id` for each vertex, then an `edge` with `source`
/// and `target` for each edge. Each place is 0.
/// Errors: `NoMemory`.
/// Cost: O(V + E), one list for each vertex and edge.
pub fn plain_tree(alloc: Global, spec: &GraphSpec) -> Result<Tree, NoMemory>
    ensures entries { IfOk result (λ t. view t ≡ plain_entries spec.now) }
    ensures sound { IfOk result (λ t. IsSound (view t)) }
{
    let tree = file_tree(alloc, spec, Extent::Plain)?;
    Ok(tree)
}
