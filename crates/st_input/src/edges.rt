//! Edges by their names, and the written orders.
ghost use Rattle.st_input.specs.EdgeNames.{known_names};
ghost use Rattle.st_input.specs.Faults.{FailsBy, all_named, edge_id, edge_ids, edge_number, edge_names, edges_in, first_fault, id_fault, ids_fault, mention_fault, order_fault, orders_fault, same_fault, written_fault, written_in};
ghost use Rattle.st_input.specs.Names.{by_position, number_of};
ghost use Rattle.std.specs.Prelude.{◌≡◌, [], ◌∷◌, ◌++◌, ◌<◌, ◌^◌, length, map, None, IfOk, IfSome, OnOk};

use crate::fault::ShapeFault;
use crate::names::{NameSet, Salted};
use crate::runs::Run;
use st_ids::{EdgeId, EdgeList, IdVec, VertexId};
use st_parts::parts::{Edge, Mention, Node};
use std::alloc::Global;

/// How edges are found: by their ids, or, of so many edges, by their positions.
#[derive(Drop)]
pub(crate) enum EdgeNames {
    Ids(NameSet),
    Positions(u32),
}

pub(crate) fn all_have_ids(edges: &[Edge]) -> bool
    ensures { result ≡ all_named edges.now }
{
    for edge in edges {
        if edge.id.is_none() {
            return false;
        }
    }
    true
}

pub(crate) fn id_of(edge: Edge) -> i64
    ensures { result ≡ edge_id edge }
{
    match edge.id {
        Some(id) => id,
        None => 0,
    }
}

fn add_id(set: &mut NameSet, edge: &Edge) -> Result<(), ShapeFault>
    ensures names { OnOk result (set.new ≡ set.old ++ edge_id edge.now ∷ []) }
    ensures none { OnOk result (same_fault set.old (edge_id edge.now) ≡ None) }
    ensures fault { FailsBy (same_fault set.old (edge_id edge.now)) result }
{
    let id = id_of(*edge);
    if set.add(id)? {
        Ok(())
    } else {
        Err(ShapeFault::SameEdgeId { id })
    }
}

/// Whether the ids follow one another, so that none needs a hash.
fn are_consecutive(edges: &[Edge]) -> bool {
    let mut run = Run::new();
    for edge in edges {
        if !run.follow(id_of(*edge)) {
            return false;
        }
    }
    true
}

/// A salt of all the ids; where none of them needs a hash, an empty one.
fn salt_of(edges: &[Edge]) -> Salted {
    if are_consecutive(edges) {
        return Salted::new();
    }
    let mut salt = Salted::new();
    for edge in edges {
        salt.take(id_of(*edge));
    }
    salt
}

fn add_ids(set: &mut NameSet, edges: &[Edge]) -> Result<(), ShapeFault>
    requires { set.old ≡ [] }
    ensures names { OnOk result (set.new ≡ edge_ids edges.now) }
    ensures size { OnOk result (length set.new ≡ length edges.now) }
    ensures none { OnOk result (first_fault id_fault [] edges.now ≡ None) }
    ensures fault { FailsBy (first_fault id_fault [] edges.now) result }
{
    for edge in edges {
        add_id(set, edge)?;
    }
    Ok(())
}

fn ids_of(alloc: Global, edges: &[Edge]) -> Result<NameSet, ShapeFault>
    ensures names { IfOk result (λ s. s ≡ edge_ids edges.now) }
    ensures size { IfOk result (λ s. length s ≡ length edges.now) }
    ensures none { OnOk result (first_fault id_fault [] edges.now ≡ None) }
    ensures fault { FailsBy (first_fault id_fault [] edges.now) result }
{
    let mut set = NameSet::with_room(alloc, edges.len(), salt_of(edges));
    add_ids(&mut set, edges)?;
    Ok(set)
}

/// The names of the edges, to look them up.
#[tactic(auto, using(crate::proofs::NameLemmas::positions_length), unfolding(crate::specs::EdgeNames::known_names, crate::specs::Faults::edge_names))]
pub(crate) fn edges_by_name(alloc: Global, edges: &[Edge]) -> Result<EdgeNames, ShapeFault>
    requires { length edges.now < 2 ^ 32 }
    ensures names { IfOk result (λ n. known_names n ≡ edge_names edges.now) }
    ensures size { IfOk result (λ n. length (known_names n) ≡ length edges.now) }
    ensures none { OnOk result (ids_fault edges.now ≡ None) }
    ensures fault { FailsBy (ids_fault edges.now) result }
{
    if all_have_ids(edges) {
        Ok(EdgeNames::Ids(ids_of(alloc, edges)?))
    } else {
        Ok(EdgeNames::Positions(edges.len() as u32))
    }
}

#[tactic(auto, unfolding(crate::specs::Names::by_position))]
fn position_of(count: u32, name: i64) -> Option<u32>
    ensures number { result ≡ by_position count name }
    ensures within { IfSome result (λ n. n < count) }
{
    if 0 <= name && name < i64::from(count) {
        Some(name.unsigned_abs() as u32)
    } else {
        None
    }
}

/// The edge with a name.
#[tactic(auto, using(crate::proofs::NameLemmas::positions_length, crate::proofs::NameLemmas::position_found), unfolding(crate::specs::EdgeNames::known_names))]
pub(crate) fn edge_of(names: &EdgeNames, name: i64) -> Option<u32>
    requires { length (known_names names.now) < 2 ^ 32 }
    ensures number { result ≡ number_of (known_names names.now) name }
    ensures within { IfSome result (λ n. n < length (known_names names.now)) }
{
    match names {
        EdgeNames::Ids(ids) => ids.find(name),
        EdgeNames::Positions(count) => position_of(*count, name),
    }
}

/// The edge that is named at a place.
pub(crate) fn mentioned(names: &EdgeNames, mention: Mention) -> Result<u32, ShapeFault>
    requires { length (known_names names.now) < 2 ^ 32 }
    ensures edge { IfOk result (λ e. e ≡ edge_number (known_names names.now) mention) }
    ensures within { IfOk result (λ e. e < length (known_names names.now)) }
    ensures none { OnOk result (mention_fault (known_names names.now) mention ≡ None) }
    ensures fault { FailsBy (mention_fault (known_names names.now) mention) result }
{
    match edge_of(names, mention.name) {
        Some(n) => Ok(n),
        None => Err(ShapeFault::UnknownEdge { at: mention.at }),
    }
}

fn written_of(
    alloc: Global,
    names: &EdgeNames,
    mentions: &[Mention],
) -> Result<EdgeList, ShapeFault>
    requires { length (known_names names.now) < 2 ^ 32 }
    ensures edges { IfOk result (λ es. es ≡ edges_in (known_names names.now) mentions.now) }
    ensures none { OnOk result (order_fault (known_names names.now) mentions.now ≡ None) }
    ensures fault { FailsBy (order_fault (known_names names.now) mentions.now) result }
{
    let mut out = EdgeList::new(alloc);
    for mention in mentions {
        let edge = mentioned(names, *mention)?;
        out.push(EdgeId(edge))?;
    }
    Ok(out)
}

fn order_of(alloc: Global, names: &EdgeNames, node: &Node) -> Result<EdgeList, ShapeFault>
    requires { length (known_names names.now) < 2 ^ 32 }
    ensures edges { IfOk result (λ es. es ≡ written_in (known_names names.now) node.now) }
    ensures none { OnOk result (written_fault (known_names names.now) node.now.order ≡ None) }
    ensures fault { FailsBy (written_fault (known_names names.now) node.now.order) result }
{
    match &node.order {
        Some(mentions) => written_of(alloc, names, mentions.as_slice()),
        None => Ok(EdgeList::new(alloc)),
    }
}

/// The written orders, and an empty one where none is written.
pub(crate) fn orders_of(
    alloc: Global,
    names: &EdgeNames,
    nodes: &[Node],
) -> Result<IdVec<VertexId, EdgeList>, ShapeFault>
    requires names { length (known_names names.now) < 2 ^ 32 }
    requires nodes { length nodes.now < 2 ^ 31 }
    ensures orders { IfOk result (λ os. os ≡ map (written_in (known_names names.now)) nodes.now) }
    ensures none { OnOk result (orders_fault (known_names names.now) nodes.now ≡ None) }
    ensures fault { FailsBy (orders_fault (known_names names.now) nodes.now) result }
{
    let mut out = IdVec::with_capacity(alloc, nodes.len() as u32)?;
    for node in nodes {
        let order = order_of(alloc, names, node)?;
        let _: VertexId = out.push(order)?;
    }
    Ok(out)
}
