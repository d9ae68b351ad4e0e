//! Vertices by their names, and the ends and lengths of edges.
ghost use Rattle.st_input.specs.Faults.{FailsBy, arc_fault, edge_fault, unknown_end_fault, ends_fault, ends_in, first_fault, length_fault, lengths_in, name_fault, node_fault, node_name, node_names, pair_in, rows_of};
ghost use Rattle.st_input.specs.Names.{number_of};
ghost use Rattle.st_input.specs.Orders.{HasEndsBelow};
ghost use Rattle.std.specs.Prelude.{◌≡◌, [], ◌∷◌, ◌++◌, ◌<◌, ◌^◌, length, All, None, Some, IfOk, OnOk};

use crate::fault::ShapeFault;
use crate::names::{NameSet, Salted};
use crate::runs::Run;
use sqlite_items::Items;
use st_ids::limits::MOST_LENGTH;
use st_ids::{EdgeId, IdVec, NoMemory};
use st_parts::parts::{Edge, Minlen, Node, put};
use std::alloc::Global;

fn add_node(set: &mut NameSet, node: &Node) -> Result<(), ShapeFault>
    ensures names { OnOk result (set.new ≡ set.old ++ node_name node.now ∷ []) }
    ensures none { OnOk result (name_fault set.old node.now.at node.now.id ≡ None) }
    ensures fault { FailsBy (name_fault set.old node.now.at node.now.id) result }
{
    match node.id {
        Some(id) => {
            if set.add(id)? {
                Ok(())
            } else {
                Err(ShapeFault::SameId { id })
            }
        }
        None => Err(ShapeFault::NoId { at: node.at }),
    }
}

/// Whether the ids follow one another, so that none needs a hash.
fn are_consecutive(nodes: &[Node]) -> bool {
    let mut run = Run::new();
    for node in nodes {
        if let Some(id) = node.id {
            if !run.follow(id) {
                return false;
            }
        }
    }
    true
}

/// A salt of all the ids; where none of them needs a hash, an empty one.
fn salt_of(nodes: &[Node]) -> Salted {
    if are_consecutive(nodes) {
        return Salted::new();
    }
    let mut salt = Salted::new();
    for node in nodes {
        if let Some(id) = node.id {
            salt.take(id);
        }
    }
    salt
}

/// The names of the nodes.
pub(crate) fn nodes_by_name(alloc: Global, nodes: &[Node]) -> Result<NameSet, ShapeFault>
    ensures names { IfOk result (λ s. s ≡ node_names nodes.now) }
    ensures size { IfOk result (λ s. length s ≡ length nodes.now) }
    ensures none { OnOk result (first_fault node_fault [] nodes.now ≡ None) }
    ensures fault { FailsBy (first_fault node_fault [] nodes.now) result }
{
    let mut set = NameSet::with_room(alloc, nodes.len(), salt_of(nodes));
    for node in nodes {
        add_node(&mut set, node)?;
    }
    Ok(set)
}

fn end_of(vertices: &NameSet, edge: u32, name: i64) -> Result<u32, ShapeFault>
    requires { length vertices.now < 2 ^ 32 }
    ensures number { IfOk result (λ v. number_of vertices.now name ≡ Some v) }
    ensures within { IfOk result (λ v. v < length vertices.now) }
    ensures none { OnOk result (unknown_end_fault vertices.now edge name ≡ None) }
    ensures fault { FailsBy (unknown_end_fault vertices.now edge name) result }
{
    match vertices.find(name) {
        Some(n) => Ok(n),
        None => Err(ShapeFault::UnknownEnd { edge, id: name }),
    }
}

fn pair_of(vertices: &NameSet, i: u32, edge: Edge) -> Result<(u32, u32), ShapeFault>
    requires { length vertices.now < 2 ^ 32 }
    ensures ends { IfOk result (λ a. a ≡ pair_in vertices.now edge) }
    ensures within { IfOk result (HasEndsBelow (length vertices.now)) }
    ensures none { OnOk result (ends_fault vertices.now i edge.source edge.target ≡ None) }
    ensures fault { FailsBy (ends_fault vertices.now i edge.source edge.target) result }
{
    match (edge.source, edge.target) {
        (Some(source), Some(target)) => {
            let tail = end_of(vertices, i, source)?;
            let head = end_of(vertices, i, target)?;
            Ok((tail, head))
        }
        _ => Err(ShapeFault::NoEnd { edge: i }),
    }
}

/// The written length, else 1.
fn length_of(minlen: Option<Minlen>) -> Result<u32, ShapeFault>
    ensures rows { IfOk result (λ n. n ≡ rows_of minlen) }
    ensures none { OnOk result (length_fault minlen ≡ None) }
    ensures fault { FailsBy (length_fault minlen) result }
{
    match minlen {
        Some(written) => {
            if 1 <= written.rows && written.rows <= i64::from(MOST_LENGTH) {
                Ok(written.rows.unsigned_abs() as u32)
            } else {
                Err(ShapeFault::BadLength { at: written.at })
            }
        }
        None => Ok(1),
    }
}

/// The tail, the head and the length of an edge.
#[derive(Clone, Copy)]
struct Arc {
    ends: (u32, u32),
    length: u32,
}

fn arc_of(vertices: &NameSet, i: u32, edge: Edge) -> Result<Arc, ShapeFault>
    requires { length vertices.now < 2 ^ 32 }
    ensures ends { IfOk result (λ a. a.ends ≡ pair_in vertices.now edge) }
    ensures within { IfOk result (λ a. HasEndsBelow (length vertices.now) a.ends) }
    ensures rows { IfOk result (λ a. a.length ≡ rows_of edge.minlen) }
    ensures none { OnOk result (arc_fault vertices.now i edge ≡ None) }
    ensures fault { FailsBy (arc_fault vertices.now i edge) result }
{
    let ends = pair_of(vertices, i, edge)?;
    let length = length_of(edge.minlen)?;
    Ok(Arc { ends, length })
}

/// The tail and the head of each edge, and the length of each.
#[derive(Drop)]
pub(crate) struct Arcs {
    pub(crate) ends: Items<(u32, u32)>,
    pub(crate) lengths: IdVec<EdgeId, u32>,
}

/// No ends yet, with room for those of n edges.
fn room_for(alloc: Global, n: usize) -> Result<Items<(u32, u32)>, NoMemory>
    ensures { IfOk result (λ ends. ends ≡ []) }
{
    let ends = Vec::with_capacity(alloc, n)?;
    Ok(Items::from_vec(ends))
}

/// The ends and the length of each edge.
pub(crate) fn arcs_of(alloc: Global, vertices: &NameSet, edges: &[Edge]) -> Result<Arcs, ShapeFault>
    requires vertices { length vertices.now < 2 ^ 32 }
    requires edges { length edges.now < 2 ^ 31 }
    ensures ends { IfOk result (λ a. a.ends ≡ ends_in vertices.now edges.now) }
    ensures size { IfOk result (λ a. length a.ends ≡ length edges.now) }
    ensures within { IfOk result (λ a. All (HasEndsBelow (length vertices.now)) a.ends) }
    ensures lengths { IfOk result (λ a. a.lengths ≡ lengths_in edges.now) }
    ensures none { OnOk result (first_fault (edge_fault vertices.now) [] edges.now ≡ None) }
    ensures fault { FailsBy (first_fault (edge_fault vertices.now) [] edges.now) result }
{
    let mut ends = room_for(alloc, edges.len())?;
    let mut lengths = IdVec::with_capacity(alloc, edges.len() as u32)?;
    for (i, edge) in edges.iter().enumerate() {
        let arc = arc_of(vertices, i as u32, *edge)?;
        put(&mut ends, arc.ends)?;
        let _: EdgeId = lengths.push(arc.length)?;
    }
    Ok(Arcs { ends, lengths })
}
