//! A sweep from left to right: the nodes of the dual, each after all nodes on the left of its left edges.
//!
//! The dual has an arc from the node on the left of each edge to the node on its right, and no cycle. A sweep is a
//! topological order of it.
ghost use Rattle.std.specs.Prelude.{◌≡◌, ◌<◌, ◌^◌, ◌∷◌, ◌++◌, [], IfOk, OnOk};
ghost use Rattle.st_test.specs.Topological.{vertex_numbers};
ghost use Rattle.st_sides.specs.Sides.{edge_count, face_left, face_right};
ghost use Rattle.st_sides.specs.Sweep.{AreDualArcs, AreSwept, IsSweep, node_numbers};

use crate::order::Sweep;
use crate::{Sides, laws};
use st_ids::{EdgeId, FaceId, NoMemory, VertexId};
use st_test::order_arcs;
use std::alloc::Global;

/// Appends an arc.
fn put_arc(list: &mut Vec<(u32, u32)>, tail: u32, head: u32) -> Result<(), NoMemory>
    ensures { OnOk result (list.new.items ≡ list.old.items ++ (tail, head) ∷ []) }
{
    list.push((tail, head))?;
    Ok(())
}

/// The arcs of the dual: from the node on the left of each edge to the node on its right.
fn dual_arcs(alloc: Global, sides: &Sides) -> Result<Vec<(u32, u32)>, NoMemory>
    ensures arcs { IfOk result (λ arcs. AreDualArcs sides.now (edge_count sides.now) arcs.items) }
    ensures few { edge_count sides.now < 2 ^ 30 }
{
    let mut arcs = Vec::with_capacity(alloc, sides.edges() as usize)?;
    for e in 0..sides.edges() {
        let (left, right) = (sides.face_left(EdgeId(e)), sides.face_right(EdgeId(e)));
        put_arc(&mut arcs, left.0, right.0)?;
    }
    Ok(arcs)
}

/// Appends a node.
fn put_node(list: &mut Vec<FaceId>, f: FaceId) -> Result<(), NoMemory>
    ensures { OnOk result (list.new.items ≡ list.old.items ++ f ∷ []) }
{
    list.push(f)?;
    Ok(())
}

/// The nodes with the numbers of these.
fn node_list(alloc: Global, order: &[VertexId]) -> Result<Vec<FaceId>, NoMemory>
    ensures { IfOk result (λ l. node_numbers l.items ≡ vertex_numbers order.now) }
{
    let mut list = Vec::with_capacity(alloc, order.len())?;
    for v in order {
        put_node(&mut list, FaceId(v.0))?;
    }
    Ok(list)
}

/// A sweep of the drawing from left to right: each node of the dual once, the node on the left of each edge before the
/// node on its right. It begins with the left half of the outer face and ends with the right half.
///
/// Errors: `NoMemory`.
/// Cost: O(V + E) time, a few lists of u32 of as many items. Not proved.
pub fn sweep(alloc: Global, sides: &Sides) -> Result<Sweep, NoMemory>
    ensures sweep { IfOk result (λ s. IsSweep sides.now s) }
    ensures places { IfOk result (λ s. AreSwept sides.now s) }
{
    laws::local(sides);
    laws::boundary(sides);
    let arcs = dual_arcs(alloc, sides)?;
    let order = order_arcs(alloc, sides.faces(), &arcs)?;
    let nodes = node_list(alloc, order.vertices())?;
    Ok(Sweep::of(nodes))
}
