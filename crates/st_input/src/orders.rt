//! The edges at each vertex, clockwise: where no order is written, the default one is filled in.
//!
//! One pass forward over the edges puts each behind the list of its tail, and one pass backward behind the list of
//! its head. Cost: O(V + E) on average.
ghost use Rattle.st_input.specs.Orders.{AreAt, Filled, HasEndsBelow, default_order, extended, ins_from, is_free, one, outs_from};
ghost use Rattle.std.specs.Prelude.{◌≡◌, ◌<◌, ◌^◌, length, map, All, IfOk, OnOk};

use st_ids::{EdgeId, EdgeList, IdVec, NoMemory, VertexId};
use st_parts::parts::Node;
use std::alloc::Global;

fn free_of(alloc: Global, nodes: &[Node]) -> Result<IdVec<VertexId, bool>, NoMemory>
    requires { length nodes.now < 2 ^ 31 }
    ensures value { IfOk result (λ o. o ≡ map is_free nodes.now) }
    ensures size { IfOk result (λ o. length o ≡ length nodes.now) }
{
    let mut free = IdVec::with_capacity(alloc, nodes.len() as u32)?;
    for node in nodes {
        let _: VertexId = free.push(node.order.is_none())?;
    }
    Ok(free)
}

#[tactic(auto, using(crate::proofs::Fills::put_more))]
fn put_free(
    orders: &mut IdVec<VertexId, EdgeList>,
    free: &IdVec<VertexId, bool>,
    v: VertexId,
    e: EdgeId,
) -> Result<(), NoMemory>
    requires size { length orders.old ≡ length free.now }
    requires within { v.0 < length free.now }
    ensures size { OnOk result (length orders.new ≡ length free.now) }
    ensures lists { OnOk result (AreAt (length free.now) orders.new (extended free.now orders.old (one v.0 e.0))) }
{
    if *free.get(v) {
        orders.push_at(v, e)?;
    }
    Ok(())
}

fn fill_outs(
    orders: &mut IdVec<VertexId, EdgeList>,
    free: &IdVec<VertexId, bool>,
    ends: &[(u32, u32)],
) -> Result<(), NoMemory>
    requires size { length orders.old ≡ length free.now }
    requires within { All (HasEndsBelow (length free.now)) ends.now }
    requires small { length ends.now < 2 ^ 32 }
    ensures filled { OnOk result (Filled free.now orders.old orders.new (outs_from 0 ends.now)) }
{
    for (i, pair) in ends.iter().enumerate() {
        put_free(orders, free, VertexId(pair.0), EdgeId(i as u32))?;
    }
    Ok(())
}

fn fill_ins(
    orders: &mut IdVec<VertexId, EdgeList>,
    free: &IdVec<VertexId, bool>,
    ends: &[(u32, u32)],
) -> Result<(), NoMemory>
    requires size { length orders.old ≡ length free.now }
    requires within { All (HasEndsBelow (length free.now)) ends.now }
    requires small { length ends.now < 2 ^ 32 }
    ensures filled { OnOk result (Filled free.now orders.old orders.new (ins_from 0 ends.now)) }
{
    let mut i = ends.len();
    while i > 0 {
        i -= 1;
        put_free(orders, free, VertexId(ends[i].1), EdgeId(i as u32))?;
    }
    Ok(())
}

#[tactic(auto, using(crate::proofs::Fills::filled_twice))]
pub(crate) fn fill_free(
    orders: &mut IdVec<VertexId, EdgeList>,
    free: &IdVec<VertexId, bool>,
    ends: &[(u32, u32)],
) -> Result<(), NoMemory>
    requires size { length orders.old ≡ length free.now }
    requires within { All (HasEndsBelow (length free.now)) ends.now }
    requires small { length ends.now < 2 ^ 32 }
    ensures filled { OnOk result (Filled free.now orders.old orders.new (default_order ends.now)) }
{
    fill_outs(orders, free, ends)?;
    fill_ins(orders, free, ends)
}

/// The written orders, with the default where none is written.
pub(crate) fn whole_orders(
    alloc: Global,
    orders: IdVec<VertexId, EdgeList>,
    nodes: &[Node],
    ends: &[(u32, u32)],
) -> Result<IdVec<VertexId, EdgeList>, NoMemory>
    requires size { length orders ≡ length nodes.now }
    requires within { All (HasEndsBelow (length nodes.now)) ends.now }
    requires nodes { length nodes.now < 2 ^ 31 }
    requires ends { length ends.now < 2 ^ 32 }
    ensures size { IfOk result (λ os. length os ≡ length nodes.now) }
    ensures orders { IfOk result (λ os. AreAt (length nodes.now) os (extended (map is_free nodes.now) orders (default_order ends.now))) }
{
    let mut orders = orders;
    let free = free_of(alloc, nodes)?;
    fill_free(&mut orders, &free, ends)?;
    Ok(orders)
}
