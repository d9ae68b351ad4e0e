//! The two numbers of all vertices, by two ordered traversals from the source.
//!
//! An edge is taken from the top of a stack. When the last edge into a vertex was taken, the vertex gets the next number, and
//! the edges out of it go onto the stack. If they are taken from left to right, whatever is left of a vertex or reaches it
//! comes earlier: an edge that is still on the stack stands right of the walk by which the traversal came. From right to left
//! it is the same, mirrored.
ghost use Rattle.std.specs.Prelude.{◌≡◌, ◌<◌, ◌++◌, ◌↔◌, ℕ, length, reverse, slice_index_or, if◌then◌else◌, IfOk, OnOk};
ghost use Rattle.st_ids.specs.Walks.{Reaches};
ghost use Rattle.st_order.specs.Labels.{AreAtMost, AreLabels, AreSideNumbers};
ghost use Rattle.st_sides.specs.Sides.{ins, primal};

use crate::table::Labels;
use st_ids::{EdgeId, FaceId, IdVec, NoMemory, VertexId};
use st_sides::Sides;
use std::alloc::Global;

/// How many edges come into each vertex.
///
/// Errors: `NoMemory`.
/// Cost: O(V) time, and memory for a list of vertices. Not proved.
pub fn degrees(alloc: Global, sides: &Sides) -> Result<IdVec<VertexId, usize>, NoMemory>
    ensures size { IfOk result (λ w. length w ≡ sides.now.vertices) }
    ensures each { IfOk result (λ w. (v : ℕ) → v < sides.now.vertices → slice_index_or w v 0 ≡ length (ins sides.now v)) }
{
    let n = sides.vertices();
    let mut degree: IdVec<VertexId, usize> = IdVec::with_len(alloc, n, 0)?;
    for i in 0..n {
        degree.set(VertexId(i), sides.ins(VertexId(i)).len());
    }
    Ok(degree)
}

/// Puts edges on a stack; from the left, the first of them is the first to be taken, else the last.
///
/// Errors: `NoMemory`; the stack is as it was then or has some of the edges.
/// Cost: O(1) time for each edge. Not proved.
#[inline(always)]
pub fn put(stack: &mut Vec<EdgeId>, es: &[EdgeId], from_left: bool) -> Result<(), NoMemory>
    ensures { OnOk result (stack.new.items ≡ stack.old.items ++ (if from_left then reverse es.now else es.now)) }
{
    let at = stack.len();
    stack.extend_from_slice(es)?;
    if from_left {
        stack[at..].reverse();
    }
    Ok(())
}

/// The number of each vertex in the order in which the last of its edges in is taken. Edges out of a vertex are taken from
/// left to right, or from right to left.
#[inline(always)]
fn traverse(alloc: Global, sides: &Sides, from_left: bool) -> Result<IdVec<VertexId, u32>, NoMemory>
    ensures { IfOk result (λ xs. AreSideNumbers from_left sides.now xs) }
{
    st_sides::laws::local(sides);
    let mut waiting = degrees(alloc, sides)?;
    let mut number: IdVec<VertexId, u32> = IdVec::with_len(alloc, sides.vertices(), 0)?;
    let mut stack = Vec::new(alloc);
    let source = sides.low(FaceId(0));
    put(&mut stack, sides.outs(source), from_left)?;
    let mut next = 1;
    while let Some(e) = stack.pop() {
        let v = sides.head(e);
        let left = *waiting.get(v) - 1;
        waiting.set(v, left);
        if left == 0 {
            number.set(v, next);
            next += 1;
            put(&mut stack, sides.outs(v), from_left)?;
        }
    }
    Ok(number)
}

/// The two numbers of each vertex, from 0 to one less than the number of vertices: how many other vertices reach it or are
/// left of it, and how many reach it or are right of it. One vertex reaches another exactly where both its numbers are at
/// most the other's.
///
/// Errors: `NoMemory`.
/// Cost: O(V + E) time, and memory for three lists of vertices and one of edges. Not proved.
pub fn labels(alloc: Global, sides: &Sides) -> Result<Labels, NoMemory>
    ensures numbers { IfOk result (λ l. AreLabels sides.now l) }
    ensures reaching { IfOk result (λ l. (u v : ℕ) → u < sides.now.vertices → v < sides.now.vertices → Reaches (primal sides.now) u v ↔ AreAtMost l u v) }
{
    st_sides::laws::local(sides);
    let x = traverse(alloc, sides, true)?;
    let y = traverse(alloc, sides, false)?;
    Ok(Labels { x, y })
}
