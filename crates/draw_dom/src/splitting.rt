//! The two numbers of each vertex of the reduced graph, from the sides of the graph itself.
//!
//! The edges out of a vertex are the same in both graphs. An edge that has a dummy is two edges of the reduced graph: the
//! first leads to the dummy, which gets the next number at once, and the second is the only edge out of the dummy, so it
//! would be the next to be taken. So the traversal of the reduced graph takes the edges of the graph itself in the same
//! order, and gives the dummy of each edge its number on the way.
ghost use Rattle.std.specs.Prelude.{◌≡◌, ℕ, ◌+◌, ◌<◌, ◌^◌, length, slice_set, option_map, None, Some, IfOk};
ghost use Rattle.st_order.specs.Labels.{AreLabels, AreSideNumbers};
ghost use Rattle.st_reduce.specs.Marks.{dummy_numbers};
ghost use Rattle.st_sides.specs.Sides.{SidesValue};
ghost use Rattle.draw_dom.specs.Splitting.{HasSplitSides, IsSplitSides};

use st_ids::{FaceId, IdVec, NoMemory, VertexId};
use st_order::{Labels, degrees, put};
use st_reduce::Dummies;
use st_sides::Sides;
use std::alloc::Global;

/// Gives the dummy, if there is one, the next number, and answers the number after it.
#[inline(always)]
fn pass_dummy(numbers: &mut IdVec<VertexId, u32>, dummy: Option<VertexId>, next: u32) -> u32
    requires there { (w : ℕ) → option_map (λ v. v.0) dummy ≡ Some w → w < length numbers.old }
    requires few { next + 1 < 2 ^ 32 }
    ensures none { option_map (λ v. v.0) dummy ≡ None → (result ≡ next) × (numbers.new ≡ numbers.old) }
    ensures some { (w : ℕ) → option_map (λ v. v.0) dummy ≡ Some w → (result ≡ next + 1) × (numbers.new ≡ slice_set numbers.old w next) }
{
    match dummy {
        Some(w) => {
            numbers.set(w, next);
            next + 1
        }
        None => next,
    }
}

/// The number of each vertex and each dummy in the order in which the last of its edges in is taken. Edges out of a vertex
/// are taken from left to right, or from right to left.
#[inline(always)]
fn traverse(
    alloc: Global,
    sides: &Sides,
    dummies: &Dummies,
    from_left: bool,
) -> Result<IdVec<VertexId, u32>, NoMemory>
    requires some { HasSplitSides sides.now (dummy_numbers dummies.now.of_edges) dummies.now.vertices }
    requires few { dummies.now.vertices < 2 ^ 30 }
    ensures { IfOk result (λ xs. (r : SidesValue) → IsSplitSides sides.now (dummy_numbers dummies.now.of_edges) dummies.now.vertices r → AreSideNumbers from_left r xs) }
{
    st_sides::laws::local(sides);
    let mut waiting = degrees(alloc, sides)?;
    let mut numbers: IdVec<VertexId, u32> = IdVec::with_len(alloc, dummies.vertices, 0)?;
    let mut stack = Vec::new(alloc);
    let source = sides.low(FaceId(0));
    put(&mut stack, sides.outs(source), from_left)?;
    let mut next = 1;
    while let Some(e) = stack.pop() {
        next = pass_dummy(&mut numbers, *dummies.of_edges.get(e), next);
        let v = sides.head(e);
        let left = *waiting.get(v) - 1;
        waiting.set(v, left);
        if left == 0 {
            numbers.set(v, next);
            next += 1;
            put(&mut stack, sides.outs(v), from_left)?;
        }
    }
    Ok(numbers)
}

/// The two numbers of each vertex and each dummy in the reduced graph.
pub(crate) fn split_labels(
    alloc: Global,
    sides: &Sides,
    dummies: &Dummies,
) -> Result<Labels, NoMemory>
    requires some { HasSplitSides sides.now (dummy_numbers dummies.now.of_edges) dummies.now.vertices }
    requires few { dummies.now.vertices < 2 ^ 30 }
    ensures { IfOk result (λ l. (r : SidesValue) → IsSplitSides sides.now (dummy_numbers dummies.now.of_edges) dummies.now.vertices r → AreLabels r l) }
{
    let x = traverse(alloc, sides, dummies, true)?;
    let y = traverse(alloc, sides, dummies, false)?;
    Ok(Labels { x, y })
}
