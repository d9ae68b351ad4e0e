//! Compact points of vertices that stand in two orders.
//!
//! Along one order, the number of each vertex in the other is read. A step to a vertex that stands above in the other order,
//! and not next, needs no new column: the other coordinate tells the two apart.
ghost use Rattle.std.specs.Prelude.{◌≡◌, ℕ, ◌+◌, ◌^◌, ◌<◌, ◌≤◌, IfOk, length, slice_index, vec_len};
ghost use Rattle.draw_dom.specs.Compact.{growth, steps};
ghost use Rattle.draw_dom.specs.Points.{AreCompactPoints, AreNumberLists, AreCompactPlaces, CompareAsBoth, IsNumberList, vertex_number};

use crate::table::Compact;
use st_ids::{IdVec, NoMemory, VertexId};
use st_order::Labels;
use st_shape::Point;
use std::alloc::{AllocError, Global};

/// The numbers in the other order, along this one.
fn others_along(alloc: Global, numbers: &[u32], others: &[u32]) -> Result<Vec<u32>, AllocError>
    requires same { length numbers.now ≡ length others.now }
    requires numbering { IsNumberList numbers.now }
    ensures len { IfOk result (λ along. vec_len along ≡ length numbers.now) }
    ensures items { IfOk result (λ along. (v : ℕ) → v < length numbers.now → slice_index along.items (slice_index numbers.now v) ≡ slice_index others.now v) }
{
    let mut along = vec![in alloc; 0; numbers.len()]?;
    for (v, number) in numbers.iter().enumerate() {
        along[*number as usize] = others[v];
    }
    Ok(along)
}

/// What a step adds, from the numbers of its two vertices in the other order.
fn growth_of(from: u32, to: u32) -> u32
    ensures { result ≡ growth from to }
{
    if from < to && to - from > 1 { 0 } else { 1 }
}

/// The growing steps up to each vertex of the order.
fn growing_steps(alloc: Global, along: &[u32]) -> Result<Vec<u32>, AllocError>
    requires { length along.now < 2 ^ 32 }
    ensures len { IfOk result (λ places. vec_len places ≡ length along.now) }
    ensures items { IfOk result (λ places. (k : ℕ) → k < length along.now → slice_index places.items k ≡ steps (slice_index along.now) k) }
{
    let mut places = Vec::with_capacity(alloc, along.len())?;
    let mut place = 0;
    for k in 0..along.len() {
        if k > 0 {
            place += growth_of(along[k - 1], along[k]);
        }
        places.push(place)?;
    }
    Ok(places)
}

/// The growing steps up to each vertex of the file.
fn places(alloc: Global, numbers: &[u32], others: &[u32]) -> Result<Vec<u32>, AllocError>
    requires same { length numbers.now ≡ length others.now }
    requires numbering { IsNumberList numbers.now }
    requires few { length numbers.now < 2 ^ 32 }
    ensures { IfOk result (λ places. AreCompactPlaces numbers.now others.now places.items) }
{
    let along = others_along(alloc, numbers, others)?;
    let steps = growing_steps(alloc, &along)?;
    drop(along);
    let mut found = Vec::with_capacity(alloc, numbers.len())?;
    for number in numbers {
        found.push(steps[*number as usize])?;
    }
    Ok(found)
}

/// The compact point of each vertex.
fn points(
    alloc: Global,
    xs: &IdVec<VertexId, u32>,
    ys: &IdVec<VertexId, u32>,
) -> Result<Vec<Point>, AllocError>
    requires numbers { AreNumberLists xs.now ys.now }
    ensures { IfOk result (λ points. AreCompactPoints xs.now ys.now points.items) }
{
    let n = xs.len();
    let columns = places(alloc, xs.items(), ys.items())?;
    let rows = places(alloc, ys.items(), xs.items())?;
    let mut points = Vec::with_capacity(alloc, n as usize)?;
    for v in 0..n as usize {
        points.push(Point {
            x: i64::from(columns[v]),
            y: i64::from(rows[v]),
        })?;
    }
    Ok(points)
}

/// The compact point of each vertex for its two numbers. Its x is the number of growing steps up to the vertex in the order
/// of the numbers x: the step from a vertex to the next grows unless the next has the greater number y, and not by 1. Its y
/// is the same with x and y exchanged.
///
/// Different vertices have different points, and one point is at most another exactly where both numbers are.
///
/// Condition: x and y have one length, and each has every number below it once.
/// Errors: `NoMemory`.
/// Cost: O(n) time for n vertices, and memory for five lists of them. Not proved.
pub fn compact(alloc: Global, labels: &Labels) -> Result<Compact, NoMemory>
    requires numbers { AreNumberLists labels.now.x labels.now.y }
    ensures points { IfOk result (AreCompactPoints labels.now.x labels.now.y) }
    ensures law { IfOk result (CompareAsBoth labels.now.x labels.now.y) }
{
    match points(alloc, &labels.x, &labels.y) {
        Ok(points) => Ok(Compact::of(points)),
        Err(_) => Err(NoMemory),
    }
}
