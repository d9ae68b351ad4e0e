//! The faults that a search tells: a vertex that is apart from the first pole, and a vertex that cuts off others.
ghost use Rattle.std.specs.Prelude.{◌≡◌, ◌≢◌, ◌+◌, ◌<◌, ◌≤◌, ◌^◌, ℕ, true, false, length, slice_index, IfOk, IfSome, IfNone, MatchOption, ◌⊎◌, vec_len};
ghost use Rattle.st_map.specs.Embedded.{bare};
ghost use Rattle.st_bipolar.specs.Faults.{AreBranches, IsSecond, IsFirstApart, IsFirstJoint, IsJoint, IsKept, IsOff, IsSpread, is_marked};
ghost use Rattle.st_ids.specs.Undirected.{IsConnected};
ghost use Rattle.st_bipolar.specs.Cuts.{HasAll, IsFirstCut};
ghost use Rattle.st_bipolar.specs.Visits.{HasNoJointBy, IsVisitBy, first_pole, second_pole};

use crate::searching::Visit;
use st_map::Map;
use std::alloc::{AllocError, Global};

/// Marks all that is below a mark.
fn spread(parents: &[u32], mut marks: Vec<bool>) -> Vec<bool>
    requires size { vec_len marks ≡ length parents.now }
    requires up { (k : ℕ) → 1 ≤ k → k < length parents.now → slice_index parents.now k < k }
    ensures { IsSpread (length parents.now) (slice_index parents.now) marks.items result.items }
{
    for k in 1..parents.len() {
        if marks[parents[k] as usize] {
            marks[k] = true;
        }
    }
    marks
}

/// The first vertex that wasn't visited or is marked.
fn first_off(
    alloc: Global,
    n: u32,
    vertices: &[u32],
    marks: &[bool],
) -> Result<Option<u32>, AllocError>
    requires size { length marks.now ≡ length vertices.now }
    requires within { (k : ℕ) → k < length vertices.now → slice_index vertices.now k < n }
    requires apart { (i k : ℕ) → i < k → k < length vertices.now
        → slice_index vertices.now i ≢ slice_index vertices.now k }
    ensures none { IfOk result (λ r. IfNone r ((v : ℕ) → v < n → IsKept vertices.now marks.now v)) }
    ensures some { IfOk result (λ r. IfSome r (λ v. (v < n) × IsOff vertices.now marks.now v)) }
    ensures first { IfOk result (λ r. IfSome r (λ v. (u : ℕ) → u < v → IsKept vertices.now marks.now u)) }
{
    let mut kept = vec![in alloc; false; n as usize]?;
    for k in 0..vertices.len() {
        kept[vertices[k] as usize] = !marks[k];
    }
    for v in 0..n {
        if !kept[v as usize] {
            return Ok(Some(v));
        }
    }
    Ok(None)
}

/// Of the vertex that was found and the one with the number j, the number of the first.
fn earlier(vertices: &[u32], found: Option<u32>, j: u32) -> u32
    requires found { IfSome found (λ i. i < length vertices.now) }
    requires there { j < length vertices.now }
    ensures { MatchOption found (result ≡ j) (λ i.
        ((result ≡ i) × (slice_index vertices.now i ≤ slice_index vertices.now j))
        ⊎ ((result ≡ j) × (slice_index vertices.now j ≤ slice_index vertices.now i))) }
{
    match found {
        Some(i) => {
            if vertices[j as usize] < vertices[i as usize] {
                j
            } else {
                i
            }
        }
        None => j,
    }
}

/// The number of the first vertex, in file order, that is a joint.
fn first_joint(vertices: &[u32], parents: &[u32], lows: &[u32]) -> Option<u32>
    requires two { 2 ≤ length vertices.now }
    requires parents { length parents.now ≡ length vertices.now }
    requires lows { length lows.now ≡ length vertices.now }
    requires up { (k : ℕ) → 1 ≤ k → k < length vertices.now → slice_index parents.now k < k }
    ensures none { IfNone result
        ((j : ℕ) → IsJoint (length vertices.now) (slice_index parents.now) (slice_index lows.now) j → ⊥) }
    ensures some { IfSome result (IsFirstJoint vertices.now (slice_index parents.now) (slice_index lows.now)) }
{
    let mut first = None;
    for k in 2..vertices.len() {
        if lows[k] == parents[k] {
            first = Some(earlier(vertices, first, parents[k]));
        }
    }
    first
}

/// Marks the second pole, where no edge leads from it or from below it to the first.
fn mark_second(alloc: Global, lows: &[u32]) -> Result<Vec<bool>, AllocError>
    requires { 2 ≤ length lows.now }
    ensures { IfOk result (λ m. IsSecond (slice_index lows.now) m.items × (length m.items ≡ length lows.now)) }
{
    let mut marks = vec![in alloc; false; lows.len()]?;
    marks[1] = lows[1] != 0;
    Ok(marks)
}

/// The first vertex that no undirected walk joins to the first pole.
///
/// Cost: O(V) time, two tables. Not proved.
pub fn first_apart(alloc: Global, map: &Map, visit: &Visit) -> Result<Option<u32>, AllocError>
    requires visited { IsVisitBy (bare map.now.graph) visit.now }
    ensures none { IfOk result (λ r. IfNone r (IsConnected (bare map.now.graph) (first_pole visit.now))) }
    ensures all { IfOk result (λ r. IfNone r (HasAll (bare map.now.graph) visit.now.vertices.items)) }
    ensures some { IfOk result (λ r. IfSome r (IsFirstApart (bare map.now.graph) (first_pole visit.now))) }
{
    let second = mark_second(alloc, &visit.lows)?;
    let marks = spread(&visit.parents, second);
    let off = first_off(alloc, map.vertices(), &visit.vertices, &marks)?;
    Ok(off)
}

/// Marks the children of a joint whose low point is the joint.
fn mark_branches(
    alloc: Global,
    parents: &[u32],
    lows: &[u32],
    joint: u32,
) -> Result<Vec<bool>, AllocError>
    requires two { 2 ≤ length parents.now }
    requires size { length lows.now ≡ length parents.now }
    ensures { IfOk result (λ m.
        AreBranches (length parents.now) (slice_index parents.now) (slice_index lows.now) joint m.items) }
{
    let mut marks = vec![in alloc; false; parents.len()]?;
    for k in 2..parents.len() {
        marks[k] = parents[k] == joint && lows[k] == joint;
    }
    Ok(marks)
}

/// A vertex that cuts off another one.
#[derive(Clone, Copy, Debug, PartialEq, Eq)]
pub struct CutOff {
    pub cut: u32,
    pub apart: u32,
}

/// The first vertex that cuts off another one from both poles, and the first that it cuts off.
///
/// Cost: O(V) time, two tables. Not proved.
pub fn first_cut(alloc: Global, map: &Map, visit: &Visit) -> Result<Option<CutOff>, AllocError>
    requires visited { IsVisitBy (bare map.now.graph) visit.now }
    requires all { HasAll (bare map.now.graph) visit.now.vertices.items }
    ensures none { IfOk result (λ r. IfNone r (HasNoJointBy visit.now)) }
    ensures some { IfOk result (λ r. IfSome r (λ c.
        IsFirstCut (bare map.now.graph) (first_pole visit.now) (second_pole visit.now) c.cut c.apart)) }
{
    let joint = match first_joint(&visit.vertices, &visit.parents, &visit.lows) {
        Some(joint) => joint,
        None => return Ok(None),
    };
    let branches = mark_branches(alloc, &visit.parents, &visit.lows, joint)?;
    let marks = spread(&visit.parents, branches);
    let off = first_off(alloc, map.vertices(), &visit.vertices, &marks)?;
    Ok(Some(CutOff {
        cut: visit.vertices[joint as usize],
        apart: off.unwrap(),
    }))
}
