//! The cycle that is named.
//!
//! The vertices that are left when no more can be taken away are those at which walks of any length end. Each has an
//! edge from another such vertex, so one can go back for ever, along the first such edge of each: first a way, then a
//! loop. The marks of the vertices that were passed are their places on the way, so the vertex that comes a second time
//! tells where the loop begins. Its edges are listed from its least vertex on, forwards.
ghost use Rattle.std.specs.Prelude.{◌≡◌, ◌+◌, ◌-◌, ◌<◌, ◌≤◌, ◌^◌, ℕ, true, false, length, slice_index, IfOk, IfSome, MatchOption, MatchResult};
ghost use Rattle.st_ids.specs.Graph.{AreWithin};
ghost use Rattle.st_test.specs.Poles.{graph_of};
ghost use Rattle.st_test.specs.Stripping.{IsStripped};
ghost use Rattle.st_test.specs.Cycle.{IsNamedCycle, IsLoop, back_list};
ghost use Rattle.st_test.specs.BackTables.{AreLeft, is_left, AreBacks, IsClosed, IsTrail, IsLeastPlace, wrapped, looped};

use crate::digraph_fault::DigraphFault;
use crate::stripping::Order;
use st_ids::{EdgeId, EdgeList, NoMemory};
use std::alloc::{AllocError, Global};

/// Which vertices are not in the order.
pub fn mark_left(alloc: Global, n: u32, order: &[u32]) -> Result<Vec<bool>, AllocError>
    requires { (k : ℕ) → k < length order.now → slice_index order.now k < n }
    ensures { IfOk result (λ v. AreLeft n order.now v.items) }
{
    let mut left = vec![in alloc; true; n as usize]?;
    for k in 0..order.len() {
        left[order[k] as usize] = false;
    }
    Ok(left)
}

/// The first vertex that is left.
pub fn find_first(n: u32, left: &[bool]) -> Option<u32>
    requires { length left.now ≡ n }
    ensures none { MatchOption result ((v : ℕ) → v < n → is_left left.now v ≡ false) (λ v. (v < n) × (is_left left.now v ≡ true)) }
    ensures first { IfSome result (λ v. (u : ℕ) → u < v → is_left left.now u ≡ false) }
{
    for v in 0..n {
        if left[v as usize] {
            return Some(v);
        }
    }
    None
}

/// For each vertex the first edge that comes to it from a vertex that is left.
#[tactic(auto, unfolding(st_ids::specs::Graph::tail_of, st_ids::specs::Graph::head_of))]
pub fn find_backs(
    alloc: Global,
    n: u32,
    ends: &[(u32, u32)],
    left: &[bool],
) -> Result<Vec<u32>, AllocError>
    requires within { AreWithin n ends.now }
    requires few { length ends.now < 2 ^ 30 }
    requires size { length left.now ≡ n }
    ensures { IfOk result (λ v. AreBacks n ends.now left.now (length ends.now) v.items) }
{
    let mut back = vec![in alloc; u32::MAX; n as usize]?;
    for e in 0..ends.len() {
        let (tail, head) = ends[e];
        if left[tail as usize] && back[head as usize] == u32::MAX {
            back[head as usize] = e as u32;
        }
    }
    Ok(back)
}

/// The vertices that are passed on the way back, and the place at which the last of the way came first.
#[derive(Drop)]
pub struct Trail {
    pub passed: Vec<u32>,
    pub first: u32,
}

/// Goes back until a vertex comes a second time.
#[tactic(auto, unfolding(st_ids::specs::Graph::tail_of, st_ids::specs::Graph::head_of))]
pub fn go_back(
    alloc: Global,
    n: u32,
    ends: &[(u32, u32)],
    left: &[bool],
    back: &[u32],
    start: u32,
) -> Result<Trail, AllocError>
    requires few { n < 2 ^ 30 }
    requires closed { IsClosed n ends.now left.now back.now }
    requires there { start < n }
    requires is_one { is_left left.now start ≡ true }
    ensures { IfOk result (λ t. IsTrail ends.now back.now start t.passed.items t.first) }
{
    let mut place = vec![in alloc; u32::MAX; n as usize]?;
    let mut passed = Vec::new(alloc);
    let mut v = start;
    while place[v as usize] == u32::MAX {
        place[v as usize] = passed.len() as u32;
        passed.push(v)?;
        v = ends[back[v as usize] as usize].0;
    }
    let first = place[v as usize];
    Ok(Trail { passed, first })
}

/// The place of the least vertex from a place on.
pub fn find_least(passed: &[u32], from: usize) -> usize
    requires { from < length passed.now }
    ensures { IsLeastPlace passed.now from result }
{
    let mut least = from;
    for k in from..passed.len() {
        if passed[k] < passed[least] {
            least = k;
        }
    }
    least
}

/// The place on a loop of `round` steps that ends before `end`.
fn wrap(k: usize, end: usize, round: usize) -> usize
    requires { round ≤ end }
    ensures value { result ≡ wrapped end round k }
    ensures below { k < end → result ≡ k }
    ensures above { end ≤ k → result + round ≡ k }
{
    if k < end { k } else { k - round }
}

/// The edges of the loop in their direction, from the vertex at the place `least` on.
pub fn list_loop(
    alloc: Global,
    passed: &[u32],
    back: &[u32],
    first: usize,
    least: usize,
) -> Result<EdgeList, NoMemory>
    requires there { IsLeastPlace passed.now first least }
    requires edges { (k : ℕ) → k < length passed.now → slice_index passed.now k < length back.now }
    requires few { length passed.now < 2 ^ 32 }
    ensures { IfOk result (λ es. es ≡ back_list (looped passed.now back.now first) least (length passed.now - first)) }
{
    let mut es = EdgeList::new(alloc);
    let round = passed.len() - first;
    let mut k = least + round;
    while k > least {
        k -= 1;
        let at = wrap(k, passed.len(), round);
        es.push(EdgeId(back[passed[at] as usize]))?;
    }
    Ok(es)
}

/// The cycle that is named, where a first vertex is left.
pub fn name_cycle(
    alloc: Global,
    n: u32,
    ends: &[(u32, u32)],
    order: &Order,
    left: &[bool],
    start: u32,
) -> Result<EdgeList, DigraphFault>
    requires within { AreWithin n ends.now }
    requires few { (n < 2 ^ 30) × (length ends.now < 2 ^ 30) }
    requires stripped { IsStripped n ends.now order.now.vertices.items order.now.edges.items }
    requires left { AreLeft n order.now.vertices.items left.now }
    requires there { start < n }
    requires is_one { is_left left.now start ≡ true }
    requires first { (u : ℕ) → u < start → is_left left.now u ≡ false }
    ensures { MatchResult result (λ es. IsNamedCycle (graph_of n ends.now) es × IsLoop (graph_of n ends.now) es) (λ e. e ≡ DigraphFault.NoMemory) }
{
    let back = find_backs(alloc, n, ends, left)?;
    let trail = go_back(alloc, n, ends, left, &back, start)?;
    let first = trail.first as usize;
    let least = find_least(&trail.passed, first);
    let es = list_loop(alloc, &trail.passed, &back, first, least)?;
    Ok(es)
}
