//! The vertices put in order: each beside its parent, on the other side than its low point.
//!
//! After R. E. Tarjan, Two Streamlined Depth-First Search Algorithms (1986).
ghost use Rattle.std.specs.Prelude.{◌≡◌, ◌≢◌, ◌+◌, ◌<◌, ◌≤◌, ◌^◌, length, slice_index, slice_set, IfOk, MatchBool, List, Bool};
ghost use Rattle.st_bipolar.specs.Ordering.{IsLinking, AreListRanks, IsSearchTree};

use std::alloc::{AllocError, Global};

/// A list as two tables: what comes after each element, and what before it.
#[derive(Drop)]
struct Links {
    next: Vec<u32>,
    prev: Vec<u32>,
}

/// The two elements between which one comes that is put before the parent, or behind it.
fn gap(before: bool, parent: u32, next: &[u32], prev: &[u32]) -> (u32, u32)
    requires next { parent < length next.now }
    requires prev { parent < length prev.now }
    ensures { MatchBool before
        ((result.0 ≡ slice_index prev.now parent) × (result.1 ≡ parent))
        ((result.0 ≡ parent) × (result.1 ≡ slice_index next.now parent)) }
{
    if before {
        (prev[parent as usize], parent)
    } else {
        (parent, next[parent as usize])
    }
}

/// Puts k between a and b.
fn put(links: &mut Links, a: u32, b: u32, k: u32)
    requires a { a < length links.old.next.items }
    requires b { b < length links.old.prev.items }
    requires next { k < length links.old.next.items }
    requires prev { k < length links.old.prev.items }
    ensures next { links.new.next.items ≡ slice_set (slice_set links.old.next.items a k) k b }
    ensures prev { links.new.prev.items ≡ slice_set (slice_set links.old.prev.items b k) k a }
{
    links.next[a as usize] = k;
    links.next[k as usize] = b;
    links.prev[b as usize] = k;
    links.prev[k as usize] = a;
}

/// The list of all vertices.
fn link(alloc: Global, parents: &[u32], lows: &[u32]) -> Result<Links, AllocError>
    requires tree { IsSearchTree (length parents.now) parents.now lows.now }
    requires few { length parents.now < 2 ^ 32 }
    ensures { IfOk result (λ l. (sign : List Bool) × IsLinking (length parents.now) (length parents.now)
        (slice_index parents.now) (slice_index lows.now) sign l.next.items l.prev.items) }
{
    let n = parents.len();
    let mut sign = vec![in alloc; false; n]?;
    let mut links = Links {
        next: vec![in alloc; 0u32; n]?,
        prev: vec![in alloc; 0u32; n]?,
    };
    links.next[0] = 1;
    for k in 2..n {
        let parent = parents[k];
        let before = !sign[lows[k] as usize];
        let (a, b) = gap(before, parent, &links.next, &links.prev);
        put(&mut links, a, b, k as u32);
        sign[parent as usize] = before;
    }
    Ok(links)
}

/// The places of the vertices in the list, by their numbers.
///
/// Cost: O(n) time, four tables. Not proved.
pub fn rank(alloc: Global, parents: &[u32], lows: &[u32]) -> Result<Vec<u32>, AllocError>
    requires tree { IsSearchTree (length parents.now) parents.now lows.now }
    requires few { length parents.now < 2 ^ 32 }
    ensures { IfOk result (λ r.
        AreListRanks (length parents.now) (slice_index parents.now) (slice_index lows.now) r.items) }
{
    let links = link(alloc, parents, lows)?;
    let mut ranks = vec![in alloc; 0u32; parents.len()]?;
    let mut k = 0;
    for place in 0..parents.len() {
        ranks[k as usize] = place as u32;
        k = links.next[k as usize];
    }
    Ok(ranks)
}
