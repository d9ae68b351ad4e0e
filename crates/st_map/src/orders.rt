//! Whether lists of edges are permutations of the edges at their vertices.
//!
//! A list is lawful where its entries are edges at its vertex, no two are one, and they are as many as the vertex has
//! edges. A table marks each edge with the vertex at whose list it was met last, so that it is never cleared.
ghost use Rattle.std.specs.Prelude.{◌≡◌, ◌≢◌, ◌⊎◌, ◌↔◌, ◌+◌, ◌<◌, ◌^◌, ℕ, length, slice_index, IfOk, IsTrue, MatchResult};
ghost use Rattle.st_ids.specs.EdgeNumbers.{numbers};
ghost use Rattle.st_ids.specs.Graph.{Graph, AreWithin, tail_of, head_of};
ghost use Rattle.st_map.specs.Counting.{count_below};
ghost use Rattle.st_map.specs.Fault.{IsMapFault};
ghost use Rattle.st_map.specs.Orders.{HasEdges, HasNoLoop, IsOrderAt, order_at};
ghost use Rattle.st_map.specs.Tables.{AreDegrees, AreEdges, IsLawful, is_at};

use st_ids::{EdgeId, EdgeList, IdVec, VertexId};
use std::alloc::{AllocError, Global};
use thiserror::Error;

/// Why lists of edges make no map.
#[derive(Clone, Copy, Debug, PartialEq, Eq, Error)]
pub enum MapFault {
    /// The list of this vertex, and of none before it, isn't a permutation of the edges at the vertex.
    #[error("bad order at vertex {}", vertex.0)]
    BadOrder { vertex: VertexId },
    /// Memory ran out.
    #[error("no memory")]
    NoMemory,
}

impl From<AllocError> for MapFault {
    ghost use Rattle.std.specs.Prelude.{◌≡◌};
    ghost use Rattle.st_map.specs.declared.orders.MapFault.{MapFault};
    ghost use Rattle.st_map.specs.declared.orders.MapFault.TheVariants.{NoMemory as no_memory};

    ghost from_gives = { λ _ e. e ≡ no_memory };

    fn from(_e: AllocError) -> MapFault {
        MapFault::NoMemory
    }
}

/// How many edges a list has.
pub fn list_len(list: &[EdgeId]) -> usize
    ensures { result ≡ length (numbers list.now) }
{
    list.len()
}

/// The edge at a place of a list.
pub fn edge_at(list: &[EdgeId], k: usize) -> u32
    requires { k < length (numbers list.now) }
    ensures { result ≡ slice_index (numbers list.now) k }
{
    list[k].0
}

/// How many edges there are at each vertex.
pub fn degrees(alloc: Global, n: u32, ends: &[(u32, u32)]) -> Result<Vec<u32>, AllocError>
    requires within { AreWithin n ends.now }
    requires few { length ends.now < 2 ^ 30 }
    ensures { IfOk result (λ d. AreDegrees n ends.now (length ends.now) d.items) }
{
    let mut degree = vec![in alloc; 0u32; n as usize]?;
    for e in 0..ends.len() {
        let (tail, head) = ends[e];
        degree[tail as usize] += 1;
        degree[head as usize] += 1;
    }
    Ok(degree)
}

/// Whether the edge has an end at the vertex.
#[tactic(auto, unfolding(st_ids::specs::Graph::tail_of, st_ids::specs::Graph::head_of))]
fn is_end(ends: &[(u32, u32)], e: u32, v: u32) -> bool
    requires { e < length ends.now }
    ensures { result ≡ is_at ends.now v e }
{
    let (tail, head) = ends[e as usize];
    tail == v || head == v
}

/// Whether the list has the edges at v, each once, and no other.
fn is_lawful(list: &[EdgeId], v: u32, ends: &[(u32, u32)], degree: u32, seen: &mut [u32]) -> bool
    requires size { length seen.old ≡ length ends.now }
    requires fresh { (e : ℕ) → e < length ends.now → slice_index seen.old e ≢ v }
    requires edges { AreEdges ends.now (numbers list.now) }
    requires degree { degree ≡ count_below (length ends.now) (is_at ends.now v) }
    ensures lawful { IsTrue result ↔ IsLawful ends.now v (numbers list.now) }
    ensures seen { (e : ℕ) → e < length ends.now → (slice_index seen.new e ≡ v) ⊎ (slice_index seen.new e ≡ slice_index seen.old e) }
{
    let len = list_len(list);
    for k in 0..len {
        let e = edge_at(list, k);
        if !is_end(ends, e, v) {
            return false;
        }
        if seen[e as usize] == v {
            return false;
        }
        seen[e as usize] = v;
    }
    len == degree as usize
}

/// Whether all lists are lawful, else the first vertex whose list isn't.
pub fn check_orders(
    alloc: Global,
    n: u32,
    ends: &[(u32, u32)],
    degree: &[u32],
    orders: &IdVec<VertexId, EdgeList>,
) -> Result<(), MapFault>
    requires few { (n < 2 ^ 30) × (length ends.now < 2 ^ 30) }
    requires no_loop { (e : ℕ) → e < length ends.now → tail_of ends.now e ≢ head_of ends.now e }
    requires degrees { AreDegrees n ends.now (length ends.now) degree.now }
    requires size { length orders.now ≡ n }
    requires edges { (v : ℕ) → v < n → AreEdges ends.now (order_at orders.now v) }
    ensures { MatchResult result (λ _. (v : ℕ) → v < n → IsOrderAt ends.now v (order_at orders.now v)) (IsMapFault (record { vertices = n; ends = ends.now }) orders.now) }
{
    let mut seen = vec![in alloc; u32::MAX; ends.len()]?;
    for v in 0..n {
        let vertex = VertexId(v);
        if !is_lawful(
            orders.get(vertex).items(),
            v,
            ends,
            degree[v as usize],
            &mut seen,
        ) {
            return Err(MapFault::BadOrder { vertex });
        }
    }
    Ok(())
}
