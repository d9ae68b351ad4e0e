//! Vertices taken away one by one, each when no edge comes to it from a vertex that is left.
//!
//! What is taken away is in a topological order; what is left are the vertices at which walks of any length end.
//! After A. B. Kahn, Topological Sorting of Large Networks (1962).
ghost use Rattle.std.specs.Prelude.{◌≡◌, ◌+◌, ◌<◌, ◌^◌, length, slice_index, IfOk, OnOk};
ghost use Rattle.st_ids.specs.Graph.{AreWithin};
ghost use Rattle.st_map.specs.Tables.{leaves};
ghost use Rattle.st_test.specs.Stripping.{AreChains, AreInDegrees, AreOutDegrees, IsStripped, last_below};
ghost use Rattle.st_test.specs.StripState.{IsFront, IsReleasing, AreZeros, IsBefore};

use std::alloc::{AllocError, Global};

/// For each vertex its last edge out, and for each edge the one before it out of the same vertex: one more than the
/// edge's number, and 0 for none.
#[derive(Drop)]
pub struct Links {
    pub last: Vec<u32>,
    pub before: Vec<u32>,
}

/// Vertices in the order in which they were taken away, and the edges out of them.
#[derive(Drop)]
pub struct Order {
    pub vertices: Vec<u32>,
    pub edges: Vec<u32>,
}

/// The links of the edges out of each vertex.
#[tactic(auto, unfolding(st_ids::specs::Graph::tail_of, st_ids::specs::Graph::head_of))]
pub fn link_edges(alloc: Global, n: u32, ends: &[(u32, u32)]) -> Result<Links, AllocError>
    requires within { AreWithin n ends.now }
    requires few { length ends.now < 2 ^ 30 }
    ensures { IfOk result (λ l. AreChains n ends.now l.last.items l.before.items) }
{
    let mut last = vec![in alloc; 0u32; n as usize]?;
    let mut before = Vec::with_capacity(alloc, ends.len())?;
    for e in 0..ends.len() {
        let tail = ends[e].0 as usize;
        before.push(last[tail])?;
        last[tail] = e as u32 + 1;
    }
    Ok(Links { last, before })
}

/// How many edges come to each vertex.
#[tactic(auto, unfolding(st_ids::specs::Graph::tail_of, st_ids::specs::Graph::head_of))]
pub fn count_edges_in(alloc: Global, n: u32, ends: &[(u32, u32)]) -> Result<Vec<u32>, AllocError>
    requires within { AreWithin n ends.now }
    requires few { length ends.now < 2 ^ 30 }
    ensures { IfOk result (λ v. AreInDegrees n ends.now v.items) }
{
    let mut degree = vec![in alloc; 0u32; n as usize]?;
    for e in 0..ends.len() {
        let head = ends[e].1 as usize;
        degree[head] += 1;
    }
    Ok(degree)
}

/// How many edges leave each vertex.
#[tactic(auto, unfolding(st_ids::specs::Graph::tail_of, st_ids::specs::Graph::head_of))]
pub fn count_edges_out(alloc: Global, n: u32, ends: &[(u32, u32)]) -> Result<Vec<u32>, AllocError>
    requires within { AreWithin n ends.now }
    requires few { length ends.now < 2 ^ 30 }
    ensures { IfOk result (λ v. AreOutDegrees n ends.now v.items) }
{
    let mut degree = vec![in alloc; 0u32; n as usize]?;
    for e in 0..ends.len() {
        let tail = ends[e].0 as usize;
        degree[tail] += 1;
    }
    Ok(degree)
}

/// The vertices with degree 0, in file order.
pub fn list_zeros(alloc: Global, n: u32, degree: &[u32]) -> Result<Vec<u32>, AllocError>
    requires { length degree.now ≡ n }
    ensures { IfOk result (λ v. AreZeros n degree.now v.items) }
{
    let mut order = Vec::with_capacity(alloc, n as usize)?;
    for v in 0..n {
        if degree[v as usize] == 0 {
            order.push(v)?;
        }
    }
    Ok(order)
}

/// Takes away the edges out of the vertex at a place of the order.
#[tactic(auto, unfolding(st_ids::specs::Graph::tail_of, st_ids::specs::Graph::head_of))]
fn release(
    order: &mut Vec<u32>,
    es: &mut Vec<u32>,
    degree: &mut [u32],
    ends: &[(u32, u32)],
    before: &[u32],
    place: usize,
    last: u32,
) -> Result<(), AllocError>
    requires within { AreWithin (length degree.old) ends.now }
    requires few { length ends.now < 2 ^ 30 }
    requires before { IsBefore ends.now before.now }
    requires place { place < length order.old.items }
    requires last { last ≡ last_below (length ends.now) (leaves ends.now (slice_index order.old.items place)) }
    requires ready { IsReleasing (length degree.old) ends.now place order.old.items es.old.items degree.old }
    ensures front { OnOk result (IsFront order.old.items order.new.items) }
    ensures done { OnOk result (IsReleasing (length degree.old) ends.now (place + 1) order.new.items es.new.items degree.new) }
{
    let mut link = last;
    while link > 0 {
        let e = link - 1;
        let head = ends[e as usize].1;
        let left = degree[head as usize] - 1;
        degree[head as usize] = left;
        es.push(e)?;
        if left == 0 {
            order.push(head)?;
        }
        link = before[e as usize];
    }
    Ok(())
}

/// Takes vertices away, each when no edge comes to it from a vertex that is left, until there is none such.
///
/// Cost: O(n + edges) time, five lists of u32: three of n items and two of the number of edges. Not proved.
pub fn strip(alloc: Global, n: u32, ends: &[(u32, u32)]) -> Result<Order, AllocError>
    requires within { AreWithin n ends.now }
    requires few { length ends.now < 2 ^ 30 }
    ensures { IfOk result (λ o. IsStripped n ends.now o.vertices.items o.edges.items) }
{
    let links = link_edges(alloc, n, ends)?;
    let mut degree = count_edges_in(alloc, n, ends)?;
    let mut order = list_zeros(alloc, n, &degree)?;
    let mut edges = Vec::with_capacity(alloc, ends.len())?;
    let mut place = 0;
    while place < order.len() {
        let last = links.last[order[place] as usize];
        release(
            &mut order,
            &mut edges,
            &mut degree,
            ends,
            &links.before,
            place,
            last,
        )?;
        place += 1;
    }
    Ok(Order {
        vertices: order,
        edges,
    })
}
