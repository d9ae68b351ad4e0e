//! Numbers of the vertices of an undirected graph between two poles, from what a search delivers.
ghost use Rattle.std.specs.Prelude.{◌≡◌, ◌≢◌, ◌<◌, ◌^◌, ℕ, length, slice_index, IfOk};
ghost use Rattle.st_map.specs.Embedded.{bare};
ghost use Rattle.st_map.specs.Orders.{HasNoLoop};
ghost use Rattle.st_bipolar.specs.Numbering.{AreRankNumbers};
ghost use Rattle.st_ids.specs.Undirected.{IsConnected};
ghost use Rattle.st_bipolar.specs.Cuts.{HasAll, IsStNumbering};
ghost use Rattle.st_bipolar.specs.Visits.{HasNoJointBy, IsVisitBy, first_pole, second_pole};

use crate::ordering::rank;
use crate::searching::Visit;
use st_ids::{IdVec, NoMemory, VertexId};
use st_map::Map;
use st_map::laws::rotation;
use std::alloc::Global;

/// The places of the vertices, from those of their numbers.
fn by_vertex(
    alloc: Global,
    n: u32,
    vertices: &[u32],
    ranks: &[u32],
) -> Result<IdVec<VertexId, u32>, NoMemory>
    requires size { length ranks.now ≡ length vertices.now }
    requires within { (k : ℕ) → k < length vertices.now → slice_index vertices.now k < n }
    requires apart { (i k : ℕ) → i < k → k < length vertices.now
        → slice_index vertices.now i ≢ slice_index vertices.now k }
    ensures { IfOk result (λ r. AreRankNumbers n vertices.now ranks.now (length vertices.now) r) }
{
    let mut numbers = IdVec::with_len(alloc, n, 0)?;
    for k in 0..vertices.len() {
        numbers.set(VertexId(vertices[k]), ranks[k]);
    }
    Ok(numbers)
}

/// Numbers of the vertices such that each but the first pole has a neighbour with a smaller number, and each but the
/// second one with a greater: the places of the vertices in the list that puts each beside its parent.
///
/// Errors: `NoMemory`.
/// Cost: O(V) time, six tables of the vertices. Not proved.
pub fn st_numbering(
    alloc: Global,
    map: &Map,
    visit: &Visit,
) -> Result<IdVec<VertexId, u32>, NoMemory>
    requires visited { IsVisitBy (bare map.now.graph) visit.now }
    requires all { HasAll (bare map.now.graph) visit.now.vertices.items }
    requires connected { IsConnected (bare map.now.graph) (first_pole visit.now) }
    requires no_joint { HasNoJointBy visit.now }
    requires no_loop { HasNoLoop (bare map.now.graph) }
    ensures numbers { IfOk result (λ r. IsStNumbering (bare map.now.graph) (first_pole visit.now) (second_pole visit.now) (slice_index r)) }
    ensures size { IfOk result (λ r. length r ≡ map.now.graph.vertices) }
{
    rotation(map);
    let n = map.vertices();
    let ranks = rank(alloc, &visit.parents, &visit.lows)?;
    let numbers = by_vertex(alloc, n, &visit.vertices, &ranks)?;
    Ok(numbers)
}
