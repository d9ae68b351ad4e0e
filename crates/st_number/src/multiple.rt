//! Which edges are parallel to others: one pass over the edges, with the last edge so far of each pair of ends in an
//! ordered map.
ghost use Rattle.std.specs.Prelude.{◌≡◌, ◌+◌, ◌<◌, ℕ, Some, cond, IfOk, OnOk};
ghost use Rattle.std.specs.Ordering.{is_eq};
ghost use Rattle.st_map.specs.Embedded.{edges};
ghost use Rattle.st_number.specs.Parallel.{AreParallel, IsMarking, compare_ends, noted_at};

use st_ids::{EdgeId, IdVec, NoMemory};
use st_map::Map;
use st_test::StGraph;
use std::alloc::Global;
use std::collections::BTreeMap;

/// Notes the edge at its ends, and answers the one that was noted there before.
fn note(
    noted: &mut BTreeMap<(u32, u32), EdgeId>,
    ends: (u32, u32),
    e: EdgeId,
) -> Result<Option<EdgeId>, NoMemory>
    ensures old { IfOk result (λ o. o ≡ noted_at noted.old ends) }
    ensures there { OnOk result (noted_at noted.new ends ≡ Some e) }
    ensures others { OnOk result ((q : ℕ × ℕ) → noted_at noted.new q ≡ cond (is_eq (compare_ends ends q)) (Some e) (noted_at noted.old q)) }
{
    match noted.insert(ends, e) {
        Ok(before) => Ok(before),
        Err(_) => Err(NoMemory),
    }
}

/// One edge of the pass: it is noted, and marked with the last one between its ends where there is one.
fn mark(
    map: &Map,
    noted: &mut BTreeMap<(u32, u32), EdgeId>,
    flags: &mut IdVec<EdgeId, bool>,
    e: EdgeId,
) -> Result<(), NoMemory>
    requires there { e.0 < edges map.now.graph }
    requires marking { IsMarking map.now.graph (noted_at noted.old) flags.old e.0 }
    ensures { OnOk result (IsMarking map.now.graph (noted_at noted.new) flags.new (e.0 + 1)) }
{
    let ends = (map.tail(e).0, map.head(e).0);
    match note(noted, ends, e)? {
        Some(d) => {
            flags.set(d, true);
            flags.set(e, true);
        }
        None => (),
    }
    Ok(())
}

/// Which edges of a map have a parallel.
fn mark_all(alloc: Global, map: &Map) -> Result<IdVec<EdgeId, bool>, NoMemory>
    ensures { IfOk result (AreParallel map.now.graph) }
{
    let mut noted = BTreeMap::new(alloc);
    let mut flags = IdVec::with_len(alloc, map.edges(), false)?;
    for e in 0..map.edges() {
        mark(map, &mut noted, &mut flags, EdgeId(e))?;
    }
    Ok(flags)
}

/// Whether each edge has a parallel: another edge with its tail and its head.
///
/// Errors: `NoMemory`.
/// Cost: O(E log E) time; memory for an entry of an ordered map for each pair of ends. Not proved.
pub fn parallel(alloc: Global, graph: &StGraph) -> Result<IdVec<EdgeId, bool>, NoMemory>
    ensures { IfOk result (AreParallel graph.now.map.graph) }
{
    mark_all(alloc, graph.map())
}
