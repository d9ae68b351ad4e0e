//! Rows of edges whose parallels are to bend apart: a second row where an edge has a parallel.
ghost use Rattle.std.specs.Prelude.{All, ◌≡◌, ◌<◌, ◌^◌, cond, length, max, IfOk};
ghost use Rattle.st_map.specs.Embedded.{edges};
ghost use Rattle.st_ids.specs.Lengths.{IsLength};
ghost use Rattle.st_number.specs.Spread.{AreSpreadBy, AreSpreadRows};

use crate::multiple::parallel;
use st_ids::{EdgeId, IdVec, NoMemory};
use st_test::StGraph;
use std::alloc::Global;

/// The rows of an edge, from its length.
fn rows(length: u32, has_parallel: bool) -> u32
    ensures { result ≡ cond has_parallel (max 2 length) length }
{
    if has_parallel { length.max(2) } else { length }
}

/// The rows of all edges, from their lengths and from which of them have a parallel.
fn rows_of(
    alloc: Global,
    lengths: &IdVec<EdgeId, u32>,
    flags: &IdVec<EdgeId, bool>,
    edges: u32,
) -> Result<IdVec<EdgeId, u32>, NoMemory>
    requires lengths { edges ≡ length lengths.now }
    requires flags { edges ≡ length flags.now }
    requires few { edges < 2 ^ 30 }
    ensures { IfOk result (AreSpreadBy lengths.now flags.now edges) }
{
    let mut list = IdVec::with_capacity(alloc, edges)?;
    for e in 0..edges {
        let length = *lengths.get(EdgeId(e));
        let has_parallel = *flags.get(EdgeId(e));
        list.push(rows(length, has_parallel))?;
    }
    Ok(list)
}

/// The rows that each edge takes in a picture whose lines bend: its length, and 2 at least where another edge has its tail
/// and its head, so that the two lines part.
///
/// Shape: one entry per edge, by number.
/// Conditions: there is one length for each edge, from 1 to `MOST_LENGTH`. Each entry is in this range too.
/// Errors: `NoMemory`.
/// Cost: as `parallel`, and one list. Not proved.
pub fn spread(
    alloc: Global,
    graph: &StGraph,
    lengths: &IdVec<EdgeId, u32>,
) -> Result<IdVec<EdgeId, u32>, NoMemory>
    requires size { length lengths.now ≡ edges graph.now.map.graph }
    requires lengths { All IsLength lengths.now }
    ensures spread { IfOk result (AreSpreadRows graph.now.map.graph lengths.now) }
    ensures rows { IfOk result (All IsLength) }
{
    let flags = parallel(alloc, graph)?;
    let list = rows_of(alloc, lengths, &flags, graph.map().edges())?;
    Ok(list)
}
