//! The faults of listed paths, path by path.
ghost use Rattle.std.specs.Prelude.{◌≡◌, ◌<◌, ◌+◌, None, length, IfErr, IfOk, IfSome, OnOk};
ghost use Rattle.draw_align.specs.Crossing.{IsRanked};
ghost use Rattle.draw_align.specs.Faults.{AreDisjoint, AreThere, IsFaultAt, IsFaultOf, IsPathFault, IsUnshared};
ghost use Rattle.draw_align.specs.Listed.{AreSound, IsPath, path_at};
ghost use Rattle.draw_align.specs.Steps.{AreNoted, AreSteps};
ghost use Rattle.st_sides.specs.Sides.{edge_count};

use crate::apart::crossing_fault;
use crate::path_fault::PathFault;
use crate::steps::{Noted, Step, first_shared, note};
use crate::walking::is_path;
use st_ids::{EdgeId, FaceId, IdVec, NoMemory, PathList};
use st_sides::Sides;
use std::alloc::Global;

/// What is wrong with path p before crossings are asked: it is no walk, or shares an edge with an earlier path.
fn own_fault(
    sides: &Sides,
    paths: &PathList,
    steps: &IdVec<EdgeId, Option<Step>>,
    p: u32,
) -> Option<PathFault>
    requires edges { AreThere sides.now paths.now }
    requires there { p < length paths.now }
    requires steps { AreSteps sides.now paths.now p steps.now }
    ensures some { IfSome result (IsFaultOf sides.now paths.now p) }
    ensures none { result ≡ None → IsPath sides.now (path_at paths.now p) × IsUnshared paths.now p }
{
    if !is_path(sides, paths, p) {
        return Some(PathFault::NotAPath { path: p });
    }
    match first_shared(sides, steps, paths, p) {
        Some(edge) => Some(PathFault::SharedEdge { path: p, edge }),
        None => None,
    }
}

/// A table that tells of no edge.
fn no_steps(
    alloc: Global,
    sides: &Sides,
    paths: &PathList,
) -> Result<IdVec<EdgeId, Option<Step>>, NoMemory>
    ensures { IfOk result (AreSteps sides.now paths.now 0) }
{
    let steps = IdVec::with_len(alloc, sides.edges(), None)?;
    Ok(steps)
}

/// Notes the paths in their order up to the first that is no walk or shares an edge, and answers what is wrong with that one.
fn note_paths(sides: &Sides, paths: &PathList, noted: &mut Noted) -> Option<PathFault>
    requires edges { AreThere sides.now paths.now }
    requires none { noted.old.count ≡ 0 }
    requires steps { AreSteps sides.now paths.now 0 noted.old.table }
    ensures noted { AreNoted sides.now paths.now noted.new.count noted.new.table }
    ensures some { IfSome result (IsFaultAt sides.now paths.now noted.new.count) }
    ensures none { result ≡ None → noted.new.count ≡ length paths.now }
{
    for p in 0..paths.len() {
        match own_fault(sides, paths, &noted.table, p) {
            Some(fault) => return Some(fault),
            None => {}
        }
        note(sides, &mut noted.table, paths, p);
        noted.count = p + 1;
    }
    None
}

/// The table of the edges of all paths, or the first fault.
pub(crate) fn test_paths(
    alloc: Global,
    sides: &Sides,
    columns: &IdVec<FaceId, i64>,
    paths: &PathList,
) -> Result<IdVec<EdgeId, Option<Step>>, PathFault>
    requires edges { AreThere sides.now paths.now }
    requires ranked { IsRanked sides.now columns.now }
    ensures sound { OnOk result (AreSound sides.now paths.now (length paths.now)) }
    ensures steps { IfOk result (AreSteps sides.now paths.now (length paths.now)) }
    ensures fault { IfErr result (IsPathFault sides.now paths.now) }
{
    let table = no_steps(alloc, sides, paths)?;
    let mut noted = Noted { table, count: 0 };
    let fault = note_paths(sides, paths, &mut noted);
    match crossing_fault(sides, columns, paths, &noted) {
        Some(crossing) => return Err(crossing),
        None => {}
    }
    match fault {
        Some(fault) => Err(fault),
        None => Ok(noted.table),
    }
}
