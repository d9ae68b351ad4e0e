//! The two runs of ends round a vertex or along a face, as lists of edges.
ghost use Rattle.std.specs.Prelude.{◌<◌, IfOk};
ghost use Rattle.st_ids.specs.EdgeNumbers.{numbers};
ghost use Rattle.st_map.specs.Embedded.{darts};
ghost use Rattle.st_map.specs.Orbits.{Permutes};
ghost use Rattle.st_sides.specs.Rounds.{AreParts, HasParts, round};

use crate::runs::run;
use st_ids::{Dart, EdgeId, NoMemory};
use st_map::Map;

/// Fills the lists with the edges of the ends out from `start` on, and with those of the ends in after them from the last
/// to the first. Answers the end where the ends out stop.
#[inline(always)]
pub(crate) fn parts(
    map: &Map,
    face: bool,
    start: Dart,
    outs: &mut Vec<EdgeId>,
    ins: &mut Vec<EdgeId>,
) -> Result<Dart, NoMemory>
    requires permutes { Permutes (darts map.now.graph) (round map.now.graph face) }
    requires there { start.0 < darts map.now.graph }
    requires some { HasParts (round map.now.graph face) start.0 }
    ensures parts { IfOk result (λ stop. AreParts (round map.now.graph face) start.0 (numbers outs.new.items) (numbers ins.new.items) stop.0) }
    ensures within { IfOk result (λ stop. stop.0 < darts map.now.graph) }
{
    let stop = run(map, face, true, start, outs)?;
    let _end = run(map, face, false, stop, ins)?;
    ins.reverse();
    Ok(stop)
}
