//! Faces traced round, each once.
//!
//! The next end of the face of an end is the clockwise next of its twin. Going through the ends in order, an end without
//! a number is the least of a new face, which is traced at once.
ghost use Rattle.std.specs.Prelude.{◌≡◌, ◌<◌, length, IfOk};
ghost use Rattle.st_ids.specs.Ends.{twin};
ghost use Rattle.st_map.specs.Embedded.{darts, phi};
ghost use Rattle.st_map.specs.Orbits.{Permutes};
ghost use Rattle.st_test.specs.FaceNumbers.{AreFaces};
ghost use Rattle.st_test.specs.Tracing.{IsTraced};

use crate::orbits::Faces;
use st_ids::{Dart, IdVec, NoMemory};
use st_map::Map;
use std::alloc::Global;

/// The other end of the edge.
fn twin_of(map: &Map, d: Dart) -> Dart
    requires { d.0 < darts map.now.graph }
    ensures value { result.0 ≡ twin d.0 }
    ensures within { result.0 < darts map.now.graph }
{
    d.twin()
}

/// The next end of the face: the clockwise next of the twin.
#[tactic(auto, unfolding(st_map::specs::Embedded::phi))]
fn turn(map: &Map, d: Dart) -> Dart
    requires { d.0 < darts map.now.graph }
    ensures value { result.0 ≡ phi map.now.graph d.0 }
    ensures within { result.0 < darts map.now.graph }
{
    map.next_cw(twin_of(map, d))
}

/// Gives the ends of a face a number, once round from `start`.
fn trace(map: &Map, start: Dart, number: u32, orbit: &mut IdVec<Dart, u32>)
    requires permutes { Permutes (darts map.now.graph) (phi map.now.graph) }
    requires size { length orbit.old ≡ darts map.now.graph }
    requires there { start.0 < darts map.now.graph }
    ensures { IsTraced (phi map.now.graph) start.0 number orbit.old orbit.new }
{
    orbit.set(start, number);
    let mut end = turn(map, start);
    'round: while end.0 != start.0 {
        orbit.set(end, number);
        end = turn(map, end);
    }
}

/// The faces of a map.
///
/// Shape: one number for each end, from 0 in the order of the faces' least ends.
/// Errors: `NoMemory`.
/// Cost: O(E) time and one table of the ends. Not proved.
pub fn faces(alloc: Global, map: &Map) -> Result<Faces, NoMemory>
    ensures { IfOk result (AreFaces map.now.graph) }
{
    let ends = 2 * map.edges();
    let mut orbit: IdVec<Dart, u32> = IdVec::with_len(alloc, ends, u32::MAX)?;
    let mut count = 0;
    for d in 0..ends {
        if *orbit.get(Dart(d)) == u32::MAX {
            trace(map, Dart(d), count, &mut orbit);
            count += 1;
        }
    }
    Ok(Faces::of(orbit, count))
}
