//! Runs of ends of one kind, round a vertex or along a face.
ghost use Rattle.std.specs.Prelude.{◌≡◌, ◌≢◌, ◌↔◌, ◌<◌, ◌∷◌, ◌++◌, [], ℕ, IfOk, OnOk, IsTrue};
ghost use Rattle.st_ids.specs.EdgeNumbers.{numbers};
ghost use Rattle.st_ids.specs.Ends.{is_out, twin};
ghost use Rattle.st_map.specs.Embedded.{darts, phi};
ghost use Rattle.st_map.specs.Orbits.{Permutes, iterate};
ghost use Rattle.st_sides.specs.Rounds.{IsRun, round};
ghost use Rattle.st_sides.specs.Stretches.{forward};

use st_ids::{Dart, EdgeId, NoMemory};
use st_map::Map;

/// The other end of the edge.
fn twin_of(map: &Map, d: Dart) -> Dart
    requires { d.0 < darts map.now.graph }
    ensures value { result.0 ≡ twin d.0 }
    ensures within { result.0 < darts map.now.graph }
{
    d.twin()
}

/// The next end of the face: the clockwise next of the twin.
#[tactic(auto, unfolding(st_map::specs::Embedded::phi))]
fn turn(map: &Map, d: Dart) -> Dart
    requires { d.0 < darts map.now.graph }
    ensures value { result.0 ≡ phi map.now.graph d.0 }
    ensures within { result.0 < darts map.now.graph }
{
    map.next_cw(twin_of(map, d))
}

/// The next end of the face, or the clockwise next at the vertex.
pub(crate) fn step(map: &Map, face: bool, d: Dart) -> Dart
    requires { d.0 < darts map.now.graph }
    ensures value { result.0 ≡ round map.now.graph face d.0 }
    ensures within { result.0 < darts map.now.graph }
{
    if face { turn(map, d) } else { map.next_cw(d) }
}

/// Appends an edge.
fn put(list: &mut Vec<EdgeId>, e: EdgeId) -> Result<(), NoMemory>
    ensures { OnOk result (list.new.items ≡ list.old.items ++ e ∷ []) }
{
    list.push(e)?;
    Ok(())
}

/// Whether the end is of the kind, and not the first again.
fn goes_on(out: bool, start: Dart, end: Dart) -> bool
    ensures { IsTrue result ↔ ((is_out end.0 ≡ out) × (end.0 ≢ start.0)) }
{
    end.is_out() == out && end.0 != start.0
}

/// Fills the list with the edges of the ends of one kind from `start` on, and answers the end that comes after them.
#[inline(always)]
pub(crate) fn run(
    map: &Map,
    face: bool,
    out: bool,
    start: Dart,
    list: &mut Vec<EdgeId>,
) -> Result<Dart, NoMemory>
    requires permutes { Permutes (darts map.now.graph) (round map.now.graph face) }
    requires there { start.0 < darts map.now.graph }
    requires some { (n : ℕ) × IsRun (round map.now.graph face) out start.0 n }
    ensures list { OnOk result ((n : ℕ) → IsRun (round map.now.graph face) out start.0 n → numbers list.new.items ≡ forward n (round map.now.graph face) start.0) }
    ensures end { IfOk result (λ end. (n : ℕ) → IsRun (round map.now.graph face) out start.0 n → end.0 ≡ iterate n (round map.now.graph face) start.0) }
{
    list.clear();
    if start.is_out() != out {
        return Ok(start);
    }
    put(list, start.edge())?;
    let mut end = step(map, face, start);
    'round: while goes_on(out, start, end) {
        put(list, end.edge())?;
        end = step(map, face, end);
    }
    Ok(end)
}
