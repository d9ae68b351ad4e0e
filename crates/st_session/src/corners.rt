//! Walks round a face and round a vertex: whether two ends are of one face, and whether another edge comes to or
//! leads from a vertex.
ghost use Rattle.std.specs.Prelude.{◌≡◌, ◌*◌, ◌<◌, ◌^◌, ◌↔◌, IfSome, IsNone, IsTrue};
ghost use Rattle.st_ids.specs.Ends.{twin};
ghost use Rattle.st_map.specs.Embedded.{at, darts, edges, next, phi};
ghost use Rattle.st_map.specs.Orbits.{SameOrbit};
ghost use Rattle.st_map.specs.Orders.{IsEdgeAt, end_at};
ghost use Rattle.st_map.specs.Remove.{exchanged};
ghost use Rattle.st_session.specs.Corners.{HasOther, IsLike};
ghost use Rattle.st_session.specs.Editing.{OthersIn, OthersOut, outer_after};

use st_ids::{Dart, EdgeId, VertexId};
use st_map::Map;

/// The other end of the edge.
fn twin_of(map: &Map, d: Dart) -> Dart
    requires { d.0 < darts map.now.graph }
    ensures value { result.0 ≡ twin d.0 }
    ensures within { result.0 < darts map.now.graph }
{
    d.twin()
}

/// The next end of the face: the clockwise next of the twin.
#[tactic(auto, unfolding(st_map::specs::Embedded::phi))]
pub fn turn(map: &Map, d: Dart) -> Dart
    requires { d.0 < darts map.now.graph }
    ensures value { result.0 ≡ phi map.now.graph d.0 }
    ensures within { result.0 < darts map.now.graph }
{
    map.next_cw(twin_of(map, d))
}

/// Whether both ends are of one face. Cost: O(length of the face of the first), no memory. Not proved.
pub fn are_one_face(map: &Map, c: Dart, d: Dart) -> bool
    requires c_there { c.0 < darts map.now.graph }
    requires d_there { d.0 < darts map.now.graph }
    ensures { IsTrue result ↔ SameOrbit (phi map.now.graph) c.0 d.0 }
{
    let mut end = c;
    for k in 0..2 * map.edges() {
        if end.0 == d.0 {
            return true;
        }
        end = turn(map, end);
        if end.0 == c.0 {
            return false;
        }
    }
    false
}

/// Whether the clockwise next of d is of the face of c. Cost: O(length of the face of that next end), no memory.
/// Not proved.
pub fn is_corner_of(map: &Map, c: Dart, d: Dart) -> bool
    requires c_there { c.0 < darts map.now.graph }
    requires d_there { d.0 < darts map.now.graph }
    ensures { IsTrue result ↔ SameOrbit (phi map.now.graph) c.0 (next map.now.graph d.0) }
{
    let _ = map.edges();
    let corner = map.next_cw(d);
    are_one_face(map, corner, c)
}

/// Whether c is another end than d and leads the same way.
fn is_like(d: Dart, c: Dart) -> bool
    ensures { IsTrue result ↔ IsLike d.0 c.0 }
{
    c.0 != d.0 && c.is_out() == d.is_out()
}

/// Whether another edge has an end at the vertex of d that leads the same way, in or out. Cost: O(degree of the
/// vertex), no memory. Not proved.
pub fn has_other(map: &Map, d: Dart) -> bool
    requires { d.0 < darts map.now.graph }
    ensures { IsTrue result ↔ HasOther map.now.graph d.0 }
{
    let start = map.next_cw(d);
    let mut end = start;
    for k in 0..2 * map.edges() {
        if is_like(d, end) {
            return true;
        }
        end = map.next_cw(end);
        if end.0 == start.0 {
            return false;
        }
    }
    false
}

/// Whether another edge comes to the head of e.
pub fn has_other_in(map: &Map, e: EdgeId) -> bool
    requires { e.0 < edges map.now.graph }
    ensures { IsTrue result ↔ OthersIn map.now.graph e.0 }
{
    let _ = map.edges();
    has_other(map, Dart::head_end(e))
}

/// Whether another edge leads from the tail of e.
pub fn has_other_out(map: &Map, e: EdgeId) -> bool
    requires { e.0 < edges map.now.graph }
    ensures { IsTrue result ↔ OthersOut map.now.graph e.0 }
{
    let _ = map.edges();
    has_other(map, Dart::tail_end(e))
}

/// The end of e at v; `None` exactly where e has none there.
pub fn end_of(map: &Map, v: VertexId, e: EdgeId) -> Option<Dart>
    requires { e.0 < edges map.now.graph }
    ensures none { IsNone result ↔ (IsEdgeAt map.now.graph.ends v.0 e.0 → ⊥) }
    ensures value { IfSome result (λ d. d.0 ≡ end_at map.now.graph.ends v.0 e.0) }
    ensures within { IfSome result (λ d. d.0 < darts map.now.graph) }
    ensures vertex { IfSome result (λ d. at map.now.graph d.0 ≡ v.0) }
{
    let _ = map.edges();
    if map.tail(e).0 == v.0 {
        return Some(Dart::tail_end(e));
    }
    if map.head(e).0 == v.0 {
        return Some(Dart::head_end(e));
    }
    None
}

/// The number of an end after the ends of e and those of edge m are exchanged.
#[tactic(auto, unfolding(st_ids::specs::Ends::edge_of, st_ids::specs::Ends::is_out))]
fn exchanged_end(m: u32, e: EdgeId, d: Dart) -> Dart
    requires m { m < 2 ^ 30 }
    requires e { e.0 < 2 ^ 30 }
    ensures { result.0 ≡ exchanged m e.0 d.0 }
{
    if d.0 / 2 == e.0 {
        Dart(2 * m + d.0 % 2)
    } else if d.0 / 2 == m {
        Dart(2 * e.0 + d.0 % 2)
    } else {
        d
    }
}

/// The outer end after e is taken out.
pub fn next_outer(map: &Map, outer: Dart, e: EdgeId) -> Dart
    requires there { e.0 < edges map.now.graph }
    requires outer { outer.0 < darts map.now.graph }
    ensures { result.0 ≡ outer_after map.now.graph e.0 outer.0 }
{
    let m = map.edges() - 1;
    if outer.edge().0 == e.0 {
        exchanged_end(m, e, turn(map, outer))
    } else {
        exchanged_end(m, e, outer)
    }
}
