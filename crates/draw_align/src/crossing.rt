//! Where a path crosses earlier ones.
//!
//! The edges into a vertex lie from left to right as the columns of the nodes on their left do, and so do the edges out of it.
//! So two paths that pass a vertex cross there where the columns of their edges in have the other order than those of their
//! edges out.
ghost use Rattle.std.specs.Prelude.{◌≡◌, ◌<◌, ◌≤◌, ℕ, None, true, false, pos, length, IfSome};
ghost use Rattle.draw_align.specs.Crossing.{EarlierAt, EarlierBy, IsLeast, IsRanked, Turned, lesser_of, rank_of};
ghost use Rattle.draw_align.specs.Faults.{AreThere};
ghost use Rattle.draw_align.specs.Listed.{Cross, IsFirstCrossing, path_at};
ghost use Rattle.draw_align.specs.Steps.{AreNoted};
ghost use Rattle.st_sides.specs.Sides.{edge_count, edge_head, ins};

use crate::steps::{Noted, passing, path_in};
use st_ids::{EdgeId, FaceId, IdVec, PathList, VertexId};
use st_picture::number_in;
use st_sides::{Sides, laws};

/// The column of the node on the left of the edge.
pub(crate) fn rank(sides: &Sides, columns: &IdVec<FaceId, i64>, e: EdgeId) -> i64
    requires there { e.0 < edge_count sides.now }
    requires ranked { IsRanked sides.now columns.now }
    ensures { result ≡ pos (rank_of sides.now columns.now e.0) }
{
    laws::local(sides);
    number_in(columns.items(), sides.face_left(e).0)
}

/// Whether the edges x and other_x lie in the other order than y and other_y.
fn turned(
    sides: &Sides,
    columns: &IdVec<FaceId, i64>,
    x: EdgeId,
    y: EdgeId,
    other_x: EdgeId,
    other_y: EdgeId,
) -> bool
    requires there { (x.0 < edge_count sides.now) × (y.0 < edge_count sides.now) }
    requires other { (other_x.0 < edge_count sides.now) × (other_y.0 < edge_count sides.now) }
    requires ranked { IsRanked sides.now columns.now }
    ensures yes { result ≡ true → Turned sides.now columns.now x.0 y.0 other_x.0 other_y.0 }
    ensures no { result ≡ false → Turned sides.now columns.now x.0 y.0 other_x.0 other_y.0 → ⊥ }
{
    let (a, b) = (rank(sides, columns, x), rank(sides, columns, y));
    let (c, d) = (rank(sides, columns, other_x), rank(sides, columns, other_y));
    if a < c {
        return d < b;
    }
    if c < a {
        return b < d;
    }
    false
}

/// The path before p that has the edge other_x and crosses one with the edges x and y, if it does.
fn crossed_by(
    sides: &Sides,
    columns: &IdVec<FaceId, i64>,
    paths: &PathList,
    noted: &Noted,
    p: u32,
    x: EdgeId,
    y: EdgeId,
    other_x: EdgeId,
) -> Option<u32>
    requires edges { AreThere sides.now paths.now }
    requires noted { AreNoted sides.now paths.now noted.now.count noted.now.table }
    requires within { p ≤ noted.now.count }
    requires ranked { IsRanked sides.now columns.now }
    requires there { (x.0 < edge_count sides.now) × (y.0 < edge_count sides.now) }
    requires other { other_x.0 < edge_count sides.now }
    ensures { IsLeast (EarlierBy sides.now columns.now paths.now p x.0 y.0 other_x.0) result }
{
    laws::local(sides);
    let other = match passing(sides, paths, noted, p, other_x) {
        Some(other) => other,
        None => return None,
    };
    if turned(sides, columns, x, y, other_x, other.next) {
        return Some(other.path);
    }
    None
}

/// The lesser of two numbers, where there are some.
fn lesser(a: Option<u32>, b: Option<u32>) -> Option<u32>
    ensures { result ≡ lesser_of a b }
{
    match a {
        Some(m) => match b {
            Some(n) => Some(if n < m { n } else { m }),
            None => Some(m),
        },
        None => b,
    }
}

/// The least path before p that crosses one with the edges x and y where these meet.
fn least_crossing(
    sides: &Sides,
    columns: &IdVec<FaceId, i64>,
    paths: &PathList,
    noted: &Noted,
    p: u32,
    x: EdgeId,
    y: EdgeId,
) -> Option<u32>
    requires edges { AreThere sides.now paths.now }
    requires noted { AreNoted sides.now paths.now noted.now.count noted.now.table }
    requires within { p ≤ noted.now.count }
    requires ranked { IsRanked sides.now columns.now }
    requires there { (x.0 < edge_count sides.now) × (y.0 < edge_count sides.now) }
    ensures { IsLeast (EarlierAt sides.now columns.now paths.now p x.0 y.0 (length (ins sides.now (edge_head sides.now x.0)))) result }
{
    let into = sides.ins(sides.head(x));
    let mut least = None;
    for k in 0..into.len() {
        let found = crossed_by(sides, columns, paths, noted, p, x, y, into[k]);
        least = lesser(least, found);
    }
    least
}

/// An earlier path, and the vertex where it is crossed.
#[derive(Clone, Copy, Debug)]
pub(crate) struct Meeting {
    pub(crate) other: u32,
    pub(crate) vertex: VertexId,
}

/// The first vertex along path p at which it crosses an earlier one, and the least that it crosses there.
pub(crate) fn first_crossing(
    sides: &Sides,
    columns: &IdVec<FaceId, i64>,
    paths: &PathList,
    noted: &Noted,
    p: u32,
) -> Option<Meeting>
    requires edges { AreThere sides.now paths.now }
    requires noted { AreNoted sides.now paths.now noted.now.count noted.now.table }
    requires there { p < noted.now.count }
    requires ranked { IsRanked sides.now columns.now }
    ensures some { IfSome result (λ m. IsFirstCrossing sides.now paths.now p m.other m.vertex.0) }
    ensures none { result ≡ None → (q v : ℕ) → q < p → v < sides.now.vertices → Cross sides.now (path_at paths.now p) (path_at paths.now q) v → ⊥ }
{
    laws::local(sides);
    let path = path_in(sides, paths, p);
    for k in 1..path.len() {
        let (x, y) = (path[k - 1], path[k]);
        match least_crossing(sides, columns, paths, noted, p, x, y) {
            Some(other) => {
                let vertex = sides.head(x);
                return Some(Meeting { other, vertex });
            }
            None => {}
        }
    }
    None
}
