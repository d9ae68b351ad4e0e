//! Whether any two of the first paths cross.
//!
//! The paths that pass a vertex don't cross there exactly where they leave it in the order in which they come to it, from left
//! to right. So one look along the edges into each vertex tells whether any two of the first n paths cross. If some do, the
//! first path that crosses an earlier one is found by halving.
ghost use Rattle.std.specs.Prelude.{◌≡◌, ◌+◌, ◌<◌, ◌≤◌, true, false, None, length, IfSome};
ghost use Rattle.draw_align.specs.Crossing.{Follows, IsRanked};
ghost use Rattle.draw_align.specs.Faults.{AreApart, AreApartAt, AreThere, IsFaultAmong};
ghost use Rattle.draw_align.specs.Steps.{AreNoted};
ghost use Rattle.st_sides.specs.Sides.{edge_count};

use crate::crossing::{first_crossing, rank};
use crate::path_fault::PathFault;
use crate::steps::{Noted, Passage, passing};
use st_ids::{FaceId, IdVec, PathList, VertexId};
use st_sides::{Sides, laws};

/// Whether the path found goes on to the right of the last one, where there are both.
fn follows(
    sides: &Sides,
    columns: &IdVec<FaceId, i64>,
    last: Option<Passage>,
    found: Option<Passage>,
) -> bool
    requires ranked { IsRanked sides.now columns.now }
    requires last { IfSome last (λ s. s.next.0 < edge_count sides.now) }
    requires found { IfSome found (λ s. s.next.0 < edge_count sides.now) }
    ensures yes { result ≡ true → Follows sides.now columns.now last found }
    ensures no { result ≡ false → Follows sides.now columns.now last found → ⊥ }
{
    match last {
        None => true,
        Some(a) => match found {
            None => true,
            Some(b) => rank(sides, columns, a.next) < rank(sides, columns, b.next),
        },
    }
}

/// Whether the first n paths that pass v leave it in the order in which they come to it.
fn is_in_order(
    sides: &Sides,
    columns: &IdVec<FaceId, i64>,
    paths: &PathList,
    noted: &Noted,
    n: u32,
    v: VertexId,
) -> bool
    requires edges { AreThere sides.now paths.now }
    requires noted { AreNoted sides.now paths.now noted.now.count noted.now.table }
    requires within { n ≤ noted.now.count }
    requires ranked { IsRanked sides.now columns.now }
    requires there { v.0 < sides.now.vertices }
    ensures yes { result ≡ true → AreApartAt sides.now paths.now n v.0 }
    ensures no { result ≡ false → AreApartAt sides.now paths.now n v.0 → ⊥ }
{
    laws::local(sides);
    let into = sides.ins(v);
    let mut last = None;
    for k in 0..into.len() {
        let found = passing(sides, paths, noted, n, into[k]);
        if !follows(sides, columns, last, found) {
            return false;
        }
        last = found.or(last);
    }
    true
}

/// Whether no two of the first n paths cross.
fn are_apart(
    sides: &Sides,
    columns: &IdVec<FaceId, i64>,
    paths: &PathList,
    noted: &Noted,
    n: u32,
) -> bool
    requires edges { AreThere sides.now paths.now }
    requires noted { AreNoted sides.now paths.now noted.now.count noted.now.table }
    requires within { n ≤ noted.now.count }
    requires ranked { IsRanked sides.now columns.now }
    ensures yes { result ≡ true → AreApart sides.now paths.now n }
    ensures no { result ≡ false → AreApart sides.now paths.now n → ⊥ }
{
    for v in 0..sides.vertices() {
        if !is_in_order(sides, columns, paths, noted, n, VertexId(v)) {
            return false;
        }
    }
    true
}

/// How many of the first paths are apart, where not all noted ones are.
fn count_apart(sides: &Sides, columns: &IdVec<FaceId, i64>, paths: &PathList, noted: &Noted) -> u32
    requires edges { AreThere sides.now paths.now }
    requires noted { AreNoted sides.now paths.now noted.now.count noted.now.table }
    requires ranked { IsRanked sides.now columns.now }
    requires crossed { AreApart sides.now paths.now noted.now.count → ⊥ }
    ensures within { result < noted.now.count }
    ensures apart { AreApart sides.now paths.now result }
    ensures crossed { AreApart sides.now paths.now (result + 1) → ⊥ }
{
    let mut apart = 0;
    let mut crossed = noted.count;
    while apart + 1 < crossed {
        let middle = apart + (crossed - apart) / 2;
        if are_apart(sides, columns, paths, noted, middle) {
            apart = middle;
        } else {
            crossed = middle;
        }
    }
    apart
}

/// The crossing of the first of the noted paths that crosses an earlier one, if one does.
pub(crate) fn crossing_fault(
    sides: &Sides,
    columns: &IdVec<FaceId, i64>,
    paths: &PathList,
    noted: &Noted,
) -> Option<PathFault>
    requires edges { AreThere sides.now paths.now }
    requires noted { AreNoted sides.now paths.now noted.now.count noted.now.table }
    requires ranked { IsRanked sides.now columns.now }
    ensures some { IfSome result (IsFaultAmong sides.now paths.now noted.now.count) }
    ensures none { result ≡ None → AreApart sides.now paths.now noted.now.count }
{
    if are_apart(sides, columns, paths, noted, noted.count) {
        return None;
    }
    let path = count_apart(sides, columns, paths, noted);
    match first_crossing(sides, columns, paths, noted, path) {
        Some(met) => Some(PathFault::Crossing {
            path,
            other: met.other,
            vertex: met.vertex,
        }),
        None => None,
    }
}
