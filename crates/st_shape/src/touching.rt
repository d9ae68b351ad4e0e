//! Whether a line touches a vertex that it doesn't end at.

ghost use Rattle.std.specs.Prelude.{◌≡◌, ◌↔◌, IsTrue, false};
ghost use Rattle.st_shape.specs.Clean.{IsFaultyAt, point_of};
ghost use Rattle.st_shape.specs.Meeting.{IsOnGrid, Meet};
ghost use Rattle.st_shape.specs.Steps.{AreOnGrid, Climbs, HitsBeside, IsClimbingLine};

use crate::meeting::{meet, meet_beyond};
use crate::point::{Point, Segment};

/// Whether the segment `s` has a point in common with the figure, other than the ends that are left out, which are points
/// of the figure.
fn hits_beside(figure: Segment, s: Segment, skip_a: bool, skip_b: bool) -> bool
    requires figure { AreOnGrid figure }
    requires s { AreOnGrid s }
    requires climbs { Climbs s }
    requires a { IsTrue skip_a → Meet (point_of s.a) figure }
    requires b { IsTrue skip_b → Meet (point_of s.b) figure }
    ensures { IsTrue result ↔ HitsBeside figure s.a s.b (IsTrue skip_a) (IsTrue skip_b) }
{
    if skip_a {
        if skip_b {
            return true;
        }
        return meet_beyond(s, figure);
    }
    if skip_b {
        return meet_beyond(Segment { a: s.b, b: s.a }, figure);
    }
    meet(s, figure)
}

/// Whether the end counts and is no point of the figure.
fn misses_end(figure: Segment, end: Point, counts: bool) -> bool
    requires figure { AreOnGrid figure }
    requires end { IsOnGrid end }
    ensures misses { IsTrue result ↔ (IsTrue counts × (Meet (point_of end) figure → ⊥)) }
    ensures meets { result ≡ false → IsTrue counts → Meet (point_of end) figure }
{
    counts && !meet(Segment { a: end, b: end }, figure)
}

/// Whether it counts, and `a` is `b`.
fn counts_at(counts: bool, a: usize, b: usize) -> bool
    ensures { IsTrue result ↔ (IsTrue counts × (a ≡ b)) }
{
    counts && a == b
}

/// Whether the line and the vertex are a faulty pair, where `at_tail` and `at_head` say whether the vertex has the name of
/// the line's tail and of its head.
pub fn is_faulty_at(figure: Segment, points: &[Point], at_tail: bool, at_head: bool) -> bool
    requires figure { AreOnGrid figure }
    requires points { IsClimbingLine points.now }
    ensures { IsTrue result ↔ IsFaultyAt (IsTrue at_tail) (IsTrue at_head) figure points.now }
{
    let last = points.len() - 1;
    if misses_end(figure, points[0], at_tail) {
        return true;
    }
    if misses_end(figure, points[last], at_head) {
        return true;
    }
    for k in 0..last {
        let s = Segment {
            a: points[k],
            b: points[k + 1],
        };
        let skip_a = counts_at(at_tail, k, 0);
        let skip_b = counts_at(at_head, k + 1, last);
        if hits_beside(figure, s, skip_a, skip_b) {
            return true;
        }
    }
    false
}
