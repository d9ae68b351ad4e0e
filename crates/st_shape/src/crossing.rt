//! Whether two segments, or two lines, have a point in common that is no common end that counts.

ghost use Rattle.std.specs.Prelude.{◌≡◌, ◌↔◌, IsTrue};
ghost use Rattle.st_shape.specs.Steps.{AreOnGrid, Climbs, CrossBeside, IsClimbingLine, MeetApart};

use crate::meeting::{meet, meet_beyond};
use crate::point::{Point, Segment};

/// Whether `a` and `b` are one point, and that counts.
fn is_common(a: Point, b: Point, counts: bool) -> bool
    ensures { IsTrue result ↔ (IsTrue counts × (a ≡ b)) }
{
    counts && a == b
}

/// Whether the segments are the same.
fn is_same(s: Segment, t: Segment) -> bool
    ensures { IsTrue result ↔ ((s.a ≡ t.a) × (s.b ≡ t.b)) }
{
    s.a == t.a && s.b == t.b
}

/// Whether the climbing segments `s` and `t` have a point in common that is no common end that counts: `aa` says whether it
/// counts where both begin, `ab` where `s` begins and `t` ends, and so on.
pub fn meet_apart(s: Segment, t: Segment, aa: bool, ab: bool, ba: bool, bb: bool) -> bool
    requires s { AreOnGrid s }
    requires t { AreOnGrid t }
    requires s_climbs { Climbs s }
    requires t_climbs { Climbs t }
    ensures { IsTrue result ↔ MeetApart s t (IsTrue aa) (IsTrue ab) (IsTrue ba) (IsTrue bb) }
{
    if is_same(s, t) {
        return true;
    }
    if is_common(s.a, t.a, aa) {
        return meet_beyond(s, t);
    }
    if is_common(s.a, t.b, ab) {
        return meet_beyond(s, t);
    }
    if is_common(s.b, t.a, ba) {
        return meet_beyond(Segment { a: s.b, b: s.a }, t);
    }
    if is_common(s.b, t.b, bb) {
        return meet_beyond(Segment { a: s.b, b: s.a }, t);
    }
    meet(s, t)
}

/// Whether it counts, `a` is `b`, and `c` is `d`.
fn counts_at_both(counts: bool, a: usize, b: usize, c: usize, d: usize) -> bool
    ensures { IsTrue result ↔ (IsTrue counts × (a ≡ b) × (c ≡ d)) }
{
    counts && a == b && c == d
}

/// Which ends of two lines have one name.
#[derive(Clone, Copy, Debug, PartialEq, Eq)]
pub struct SameEnds {
    pub tails: bool,
    pub tail_head: bool,
    pub head_tail: bool,
    pub heads: bool,
}

/// Whether two lines have a point in common that is not an end of each, of one name.
pub fn cross_apart(first: &[Point], second: &[Point], same: SameEnds) -> bool
    requires first { IsClimbingLine first.now }
    requires second { IsClimbingLine second.now }
    ensures { IsTrue result ↔
        CrossBeside first.now second.now (IsTrue same.tails) (IsTrue same.tail_head) (IsTrue same.head_tail) (IsTrue same.heads) }
{
    let first_last = first.len() - 1;
    let second_last = second.len() - 1;
    for k in 0..first_last {
        let s = Segment {
            a: first[k],
            b: first[k + 1],
        };
        for m in 0..second_last {
            let t = Segment {
                a: second[m],
                b: second[m + 1],
            };
            let aa = counts_at_both(same.tails, k, 0, m, 0);
            let ab = counts_at_both(same.tail_head, k, 0, m + 1, second_last);
            let ba = counts_at_both(same.head_tail, k + 1, first_last, m, 0);
            let bb = counts_at_both(same.heads, k + 1, first_last, m + 1, second_last);
            if meet_apart(s, t, aa, ab, ba, bb) {
                return true;
            }
        }
    }
    false
}
