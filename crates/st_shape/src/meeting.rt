//! Where two segments meet, by the signs of cross products.

ghost use Rattle.std.specs.Prelude.{◌≡◌, ◌+◌, ◌<◌, ◌≤◌, ◌⊎◌, ◌↔◌, IsTrue, ℤ, pos, negsuc, ◌≤ℤ◌, ◌<ℤ◌, ◌-ℤ◌, ◌*ℤ◌};
ghost use Rattle.st_ids.specs.declared.limits.TheConstants.{MOST_COORDINATE};
ghost use Rattle.st_shape.specs.Meeting.{cross, IsOnGrid, Meet};
ghost use Rattle.st_shape.specs.Steps.{IsOnRay, IsOverlap, IsParted, MeetBeyond, scalar};

use crate::point::{Point, Segment, Turn};

/// The product of two differences of coordinates.
fn product(a: i64, b: i64) -> i64
    requires a_low { negsuc 49999999 ≤ℤ a }
    requires a_high { a ≤ℤ pos MOST_COORDINATE }
    requires b_low { negsuc 49999999 ≤ℤ b }
    requires b_high { b ≤ℤ pos MOST_COORDINATE }
    ensures value { result ≡ a *ℤ b }
    ensures low { negsuc 2499999999999999 ≤ℤ result }
    ensures high { result ≤ℤ pos 2500000000000000 }
{
    a * b
}

/// The cross product of `q - p` and `r - p`.
fn cross_product(p: Point, q: Point, r: Point) -> i64
    requires p { IsOnGrid p }
    requires q { IsOnGrid q }
    requires r { IsOnGrid r }
    ensures { result ≡ cross p q r }
{
    product(q.x - p.x, r.y - p.y) - product(q.y - p.y, r.x - p.x)
}

/// The scalar product of `q - p` and `r - p`.
fn scalar_product(p: Point, q: Point, r: Point) -> i64
    requires p { IsOnGrid p }
    requires q { IsOnGrid q }
    requires r { IsOnGrid r }
    ensures { result ≡ scalar p q r }
{
    product(q.x - p.x, r.x - p.x) + product(q.y - p.y, r.y - p.y)
}

/// Which way the walk from `p` by `q` to `r` turns at `q`, with y growing upwards. It is straight too where two are one point.
///
/// Range: coordinates from 0 to 50,000,000.
pub fn turn(p: Point, q: Point, r: Point) -> Turn
    requires p { IsOnGrid p }
    requires q { IsOnGrid q }
    requires r { IsOnGrid r }
    ensures left { (result ≡ Turn.Left) ↔ (pos 0 <ℤ cross p q r) }
    ensures straight { (result ≡ Turn.Straight) ↔ (cross p q r ≡ pos 0) }
    ensures right { (result ≡ Turn.Right) ↔ (cross p q r <ℤ pos 0) }
{
    let product = cross_product(p, q, r);
    if product > 0 {
        Turn::Left
    } else if product < 0 {
        Turn::Right
    } else {
        Turn::Straight
    }
}

/// Whether the stretches of one axis from `a` to `b` and from `c` to `d` have a place in common.
fn overlap(a: i64, b: i64, c: i64, d: i64) -> bool
    ensures { IsTrue result ↔ IsOverlap a b c d }
{
    a.min(b) <= c.max(d) && c.min(d) <= a.max(b)
}

/// Whether `c` and `d` don't lie on one side of the line of `s`, with neither on the line.
fn parts(s: Segment, c: Point, d: Point) -> bool
    requires a { IsOnGrid s.a }
    requires b { IsOnGrid s.b }
    requires c { IsOnGrid c }
    requires d { IsOnGrid d }
    ensures { IsTrue result ↔ IsParted (cross s.a s.b c) (cross s.a s.b d) }
{
    let first = cross_product(s.a, s.b, c);
    let second = cross_product(s.a, s.b, d);
    first.min(second) <= 0 && first.max(second) >= 0
}

/// Whether the segments `s` and `t` share a point, be it a whole one or one with fractions as coordinates. Ends belong to
/// a segment, and a segment may be a single point.
///
/// Range: coordinates from 0 to 50,000,000.
pub fn meet(s: Segment, t: Segment) -> bool
    requires s_a { IsOnGrid s.a }
    requires s_b { IsOnGrid s.b }
    requires t_a { IsOnGrid t.a }
    requires t_b { IsOnGrid t.b }
    ensures { IsTrue result ↔ Meet s t }
{
    overlap(s.a.x, s.b.x, t.a.x, t.b.x)
        && overlap(s.a.y, s.b.y, t.a.y, t.b.y)
        && parts(s, t.a, t.b)
        && parts(t, s.a, s.b)
}

/// Whether `r` lies on the ray from the first point of `s` through the second, and is not the first.
fn is_on_ray(s: Segment, r: Point) -> bool
    requires a { IsOnGrid s.a }
    requires b { IsOnGrid s.b }
    requires r { IsOnGrid r }
    ensures { IsTrue result ↔ IsOnRay s r }
{
    cross_product(s.a, s.b, r) == 0 && scalar_product(s.a, s.b, r) > 0
}

/// Whether the segments `s` and `t` have a point in common that is not the first of `s`.
pub fn meet_beyond(s: Segment, t: Segment) -> bool
    requires s_a { IsOnGrid s.a }
    requires s_b { IsOnGrid s.b }
    requires t_a { IsOnGrid t.a }
    requires t_b { IsOnGrid t.b }
    ensures { IsTrue result ↔ MeetBeyond s t }
{
    if meet(Segment { a: s.a, b: s.a }, t) {
        is_on_ray(s, t.a) || is_on_ray(s, t.b)
    } else {
        meet(s, t)
    }
}
