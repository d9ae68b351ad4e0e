//! A `Dominance` that is written by its two fields: its readers take whatever points it holds.

use crate::runs::no_number;
use draw_dom::{Dominance, reaches_by};
use st_ids::{IdVec, VertexId};
use st_shape::{Form, Picture, Point};
use std::alloc::Global;
use std::test::Fail;

// Three points: the first is at most the second, the third at most the second, and none of first and third at most the other.
const ROWS: [(u32, u32, bool); 9] = [
    (0, 0, true),
    (0, 1, true),
    (0, 2, false),
    (1, 0, false),
    (1, 1, true),
    (1, 2, false),
    (2, 0, false),
    (2, 1, true),
    (2, 2, true),
];

fn three_points(alloc: Global) -> Result<Dominance, Fail> {
    let mut points = IdVec::new(alloc);
    points.push(Point { x: 0, y: 1 })?;
    points.push(Point { x: 1, y: 1 })?;
    points.push(Point { x: 1, y: 0 })?;
    let picture = Picture::new(alloc, Form::Dominance, Point { x: 5, y: 5 });
    Ok(Dominance { picture, points })
}

// Whether each reader says of two of the points whether the first reaches the second.
fn is_read_so(drawn: &Dominance, u: VertexId, v: VertexId, reached: bool) -> bool {
    if drawn.points.len() <= u.0 || drawn.points.len() <= v.0 {
        return false;
    }
    let p = drawn.point(u);
    let q = drawn.point(v);
    drawn.reaches(u, v) == reached
        && reaches_by(&drawn.points, u, v) == reached
        && (p.x <= q.x && p.y <= q.y) == reached
}

fn bad_pair(alloc: Global) -> Result<Option<u64>, Fail> {
    let drawn = three_points(alloc)?;
    let mut number = 0u64;
    for (u, v, reached) in ROWS {
        if !is_read_so(&drawn, VertexId(u), VertexId(v), reached) {
            return Ok(Some(number));
        }
        number = number.saturating_add(1);
    }
    Ok(None)
}

#[test]
fn readers_take_whatever_points_there_are(rt: HostRuntime) -> Result<(), Fail> {
    no_number(&rt, bad_pair(rt.alloc())?);
    Ok(())
}
