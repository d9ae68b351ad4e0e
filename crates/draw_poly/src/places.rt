//! A column for each vertex, between the ends of its bar.
ghost use Rattle.std.specs.Prelude.{◌<◌, ◌≤◌, IfOk};
ghost use Rattle.st_ids.specs.declared.limits.TheConstants.{MOST_COORDINATE};
ghost use Rattle.draw_poly.specs.Placing.{IsPlacement};
ghost use Rattle.draw_poly.specs.Tables.{ArePlaces, IsPlace};
ghost use Rattle.st_number.specs.Heights.{AreColumns};
ghost use Rattle.st_picture.specs.Bars.{number_at};
ghost use Rattle.st_sides.specs.Sides.{edge_count};

use crate::placer::Placer;
use st_ids::{FaceId, IdVec, NoMemory, VertexId};
use st_sides::{Sides, laws};
use std::alloc::Global;

/// The column in which the closure places the vertex.
fn place<G: Fn(i64, i64) -> i64>(
    sides: &Sides,
    columns: &IdVec<FaceId, i64>,
    placer: &Placer<G>,
    v: VertexId,
) -> i64
    requires there { v.0 < sides.now.vertices }
    requires columns { AreColumns sides.now columns.now }
    requires wide { edge_count sides.now ≤ MOST_COORDINATE }
    requires lawful { IsPlacement G.pre G.post placer.now }
    ensures { IsPlace (G.post placer.now.closure) sides.now (number_at columns.now) v.0 result }
{
    laws::local(sides);
    let lo = *columns.get(sides.left(v));
    let hi = *columns.get(sides.right(v)) - 1;
    placer.place(lo, hi)
}

/// For each vertex the column in which the closure places it: it is asked once for each, with the first and the last column
/// of the vertex's bar.
pub(crate) fn places<G: Fn(i64, i64) -> i64>(
    alloc: Global,
    sides: &Sides,
    columns: &IdVec<FaceId, i64>,
    placer: &Placer<G>,
) -> Result<IdVec<VertexId, i64>, NoMemory>
    requires columns { AreColumns sides.now columns.now }
    requires wide { edge_count sides.now ≤ MOST_COORDINATE }
    requires lawful { IsPlacement G.pre G.post placer.now }
    ensures { IfOk result (ArePlaces (G.post placer.now.closure) sides.now (number_at columns.now) sides.now.vertices) }
{
    let mut places = IdVec::new(alloc);
    for v in 0..sides.vertices() {
        places.push(place(sides, columns, placer, VertexId(v)))?;
    }
    Ok(places)
}
