//! The numbers of the vertices, found anew of a copy of the map.
ghost use Rattle.std.specs.Prelude.{◌≡◌, ◌<◌, ◌↔◌, ℕ, IfOk, IfSome, IsTrue};
ghost use Rattle.st_ids.specs.Graph.{arcs_of};
ghost use Rattle.st_ids.specs.Walks.{Reaches};
ghost use Rattle.st_map.specs.Embedded.{bare};
ghost use Rattle.st_session.specs.Kept.{AreLabelsOf};
ghost use Rattle.st_session.specs.Replies.{AreReplyNumbers};
ghost use Rattle.st_test.specs.Planar.{IsPlanarSt};

use crate::reply::Reply;
use st_ids::{Dart, NoMemory, VertexId};
use st_map::Map;
use st_order::{Labels, labels};
use st_sides::Sides;
use st_test::{EmbedFault, Poles, StGraph, test};
use std::alloc::Global;

/// The planar st-graph of a map that is known to be one.
fn known(alloc: Global, map: Map, poles: Poles, outer: Dart) -> Result<StGraph, NoMemory>
    requires { IsPlanarSt map.graph poles.source.0 poles.sink.0 outer.0 }
    ensures { IfOk result (λ g. g ≡ record { map = map; source = poles.source.0; sink = poles.sink.0; outer = outer.0 }) }
{
    match test(alloc, map, poles, Some(outer)) {
        Ok(graph) => Ok(graph),
        Err(EmbedFault::NoMemory) => Err(NoMemory),
        Err(EmbedFault::BadFaces { v: _, e: _, f: _ }) => unreachable!(),
        Err(
            EmbedFault::Outer {
                misses_source: _,
                misses_sink: _,
            },
        ) => unreachable!(),
    }
}

/// The numbers of the vertices of a map.
fn labels_of(alloc: Global, map: &Map, poles: Poles, outer: Dart) -> Result<Labels, NoMemory>
    requires { IsPlanarSt map.now.graph poles.source.0 poles.sink.0 outer.0 }
    ensures { IfOk result (AreLabelsOf map.now.graph poles.source.0 poles.sink.0 outer.0) }
{
    let copy = map.copy()?;
    let graph = known(alloc, copy, poles, outer)?;
    let sides = Sides::of(alloc, &graph)?;
    sides.facts();
    let found = labels(alloc, &sides)?;
    Ok(found)
}

/// The numbers that are kept, or else those of the map.
pub fn labels_or(
    kept: Option<Labels>,
    alloc: Global,
    map: &Map,
    poles: Poles,
    outer: Dart,
) -> Result<Labels, NoMemory>
    requires planar { IsPlanarSt map.now.graph poles.source.0 poles.sink.0 outer.0 }
    requires kept { IfSome kept (AreLabelsOf map.now.graph poles.source.0 poles.sink.0 outer.0) }
    ensures { IfOk result (AreLabelsOf map.now.graph poles.source.0 poles.sink.0 outer.0) }
{
    match kept {
        Some(labels) => Ok(labels),
        None => labels_of(alloc, map, poles, outer),
    }
}

/// What the numbers say of two vertices.
pub fn reply_of(
    labels: &Labels,
    map: &Map,
    poles: Poles,
    outer: Dart,
    u: VertexId,
    v: VertexId,
) -> Reply
    requires planar { IsPlanarSt map.now.graph poles.source.0 poles.sink.0 outer.0 }
    requires labels { AreLabelsOf map.now.graph poles.source.0 poles.sink.0 outer.0 labels.now }
    requires u_there { u.0 < map.now.graph.vertices }
    requires v_there { v.0 < map.now.graph.vertices }
    ensures { AreReplyNumbers map.now.graph outer.0 u.0 v.0 result }
{
    let reached = labels.reaches(u, v);
    let from_x = *labels.x.get(u);
    let from_y = *labels.y.get(u);
    let to_x = *labels.x.get(v);
    let to_y = *labels.y.get(v);
    Reply {
        reaches: reached,
        from_x,
        from_y,
        to_x,
        to_y,
    }
}
