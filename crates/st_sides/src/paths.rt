//! The two paths of each node of the dual, with its lowest and highest vertex.
ghost use Rattle.std.specs.Prelude.{◌≡◌, ◌+◌, ◌<◌, ◌≤◌, ◌^◌, [], true, false, IfOk};
ghost use Rattle.st_ids.specs.EdgeNumbers.{numbers};
ghost use Rattle.st_map.specs.Embedded.{darts, faces};
ghost use Rattle.st_test.specs.FaceNumbers.{orbit_number};
ghost use Rattle.st_sides.specs.Filled.{AreStarts, label_of};
ghost use Rattle.st_sides.specs.NodeSides.{AreNodeLists, NodeBegins, NodeSides};

use crate::parts::parts;
use crate::stars::two_lists;
use crate::starts::list_starts;
use st_ids::{Dart, EdgeId, FaceId, IdVec, NoMemory, PathList};
use st_test::StGraph;
use std::alloc::Global;

/// The number of the face of a node, where the outer face has the number `outer`, and there are `count` faces.
fn label(f: u32, outer: u32, count: u32) -> u32
    ensures { result ≡ label_of f outer count }
{
    if f == 0 || f == count {
        outer
    } else if f - 1 < outer {
        f - 1
    } else {
        f
    }
}

/// The number of faces, below 2^31.
pub(crate) fn count_faces(graph: &StGraph) -> u32
    ensures value { result ≡ faces graph.now.map.graph }
    ensures few { result < 2 ^ 31 }
{
    let _ = graph.map().edges();
    graph.faces().count()
}

/// The first end out along the face of the node.
fn node_start(graph: &StGraph, starts: &[u32], f: u32) -> Dart
    requires starts { AreStarts graph.now.map.graph true (darts graph.now.map.graph) starts.now }
    requires there { f ≤ faces graph.now.map.graph }
    ensures { NodeBegins graph.now.map.graph graph.now.outer f result.0 }
{
    let _ = graph.map();
    let at = label(f, graph.outer().0, count_faces(graph));
    Dart(starts[at as usize])
}

/// Takes all edges out of the list, or leaves it.
fn clear_if(list: &mut Vec<EdgeId>, none: bool)
    ensures none { none ≡ true → list.new.items ≡ [] }
    ensures all { none ≡ false → list.new.items ≡ list.old.items }
{
    if none {
        list.clear();
    }
}

/// Fills the lists with the left and right path of a node, whose face begins with `start`, and answers its lowest and
/// highest vertex.
fn node_sides(
    graph: &StGraph,
    f: u32,
    start: Dart,
    left: &mut Vec<EdgeId>,
    right: &mut Vec<EdgeId>,
) -> Result<(u32, u32), NoMemory>
    requires there { f ≤ faces graph.now.map.graph }
    requires begins { NodeBegins graph.now.map.graph graph.now.outer f start.0 }
    ensures { IfOk result (λ r. NodeSides graph.now.map.graph graph.now.source graph.now.sink graph.now.outer f r.0 r.1 (numbers left.new.items) (numbers right.new.items)) }
{
    let map = graph.map();
    let stop = parts(map, true, start, right, left)?;
    clear_if(left, f == 0);
    clear_if(right, f == count_faces(graph));
    Ok((map.vertex_of(start).0, map.vertex_of(stop).0))
}

/// The lowest and highest vertices and the paths of all nodes.
#[derive(Drop)]
pub(crate) struct NodeLists {
    pub(crate) lows: IdVec<FaceId, u32>,
    pub(crate) highs: IdVec<FaceId, u32>,
    pub(crate) lefts: PathList,
    pub(crate) rights: PathList,
}

/// The lowest and highest vertex and the paths of each node.
pub(crate) fn node_lists(alloc: Global, graph: &StGraph) -> Result<NodeLists, NoMemory>
    ensures { IfOk result (λ r. AreNodeLists graph.now.map.graph graph.now.source graph.now.sink graph.now.outer (faces graph.now.map.graph + 1) r.lows r.highs r.lefts r.rights) }
{
    let starts = list_starts(alloc, graph, true)?;
    let count = count_faces(graph) + 1;
    let mut lows = IdVec::with_capacity(alloc, count)?;
    let mut highs = IdVec::with_capacity(alloc, count)?;
    let (mut lefts, mut rights) = two_lists(alloc, count, graph.map().edges())?;
    let mut left = Vec::new(alloc);
    let mut right = Vec::new(alloc);
    for f in 0..count {
        let start = node_start(graph, &starts, f);
        let (low, high) = node_sides(graph, f, start, &mut left, &mut right)?;
        lows.push(low)?;
        highs.push(high)?;
        lefts.push_edges(&left)?;
        rights.push_edges(&right)?;
    }
    Ok(NodeLists {
        lows,
        highs,
        lefts,
        rights,
    })
}
