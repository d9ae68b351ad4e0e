//! The dual nodes left and right of each edge.
ghost use Rattle.std.specs.Prelude.{◌≡◌, ◌+◌, ◌*◌, ◌<◌, IfOk};
ghost use Rattle.st_map.specs.Embedded.{edges};
ghost use Rattle.st_test.specs.FaceNumbers.{orbit_number};
ghost use Rattle.st_sides.specs.Filled.{IsFilled, node_number};

use st_ids::{Dart, EdgeId, IdVec, NoMemory};
use st_test::StGraph;
use std::alloc::Global;

/// The dual node of a face, where the outer face has the number `outer` and stands for the node `half`.
fn node_of(label: u32, outer: u32, half: u32) -> u32
    ensures { result ≡ node_number outer half label }
{
    if label == outer {
        half
    } else if label < outer {
        label + 1
    } else {
        label
    }
}

/// The dual nodes on one side of each edge: the left for side 0, the right for side 1. The outer face stands for the node
/// `half`.
pub(crate) fn edge_nodes(
    alloc: Global,
    graph: &StGraph,
    side: u32,
    half: u32,
) -> Result<IdVec<EdgeId, u32>, NoMemory>
    requires side { side < 2 }
    ensures { IfOk result (λ v. IsFilled 0 (λ e z. z ≡ node_number (orbit_number graph.now.map.graph graph.now.outer) half (orbit_number graph.now.map.graph (2 * e + side))) (edges graph.now.map.graph) v) }
{
    let own = graph.outer();
    let faces = graph.faces();
    let mut nodes = IdVec::with_capacity(alloc, graph.map().edges())?;
    for e in 0..graph.map().edges() {
        let face = faces.orbit(Dart(2 * e + side));
        nodes.push(node_of(face.0, own.0, half))?;
    }
    Ok(nodes)
}
