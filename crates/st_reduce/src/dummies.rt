//! The dummies of the reduced graph, without the graph.
ghost use Rattle.std.specs.Prelude.{◌≡◌, ◌+◌, ◌<◌, ◌≤◌, ◌^◌, true, false, IfOk, None, Some, option_map};
ghost use Rattle.st_sides.specs.Sides.{edge_count};
ghost use Rattle.st_reduce.specs.Marks.{AreTransitive, dummy_numbers};
ghost use Rattle.st_reduce.specs.Dummies.{AreDummies};

use crate::marks::mark_transitive;
use st_ids::{EdgeId, IdVec, NoMemory, VertexId};
use st_sides::Sides;
use std::alloc::Global;

/// The new vertices of the reduced graph, without the graph itself.
#[derive(Drop)]
pub struct Dummies {
    /// The new vertex of each edge, if it is transitive.
    pub of_edges: IdVec<EdgeId, Option<VertexId>>,
    /// How many vertices the reduced graph has.
    pub vertices: u32,
}

/// The new vertex of an edge, if it is marked, and the number of vertices with it.
fn next_dummy(marked: bool, vertices: u32) -> (Option<VertexId>, u32)
    requires few { vertices + 1 < 2 ^ 32 }
    ensures plain { marked ≡ false → (option_map (λ w. w.0) result.0 ≡ None) × (result.1 ≡ vertices) }
    ensures split { marked ≡ true → (option_map (λ w. w.0) result.0 ≡ Some vertices) × (result.1 ≡ vertices + 1) }
    ensures few { result.1 ≤ vertices + 1 }
{
    if marked {
        (Some(VertexId(vertices)), vertices + 1)
    } else {
        (None, vertices)
    }
}

/// The dummies of the marked edges.
fn numbered(alloc: Global, sides: &Sides, marks: &IdVec<EdgeId, bool>) -> Result<Dummies, NoMemory>
    requires { AreTransitive sides.now marks.now }
    ensures dummies { IfOk result (λ d. AreDummies sides.now (dummy_numbers d.of_edges) d.vertices) }
    ensures few { IfOk result (λ d. d.vertices ≤ sides.now.vertices + edge_count sides.now) }
{
    let edges = sides.edges();
    let mut of_edges: IdVec<EdgeId, Option<VertexId>> = IdVec::with_capacity(alloc, edges)?;
    let mut vertices = sides.vertices();
    for e in 0..edges {
        let (vertex, count) = next_dummy(*marks.get(EdgeId(e)), vertices);
        of_edges.push(vertex)?;
        vertices = count;
    }
    Ok(Dummies { of_edges, vertices })
}

/// The new vertices of the reduced graph of each graph with these sides, and how many vertices it has. They are those that
/// `reduce` finds; no graph is made.
///
/// Errors: `NoMemory`.
/// Cost: O(V + E) time, and memory for two lists of edges. Not proved.
pub fn find_dummies(alloc: Global, sides: &Sides) -> Result<Dummies, NoMemory>
    ensures dummies { IfOk result (λ d. AreDummies sides.now (dummy_numbers d.of_edges) d.vertices) }
    ensures few { IfOk result (λ d. d.vertices ≤ sides.now.vertices + edge_count sides.now) }
{
    let marks = mark_transitive(alloc, sides)?;
    numbered(alloc, sides, &marks)
}
