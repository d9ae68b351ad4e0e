//! The digraph of a map, and the vertices of ends.
ghost use Rattle.std.specs.Prelude.{◌≡◌, ◌<◌, ◌^◌, length, IfOk};
ghost use Rattle.st_map.specs.Embedded.{at, bare, darts};

use crate::Map;
use st_ids::{Dart, Digraph, EdgeId, NoMemory, VertexId};
use std::alloc::Global;

impl Map {
    /// The vertices and edges of the map, without its lists.
    ///
    /// Errors: `NoMemory`.
    /// Cost: O(E) time and one block. Not proved.
    pub fn digraph(&self, alloc: Global) -> Result<Digraph, NoMemory>
        ensures value { IfOk result (λ d. d ≡ bare self.now.graph) }
        ensures few_vertices { IfOk result (λ d. d.vertices < 2 ^ 30) }
        ensures few_edges { IfOk result (λ d. length d.ends < 2 ^ 30) }
    {
        let mut graph = Digraph::new(alloc);
        graph.add_vertices(self.vertices());
        graph.reserve(self.edges())?;
        for e in 0..self.edges() {
            let (tail, head) = (self.tail(EdgeId(e)), self.head(EdgeId(e)));
            graph.add_edge(tail, head)?;
        }
        Ok(graph)
    }

    /// The vertex of an end.
    #[tactic(auto, unfolding(crate::specs::Embedded::at))]
    pub fn vertex_of(&self, d: Dart) -> VertexId
        requires { d.0 < darts self.now.graph }
        ensures value { result.0 ≡ at self.now.graph d.0 }
        ensures within { result.0 < self.now.graph.vertices }
    {
        if d.is_out() {
            self.tail(d.edge())
        } else {
            self.head(d.edge())
        }
    }
}
