//! Tests of a graph: its poles, its faces, and whether it is a planar st-graph, with evidence where it isn't.
//!
//! `poles` goes through four tests in their order, and names the first that fails: at least two vertices, no cycle, one
//! vertex without an edge in, one without an edge out. What each answer means stands in `specs/PolesAnswer.antt`.
//! `topological_order` lists the vertices and edges of a graph without a cycle (`specs/Topological.antt`).
//! `faces` numbers the faces of a map (`specs/FaceNumbers.antt`). `test` asks for Euler's formula and for both poles on
//! the outer face, and makes an `StGraph`, whose type keeps that it is a planar st-graph (`specs/Planar.antt`).
#![tactic(auto)]

mod cycle;
mod digraph_fault;
#[cfg(test)]
mod embedding_tests;
mod finding_poles;
mod graph;
pub mod laws;
mod orbits;
mod stripping;
mod topological;
mod tracing;
mod verdict;

pub use digraph_fault::{DigraphFault, Poles};
pub use finding_poles::poles;
pub use graph::StGraph;
pub use orbits::Faces;
pub use topological::{TopologicalOrder, order_arcs, topological_order};
pub use tracing::faces;
pub use verdict::{EmbedFault, outer_end, test, touches};

#[cfg(test)]
mod tests {
    use super::*;
    use st_ids::{Digraph, VertexId};
    use std::alloc::Global;
    use std::test::Fail;

    fn digraph(alloc: Global, n: u32, ends: &[(u32, u32)]) -> Result<Digraph, DigraphFault> {
        let mut graph = Digraph::new(alloc);
        if n < 100 {
            graph.add_vertices(n);
        }
        for (tail, head) in ends {
            if *tail < graph.vertices() && *head < graph.vertices() && graph.edges() < 100 {
                graph.add_edge(VertexId(*tail), VertexId(*head))?;
            }
        }
        Ok(graph)
    }

    fn told(alloc: Global, graph: &Digraph) -> Result<String, DigraphFault> {
        match poles(alloc, graph) {
            Ok(found) => {
                let text = format!(in alloc; "source {}, sink {}", found.source.0, found.sink.0)?;
                Ok(text)
            }
            Err(fault) => {
                let mut text = format!(in alloc; "{fault}")?;
                if let DigraphFault::Cycle { edges } = &fault {
                    for e in edges.items() {
                        text = format!(in alloc; "{text} {}", e.0)?;
                    }
                }
                Ok(text)
            }
        }
    }

    #[test]
    fn names_the_poles_or_the_first_fault(rt: HostRuntime) -> Result<(), Fail> {
        let alloc = rt.alloc();
        let rows: [(u32, &[(u32, u32)], &str); 12] = [
            (0, &[], "too few vertices: 0"),
            (1, &[(0, 0)], "too few vertices: 1"),
            (2, &[(0, 1), (0, 1)], "source 0, sink 1"),
            (4, &[(2, 1), (2, 3), (1, 0), (3, 0)], "source 2, sink 0"),
            (3, &[(0, 1), (1, 2), (2, 0)], "cycle of 3 edges 0 1 2"),
            (2, &[(0, 1), (1, 1)], "cycle of 1 edges 1"),
            (
                4,
                &[(2, 0), (3, 1), (1, 2), (2, 3)],
                "cycle of 3 edges 2 3 1",
            ),
            (3, &[(0, 1), (2, 1), (1, 2), (2, 1)], "cycle of 2 edges 2 1"),
            (4, &[(0, 1), (1, 0), (2, 3), (3, 2)], "cycle of 2 edges 0 1"),
            (4, &[(1, 2), (3, 2)], "3 sources, the first 0 and 1"),
            (3, &[(1, 0), (1, 2)], "2 sinks, the first 0 and 2"),
            (2, &[], "2 sources, the first 0 and 1"),
        ];
        for (n, ends, text) in rows {
            let graph = digraph(alloc, n, ends)?;
            assert_eq!(rt; told(alloc, &graph)?.as_str(), text);
        }
        Ok(())
    }

    fn ordered(alloc: Global, n: u32, ends: &[(u32, u32)]) -> Result<String, DigraphFault> {
        let graph = digraph(alloc, n, ends)?;
        poles(alloc, &graph)?;
        let order = topological_order(alloc, &graph)?;
        let mut text = String::new(alloc);
        for v in order.vertices() {
            text = format!(in alloc; "{text}{} ", v.0)?;
        }
        for e in order.edges() {
            text = format!(in alloc; "{text}:{}", e.0)?;
        }
        Ok(text)
    }

    #[test]
    fn orders_vertices_and_edges(rt: HostRuntime) -> Result<(), Fail> {
        let alloc = rt.alloc();
        let rows: [(u32, &[(u32, u32)], &str); 3] = [
            (4, &[(0, 1), (2, 0), (3, 2)], "3 2 0 1 :2:1:0"),
            (3, &[(1, 0), (2, 1)], "2 1 0 :1:0"),
            (2, &[(1, 0)], "1 0 :0"),
        ];
        for (n, ends, text) in rows {
            assert_eq!(rt; ordered(alloc, n, ends)?.as_str(), text);
        }
        Ok(())
    }
}
