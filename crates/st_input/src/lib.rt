//! The graph that a tree of pairs describes.
#![tactic(auto)]

mod edges;
mod fault;
mod graph;
pub mod laws;
mod names;
mod nodes;
mod orders;
mod outer;
mod paths;
mod plain;
mod runs;
mod tables;

pub use fault::{PathNameFault, ShapeFault};
pub use graph::{GraphSpec, read_graph};

#[cfg(test)]
mod tests {
    use super::*;
    use gml_core::parse;
    use st_ids::{Dart, EdgeId, VertexId};
    use std::alloc::Global;
    use std::test::Fail;

    fn read(alloc: Global, text: &[u8]) -> Result<GraphSpec, ShapeFault> {
        if text.len() > 400 {
            return Err(ShapeFault::NoMemory);
        }
        match parse(alloc, text) {
            Ok(tree) => read_graph(alloc, &tree, 3, 4),
            Err(_) => Err(ShapeFault::NoMemory),
        }
    }

    fn fault(alloc: Global, text: &[u8]) -> Option<ShapeFault> {
        read(alloc, text).err()
    }

    #[test]
    fn each_text_has_its_first_fault(rt: HostRuntime) -> Result<(), Fail> {
        let alloc = rt.alloc();
        let rows: [(&[u8], Option<ShapeFault>); 14] = [
            (b"a 1", Some(ShapeFault::NoGraph)),
            (
                b"graph [ ] graph [ ]",
                Some(ShapeFault::SecondGraph { at: 10 }),
            ),
            (
                b"graph [ node [ id 1.5 ] ]",
                Some(ShapeFault::BadKind { at: 15 }),
            ),
            (b"graph [ node [ ] ]", Some(ShapeFault::NoId { at: 8 })),
            (
                b"graph [ node [ id 1 ] node [ id 1 ] ]",
                Some(ShapeFault::SameId { id: 1 }),
            ),
            (
                b"graph [ edge [ source 1 ] ]",
                Some(ShapeFault::NoEnd { edge: 0 }),
            ),
            (
                b"graph [ edge [ source 1 target 2 ] ]",
                Some(ShapeFault::UnknownEnd { edge: 0, id: 1 }),
            ),
            (
                b"graph [ node [ id 1 ] node [ id 2 ] edge [ id 7 source 1 target 2 ] edge [ id 7 source 1 target 2 ] ]",
                Some(ShapeFault::SameEdgeId { id: 7 }),
            ),
            (
                b"graph [ node [ id 1 order [ e 5 ] ] ]",
                Some(ShapeFault::UnknownEdge { at: 28 }),
            ),
            (
                b"graph [ outer [ edge 0 ] ]",
                Some(ShapeFault::BadOuter { at: 8 }),
            ),
            (
                b"graph [ outer [ edge 0 side 1 ] ]",
                Some(ShapeFault::UnknownEdge { at: 16 }),
            ),
            (
                b"graph [ node [ id 1 ] node [ id 2 ] node [ id 3 ] node [ id 4 ] ]",
                Some(ShapeFault::TooManyVertices { n: 4 }),
            ),
            (
                b"graph [ node [ id 1 ] edge [ source 1 target 1 ] edge [ source 1 target 1 ] edge [ source 1 target 1 ] edge [ source 1 target 1 ] edge [ source 1 target 1 ] ]",
                Some(ShapeFault::TooManyEdges { m: 5 }),
            ),
            (
                b"graph [ node [ id 1 ] node [ id 2 ] node [ id 3 ] edge [ source 1 target 2 ] edge [ id 5 source 2 target 3 ] edge [ id 5 source 2 target 3 ] edge [ source 1 target 3 ] ]",
                None,
            ),
        ];
        for (i, (text, expected)) in rows.iter().enumerate() {
            assert_eq!(rt; (i, fault(alloc, *text)), (i, *expected));
        }
        Ok(())
    }

    const TEXT: &[u8] =
        b"graph [ node [ id -1 label \"s\xC3(\" ] node [ id 5 label 3 minlen 2.0 ] node [ id 7 order [ e 11 e 10 ] ] edge [ id 10 source -1 target 7 ] edge [ id 11 source 5 target 7 minlen 500 ] edge [ id 12 source -1 target 5 ] edge [ id 13 source -1 target 5 ] outer [ edge 12 side 1 ] path [ e 10 ] ]";

    fn has_names(spec: &GraphSpec) -> bool {
        spec.names().vertex.items() == [-1, 5, 7].as_slice()
            && spec.names().edge.items() == [10, 11, 12, 13].as_slice()
    }

    fn has_ends(spec: &GraphSpec) -> bool {
        spec.graph().ends() == [(0, 2), (1, 2), (0, 1), (0, 1)].as_slice()
            && spec.outer() == Some(Dart(5))
    }

    fn has_lengths(spec: &GraphSpec) -> bool {
        spec.lengths().items() == [1, 500, 1, 1].as_slice()
            && spec.graph().edges() == 4
            && spec.length(EdgeId(1)) == 500
    }

    fn has_vertices(spec: &GraphSpec) -> bool {
        spec.vertex_of(5) == Some(VertexId(1)) && spec.vertex_of(0).is_none()
    }

    fn has_order(spec: &GraphSpec, v: u32, edges: &[EdgeId]) -> bool {
        v < spec.orders().len() && spec.orders().get(VertexId(v)).items() == edges
    }

    fn has_label(spec: &GraphSpec, v: u32, label: &[u8]) -> bool {
        if v < spec.names().label.len() {
            match spec.names().label.get(VertexId(v)) {
                Some(text) => text.bytes() == label,
                None => label.is_empty(),
            }
        } else {
            false
        }
    }

    fn has_orders(spec: &GraphSpec) -> bool {
        has_order(spec, 0, &[EdgeId(0), EdgeId(2), EdgeId(3)])
            && has_order(spec, 1, &[EdgeId(1), EdgeId(3), EdgeId(2)])
            && has_order(spec, 2, &[EdgeId(1), EdgeId(0)])
    }

    fn has_labels(spec: &GraphSpec) -> bool {
        has_label(spec, 0, b"s?(") && has_label(spec, 1, b"")
    }

    #[test]
    fn a_text_gives_its_graph(rt: HostRuntime) -> Result<(), Fail> {
        let spec = read(rt.alloc(), TEXT)?;
        assert_eq!(rt;
            (has_names(&spec), has_ends(&spec), has_vertices(&spec)),
            (true, true, true)
        );
        assert_eq!(rt;
            (has_lengths(&spec), has_orders(&spec), has_labels(&spec)),
            (true, true, true)
        );
        Ok(())
    }

    /// What is said of the paths of a text: the edges of each, or their fault.
    fn paths_said(alloc: Global, text: &[u8]) -> Result<String, Fail> {
        let spec = read(alloc, text)?;
        let mut said = String::new(alloc);
        match spec.paths(alloc) {
            Ok(paths) => {
                for i in 0..paths.len() {
                    let edges = paths.path(i);
                    write!(&mut said, "{edges:?}")?;
                }
            }
            Err(fault) => write!(&mut said, "{fault}")?,
        }
        Ok(said)
    }

    #[test]
    fn paths_are_told_by_their_edges(rt: HostRuntime) -> Result<(), Fail> {
        let alloc = rt.alloc();
        let rows: [(&[u8], &str); 7] = [
            (b"graph [ ]", ""),
            (b"graph [ path [ ] ]", "[]"),
            (
                b"graph [ node [ id 1 ] node [ id 2 ] edge [ source 1 target 2 ] edge [ source 1 target 2 ] edge [ source 1 target 2 ] path [ e 2 e 0 ] path [ e 9 ] ]",
                "1 names unknown edge 9",
            ),
            (
                b"graph [ node [ id 1 ] node [ id 2 ] edge [ source 1 target 2 ] edge [ source 1 target 2 ] path [ e 1 e 0 ] path [ e 1 ] ]",
                "[EdgeId(1), EdgeId(0)][EdgeId(1)]",
            ),
            (
                b"graph [ node [ id 1 ] node [ id 2 ] edge [ id 7 source 1 target 2 ] edge [ id -4 source 1 target 2 ] path [ e -4 ] ]",
                "[EdgeId(1)]",
            ),
            (
                b"graph [ node [ id 1 ] node [ id 2 ] edge [ id 7 source 1 target 2 ] path [ ] path [ e 7 e 0 e 3 ] ]",
                "1 names unknown edge 0",
            ),
            (
                b"graph [ node [ id 1 ] node [ id 2 ] edge [ id 7 source 1 target 2 ] edge [ source 1 target 2 ] path [ e 7 ] path [ e -1 ] ]",
                "0 names unknown edge 7",
            ),
        ];
        for (text, expected) in rows {
            let said = paths_said(alloc, text)?;
            assert_eq!(rt; said.as_str(), expected);
        }
        Ok(())
    }
}
