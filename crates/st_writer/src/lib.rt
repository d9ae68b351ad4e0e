//! The tree of a graph's file: with all that the graph has but written paths, so that it is read again as the graph, or
//! with its vertices and edges alone.
#![tactic(auto)]

pub mod laws;
mod written;

pub use written::{plain_tree, written_tree};

#[cfg(test)]
mod tests {
    use super::*;
    use gml_core::{parse, print};
    use st_ids::{Digraph, Text, VertexId};
    use st_input::laws::read_is_writable;
    use st_input::{GraphSpec, ShapeFault, read_graph};
    use std::alloc::Global;
    use std::test::Fail;

    const TEXT: &[u8] =
        b"graph [ node [ id -1 label \"s\xC3(\" ] node [ id 5 label 3 minlen 2.0 ] node [ id 7 order [ e 11 e 10 ] ] edge [ id 10 source -1 target 7 ] edge [ id 11 source 5 target 7 minlen 500 ] edge [ id 12 source -1 target 5 ] edge [ id 13 source -1 target 5 ] outer [ edge 12 side 1 ] path [ e 10 ] ]";

    /// The text of a plain graph with three vertices and three edges.
    fn plain_text(alloc: Global) -> Result<Text, Fail> {
        let mut graph = Digraph::new(alloc);
        graph.add_vertices(3);
        graph.add_edge(VertexId(0), VertexId(1))?;
        graph.add_edge(VertexId(0), VertexId(2))?;
        graph.add_edge(VertexId(2), VertexId(1))?;
        let spec = GraphSpec::plain(alloc, graph)?;
        let tree = plain_tree(alloc, &spec)?;
        Ok(print(alloc, &tree)?)
    }

    #[test]
    fn a_plain_graph_is_printed(rt: HostRuntime) -> Result<(), Fail> {
        let text = plain_text(rt.alloc())?;
        assert_eq!(rt;
            text.bytes(),
            b"graph [\ndirected 1\nnode [\nid 1\n]\nnode [\nid 2\n]\nnode [\nid 3\n]\nedge [\nsource 1\ntarget 2\n]\nedge [\nsource 1\ntarget 3\n]\nedge [\nsource 3\ntarget 2\n]\n]\n".as_slice()
        );
        Ok(())
    }

    /// The text that is written of the graph of a text.
    fn written_text(alloc: Global, text: &[u8]) -> Result<Text, Fail> {
        if text.len() > 400 {
            return Err(Fail::from(ShapeFault::NoMemory));
        }
        let tree = parse(alloc, text)?;
        let spec = read_graph(alloc, &tree, 3, 4)?;
        read_is_writable();
        let written = written_tree(alloc, &spec)?;
        Ok(print(alloc, &written)?)
    }

    #[test]
    fn a_graph_is_written_whole(rt: HostRuntime) -> Result<(), Fail> {
        let text = written_text(rt.alloc(), TEXT)?;
        assert_eq!(rt;
            text.bytes(),
            b"graph [\ndirected 1\nouter [\nedge 12\nside 1\n]\nnode [\nid -1\nlabel \"s?(\"\norder [\ne 10\ne 12\ne 13\n]\n]\nnode [\nid 5\norder [\ne 11\ne 13\ne 12\n]\n]\nnode [\nid 7\norder [\ne 11\ne 10\n]\n]\nedge [\nid 10\nsource -1\ntarget 7\n]\nedge [\nid 11\nsource 5\ntarget 7\nminlen 500\n]\nedge [\nid 12\nsource -1\ntarget 5\n]\nedge [\nid 13\nsource -1\ntarget 5\n]\n]\n".as_slice()
        );
        Ok(())
    }
}
