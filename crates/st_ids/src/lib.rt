//! Typed numbers for the vertices, edges, edge ends and faces of a graph, the lists that they index, and digraphs.
//!
//! A contract sees plain values: an id appears as its number `e.0`, an `IdVec` as the list of its items, an `EdgeList`
//! as the list of its edges' numbers, a `Text` as the list of its bytes, a `Digraph` as the record `Graph`. What walks
//! and reaching are stands in `specs/Walks.antt`, over any numbered arcs.
#![tactic(auto)]

mod digraph;
mod edges;
mod ends;
mod ids;
pub mod limits;
mod names;
mod paths;
mod text;
mod vec;

pub use digraph::Digraph;
pub use edges::EdgeList;
pub use ends::Dart;
pub use ids::{EdgeId, FaceId, Id, NoMemory, OrbitId, VertexId};
pub use names::Names;
pub use paths::PathList;
pub use text::Text;
pub use vec::IdVec;

#[cfg(test)]
mod tests {
    use super::*;
    use std::test::Fail;

    fn last_pushed<K: Id>(list: &mut IdVec<K, u32>, value: u32) -> Option<u32> {
        if list.len() < 9 {
            let key = list.push(value).ok()?;
            return Some(*list.get(key));
        }
        None
    }

    #[test]
    fn a_list_holds_what_was_put(rt: HostRuntime) -> Result<(), Fail> {
        let alloc = rt.alloc();
        let mut list: IdVec<VertexId, u32> = IdVec::with_len(alloc, 3, 5)?;
        assert_eq!(rt; last_pushed(&mut list, 8), Some(8));
        assert_eq!(rt; list.len(), 4);
        list.set(VertexId(1), 6);
        assert_eq!(rt; list.replace(VertexId(2), 7), 5);
        assert_eq!(rt; list.items(), [5, 6, 7, 8].as_slice());
        Ok(())
    }

    #[test]
    fn an_edge_has_its_ends(rt: HostRuntime) -> Result<(), Fail> {
        let mut graph = Digraph::new(rt.alloc());
        graph.add_vertices(2);
        let edge = graph.add_edge(VertexId(1), VertexId(0))?;
        assert_eq!(rt; edge, EdgeId(0));
        assert_eq!(rt; (graph.vertices(), graph.edges()), (2, 1));
        assert_eq!(rt;
            (graph.tail(edge), graph.head(edge)),
            (VertexId(1), VertexId(0))
        );
        Ok(())
    }

    #[test]
    fn paths_keep_their_edges(rt: HostRuntime) -> Result<(), Fail> {
        let alloc = rt.alloc();
        let mut path = EdgeList::new(alloc);
        for e in 0..7 {
            path.push(EdgeId(e))?;
        }
        let mut paths = PathList::new(alloc);
        paths.reserve(3, 8)?;
        paths.push_edges([EdgeId(9)].as_slice())?;
        paths.push_edges([].as_slice())?;
        paths.push(path)?;
        assert_eq!(rt; paths.len(), 3);
        assert_eq!(rt; paths.path(0), [EdgeId(9)].as_slice());
        assert_eq!(rt; paths.path(1).len(), 0);
        assert_eq!(rt; paths.path(2).len(), 7);
        assert_eq!(rt; paths.path(2).last().copied(), Some(EdgeId(6)));
        Ok(())
    }

    #[test]
    fn a_text_grows(rt: HostRuntime) -> Result<(), Fail> {
        let mut text = Text::new(rt.alloc());
        text.append(b"ab")?;
        text.append_number(-5i64)?;
        assert_eq!(rt; text.bytes(), b"ab-5".as_slice());
        text.append(b"0123456789")?;
        text.append(b"c")?;
        assert_eq!(rt; text.bytes(), b"ab-50123456789c".as_slice());
        Ok(())
    }
}
