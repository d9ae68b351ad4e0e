//! The sides of a planar st-graph as a value, with its readers.
ghost use Rattle.std.specs.Prelude.{◌≡◌, ◌<◌, ◌≤◌, ◌+◌, ◌^◌, IfOk};
ghost use Rattle.std.specs.List.{All};
ghost use Rattle.st_ids.specs.EdgeNumbers.{numbers};
ghost use Rattle.st_sides.specs.Held.{IsHeld};
ghost use Rattle.st_sides.specs.SidesOf.{IsSidesOf};
ghost use Rattle.st_sides.specs.Sides.{edge_count, edge_tail, edge_head, face_left, face_right, outs, ins, low, high, left_path, right_path, left_of, right_of};

use crate::beside::vertex_nodes;
use crate::laws;
use crate::nodes::edge_nodes;
use crate::paths::{count_faces, node_lists};
use crate::stars::stars;
use st_ids::{Digraph, EdgeId, FaceId, IdVec, NoMemory, PathList, VertexId};
use st_test::StGraph;
use std::alloc::Global;
use std::marker::Model;

/// The sides of a planar st-graph: the nodes of its dual left and right of each edge and vertex, the edges out and in at
/// each vertex from left to right, and the two paths of each node. A contract sees the record `SidesValue`.
///
/// The outer face is two nodes: its left half is node 0, and its right half the node with the greatest number. The inner
/// faces stand between, in the order of their least ends.
#[derive(Drop)]
pub struct Sides {
    graph: Digraph,
    source: VertexId,
    sink: VertexId,
    last: FaceId,
    edge_lefts: IdVec<EdgeId, u32>,
    edge_rights: IdVec<EdgeId, u32>,
    outs: PathList,
    ins: PathList,
    lows: IdVec<FaceId, u32>,
    highs: IdVec<FaceId, u32>,
    left_paths: PathList,
    right_paths: PathList,
    vertex_lefts: IdVec<VertexId, u32>,
    vertex_rights: IdVec<VertexId, u32>,
}

impl Model for Sides {
    ghost use Rattle.st_sides.specs.Held.{IsHeld};
    ghost use Rattle.st_sides.specs.Sides.{SidesValue};

    ghost Value = { SidesValue };

    ghost view = { λ a. record {
      vertices = a.graph.vertices;
      ends = a.graph.ends;
      source = a.source.0;
      sink = a.sink.0;
      t_star = a.last.0;
      lefts_of_edges = a.edge_lefts;
      rights_of_edges = a.edge_rights;
      out_lists = a.outs;
      in_lists = a.ins;
      lows = a.lows;
      highs = a.highs;
      left_paths = a.left_paths;
      right_paths = a.right_paths;
      lefts_of_vertices = a.vertex_lefts;
      rights_of_vertices = a.vertex_rights;
    } };

    ghost invariant = { λ a. IsHeld (record {
      vertices = a.graph.vertices;
      ends = a.graph.ends;
      source = a.source.0;
      sink = a.sink.0;
      t_star = a.last.0;
      lefts_of_edges = a.edge_lefts;
      rights_of_edges = a.edge_rights;
      out_lists = a.outs;
      in_lists = a.ins;
      lows = a.lows;
      highs = a.highs;
      left_paths = a.left_paths;
      right_paths = a.right_paths;
      lefts_of_vertices = a.vertex_lefts;
      rights_of_vertices = a.vertex_rights;
    }) };
}

impl Sides {
    /// The sides of an embedded planar st-graph.
    ///
    /// Errors: `NoMemory`.
    /// Cost: O(V + E) time, and memory for each edge in four lists. Not proved.
    pub fn of(alloc: Global, graph: &StGraph) -> Result<Sides, NoMemory>
        ensures { IfOk result (λ x. IsSidesOf graph.now.map.graph graph.now.source graph.now.sink graph.now.outer x) }
    {
        let map = graph.map();
        let last = count_faces(graph);
        let edge_lefts = edge_nodes(alloc, graph, 0, 0)?;
        let edge_rights = edge_nodes(alloc, graph, 1, last)?;
        let (outs, ins) = stars(alloc, graph)?;
        let nodes = node_lists(alloc, graph)?;
        let vertex_lefts = vertex_nodes(alloc, graph, &outs, &edge_lefts, false, 0)?;
        let vertex_rights = vertex_nodes(alloc, graph, &outs, &edge_rights, true, last)?;
        let copy = map.digraph(alloc)?;
        Ok(Sides {
            graph: copy,
            source: graph.source(),
            sink: graph.sink(),
            last: FaceId(last),
            edge_lefts,
            edge_rights,
            outs,
            ins,
            lows: nodes.lows,
            highs: nodes.highs,
            left_paths: nodes.lefts,
            right_paths: nodes.rights,
            vertex_lefts,
            vertex_rights,
        })
    }

    /// What is told are the sides of a planar st-graph, with an entry for each vertex, edge and node.
    pub fn facts(&self)
        ensures { IsHeld self.now }
    {
        let _ = &self.source;
    }

    /// The number of vertices, below 2^30.
    pub fn vertices(&self) -> u32
        ensures value { result ≡ self.now.vertices }
        ensures few { result < 2 ^ 30 }
    {
        self.graph.vertices()
    }

    /// The number of edges, below 2^30.
    #[tactic(auto, unfolding(crate::specs::Sides::edge_count))]
    pub fn edges(&self) -> u32
        ensures value { result ≡ edge_count self.now }
        ensures few { result < 2 ^ 30 }
    {
        self.graph.edges()
    }

    /// The number of nodes of the dual: one more than the faces, since the outer face is two nodes.
    pub fn faces(&self) -> u32
        ensures value { result ≡ self.now.t_star + 1 }
        ensures few { self.now.t_star < 2 ^ 31 }
    {
        self.last.0 + 1
    }

    /// Where the edge leads from.
    #[tactic(auto, unfolding(crate::specs::Sides::edge_count, crate::specs::Sides::edge_tail))]
    pub fn tail(&self, e: EdgeId) -> VertexId
        requires { e.0 < edge_count self.now }
        ensures value { result.0 ≡ edge_tail self.now e.0 }
        ensures within { result.0 < self.now.vertices }
    {
        self.graph.tail(e)
    }

    /// Where the edge leads to.
    #[tactic(auto, unfolding(crate::specs::Sides::edge_count, crate::specs::Sides::edge_head))]
    pub fn head(&self, e: EdgeId) -> VertexId
        requires { e.0 < edge_count self.now }
        ensures value { result.0 ≡ edge_head self.now e.0 }
        ensures within { result.0 < self.now.vertices }
    {
        self.graph.head(e)
    }

    /// The node on the left of the edge.
    #[tactic(auto, unfolding(crate::specs::Sides::edge_count, crate::specs::Sides::face_left))]
    pub fn face_left(&self, e: EdgeId) -> FaceId
        requires { e.0 < edge_count self.now }
        ensures value { result.0 ≡ face_left self.now e.0 }
        ensures within { result.0 ≤ self.now.t_star }
    {
        laws::local(self);
        FaceId(*self.edge_lefts.get(e))
    }

    /// The node on the right of the edge.
    #[tactic(auto, unfolding(crate::specs::Sides::edge_count, crate::specs::Sides::face_right))]
    pub fn face_right(&self, e: EdgeId) -> FaceId
        requires { e.0 < edge_count self.now }
        ensures value { result.0 ≡ face_right self.now e.0 }
        ensures within { result.0 ≤ self.now.t_star }
    {
        laws::local(self);
        FaceId(*self.edge_rights.get(e))
    }

    /// The edges out of the vertex, from left to right.
    #[tactic(auto, unfolding(crate::specs::Sides::outs))]
    pub fn outs(&self, v: VertexId) -> &[EdgeId]
        requires { v.0 < self.now.vertices }
        ensures value { numbers result.now ≡ outs self.now v.0 }
        ensures within { All (λ e. e.0 < edge_count self.now) result.now }
    {
        laws::local(self);
        self.outs.path(v.0)
    }

    /// The edges into the vertex, from left to right.
    #[tactic(auto, unfolding(crate::specs::Sides::ins))]
    pub fn ins(&self, v: VertexId) -> &[EdgeId]
        requires { v.0 < self.now.vertices }
        ensures value { numbers result.now ≡ ins self.now v.0 }
        ensures within { All (λ e. e.0 < edge_count self.now) result.now }
    {
        laws::local(self);
        self.ins.path(v.0)
    }

    /// The node on the left of the vertex: that of its leftmost edge out, and at the poles the left half of the outer
    /// face.
    #[tactic(auto, unfolding(crate::specs::Sides::left_of))]
    pub fn left(&self, v: VertexId) -> FaceId
        requires { v.0 < self.now.vertices }
        ensures value { result.0 ≡ left_of self.now v.0 }
        ensures within { result.0 ≤ self.now.t_star }
    {
        laws::local(self);
        FaceId(*self.vertex_lefts.get(v))
    }

    /// The node on the right of the vertex: that of its rightmost edge out, and at the poles the right half of the outer
    /// face.
    #[tactic(auto, unfolding(crate::specs::Sides::right_of))]
    pub fn right(&self, v: VertexId) -> FaceId
        requires { v.0 < self.now.vertices }
        ensures value { result.0 ≡ right_of self.now v.0 }
        ensures within { result.0 ≤ self.now.t_star }
    {
        laws::local(self);
        FaceId(*self.vertex_rights.get(v))
    }

    /// The lowest vertex of the node, where both its paths begin.
    #[tactic(auto, unfolding(crate::specs::Sides::low))]
    pub fn low(&self, f: FaceId) -> VertexId
        requires { f.0 ≤ self.now.t_star }
        ensures value { result.0 ≡ low self.now f.0 }
        ensures within { result.0 < self.now.vertices }
    {
        laws::local(self);
        VertexId(*self.lows.get(f))
    }

    /// The highest vertex of the node, where both its paths end.
    #[tactic(auto, unfolding(crate::specs::Sides::high))]
    pub fn high(&self, f: FaceId) -> VertexId
        requires { f.0 ≤ self.now.t_star }
        ensures value { result.0 ≡ high self.now f.0 }
        ensures within { result.0 < self.now.vertices }
    {
        laws::local(self);
        VertexId(*self.highs.get(f))
    }

    /// The edges with the node on their right, from low to high.
    #[tactic(auto, unfolding(crate::specs::Sides::left_path))]
    pub fn left_path(&self, f: FaceId) -> &[EdgeId]
        requires { f.0 ≤ self.now.t_star }
        ensures value { numbers result.now ≡ left_path self.now f.0 }
        ensures within { All (λ e. e.0 < edge_count self.now) result.now }
    {
        self.facts();
        laws::local(self);
        self.left_paths.path(f.0)
    }

    /// The edges with the node on their left, from low to high.
    #[tactic(auto, unfolding(crate::specs::Sides::right_path))]
    pub fn right_path(&self, f: FaceId) -> &[EdgeId]
        requires { f.0 ≤ self.now.t_star }
        ensures value { numbers result.now ≡ right_path self.now f.0 }
        ensures within { All (λ e. e.0 < edge_count self.now) result.now }
    {
        self.facts();
        laws::local(self);
        self.right_paths.path(f.0)
    }
}
