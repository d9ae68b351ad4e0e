//! A directed graph, with its vertices and edges numbered from 0.
ghost use Rattle.std.specs.Prelude.{◌≡◌, ◌+◌, ◌<◌, ◌^◌, [], ◌∷◌, ◌++◌, length, IfOk, OnOk, OnErr};
ghost use Rattle.st_ids.specs.Graph.{HasEnds, tail_of, head_of};

use crate::{EdgeId, NoMemory, VertexId};
use std::alloc::Global;
use std::marker::Model;

/// A directed graph. A contract sees the number of vertices, and the tail and head of each edge (`Graph`).
#[derive(Drop)]
pub struct Digraph {
    vertices: u32,
    ends: Vec<(u32, u32)>,
}

impl Model for Digraph {
    ghost use Rattle.std.specs.Prelude.{◌<◌, ◌^◌, length};
    ghost use Rattle.st_ids.specs.Graph.{Graph, AreWithin};

    ghost Value = { Graph };

    ghost view = { λ a. record { vertices = a.vertices; ends = a.ends.items } };

    ghost invariant = { λ a. (a.vertices < 2 ^ 30) × (length a.ends.items < 2 ^ 30) × AreWithin a.vertices a.ends.items };
}

impl Digraph {
    /// The graph without vertices.
    pub fn new(alloc: Global) -> Digraph
        ensures vertices { result.vertices ≡ 0 }
        ensures ends { result.ends ≡ [] }
    {
        Digraph {
            vertices: 0,
            ends: Vec::new(alloc),
        }
    }

    /// Adds n vertices, with the next numbers.
    pub fn add_vertices(&mut self, n: u32)
        requires { self.old.vertices + n < 2 ^ 30 }
        ensures { self.new ≡ record self.old { vertices = self.old.vertices + n } }
    {
        self.vertices += n;
    }

    /// Takes room for n more edges. Errors: `NoMemory`.
    pub fn reserve(&mut self, n: u32) -> Result<(), NoMemory>
        ensures { self.new ≡ self.old }
    {
        self.ends.reserve_exact(n as usize)?;
        Ok(())
    }

    /// Adds an edge, with the next number.
    pub fn add_edge(&mut self, tail: VertexId, head: VertexId) -> Result<EdgeId, NoMemory>
        requires tail { tail.0 < self.old.vertices }
        requires head { head.0 < self.old.vertices }
        requires room { length self.old.ends + 1 < 2 ^ 30 }
        ensures number { IfOk result (λ e. e.0 ≡ length self.old.ends) }
        ensures ok { OnOk result (self.new ≡ record self.old { ends = self.old.ends ++ (tail.0, head.0) ∷ [] }) }
        ensures err { OnErr result (self.new ≡ self.old) }
    {
        let number = EdgeId(self.ends.len() as u32);
        if self.ends.push((tail.0, head.0)).is_err() {
            return Err(NoMemory);
        }
        Ok(number)
    }

    /// The number of vertices, below 2^30.
    pub fn vertices(&self) -> u32
        ensures value { result ≡ self.now.vertices }
        ensures few { self.now.vertices < 2 ^ 30 }
    {
        self.vertices
    }

    /// The number of edges, below 2^30.
    pub fn edges(&self) -> u32
        ensures value { result ≡ length self.now.ends }
        ensures few { length self.now.ends < 2 ^ 30 }
    {
        self.ends.len() as u32
    }

    /// Where the edge leads from.
    #[tactic(auto, unfolding(crate::specs::Graph::tail_of))]
    pub fn tail(&self, e: EdgeId) -> VertexId
        requires { e.0 < length self.now.ends }
        ensures value { result.0 ≡ tail_of self.now.ends e.0 }
        ensures within { result.0 < self.now.vertices }
    {
        VertexId(self.ends[e.0 as usize].0)
    }

    /// Where the edge leads to.
    #[tactic(auto, unfolding(crate::specs::Graph::head_of))]
    pub fn head(&self, e: EdgeId) -> VertexId
        requires { e.0 < length self.now.ends }
        ensures value { result.0 ≡ head_of self.now.ends e.0 }
        ensures within { result.0 < self.now.vertices }
    {
        VertexId(self.ends[e.0 as usize].1)
    }

    /// The number of the tail and of the head of each edge, for a pass over all edges.
    pub fn ends(&self) -> &[(u32, u32)]
        ensures value { result.now ≡ self.now.ends }
        ensures within { HasEnds self.now }
        ensures few { length result.now < 2 ^ 30 }
    {
        &self.ends
    }
}
