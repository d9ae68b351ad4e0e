//! The map: tables by number, seen as vertices, edges and clockwise lists of ends.
ghost use Rattle.std.specs.Prelude.{[], ◌≡◌, ◌≢◌, ◌↔◌, ◌+◌, ◌*◌, ◌<◌, ◌≤◌, ◌^◌, ℕ, length, slice_get, IfOk, IfErr, IfSome, IsNone, MatchOption, OnErr, OnOk, Some};
ghost use Rattle.st_ids.specs.Graph.{tail_of, head_of};
ghost use Rattle.st_map.specs.Embedded.{darts, edges, tail, head, order, at, next, IsRotation};
ghost use Rattle.st_map.specs.Fault.{IsMapFault};
ghost use Rattle.st_map.specs.Insert.{insert};
ghost use Rattle.st_map.specs.Remove.{removed};
ghost use Rattle.st_map.specs.Split.{split};
ghost use Rattle.st_map.specs.Orders.{HasEdges, HasNoLoop, IsEdgeAt, IsOrderAt, embed, order_at};

use crate::links::Links;
use crate::orders::{MapFault, check_orders, degrees};
use crate::room::make_room;
use st_ids::{Dart, Digraph, EdgeId, EdgeList, IdVec, NoMemory, VertexId};
use std::alloc::{AllocError, Global};
use std::marker::Model;

/// A digraph with the clockwise list of the edge ends at each vertex, which is a permutation of the ends there. A
/// contract sees the record `MapValue`.
///
/// Memory: 104 bytes an edge and 20 a vertex.
#[derive(Drop)]
pub struct Map {
    vertices: u32,
    ends: Vec<(u32, u32)>,
    degree: Vec<u32>,
    links: Links,
    spare: u32,
}

impl Model for Map {
    ghost use Rattle.std.specs.Prelude.{length, vec_capacity};
    ghost use Rattle.st_map.specs.Embedded.{MapValue};
    ghost use Rattle.st_map.specs.Links.{HasRoom};
    ghost use Rattle.st_map.specs.Tables.{IsMap, rotation_of, tables};

    ghost Value = { MapValue };

    ghost view = { λ a. record { graph = rotation_of (tables a.vertices a.ends.items a.links.first a.degree.items a.links.cw a.links.ccw); spare = a.spare } };

    ghost invariant = { λ a. IsMap (tables a.vertices a.ends.items a.links.first a.degree.items a.links.cw a.links.ccw)
        × HasRoom a.vertices (length a.ends.items) a.spare (vec_capacity a.ends) (vec_capacity a.degree) a.links };
}

/// A copy of the ends of all edges.
fn copied(alloc: Global, ends: &[(u32, u32)]) -> Result<Vec<(u32, u32)>, AllocError>
    ensures { IfOk result (λ v. v.items ≡ ends.now) }
{
    let mut copy = Vec::new(alloc);
    copy.extend_from_slice(ends)?;
    Ok(copy)
}

/// The vertex of an end.
#[tactic(auto, unfolding(crate::specs::Embedded::at, st_ids::specs::Ends::is_out, st_ids::specs::Ends::edge_of, st_ids::specs::Graph::tail_of, st_ids::specs::Graph::head_of))]
fn vertex_at(ends: &[(u32, u32)], d: u32) -> u32
    requires { d < 2 * length ends.now }
    ensures { result ≡ at (record { vertices = 0; ends = ends.now; orders = [] }) d }
{
    let (tail, head) = ends[(d / 2) as usize];
    if d % 2 == 0 { tail } else { head }
}

/// The number that the last edge had, where it took that of e.
fn old_number(e: u32, last: u32) -> Option<EdgeId>
    ensures old { IfSome result (λ old. old.0 ≡ last) }
    ensures none { IsNone result ↔ (e ≡ last) }
{
    if e == last { None } else { Some(EdgeId(last)) }
}

impl Map {
    /// The map of a graph with a clockwise list of edges for each vertex. An entry e in the list of v stands for the
    /// end of e at v, and the first entry for the first end.
    ///
    /// Errors: `BadOrder` exactly where some list isn't a permutation of the edges at its vertex, with the first such
    /// vertex; `NoMemory`.
    /// Cost: O(V + E) time.
    pub fn from_orders(
        alloc: Global,
        graph: &Digraph,
        orders: &IdVec<VertexId, EdgeList>,
    ) -> Result<Map, MapFault>
        requires lists { length orders.now ≡ graph.now.vertices }
        requires edges { HasEdges graph.now orders.now }
        requires no_loop { HasNoLoop graph.now }
        ensures map { IfOk result (λ m. m ≡ record { graph = embed graph.now orders.now; spare = 0 }) }
        ensures lawful { IfOk result (λ _. (v : ℕ) → v < graph.now.vertices → IsOrderAt graph.now.ends v (order_at orders.now v)) }
        ensures fault { IfErr result (IsMapFault graph.now orders.now) }
    {
        let n = graph.vertices();
        let ends = graph.ends();
        let degree = degrees(alloc, n, ends)?;
        check_orders(alloc, n, ends, &degree, orders)?;
        let links = Links::from_lists(alloc, n, ends, orders)?;
        let ends = copied(alloc, ends)?;
        Ok(Map {
            vertices: n,
            ends,
            degree,
            links,
            spare: 0,
        })
    }

    /// An equal map, whose `spare` is 0.
    ///
    /// Errors: `NoMemory`.
    /// Cost: O(V + E) time. Not proved.
    pub fn copy(&self) -> Result<Map, NoMemory>
        ensures { IfOk result (λ m. m ≡ record { graph = self.now.graph; spare = 0 }) }
    {
        match self.copied() {
            Ok(map) => Ok(map),
            Err(_) => Err(NoMemory),
        }
    }

    /// An equal map, whose `spare` is 0.
    fn copied(&self) -> Result<Map, AllocError>
        ensures { IfOk result (λ m. m ≡ record { graph = self.now.graph; spare = 0 }) }
    {
        let alloc = *self.ends.allocator();
        let spare = 0;
        Ok(Map {
            vertices: self.vertices,
            ends: Vec::from_slice(alloc, &self.ends)?,
            degree: Vec::from_slice(alloc, &self.degree)?,
            links: self.links.copied()?,
            spare,
        })
    }

    /// Makes room for n more vertices and n more edges: afterwards `spare` is at least n.
    ///
    /// Errors: `NoMemory`, and the map is as before.
    /// Cost: O(V + E + n) time. Not proved.
    pub fn reserve(&mut self, n: u32) -> Result<(), NoMemory>
        requires vertices { self.old.graph.vertices + n < 2 ^ 30 }
        requires edges { edges self.old.graph + n < 2 ^ 30 }
        ensures graph { self.new.graph ≡ self.old.graph }
        ensures grows { self.old.spare ≤ self.new.spare }
        ensures room { OnOk result (n ≤ self.new.spare) }
        ensures err { OnErr result (self.new ≡ self.old) }
    {
        if n <= self.spare {
            return Ok(());
        }
        let more = n as usize;
        make_room(&mut self.ends, more)?;
        make_room(&mut self.degree, more)?;
        self.links.reserve(more)?;
        self.spare = n;
        Ok(())
    }

    /// Splits the edge e by a new vertex, and answers the vertex and the new edge, which have the next numbers. Edge e ends
    /// at the new vertex now, and the new edge leads from there to e's old head, where its end has the place of e's. The
    /// list of the new vertex is the new edge's end, then e's. `spare` falls by 1, and all else stays.
    ///
    /// Cost: O(1) time, no memory. Not proved.
    #[tactic(auto, unfolding(st_ids::specs::Graph::tail_of, st_ids::specs::Graph::head_of))]
    pub fn split_edge(&mut self, e: EdgeId) -> (VertexId, EdgeId)
        requires edge { e.0 < edges self.old.graph }
        requires spare { 1 ≤ self.old.spare }
        ensures vertex { result.0.0 ≡ self.old.graph.vertices }
        ensures number { result.1.0 ≡ edges self.old.graph }
        ensures graph { self.new.graph ≡ split self.old.graph e.0 }
        ensures spare { self.new.spare + 1 ≡ self.old.spare }
    {
        let vertex = self.vertices;
        let edge = self.ends.len() as u32;
        let (tail, head) = self.ends[e.0 as usize];
        self.links.split(e.0);
        self.degree.push_reserved(2);
        self.ends[e.0 as usize] = (tail, vertex);
        self.ends.push_reserved((vertex, head));
        self.vertices += 1;
        self.spare -= 1;
        (VertexId(vertex), EdgeId(edge))
    }

    /// Puts in an edge from the vertex of `after_a` to that of `after_b`, and answers it: it has the next number. Each of
    /// its ends stands clockwise next after the given one. First ends stay, `spare` falls by 1, and all else stays.
    ///
    /// Cost: O(1) time, no memory. Not proved.
    pub fn insert_edge(&mut self, after_a: Dart, after_b: Dart) -> EdgeId
        requires a { after_a.0 < darts self.old.graph }
        requires b { after_b.0 < darts self.old.graph }
        requires apart { at self.old.graph after_a.0 ≢ at self.old.graph after_b.0 }
        requires spare { 1 ≤ self.old.spare }
        ensures number { result.0 ≡ edges self.old.graph }
        ensures graph { self.new.graph ≡ insert self.old.graph after_a.0 after_b.0 }
        ensures spare { self.new.spare + 1 ≡ self.old.spare }
    {
        let edge = self.ends.len() as u32;
        let tail = vertex_at(&self.ends, after_a.0);
        let head = vertex_at(&self.ends, after_b.0);
        self.links.insert(after_a.0, after_b.0);
        self.degree[tail as usize] += 1;
        self.degree[head as usize] += 1;
        self.ends.push_reserved((tail, head));
        self.spare -= 1;
        EdgeId(edge)
    }

    /// Takes the edge e out: its ends leave their lists, and where one was first, the clockwise next is. The edge with the
    /// greatest number takes the number of e, and its old number is answered; `None` exactly where e had the greatest
    /// number. `spare` stays, and so does all else.
    ///
    /// Cost: O(1) time, no memory. Not proved.
    pub fn remove_edge(&mut self, e: EdgeId) -> Option<EdgeId>
        requires { e.0 < edges self.old.graph }
        ensures old { IfSome result (λ old. old.0 + 1 ≡ edges self.old.graph) }
        ensures none { IsNone result ↔ (e.0 + 1 ≡ edges self.old.graph) }
        ensures graph { self.new.graph ≡ removed self.old.graph e.0 }
        ensures spare { self.new.spare ≡ self.old.spare }
    {
        let last = self.ends.len() as u32 - 1;
        let (tail, head) = self.ends[e.0 as usize];
        self.links.remove(e.0, tail, head);
        self.degree[tail as usize] -= 1;
        self.degree[head as usize] -= 1;
        self.ends.swap_remove(e.0 as usize);
        old_number(e.0, last)
    }

    /// The number of vertices, below 2^30.
    pub fn vertices(&self) -> u32
        ensures value { result ≡ self.now.graph.vertices }
        ensures few { self.now.graph.vertices < 2 ^ 30 }
    {
        self.vertices
    }

    /// The number of edges, below 2^30.
    pub fn edges(&self) -> u32
        ensures value { result ≡ edges self.now.graph }
        ensures few { edges self.now.graph < 2 ^ 30 }
        ensures rotation { IsRotation self.now.graph }
    {
        self.ends.len() as u32
    }

    /// Where the edge leads from.
    #[tactic(auto, unfolding(st_ids::specs::Graph::tail_of))]
    pub fn tail(&self, e: EdgeId) -> VertexId
        requires { e.0 < edges self.now.graph }
        ensures value { result.0 ≡ tail self.now.graph e.0 }
        ensures within { result.0 < self.now.graph.vertices }
    {
        VertexId(self.ends[e.0 as usize].0)
    }

    /// Where the edge leads to.
    #[tactic(auto, unfolding(st_ids::specs::Graph::head_of))]
    pub fn head(&self, e: EdgeId) -> VertexId
        requires { e.0 < edges self.now.graph }
        ensures value { result.0 ≡ head self.now.graph e.0 }
        ensures within { result.0 < self.now.graph.vertices }
    {
        VertexId(self.ends[e.0 as usize].1)
    }

    /// The first end at the vertex; `None` exactly where the vertex has no edge.
    pub fn at(&self, v: VertexId) -> Option<Dart>
        requires { v.0 < self.now.graph.vertices }
        ensures first { MatchOption result (length (order self.now.graph v.0) ≡ 0) (λ d. slice_get (order self.now.graph v.0) 0 ≡ Some d.0) }
        ensures none { IsNone result ↔ ((e : ℕ) → IsEdgeAt self.now.graph.ends v.0 e → ⊥) }
        ensures within { IfSome result (λ d. (d.0 < darts self.now.graph) × (at self.now.graph d.0 ≡ v.0)) }
    {
        if self.degree[v.0 as usize] == 0 {
            return None;
        }
        Some(Dart(self.links.first(v.0)))
    }

    /// The clockwise next end at the vertex of the end.
    pub fn next_cw(&self, d: Dart) -> Dart
        requires { d.0 < darts self.now.graph }
        ensures value { result.0 ≡ next self.now.graph d.0 }
        ensures within { result.0 < darts self.now.graph }
        ensures vertex { at self.now.graph result.0 ≡ at self.now.graph d.0 }
    {
        Dart(self.links.cw(d.0))
    }

    /// The counter-clockwise next end at the vertex of the end: the one whose clockwise next is this end.
    pub fn next_ccw(&self, d: Dart) -> Dart
        requires { d.0 < darts self.now.graph }
        ensures value { next self.now.graph result.0 ≡ d.0 }
        ensures within { result.0 < darts self.now.graph }
        ensures vertex { at self.now.graph result.0 ≡ at self.now.graph d.0 }
    {
        Dart(self.links.ccw(d.0))
    }

    /// How many ends there are at the vertex.
    pub fn degree(&self, v: VertexId) -> u32
        requires { v.0 < self.now.graph.vertices }
        ensures { result ≡ length (order self.now.graph v.0) }
    {
        self.degree[v.0 as usize]
    }
}

#[cfg(test)]
impl Map {
    /// The ends by the keys of the links alone, from each record on.
    pub fn rounds(&self, alloc: Global) -> Result<Vec<Vec<u32>>, AllocError> {
        self.links.rounds(alloc)
    }
}
