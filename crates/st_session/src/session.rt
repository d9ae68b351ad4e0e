//! A session: the present state, which edits change in place, and which questions are answered of.
ghost use Rattle.std.specs.Prelude.{◌≡◌, ◌≢◌, ◌<◌, ◌≤◌, ◌^◌, ℕ, suc, length, IfOk, IfErr, OnOk, OnErr};
ghost use Rattle.st_map.specs.Embedded.{at, darts, edges};
ghost use Rattle.st_session.specs.Edits.{AreInsertEnds, AreInner, AreInsertNamed, ClosesCycle, InsertsEdgeTo, IsInsertFault, IsRemoveFault, IsSplitFault, IsSplitNamed, RemovesEdgeTo, SplitsEdgeTo, insert_state, remove_state, split_state, with_state};
ghost use Rattle.st_session.specs.Editing.{CornersMeet, IsOuterCorner, OthersIn, OthersOut};
ghost use Rattle.st_session.specs.Replies.{AreReplyNumbers, IsAskFault, IsReply};
ghost use Rattle.st_session.specs.States.{HasEachOnce, IsNameAt, IsState, LacksName};

use crate::corners::{end_of, has_other_in, has_other_out, is_corner_of, next_outer};
use crate::faults::{AskFault, EditFault};
use crate::insertion::InsertNames;
use crate::laws;
use crate::names::NameIndex;
use crate::numbers::{labels_or, reply_of};
use crate::reply::Reply;
use crate::room::{add_two, make_room};
use st_ids::{Dart, EdgeId, Names, NoMemory, VertexId};
use st_map::Map;
use st_order::Labels;
use st_test::{Poles, StGraph};
use std::alloc::Global;
use std::marker::Model;

/// A planar st-graph with names that edits change in place. A contract sees the record `SessionValue`: the state
/// that the session stands for, and the limits that it was given.
///
/// Memory: the map, the names, and the numbers of the vertices from a question to the next edit.
#[derive(Drop)]
pub struct Session {
    alloc: Global,
    map: Map,
    vertex_names: NameIndex,
    edge_names: NameIndex,
    poles: Poles,
    outer: Dart,
    max_vertices: u32,
    max_edges: u32,
    labels: Option<Labels>,
}

/// The vertices and edges that an insert names.
#[derive(Clone, Copy)]
struct Named {
    tail: VertexId,
    tail_after: EdgeId,
    head: VertexId,
    head_after: EdgeId,
}

impl Model for Session {
    ghost use Rattle.st_session.specs.Kept.{IsKeptSession, session_value};
    ghost use Rattle.st_session.specs.States.{SessionValue};

    ghost Value = { SessionValue };

    ghost view = { λ a. session_value a.map.graph a.vertex_names a.edge_names a.outer.0 a.max_vertices a.max_edges };

    ghost invariant = { λ a. IsKeptSession (session_value a.map.graph a.vertex_names a.edge_names a.outer.0 a.max_vertices a.max_edges) a.poles.source.0 a.poles.sink.0 a.labels };
}

impl Session {
    /// The session of a graph with its names. Its outer face is that of the graph's outer end.
    ///
    /// Errors: `NoMemory`. The graph is given up then.
    /// Cost: O(V + E) on average. Not proved.
    pub fn new(
        alloc: Global,
        graph: StGraph,
        names: &Names,
        max_vertices: u32,
        max_edges: u32,
    ) -> Result<Session, NoMemory>
        requires vertex_names { length names.now.vertex ≡ graph.map.graph.vertices }
        requires edge_names { length names.now.edge ≡ edges graph.map.graph }
        requires vertices_differ { HasEachOnce names.now.vertex }
        requires edges_differ { HasEachOnce names.now.edge }
        requires few_vertices { max_vertices < 2 ^ 29 }
        requires few_edges { max_edges < 2 ^ 29 }
        requires vertices { graph.map.graph.vertices ≤ max_vertices }
        requires edges { edges graph.map.graph ≤ max_edges }
        ensures value { IfOk result (λ s. s ≡ record {
          state = record { graph = graph.map.graph; vertex_names = names.now.vertex; edge_names = names.now.edge; outer = graph.outer };
          max_vertices = max_vertices;
          max_edges = max_edges;
        }) }
        ensures state { IfOk result (λ s. IsState s.state) }
    {
        let poles = Poles {
            source: graph.source(),
            sink: graph.sink(),
        };
        let outer = graph.outer_end();
        st_test::laws::planar_st(&graph);
        let vertex_names = NameIndex::of(alloc, names.vertex.items())?;
        let edge_names = NameIndex::of(alloc, names.edge.items())?;
        Ok(Session {
            alloc,
            map: graph.into_map(),
            vertex_names,
            edge_names,
            poles,
            outer,
            max_vertices,
            max_edges,
            labels: None,
        })
    }

    /// Splits the edge with the first name by a new vertex with the second: the new edge, with the third, leads
    /// from there to the edge's old head.
    ///
    /// Errors: `UnknownEdge`, `UsedVertex`, `UsedEdge`, `TooManyVertices`, `TooManyEdges`, the first of them that
    /// holds; `NoMemory`.
    /// Cost: O(1) on average. Not proved.
    pub fn split(&mut self, edge: i64, vertex: i64, new_edge: i64) -> Result<(), EditFault>
        ensures split { OnOk result (SplitsEdgeTo self.old edge vertex new_edge self.new) }
        ensures fault { IfErr result (IsSplitFault self.old edge vertex new_edge) }
        ensures kept { OnErr result (self.new ≡ self.old) }
    {
        let e = self.edge_to_split(edge, vertex, new_edge)?;
        self.carry_split(e, vertex, new_edge)?;
        Ok(())
    }

    /// The edge to be split, or the first fault.
    fn edge_to_split(&self, edge: i64, vertex: i64, new_edge: i64) -> Result<EdgeId, EditFault>
        ensures there { IfOk result (λ e. e.0 < edges self.now.state.graph) }
        ensures named { IfOk result (λ e. IsSplitNamed self.now.state edge vertex new_edge e.0) }
        ensures vertices { OnOk result (suc self.now.state.graph.vertices ≤ self.now.max_vertices) }
        ensures edges { OnOk result (suc (edges self.now.state.graph) ≤ self.now.max_edges) }
        ensures fault { IfErr result (IsSplitFault self.now edge vertex new_edge) }
    {
        let Some(e) = self.edge_names.find(edge) else {
            return Err(EditFault::UnknownEdge { name: edge });
        };
        if let Some(_) = self.vertex_names.find(vertex) {
            return Err(EditFault::UsedVertex { name: vertex });
        }
        if let Some(_) = self.edge_names.find(new_edge) {
            return Err(EditFault::UsedEdge { name: new_edge });
        }
        let n = self.map.vertices() + 1;
        if n > self.max_vertices {
            return Err(EditFault::TooManyVertices { n });
        }
        let m = self.map.edges() + 1;
        if m > self.max_edges {
            return Err(EditFault::TooManyEdges { m });
        }
        Ok(EdgeId(e))
    }

    /// Splits an edge.
    fn carry_split(&mut self, e: EdgeId, vertex: i64, new_edge: i64) -> Result<(), NoMemory>
        requires there { e.0 < edges self.old.state.graph }
        requires new_vertex { LacksName self.old.state.vertex_names vertex }
        requires new_edge { LacksName self.old.state.edge_names new_edge }
        requires vertices { suc self.old.state.graph.vertices ≤ self.old.max_vertices }
        requires edges { suc (edges self.old.state.graph) ≤ self.old.max_edges }
        ensures split { OnOk result (self.new ≡ with_state self.old (split_state self.old.state e.0 vertex new_edge)) }
        ensures kept { OnErr result (self.new ≡ self.old) }
    {
        st_reduce::laws::split();
        make_room(&mut self.map)?;
        add_two(
            &mut self.vertex_names,
            vertex,
            &mut self.edge_names,
            new_edge,
        )?;
        let _ = self.map.split_edge(e);
        self.labels = None;
        Ok(())
    }

    /// Whether the first vertex reaches the second, and both numbers of each, by their names.
    ///
    /// Errors: `UnknownVertex`, with the first name that no vertex has; `NoMemory`.
    /// Cost: O(1) on average, and O(V + E) where the numbers of the vertices aren't known since the last edit. Not
    /// proved.
    pub fn ask(&mut self, from: i64, to: i64) -> Result<Reply, AskFault>
        ensures reply { IfOk result (IsReply self.old.state from to) }
        ensures fault { IfErr result (IsAskFault self.old.state from to) }
        ensures kept { self.new ≡ self.old }
    {
        let Some(u) = self.vertex_names.find(from) else {
            return Err(AskFault::UnknownVertex { name: from });
        };
        let Some(v) = self.vertex_names.find(to) else {
            return Err(AskFault::UnknownVertex { name: to });
        };
        Ok(self.numbers(VertexId(u), VertexId(v))?)
    }

    /// Whether the first vertex reaches the second, and both numbers of each. The numbers of all vertices are kept.
    fn numbers(&mut self, u: VertexId, v: VertexId) -> Result<Reply, NoMemory>
        requires u_there { u.0 < self.old.state.graph.vertices }
        requires v_there { v.0 < self.old.state.graph.vertices }
        ensures numbers { IfOk result (AreReplyNumbers self.old.state.graph self.old.state.outer u.0 v.0) }
        ensures kept { self.new ≡ self.old }
    {
        let kept = self.labels.take();
        let (alloc, poles, outer) = (self.alloc, self.poles, self.outer);
        let labels = labels_or(kept, alloc, &self.map, poles, outer)?;
        let reply = reply_of(&labels, &self.map, poles, outer, u, v);
        self.labels = Some(labels);
        Ok(reply)
    }

    /// Puts in an edge with a new name from one vertex to another. Its ends stand clockwise next after that of the
    /// edge `tail_after` at the tail and that of the edge `head_after` at the head.
    ///
    /// Errors: `UsedEdge`, `UnknownVertex`, `UnknownEdge`, `Loop`, `NotAt`, `TooManyEdges`, `OuterCorner`, `Cycle`,
    /// `OtherFace`, the first of them that holds, of tail and head first the tail; `NoMemory`.
    /// Cost: O(length of both corners' faces), and O(V + E) where the numbers of the vertices aren't known since
    /// the last edit. Not proved.
    pub fn insert(
        &mut self,
        edge: i64,
        tail: i64,
        tail_after: i64,
        head: i64,
        head_after: i64,
    ) -> Result<(), EditFault>
        ensures insert { OnOk result (InsertsEdgeTo self.old (record { edge = edge; tail = tail; tail_after = tail_after; head = head; head_after = head_after }) self.new) }
        ensures fault { IfErr result (IsInsertFault self.old (record { edge = edge; tail = tail; tail_after = tail_after; head = head; head_after = head_after })) }
        ensures kept { OnErr result (self.new ≡ self.old) }
    {
        let names = InsertNames {
            edge,
            tail,
            tail_after,
            head,
            head_after,
        };
        self.insert_named(&names)
    }

    /// Takes out the edge with a name. The last edge has its number then.
    ///
    /// Errors: `UnknownEdge`, `Source`, `Sink`, the first of them that holds; nothing else.
    /// Cost: O(degree of its two vertices) on average, no memory. Not proved.
    pub fn remove(&mut self, edge: i64) -> Result<(), EditFault>
        ensures remove { OnOk result (RemovesEdgeTo self.old edge self.new) }
        ensures fault { IfErr result (IsRemoveFault self.old edge) }
        ensures kept { OnErr result (self.new ≡ self.old) }
    {
        let e = self.edge_to_remove(edge)?;
        self.carry_remove(e);
        Ok(())
    }

    /// The edge to be taken out, or the first fault.
    fn edge_to_remove(&self, edge: i64) -> Result<EdgeId, EditFault>
        ensures named { IfOk result (λ e. IsNameAt self.now.state.edge_names e.0 edge) }
        ensures there { IfOk result (λ e. e.0 < edges self.now.state.graph) }
        ensures others_in { IfOk result (λ e. OthersIn self.now.state.graph e.0) }
        ensures others_out { IfOk result (λ e. OthersOut self.now.state.graph e.0) }
        ensures fault { IfErr result (IsRemoveFault self.now edge) }
    {
        let Some(e) = self.edge_names.find(edge) else {
            return Err(EditFault::UnknownEdge { name: edge });
        };
        if !has_other_in(&self.map, EdgeId(e)) {
            let vertex = self.vertex_names.name(self.map.head(EdgeId(e)).0);
            return Err(EditFault::Source { vertex });
        }
        if !has_other_out(&self.map, EdgeId(e)) {
            let vertex = self.vertex_names.name(self.map.tail(EdgeId(e)).0);
            return Err(EditFault::Sink { vertex });
        }
        Ok(EdgeId(e))
    }

    /// Takes an edge out.
    fn carry_remove(&mut self, e: EdgeId)
        requires there { e.0 < edges self.old.state.graph }
        requires others_in { OthersIn self.old.state.graph e.0 }
        requires others_out { OthersOut self.old.state.graph e.0 }
        ensures { self.new ≡ with_state self.old (remove_state self.old.state e.0) }
    {
        laws::removal();
        let outer = self.outer;
        self.outer = next_outer(&self.map, outer, e);
        let _ = self.map.remove_edge(e);
        self.edge_names.take_out(e.0);
        self.labels = None;
    }

    /// Puts in an edge.
    fn insert_named(&mut self, names: &InsertNames) -> Result<(), EditFault>
        ensures insert { OnOk result (InsertsEdgeTo self.old names.now self.new) }
        ensures fault { IfErr result (IsInsertFault self.old names.now) }
        ensures kept { OnErr result (self.new ≡ self.old) }
    {
        let (p, q) = self.inner_ends(names)?;
        self.check_open(names, p, q)?;
        self.carry_insert(names, p, q)?;
        Ok(())
    }

    /// The ends after which those of the new edge are to stand, whose corners are not of the outer face; or the
    /// first fault.
    fn inner_ends(&self, names: &InsertNames) -> Result<(Dart, Dart), EditFault>
        ensures inner { IfOk result (λ r. AreInner self.now names.now r.0.0 r.1.0) }
        ensures fault { IfErr result (IsInsertFault self.now names.now) }
    {
        let named = self.named(names)?;
        let (p, q) = self.ends(names, named)?;
        self.check_inner(names, p, q)?;
        Ok((p, q))
    }

    /// The vertices and edges that an insert names, or the first name that is used or unknown.
    fn named(&self, names: &InsertNames) -> Result<Named, EditFault>
        ensures named { IfOk result (λ n. AreInsertNamed self.now.state names.now n.tail.0 n.tail_after.0 n.head.0 n.head_after.0) }
        ensures fault { IfErr result (IsInsertFault self.now names.now) }
    {
        if let Some(_) = self.edge_names.find(names.edge) {
            return Err(EditFault::UsedEdge { name: names.edge });
        }
        let Some(tail) = self.vertex_names.find(names.tail) else {
            return Err(EditFault::UnknownVertex { name: names.tail });
        };
        let Some(head) = self.vertex_names.find(names.head) else {
            return Err(EditFault::UnknownVertex { name: names.head });
        };
        let Some(tail_after) = self.edge_names.find(names.tail_after) else {
            return Err(EditFault::UnknownEdge {
                name: names.tail_after,
            });
        };
        let Some(head_after) = self.edge_names.find(names.head_after) else {
            return Err(EditFault::UnknownEdge {
                name: names.head_after,
            });
        };
        Ok(Named {
            tail: VertexId(tail),
            tail_after: EdgeId(tail_after),
            head: VertexId(head),
            head_after: EdgeId(head_after),
        })
    }

    /// The ends after which those of the new edge are to stand, or the first fault.
    fn ends(&self, names: &InsertNames, named: Named) -> Result<(Dart, Dart), EditFault>
        requires { AreInsertNamed self.now.state names.now named.tail.0 named.tail_after.0 named.head.0 named.head_after.0 }
        ensures ends { IfOk result (λ r. AreInsertEnds self.now names.now r.0.0 r.1.0) }
        ensures fault { IfErr result (IsInsertFault self.now names.now) }
    {
        if named.tail.0 == named.head.0 {
            return Err(EditFault::Loop);
        }
        let Some(p) = end_of(&self.map, named.tail, named.tail_after) else {
            return Err(EditFault::NotAt {
                edge: names.tail_after,
                vertex: names.tail,
            });
        };
        let Some(q) = end_of(&self.map, named.head, named.head_after) else {
            return Err(EditFault::NotAt {
                edge: names.head_after,
                vertex: names.head,
            });
        };
        let m = self.map.edges() + 1;
        if m > self.max_edges {
            return Err(EditFault::TooManyEdges { m });
        }
        Ok((p, q))
    }

    /// That the corners at both ends are not of the outer face.
    fn check_inner(&self, names: &InsertNames, p: Dart, q: Dart) -> Result<(), EditFault>
        requires { AreInsertEnds self.now names.now p.0 q.0 }
        ensures inner { OnOk result (AreInner self.now names.now p.0 q.0) }
        ensures fault { IfErr result (IsInsertFault self.now names.now) }
    {
        let outer = self.outer;
        if is_corner_of(&self.map, outer, p) {
            return Err(EditFault::OuterCorner);
        }
        if is_corner_of(&self.map, outer, q) {
            return Err(EditFault::OuterCorner);
        }
        Ok(())
    }

    /// That the new edge closes no cycle, and that both corners are of one face.
    fn check_open(&mut self, names: &InsertNames, p: Dart, q: Dart) -> Result<(), EditFault>
        requires { AreInner self.old names.now p.0 q.0 }
        ensures inner { OnOk result (AreInner self.new names.now p.0 q.0) }
        ensures open { OnOk result (ClosesCycle self.new.state p.0 q.0 → ⊥) }
        ensures one_face { OnOk result (CornersMeet self.new.state.graph p.0 q.0) }
        ensures fault { IfErr result (IsInsertFault self.old names.now) }
        ensures kept { self.new ≡ self.old }
    {
        let from = self.map.vertex_of(q);
        let to = self.map.vertex_of(p);
        let corner = self.map.next_cw(p);
        let one_face = is_corner_of(&self.map, corner, q);
        let reply = self.numbers(from, to)?;
        if reply.reaches {
            return Err(EditFault::Cycle {
                tail: names.tail,
                head: names.head,
            });
        }
        if !one_face {
            return Err(EditFault::OtherFace);
        }
        Ok(())
    }

    /// Puts in an edge between two ends.
    fn carry_insert(&mut self, names: &InsertNames, p: Dart, q: Dart) -> Result<(), NoMemory>
        requires inner { AreInner self.old names.now p.0 q.0 }
        requires open { ClosesCycle self.old.state p.0 q.0 → ⊥ }
        requires one_face { CornersMeet self.old.state.graph p.0 q.0 }
        ensures insert { OnOk result (InsertsEdgeTo self.old names.now self.new) }
        ensures kept { OnErr result (self.new ≡ self.old) }
    {
        laws::insertion();
        make_room(&mut self.map)?;
        self.edge_names.add(names.edge)?;
        let _ = self.map.insert_edge(p, q);
        self.labels = None;
        Ok(())
    }
}
