//! The ends of edges as linked records in a slab.
//!
//! Each record tells the number of its end, and names by their keys its twin and the clockwise and the counter-clockwise
//! next end at its vertex. So an edge is renumbered without a change of links.
ghost use Rattle.std.specs.Prelude.{◌≡◌, ◌≢◌, ◌+◌, ◌*◌, ◌<◌, ◌≤◌, ◌^◌, ◌++◌, ◌∷◌, [], ℕ, length, map, slice_index, suc, IfOk, OnOk, Some};
ghost use Rattle.slab.specs.Slab.{ContainsKey, HasRoomFor, Updates, get, slab_len};
ghost use Rattle.st_map.specs.Chains.{AreFirstKeysOf, AreListsChained, IsListChained, first_key, linked_to};
ghost use Rattle.st_map.specs.Links.{AreNamed, HasRoomForMore, InsertsEnds, NamesEnds, PutsEnd, RenumbersEnd, RoomGrows, SameLinks, SameRooms, SplitsEnds, TakesEnd, end_in, key_of, next_first};
ghost use Rattle.st_ids.specs.EdgeNumbers.{numbers};
ghost use Rattle.st_ids.specs.Graph.{AreWithin, tail_of, head_of};
ghost use Rattle.st_map.specs.Orders.{order_at};
ghost use Rattle.st_map.specs.Tables.{AreEdges, AreFirsts, AreLinksRemoved, AreLinksSplit, AreListsLinked, IsBack, IsLawful, first_left, put_entry, renumbered};

use crate::listing::{end_of, following};
use crate::orders::{edge_at, list_len};
use crate::room::make_room;
use slab::Slab;
use st_ids::{Dart, EdgeId, EdgeList, IdVec, NoMemory, VertexId};
use std::alloc::{AllocError, Global};
use std::marker::Model;

/// An end of an edge: its number, and the keys of its twin and of its neighbours.
#[derive(Clone, Copy)]
struct End {
    dart: u32,
    twin: usize,
    cw: usize,
    ccw: usize,
}

/// The ends of all edges, the keys of the two ends of each edge, and the key of the first end at each vertex.
#[derive(Drop)]
pub struct Links {
    ends: Slab<End>,
    keys: Vec<(usize, usize)>,
    first: Vec<Option<usize>>,
}

impl Model for Links {
    ghost use Rattle.std.specs.Prelude.{vec_capacity};
    ghost use Rattle.st_map.specs.Links.{AreLinks, LinkTables, links_of};

    ghost Value = { LinkTables };

    ghost view = { λ a. links_of a.ends a.keys.items a.first.items (vec_capacity a.keys) (vec_capacity a.first) };

    ghost invariant = { λ a. AreLinks a.ends a.keys.items a.first.items };
}

/// The key of an end.
#[tactic(auto, unfolding(st_ids::specs::Ends::is_out, st_ids::specs::Ends::edge_of))]
fn key_at(keys: &[(usize, usize)], d: u32) -> usize
    requires { d < 2 * length keys.now }
    ensures { result ≡ key_of keys.now d }
{
    let (tail, head) = keys[(d / 2) as usize];
    if d % 2 == 0 { tail } else { head }
}

/// Writes the record under a key.
fn set_end(ends: &mut Slab<End>, key: usize, end: End)
    requires { ContainsKey ends.old key }
    ensures updates { Updates ends.old ends.new key (Some end) }
    ensures len { slab_len ends.new ≡ slab_len ends.old }
    ensures capacity { ends.new.capacity ≡ ends.old.capacity }
{
    ends[key] = end;
}

/// Splits the edge e whose ends have the keys `tail` and `head`, and answers the keys of its new end and of the other end
/// of the new edge m.
fn split_ends(ends: &mut Slab<End>, e: u32, m: u32, tail: usize, head: usize) -> (usize, usize)
    requires small { (2 * e + 1 < 2 ^ 32) × (2 * m + 1 < 2 ^ 32) }
    requires tail { ContainsKey ends.old tail }
    requires head { ContainsKey ends.old head }
    requires apart { tail ≢ head }
    requires room { HasRoomFor ends.old 2 }
    ensures splits { SplitsEnds ends.old ends.new e m tail head result.0 result.1 }
    ensures capacity { ends.new.capacity ≡ ends.old.capacity }
{
    let own = ends.insert_reserved(End {
        dart: 2 * e + 1,
        twin: tail,
        cw: 0,
        ccw: 0,
    });
    let out = ends.insert_reserved(End {
        dart: 2 * m,
        twin: head,
        cw: own,
        ccw: own,
    });
    set_end(
        ends,
        own,
        End {
            dart: 2 * e + 1,
            twin: tail,
            cw: out,
            ccw: out,
        },
    );
    let (at_tail, at_head) = (ends[tail], ends[head]);
    set_end(
        ends,
        tail,
        End {
            twin: own,
            ..at_tail
        },
    );
    set_end(
        ends,
        head,
        End {
            dart: 2 * m + 1,
            twin: out,
            ..at_head
        },
    );
    (own, out)
}

/// Two more records for the ends of edge m.
fn add_ends(ends: &mut Slab<End>, m: u32) -> (usize, usize)
    requires small { 2 * m + 1 < 2 ^ 32 }
    requires room { HasRoomFor ends.old 2 }
    ensures names { NamesEnds ends.old ends.new m result.0 result.1 }
    ensures capacity { ends.new.capacity ≡ ends.old.capacity }
{
    let tail = ends.insert_reserved(lone_end(2 * m));
    let head = ends.insert_reserved(End {
        dart: 2 * m + 1,
        twin: tail,
        cw: 0,
        ccw: 0,
    });
    set_end(
        ends,
        tail,
        End {
            dart: 2 * m,
            twin: head,
            cw: 0,
            ccw: 0,
        },
    );
    (tail, head)
}

/// Puts the record `new` after that of `after` and before that of `next`.
fn put_end(ends: &mut Slab<End>, after: usize, next: usize, new: usize)
    requires after { ContainsKey ends.old after }
    requires next { ContainsKey ends.old next }
    requires new { ContainsKey ends.old new }
    requires apart { (after ≢ new) × (next ≢ new) }
    ensures puts { PutsEnd ends.old ends.new after next new }
    ensures capacity { ends.new.capacity ≡ ends.old.capacity }
{
    let end = ends[new];
    set_end(
        ends,
        new,
        End {
            cw: next,
            ccw: after,
            ..end
        },
    );
    let end = ends[after];
    set_end(ends, after, End { cw: new, ..end });
    let end = ends[next];
    set_end(ends, next, End { ccw: new, ..end });
}

/// Puts the ends of a new edge m after the records a and b, whose clockwise next are named, and answers their keys.
fn insert_ends(
    ends: &mut Slab<End>,
    m: u32,
    a: usize,
    a_next: usize,
    b: usize,
    b_next: usize,
) -> (usize, usize)
    requires small { 2 * m + 1 < 2 ^ 32 }
    requires room { HasRoomFor ends.old 2 }
    requires a { ContainsKey ends.old a × ContainsKey ends.old a_next }
    requires b { ContainsKey ends.old b × ContainsKey ends.old b_next }
    ensures inserts { InsertsEnds ends.old ends.new m a a_next b b_next result.0 result.1 }
    ensures capacity { ends.new.capacity ≡ ends.old.capacity }
{
    let (tail, head) = add_ends(ends, m);
    put_end(ends, a, a_next, tail);
    put_end(ends, b, b_next, head);
    (tail, head)
}

/// Gives the record under a key another number.
fn renumber(ends: &mut Slab<End>, key: usize, dart: u32)
    requires { ContainsKey ends.old key }
    ensures renumbers { RenumbersEnd ends.old ends.new key dart }
    ensures capacity { ends.new.capacity ≡ ends.old.capacity }
{
    let end = ends[key];
    set_end(ends, key, End { dart, ..end });
}

/// Takes the record under a key out, and joins those before and behind it.
fn take_end(ends: &mut Slab<End>, key: usize)
    requires end { ContainsKey ends.old key }
    requires before { ContainsKey ends.old (end_in ends.old key).ccw }
    requires behind { ContainsKey ends.old (end_in ends.old key).cw }
    ensures takes { TakesEnd ends.old ends.new key }
    ensures capacity { ends.new.capacity ≡ ends.old.capacity }
{
    let taken = ends[key];
    let end = ends[taken.ccw];
    set_end(
        ends,
        taken.ccw,
        End {
            cw: taken.cw,
            ..end
        },
    );
    let end = ends[taken.cw];
    set_end(
        ends,
        taken.cw,
        End {
            ccw: taken.ccw,
            ..end
        },
    );
    ends.remove(key);
}

/// The first key of a vertex once the record under `key` leaves.
fn next_first(ends: &Slab<End>, key: usize, first: Option<usize>) -> Option<usize>
    requires { ContainsKey ends.now key }
    ensures { result ≡ next_first ends.now key first }
{
    let at = first?;
    if at != key {
        return Some(at);
    }
    let next = ends[key].cw;
    if next == key { None } else { Some(next) }
}

/// Room for the ends of so many edges under new keys: a record for each end, which tells its number.
fn name_ends(alloc: Global, edges: u32) -> Result<(Slab<End>, Vec<(usize, usize)>), AllocError>
    requires few { edges < 2 ^ 30 }
    ensures named { IfOk result (λ r. AreNamed r.0 edges r.1.items) }
    ensures count { IfOk result (λ r. slab_len r.0 ≡ 2 * edges) }
{
    let mut ends = Slab::with_capacity(alloc, 2 * edges as usize)?;
    let mut keys = Vec::with_capacity(alloc, edges as usize)?;
    for e in 0..edges {
        let tail = ends.insert_reserved(lone_end(2 * e));
        let head = ends.insert_reserved(lone_end(2 * e + 1));
        keys.push((tail, head))?;
    }
    Ok((ends, keys))
}

/// The record of an end with no links yet.
fn lone_end(dart: u32) -> End
    ensures { result.dart ≡ dart }
{
    End {
        dart,
        twin: 0,
        cw: 0,
        ccw: 0,
    }
}

/// Gives an end its twin and these neighbours, and answers its key.
fn link_end(ends: &mut Slab<End>, keys: &[(usize, usize)], d: u32, cw: usize, ccw: usize) -> usize
    requires few { length keys.now < 2 ^ 30 }
    requires end { d < 2 * length keys.now }
    requires there { ContainsKey ends.old (key_of keys.now d) }
    ensures key { result ≡ key_of keys.now d }
    ensures updates { Updates ends.old ends.new (key_of keys.now d) (Some (linked_to keys.now d cw ccw)) }
    ensures len { slab_len ends.new ≡ slab_len ends.old }
{
    let key = key_at(keys, d);
    let twin = key_at(keys, Dart(d).twin().0);
    set_end(
        ends,
        key,
        End {
            dart: d,
            twin,
            cw,
            ccw,
        },
    );
    key
}

/// Gives the ends of a list their links, and answers the key of the first.
fn link_list(
    ends: &mut Slab<End>,
    keys: &[(usize, usize)],
    arcs: &[(u32, u32)],
    list: &[EdgeId],
    v: u32,
) -> Option<usize>
    requires few { length arcs.now < 2 ^ 30 }
    requires size { length keys.now ≡ length arcs.now }
    requires named { AreNamed ends.old (length keys.now) keys.now }
    requires edges { AreEdges arcs.now (numbers list.now) }
    requires lawful { IsLawful arcs.now v (numbers list.now) }
    ensures chained { IsListChained ends.old ends.new keys.now arcs.now v (numbers list.now) (length (numbers list.now)) }
    ensures first { result ≡ first_key keys.now arcs.now v (numbers list.now) }
{
    let len = list_len(list);
    if len == 0 {
        return None;
    }
    let first = end_of(arcs, edge_at(list, 0), v);
    let last = end_of(arcs, edge_at(list, len - 1), v);
    let mut at = first;
    let mut ccw = key_at(keys, last);
    for k in 0..len {
        let next = end_of(arcs, edge_at(list, following(k, len)), v);
        let cw = key_at(keys, next);
        ccw = link_end(ends, keys, at, cw, ccw);
        at = next;
    }
    Some(key_at(keys, first))
}

/// Gives each end its links, and answers the keys of the first ends.
fn link_lists(
    alloc: Global,
    ends: &mut Slab<End>,
    keys: &[(usize, usize)],
    arcs: &[(u32, u32)],
    orders: &IdVec<VertexId, EdgeList>,
    n: u32,
) -> Result<Vec<Option<usize>>, AllocError>
    requires few { length arcs.now < 2 ^ 30 }
    requires size { length keys.now ≡ length arcs.now }
    requires lists { length orders.now ≡ n }
    requires named { AreNamed ends.old (length keys.now) keys.now }
    requires edges { (v : ℕ) → v < n → AreEdges arcs.now (order_at orders.now v) }
    requires lawful { (v : ℕ) → v < n → IsLawful arcs.now v (order_at orders.now v) }
    ensures chained { IfOk result (λ _. AreListsChained ends.new keys.now arcs.now orders.now n) }
    ensures first { IfOk result (λ f. AreFirstKeysOf keys.now arcs.now orders.now n f.items) }
    ensures count { slab_len ends.new ≡ slab_len ends.old }
{
    let mut first = Vec::with_capacity(alloc, n as usize)?;
    for v in 0..n {
        let key = link_list(ends, keys, arcs, orders.get(VertexId(v)).items(), v);
        first.push(key)?;
    }
    Ok(first)
}

/// Makes room for so many more records.
fn make_room_for_ends(ends: &mut Slab<End>, more: usize) -> Result<(), NoMemory>
    ensures kept { ends.new ≡ record ends.old { capacity = ends.new.capacity } }
    ensures grows { ends.old.capacity ≤ ends.new.capacity }
    ensures room { OnOk result (HasRoomFor ends.new more) }
{
    match ends.reserve(more) {
        Ok(()) => Ok(()),
        Err(_) => Err(NoMemory),
    }
}

impl Links {
    /// The links of the edges' ends by the clockwise lists of edges at the vertices.
    ///
    /// Cost: O(V + E) time. Not proved.
    pub fn from_lists(
        alloc: Global,
        n: u32,
        arcs: &[(u32, u32)],
        orders: &IdVec<VertexId, EdgeList>,
    ) -> Result<Links, AllocError>
        requires few { length arcs.now < 2 ^ 30 }
        requires within { AreWithin n arcs.now }
        requires no_loop { (e : ℕ) → e < length arcs.now → tail_of arcs.now e ≢ head_of arcs.now e }
        requires lists { length orders.now ≡ n }
        requires edges { (v : ℕ) → v < n → AreEdges arcs.now (order_at orders.now v) }
        requires lawful { (v : ℕ) → v < n → IsLawful arcs.now v (order_at orders.now v) }
        ensures cw { IfOk result (λ l. AreListsLinked arcs.now orders.now n l.cw) }
        ensures ccw { IfOk result (λ l. IsBack l.cw l.ccw) }
        ensures first { IfOk result (λ l. AreFirsts n arcs.now orders.now l.first) }
    {
        let (mut ends, keys) = name_ends(alloc, arcs.len() as u32)?;
        let first = link_lists(alloc, &mut ends, &keys, arcs, orders, n)?;
        Ok(Links { ends, keys, first })
    }

    /// Equal links, with the same keys.
    pub fn copied(&self) -> Result<Links, AllocError>
        ensures cw { IfOk result (λ l. l.cw ≡ self.now.cw) }
        ensures ccw { IfOk result (λ l. l.ccw ≡ self.now.ccw) }
        ensures first { IfOk result (λ l. l.first ≡ self.now.first) }
    {
        let alloc = *self.keys.allocator();
        Ok(Links {
            ends: self.ends.clone()?,
            keys: Vec::from_slice(alloc, &self.keys)?,
            first: Vec::from_slice(alloc, &self.first)?,
        })
    }

    /// Makes room for so many more edges and vertices.
    pub fn reserve(&mut self, more: usize) -> Result<(), NoMemory>
        requires { more < 2 ^ 30 }
        ensures kept { SameLinks self.old self.new }
        ensures grows { RoomGrows self.old self.new }
        ensures room { OnOk result (HasRoomForMore self.new more) }
    {
        make_room_for_ends(&mut self.ends, 2 * more)?;
        make_room(&mut self.keys, more)?;
        make_room(&mut self.first, more)?;
        Ok(())
    }

    /// Splits the edge e: its end at the head gives its place to the new edge's end there, and a new vertex has the new
    /// edge's other end and then e's.
    pub fn split(&mut self, e: u32)
        requires edge { 2 * e + 1 < length self.old.cw }
        requires few { length self.old.cw + 2 < 2 ^ 31 }
        requires room { HasRoomForMore self.old 1 }
        ensures cw { AreLinksSplit self.old.cw (2 * e + 1) self.new.cw }
        ensures ccw { AreLinksSplit self.old.ccw (2 * e + 1) self.new.ccw }
        ensures first { self.new.first ≡ map (renumbered (2 * e + 1) (suc (length self.old.cw))) self.old.first ++ length self.old.cw ∷ [] }
        ensures rooms { SameRooms self.old self.new }
    {
        let edge = self.keys.len() as u32;
        let (tail, head) = self.keys[e as usize];
        let (own, out) = split_ends(&mut self.ends, e, edge, tail, head);
        self.keys[e as usize] = (tail, own);
        self.keys.push_reserved((out, head));
        self.first.push_reserved(Some(out));
    }

    /// Puts a new edge in, whose ends are the clockwise next after the given ones.
    pub fn insert(&mut self, a: u32, b: u32)
        requires there { (a < length self.old.cw) × (b < length self.old.cw) }
        requires apart { a ≢ b }
        requires back_a { slice_index self.old.ccw (slice_index self.old.cw a) ≡ a }
        requires back_b { slice_index self.old.ccw (slice_index self.old.cw b) ≡ b }
        requires few { length self.old.cw + 2 < 2 ^ 31 }
        requires room { HasRoomForMore self.old 1 }
        ensures cw { self.new.cw ≡ put_entry (put_entry self.old.cw a) b }
        ensures ccw { self.new.ccw ≡ put_entry (put_entry self.old.ccw (slice_index self.old.cw a)) (slice_index self.old.cw b) }
        ensures first { self.new.first ≡ self.old.first }
        ensures rooms { SameRooms self.old self.new }
    {
        let edge = self.keys.len() as u32;
        let (a, b) = (key_at(&self.keys, a), key_at(&self.keys, b));
        let (a_next, b_next) = (self.ends[a].cw, self.ends[b].cw);
        let (tail, head) = insert_ends(&mut self.ends, edge, a, a_next, b, b_next);
        self.keys.push_reserved((tail, head));
    }

    /// Takes the edge e out, which leads from the vertex `tail` to `head`. The last edge takes its number.
    pub fn remove(&mut self, e: u32, tail: u32, head: u32)
        requires edge { 2 * e + 1 < length self.old.cw }
        requires vertices { (tail < length self.old.first) × (head < length self.old.first) × (tail ≢ head) }
        requires back { IsBack self.old.cw self.old.ccw }
        requires forth { IsBack self.old.ccw self.old.cw }
        requires apart { (slice_index self.old.cw (2 * e) ≢ 2 * e + 1) × (slice_index self.old.cw (2 * e + 1) ≢ 2 * e) }
        requires first_tail { (v : ℕ) → v < length self.old.first → slice_index self.old.first v ≡ 2 * e → v ≡ tail }
        requires first_head { (v : ℕ) → v < length self.old.first → slice_index self.old.first v ≡ 2 * e + 1 → v ≡ head }
        ensures cw { (m : ℕ) → length self.old.cw ≡ suc (suc (2 * m)) → AreLinksRemoved self.old.cw m e self.new.cw }
        ensures ccw { (m : ℕ) → length self.old.cw ≡ suc (suc (2 * m)) → AreLinksRemoved self.old.ccw m e self.new.ccw }
        ensures first { (m : ℕ) → length self.old.cw ≡ suc (suc (2 * m)) → self.new.first ≡ map (first_left self.old.cw m e) self.old.first }
        ensures rooms { SameRooms self.old self.new }
    {
        let (tail_key, head_key) = self.keys[e as usize];
        let (last_tail, last_head) = self.keys[self.keys.len() - 1];
        self.first[tail as usize] = next_first(&self.ends, tail_key, self.first[tail as usize]);
        self.first[head as usize] = next_first(&self.ends, head_key, self.first[head as usize]);
        renumber(&mut self.ends, last_tail, 2 * e);
        renumber(&mut self.ends, last_head, 2 * e + 1);
        take_end(&mut self.ends, tail_key);
        take_end(&mut self.ends, head_key);
        self.keys.swap_remove(e as usize);
    }

    /// The clockwise next of an end.
    pub fn cw(&self, d: u32) -> u32
        requires { d < length self.now.cw }
        ensures { result ≡ slice_index self.now.cw d }
    {
        let end = self.ends[key_at(&self.keys, d)];
        self.ends[end.cw].dart
    }

    /// The counter-clockwise next of an end.
    pub fn ccw(&self, d: u32) -> u32
        requires { d < length self.now.ccw }
        ensures { result ≡ slice_index self.now.ccw d }
    {
        let end = self.ends[key_at(&self.keys, d)];
        self.ends[end.ccw].dart
    }

    /// The first end at a vertex; `u32::MAX` where it has none.
    pub fn first(&self, v: u32) -> u32
        requires { v < length self.now.first }
        ensures { result ≡ slice_index self.now.first v }
    {
        match self.first[v as usize] {
            Some(key) => self.ends[key].dart,
            None => u32::MAX,
        }
    }
}

#[cfg(test)]
impl Links {
    /// From each record on, the ends that the clockwise keys lead to until they come back to it.
    pub fn rounds(&self, alloc: Global) -> Result<Vec<Vec<u32>>, AllocError> {
        let mut rounds = Vec::new(alloc);
        for (key, end) in self.ends.iter() {
            let mut round = Vec::new(alloc);
            round.push(end.dart)?;
            let mut at = end.cw;
            for _ in 0..self.ends.len() {
                if at == key {
                    break;
                }
                if let Some(next) = self.ends.get(at) {
                    round.push(next.dart)?;
                    at = next.cw;
                }
            }
            rounds.push(round)?;
        }
        Ok(rounds)
    }
}
