//! A depth-first search from two poles, with low points.
//!
//! It begins at the first pole as if an edge led from there to the second. The vertex whose ends are looked at now is
//! the end of the way from the first pole, and the table of the parents leads back along it, so no stack is needed.
//! After R. E. Tarjan, Depth-First Search and Linear Graph Algorithms (1972).
ghost use Rattle.std.specs.Prelude.{◌≡◌, ◌≢◌, ◌⊎◌, ◌+◌, ◌-◌, ◌<◌, ◌≤◌, ◌^◌, length, min, slice_index, slice_set, IfOk, OnOk, MatchBool, [], ◌∷◌, ◌++◌};
ghost use Rattle.st_map.specs.Embedded.{IsRotation, bare};
ghost use Rattle.st_bipolar.specs.SearchTables.{AreCursors, AreSearchDegrees, AreSearchFirsts, IsGoingBy, SamePoles, deg_of, nbr_of, unvisited, work};
ghost use Rattle.st_bipolar.specs.Cuts.{IsVisited};

use st_ids::{Dart, NoMemory, VertexId};
use st_map::Map;
use st_map::laws::rotation;
use std::alloc::{AllocError, Global};

/// How many ends each vertex has.
fn degrees(alloc: Global, map: &Map) -> Result<Vec<u32>, AllocError>
    ensures { IfOk result (λ v. AreSearchDegrees map.now.graph map.now.graph.vertices v.items) }
{
    let mut left = Vec::with_capacity(alloc, map.vertices() as usize)?;
    for v in 0..map.vertices() {
        left.push(map.degree(VertexId(v)))?;
    }
    Ok(left)
}

/// The first end of each vertex, and 0 for none.
fn first_ends(alloc: Global, map: &Map) -> Result<Vec<u32>, AllocError>
    ensures { IfOk result (λ v. AreSearchFirsts map.now.graph map.now.graph.vertices v.items) }
{
    let mut next = Vec::with_capacity(alloc, map.vertices() as usize)?;
    for v in 0..map.vertices() {
        let first = match map.at(VertexId(v)) {
            Some(d) => d.0,
            None => 0,
        };
        next.push(first)?;
    }
    Ok(next)
}

/// Lowers an entry to x, where it is greater.
fn lower(lows: &mut [u32], k: usize, x: u32)
    requires { k < length lows.old }
    ensures { lows.new ≡ slice_set lows.old k (min (slice_index lows.old k) x) }
{
    if x < lows[k] {
        lows[k] = x;
    }
}

/// The neighbour at the next end of the vertex v, which is one end further afterwards.
fn advance(map: &Map, left: &mut [u32], next: &mut [u32], v: u32) -> u32
    requires rotation { IsRotation map.now.graph }
    requires there { v < map.now.graph.vertices }
    requires some { 0 < slice_index left.old v }
    requires fits { slice_index left.old v ≤ deg_of map.now.graph v }
    requires cursors { AreCursors map.now.graph left.old next.old }
    ensures value { result ≡ nbr_of map.now.graph v (deg_of map.now.graph v - slice_index left.old v) }
    ensures within { result < map.now.graph.vertices }
    ensures left { left.new ≡ slice_set left.old v (slice_index left.old v - 1) }
    ensures cursors { AreCursors map.now.graph left.new next.new }
{
    left[v as usize] -= 1;
    let d = Dart(next[v as usize]);
    next[v as usize] = map.next_cw(d).0;
    map.vertex_of(d.twin()).0
}

/// The tables of a search.
#[derive(Drop)]
struct Tables {
    vertices: Vec<u32>,
    parents: Vec<u32>,
    lows: Vec<u32>,
    place: Vec<u32>,
    left: Vec<u32>,
    next: Vec<u32>,
}

/// Gives a vertex the next number, and answers the number.
fn enter(tables: &mut Tables, w: u32, parent: u32) -> Result<u32, AllocError>
    requires there { w < length tables.old.place.items }
    requires few { length tables.old.vertices.items < 2 ^ 32 }
    ensures number { IfOk result (λ k. k ≡ length tables.old.vertices.items) }
    ensures vertices { OnOk result (tables.new.vertices.items ≡ tables.old.vertices.items ++ w ∷ []) }
    ensures parents { OnOk result (tables.new.parents.items ≡ tables.old.parents.items ++ parent ∷ []) }
    ensures lows { OnOk result
        (tables.new.lows.items ≡ tables.old.lows.items ++ length tables.old.vertices.items ∷ []) }
    ensures place { OnOk result
        (tables.new.place.items ≡ slice_set tables.old.place.items w (length tables.old.vertices.items)) }
    ensures left { tables.new.left ≡ tables.old.left }
    ensures next { tables.new.next ≡ tables.old.next }
{
    let number = tables.vertices.len() as u32;
    tables.vertices.push(w)?;
    tables.parents.push(parent)?;
    tables.lows.push(number)?;
    tables.place[w as usize] = number;
    Ok(number)
}

/// Looks at the next end of the vertex at the top, or goes back to its parent where none is left. Answers the new top.
fn step(map: &Map, tables: &mut Tables, top: u32) -> Result<u32, AllocError>
    requires rotation { IsRotation map.now.graph }
    requires few { map.now.graph.vertices < unvisited }
    requires going { IsGoingBy map.now.graph tables.old top }
    requires more { (1 ≤ top) ⊎ (1 ≤ slice_index tables.old.left.items (slice_index tables.old.vertices.items top)) }
    ensures going { IfOk result (IsGoingBy map.now.graph tables.new) }
    ensures poles { OnOk result (SamePoles tables.old.vertices.items tables.new.vertices.items) }
    ensures less { IfOk result (λ k.
        work map.now.graph.vertices tables.new.left.items k < work map.now.graph.vertices tables.old.left.items top) }
{
    let v = tables.vertices[top as usize];
    if tables.left[v as usize] == 0 {
        let up = tables.parents[top as usize];
        let low = tables.lows[top as usize];
        lower(&mut tables.lows, up as usize, low);
        return Ok(up);
    }
    let w = advance(map, &mut tables.left, &mut tables.next, v);
    let number = tables.place[w as usize];
    if number < u32::MAX {
        lower(&mut tables.lows, top as usize, number);
        return Ok(top);
    }
    let new_top = enter(tables, w, top)?;
    Ok(new_top)
}

/// The tables before the first step: both poles are visited.
fn begin(alloc: Global, map: &Map, s: VertexId, t: VertexId) -> Result<Tables, AllocError>
    requires rotation { IsRotation map.now.graph }
    requires source { s.0 < map.now.graph.vertices }
    requires sink { t.0 < map.now.graph.vertices }
    requires poles { s.0 ≢ t.0 }
    ensures going { IfOk result (λ b. IsGoingBy map.now.graph b 1) }
    ensures source { IfOk result (λ b. slice_index b.vertices.items 0 ≡ s.0) }
    ensures sink { IfOk result (λ b. slice_index b.vertices.items 1 ≡ t.0) }
{
    let mut place = vec![in alloc; u32::MAX; map.vertices() as usize]?;
    place[s.0 as usize] = 0;
    place[t.0 as usize] = 1;
    let left = degrees(alloc, map)?;
    let next = first_ends(alloc, map)?;
    Ok(Tables {
        vertices: Vec::from_slice(alloc, &[s.0, t.0])?,
        parents: Vec::from_slice(alloc, &[0, 0])?,
        lows: Vec::from_slice(alloc, &[0, 1])?,
        place,
        left,
        next,
    })
}

/// Whether the search isn't over.
fn goes_on(tables: &Tables, top: u32) -> bool
    requires there { top < length tables.now.vertices.items }
    requires inside { slice_index tables.now.vertices.items top < length tables.now.left.items }
    ensures { MatchBool result
        ((1 ≤ top) ⊎ (1 ≤ slice_index tables.now.left.items (slice_index tables.now.vertices.items top)))
        ((top ≡ 0) × (slice_index tables.now.left.items (slice_index tables.now.vertices.items top) ≡ 0)) }
{
    top > 0 || tables.left[tables.vertices[top as usize] as usize] > 0
}

/// What a search delivers: the vertices in the order of their first visits, and for each place in this order the places
/// of the parent and of the low point.
#[derive(Drop)]
pub struct Visit {
    pub vertices: Vec<u32>,
    pub parents: Vec<u32>,
    pub lows: Vec<u32>,
}

/// Searches the map from two poles.
///
/// Cost: O(V + E) time, six tables of the vertices. Not proved.
pub fn search(alloc: Global, map: &Map, s: VertexId, t: VertexId) -> Result<Visit, AllocError>
    requires source { s.0 < map.now.graph.vertices }
    requires sink { t.0 < map.now.graph.vertices }
    requires poles { s.0 ≢ t.0 }
    ensures { IfOk result (λ v. IsVisited (bare map.now.graph) s.0 t.0 v.vertices.items v.parents.items v.lows.items) }
{
    rotation(map);
    let mut tables = begin(alloc, map, s, t)?;
    let mut top = 1;
    'steps: while goes_on(&tables, top) {
        top = step(map, &mut tables, top)?;
    }
    let Tables {
        vertices,
        parents,
        lows,
        ..
    } = tables;
    Ok(Visit {
        vertices,
        parents,
        lows,
    })
}
