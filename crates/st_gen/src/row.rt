//! A row of vertices in which a few places are replaced at a time.
//!
//! The row is held in chunks. A place is found by going over the lengths of the chunks, from the one that was met last, so
//! that places near one another cost no way. A change moves what stands behind it in one chunk.
ghost use Rattle.std.specs.List.{concat};
ghost use Rattle.std.specs.Prelude.{◌≡◌, ◌<◌, ◌≤◌, ◌+◌, ◌-◌, ◌^◌, [], ◌∷◌, ◌++◌, length, take, drop, slice_index_or, OnOk, IfOk};
ghost use Rattle.st_gen.specs.Chunks.{IsSpot, Holds};

use crate::chunk::Chunk;
use st_ids::NoMemory;
use std::alloc::Global;
use std::marker::Model;

/// How many vertices a chunk has at most between two calls.
const MOST: usize = 1024;

/// A chunk, and how many vertices stand before it.
#[derive(Clone, Copy)]
struct Spot {
    chunk: usize,
    before: usize,
}

/// A row of vertices. A contract sees the list of them.
#[derive(Drop)]
pub struct Row {
    alloc: Global,
    chunks: Vec<Chunk>,
    len: usize,
    /// The chunk that was met last, from which the next place is sought.
    last: Spot,
}

impl Model for Row {
    ghost use Rattle.std.specs.Prelude.{List, ℕ};
    ghost use Rattle.std.specs.List.{concat};
    ghost use Rattle.st_gen.specs.Chunks.{IsChunked};

    ghost Value = { List ℕ };

    ghost view = { λ a. concat a.chunks.items };

    ghost invariant = { λ a. IsChunked a.chunks.items a.len a.last.chunk a.last.before };
}

impl Row {
    /// The row of two vertices.
    pub fn of_two(alloc: Global, first: u32, second: u32) -> Result<Row, NoMemory>
        ensures { IfOk result (λ r. r ≡ first ∷ second ∷ []) }
    {
        let mut chunk = Chunk::with_room(alloc, MOST + 1)?;
        chunk.insert(0, first)?;
        chunk.insert(1, second)?;
        let mut chunks = Vec::new(alloc);
        if chunks.push(chunk).is_err() {
            return Err(NoMemory);
        }
        Ok(Row {
            alloc,
            chunks,
            len: 2,
            last: Spot {
                chunk: 0,
                before: 0,
            },
        })
    }

    /// How many there are.
    pub fn len(&self) -> usize
        ensures value { result ≡ length self.now }
        ensures few { length self.now < 2 ^ 32 }
    {
        self.len
    }

    /// The vertex at a place.
    pub fn get(&mut self, place: usize) -> u32
        requires { place < length self.old }
        ensures value { result ≡ slice_index_or self.old place 0 }
        ensures kept { self.new ≡ self.old }
    {
        self.last = find(&self.chunks, self.last, place);
        self.chunks[self.last.chunk].get(place - self.last.before)
    }

    /// Takes the vertex at a place out.
    pub fn remove(&mut self, place: usize)
        requires { place < length self.old }
        ensures { self.new ≡ take place self.old ++ drop (place + 1) self.old }
    {
        let spot = find(&self.chunks, self.last, place);
        self.chunks[spot.chunk].remove(place - spot.before);
        self.last = spot;
        self.len -= 1;
    }

    /// Puts a vertex before the one at a place. Errors: `NoMemory`; the row is of no more use.
    pub fn insert(&mut self, place: usize, vertex: u32) -> Result<(), NoMemory>
        requires within { place < length self.old }
        requires room { length self.old + 1 < 2 ^ 32 }
        ensures { OnOk result (self.new ≡ take place self.old ++ vertex ∷ drop place self.old) }
    {
        self.put(place, vertex)?;
        self.cut_last()
    }

    /// As `insert`, where a chunk may grow too long.
    fn put(&mut self, place: usize, vertex: u32) -> Result<(), NoMemory>
        requires within { place < length self.old }
        requires room { length self.old + 1 < 2 ^ 32 }
        ensures { OnOk result (self.new ≡ take place self.old ++ vertex ∷ drop place self.old) }
    {
        let spot = find(&self.chunks, self.last, place);
        self.chunks[spot.chunk].insert(place - spot.before, vertex)?;
        self.last = spot;
        self.len += 1;
        Ok(())
    }

    /// Cuts the chunk that was met last in two, if it has grown too long.
    fn cut_last(&mut self) -> Result<(), NoMemory>
        ensures { self.new ≡ self.old }
    {
        let at = self.last.chunk;
        if self.chunks[at].len() <= MOST {
            return Ok(());
        }
        split(self.alloc, &mut self.chunks, at)
    }
}

/// The chunk with a place, sought from another chunk.
fn find(chunks: &[Chunk], from: Spot, place: usize) -> Spot
    requires spot { IsSpot chunks.now from.chunk from.before }
    requires within { place < length (concat chunks.now) }
    ensures { Holds chunks.now result.chunk result.before place }
{
    go_on(chunks, go_back(chunks, from, place), place)
}

/// From a chunk down to one that doesn't begin behind a place.
fn go_back(chunks: &[Chunk], from: Spot, place: usize) -> Spot
    requires { IsSpot chunks.now from.chunk from.before }
    ensures spot { IsSpot chunks.now result.chunk result.before }
    ensures low { result.before ≤ place }
{
    let mut chunk = from.chunk;
    let mut before = from.before;
    while place < before {
        chunk -= 1;
        before -= chunks[chunk].len();
    }
    Spot { chunk, before }
}

/// From a chunk that doesn't begin behind a place up to the one that has it.
fn go_on(chunks: &[Chunk], from: Spot, place: usize) -> Spot
    requires spot { IsSpot chunks.now from.chunk from.before }
    requires low { from.before ≤ place }
    requires within { place < length (concat chunks.now) }
    ensures { Holds chunks.now result.chunk result.before place }
{
    let mut chunk = from.chunk;
    let mut before = from.before;
    while place - before >= chunks[chunk].len() {
        before += chunks[chunk].len();
        chunk += 1;
    }
    Spot { chunk, before }
}

/// Cuts a chunk in two. Errors: `NoMemory`; the chunks stay.
fn split(alloc: Global, chunks: &mut Vec<Chunk>, at: usize) -> Result<(), NoMemory>
    requires { at < length chunks.old.items }
    ensures joined { concat chunks.new.items ≡ concat chunks.old.items }
    ensures front { take at chunks.new.items ≡ take at chunks.old.items }
    ensures more { at < length chunks.new.items }
{
    let half = chunks[at].len() / 2;
    let mut rest = Chunk::with_room(alloc, MOST + 1)?;
    rest.append_rest(&chunks[at], half)?;
    match chunks.insert(at + 1, rest) {
        Ok(()) => {
            chunks[at].truncate(half);
            Ok(())
        }
        Err(_) => Err(NoMemory),
    }
}
