//! A few vertices of a row.
ghost use Rattle.std.specs.Prelude.{◌≡◌, ◌<◌, ◌≤◌, ◌+◌, [], ◌∷◌, ◌++◌, length, take, drop, slice_index_or, OnOk, OnErr, IfOk};

use st_ids::NoMemory;
use std::alloc::Global;
use std::marker::Model;

/// Some vertices that stand side by side. A contract sees the list of them.
#[derive(Drop)]
pub struct Chunk {
    vertices: Vec<u32>,
}

impl Model for Chunk {
    ghost use Rattle.std.specs.Prelude.{List, ℕ};

    ghost Value = { List ℕ };

    ghost view = { λ a. a.vertices.items };
}

impl Chunk {
    /// No vertices, with room for so many.
    pub fn with_room(alloc: Global, room: usize) -> Result<Chunk, NoMemory>
        ensures { IfOk result (λ c. c ≡ []) }
    {
        match Vec::with_capacity(alloc, room) {
            Ok(vertices) => Ok(Chunk { vertices }),
            Err(_) => Err(NoMemory),
        }
    }

    /// How many there are.
    pub fn len(&self) -> usize
        ensures { result ≡ length self.now }
    {
        self.vertices.len()
    }

    /// The vertex at a place.
    pub fn get(&self, place: usize) -> u32
        requires { place < length self.now }
        ensures { result ≡ slice_index_or self.now place 0 }
    {
        self.vertices[place]
    }

    /// Puts a vertex before a place.
    pub fn insert(&mut self, place: usize, vertex: u32) -> Result<(), NoMemory>
        requires { place ≤ length self.old }
        ensures ok { OnOk result (self.new ≡ take place self.old ++ vertex ∷ drop place self.old) }
        ensures err { OnErr result (self.new ≡ self.old) }
    {
        match self.vertices.insert(place, vertex) {
            Ok(()) => Ok(()),
            Err(_) => Err(NoMemory),
        }
    }

    /// Takes the vertex at a place out.
    pub fn remove(&mut self, place: usize)
        requires { place < length self.old }
        ensures { self.new ≡ take place self.old ++ drop (place + 1) self.old }
    {
        let _ = self.vertices.remove(place);
    }

    /// Appends what another chunk has from a place on.
    pub fn append_rest(&mut self, other: &Chunk, from: usize) -> Result<(), NoMemory>
        requires { from ≤ length other.now }
        ensures { OnOk result (self.new ≡ self.old ++ drop from other.now) }
    {
        match self.vertices.extend_from_slice(&other.vertices[from..]) {
            Ok(()) => Ok(()),
            Err(_) => Err(NoMemory),
        }
    }

    /// Keeps so many vertices from the beginning.
    pub fn truncate(&mut self, n: usize)
        ensures { self.new ≡ take n self.old }
    {
        self.vertices.truncate(n);
    }
}
