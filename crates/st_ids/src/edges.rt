//! A list of edges that holds a few edges in itself.
ghost use Rattle.std.specs.Prelude.{◌≡◌, ◌↔◌, ◌<◌, [], ◌∷◌, ◌++◌, length, IfOk, IsTrue, OnOk, OnErr};
ghost use Rattle.std.specs.Bool.{OnTrue, OnFalse};
ghost use Rattle.st_ids.specs.EdgeNumbers.{numbers};
ghost use Rattle.st_ids.specs.Held.{held_edges};

use crate::{EdgeId, NoMemory};
use std::alloc::Global;
use std::marker::Model;

/// A list of at most six edges, which takes no block. A contract sees the list of their numbers.
#[derive(Debug, Drop)]
struct FewEdges {
    len: u32,
    edges: [EdgeId; 6],
}

impl Model for FewEdges {
    ghost use Rattle.std.specs.Prelude.{List, ℕ, ◌≤◌, take};
    ghost use Rattle.st_ids.specs.EdgeNumbers.{numbers};

    ghost Value = { List ℕ };

    ghost view = { λ a. numbers (take a.len a.edges) };

    ghost invariant = { λ a. a.len ≤ 6 };
}

impl FewEdges {
    fn new() -> FewEdges
        ensures { result ≡ [] }
    {
        FewEdges {
            len: 0,
            edges: [EdgeId(0); 6],
        }
    }

    /// Appends an edge where there is room for it, and answers whether there is.
    fn push(&mut self, e: EdgeId) -> bool
        ensures room { IsTrue result ↔ (length self.old < 6) }
        ensures yes { OnTrue result (self.new ≡ self.old ++ e.0 ∷ []) }
        ensures no { OnFalse result (self.new ≡ self.old) }
    {
        if self.len == 6 {
            return false;
        }
        self.edges[self.len as usize] = e;
        self.len += 1;
        true
    }

    fn items(&self) -> &[EdgeId]
        ensures { numbers result.now ≡ self.now }
    {
        &self.edges[..self.len as usize]
    }
}

/// The edges of a list.
#[derive(Debug, Drop)]
enum Edges {
    Few(FewEdges),
    Many(Vec<EdgeId>),
}

/// A list of edges. A contract sees the list of their numbers. One of at most six edges takes no block.
#[derive(Debug, Drop)]
pub struct EdgeList {
    held: Edges,
    alloc: Global,
}

impl Model for EdgeList {
    ghost use Rattle.std.specs.Prelude.{List, ℕ};
    ghost use Rattle.st_ids.specs.Held.{held_edges};

    ghost Value = { List ℕ };

    ghost view = { λ a. held_edges a.held };
}

/// The edges and one more, in a block with room for as many again.
fn extended(alloc: Global, edges: &[EdgeId], e: EdgeId) -> Result<Edges, NoMemory>
    ensures { IfOk result (λ held. held_edges held ≡ numbers edges.now ++ e.0 ∷ []) }
{
    let mut list = Vec::with_capacity(alloc, 12)?;
    list.extend_from_slice(edges)?;
    list.push(e)?;
    Ok(Edges::Many(list))
}

impl EdgeList {
    /// The empty list.
    #[inline(always)]
    pub fn new(alloc: Global) -> EdgeList
        ensures { result ≡ [] }
    {
        EdgeList {
            held: Edges::Few(FewEdges::new()),
            alloc,
        }
    }

    /// Appends an edge. Errors: `NoMemory`; the list stays as it is.
    pub fn push(&mut self, e: EdgeId) -> Result<(), NoMemory>
        ensures ok { OnOk result (self.new ≡ self.old ++ e.0 ∷ []) }
        ensures err { OnErr result (self.new ≡ self.old) }
    {
        let alloc = self.alloc;
        match &mut self.held {
            Edges::Few(few) => {
                if few.push(e) {
                    return Ok(());
                }
                let many = extended(alloc, few.items(), e)?;
                self.held = many;
                Ok(())
            }
            Edges::Many(list) => {
                list.push(e)?;
                Ok(())
            }
        }
    }

    /// All edges.
    #[inline(always)]
    pub fn items(&self) -> &[EdgeId]
        ensures { numbers result.now ≡ self.now }
    {
        match &self.held {
            Edges::Few(few) => few.items(),
            Edges::Many(list) => list.as_slice(),
        }
    }
}
