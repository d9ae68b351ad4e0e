//! Lists of paths, held in one block.
ghost use Rattle.std.specs.Prelude.{◌≡◌, ◌<◌, ◌≤◌, ◌^◌, [], ◌∷◌, ◌++◌, length, slice_get, slice_index, slice_range, OnOk, OnErr, Some};
ghost use Rattle.st_ids.specs.EdgeNumbers.{numbers};

use crate::{EdgeId, EdgeList, NoMemory};
use std::alloc::Global;
use std::marker::Model;

/// A list of lists of edges. A contract sees the lists of their numbers.
///
/// All edges stand in one block, and the place where each path ends in another, so that a path takes no block.
#[derive(Debug, Drop)]
pub struct PathList {
    edges: Vec<EdgeId>,
    ends: Vec<u32>,
}

impl Model for PathList {
    ghost use Rattle.std.specs.Prelude.{List, ℕ, length, ◌<◌, ◌^◌};
    ghost use Rattle.st_ids.specs.EdgeNumbers.{numbers};
    ghost use Rattle.st_ids.specs.Pieces.{pieces, ArePieces};

    ghost Value = { List (List ℕ) };

    ghost view = { λ a. pieces 0 a.ends.items (numbers a.edges.items) };

    ghost invariant = { λ a. (length a.ends.items < 2 ^ 32) × (length a.edges.items < 2 ^ 32) × ArePieces 0 a.ends.items (length a.edges.items) };
}

/// Where path i begins, which is where the one before it ends, and where it ends.
fn bounds(ends: &[u32], i: usize) -> (u32, u32)
    requires { i < length ends.now }
    ensures from { result.0 ≡ slice_index (0 ∷ ends.now) i }
    ensures to { result.1 ≡ slice_index ends.now i }
{
    if i == 0 {
        return (0, ends[0]);
    }
    (ends[i - 1], ends[i])
}

/// The edges from one place on to before another.
fn part(edges: &[EdgeId], from: u32, to: u32) -> &[EdgeId]
    requires order { from ≤ to }
    requires within { to ≤ length edges.now }
    ensures { result.now ≡ slice_range edges.now from to }
{
    &edges[from as usize..to as usize]
}

impl PathList {
    /// The empty list.
    pub fn new(alloc: Global) -> PathList
        ensures { result ≡ [] }
    {
        PathList {
            edges: Vec::new(alloc),
            ends: Vec::new(alloc),
        }
    }

    /// Takes room for so many more paths, of so many edges in all. Errors: `NoMemory`.
    pub fn reserve(&mut self, paths: u32, edges: u32) -> Result<(), NoMemory>
        ensures { self.new ≡ self.old }
    {
        self.ends.reserve_exact(paths as usize)?;
        self.edges.reserve_exact(edges as usize)?;
        Ok(())
    }

    /// Appends a path. Errors: `NoMemory`; the path is dropped.
    pub fn push(&mut self, path: EdgeList) -> Result<(), NoMemory>
        requires { length self.old < 2 ^ 31 }
        ensures ok { OnOk result (self.new ≡ self.old ++ path ∷ []) }
        ensures err { OnErr result (self.new ≡ self.old) }
    {
        self.push_edges(path.items())
    }

    /// Appends the path of these edges. Errors: `NoMemory`, also where the paths would have 2^32 edges in all.
    ///
    /// Cost: O(1) on average for each edge.
    pub fn push_edges(&mut self, edges: &[EdgeId]) -> Result<(), NoMemory>
        requires { length self.old < 2 ^ 31 }
        ensures ok { OnOk result (self.new ≡ self.old ++ numbers edges.now ∷ []) }
        ensures err { OnErr result (self.new ≡ self.old) }
    {
        let end = self.edges.len() + edges.len();
        if end > u32::MAX as usize {
            return Err(NoMemory);
        }
        if self.ends.reserve(1).is_err() {
            return Err(NoMemory);
        }
        if self.edges.extend_from_slice(edges).is_err() {
            return Err(NoMemory);
        }
        self.ends.push_reserved(end as u32);
        Ok(())
    }

    /// The number of paths.
    pub fn len(&self) -> u32
        ensures { result ≡ length self.now }
    {
        self.ends.len() as u32
    }

    /// The edges of path i.
    pub fn path(&self, i: u32) -> &[EdgeId]
        requires { i < length self.now }
        ensures { slice_get self.now i ≡ Some (numbers result.now) }
    {
        let at = bounds(&self.ends, i as usize);
        part(&self.edges, at.0, at.1)
    }
}
