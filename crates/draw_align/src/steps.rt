//! A table of the paths' edges: the path of each, and the next edge on it.
ghost use Rattle.std.specs.Prelude.{◌≡◌, ◌+◌, ◌<◌, ◌≤◌, ℕ, Some, None, length, slice_index, IfSome, IfOk};
ghost use Rattle.std.specs.List.{All};
ghost use Rattle.draw_align.specs.Faults.{AreThere, IsUnshared};
ghost use Rattle.draw_align.specs.Listed.{IsFirstShared, path_at};
ghost use Rattle.draw_align.specs.Steps.{AreNoted, AreSteps, PassesThrough, step_in_table};
ghost use Rattle.st_ids.specs.EdgeNumbers.{numbers};
ghost use Rattle.st_sides.specs.Sides.{SidesValue, edge_count};

use st_ids::{EdgeId, IdVec, PathList};
use st_sides::{Sides, laws};

/// The path of an edge, and the edge after it on that path.
#[derive(Clone, Copy, Debug)]
pub(crate) struct Step {
    pub(crate) path: u32,
    pub(crate) next: Option<EdgeId>,
}

/// The steps of the first paths, and how many paths these are.
#[derive(Drop)]
pub(crate) struct Noted {
    pub(crate) table: IdVec<EdgeId, Option<Step>>,
    pub(crate) count: u32,
}

/// A path that comes to a vertex, and the edge by which it goes on.
#[derive(Clone, Copy, Debug)]
pub(crate) struct Passage {
    pub(crate) path: u32,
    pub(crate) next: EdgeId,
}

/// The edges of path p.
pub(crate) fn path_in<'a>(sides: &Sides, paths: &'a PathList, p: u32) -> &'a [EdgeId]
    requires edges { AreThere sides.now paths.now }
    requires there { p < length paths.now }
    ensures value { numbers result.now ≡ path_at paths.now p }
    ensures within { All (λ e. e.0 < edge_count sides.now) result.now }
{
    paths.path(p)
}

/// What the table tells of the edge.
#[tactic(auto, unfolding(crate::specs::Steps::step_in_table))]
pub(crate) fn step_of(steps: &IdVec<EdgeId, Option<Step>>, e: EdgeId) -> Option<Step>
    requires { e.0 < length steps.now }
    ensures { result ≡ step_in_table steps.now e.0 }
{
    *steps.get(e)
}

/// The path before n that comes by the edge, and the edge by which it goes on, if it does.
pub(crate) fn passing(
    sides: &Sides,
    paths: &PathList,
    noted: &Noted,
    n: u32,
    e: EdgeId,
) -> Option<Passage>
    requires edges { AreThere sides.now paths.now }
    requires noted { AreNoted sides.now paths.now noted.now.count noted.now.table }
    requires within { n ≤ noted.now.count }
    requires there { e.0 < edge_count sides.now }
    ensures some { IfSome result (λ s. (s.path < n) × PassesThrough sides.now paths.now s.path e.0 s.next.0) }
    ensures there { IfSome result (λ s. s.next.0 < edge_count sides.now) }
    ensures none { result ≡ None → (q y : ℕ) → q < n → PassesThrough sides.now paths.now q e.0 y → ⊥ }
{
    laws::local(sides);
    let step = match step_of(&noted.table, e) {
        Some(step) => step,
        None => return None,
    };
    let next = match step.next {
        Some(next) => next,
        None => return None,
    };
    if step.path < n {
        let path = step.path;
        return Some(Passage { path, next });
    }
    None
}

/// The edge after the one at place k.
fn next_edge(path: &[EdgeId], k: usize) -> Option<EdgeId>
    requires { k < length path.now }
    ensures some { IfSome result (λ d. (k + 1 < length (numbers path.now)) × (slice_index (numbers path.now) (k + 1) ≡ d.0)) }
    ensures none { result ≡ None → length (numbers path.now) ≤ k + 1 }
{
    if k + 1 < path.len() {
        Some(path[k + 1])
    } else {
        None
    }
}

/// Notes the edges of path p.
pub(crate) fn note(sides: &Sides, steps: &mut IdVec<EdgeId, Option<Step>>, paths: &PathList, p: u32)
    requires edges { AreThere sides.now paths.now }
    requires there { p < length paths.now }
    requires steps { AreSteps sides.now paths.now p steps.old }
    ensures { AreSteps sides.now paths.now (p + 1) steps.new }
{
    let path = path_in(sides, paths, p);
    for k in 0..path.len() {
        let next = next_edge(path, k);
        steps.set(path[k], Some(Step { path: p, next }));
    }
}

/// The first edge along path p that is in an earlier path.
pub(crate) fn first_shared(
    sides: &Sides,
    steps: &IdVec<EdgeId, Option<Step>>,
    paths: &PathList,
    p: u32,
) -> Option<EdgeId>
    requires edges { AreThere sides.now paths.now }
    requires there { p < length paths.now }
    requires steps { AreSteps sides.now paths.now p steps.now }
    ensures some { IfSome result (λ e. IsFirstShared paths.now p e.0) }
    ensures none { result ≡ None → IsUnshared paths.now p }
{
    let path = path_in(sides, paths, p);
    for k in 0..path.len() {
        let found = step_of(steps, path[k]);
        if found.is_some() {
            return Some(path[k]);
        }
    }
    None
}
