//! Which edges are transitive, in one pass over the faces.
ghost use Rattle.std.specs.Prelude.{◌≡◌, ◌<◌, ◌≤◌, ℕ, length, IfOk};
ghost use Rattle.st_ids.specs.EdgeNumbers.{numbers};
ghost use Rattle.st_ids.specs.Lists.{In};
ghost use Rattle.st_map.specs.Counting.{bit};
ghost use Rattle.st_reduce.specs.Marks.{AreTransitive, marked, marked_below};

use st_ids::{EdgeId, FaceId, IdVec, NoMemory};
use st_sides::Sides;
use st_sides::laws::local;
use std::alloc::Global;

/// Marks the edge of a path that has one edge alone.
fn mark(marks: &mut IdVec<EdgeId, bool>, path: &[EdgeId])
    requires { (e : ℕ) → In e (numbers path.now) → e < length marks.old }
    ensures { marks.new ≡ marked marks.old (numbers path.now) }
{
    if path.len() == 1 {
        marks.set(path[0], true);
    }
}

/// Which edges are transitive: those that are alone on one side of an inner face.
pub fn mark_transitive(alloc: Global, sides: &Sides) -> Result<IdVec<EdgeId, bool>, NoMemory>
    ensures { IfOk result (λ m. AreTransitive sides.now m) }
{
    local(sides);
    let mut marks: IdVec<EdgeId, bool> = IdVec::with_len(alloc, sides.edges(), false)?;
    let last = sides.faces() - 1;
    for f in 1..last {
        mark(&mut marks, sides.left_path(FaceId(f)));
        mark(&mut marks, sides.right_path(FaceId(f)));
    }
    Ok(marks)
}

/// How many of the first n edges are marked.
pub fn count_marks(marks: &IdVec<EdgeId, bool>, n: u32) -> u32
    requires { n ≤ length marks.now }
    ensures value { result ≡ marked_below marks.now n }
    ensures few { result ≤ n }
{
    let mut count = 0;
    for e in 0..n {
        count += one_if(*marks.get(EdgeId(e)));
    }
    count
}

/// 1 for yes, 0 for no.
fn one_if(mark: bool) -> u32
    ensures value { result ≡ bit mark }
    ensures few { result ≤ 1 }
{
    if mark { 1 } else { 0 }
}
