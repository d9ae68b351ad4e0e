//! Whether the edges of a path are a walk.
ghost use Rattle.std.specs.Prelude.{◌≡◌, ◌<◌, true, false, length};
ghost use Rattle.draw_align.specs.Faults.{AreThere};
ghost use Rattle.draw_align.specs.Listed.{IsPath, path_at};

use crate::steps::path_in;
use st_ids::PathList;
use st_sides::Sides;

/// Whether path p is a walk of at least one edge.
pub(crate) fn is_path(sides: &Sides, paths: &PathList, p: u32) -> bool
    requires edges { AreThere sides.now paths.now }
    requires there { p < length paths.now }
    ensures yes { result ≡ true → IsPath sides.now (path_at paths.now p) }
    ensures no { result ≡ false → IsPath sides.now (path_at paths.now p) → ⊥ }
{
    let path = path_in(sides, paths, p);
    let size = path.len();
    if size == 0 {
        return false;
    }
    for k in 1..size {
        if sides.head(path[k - 1]).0 != sides.tail(path[k]).0 {
            return false;
        }
    }
    true
}
