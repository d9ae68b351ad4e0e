//! Columns: the nodes of the dual one by one, each after all nodes from which an arc leads to it.
ghost use Rattle.std.specs.Prelude.{◌≡◌, ◌+◌, ◌<◌, ◌≤◌, ◌^◌, ℕ, length, slice_index, IfOk};
ghost use Rattle.st_number.specs.Filling.{AreLeftColumns, IsColumnTable};
ghost use Rattle.st_number.specs.Greatest.{IsColumn};
ghost use Rattle.st_number.specs.Heights.{AreColumns};
ghost use Rattle.st_sides.specs.Sides.{IsSides};
ghost use Rattle.st_sides.specs.Sweep.{AreSwept, node_numbers};

use crate::passes::signed;
use st_ids::{FaceId, IdVec, NoMemory};
use st_sides::{Sides, laws, sweep};
use std::alloc::Global;

/// The column of a node, from the columns of the nodes on the left of its left path: one more than the greatest of them,
/// and 0 for the left half of the outer face, which has none.
fn column(sides: &Sides, columns: &IdVec<FaceId, u64>, f: FaceId) -> u64
    requires sides { IsSides sides.now }
    requires few { sides.now.t_star < 2 ^ 31 }
    requires there { f.0 ≤ sides.now.t_star }
    requires size { length columns.now ≡ sides.now.t_star + 1 }
    requires lefts { AreLeftColumns sides.now columns.now f.0 }
    ensures { IsColumn sides.now f.0 result }
{
    if f.0 == 0 {
        return 0;
    }
    let path = sides.left_path(f);
    let mut greatest = 0;
    for k in 0..path.len() {
        let reached = *columns.get(sides.face_left(path[k])) + 1;
        if greatest < reached {
            greatest = reached;
        }
    }
    greatest
}

/// The columns of all nodes, along a sweep.
fn fill(alloc: Global, sides: &Sides, order: &[FaceId]) -> Result<IdVec<FaceId, u64>, NoMemory>
    requires sides { IsSides sides.now }
    requires order { AreSwept sides.now (node_numbers order.now) }
    ensures { IfOk result (IsColumnTable sides.now) }
{
    let mut columns = IdVec::with_len(alloc, sides.faces(), 0u64)?;
    for k in 0..order.len() {
        let f = order[k];
        let found = column(sides, &columns, f);
        columns.set(f, found);
    }
    Ok(columns)
}

/// The column of each node: the greatest number of arcs of a walk of the dual from the left half of the outer face.
///
/// Errors: `NoMemory`.
/// Cost: O(V + E) time. Not proved.
pub fn columns(alloc: Global, sides: &Sides) -> Result<IdVec<FaceId, i64>, NoMemory>
    ensures { IfOk result (AreColumns sides.now) }
{
    laws::local(sides);
    let order = sweep(alloc, sides)?;
    let table = fill(alloc, sides, order.items())?;
    let columns = signed(alloc, &table)?;
    Ok(columns)
}
