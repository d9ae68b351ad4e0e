//! The path of each edge, where an edge in no listed path is a path of its own.
ghost use Rattle.std.specs.Prelude.{◌≡◌, ◌+◌, ◌<◌, ◌≤◌, ◌^◌, ◌∷◌, ◌++◌, [], length, IfOk, OnOk};
ghost use Rattle.draw_align.specs.Faults.{AreThere};
ghost use Rattle.draw_align.specs.Homes.{HasPaths, IsHoming};
ghost use Rattle.draw_align.specs.Listed.{AreSound};
ghost use Rattle.draw_align.specs.Steps.{AreSteps};
ghost use Rattle.st_sides.specs.Sides.{edge_count};

use crate::steps::{Step, step_of};
use st_ids::{EdgeId, IdVec, NoMemory, PathList};
use st_sides::Sides;
use std::alloc::Global;

/// The path of each edge, and how many paths there are.
#[derive(Drop)]
pub(crate) struct Homes {
    pub(crate) table: IdVec<EdgeId, u32>,
    pub(crate) count: u32,
}

/// Gives edge e its path: the listed one that has it, or one of its own.
fn add_home(
    homes: &mut Homes,
    sides: &Sides,
    paths: &PathList,
    steps: &IdVec<EdgeId, Option<Step>>,
    e: u32,
) -> Result<(), NoMemory>
    requires there { e < edge_count sides.now }
    requires few { edge_count sides.now < 2 ^ 30 }
    requires many { length paths.now ≤ 2 ^ 31 }
    requires sound { AreSound sides.now paths.now (length paths.now) }
    requires steps { AreSteps sides.now paths.now (length paths.now) steps.now }
    requires homing { IsHoming sides.now paths.now e homes.old.table homes.old.count }
    ensures { OnOk result (IsHoming sides.now paths.now (e + 1) homes.new.table homes.new.count) }
{
    match step_of(steps, EdgeId(e)) {
        Some(step) => {
            homes.table.push(step.path)?;
        }
        None => {
            homes.table.push(homes.count)?;
            homes.count += 1;
        }
    }
    Ok(())
}

/// The path of each edge.
pub(crate) fn homes_of(
    alloc: Global,
    sides: &Sides,
    paths: &PathList,
    steps: &IdVec<EdgeId, Option<Step>>,
) -> Result<Homes, NoMemory>
    requires edges { AreThere sides.now paths.now }
    requires many { length paths.now ≤ 2 ^ 31 }
    requires sound { AreSound sides.now paths.now (length paths.now) }
    requires steps { AreSteps sides.now paths.now (length paths.now) steps.now }
    ensures { IfOk result (λ h. HasPaths sides.now paths.now h.table h.count) }
{
    let mut found = Homes {
        table: IdVec::new(alloc),
        count: paths.len(),
    };
    for e in 0..sides.edges() {
        add_home(&mut found, sides, paths, steps, e)?;
    }
    Ok(found)
}
