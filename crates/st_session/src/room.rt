//! Room for an edit, taken before anything is changed.
ghost use Rattle.std.specs.Prelude.{◌≡◌, ◌<◌, ◌≤◌, ◌++◌, ◌∷◌, ◌^◌, [], OnErr, OnOk};
ghost use Rattle.st_map.specs.Embedded.{edges};
ghost use Rattle.st_session.specs.States.{LacksName};

use crate::names::NameIndex;
use st_ids::NoMemory;
use st_map::Map;

/// Makes room for a vertex and an edge. Errors: `NoMemory`, and the graph is as before. Cost: O(1) on average.
pub fn make_room(map: &mut Map) -> Result<(), NoMemory>
    requires vertices { map.old.graph.vertices < 2 ^ 29 }
    requires edges { edges map.old.graph < 2 ^ 29 }
    ensures graph { map.new.graph ≡ map.old.graph }
    ensures room { OnOk result (1 ≤ map.new.spare) }
{
    if map.reserve(1).is_ok() {
        Ok(())
    } else {
        Err(NoMemory)
    }
}

/// Puts one new name at the end of each index. Errors: `NoMemory`, and both are as before.
pub fn add_two(
    first: &mut NameIndex,
    name: i64,
    second: &mut NameIndex,
    other: i64,
) -> Result<(), NoMemory>
    requires first { LacksName first.old name }
    requires second { LacksName second.old other }
    ensures first { OnOk result (first.new ≡ first.old ++ name ∷ []) }
    ensures second { OnOk result (second.new ≡ second.old ++ other ∷ []) }
    ensures first_kept { OnErr result (first.new ≡ first.old) }
    ensures second_kept { OnErr result (second.new ≡ second.old) }
{
    first.add(name)?;
    match second.add(other) {
        Ok(()) => Ok(()),
        Err(NoMemory) => {
            first.drop_last();
            Err(NoMemory)
        }
    }
}
