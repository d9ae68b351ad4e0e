//! Room in a table.
ghost use Rattle.std.specs.Prelude.{◌≡◌, ◌+◌, ◌≤◌, length, vec_capacity, OnOk};

use st_ids::NoMemory;

/// Makes room for so many more entries.
pub fn make_room<T>(table: &mut Vec<T>, more: usize) -> Result<(), NoMemory>
    ensures items { table.new.items ≡ table.old.items }
    ensures grows { vec_capacity table.old ≤ vec_capacity table.new }
    ensures room { OnOk result (length table.new.items + more ≤ vec_capacity table.new) }
{
    match table.reserve(more) {
        Ok(()) => Ok(()),
        Err(_) => Err(NoMemory),
    }
}
