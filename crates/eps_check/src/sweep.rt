//! Whether strips lie apart, by placing one after the other.

ghost use Rattle.std.specs.Prelude.{IsTrue, IfOk};
ghost use Rattle.eps_check.specs.Strips.{IsStrip};
ghost use Rattle.eps_check.specs.Sweeps.{AllApart, AreStripsApart};

use crate::front::{Front, place};
use crate::strip::Strip;
use st_ids::NoMemory;
use std::alloc::Global;

/// Whether the lines of the strip don't cross, and are given at two heights.
fn is_strip(s: &Strip) -> bool
    ensures { IsTrue result → IsStrip s.now }
{
    s.base < s.top && s.left_low <= s.right_low && s.left_high <= s.right_high
}

/// Whether each strip can be placed right of those before it, where all cells are below `cells`.
fn are_in_order(alloc: Global, strips: &[Strip], cells: u32) -> Result<bool, NoMemory>
    ensures { IfOk result (λ found. IsTrue found → AreStripsApart strips.now) }
{
    let mut front = Front::Free;
    for k in 0..strips.len() {
        let p = &strips[k];
        if !is_strip(p) || cells < p.to {
            return Ok(false);
        }
        if !place(alloc, &mut front, 0, cells, p)? {
            return Ok(false);
        }
    }
    Ok(true)
}

/// The least number that is above all cells of the strips.
pub fn count_of_cells(strips: &[Strip]) -> u32 {
    let mut cells = 0;
    for s in strips {
        if cells < s.to {
            cells = s.to;
        }
    }
    cells
}

/// Whether strips of different items were found to lie apart, by placing them in the order of their ranks.
///
/// A yes is right for any ranks. A no says nothing: an order may be missing in which each strip lies right of those before
/// it, or the ranks don't give it.
///
/// Cost: O(n log n + n log h) time, and O(n log h) memory, for n strips and h cells of height. Not proved.
pub fn are_apart(alloc: Global, strips: Vec<Strip>) -> Result<bool, NoMemory>
    ensures { IfOk result (λ found. IsTrue found → AllApart strips.items) }
{
    let mut strips = strips;
    strips.sort_unstable_by_key(|s| s.rank);
    let cells = count_of_cells(&strips);
    are_in_order(alloc, &strips, cells)
}
