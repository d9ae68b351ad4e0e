//! The last strip at each height, of those that were placed.

ghost use Rattle.std.specs.Prelude.{◌≡◌, ◌≤◌, IsTrue, IfOk, OnOk};
ghost use Rattle.eps_check.specs.Fronts.{HasBehind, IsAllLeft, PlacesStrip, IsSplit, middle};
ghost use Rattle.eps_check.specs.Strips.{IsStrip};

use crate::strip::{Strip, is_left};
use st_ids::NoMemory;
use std::alloc::Global;

/// The last strip in each cell of a range: none in all of them, one in all of them, or the cells below the middle and those
/// above it.
#[derive(Drop)]
pub enum Front {
    Free,
    Last(Strip),
    Halves(Box<Front>, Box<Front>),
}

/// The middle of a range.
fn middle_of(lo: u32, hi: u32) -> u32
    requires { lo ≤ hi }
    ensures { result ≡ middle lo hi }
{
    lo + (hi - lo) / 2
}

/// Whether what the front has in the cells from `lo` to `hi` lies left of the strip there.
fn is_all_left(front: &Front, lo: u32, hi: u32, p: &Strip) -> bool
    ensures { IsTrue result → IsAllLeft front.now lo hi p.now }
{
    match front {
        Front::Free => true,
        Front::Last(s) => is_left(s, p, lo, hi),
        Front::Halves(below, above) => {
            if hi < lo {
                return false;
            }
            let mid = middle_of(lo, hi);
            is_all_left(below, lo, mid, p) && is_all_left(above, mid, hi, p)
        }
    }
}

/// Splits a front with one strip, or none, into two halves that have the same.
fn split(alloc: Global, front: &mut Front) -> Result<(), NoMemory>
    ensures { OnOk result (IsSplit front.old front.new) }
{
    let (below, above) = match front {
        Front::Free => (Front::Free, Front::Free),
        Front::Last(s) => (Front::Last(*s), Front::Last(*s)),
        Front::Halves(_, _) => return Ok(()),
    };
    match Box::new(alloc, below) {
        Ok(below) => match Box::new(alloc, above) {
            Ok(above) => {
                *front = Front::Halves(below, above);
                Ok(())
            }
            Err(_) => Err(NoMemory),
        },
        Err(_) => Err(NoMemory),
    }
}

/// Places a strip right of all that the front has at its heights, in the cells from `lo` to `hi`, and answers whether it
/// could be placed there.
pub fn place(
    alloc: Global,
    front: &mut Front,
    lo: u32,
    hi: u32,
    p: &Strip,
) -> Result<bool, NoMemory>
    requires { IsStrip p.now }
    ensures { IfOk result (λ placed. IsTrue placed → PlacesStrip front.old front.new lo hi p.now) }
{
    if p.from <= lo && hi <= p.to {
        if is_all_left(front, lo, hi, p) {
            *front = Front::Last(*p);
            return Ok(true);
        }
        return Ok(false);
    }
    if hi < lo || hi - lo < 2 {
        return Ok(false);
    }
    split(alloc, front)?;
    let mid = middle_of(lo, hi);
    match front {
        Front::Free => Ok(false),
        Front::Last(_) => Ok(false),
        Front::Halves(below, above) => {
            if p.to <= mid {
                return place(alloc, below, lo, mid, p);
            }
            if mid <= p.from {
                return place(alloc, above, mid, hi, p);
            }
            if place(alloc, below, lo, mid, p)? {
                return place(alloc, above, mid, hi, p);
            }
            Ok(false)
        }
    }
}
