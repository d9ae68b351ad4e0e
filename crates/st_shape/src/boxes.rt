//! Boxes that tile a frame.

ghost use Rattle.std.specs.Prelude.{◌≡◌, ◌≤◌, ◌<◌, ◌^◌, ◌↔◌, IsTrue, All, length, sum_by, MatchOption, None, Some};
ghost use Rattle.std.specs.List.{AllByRecursion};
ghost use Rattle.st_shape.specs.declared.picture.Fault.{Fault};
ghost use Rattle.st_shape.specs.Boxes.{area_between, area_of, frame_area, IsTiled, IsTilingFault, ShareCell, ShareCellAt};
ghost use Rattle.st_shape.specs.Least.{IsLeastPair, NoPair};
ghost use Rattle.st_shape.specs.Meeting.{IsOnGrid};
ghost use Rattle.st_shape.specs.Rules.{FitsFrame, IsFrame};
ghost use Rattle.st_shape.specs.Steps.{IsBox, IsBoxOnGrid, NoBox, ShareCells};

use crate::item::Item;
use crate::picture::Fault;
use crate::point::Point;

/// The low corner and the high corner of a box.
#[derive(Clone, Copy)]
struct Corners {
    low: Point,
    high: Point,
}

/// The corners of the item, where it is a box.
fn corners_of(item: &Item) -> Option<Corners>
    ensures { MatchOption result (NoBox item.now) (λ c. IsBox item.now c.low c.high) }
{
    match item {
        Item::Dot { .. } => None,
        Item::Bar { .. } => None,
        Item::Line { .. } => None,
        Item::Rect { low, high, .. } => Some(Corners {
            low: *low,
            high: *high,
        }),
        Item::Face { .. } => None,
        Item::Label { .. } => None,
    }
}

/// Whether two boxes have a cell in common.
fn share_cells(a: Corners, b: Corners) -> bool
    requires a_low { IsOnGrid a.low }
    requires a_high { IsOnGrid a.high }
    requires b_low { IsOnGrid b.low }
    requires b_high { IsOnGrid b.high }
    ensures { IsTrue result ↔ ShareCells a.low a.high b.low b.high }
{
    if a.low.x.max(b.low.x) >= a.high.x.min(b.high.x) {
        return false;
    }
    a.low.y.max(b.low.y) < a.high.y.min(b.high.y)
}

/// Whether two items are boxes with a cell in common.
fn share_cell(e: &Item, f: &Item) -> bool
    requires e { IsBoxOnGrid e.now }
    requires f { IsBoxOnGrid f.now }
    ensures { IsTrue result ↔ ShareCell e.now f.now }
{
    match corners_of(e) {
        Some(a) => match corners_of(f) {
            Some(b) => share_cells(a, b),
            None => false,
        },
        None => false,
    }
}

/// The least first item of a pair of boxes with a cell in common, and its least later partner.
fn first_overlap(items: &[Item]) -> Option<(u32, u32)>
    requires grid { All (λ e. IsBoxOnGrid e) items.now }
    requires few { length items.now < 2 ^ 31 }
    ensures { MatchOption result (NoPair (length items.now) (ShareCellAt items.now))
        (λ pair. IsLeastPair (length items.now) (ShareCellAt items.now) pair.0 pair.1) }
{
    for i in 0..items.len() {
        for j in i + 1..items.len() {
            if share_cell(&items[i], &items[j]) {
                return Some((i as u32, j as u32));
            }
        }
    }
    None
}

/// The area between two corners.
fn area(c: Corners) -> u64
    requires low { IsOnGrid c.low }
    requires high { IsOnGrid c.high }
    ensures value { result ≡ area_between c.low c.high }
    ensures most { result ≤ 2500000000000000 }
{
    c.high.x.abs_diff(c.low.x) * c.high.y.abs_diff(c.low.y)
}

/// The area of an item, which is 0 where it is no box.
fn area_of_item(item: &Item) -> u64
    requires { IsBoxOnGrid item.now }
    ensures value { result ≡ area_of item.now }
    ensures most { result ≤ 2500000000000000 }
{
    match corners_of(item) {
        Some(c) => area(c),
        None => 0,
    }
}

/// The sum of the boxes' areas.
pub fn sum_of_areas(items: &[Item]) -> u128
    requires grid { All (λ e. IsBoxOnGrid e) items.now }
    requires few { length items.now < 2 ^ 31 }
    ensures { result ≡ sum_by area_of items.now }
{
    let mut sum = 0;
    for i in 0..items.len() {
        sum += u128::from(area_of_item(&items[i]));
    }
    sum
}

/// The area of the frame.
pub fn area_of_frame(frame: Point) -> u64
    requires { IsFrame frame }
    ensures { result ≡ frame_area frame }
{
    frame.x.unsigned_abs() * frame.y.unsigned_abs()
}

/// What is wrong with the boxes of a tessellation in this frame.
pub fn box_fault(frame: Point, items: &[Item]) -> Option<Fault>
    requires frame { IsFrame frame }
    requires fits { AllByRecursion (λ e. FitsFrame frame e) items.now }
    requires few { length items.now < 2 ^ 31 }
    ensures fault { MatchOption result (IsTiled frame items.now) (λ fault. IsTilingFault frame items.now fault) }
    ensures tiled { IsTiled frame items.now → result ≡ None }
    ensures exact { (fault : Fault) → IsTilingFault frame items.now fault → result ≡ Some fault }
{
    match first_overlap(items) {
        Some((first, second)) => Some(Fault::Pair { first, second }),
        None => {
            let sum = sum_of_areas(items);
            if sum == u128::from(area_of_frame(frame)) {
                None
            } else {
                Some(Fault::Area)
            }
        }
    }
}
