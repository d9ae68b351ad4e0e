//! The first fault of a picture that is no tessellation, by comparing only items that have a height or a name in common.

ghost use Rattle.std.specs.Prelude.{◌≡◌, ◌<◌, ◌≤◌, ◌^◌, ◌↔◌, IsTrue, All, Any, length, IfOk, MatchOption, None, Some};
ghost use Rattle.st_shape.specs.declared.picture.Fault.{Fault};
ghost use Rattle.st_shape.specs.Clean.{FaultyAlone, FaultyAloneAt, FaultyPair, IsVertexNamed};
ghost use Rattle.st_shape.specs.Least.{IsLeastItem, IsLeastPair, NoItem, NoPair};
ghost use Rattle.st_shape.specs.Meeting.{IsOnGrid};
ghost use Rattle.st_shape.specs.Steps.{IsItemOnGrid, IsOrdinary};
ghost use Rattle.st_shape.specs.Verdict.{IsClean, IsFault};
ghost use Rattle.eps_check.specs.Names.{IsSoundLine};

use crate::names::{Ends, Name, ends_at, ends_of, vertices_of};
use crate::pairs::{Pair, best_pair};
use crate::spans::sorted_spans;
use st_ids::NoMemory;
use st_shape::{Fault, Form, Item, Point, is_faulty_alone, is_rising};
use std::alloc::Global;

/// Whether the item is a vertex of this name.
fn is_vertex(item: &Item, name: Name) -> bool
    ensures { IsTrue result → IsVertexNamed name.number item.now }
{
    match item {
        Item::Dot { name: own, .. } => *own == name.number,
        Item::Bar { name: own, .. } => *own == name.number,
        Item::Line { .. } => false,
        Item::Rect { .. } => false,
        Item::Face { .. } => false,
        Item::Label { .. } => false,
    }
}

/// Whether the item at this place is a vertex of this name.
fn is_vertex_at(items: &[Item], place: u32, name: Name) -> bool
    ensures { IsTrue result → Any (λ e. IsVertexNamed name.number e) items.now }
{
    let place = place as usize;
    place < items.len() && is_vertex(&items[place], name)
}

/// Whether the line rises and the vertices of its tail and its head are at these places.
fn is_sound_line(
    form: Form,
    items: &[Item],
    ends: Option<Ends>,
    tail: Name,
    head: Name,
    points: &[Point],
) -> bool
    requires least { 2 ≤ length points.now }
    requires grid { All (λ p. IsOnGrid p) points.now }
    ensures { IsTrue result → IsSoundLine form items.now tail.number head.number points.now }
{
    match ends {
        Some(ends) => {
            is_vertex_at(items, ends.tail, tail)
                && is_vertex_at(items, ends.head, head)
                && is_rising(form, points)
        }
        None => false,
    }
}

/// Whether the item is faulty by itself. A line's vertices are looked for among all items only where they aren't at these
/// places.
#[tactic(auto, using(crate::proofs::OverlapLemmas::sound_line))]
fn is_alone(form: Form, items: &[Item], ends: Option<Ends>, item: &Item) -> bool
    requires { IsItemOnGrid item.now }
    ensures { IsTrue result ↔ FaultyAlone form items.now item.now }
{
    if let Item::Line {
        tail,
        head,
        points,
        ..
    } = item
    {
        let tail = Name { number: *tail };
        let head = Name { number: *head };
        if is_sound_line(form, items, ends, tail, head, points.items()) {
            return false;
        }
    }
    is_faulty_alone(form, items, item)
}

/// The least item that is faulty by itself.
fn first_alone(form: Form, items: &[Item], ends: &[Option<Ends>]) -> Option<u32>
    requires grid { All (λ e. IsItemOnGrid e) items.now }
    requires few { length items.now < 2 ^ 31 }
    ensures { MatchOption result (NoItem (length items.now) (FaultyAloneAt form items.now))
        (λ item. IsLeastItem (length items.now) (FaultyAloneAt form items.now) item) }
{
    for i in 0..items.len() {
        if is_alone(form, items, ends_at(ends, i), &items[i]) {
            return Some(i as u32);
        }
    }
    None
}

/// The least faulty pair, where no item is faulty by itself.
fn first_pair(alloc: Global, items: &[Item]) -> Result<Option<Pair>, NoMemory>
    requires grid { All (λ e. IsItemOnGrid e) items.now }
    requires ordinary { All (λ e. IsOrdinary e) items.now }
    requires few { length items.now < 2 ^ 31 }
    ensures { IfOk result (λ r. MatchOption r (NoPair (length items.now) (FaultyPair items.now))
        (λ pair. IsLeastPair (length items.now) (FaultyPair items.now) pair.first pair.second)) }
{
    let spans = sorted_spans(alloc, items)?;
    Ok(best_pair(items, &spans))
}

/// What is wrong with the items of a picture of this form, which is no tessellation.
///
/// Errors: `NoMemory`.
/// Cost: O(n log n + k) time for n items, k pairs of which have a height or a name in common; 24 bytes for each of their
/// spans. Not proved.
pub fn first_fault(alloc: Global, form: Form, items: &[Item]) -> Result<Option<Fault>, NoMemory>
    requires grid { All (λ e. IsItemOnGrid e) items.now }
    requires few { length items.now < 2 ^ 31 }
    ensures fault { IfOk result (λ r. MatchOption r (IsClean form items.now) (λ fault. IsFault form items.now fault)) }
    ensures clean { IsClean form items.now → IfOk result (λ r. r ≡ None) }
    ensures exact { (fault : Fault) → IsFault form items.now fault → IfOk result (λ r. r ≡ Some fault) }
{
    let vertices = vertices_of(alloc, items)?;
    let ends = ends_of(alloc, &vertices, items)?;
    match first_alone(form, items, &ends) {
        Some(item) => Ok(Some(Fault::Alone { item })),
        None => {
            let found = first_pair(alloc, items)?;
            match found {
                Some(pair) => Ok(Some(Fault::Pair {
                    first: pair.first,
                    second: pair.second,
                })),
                None => Ok(None),
            }
        }
    }
}
