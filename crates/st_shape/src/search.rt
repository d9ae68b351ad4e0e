//! The first fault of a picture that is no tessellation.

ghost use Rattle.std.specs.Prelude.{◌≡◌, ◌<◌, ◌^◌, All, length, MatchOption, None, Some};
ghost use Rattle.st_shape.specs.declared.picture.Fault.{Fault};
ghost use Rattle.st_shape.specs.Clean.{FaultyAloneAt, FaultyPair};
ghost use Rattle.st_shape.specs.Least.{IsLeastItem, IsLeastPair, NoItem, NoPair};
ghost use Rattle.st_shape.specs.Verdict.{IsClean, IsFault};
ghost use Rattle.st_shape.specs.Steps.{IsItemOnGrid, IsOrdinary};

use crate::alone::is_faulty_alone;
use crate::item::Item;
use crate::pairs::is_faulty_pair;
use crate::picture::{Fault, Form};

/// The least item that is faulty by itself.
fn first_alone(form: Form, items: &[Item]) -> Option<u32>
    requires grid { All (λ e. IsItemOnGrid e) items.now }
    requires few { length items.now < 2 ^ 31 }
    ensures { MatchOption result (NoItem (length items.now) (FaultyAloneAt form items.now))
        (λ item. IsLeastItem (length items.now) (FaultyAloneAt form items.now) item) }
{
    for i in 0..items.len() {
        if is_faulty_alone(form, items, &items[i]) {
            return Some(i as u32);
        }
    }
    None
}

/// The least first item of a faulty pair, and its least later partner.
fn first_pair(items: &[Item]) -> Option<(u32, u32)>
    requires ordinary { All (λ e. IsOrdinary e) items.now }
    requires few { length items.now < 2 ^ 31 }
    ensures { MatchOption result (NoPair (length items.now) (FaultyPair items.now))
        (λ pair. IsLeastPair (length items.now) (FaultyPair items.now) pair.0 pair.1) }
{
    for i in 0..items.len() {
        for j in i + 1..items.len() {
            if is_faulty_pair(&items[i], &items[j]) {
                return Some((i as u32, j as u32));
            }
        }
    }
    None
}

/// What is wrong with the items of a picture of this form, which is no tessellation.
pub fn first_fault(form: Form, items: &[Item]) -> Option<Fault>
    requires grid { All (λ e. IsItemOnGrid e) items.now }
    requires few { length items.now < 2 ^ 31 }
    ensures fault { MatchOption result (IsClean form items.now) (λ fault. IsFault form items.now fault) }
    ensures clean { IsClean form items.now → result ≡ None }
    ensures exact { (fault : Fault) → IsFault form items.now fault → result ≡ Some fault }
{
    match first_alone(form, items) {
        Some(item) => Some(Fault::Alone { item }),
        None => match first_pair(items) {
            Some((first, second)) => Some(Fault::Pair { first, second }),
            None => None,
        },
    }
}
