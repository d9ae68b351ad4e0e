//! Whether a picture was found to be right, and what is wrong with one.

ghost use Rattle.std.specs.Prelude.{◌≡◌, ◌<◌, ◌^◌, length, IsTrue, IfOk, MatchOption, None, Some, All};
ghost use Rattle.st_shape.specs.declared.picture.Fault.{Fault};
ghost use Rattle.st_shape.specs.Verdict.{IsClean, IsRight, IsWrong};
ghost use Rattle.eps_check.specs.Shapes.{IsOnSheet};
ghost use Rattle.eps_check.specs.Sweeps.{LieApart};
ghost use Rattle.eps_check.specs.Views.{is_slanted};

use crate::first::first_fault;
use crate::names::{are_distinct, are_in_place, ends_of, vertices_of};
use crate::order::ranks_of;
use crate::shapes::strips_of;
use crate::slabs::ranks_by_slabs;
use crate::sweep::{are_apart, count_of_cells};
use crate::tiles::tiles;
use st_ids::NoMemory;
use st_shape::{Fault, Form, Item, Picture, clean};
use std::alloc::Global;

/// Whether lines are seen to rise by the sum of their coordinates, and not by y alone.
fn is_slanted(form: Form) -> bool
    ensures { result ≡ is_slanted form }
{
    match form {
        Form::Visibility => false,
        Form::Tessellation => false,
        Form::Constrained => false,
        Form::Polyline => false,
        Form::Dominance => true,
    }
}

/// Whether the strips of different items were found to lie apart, with these ranks.
fn lie_apart(alloc: Global, slanted: bool, items: &[Item], ranks: &[u32]) -> Result<bool, NoMemory>
    requires sheet { All (λ e. IsOnSheet e) items.now }
    requires few { length items.now < 2 ^ 31 }
    ensures { IfOk result (λ found. IsTrue found → LieApart slanted items.now) }
{
    let strips = strips_of(alloc, slanted, items, ranks)?;
    are_apart(alloc, strips)
}

/// An order of items from left to right by slabs of height.
fn slab_ranks(alloc: Global, slanted: bool, items: &[Item]) -> Result<Vec<u32>, NoMemory>
    requires sheet { All (λ e. IsOnSheet e) items.now }
    requires few { length items.now < 2 ^ 31 }
{
    let none = Vec::new(alloc);
    let strips = strips_of(alloc, slanted, items, &none)?;
    let cells = count_of_cells(&strips);
    ranks_by_slabs(alloc, strips, cells, items.len())
}

/// Whether the items of a picture of this form, which is no tessellation, were found to be clean.
fn is_found_clean(alloc: Global, form: Form, items: &[Item]) -> Result<bool, NoMemory>
    requires sheet { All (λ e. IsOnSheet e) items.now }
    requires few { length items.now < 2 ^ 31 }
    ensures { IfOk result (λ found. IsTrue found → IsClean form items.now) }
{
    let slanted = is_slanted(form);
    let vertices = vertices_of(alloc, items)?;
    let vertices = vertices.as_slice();
    let ends = ends_of(alloc, vertices, items)?;
    if !are_distinct(vertices) || !are_in_place(form, slanted, vertices, &ends, items) {
        return Ok(false);
    }
    let ranks = ranks_of(alloc, slanted, &ends, items)?;
    let found = lie_apart(alloc, slanted, items, &ranks)?;
    if found {
        return Ok(true);
    }
    match slab_ranks(alloc, slanted, items) {
        Ok(ranks) => lie_apart(alloc, slanted, items, &ranks),
        Err(_) => Ok(false),
    }
}

/// Whether the picture was found to be right: clean, or in a tessellation a tiling of its frame.
///
/// A yes is right. A no says nothing: yet a yes came for each clean drawing that was tried.
///
/// Errors: `NoMemory`.
/// Cost: O(n log n + n log h) time for n items of a few points each in a frame of height h (of width and height together in
/// the form Dominance); where a first order gives a no, O(n log n log h) for a second one. Memory: 40 bytes for each dot,
/// bar, bend, segment or box, about 100 for each node of the front, of which there are O(n log h), and 40 for each line. Not
/// proved.
pub fn certify(alloc: Global, picture: &Picture) -> Result<bool, NoMemory>
    ensures { IfOk result (λ found. IsTrue found → IsRight picture.now) }
{
    let items = picture.items();
    match picture.form() {
        Form::Visibility => is_found_clean(alloc, Form::Visibility, items),
        Form::Tessellation => tiles(alloc, picture),
        Form::Constrained => is_found_clean(alloc, Form::Constrained, items),
        Form::Polyline => is_found_clean(alloc, Form::Polyline, items),
        Form::Dominance => is_found_clean(alloc, Form::Dominance, items),
    }
}

/// The first fault of the picture, or none, as `st_shape::clean` names it.
///
/// Errors: `NoMemory`; the picture is only read.
/// Cost: that of `certify` where it says yes. Else O(n log n + k) more for n items, k pairs of which have a height or a name
/// in common, which is O(n^2) at worst; in a tessellation O(n^2), as `clean`. Memory: 24 bytes for each height and name of an
/// item, two for a vertex and three for a line. Not proved.
pub fn examine(alloc: Global, picture: &Picture) -> Result<Option<Fault>, NoMemory>
    ensures fault { IfOk result (λ r. MatchOption r (IsRight picture.now) (λ fault. IsWrong picture.now fault)) }
    ensures right { IsRight picture.now → IfOk result (λ r. r ≡ None) }
    ensures exact { (fault : Fault) → IsWrong picture.now fault → IfOk result (λ r. r ≡ Some fault) }
{
    let items = picture.items();
    let right = certify(alloc, picture)?;
    if right {
        return Ok(None);
    }
    match picture.form() {
        Form::Visibility => first_fault(alloc, Form::Visibility, items),
        Form::Tessellation => Ok(clean(picture)),
        Form::Constrained => first_fault(alloc, Form::Constrained, items),
        Form::Polyline => first_fault(alloc, Form::Polyline, items),
        Form::Dominance => first_fault(alloc, Form::Dominance, items),
    }
}
