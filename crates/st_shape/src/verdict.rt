//! What is wrong with a picture.

ghost use Rattle.std.specs.Prelude.{◌≡◌, ◌↔◌, IsTrue, MatchOption, None, Some, sum_by};
ghost use Rattle.st_shape.specs.declared.picture.Fault.{Fault};
ghost use Rattle.st_shape.specs.Boxes.{area_of, frame_area};
ghost use Rattle.st_shape.specs.Verdict.{IsRight, IsWrong};

use crate::boxes::{area_of_frame, box_fault, sum_of_areas};
use crate::picture::{Fault, Form, Picture};
use crate::search::first_fault;

/// The first fault of the picture, or none.
///
/// In the form Tessellation the boxes have to tile the frame: two that share a cell are a faulty pair, and `Area` is the
/// fault where none do and the areas don't sum to that of the frame. In every other form all lines have to rise and to end
/// at vertices that are there, and two items may touch only where a line ends at its own vertex. A fault by itself is named
/// before a pair, and of each kind the one that stands first in the picture.
///
/// Cost: each two items, O(n^2) time for n items; no memory.
pub fn clean(picture: &Picture) -> Option<Fault>
    ensures fault { MatchOption result (IsRight picture.now) (λ fault. IsWrong picture.now fault) }
    ensures right { IsRight picture.now → result ≡ None }
    ensures exact { (fault : Fault) → IsWrong picture.now fault → result ≡ Some fault }
{
    let form = picture.form();
    let items = picture.items();
    match form {
        Form::Visibility => first_fault(form, items),
        Form::Tessellation => box_fault(picture.frame(), items),
        Form::Constrained => first_fault(form, items),
        Form::Polyline => first_fault(form, items),
        Form::Dominance => first_fault(form, items),
    }
}

/// Whether the areas of the boxes sum to the area of the frame.
///
/// Cost: O(n) time for n items; no memory.
pub fn areas_fill(picture: &Picture) -> bool
    ensures { IsTrue result ↔ (sum_by area_of picture.now.items ≡ frame_area picture.now.frame) }
{
    let items = picture.items();
    let sum = sum_of_areas(items);
    let frame = u128::from(area_of_frame(picture.frame()));
    sum == frame
}
