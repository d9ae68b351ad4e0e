//! Whether an item is faulty by itself.

ghost use Rattle.std.specs.Prelude.{◌≡◌, ◌≤◌, ◌↔◌, All, Any, IsTrue, length};
ghost use Rattle.st_shape.specs.Clean.{FaultyAlone, IsRisingLine, IsVertexNamed, RisesIn, RisesInDominance};
ghost use Rattle.st_shape.specs.Meeting.{IsOnGrid};
ghost use Rattle.st_shape.specs.Steps.{AreOnGrid, IsItemOnGrid};

use crate::item::Item;
use crate::names::Name;
use crate::picture::Form;
use crate::point::{Point, Segment};

/// Whether a segment rises in a picture of this form.
fn rises(form: Form, s: Segment) -> bool
    requires { AreOnGrid s }
    ensures { IsTrue result ↔ RisesIn form s }
{
    match form {
        Form::Dominance => rises_in_dominance(s),
        Form::Visibility => s.a.y < s.b.y,
        Form::Tessellation => s.a.y < s.b.y,
        Form::Constrained => s.a.y < s.b.y,
        Form::Polyline => s.a.y < s.b.y,
    }
}

/// Whether neither x nor y falls and their sum grows.
fn rises_in_dominance(s: Segment) -> bool
    requires { AreOnGrid s }
    ensures { IsTrue result ↔ RisesInDominance s }
{
    if s.a.x > s.b.x {
        return false;
    }
    if s.a.y > s.b.y {
        return false;
    }
    s.a.x + s.a.y < s.b.x + s.b.y
}

/// Whether each segment of the line rises, as lines have to in a picture of this form.
///
/// Range: at least two points; coordinates from 0 to 50,000,000.
pub fn is_rising(form: Form, points: &[Point]) -> bool
    requires least { 2 ≤ length points.now }
    requires grid { All (λ p. IsOnGrid p) points.now }
    ensures { IsTrue result ↔ IsRisingLine form points.now }
{
    for k in 0..points.len() - 1 {
        let s = Segment {
            a: points[k],
            b: points[k + 1],
        };
        if !rises(form, s) {
            return false;
        }
    }
    true
}

/// Whether the item is a vertex of this name.
fn is_vertex_named(item: &Item, name: Name) -> bool
    ensures { IsTrue result ↔ IsVertexNamed name.number item.now }
{
    match item {
        Item::Dot { name: own, .. } => *own == name.number,
        Item::Bar { name: own, .. } => *own == name.number,
        Item::Line { .. } => false,
        Item::Rect { .. } => false,
        Item::Face { .. } => false,
        Item::Label { .. } => false,
    }
}

/// Whether some item is a vertex of this name.
fn has_vertex(items: &[Item], name: Name) -> bool
    ensures { IsTrue result ↔ Any (λ e. IsVertexNamed name.number e) items.now }
{
    items.iter().any(|item| is_vertex_named(item, name))
}

/// Whether the item is faulty by itself in a picture of this form with these items.
///
/// Range: coordinates from 0 to 50,000,000.
/// Cost: for a line one pass over the items, else none.
pub fn is_faulty_alone(form: Form, items: &[Item], item: &Item) -> bool
    requires { IsItemOnGrid item.now }
    ensures { IsTrue result ↔ FaultyAlone form items.now item.now }
{
    match item {
        Item::Dot { .. } => false,
        Item::Bar { .. } => false,
        Item::Line {
            tail,
            head,
            points,
            ..
        } => {
            if !is_rising(form, points.items()) {
                return true;
            }
            if !has_vertex(items, Name { number: *tail }) {
                return true;
            }
            !has_vertex(items, Name { number: *head })
        }
        Item::Rect { .. } => true,
        Item::Face { .. } => true,
        Item::Label { .. } => false,
    }
}
