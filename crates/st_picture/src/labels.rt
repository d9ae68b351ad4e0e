//! The labels of a picture.
ghost use Rattle.std.specs.Prelude.{◌≡◌, ◌+◌, ◌<◌, ◌^◌, ◌++◌, length, Some, IfOk, OnOk};
ghost use Rattle.st_picture.specs.Items.{HasFigures, IsFigure, IsFigureAt, label_items, labels, place_at, item_place};
ghost use Rattle.st_picture.specs.Naming.{HasLabels, label_text, vertex_name};

use st_ids::{Names, NoMemory, Text, VertexId};
use st_shape::{Item, Picture, Point};
use std::alloc::Global;

/// A copy of the text.
fn copied(alloc: Global, text: &Text) -> Result<Text, NoMemory>
    ensures { IfOk result (λ copy. copy ≡ text.now) }
{
    let mut copy = Text::new(alloc);
    copy.append(text.bytes())?;
    Ok(copy)
}

/// Where the label of a vertex stands that is drawn so: at its point, or at the left end of its bar.
fn place_of(item: &Item) -> Point
    ensures { result ≡ item_place item.now }
{
    match item {
        Item::Dot { p, .. } => *p,
        Item::Bar { y, from, .. } => Point { x: *from, y: *y },
        Item::Line { .. } => Point { x: 0, y: 0 },
        Item::Rect { .. } => Point { x: 0, y: 0 },
        Item::Face { .. } => Point { x: 0, y: 0 },
        Item::Label { .. } => Point { x: 0, y: 0 },
    }
}

/// Adds the label of the vertex, if it has one.
fn push_label(
    alloc: Global,
    picture: &mut Picture,
    names: &Names,
    v: VertexId,
) -> Result<(), NoMemory>
    requires names { HasLabels names.now }
    requires there { v.0 < length names.now.label }
    requires figure { IsFigureAt picture.old.items v.0 }
    requires room { length picture.old.items + 1 < 2 ^ 31 }
    ensures { OnOk result (picture.new ≡ record picture.old { items = picture.old.items ++ label_items (vertex_name names.now v.0) (place_at picture.old.items v.0) (label_text names.now v.0) }) }
{
    match names.label.get(v) {
        Some(text) => {
            let p = place_of(&picture.items()[v.0 as usize]);
            let name = *names.vertex.get(v);
            let text = copied(alloc, text)?;
            picture.push(Item::Label { name, p, text })
        }
        None => Ok(()),
    }
}

/// Adds the label of each vertex that has one, in the order of the vertices, at the vertex's point or at the left end of its
/// bar.
///
/// Condition: the picture begins with the vertices, each as a point or a bar, and the names have labels that can be shown.
/// Errors: `NoMemory`; the picture is dropped.
/// Cost: O(V) time, and the memory of the labels.
pub fn push_labels(alloc: Global, picture: Picture, names: &Names) -> Result<Picture, NoMemory>
    requires names { HasLabels names.now }
    requires figures { HasFigures picture.items (length names.now.label) }
    requires room { length picture.items + length names.now.label < 2 ^ 31 }
    ensures { IfOk result (λ d. d ≡ record picture { items = picture.items ++ labels names.now (place_at picture.items) (length names.now.label) }) }
{
    let mut picture = picture;
    for v in 0..names.label.len() {
        push_label(alloc, &mut picture, names, VertexId(v))?;
    }
    Ok(picture)
}
