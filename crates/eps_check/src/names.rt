//! Where the vertices of a picture stand, by their names, and whether each item is what a clean picture may have.
//!
//! The list of vertices and the places that are looked up in it are not trusted: each answer is tested on the items.

ghost use Rattle.std.specs.Prelude.{◌≡◌, ◌≤◌, ◌<◌, ◌<ℤ◌, ◌^◌, IsTrue, length, Some, All};
ghost use Rattle.st_shape.specs.Clean.{IsVertexNamed};
ghost use Rattle.st_shape.specs.Meeting.{IsOnGrid};
ghost use Rattle.eps_check.specs.Names.{AreDistinct, AreInPlace, IsOnFigure, IsInPlace, IsLineInPlace, IsListed, IsOnVertex, IsVertexAt};
ghost use Rattle.eps_check.specs.Shapes.{IsOnSheet};

use st_ids::NoMemory;
use st_shape::{Form, Item, Point, Segment, is_rising, meet};
use std::alloc::Global;

/// The name of a vertex.
#[derive(Clone, Copy)]
pub struct Name {
    pub number: i64,
}

/// A vertex: its name, and its place among the items.
#[derive(Clone, Copy)]
pub struct Vertex {
    pub name: i64,
    pub place: u32,
}

/// The places of the vertices at which a line ends.
#[derive(Clone, Copy)]
pub struct Ends {
    pub tail: u32,
    pub head: u32,
}

/// The name of the item, where it is a vertex.
fn name_of(item: &Item) -> Option<i64> {
    match item {
        Item::Dot { name, .. } => Some(*name),
        Item::Bar { name, .. } => Some(*name),
        Item::Line { .. } => None,
        Item::Rect { .. } => None,
        Item::Face { .. } => None,
        Item::Label { .. } => None,
    }
}

/// The vertices among the items, by their names. Nothing is promised.
pub fn vertices_of(alloc: Global, items: &[Item]) -> Result<Vec<Vertex>, NoMemory>
    requires { length items.now < 2 ^ 31 }
{
    let mut vertices = Vec::new(alloc);
    for k in 0..items.len() {
        if let Some(name) = name_of(&items[k]) {
            let vertex = Vertex {
                name,
                place: k as u32,
            };
            if vertices.push(vertex).is_err() {
                return Err(NoMemory);
            }
        }
    }
    vertices.sort_unstable_by_key(|v| v.name);
    Ok(vertices)
}

/// Whether the first name is less than the second.
fn is_less(s: Vertex, t: Vertex) -> bool
    ensures { IsTrue result → s.name <ℤ t.name }
{
    s.name < t.name
}

/// Whether each vertex of the list has a greater name than the one before.
pub fn are_distinct(vertices: &[Vertex]) -> bool
    ensures { IsTrue result → AreDistinct vertices.now (length vertices.now) }
{
    for k in 1..vertices.len() {
        if !is_less(vertices[k - 1], vertices[k]) {
            return false;
        }
    }
    true
}

/// Where the list may have a vertex of this name. Nothing is promised.
fn find(vertices: &[Vertex], name: i64) -> usize {
    vertices.partition_point(|v| v.name < name)
}

/// Whether the list has a vertex of this name at this place.
fn is_listed(vertices: &[Vertex], name: Name, k: u32) -> bool
    ensures { IsTrue result → IsListed vertices.now name.number k }
{
    let i = find(vertices, name.number);
    i < vertices.len() && vertices[i].name == name.number && vertices[i].place == k
}

/// The place of a vertex of this name. Nothing is promised.
fn place_of(vertices: &[Vertex], name: i64) -> Option<u32> {
    let i = find(vertices, name);
    if i < vertices.len() && vertices[i].name == name {
        return Some(vertices[i].place);
    }
    None
}

/// The places of the vertices at which the item ends, where it is a line and they are there. Nothing is promised.
fn ends_of_item(vertices: &[Vertex], item: &Item) -> Option<Ends> {
    match item {
        Item::Dot { .. } => None,
        Item::Bar { .. } => None,
        Item::Line { tail, head, .. } => {
            let tail = place_of(vertices, *tail)?;
            let head = place_of(vertices, *head)?;
            Some(Ends { tail, head })
        }
        Item::Rect { .. } => None,
        Item::Face { .. } => None,
        Item::Label { .. } => None,
    }
}

/// The places of the vertices at which each item ends. Nothing is promised.
pub fn ends_of(
    alloc: Global,
    vertices: &[Vertex],
    items: &[Item],
) -> Result<Vec<Option<Ends>>, NoMemory> {
    let mut ends = Vec::new(alloc);
    for item in items {
        if ends.push(ends_of_item(vertices, item)).is_err() {
            return Err(NoMemory);
        }
    }
    Ok(ends)
}

/// The ends of the item at a place.
pub fn ends_at(ends: &[Option<Ends>], k: usize) -> Option<Ends> {
    if k < ends.len() { ends[k] } else { None }
}

/// Whether the item is a vertex of this name, and the point lies on its figure.
fn is_vertex_at(item: &Item, name: Name, v: Point) -> bool
    requires item { IsOnSheet item.now }
    requires v { IsOnGrid v }
    ensures { IsTrue result → IsVertexAt item.now name.number v }
{
    let point = Segment { a: v, b: v };
    match item {
        Item::Dot { name: own, p } => *own == name.number && meet(point, Segment { a: *p, b: *p }),
        Item::Bar {
            name: own,
            y,
            from,
            to,
        } => {
            let a = Point { x: *from, y: *y };
            let b = Point { x: *to, y: *y };
            *own == name.number && meet(point, Segment { a, b })
        }
        Item::Line { .. } => false,
        Item::Rect { .. } => false,
        Item::Face { .. } => false,
        Item::Label { .. } => false,
    }
}

/// Whether the item at this place is a vertex of this name, and the point lies on its figure.
fn is_on_vertex(items: &[Item], place: u32, name: Name, v: Point) -> bool
    requires sheet { All (λ e. IsOnSheet e) items.now }
    requires v { IsOnGrid v }
    ensures { IsTrue result → IsOnVertex items.now name.number v }
{
    let place = place as usize;
    place < items.len() && is_vertex_at(&items[place], name, v)
}

/// Whether a line rises, and its ends lie on the figures of its tail and its head, which are at these places.
fn is_line_in_place(
    form: Form,
    items: &[Item],
    ends: Ends,
    tail: Name,
    head: Name,
    points: &[Point],
) -> bool
    requires sheet { All (λ e. IsOnSheet e) items.now }
    requires some { 2 ≤ length points.now }
    requires grid { All (λ p. IsOnGrid p) points.now }
    ensures { IsTrue result → IsLineInPlace form items.now tail.number head.number points.now }
{
    let last = points.len() - 1;
    is_rising(form, points)
        && is_on_vertex(items, ends.tail, tail, points[0])
        && is_on_vertex(items, ends.head, head, points[last])
}

/// Whether the item is one that a clean picture may have: a vertex that the list has at its place, a line that rises and
/// ends at its vertices, or a label. In a slanted view a bar isn't.
fn is_in_place(
    form: Form,
    slanted: bool,
    vertices: &[Vertex],
    ends: Option<Ends>,
    items: &[Item],
    k: u32,
    item: &Item,
) -> bool
    requires sheet { All (λ e. IsOnSheet e) items.now }
    requires item { IsOnSheet item.now }
    ensures { IsTrue result → IsInPlace form slanted vertices.now items.now k item.now }
{
    match item {
        Item::Dot { name, .. } => is_listed(vertices, Name { number: *name }, k),
        Item::Bar { name, .. } => !slanted && is_listed(vertices, Name { number: *name }, k),
        Item::Line {
            tail,
            head,
            points,
            ..
        } => match ends {
            Some(ends) => is_line_in_place(
                form,
                items,
                ends,
                Name { number: *tail },
                Name { number: *head },
                points.items(),
            ),
            None => false,
        },
        Item::Rect { .. } => false,
        Item::Face { .. } => false,
        Item::Label { .. } => true,
    }
}

/// Whether each item is one that a clean picture may have.
pub fn are_in_place(
    form: Form,
    slanted: bool,
    vertices: &[Vertex],
    ends: &[Option<Ends>],
    items: &[Item],
) -> bool
    requires sheet { All (λ e. IsOnSheet e) items.now }
    requires few { length items.now < 2 ^ 31 }
    ensures { IsTrue result → AreInPlace form slanted vertices.now items.now (length items.now) }
{
    for k in 0..items.len() {
        let own = ends_at(ends, k);
        if !is_in_place(form, slanted, vertices, own, items, k as u32, &items[k]) {
            return false;
        }
    }
    true
}
