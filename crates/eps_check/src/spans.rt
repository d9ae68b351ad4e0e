//! Spans: what each two items of a faulty pair have in common, a height or a name, as ranges of numbers that overlap.

ghost use Rattle.std.specs.Prelude.{◌≡◌, ◌≤◌, ◌<◌, ◌+◌, ◌^◌, ◌++◌, ◌∷◌, [], IfOk, OnOk, length, nat_abs, slice_get, Some, ℕ};
ghost use Rattle.std.specs.List.Sorted.{IsNonDecreasingBy};
ghost use Rattle.st_shape.specs.declared.point.Point.{Point};
ghost use Rattle.st_shape.specs.declared.point.Segment.{Segment};
ghost use Rattle.st_shape.specs.Clean.{line, shape_of, vertex};
ghost use Rattle.eps_check.specs.Pairs.{AreSorted};
ghost use Rattle.eps_check.specs.Spans.{AreSpanned, end_span, IsSpanned, IsInSpan, KeepsSpans, name_key, low_of, vertex_span};

use crate::names::Name;
use st_ids::NoMemory;
use st_shape::{Item, Point};
use std::alloc::Global;

/// A range of numbers of an item: its heights, or one that its name gives.
#[derive(Clone, Copy)]
pub struct Span {
    pub low: u64,
    pub high: u64,
    pub item: u32,
}

/// The number of a name, above all heights. Few names share one.
fn key_of(name: Name) -> u64
    ensures value { result ≡ name_key name.number }
    ensures most { result ≤ 9223372036854775806 }
{
    4611686018427387904 + 2 * (name.number.unsigned_abs() % 2305843009213693952)
}

/// The span of a vertex by its name.
fn vertex_span(k: u32, name: Name) -> Span
    ensures { result ≡ vertex_span k name.number }
{
    let low = key_of(name);
    Span {
        low,
        high: low + 1,
        item: k,
    }
}

/// The span of a line by the name of an end. It overlaps those of vertices of that name, and of no line.
fn end_span(k: u32, name: Name) -> Span
    ensures { result ≡ end_span k name.number }
{
    let high = key_of(name);
    Span {
        low: high + 1,
        high,
        item: k,
    }
}

/// How high a point lies.
fn height_of(p: Point) -> u64
    ensures { result ≡ nat_abs p.y }
{
    p.y.unsigned_abs()
}

/// The span of a vertex by its height.
fn level_span(k: u32, p: Point) -> Span
    ensures { result ≡ record { low = nat_abs p.y; high = nat_abs p.y; item = k } }
{
    let y = height_of(p);
    Span {
        low: y,
        high: y,
        item: k,
    }
}

/// The span of a line by its heights.
fn range_of(k: u32, points: &[Point]) -> Span
    ensures item { result.item ≡ k }
    ensures covers { (j : ℕ) (v : Point) → slice_get points.now j ≡ Some v → IsInSpan result v }
{
    let mut low = u64::MAX;
    let mut high = 0;
    for m in 0..points.len() {
        let y = height_of(points[m]);
        low = low.min(y);
        high = high.max(y);
    }
    Span { low, high, item: k }
}

/// Adds a span.
fn add(spans: &mut Vec<Span>, s: Span) -> Result<(), NoMemory>
    ensures { OnOk result (spans.new.items ≡ spans.old.items ++ s ∷ []) }
{
    match spans.push(s) {
        Ok(()) => Ok(()),
        Err(_) => Err(NoMemory),
    }
}

/// Adds the spans of a vertex, whose figure lies as high as the point.
fn add_vertex(spans: &mut Vec<Span>, k: u32, name: Name, p: Point) -> Result<(), NoMemory>
    ensures keeps { OnOk result (KeepsSpans spans.old.items spans.new.items) }
    ensures has { OnOk result ((s : Segment) → s.a.y ≡ p.y → s.b.y ≡ p.y → IsSpanned spans.new.items k (vertex name.number s)) }
{
    add(spans, level_span(k, p))?;
    add(spans, vertex_span(k, name))
}

/// Adds the spans of a line.
fn add_line(
    spans: &mut Vec<Span>,
    k: u32,
    tail: Name,
    head: Name,
    points: &[Point],
) -> Result<(), NoMemory>
    ensures keeps { OnOk result (KeepsSpans spans.old.items spans.new.items) }
    ensures has { OnOk result (IsSpanned spans.new.items k (line tail.number head.number points.now)) }
{
    add(spans, range_of(k, points))?;
    add(spans, end_span(k, tail))?;
    add(spans, end_span(k, head))
}

/// Adds the spans of an item. A box, a face and a label have none.
fn add_spans(spans: &mut Vec<Span>, k: u32, item: &Item) -> Result<(), NoMemory>
    ensures keeps { OnOk result (KeepsSpans spans.old.items spans.new.items) }
    ensures has { OnOk result (IsSpanned spans.new.items k (shape_of item.now)) }
{
    match item {
        Item::Dot { name, p } => add_vertex(spans, k, Name { number: *name }, *p),
        Item::Bar { name, y, from, .. } => {
            add_vertex(spans, k, Name { number: *name }, Point { x: *from, y: *y })
        }
        Item::Line {
            tail,
            head,
            points,
            ..
        } => add_line(
            spans,
            k,
            Name { number: *tail },
            Name { number: *head },
            points.items(),
        ),
        Item::Rect { .. } => Ok(()),
        Item::Face { .. } => Ok(()),
        Item::Label { .. } => Ok(()),
    }
}

/// The spans of all items.
///
/// Memory: 24 bytes a span; a vertex has two, a line three.
fn spans_of(alloc: Global, items: &[Item]) -> Result<Vec<Span>, NoMemory>
    requires { length items.now < 2 ^ 31 }
    ensures { IfOk result (λ spans. AreSpanned items.now (length items.now) spans.items) }
{
    let mut spans = Vec::new(alloc);
    for k in 0..items.len() {
        add_spans(&mut spans, k as u32, &items[k])?;
    }
    Ok(spans)
}

/// The spans of all items, by their low ends.
pub fn sorted_spans(alloc: Global, items: &[Item]) -> Result<Vec<Span>, NoMemory>
    requires { length items.now < 2 ^ 31 }
    ensures has { IfOk result (λ spans. AreSpanned items.now (length items.now) spans.items) }
    ensures sorted { IfOk result (λ spans. AreSorted spans.items) }
{
    let mut spans = spans_of(alloc, items)?;
    spans.sort_unstable_by_key(|s| s.low);
    Ok(spans)
}
