//! Orders of items from left to right. Nothing is promised of them: where an order doesn't fit, the sweep finds no place for
//! some strip.

ghost use Rattle.std.specs.Prelude.{◌<◌, ◌^◌, ◌≤◌, length};

use crate::names::{Ends, ends_at};
use st_ids::NoMemory;
use st_shape::{Item, Point};
use std::alloc::Global;

/// The number, or 0 where it is negative or too large.
fn number_of(x: i64) -> u32 {
    u32::try_from(x).unwrap_or(0)
}

/// The least x of an item.
fn left_of(item: &Item) -> u32 {
    match item {
        Item::Dot { p, .. } => number_of(p.x),
        Item::Bar { from, .. } => number_of(*from),
        Item::Line { points, .. } => {
            let mut least = u32::MAX;
            for p in points.items() {
                least = least.min(number_of(p.x));
            }
            least
        }
        Item::Rect { low, .. } => number_of(low.x),
        Item::Face { .. } => 0,
        Item::Label { .. } => 0,
    }
}

/// Adds a number.
pub fn add(list: &mut Vec<u32>, number: u32) -> Result<(), NoMemory> {
    match list.push(number) {
        Ok(()) => Ok(()),
        Err(_) => Err(NoMemory),
    }
}

/// The least x of each item: an order from left to right for boxes, and where all lines are upright.
pub fn left_ranks(alloc: Global, items: &[Item]) -> Result<Vec<u32>, NoMemory> {
    let mut ranks = Vec::new(alloc);
    for item in items {
        add(&mut ranks, left_of(item))?;
    }
    Ok(ranks)
}

/// Whether all points have one x.
fn is_upright(points: &[Point]) -> bool {
    for k in 1..points.len() {
        if points[k].x != points[k - 1].x {
            return false;
        }
    }
    true
}

/// Whether all lines are upright.
fn are_upright(items: &[Item]) -> bool {
    for item in items {
        if let Item::Line { points, .. } = item {
            if !is_upright(points.items()) {
                return false;
            }
        }
    }
    true
}

/// How high a point lies: the sum of its coordinates in a slanted view, else y.
fn height_of(slanted: bool, p: Point) -> u32 {
    if slanted {
        number_of(p.x).saturating_add(number_of(p.y))
    } else {
        number_of(p.y)
    }
}

/// How far right the way from `p` to `q` leads for each unit that it rises, plus 2^32, times 2^60.
fn slope_of(slanted: bool, p: Point, q: Point) -> u128 {
    let rise = height_of(slanted, q)
        .saturating_sub(height_of(slanted, p))
        .max(1);
    let right = u128::from(number_of(q.x)) + 4294967296 * u128::from(rise)
        - u128::from(number_of(p.x));
    right * 1152921504606846976 / u128::from(rise)
}

/// Where a line begins: at which vertex, at which x and in which direction. In this order lines begin from left to right.
#[derive(Clone, Copy)]
struct Start {
    vertex: u32,
    x: u32,
    slope: u128,
    line: u32,
}

/// Where the lines begin, vertex by vertex from left to right.
fn starts_of(
    alloc: Global,
    slanted: bool,
    ends: &[Option<Ends>],
    items: &[Item],
) -> Result<Vec<Start>, NoMemory>
    requires { length items.now < 2 ^ 31 }
{
    let mut starts = Vec::new(alloc);
    for k in 0..items.len() {
        if let Item::Line { points, .. } = &items[k] {
            if let Some(own) = ends_at(ends, k) {
                let points = points.items();
                let start = Start {
                    vertex: own.tail,
                    x: number_of(points[0].x),
                    slope: slope_of(slanted, points[0], points[1]),
                    line: k as u32,
                };
                if starts.push(start).is_err() {
                    return Err(NoMemory);
                }
            }
        }
    }
    starts.sort_unstable_by_key(|s| (s.vertex, s.x, s.slope));
    Ok(starts)
}

/// Whether the item is a vertex.
fn is_vertex(item: &Item) -> bool {
    match item {
        Item::Dot { .. } => true,
        Item::Bar { .. } => true,
        Item::Line { .. } => false,
        Item::Rect { .. } => false,
        Item::Face { .. } => false,
        Item::Label { .. } => false,
    }
}

/// A list of zeros.
pub fn zeros(alloc: Global, n: usize) -> Result<Vec<u32>, NoMemory> {
    let mut list = Vec::new(alloc);
    for _ in 0..n {
        add(&mut list, 0)?;
    }
    Ok(list)
}

/// Writes a number where the list has the place.
pub fn write(list: &mut Vec<u32>, k: u32, number: u32) {
    let k = k as usize;
    if k < list.len() {
        list[k] = number;
    }
}

/// The number at a place, or 0 where the list ends before it.
pub fn read(list: &[u32], k: u32) -> u32 {
    let k = k as usize;
    if k < list.len() { list[k] } else { 0 }
}

/// How many lines end at each item.
fn waits_of(alloc: Global, ends: &[Option<Ends>]) -> Result<Vec<u32>, NoMemory> {
    let mut waits = zeros(alloc, ends.len())?;
    for own in ends {
        if let Some(own) = own {
            let count = read(&waits, own.head).saturating_add(1);
            write(&mut waits, own.head, count);
        }
    }
    Ok(waits)
}

/// The vertices where no line ends, from right to left.
fn sources_of(alloc: Global, waits: &[u32], items: &[Item]) -> Result<Vec<u32>, NoMemory>
    requires { length items.now < 2 ^ 31 }
{
    let mut places = Vec::new(alloc);
    for k in 0..items.len() {
        if is_vertex(&items[k]) && read(waits, k as u32) == 0 {
            if places.push((left_of(&items[k]), k as u32)).is_err() {
                return Err(NoMemory);
            }
        }
    }
    places.sort_unstable();
    let mut sources = Vec::new(alloc);
    for place in places.iter().rev() {
        add(&mut sources, place.1)?;
    }
    Ok(sources)
}

/// Adds the lines that begin at the vertex, from right to left.
fn add_starts(stack: &mut Vec<u32>, starts: &[Start], vertex: u32) -> Result<(), NoMemory> {
    let from = starts.partition_point(|s| s.vertex < vertex);
    let to = starts.partition_point(|s| s.vertex <= vertex);
    for i in (from..to).rev() {
        if i < starts.len() {
            add(stack, starts[i].line)?;
        }
    }
    Ok(())
}

/// An order along the lines, the leftmost first: a line comes after its tail, and a vertex after all lines that end there.
/// Where the picture is a clean drawing of a graph with one source, each item comes after those that lie left of it.
fn ranks_along(
    alloc: Global,
    slanted: bool,
    ends: &[Option<Ends>],
    items: &[Item],
) -> Result<Vec<u32>, NoMemory>
    requires { length items.now < 2 ^ 31 }
{
    let starts = starts_of(alloc, slanted, ends, items)?;
    let mut waits = waits_of(alloc, ends)?;
    let mut stack = sources_of(alloc, &waits, items)?;
    let mut ranks = zeros(alloc, items.len())?;
    for next in 0..items.len() {
        let Some(k) = stack.pop() else {
            return Ok(ranks);
        };
        write(&mut ranks, k, next as u32);
        add_starts(&mut stack, &starts, k)?;
        if let Some(own) = ends_at(ends, k as usize) {
            let count = read(&waits, own.head).saturating_sub(1);
            write(&mut waits, own.head, count);
            if count == 0 {
                add(&mut stack, own.head)?;
            }
        }
    }
    Ok(ranks)
}

/// An order of items from left to right.
pub fn ranks_of(
    alloc: Global,
    slanted: bool,
    ends: &[Option<Ends>],
    items: &[Item],
) -> Result<Vec<u32>, NoMemory>
    requires { length items.now < 2 ^ 31 }
{
    if !slanted && are_upright(items) {
        return left_ranks(alloc, items);
    }
    ranks_along(alloc, slanted, ends, items)
}
