//! What the two lines of an item may stand for.
//!
//! Nothing is checked here: where the lines are no item's, any item comes out, or none. The reader compares afterwards.
ghost use Rattle.std.specs.Prelude.{◌≡◌, ◌==◌, ◌<◌, ◌++◌, IfOk, OnOk, slice_index, false};
ghost use Rattle.eps_core.specs.Decoding.{dot_or_bar as dot_or_bar_of, line_or_box as line_or_box_of, decoded_label, decoded, decoded_post, decoded_bar, ends as ends_of, unescaped_from};

use crate::words::{behind, number, past_step, place, small_number, word};
use st_ids::{NoMemory, Text};
use st_shape::{Item, Point, Points};
use std::alloc::Global;

// Whether byte n is there and is b.
fn has_byte(s: &[u8], n: usize, b: u8) -> bool
    requires { 0 < b }
    ensures { result ≡ (slice_index s.now n == b) }
{
    n < s.len() && s[n] == b
}

// The bar at the height of `a`.
fn bar_between(name: i64, a: Point, b: Point) -> Item
    ensures { result ≡ decoded_bar name a b }
{
    Item::Bar {
        name,
        y: a.y,
        from: a.x,
        to: b.x,
    }
}

// The upright line of a face, at the place of `a`.
fn post_between(number: u32, a: Point, b: Point) -> Item
    ensures { result ≡ decoded_post number a b }
{
    Item::Face {
        number,
        x: a.x,
        from: a.y,
        to: b.y,
    }
}

// The dot or the bar that stands behind `newpath`.
#[tactic(auto, unfolding(crate::specs::Decoding::dot_or_bar, crate::specs::Decoding::past_place))]
fn dot_or_bar(name: i64, s: &[u8]) -> Item
    ensures { result ≡ dot_or_bar_of name s.now }
{
    let p = place(36, s);
    if has_byte(behind(behind(s)), 0, b'4') {
        return Item::Dot { name, p };
    }
    bar_between(name, p, place(36, past_step(s)))
}

// The line of an edge.
fn line_through(name: i64, tail: i64, head: i64, points: Points) -> Item
    ensures { result ≡ Item.Line name tail head points }
{
    Item::Line {
        name,
        tail,
        head,
        points,
    }
}

// The box of an edge.
fn box_between(name: i64, tail: i64, head: i64, low: Point, high: Point) -> Item
    ensures { result ≡ Item.Rect name tail head low high }
{
    Item::Rect {
        name,
        tail,
        head,
        low,
        high,
    }
}

// Whether `stroke` is next.
fn ends(s: &[u8]) -> bool
    ensures { result ≡ ends_of s.now }
{
    has_byte(s, 0, b's')
}

// The line or the box that stands behind `newpath`.
#[tactic(auto, unfolding(crate::specs::Decoding::line_or_box, crate::specs::Decoding::two_or_more, crate::specs::Decoding::three_or_more, crate::specs::Decoding::four_or_box))]
fn line_or_box(alloc: Global, name: i64, tail: i64, head: i64, s: &[u8]) -> Item
    ensures { result ≡ line_or_box_of name tail head s.now }
{
    let a = place(36, s);
    let s = past_step(s);
    let b = place(36, s);
    let s = past_step(s);
    if ends(s) {
        return line_through(name, tail, head, Points::two(alloc, a, b));
    }
    let c = place(36, s);
    let s = past_step(s);
    if ends(s) {
        return line_through(name, tail, head, Points::three(alloc, a, b, c));
    }
    let d = place(36, s);
    if ends(past_step(s)) {
        return line_through(name, tail, head, Points::four(alloc, a, b, c, d));
    }
    box_between(name, tail, head, a, c)
}

// Puts bytes at the end of a text, without the backslashes that mark others.
fn unescape(text: &mut Text, s: &[u8]) -> Result<(), NoMemory>
    ensures { OnOk result (text.new ≡ text.old ++ unescaped_from false s.now) }
{
    let mut marked = false;
    for b in s {
        if !marked && *b == b'\\' {
            marked = true;
        } else {
            text.append(&[*b])?;
            marked = false;
        }
    }
    Ok(())
}

// The text between `(` and `) show`.
#[tactic(auto, unfolding(crate::specs::Decoding::decoded_label))]
fn label_text(alloc: Global, t: &[u8]) -> Result<Text, NoMemory>
    ensures { IfOk result (λ text. text ≡ decoded_label t.now) }
{
    let mut text = Text::new(alloc);
    let t = if t.is_empty() { t } else { &t[1..] };
    let n = t.len().saturating_sub(6);
    unescape(&mut text, &t[..n])?;
    Ok(text)
}

// The label of a vertex.
fn label_at(name: i64, p: Point, text: Text) -> Item
    ensures { result ≡ Item.Label name p text }
{
    Item::Label { name, p, text }
}

/// What the two lines stand for, if they are those of an item.
#[tactic(auto, unfolding(crate::specs::Decoding::decoded))]
pub fn decode(alloc: Global, name: &[u8], mark: &[u8]) -> Result<Option<Item>, NoMemory>
    ensures { IfOk result (λ item. item ≡ decoded name.now mark.now) }
{
    let first = behind(name);
    if has_byte(name, 1, b'v') {
        return Ok(Some(dot_or_bar(number(word(first)), behind(mark))));
    }
    if has_byte(name, 1, b'e') {
        let second = behind(first);
        return Ok(Some(line_or_box(
            alloc,
            number(word(first)),
            number(word(second)),
            number(word(behind(second))),
            behind(mark),
        )));
    }
    if has_byte(name, 1, b'f') {
        let s = behind(mark);
        return Ok(Some(post_between(
            small_number(word(first)),
            place(36, s),
            place(36, past_step(s)),
        )));
    }
    if has_byte(name, 1, b'l') {
        let text = label_text(alloc, past_step(mark))?;
        return Ok(Some(label_at(number(word(first)), place(42, mark), text)));
    }
    Ok(None)
}
