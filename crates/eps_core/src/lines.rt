//! The lines of a text: those before the items, the two of an item, the last one.
ghost use Rattle.std.specs.Prelude.{◌≡◌, ◌==◌, ◌||◌, IsTrue, ◌+◌, ◌*◌, ◌<◌, ◌≤◌, ◌^◌, [], ◌∷◌, ◌++◌, length, pos, codes, List, ℕ};
ghost use Rattle.std.specs.List.{AllByRecursion};
ghost use Rattle.std.specs.Fmt.{signed_decimal};
ghost use Rattle.st_shape.specs.Inside.{IsInside, point};
ghost use Rattle.st_shape.specs.Rules.{FitsFrame, HasNames};
ghost use Rattle.eps_core.specs.Grid.{corner, IsInLargestFrame, AreInLargestFrame};
ghost use Rattle.eps_core.specs.Text.{coordinate, spaced_words, path, line_words, escaped, name_line as name_text, mark_line as mark_text, form_name, front_lines, printed};

use crate::line::Line;
use st_shape::{Form, Item, Point};

// A line that begins so.
fn new_line(start: &[u8]) -> Line
    requires { length start.now ≤ 40 }
    ensures { result ≡ start.now }
{
    let mut line = Line::new();
    line.put(start);
    line
}

// The first line of an item with one name.
#[inline(always)]
fn one_name(line: &mut Line, start: &[u8], name: i64)
    requires { length start.now ≡ 2 }
    ensures text { line.new ≡ spaced_words start.now (signed_decimal name ∷ []) }
    ensures short { length line.new ≤ 255 }
{
    line.start(start);
    line.number(name);
}

// The first line of an edge: its name and those of its tail and head.
fn three_names(line: &mut Line, name: i64, tail: i64, head: i64)
    ensures text { line.new ≡ spaced_words (codes "%e") (signed_decimal name ∷ signed_decimal tail ∷ signed_decimal head ∷ []) }
    ensures short { length line.new ≤ 255 }
{
    line.start(b"%e");
    line.number(name);
    line.number(tail);
    line.number(head);
}

/// Builds the first line of an item, in place of what the line was.
pub fn name_line(line: &mut Line, item: &Item)
    ensures text { line.new ≡ name_text item.now }
    ensures names { HasNames item.now }
    ensures short { length line.new ≤ 255 }
{
    match item {
        Item::Dot { name, .. } => one_name(line, b"%v", *name),
        Item::Bar { name, .. } => one_name(line, b"%v", *name),
        Item::Line {
            name,
            tail,
            head,
            ..
        } => three_names(line, *name, *tail, *head),
        Item::Rect {
            name,
            tail,
            head,
            ..
        } => three_names(line, *name, *tail, *head),
        Item::Face { number, .. } => one_name(line, b"%f", *number as i64),
        Item::Label { name, .. } => one_name(line, b"%l", *name),
    }
}

// Puts a point at the end.
#[inline(always)]
fn place(line: &mut Line, p: Point)
    requires room { length line.old + 42 ≤ 256 }
    requires on_grid { IsInLargestFrame p }
    ensures text { line.new ≡ spaced_words line.old (coordinate p.x ∷ coordinate p.y ∷ []) }
    ensures len { length line.new ≤ length line.old + 42 }
{
    line.at(p.x);
    line.at(p.y);
}

// Puts a point and a command at the end.
#[inline(always)]
fn step(line: &mut Line, p: Point, command: &[u8])
    requires room { length line.old + 52 ≤ 256 }
    requires command { length command.now ≤ 9 }
    requires on_grid { IsInLargestFrame p }
    ensures text { line.new ≡ spaced_words line.old (coordinate p.x ∷ coordinate p.y ∷ command.now ∷ []) }
    ensures len { length line.new ≤ length line.old + (43 + length command.now) }
{
    place(line, p);
    line.word(command);
}

// The second line of a dot.
fn dot_line(line: &mut Line, p: Point)
    requires { IsInLargestFrame p }
    ensures text { line.new ≡ spaced_words (codes "newpath") (coordinate p.x ∷ coordinate p.y ∷ codes "4" ∷ codes "0" ∷ codes "360" ∷ codes "arc" ∷ codes "fill" ∷ []) }
    ensures short { length line.new ≤ 255 }
{
    line.start(b"newpath");
    place(line, p);
    line.word(b"4");
    line.word(b"0");
    line.word(b"360");
    line.word(b"arc");
    line.word(b"fill");
}

// The second line of a bar or a face, which is a line between two points.
fn pair_line(line: &mut Line, a: Point, b: Point)
    requires a { IsInLargestFrame a }
    requires b { IsInLargestFrame b }
    ensures text { line.new ≡ spaced_words (codes "newpath") (coordinate a.x ∷ coordinate a.y ∷ codes "moveto" ∷ coordinate b.x ∷ coordinate b.y ∷ codes "lineto" ∷ codes "stroke" ∷ []) }
    ensures short { length line.new ≤ 255 }
{
    line.start(b"newpath");
    step(line, a, b"moveto");
    step(line, b, b"lineto");
    line.word(b"stroke");
}

// Puts the further points of a line, and its end. It calls itself once for each point, of which there are at most 3.
fn go_on(line: &mut Line, points: &[Point])
    requires room { length line.old + (49 * length points.now + 7) ≤ 256 }
    requires on_grid { AreInLargestFrame points.now }
    ensures text { line.new ≡ spaced_words line.old (path points.now) }
    ensures len { length line.new ≤ length line.old + (49 * length points.now + 7) }
{
    match points {
        [] => line.word(b"stroke"),
        [p, rest @ ..] => {
            step(line, *p, b"lineto");
            go_on(line, rest);
        }
    }
}

// The second line of an edge that is drawn through points.
fn path_line(line: &mut Line, points: &[Point])
    requires some { 2 ≤ length points.now }
    requires few { length points.now ≤ 4 }
    requires on_grid { AreInLargestFrame points.now }
    ensures text { line.new ≡ spaced_words (codes "newpath") (line_words points.now) }
    ensures short { length line.new ≤ 255 }
{
    line.start(b"newpath");
    if let [p, rest @ ..] = points {
        step(line, *p, b"moveto");
        go_on(line, rest);
    }
}

// The second line of an edge that is drawn as a box.
fn box_line(line: &mut Line, low: Point, high: Point)
    requires low { IsInLargestFrame low }
    requires high { IsInLargestFrame high }
    ensures text { line.new ≡ mark_text (Item.Rect (pos 0) (pos 0) (pos 0) low high) }
    ensures short { length line.new ≤ 255 }
{
    line.start(b"newpath");
    step(line, low, b"moveto");
    step(
        line,
        Point {
            x: high.x,
            y: low.y,
        },
        b"lineto",
    );
    step(line, high, b"lineto");
    step(
        line,
        Point {
            x: low.x,
            y: high.y,
        },
        b"lineto",
    );
    line.word(b"closepath");
    line.word(b"stroke");
}

// Whether no byte needs a backslash. It may be false of a text that needs none.
fn is_bare(text: &[u8]) -> bool
    ensures { IsTrue result → escaped text.now ≡ text.now }
{
    for b in text {
        if needs_backslash(*b) {
            return false;
        }
    }
    true
}

// Whether this is a bracket or a backslash.
#[inline(always)]
fn needs_backslash(b: u8) -> bool
    ensures { result ≡ (b == 40 || b == 41 || b == 92) }
{
    b == b'(' || b == b')' || b == b'\\'
}

// Puts a text, with a backslash before brackets and backslashes. It calls itself once for each byte, of which there are at
// most 80.
fn escape(line: &mut Line, text: &[u8])
    requires { length line.old + 2 * length text.now ≤ 256 }
    ensures text { line.new ≡ line.old ++ escaped text.now }
    ensures len { length line.new ≤ length line.old + 2 * length text.now }
{
    match text {
        [] => {}
        [b, rest @ ..] => {
            if needs_backslash(*b) {
                line.put(b"\\");
            }
            line.put(&[*b]);
            escape(line, rest);
        }
    }
}

// Puts a text, whole where no byte needs a backslash.
fn put_label(line: &mut Line, text: &[u8])
    requires { length line.old + 2 * length text.now ≤ 256 }
    ensures text { line.new ≡ line.old ++ escaped text.now }
    ensures len { length line.new ≤ length line.old + 2 * length text.now }
{
    if is_bare(text) {
        line.put(text);
    } else {
        escape(line, text);
    }
}

// Puts a text in brackets.
fn bracket(line: &mut Line, text: &[u8])
    requires { length line.old + (2 * length text.now + 3) ≤ 256 }
    ensures text { line.new ≡ line.old ++ 32 ∷ 40 ∷ (escaped text.now ++ 41 ∷ []) }
    ensures len { length line.new ≤ length line.old + (2 * length text.now + 3) }
{
    line.word(b"(");
    put_label(line, text);
    line.put(b")");
}

// The second line of a label.
fn label_line(line: &mut Line, p: Point, text: &[u8])
    requires on_grid { IsInLargestFrame p }
    requires few { length text.now ≤ 80 }
    ensures text { line.new ≡ mark_text (Item.Label (pos 0) p text.now) }
    ensures short { length line.new ≤ 255 }
{
    line.start_beside(p.x);
    line.beside(p.y);
    line.word(b"moveto");
    bracket(line, text);
    line.word(b"show");
}

/// Builds the second line of an item, in place of what the line was.
pub fn mark_line(line: &mut Line, item: &Item)
    requires { FitsFrame corner item.now }
    ensures text { line.new ≡ mark_text item.now }
    ensures short { length line.new ≤ 255 }
{
    match item {
        Item::Dot { p, .. } => dot_line(line, *p),
        Item::Bar { y, from, to, .. } => {
            pair_line(line, Point { x: *from, y: *y }, Point { x: *to, y: *y })
        }
        Item::Line { points, .. } => path_line(line, points.items()),
        Item::Rect { low, high, .. } => box_line(line, *low, *high),
        Item::Face { x, from, to, .. } => {
            pair_line(line, Point { x: *x, y: *from }, Point { x: *x, y: *to })
        }
        Item::Label { p, text, .. } => label_line(line, *p, text.bytes()),
    }
}

// The line of the bounding box.
fn box_words(frame: Point) -> Line
    requires { IsInLargestFrame frame }
    ensures text { result ≡ spaced_words (codes "%%BoundingBox:") (codes "0" ∷ codes "0" ∷ signed_decimal (printed 72 frame.x) ∷ signed_decimal (printed 72 frame.y) ∷ []) }
    ensures short { length result ≤ 255 }
{
    let mut line = new_line(b"%%BoundingBox:");
    line.word(b"0");
    line.word(b"0");
    line.edge(frame.x);
    line.edge(frame.y);
    line
}

// The line of the title.
fn title(form: Form) -> Line
    ensures text { result ≡ spaced_words (codes "%%Title:") (form_name form ∷ []) }
    ensures short { length result ≤ 255 }
{
    let mut line = new_line(b"%%Title:");
    match form {
        Form::Visibility => line.word(b"visibility"),
        Form::Tessellation => line.word(b"tessellation"),
        Form::Constrained => line.word(b"constrained"),
        Form::Polyline => line.word(b"polyline"),
        Form::Dominance => line.word(b"dominance"),
    }
    line
}

/// The lines before the items.
pub fn front(form: Form, frame: Point) -> [Line; 6]
    requires { IsInLargestFrame frame }
    ensures text { result ≡ front_lines form frame }
    ensures short { AllByRecursion (λ (l : List ℕ). length l ≤ 255) result }
{
    [
        new_line(b"%!PS-Adobe-3.0 EPSF-3.0"),
        box_words(frame),
        title(form),
        new_line(b"%%EndComments"),
        new_line(b"/Helvetica findfont 10 scalefont setfont"),
        new_line(b"1 setlinewidth 1 setlinecap"),
    ]
}

/// The last line.
pub fn last_line() -> Line
    ensures { result ≡ codes "%%EOF" }
{
    new_line(b"%%EOF")
}
