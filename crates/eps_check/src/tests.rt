//! Small pictures of all forms, clean and spoiled, with their first faults; and larger ones that are found clean.
ghost use Rattle.std.specs.Prelude.{◌<◌, ◌≤◌};
ghost use Rattle.st_shape.specs.Rules.{IsFrame};

use crate::{certify, examine};
use st_ids::NoMemory;
use st_shape::{Fault, Form, Item, Picture, Point, Points, clean};
use std::alloc::Global;
use std::test::Fail;

/// An item of a row, by small numbers. The first of each is its name.
#[derive(Clone, Copy)]
enum Mark {
    Dot(i64, (u8, u8)),
    Bar(i64, u8, u8, u8),
    Line(i64, i64, i64, (u8, u8), (u8, u8)),
    Bend(i64, i64, i64, (u8, u8), (u8, u8), (u8, u8)),
    Rect(i64, (u8, u8), (u8, u8)),
    Face(u32, u8, u8, u8),
}

fn at(place: (u8, u8)) -> Point
    ensures { IsFrame result }
{
    Point {
        x: i64::from(place.0),
        y: i64::from(place.1),
    }
}

fn item_of(alloc: Global, mark: Mark) -> Item {
    match mark {
        Mark::Dot(name, p) => Item::Dot { name, p: at(p) },
        Mark::Bar(name, y, from, to) => Item::Bar {
            name,
            y: i64::from(y),
            from: i64::from(from),
            to: i64::from(to),
        },
        Mark::Line(name, tail, head, a, b) => Item::Line {
            name,
            tail,
            head,
            points: Points::two(alloc, at(a), at(b)),
        },
        Mark::Bend(name, tail, head, a, b, c) => Item::Line {
            name,
            tail,
            head,
            points: Points::three(alloc, at(a), at(b), at(c)),
        },
        Mark::Rect(name, low, high) => Item::Rect {
            name,
            tail: 0,
            head: 0,
            low: at(low),
            high: at(high),
        },
        Mark::Face(number, x, from, to) => Item::Face {
            number,
            x: i64::from(x),
            from: i64::from(from),
            to: i64::from(to),
        },
    }
}

/// Adds the item where it fits the frame.
fn add(picture: &mut Picture, item: Item) -> Result<(), NoMemory> {
    if picture.items().len() < 1000000 && item.fits(picture.frame()) {
        picture.push(item)?;
    }
    Ok(())
}

fn picture_of(
    alloc: Global,
    form: Form,
    frame: (u8, u8),
    marks: &[Mark],
) -> Result<Picture, NoMemory> {
    let mut picture = Picture::new(alloc, form, at(frame));
    for mark in marks {
        add(&mut picture, item_of(alloc, *mark))?;
    }
    Ok(picture)
}

/// A row: its name, the picture, its first fault, and whether the certificate says yes.
#[derive(Clone, Copy)]
struct Row<'a>(&'a str, Form, &'a [Mark], Option<Fault>, bool);

fn pair(first: u32, second: u32) -> Option<Fault> {
    Some(Fault::Pair { first, second })
}

fn alone(item: u32) -> Option<Fault> {
    Some(Fault::Alone { item })
}

#[test]
fn small_pictures_have_these_faults(rt: HostRuntime) -> Result<(), Fail> {
    use Form::{Constrained, Dominance, Polyline, Tessellation, Visibility};
    use Mark::{Bar, Bend, Dot, Face, Line, Rect};
    let square = [
        Bar(1, 0, 0, 1),
        Bar(2, 1, 0, 0),
        Bar(3, 1, 1, 1),
        Bar(4, 2, 0, 1),
        Line(0, 1, 2, (0, 0), (0, 1)),
        Line(1, 1, 3, (1, 0), (1, 1)),
        Line(2, 2, 4, (0, 1), (0, 2)),
        Line(3, 3, 4, (1, 1), (1, 2)),
    ];
    let through = [
        Bar(1, 0, 0, 2),
        Bar(2, 1, 0, 2),
        Bar(3, 2, 0, 2),
        Line(0, 1, 3, (1, 0), (1, 2)),
    ];
    let a = Dot(1, (0, 0));
    let b = Dot(2, (0, 1));
    let c = Dot(3, (1, 0));
    let d = Dot(4, (1, 1));
    let top = Dot(4, (0, 2));
    let up = Line(0, 1, 4, (0, 0), (1, 1));
    let bend = Bend(1, 1, 4, (0, 0), (1, 1), (0, 2));
    let ways = [
        a,
        top,
        Bend(0, 1, 4, (0, 0), (2, 1), (0, 2)),
        Line(2, 1, 4, (0, 0), (0, 2)),
        bend,
    ];
    let sides = [
        a,
        b,
        c,
        d,
        up,
        Line(1, 1, 2, (0, 0), (0, 1)),
        Line(2, 1, 3, (0, 0), (1, 0)),
    ];
    let falls = [a, b, c, d, up, Line(1, 2, 3, (0, 1), (1, 0))];
    let level = [a, c, Line(0, 1, 3, (0, 0), (1, 0))];
    let crosses = [a, b, c, d, up, Line(1, 3, 2, (1, 0), (0, 1))];
    let away = [a, d, Line(0, 1, 7, (0, 0), (1, 1))];
    let off = [a, b, d, Line(0, 1, 2, (0, 0), (1, 1))];
    let same_name = [a, Dot(1, (1, 0))];
    let same_place = [a, Dot(2, (0, 0))];
    let passes = [a, c, top, b, Line(0, 1, 4, (0, 0), (0, 2))];
    let twice = [a, d, up, up];
    let bends = [a, top, bend, Bend(0, 1, 4, (0, 0), (1, 1), (0, 2))];
    let two_sources = [
        Dot(1, (0, 1)),
        Dot(2, (1, 1)),
        c,
        Line(0, 3, 1, (1, 0), (0, 1)),
    ];
    let post = [Face(0, 0, 0, 1)];
    let halves = [Rect(0, (0, 0), (1, 2)), Rect(1, (1, 0), (2, 2))];
    let overlap = [Rect(0, (0, 0), (2, 1)), Rect(1, (1, 0), (2, 2))];
    let gap = [Face(0, 0, 0, 1), Rect(0, (0, 0), (1, 2))];
    let with_bars = [
        Bar(1, 0, 0, 2),
        Rect(0, (0, 0), (1, 1)),
        Rect(1, (1, 0), (2, 2)),
        Bar(2, 1, 0, 1),
        Rect(2, (0, 1), (1, 2)),
        Bar(3, 2, 0, 2),
    ];
    let rows: [Row<'_>; 25] = [
        Row("nothing", Visibility, &[], None, true),
        Row("square", Visibility, &square, None, true),
        Row("square, constrained", Constrained, &square, None, true),
        Row("bars in dominance", Dominance, &square, None, false),
        Row(
            "line through a bar",
            Visibility,
            &through,
            pair(1, 3),
            false,
        ),
        Row("three ways", Polyline, &ways, None, true),
        Row("upright and level", Dominance, &sides, None, true),
        Row("level", Polyline, &level, alone(2), false),
        Row("falling line", Dominance, &falls, alone(5), false),
        Row("crossing", Polyline, &crosses, pair(4, 5), false),
        Row("head that isn't there", Polyline, &away, alone(2), false),
        Row("end off its vertex", Polyline, &off, pair(1, 3), false),
        Row("one name", Polyline, &same_name, pair(0, 1), false),
        Row("one place", Visibility, &same_place, pair(0, 1), false),
        Row("line through a dot", Polyline, &passes, pair(3, 4), false),
        Row("line twice", Polyline, &twice, pair(2, 3), false),
        Row("two bends at a point", Polyline, &bends, pair(2, 3), false),
        Row("two sources", Polyline, &two_sources, None, true),
        Row("face in a polyline", Polyline, &post, alone(0), false),
        Row("box in a polyline", Polyline, &halves, alone(0), false),
        Row("two halves", Tessellation, &halves, None, true),
        Row("boxes and bars", Tessellation, &with_bars, None, true),
        Row("overlap", Tessellation, &overlap, pair(0, 1), false),
        Row("gap", Tessellation, &gap, Some(Fault::Area), false),
        Row("no box", Tessellation, &[], Some(Fault::Area), false),
    ];
    for Row(name, form, marks, fault, found) in rows {
        let picture = picture_of(rt.alloc(), form, (2, 2), marks)?;
        assert_eq!(rt; certify(rt.alloc(), &picture)?, found, "{name}");
        assert_eq!(rt; examine(rt.alloc(), &picture)?, fault, "{name}");
        assert_eq!(rt; clean(&picture), fault, "{name}");
    }
    Ok(())
}

/// Numbers that look thrown, always the same.
#[derive(Drop)]
struct Dice {
    state: u64,
}

impl Dice {
    /// A number below `sides`.
    fn roll(&mut self, sides: u8) -> u8
        requires { 1 ≤ sides }
        ensures { result < sides }
    {
        self.state = self
            .state
            .wrapping_mul(6364136223846793005)
            .wrapping_add(1442695040888963407);
        ((self.state >> 33) % u64::from(sides)) as u8
    }

    fn spot(&mut self) -> (u8, u8) {
        (self.roll(5), self.roll(5))
    }
}

fn thrown_vertex(dice: &mut Dice, form: Form, name: i64, spot: (u8, u8)) -> Mark {
    if form != Form::Dominance && dice.roll(3) == 0 {
        return Mark::Bar(name, spot.1, spot.0, spot.0.saturating_add(dice.roll(2)));
    }
    Mark::Dot(name, spot)
}

/// A line between two of the spots, from the lower to the higher one.
fn thrown_line(dice: &mut Dice, number: u8, spots: &[(u8, u8); 4]) -> Mark {
    let a = dice.roll(4);
    let b = dice.roll(4);
    let (a, b) = if spots[a as usize].1 <= spots[b as usize].1 {
        (a, b)
    } else {
        (b, a)
    };
    let (from, to) = (spots[a as usize % 4], spots[b as usize % 4]);
    let (name, tail, head) = (i64::from(number), i64::from(a) + 1, i64::from(b) + 1);
    if dice.roll(3) == 0 {
        return Mark::Bend(name, tail, head, from, dice.spot(), to);
    }
    Mark::Line(name, tail, head, from, to)
}

/// Four vertices, up to four lines between them, and now and then a vertex more, maybe of a name that is there.
fn thrown_graph(alloc: Global, dice: &mut Dice, form: Form) -> Result<Picture, NoMemory> {
    let spots = [dice.spot(), dice.spot(), dice.spot(), dice.spot()];
    let mut picture = Picture::new(alloc, form, at((4, 4)));
    for k in 0..4u8 {
        let mark = thrown_vertex(dice, form, i64::from(k) + 1, spots[k as usize]);
        add(&mut picture, item_of(alloc, mark))?;
    }
    for k in 0..dice.roll(5) {
        let mark = thrown_line(dice, k, &spots);
        add(&mut picture, item_of(alloc, mark))?;
    }
    if dice.roll(8) == 0 {
        let mark = Mark::Dot(i64::from(dice.roll(6)) + 1, dice.spot());
        add(&mut picture, item_of(alloc, mark))?;
    }
    Ok(picture)
}

/// Boxes that tile the frame, and now and then one more.
fn thrown_boxes(alloc: Global, dice: &mut Dice) -> Result<Picture, NoMemory> {
    let mut picture = Picture::new(alloc, Form::Tessellation, at((4, 4)));
    let x = dice.roll(3) + 1;
    for (from, to) in [(0, x), (x, 4)] {
        let y = dice.roll(4) + 1;
        let low = Mark::Rect(1, (from, 0), (to, y));
        let high = Mark::Rect(2, (from, y), (to, 4));
        add(&mut picture, item_of(alloc, low))?;
        add(&mut picture, item_of(alloc, high))?;
    }
    if dice.roll(4) == 0 {
        let (x, y) = (dice.roll(4), dice.roll(4));
        let more = Mark::Rect(3, (x, y), (x + 1, y + 1));
        add(&mut picture, item_of(alloc, more))?;
    }
    Ok(picture)
}

fn thrown(alloc: Global, dice: &mut Dice, form: Form) -> Result<Picture, NoMemory> {
    if form == Form::Tessellation {
        return thrown_boxes(alloc, dice);
    }
    thrown_graph(alloc, dice, form)
}

#[test]
fn thrown_pictures_are_examined_as_by_pairs(rt: HostRuntime) -> Result<(), Fail> {
    let mut dice = Dice { state: 1 };
    for form in [
        Form::Visibility,
        Form::Tessellation,
        Form::Constrained,
        Form::Polyline,
        Form::Dominance,
    ] {
        let mut right = 0u32;
        for k in 0..1000u32 {
            let picture = thrown(rt.alloc(), &mut dice, form)?;
            let fault = clean(&picture);
            assert_eq!(rt; examine(rt.alloc(), &picture)?, fault, "{form:?} {k}");
            assert_eq!(rt;
                certify(rt.alloc(), &picture)?,
                fault.is_none(),
                "{form:?} {k}"
            );
            if fault.is_none() {
                right = right.saturating_add(1);
            }
        }
        assert!(rt; 50 <= right && right <= 950, "{form:?} {right}");
    }
    Ok(())
}

/// Lines from one dot to another, each with a bend right of the one before, at one height or higher; and perhaps a dot left
/// of all, where no line begins.
fn fan(alloc: Global, count: u32, level: bool, lone: bool) -> Result<Picture, NoMemory>
    requires { count ≤ 1000000 }
{
    let last = i64::from(count) + 2;
    let frame = Point { x: last, y: last };
    let mut picture = Picture::new(alloc, Form::Polyline, frame);
    let low = Point { x: 0, y: 0 };
    let high = Point { x: 0, y: last };
    add(&mut picture, Item::Dot { name: 1, p: low })?;
    add(&mut picture, Item::Dot { name: 2, p: high })?;
    if lone {
        let p = Point { x: 0, y: 1 };
        add(&mut picture, Item::Dot { name: 3, p })?;
    }
    for k in 0..count {
        let x = i64::from(k) + 1;
        let bend = Point {
            x,
            y: if level { 1 } else { x + 1 },
        };
        let points = Points::three(alloc, low, bend, high);
        let line = Item::Line {
            name: x,
            tail: 1,
            head: 2,
            points,
        };
        add(&mut picture, line)?;
    }
    Ok(picture)
}

#[test]
fn fans_are_found_clean(rt: HostRuntime) -> Result<(), Fail> {
    for (level, lone, items) in [
        (false, false, 3002),
        (true, false, 3002),
        (false, true, 3003),
        (true, true, 3003),
    ] {
        let picture = fan(rt.alloc(), 3000, level, lone)?;
        assert_eq!(rt; picture.items().len(), items);
        assert!(rt; certify(rt.alloc(), &picture)?);
    }
    Ok(())
}
