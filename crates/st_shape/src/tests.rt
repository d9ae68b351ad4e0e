//! Small pictures with what is wrong with each, and segments that meet or don't.
ghost use Rattle.st_shape.specs.Meeting.{IsOnGrid};
ghost use Rattle.st_shape.specs.Rules.{IsFrame};

use crate::{Fault, Form, Item, Picture, Point, Points, Segment, Turn, clean, meet, turn};
use st_ids::Text;
use std::alloc::{AllocError, Global};

/// An item of a row, by small numbers. The first of each is its name.
#[derive(Clone, Copy)]
enum Mark {
    Dot(i64, (u8, u8)),
    Bar(i64, u8, u8, u8),
    Line(i64, i64, i64, (u8, u8), (u8, u8)),
    Rect(i64, (u8, u8), (u8, u8)),
    Face(u32, u8, u8, u8),
}

fn at(place: (u8, u8)) -> Point
    ensures grid { IsOnGrid result }
    ensures frame { IsFrame result }
{
    Point {
        x: i64::from(place.0),
        y: i64::from(place.1),
    }
}

fn item_of(alloc: Global, mark: Mark) -> Item {
    match mark {
        Mark::Dot(name, p) => Item::Dot { name, p: at(p) },
        Mark::Bar(name, y, from, to) => Item::Bar {
            name,
            y: i64::from(y),
            from: i64::from(from),
            to: i64::from(to),
        },
        Mark::Line(name, tail, head, a, b) => Item::Line {
            name,
            tail,
            head,
            points: Points::two(alloc, at(a), at(b)),
        },
        Mark::Rect(name, low, high) => Item::Rect {
            name,
            tail: 0,
            head: 0,
            low: at(low),
            high: at(high),
        },
        Mark::Face(number, x, from, to) => Item::Face {
            number,
            x: i64::from(x),
            from: i64::from(from),
            to: i64::from(to),
        },
    }
}

fn picture_of(alloc: Global, form: Form, frame: (u8, u8), marks: &[Mark]) -> Option<Picture> {
    let mut picture = Picture::new(alloc, form, at(frame));
    for mark in marks {
        let item = item_of(alloc, *mark);
        if picture.items().len() > 100 || !item.fits(picture.frame()) {
            return None;
        }
        picture.push(item).ok()?;
    }
    Some(picture)
}

#[test]
fn the_first_fault_is_named(rt: HostRuntime) {
    use Mark::{Bar, Dot, Face, Line, Rect};
    let square = [
        Bar(1, 0, 0, 1),
        Bar(2, 1, 0, 0),
        Bar(3, 1, 1, 1),
        Bar(4, 2, 0, 1),
        Line(0, 1, 2, (0, 0), (0, 1)),
        Line(1, 1, 3, (1, 0), (1, 1)),
        Line(2, 2, 4, (0, 1), (0, 2)),
        Line(3, 3, 4, (1, 1), (1, 2)),
    ];
    let a = Dot(1, (0, 0));
    let b = Dot(2, (0, 1));
    let c = Dot(3, (1, 0));
    let d = Dot(4, (1, 1));
    let up = Line(0, 1, 4, (0, 0), (1, 1));
    let falls_in_y = [a, b, c, d, up, Line(1, 2, 3, (0, 1), (1, 0))];
    let falls_in_x = [a, b, c, d, up, Line(1, 2, 3, (1, 0), (0, 1))];
    let crosses = [a, b, c, d, up, Line(1, 3, 2, (1, 0), (0, 1))];
    let away = [a, d, Line(0, 1, 7, (0, 0), (1, 1))];
    let same_name = [a, Dot(1, (1, 0))];
    let passes = [a, c, Dot(4, (0, 2)), b, Line(0, 1, 4, (0, 0), (0, 2))];
    let post = [Face(0, 0, 0, 1)];
    let halves = [Rect(0, (0, 0), (1, 2)), Rect(1, (1, 0), (2, 2))];
    let overlap = [Rect(0, (0, 0), (2, 1)), Rect(1, (1, 0), (2, 2))];
    let gap = [Face(0, 0, 0, 1), Rect(0, (0, 0), (1, 2))];
    let rows: [(Form, (u8, u8), &[Mark], Option<Fault>); 12] = [
        (Form::Visibility, (1, 2), &square, None),
        (Form::Constrained, (1, 2), &square, None),
        (
            Form::Dominance,
            (1, 1),
            &falls_in_y,
            Some(Fault::Alone { item: 5 }),
        ),
        (
            Form::Dominance,
            (1, 1),
            &falls_in_x,
            Some(Fault::Alone { item: 5 }),
        ),
        (
            Form::Polyline,
            (1, 1),
            &crosses,
            Some(Fault::Pair {
                first: 4,
                second: 5,
            }),
        ),
        (
            Form::Polyline,
            (1, 1),
            &away,
            Some(Fault::Alone { item: 2 }),
        ),
        (
            Form::Polyline,
            (1, 1),
            &same_name,
            Some(Fault::Pair {
                first: 0,
                second: 1,
            }),
        ),
        (
            Form::Polyline,
            (1, 2),
            &passes,
            Some(Fault::Pair {
                first: 3,
                second: 4,
            }),
        ),
        (
            Form::Polyline,
            (1, 1),
            &post,
            Some(Fault::Alone { item: 0 }),
        ),
        (Form::Tessellation, (2, 2), &halves, None),
        (
            Form::Tessellation,
            (2, 2),
            &overlap,
            Some(Fault::Pair {
                first: 0,
                second: 1,
            }),
        ),
        (Form::Tessellation, (2, 2), &gap, Some(Fault::Area)),
    ];
    for (form, frame, marks, fault) in rows {
        let picture = picture_of(rt.alloc(), form, frame, marks).expect(&rt, "a picture");
        assert_eq!(rt; clean(&picture), fault, "{form:?}, {fault:?}");
    }
}

#[test]
fn segments_meet_and_walks_turn(rt: HostRuntime) {
    let meetings = [
        ((0, 0), (2, 2), (0, 2), (2, 0), true),
        ((0, 0), (3, 1), (1, 1), (4, 2), false),
        ((0, 0), (2, 0), (1, 0), (5, 0), true),
        ((0, 0), (2, 0), (3, 0), (5, 0), false),
        ((0, 0), (2, 2), (1, 1), (1, 1), true),
        ((0, 0), (3, 2), (1, 1), (1, 1), false),
        ((1, 1), (1, 1), (1, 1), (1, 1), true),
        ((0, 0), (2, 0), (1, 0), (1, 5), true),
    ];
    for (a, b, c, d, found) in meetings {
        let s = Segment { a: at(a), b: at(b) };
        let t = Segment { a: at(c), b: at(d) };
        assert_eq!(rt; (meet(s, t), meet(t, s)), (found, found), "{s:?} {t:?}");
    }
    for (r, way) in [
        ((1, 2), Turn::Left),
        ((2, 2), Turn::Straight),
        ((0, 0), Turn::Straight),
        ((2, 1), Turn::Right),
    ] {
        assert_eq!(rt; turn(at((0, 0)), at((1, 1)), at(r)), way);
    }
}

#[test]
fn a_picture_keeps_its_items(rt: HostRuntime) -> Result<(), AllocError> {
    let (a, b, c, d) = (at((0, 0)), at((0, 1)), at((1, 1)), at((1, 2)));
    let three = Points::three(rt.alloc(), a, b, d);
    assert_eq!(rt; three.items(), [a, b, d].as_slice());
    let points = Points::four(rt.alloc(), a, b, c, d);
    assert_eq!(rt; points.items(), [a, b, c, d].as_slice());
    let mut text = Text::new(rt.alloc());
    assert!(rt; text.append(b"v 1").is_ok());
    let label = Item::Label {
        name: 1,
        p: a,
        text,
    };
    let mut picture = Picture::new(rt.alloc(), Form::Polyline, d);
    if label.fits(d) {
        assert!(rt; picture.push(label).is_ok());
    }
    assert_eq!(rt; picture.form(), Form::Polyline);
    assert_eq!(rt; picture.frame(), d);
    assert_eq!(rt; picture.items().len(), 1);
    Ok(())
}
