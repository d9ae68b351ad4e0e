//! Texts of two small pictures, byte by byte.
ghost use Rattle.st_shape.specs.Rules.{IsFrame};

use crate::write_eps;
use st_ids::{NoMemory, Text};
use st_port::{Failed, MemSink};
use st_shape::{Form, Item, Picture, Point, Points};
use std::alloc::Global;
use std::test::Fail;

fn at(x: u8, y: u8) -> Point
    ensures { IsFrame result }
{
    Point {
        x: i64::from(x),
        y: i64::from(y),
    }
}

// Adds the item where the picture may have it.
fn add(picture: &mut Picture, item: Item) -> Result<(), NoMemory> {
    if picture.items().len() > 100 || !item.fits(picture.frame()) {
        return Ok(());
    }
    picture.push(item)
}

fn bar(name: i64, y: i64) -> Item {
    Item::Bar {
        name,
        y,
        from: 0,
        to: 0,
    }
}

// Two vertices as bars and the edge from the one to the other.
fn one_edge(alloc: Global) -> Result<Picture, NoMemory> {
    let mut picture = Picture::new(alloc, Form::Visibility, at(0, 1));
    add(&mut picture, bar(1, 0))?;
    add(&mut picture, bar(2, 1))?;
    let edge = Item::Line {
        name: 0,
        tail: 1,
        head: 2,
        points: Points::two(alloc, at(0, 0), at(0, 1)),
    };
    add(&mut picture, edge)?;
    Ok(picture)
}

// One item of each of the other kinds.
fn five_kinds(alloc: Global) -> Result<Picture, NoMemory> {
    let mut picture = Picture::new(alloc, Form::Polyline, at(2, 3));
    let dot = Item::Dot {
        name: -1,
        p: at(0, 0),
    };
    add(&mut picture, dot)?;
    let bent = Item::Line {
        name: 0,
        tail: -1,
        head: 2,
        points: Points::three(alloc, at(0, 0), at(1, 1), at(0, 2)),
    };
    add(&mut picture, bent)?;
    let wide = Item::Rect {
        name: 1,
        tail: -1,
        head: 2,
        low: at(0, 0),
        high: at(2, 3),
    };
    add(&mut picture, wide)?;
    let face = Item::Face {
        number: 4,
        x: 1,
        from: 0,
        to: 2,
    };
    add(&mut picture, face)?;
    let mut text = Text::new(alloc);
    text.append(b"B (1)\\")?;
    let label = Item::Label {
        name: 2,
        p: at(0, 1),
        text,
    };
    add(&mut picture, label)?;
    Ok(picture)
}

/// The text of `one_edge`, of 13 lines.
pub const ONE_EDGE: &[u8] = b"%!PS-Adobe-3.0 EPSF-3.0
%%BoundingBox: 0 0 72 96
%%Title: visibility
%%EndComments
/Helvetica findfont 10 scalefont setfont
1 setlinewidth 1 setlinecap
%v 1
newpath 36 36 moveto 36 36 lineto stroke
%v 2
newpath 36 60 moveto 36 60 lineto stroke
%e 0 1 2
newpath 36 36 moveto 36 60 lineto stroke
%%EOF
";

/// The text of `five_kinds`, of 17 lines.
pub const FIVE_KINDS: &[u8] = b"%!PS-Adobe-3.0 EPSF-3.0
%%BoundingBox: 0 0 120 144
%%Title: polyline
%%EndComments
/Helvetica findfont 10 scalefont setfont
1 setlinewidth 1 setlinecap
%v -1
newpath 36 36 4 0 360 arc fill
%e 0 -1 2
newpath 36 36 moveto 60 60 lineto 36 84 lineto stroke
%e 1 -1 2
newpath 36 36 moveto 84 36 lineto 84 108 lineto 36 108 lineto closepath stroke
%f 4
newpath 60 36 moveto 60 84 lineto stroke
%l 2
42 66 moveto (B \\(1\\)\\\\) show
%%EOF
";

#[test]
fn each_item_has_its_two_lines(rt: HostRuntime) -> Result<(), Fail> {
    let alloc = rt.alloc();
    assert_eq!(rt; ONE_EDGE.len(), 300);
    let mut sink = MemSink::new(alloc, 300, 0, &[])?;
    assert_eq!(rt; write_eps(&mut sink, &one_edge(alloc)?), Ok(()));
    assert_eq!(rt; sink.taken(), ONE_EDGE);
    let mut sink = MemSink::new(alloc, 600, 7, &[])?;
    assert_eq!(rt; write_eps(&mut sink, &five_kinds(alloc)?), Ok(()));
    assert_eq!(rt; sink.taken(), FIVE_KINDS);
    Ok(())
}

#[test]
fn one_byte_a_write_gives_the_same_text(rt: HostRuntime) -> Result<(), Fail> {
    let alloc = rt.alloc();
    let mut sink = MemSink::new(alloc, 300, 1, &[])?;
    assert_eq!(rt; write_eps(&mut sink, &one_edge(alloc)?), Ok(()));
    assert_eq!(rt; sink.taken(), ONE_EDGE);
    Ok(())
}

// The bytes that a write takes, the write that fails, and the bytes that were taken then.
const FAILURES: [(usize, u64, usize); 4] = [(0, 1, 0), (24, 2, 24), (1, 4, 3), (1, 300, 299)];

#[test]
fn a_write_that_fails_leaves_the_beginning(rt: HostRuntime) -> Result<(), Fail> {
    let alloc = rt.alloc();
    for (per_call, fails, taken) in FAILURES {
        let mut sink = MemSink::new(alloc, 300, per_call, &[fails])?;
        assert_eq!(rt;
            write_eps(&mut sink, &one_edge(alloc)?),
            Err(Failed),
            "write {fails}"
        );
        assert_eq!(rt; sink.taken().len(), taken, "write {fails}");
        assert!(rt; ONE_EDGE.starts_with(sink.taken()), "write {fails}");
        assert_eq!(rt; sink.faults(), 1, "write {fails}");
    }
    Ok(())
}
