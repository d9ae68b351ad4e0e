//! The diagnostic line, written to its sink in pieces and without memory.
//!
//! Each writer here appends its whole text, or a front of it where the sink counted a fault. A line is short, and comes once a
//! run: it takes no buffer.
ghost use Rattle.std.specs.Prelude.{◌≡◌, ◌++◌, OnOk, IsTrue};
ghost use Rattle.st_port.specs.Faults.{GoesOn};
ghost use Rattle.st_port.specs.Writes.{Writes};
ghost use Rattle.st_report.specs.Lines.{gml_line, shape_line, names_line, several_line, limit_line, faces_line, cycle_line, not_st_line, path_line, fault_line, orientation_line, too_long_line, bad_edit_line, edit_line, line_of, stop_line, stop_status};
ghost use Rattle.st_report.specs.Telling.{Tells};

use crate::stop::{BadEdit, BadPath, NoOrientation, NotSt, Refusal, Status, Stop};
use gml_core::GmlFault;
use itoa::{Buffer, Integer};
use st_ids::limits::{MOST_BYTES, MOST_DRAWING_BYTES, MOST_EDGES, MOST_RECORDS, MOST_VERTICES};
use st_input::ShapeFault;
use st_port::{Failed, Sink, write_all};
use st_shape::Fault;

// Writes one text and then another.
fn write_two<K: Sink>(sink: &mut K, first: &[u8], second: &[u8]) -> Result<(), Failed>
    ensures { Writes (K.state sink.old) (K.state sink.new) result (first.now ++ second.now) }
{
    write_all(sink, first)?;
    write_all(sink, second)
}

// Writes a text, a number in decimal and a text.
fn write_number<K: Sink, I: Integer>(
    sink: &mut K,
    head: &[u8],
    n: I,
    tail: &[u8],
) -> Result<(), Failed>
    ensures { Writes (K.state sink.old) (K.state sink.new) result (head.now ++ (I.text n ++ tail.now)) }
{
    let mut buffer = Buffer::new();
    let digits = buffer.format(n);
    write_all(sink, head)?;
    write_two(sink, digits.as_bytes(), tail)
}

// Writes a text, a number, a text, a number and a text.
fn write_numbers<K: Sink, I: Integer, J: Integer>(
    sink: &mut K,
    head: &[u8],
    n: I,
    middle: &[u8],
    m: J,
    tail: &[u8],
) -> Result<(), Failed>
    ensures { Writes (K.state sink.old) (K.state sink.new) result ((head.now ++ (I.text n ++ middle.now)) ++ (J.text m ++ tail.now)) }
{
    write_number(sink, head, n, middle)?;
    write_number(sink, b"", m, tail)
}

// Writes the line of a fault of a text.
fn write_gml<D: Sink>(diag: &mut D, fault: &GmlFault) -> Result<(), Failed>
    ensures { Writes (D.state diag.old) (D.state diag.new) result (gml_line fault.now) }
{
    match fault {
        GmlFault::BadByte { at } => write_number(diag, b"gml: bad byte at ", *at, b"\n"),
        GmlFault::OpenString { at } => write_number(diag, b"gml: open string at ", *at, b"\n"),
        GmlFault::BadNumber { at } => write_number(diag, b"gml: bad number at ", *at, b"\n"),
        GmlFault::BigNumber { at } => write_number(diag, b"gml: big number at ", *at, b"\n"),
        GmlFault::NoValue { at } => write_number(diag, b"gml: key without value at ", *at, b"\n"),
        GmlFault::Unclosed { at } => write_number(diag, b"gml: unclosed list at ", *at, b"\n"),
        GmlFault::Stray { at } => write_number(diag, b"gml: stray token at ", *at, b"\n"),
        GmlFault::TooDeep { at } => write_number(diag, b"gml: list too deep at ", *at, b"\n"),
        GmlFault::NoMemory => write_all(diag, b"no memory\n"),
    }
}

// Writes the line of a graph that is too large: how large it is, and the limit.
fn write_limit<D: Sink>(diag: &mut D, n: u32, middle: &[u8], most: u32) -> Result<(), Failed>
    ensures { Writes (D.state diag.old) (D.state diag.new) result (limit_line n middle.now most) }
{
    write_numbers(diag, b"limit: ", n, middle, most, b"\n")
}

// Writes the line of a fault of a tree.
fn write_shape<D: Sink>(diag: &mut D, fault: &ShapeFault) -> Result<(), Failed>
    ensures { Writes (D.state diag.old) (D.state diag.new) result (shape_line fault.now) }
{
    match fault {
        ShapeFault::NoGraph => write_all(diag, b"gml: no graph\n"),
        ShapeFault::SecondGraph { at } => write_number(diag, b"gml: second graph at ", *at, b"\n"),
        ShapeFault::BadKind { at } => write_number(
            diag,
            b"gml: wrong kind of value at ",
            *at,
            b"\n",
        ),
        ShapeFault::NoId { at } => write_number(diag, b"gml: node without id at ", *at, b"\n"),
        ShapeFault::SameId { id } => write_number(diag, b"gml: node id ", *id, b" twice\n"),
        ShapeFault::NoEnd { edge } => write_number(diag, b"gml: edge ", *edge, b" lacks an end\n"),
        ShapeFault::UnknownEnd { edge, id } => {
            write_numbers(
                diag,
                b"gml: edge ",
                *edge,
                b" ends at unknown node ",
                *id,
                b"\n",
            )
        }
        ShapeFault::BadLength { at } => write_number(diag, b"gml: bad minlen at ", *at, b"\n"),
        ShapeFault::SameEdgeId { id } => write_number(diag, b"gml: edge id ", *id, b" twice\n"),
        ShapeFault::UnknownEdge { at } => write_number(diag, b"gml: unknown edge at ", *at, b"\n"),
        ShapeFault::BadOuter { at } => write_number(diag, b"gml: bad outer at ", *at, b"\n"),
        ShapeFault::TooManyVertices { n } => {
            write_limit(diag, *n, b" vertices, at most ", MOST_VERTICES)
        }
        ShapeFault::TooManyEdges { m } => write_limit(diag, *m, b" edges, at most ", MOST_EDGES),
        ShapeFault::NoMemory => write_all(diag, b"no memory\n"),
    }
}

// Writes the names of a cycle's edges, each behind a space, and the end of the line.
fn write_names<D: Sink>(diag: &mut D, names: &[i64]) -> Result<(), Failed>
    ensures { Writes (D.state diag.old) (D.state diag.new) result (names_line names.now) }
{
    for i in 0..names.len() {
        write_number(diag, b" ", names[i], b"")?;
    }
    write_all(diag, b"\n")
}

// Writes the line of several vertices without an edge in, or out.
fn write_several<D: Sink>(
    diag: &mut D,
    count: u32,
    head: &[u8],
    first: i64,
    second: i64,
) -> Result<(), Failed>
    ensures { Writes (D.state diag.old) (D.state diag.new) result (several_line count head.now first second) }
{
    write_number(diag, b"not st: ", count, head)?;
    write_numbers(diag, b"", first, b" and ", second, b"\n")
}

// Writes the line of the numbers of vertices, edges and faces.
fn write_faces<D: Sink>(diag: &mut D, v: u32, e: u32, f: u32) -> Result<(), Failed>
    ensures { Writes (D.state diag.old) (D.state diag.new) result (faces_line v e f) }
{
    write_number(diag, b"not st: faces: ", v, b" vertices, ")?;
    write_numbers(diag, b"", e, b" edges, ", f, b" faces\n")
}

// Writes the line of a cycle.
fn write_cycle<D: Sink>(diag: &mut D, names: &[i64]) -> Result<(), Failed>
    ensures { Writes (D.state diag.old) (D.state diag.new) result (cycle_line names.now) }
{
    write_all(diag, b"not st: cycle:")?;
    write_names(diag, names)
}

// Writes the line of a test that the graph fails.
fn write_not_st<D: Sink>(diag: &mut D, why: &NotSt) -> Result<(), Failed>
    ensures { Writes (D.state diag.old) (D.state diag.new) result (not_st_line why.now) }
{
    match why {
        NotSt::TooFew { n } => write_number(diag, b"not st: too few vertices: ", *n, b"\n"),
        NotSt::Cycle { edges } => write_cycle(diag, edges.items()),
        NotSt::Sources {
            first,
            second,
            count,
        } => write_several(diag, *count, b" sources, the first ", *first, *second),
        NotSt::Sinks {
            first,
            second,
            count,
        } => write_several(diag, *count, b" sinks, the first ", *first, *second),
        NotSt::BadOrder { vertex } => write_number(
            diag,
            b"not st: order at vertex ",
            *vertex,
            b"\n",
        ),
        NotSt::BadFaces { v, e, f } => write_faces(diag, *v, *e, *f),
        NotSt::Outer {
            misses_source: true,
            misses_sink: true,
        } => write_all(diag, b"not st: outer face misses the source and the sink\n"),
        NotSt::Outer {
            misses_source: false,
            misses_sink: true,
        } => write_all(diag, b"not st: outer face misses the sink\n"),
        NotSt::Outer {
            misses_source: _,
            misses_sink: false,
        } => write_all(diag, b"not st: outer face misses the source\n"),
    }
}

// Writes the line of two paths that cross.
fn write_crossing<D: Sink>(diag: &mut D, path: u32, other: u32, vertex: i64) -> Result<(), Failed>
    ensures { Writes (D.state diag.old) (D.state diag.new) result (path_line (BadPath.Crossing path other vertex)) }
{
    write_number(diag, b"path: ", path, b" crosses path ")?;
    write_numbers(diag, b"", other, b" at vertex ", vertex, b"\n")
}

// Writes the line of a path that can't be drawn.
fn write_path<D: Sink>(diag: &mut D, fault: BadPath) -> Result<(), Failed>
    ensures { Writes (D.state diag.old) (D.state diag.new) result (path_line fault) }
{
    match fault {
        BadPath::UnknownEdge { path, name } => write_numbers(
            diag,
            b"path: ",
            path,
            b" names unknown edge ",
            name,
            b"\n",
        ),
        BadPath::NotAPath { path } => write_number(
            diag,
            b"path: ",
            path,
            b" is no directed path\n",
        ),
        BadPath::SharedEdge { path, edge } => write_numbers(
            diag,
            b"path: ",
            path,
            b" shares edge ",
            edge,
            b"\n",
        ),
        BadPath::Crossing {
            path,
            other,
            vertex,
        } => write_crossing(diag, path, other, vertex),
    }
}

// Writes the line of a fault of a drawing.
fn write_fault<D: Sink>(diag: &mut D, fault: Fault) -> Result<(), Failed>
    ensures { Writes (D.state diag.old) (D.state diag.new) result (fault_line fault) }
{
    match fault {
        Fault::Alone { item } => write_number(diag, b"not clean: item ", item, b"\n"),
        Fault::Pair { first, second } => write_numbers(
            diag,
            b"not clean: items ",
            first,
            b" and ",
            second,
            b"\n",
        ),
        Fault::Area => write_all(diag, b"not clean: area\n"),
    }
}

// Writes the line of a graph without an orientation.
fn write_orientation<D: Sink>(diag: &mut D, why: NoOrientation) -> Result<(), Failed>
    ensures { Writes (D.state diag.old) (D.state diag.new) result (orientation_line why) }
{
    match why {
        NoOrientation::OnePole => {
            write_all(diag, b"no orientation: one vertex for both poles\n")
        }
        NoOrientation::Loop { edge } => {
            write_number(diag, b"no orientation: edge ", edge, b" is a loop\n")
        }
        NoOrientation::Apart { vertex } => {
            write_number(diag, b"no orientation: vertex ", vertex, b" is apart\n")
        }
        NoOrientation::Cut { cut, apart } => write_numbers(
            diag,
            b"no orientation: vertex ",
            cut,
            b" cuts off vertex ",
            apart,
            b"\n",
        ),
    }
}

// Writes the line of a file with more bytes than this limit.
fn write_too_long<D: Sink>(diag: &mut D, most: usize) -> Result<(), Failed>
    ensures { Writes (D.state diag.old) (D.state diag.new) result (too_long_line most) }
{
    write_number(diag, b"limit: more than ", most, b" bytes\n")
}

// Writes why an edit is refused, and the end of the line.
fn write_bad_edit<D: Sink>(diag: &mut D, fault: BadEdit) -> Result<(), Failed>
    ensures { Writes (D.state diag.old) (D.state diag.new) result (bad_edit_line fault) }
{
    match fault {
        BadEdit::UsedVertex { name } => write_number(diag, b"vertex name ", name, b" is used\n"),
        BadEdit::UsedEdge { name } => write_number(diag, b"edge name ", name, b" is used\n"),
        BadEdit::UnknownVertex { name } => write_number(diag, b"unknown vertex ", name, b"\n"),
        BadEdit::UnknownEdge { name } => write_number(diag, b"unknown edge ", name, b"\n"),
        BadEdit::Loop => write_all(diag, b"tail and head are one vertex\n"),
        BadEdit::NotAt { edge, vertex } => {
            write_numbers(diag, b"edge ", edge, b" is not at vertex ", vertex, b"\n")
        }
        BadEdit::OuterCorner => write_all(diag, b"corner in the outer face\n"),
        BadEdit::Cycle { tail, head } => {
            write_numbers(diag, b"vertex ", head, b" reaches vertex ", tail, b"\n")
        }
        BadEdit::OtherFace => write_all(diag, b"corners in two faces\n"),
        BadEdit::Source { vertex } => {
            write_number(diag, b"leaves a source at vertex ", vertex, b"\n")
        }
        BadEdit::Sink { vertex } => write_number(diag, b"leaves a sink at vertex ", vertex, b"\n"),
    }
}

// Writes the line of a refused edit: the number of its record, and why.
fn write_edit<D: Sink>(diag: &mut D, number: u32, fault: BadEdit) -> Result<(), Failed>
    ensures { Writes (D.state diag.old) (D.state diag.new) result (edit_line number fault) }
{
    write_number(diag, b"record ", number, b": ")?;
    write_bad_edit(diag, fault)
}

// Writes the line of a refusal.
fn write_refusal<D: Sink>(diag: &mut D, refusal: &Refusal) -> Result<(), Failed>
    ensures { Writes (D.state diag.old) (D.state diag.new) result (line_of refusal.now) }
{
    match refusal {
        Refusal::Words => write_all(diag, b"words: not a command of stdraw\n"),
        Refusal::TooManyBytes => write_too_long(diag, MOST_BYTES),
        Refusal::Gml(fault) => write_gml(diag, fault),
        Refusal::Shape(fault) => write_shape(diag, fault),
        Refusal::NotSt(why) => write_not_st(diag, why),
        Refusal::Path(fault) => write_path(diag, *fault),
        Refusal::UnknownVertex(name) => write_number(diag, b"unknown vertex: ", *name, b"\n"),
        Refusal::TooLongDrawing => write_too_long(diag, MOST_DRAWING_BYTES),
        Refusal::Eps(line) => write_number(diag, b"eps: bad line ", *line, b"\n"),
        Refusal::NotClean(fault) => write_fault(diag, *fault),
        Refusal::NoOrientation(why) => write_orientation(diag, *why),
        Refusal::BadRecord(at) => write_number(diag, b"gml: bad record at ", *at, b"\n"),
        Refusal::TooManyRecords(n) => write_numbers(
            diag,
            b"limit: ",
            *n,
            b" records, at most ",
            MOST_RECORDS,
            b"\n",
        ),
        Refusal::Edit { number, fault } => write_edit(diag, *number, *fault),
    }
}

// Writes the line that says why a run stops.
fn write_stop<D: Sink>(diag: &mut D, stop: &Stop) -> Result<(), Failed>
    ensures { Writes (D.state diag.old) (D.state diag.new) result (stop_line stop.now) }
{
    match stop {
        Stop::Refused(refusal) => write_refusal(diag, refusal),
        Stop::ReadFault => write_all(diag, b"read fault\n"),
        Stop::WriteFault => write_all(diag, b"write fault\n"),
        Stop::NoMemory => write_all(diag, b"no memory\n"),
    }
}

// Writes the line that says why a run stops, and flushes.
fn tell<D: Sink>(diag: &mut D, stop: &Stop) -> Result<(), Failed>
    ensures writes { Writes (D.state diag.old) (D.state diag.new) result (stop_line stop.now) }
    ensures flushed { OnOk result (IsTrue (D.state diag.new).is_flushed) }
{
    write_stop(diag, stop)?;
    diag.flush()
}

/// Says why the run stops, and answers the status. A fault of `diag` changes nothing.
pub fn report<D: Sink>(diag: &mut D, stop: &Stop) -> Status
    ensures status { result ≡ stop_status stop.now }
    ensures line { Tells (D.state diag.old) (D.state diag.new) (stop_line stop.now) }
    ensures count { GoesOn (D.state diag.old).faults (D.state diag.new).faults }
{
    let _ = tell(diag, stop);
    stop.status()
}
