//! Runs over streams that fail, call by call, and over streams with little room.

use crate::files::{CYCLE, EDGE};
use crate::runs::{AMPLE, Outcome, Streams, no_number, no_row, ran, status_of};
use st_port::{MemSink, MemSource, StdSink};
use std::alloc::Global;
use std::io;
use std::io::{ErrorKind, Write};
use std::process::Abort;
use std::test::Fail;
use stdraw_core::Status;

// A drawing of a single edge.
fn drawn(alloc: Global, streams: &Streams) -> Result<Outcome, Fail> {
    ran(alloc, "draw visibility", EDGE.as_bytes(), streams)
}

// Whether a run ended with this status and this line, and its output is the first n bytes of the whole one.
fn ended(found: &Outcome, status: Status, line: &[u8], whole: &Outcome, n: usize) -> bool {
    found.status == status
        && found.line.bytes() == line
        && found.out.bytes().len() == n
        && whole.out.bytes().starts_with(found.out.bytes())
}

// The file has 65 bytes: seven reads take them, the eighth sees the end, and there is no ninth.
fn bad_read(alloc: Global) -> Result<Option<u64>, Fail> {
    let whole = drawn(alloc, &AMPLE)?;
    for read_fails in 1..10 {
        let streams = Streams {
            piece_in: 10,
            read_fails,
            ..AMPLE
        };
        let found = drawn(alloc, &streams)?;
        let is_right = if read_fails < 9 {
            ended(&found, Status::ReadFault, b"read fault\n", &whole, 0)
        } else {
            ended(&found, Status::Done, b"", &whole, 300)
        };
        if !is_right {
            return Ok(Some(read_fails));
        }
    }
    Ok(None)
}

#[test]
fn each_read_can_fail(rt: HostRuntime) -> Result<(), Fail> {
    no_number(&rt, bad_read(rt.alloc())?);
    Ok(())
}

// The drawing has 300 bytes, which take 43 writes, and there is no 44th.
fn bad_write(alloc: Global) -> Result<Option<u64>, Fail> {
    let whole = drawn(alloc, &AMPLE)?;
    let mut taken = 0usize;
    for write_fails in 1..45 {
        let streams = Streams {
            piece_out: 7,
            write_fails,
            ..AMPLE
        };
        let found = drawn(alloc, &streams)?;
        let is_right = if write_fails < 44 {
            ended(&found, Status::WriteFault, b"write fault\n", &whole, taken)
        } else {
            ended(&found, Status::Done, b"", &whole, 300)
        };
        if !is_right {
            return Ok(Some(write_fails));
        }
        taken = taken.saturating_add(7);
    }
    Ok(None)
}

#[test]
fn each_write_can_fail(rt: HostRuntime) -> Result<(), Fail> {
    no_number(&rt, bad_write(rt.alloc())?);
    Ok(())
}

fn bad_room(alloc: Global) -> Result<Option<u64>, Fail> {
    let whole = drawn(alloc, &AMPLE)?;
    for room in 0..301 {
        let found = drawn(alloc, &Streams { room, ..AMPLE })?;
        let is_right = if room < 300 {
            ended(&found, Status::WriteFault, b"write fault\n", &whole, room)
        } else {
            ended(&found, Status::Done, b"", &whole, 300)
        };
        if !is_right {
            return Ok(Some(room as u64));
        }
    }
    Ok(None)
}

#[test]
fn the_output_fills_the_room_that_there_is(rt: HostRuntime) -> Result<(), Fail> {
    no_number(&rt, bad_room(rt.alloc())?);
    Ok(())
}

fn bad_line_room(alloc: Global) -> Result<Option<u64>, Fail> {
    let line = b"not st: cycle: 0 1 2\n";
    for line_room in 0..22 {
        let streams = Streams { line_room, ..AMPLE };
        let found = ran(alloc, "test", CYCLE.as_bytes(), &streams)?;
        let is_right = found.status == Status::NotSt
            && found.out.bytes().is_empty()
            && found.line.bytes().len() == line_room
            && line.starts_with(found.line.bytes());
        if !is_right {
            return Ok(Some(line_room as u64));
        }
    }
    Ok(None)
}

#[test]
fn the_line_fills_the_room_that_there_is(rt: HostRuntime) -> Result<(), Fail> {
    no_number(&rt, bad_line_room(rt.alloc())?);
    Ok(())
}

// A writer that takes all bytes and fails at each flush.
#[derive(Drop)]
struct Unflushed<W> {
    inner: W,
}

impl<W: Write> Write for Unflushed<W> {
    fn write(&mut self, buf: &[u8]) -> io::Result<usize> {
        self.inner.write(buf)
    }

    fn flush(&mut self) -> io::Result<()> {
        Err(io::Error::from(ErrorKind::Other))
    }
}

// Whether a drawing whose flush fails is written whole and ends with a fault.
fn is_unflushed(alloc: Global) -> Result<bool, Fail> {
    let whole = drawn(alloc, &AMPLE)?;
    let mut bytes = Vec::new(alloc);
    let mut src = MemSource::new(alloc, EDGE.as_bytes(), 0, &[])?;
    let mut out = StdSink::new(Unflushed { inner: &mut bytes });
    let mut diag = MemSink::new(alloc, 100, 0, &[])?;
    let status = status_of(alloc, "draw visibility", &mut src, &mut out, &mut diag)?;
    Ok(
        status == Status::WriteFault
            && bytes.as_slice() == whole.out.bytes()
            && diag.taken() == b"write fault\n".as_slice(),
    )
}

#[test]
fn a_flush_can_fail(rt: HostRuntime) -> Result<(), Fail> {
    assert!(rt; is_unflushed(rt.alloc())?);
    Ok(())
}

/// A run whose source or whose output fails: its words and file, its streams, its status, its line, and what was written.
#[derive(Clone, Copy)]
struct Stopped {
    words: &'static str,
    file: &'static str,
    streams: Streams,
    status: Status,
    line: &'static str,
    out: &'static str,
}

const STOPPED: [Stopped; 3] = [
    Stopped {
        words: "query 1 2",
        file: EDGE,
        streams: Streams {
            read_fails: 1,
            ..AMPLE
        },
        status: Status::ReadFault,
        line: "read fault\n",
        out: "",
    },
    Stopped {
        words: "query 1 2",
        file: EDGE,
        streams: Streams {
            piece_in: 1,
            piece_out: 3,
            write_fails: 2,
            line_piece: 1,
            ..AMPLE
        },
        status: Status::WriteFault,
        line: "write fault\n",
        out: "1 2",
    },
    Stopped {
        words: "check",
        file: "%!PS-Adobe-3.0 EPSF-3.0\n",
        streams: Streams {
            piece_in: 4,
            read_fails: 2,
            ..AMPLE
        },
        status: Status::ReadFault,
        line: "read fault\n",
        out: "",
    },
];

fn bad_stop(alloc: Global) -> Result<Option<&'static str>, Fail> {
    for row in &STOPPED {
        let found = ran(alloc, row.words, row.file.as_bytes(), &row.streams)?;
        let is_right = found.status == row.status
            && found.line.bytes() == row.line.as_bytes()
            && found.out.bytes() == row.out.as_bytes();
        if !is_right {
            return Ok(Some(row.words));
        }
    }
    Ok(None)
}

#[test]
fn a_query_and_a_check_stop_at_a_fault(rt: HostRuntime) -> Result<(), Fail> {
    no_row(&rt, bad_stop(rt.alloc())?);
    Ok(())
}
