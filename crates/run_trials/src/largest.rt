//! The largest values: names, numbers, depths, and graphs of many edges.

use crate::built::{path, ring};
use crate::files::{EDGE, NESTED};
use crate::runs::{AMPLE, Row, Streams, bad_row, is_told, no_number, no_row, ran};
use std::alloc::Global;
use std::process::Abort;
use std::test::Fail;
use stdraw_core::Status;

const NAMES: &str =
    "graph [ node [ id -9223372036854775808 ] node [ id 9223372036854775807 ] edge [ source -9223372036854775808 target 9223372036854775807 ] ]";

const DEEP: &str =
    "a [ a [ a [ a [ a [ a [ a [ a [ a [ a [ a [ a [ a [ a [ a [ a [ a [ a [ a [ a [ a [ a [ a [ a [ a [ a [ a [ a [ a [ a [ a [ a [ ] ] ] ] ] ] ] ] ] ] ] ] ] ] ] ] ] ] ] ] ] ] ] ] ] ] ] ] ] ] ] ] graph [ ]";

const ROWS: [Row; 3] = [
    Row {
        words: "query -9223372036854775808 9223372036854775807",
        file: NAMES,
        status: Status::Done,
        told: "-9223372036854775808 9223372036854775807 yes 0 0 1 1\n",
    },
    Row {
        words: "query 9223372036854775808 1",
        file: EDGE,
        status: Status::Words,
        told: "words: not a command of stdraw\n",
    },
    Row {
        words: "test",
        file: DEEP,
        status: Status::NotSt,
        told: "not st: too few vertices: 0\n",
    },
];

#[test]
fn names_and_depths_reach_their_limits(rt: HostRuntime) -> Result<(), Fail> {
    no_row(&rt, bad_row(rt.alloc(), &ROWS, &AMPLE)?);
    Ok(())
}

const WIDE: [(&str, &str); 2] = [
    (
        "draw dominance",
        "%!PS-Adobe-3.0 EPSF-3.0\n%%BoundingBox: 0 0 1440048 1440048\n",
    ),
    (
        "draw polyline left",
        "%!PS-Adobe-3.0 EPSF-3.0\n%%BoundingBox: 0 0 1440048 120\n",
    ),
];

fn bad_bundle(alloc: Global) -> Result<Option<&'static str>, Fail> {
    let file = path(alloc, 2, 59_999)?;
    let streams = Streams {
        room: 10_000_000,
        ..AMPLE
    };
    for (line, start) in WIDE {
        let found = ran(alloc, line, file.bytes(), &streams)?;
        if found.status != Status::Done || !found.out.bytes().starts_with(start.as_bytes()) {
            return Ok(Some(line));
        }
    }
    Ok(None)
}

#[test]
fn many_parallel_edges_are_drawn(rt: HostRuntime) -> Result<(), Fail> {
    no_row(&rt, bad_bundle(rt.alloc())?);
    Ok(())
}

// Whether the line of the cycle names its edges from 0 on and has 108,905 bytes.
fn is_cycle_named(alloc: Global) -> Result<bool, Fail> {
    let file = ring(alloc)?;
    let streams = Streams {
        line_room: 200_000,
        ..AMPLE
    };
    let found = ran(alloc, "test", file.bytes(), &streams)?;
    Ok(
        found.status == Status::NotSt
            && found.line.bytes().starts_with(b"not st: cycle: 0 1 2 ")
            && found.line.bytes().len() == 108_905,
    )
}

#[test]
fn a_cycle_through_all_vertices_is_named(rt: HostRuntime) -> Result<(), Fail> {
    assert!(rt; is_cycle_named(rt.alloc())?);
    Ok(())
}

// The status of a drawing of the first n bytes of a file.
fn status_of_front(alloc: Global, bytes: &[u8], n: usize) -> Result<Status, Fail> {
    let (front, _) = bytes.split_at(n.min(bytes.len()));
    Ok(ran(alloc, "draw visibility", front, &AMPLE)?.status)
}

// The file has 372 bytes, the last a line feed behind the last bracket.
fn bad_front(alloc: Global) -> Result<Option<u64>, Fail> {
    for n in 0..373 {
        let wanted = if n < 371 { Status::Gml } else { Status::Done };
        if status_of_front(alloc, NESTED.as_bytes(), n)? != wanted {
            return Ok(Some(n as u64));
        }
    }
    Ok(None)
}

#[test]
fn a_file_without_its_last_bracket_is_refused(rt: HostRuntime) -> Result<(), Fail> {
    no_number(&rt, bad_front(rt.alloc())?);
    Ok(())
}

// Whether a test of a file ends with this status and tells this.
fn is_tested(alloc: Global, file: &[u8], status: Status, told: &str) -> Result<bool, Fail> {
    Ok(is_told(&ran(alloc, "test", file, &AMPLE)?, status, told))
}

/// A number of vertices on a path, a number of more edges, and the status and the text of a test.
type Size = (u64, u64, Status, &'static str);

fn bad_size(alloc: Global, sizes: &[Size]) -> Result<Option<&'static str>, Fail> {
    for (vertices, more, status, told) in sizes {
        let file = path(alloc, *vertices, *more)?;
        if !is_tested(alloc, file.bytes(), *status, told)? {
            return Ok(Some(*told));
        }
    }
    Ok(None)
}

const LONG: [Size; 2] = [
    (
        100_000,
        0,
        Status::Done,
        "planar st-graph: 100000 vertices, 99999 edges, 1 faces, source 1, sink 100000\n",
    ),
    (
        100_001,
        0,
        Status::Limit,
        "limit: 100001 vertices, at most 100000\n",
    ),
];

#[test]
fn a_graph_has_at_most_100000_vertices(rt: HostRuntime) -> Result<(), Fail> {
    no_row(&rt, bad_size(rt.alloc(), &LONG)?);
    Ok(())
}

const THICK: [Size; 2] = [
    (
        2,
        299_999,
        Status::Done,
        "planar st-graph: 2 vertices, 300000 edges, 300000 faces, source 1, sink 2\n",
    ),
    (
        2,
        300_000,
        Status::Limit,
        "limit: 300001 edges, at most 300000\n",
    ),
];

#[test]
fn a_graph_has_at_most_300000_edges(rt: HostRuntime) -> Result<(), Fail> {
    no_row(&rt, bad_size(rt.alloc(), &THICK)?);
    Ok(())
}

// Whether one byte more than the limit is refused.
fn is_long_file_refused(alloc: Global) -> Result<bool, Fail> {
    let spaces = vec![in alloc; 32u8; 67_108_865]?;
    let told = "limit: more than 67108864 bytes\n";
    is_tested(alloc, &spaces, Status::Limit, told)
}

#[test]
fn a_file_has_at_most_67108864_bytes(rt: HostRuntime) -> Result<(), Fail> {
    assert!(rt; is_long_file_refused(rt.alloc())?);
    Ok(())
}
