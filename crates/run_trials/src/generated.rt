//! Generated graphs: their files, the lines on their drawings, and that every drawing of them is clean.

use crate::checks::FORMS;
use crate::runs::{AMPLE, Outcome, Row, Streams, bad_row, is_same, no_row, ran};
use eps_core::read_eps;
use st_shape::clean;
use std::alloc::Global;
use std::process::Abort;
use std::test::Fail;
use stdraw_core::Status;

const ROWS: [Row; 7] = [
    Row {
        words: "gen 2 7",
        file: "graph [ ]",
        status: Status::Done,
        told: "graph [\ndirected 1\nnode [\nid 1\n]\nnode [\nid 2\n]\nedge [\nsource 1\ntarget 2\n]\n]\n",
    },
    Row {
        words: "gen 02 007",
        file: "graph [ ]",
        status: Status::Done,
        told: "graph [\ndirected 1\nnode [\nid 1\n]\nnode [\nid 2\n]\nedge [\nsource 1\ntarget 2\n]\n]\n",
    },
    Row {
        words: "gen 3 18446744073709551615",
        file: "graph [ ]",
        status: Status::Done,
        told: "graph [\ndirected 1\nnode [\nid 1\n]\nnode [\nid 2\n]\nnode [\nid 3\n]\nedge [\nsource 1\ntarget 2\n]\nedge [\nsource 1\ntarget 3\n]\nedge [\nsource 3\ntarget 2\n]\n]\n",
    },
    Row {
        words: "bench 2 7 visibility",
        file: "graph [ ]",
        status: Status::Done,
        told: "bench visibility: 2 vertices, 1 edges, 1 faces, frame 0 1, 300 bytes\n",
    },
    Row {
        words: "bench 3 0 dominance",
        file: "graph [ ]",
        status: Status::Done,
        told: "bench dominance: 3 vertices, 3 edges, 2 faces, frame 1 1, 428 bytes\n",
    },
    Row {
        words: "bench 2 7 polyline middle",
        file: "graph [ ]",
        status: Status::Done,
        told: "bench polyline middle: 2 vertices, 1 edges, 1 faces, frame 0 1, 278 bytes\n",
    },
    Row {
        words: "bench 2 7 tessellation",
        file: "graph [ ]",
        status: Status::Done,
        told: "bench tessellation: 2 vertices, 1 edges, 1 faces, frame 1 1, 430 bytes\n",
    },
];

#[test]
fn what_is_generated_needs_no_file(rt: HostRuntime) -> Result<(), Fail> {
    no_row(&rt, bad_row(rt.alloc(), &ROWS, &AMPLE)?);
    Ok(())
}

// A run with room for large files and drawings.
fn ran_large(alloc: Global, line: &str, file: &[u8]) -> Result<Outcome, Fail> {
    let streams = Streams {
        room: 8_000_000,
        ..AMPLE
    };
    ran(alloc, line, file, &streams)
}

// Whether the bytes are those of a picture that is clean, by its definition.
fn is_clean(alloc: Global, bytes: &[u8]) -> Result<bool, Fail> {
    if bytes.len() > 8_000_000 {
        return Ok(false);
    }
    let picture = read_eps(alloc, bytes)?;
    Ok(clean(&picture).is_none())
}

// Whether a file is tested and drawn, and each drawing is clean.
fn is_drawn(alloc: Global, file: &[u8]) -> Result<bool, Fail> {
    let mut is_right = ran_large(alloc, "test", file)?.status == Status::Done;
    for (form, _) in FORMS {
        let drawn = ran_large(alloc, form, file)?;
        is_right &= drawn.status == Status::Done && is_clean(alloc, drawn.out.bytes())?;
    }
    Ok(is_right)
}

const SMALL: [&str; 5] = ["gen 2 0", "gen 3 5", "gen 7 1", "gen 20 2", "gen 61 3"];

fn bad_small(alloc: Global) -> Result<Option<&'static str>, Fail> {
    for line in SMALL {
        let file = ran_large(alloc, line, b"")?;
        if file.status != Status::Done || !is_drawn(alloc, file.out.bytes())? {
            return Ok(Some(line));
        }
    }
    Ok(None)
}

#[test]
fn each_drawing_of_a_generated_graph_is_clean(rt: HostRuntime) -> Result<(), Fail> {
    no_row(&rt, bad_small(rt.alloc())?);
    Ok(())
}

const BENCHES: [(&str, &str); 3] = [
    (
        "bench 20000 1 visibility",
        "bench visibility: 20000 vertices, ",
    ),
    (
        "bench 20000 1 polyline middle",
        "bench polyline middle: 20000 vertices, ",
    ),
    (
        "bench 20000 1 dominance",
        "bench dominance: 20000 vertices, ",
    ),
];

fn bad_bench(alloc: Global) -> Result<Option<&'static str>, Fail> {
    for (line, start) in BENCHES {
        let first = ran(alloc, line, b"", &AMPLE)?;
        let second = ran(alloc, line, b"", &AMPLE)?;
        let is_right = first.status == Status::Done
            && first.out.bytes().starts_with(start.as_bytes())
            && is_same(&first, &second);
        if !is_right {
            return Ok(Some(line));
        }
    }
    Ok(None)
}

#[test]
fn a_bench_tells_the_same_twice(rt: HostRuntime) -> Result<(), Fail> {
    no_row(&rt, bad_bench(rt.alloc())?);
    Ok(())
}

// Whether a generated graph of 5,000 vertices has the poles 1 and 2.
fn is_tested(alloc: Global) -> Result<bool, Fail> {
    let file = ran_large(alloc, "gen 5000 1", b"")?;
    let tested = ran(alloc, "test", file.out.bytes(), &AMPLE)?;
    let told = tested.out.bytes();
    Ok(
        file.status == Status::Done
            && tested.status == Status::Done
            && told.starts_with(b"planar st-graph: 5000 vertices, ")
            && told.ends_with(b", source 1, sink 2\n"),
    )
}

#[test]
fn a_generated_graph_has_its_poles(rt: HostRuntime) -> Result<(), Fail> {
    assert!(rt; is_tested(rt.alloc())?);
    Ok(())
}

// A query of this vertex with each from 1 to 1,000.
fn query_from(alloc: Global, from: &str) -> Result<String, Fail> {
    let mut line = String::from_str(alloc, "query")?;
    for k in 1..1001 {
        line = format!(in alloc; "{line} {from} {k}")?;
    }
    Ok(line)
}

// At how many places the word stands.
fn count_of(text: &[u8], word: &[u8]) -> usize {
    let mut count: usize = 0;
    for at in 0..text.len() {
        if text[at..].starts_with(word) {
            count = count.saturating_add(1);
        }
    }
    count
}

// A pole, and how many of the vertices from 1 to 1,000 it reaches.
const POLES: [(&str, usize); 2] = [("1", 1000), ("2", 1)];

fn bad_pole(alloc: Global) -> Result<Option<&'static str>, Fail> {
    let file = ran_large(alloc, "gen 20000 1", b"")?;
    for (from, reached) in POLES {
        let line = query_from(alloc, from)?;
        let said = ran_large(alloc, line.as_str(), file.out.bytes())?;
        let is_right = said.status == Status::Done
            && count_of(said.out.bytes(), b"\n") == 1000
            && count_of(said.out.bytes(), b" yes ") == reached;
        if !is_right {
            return Ok(Some(from));
        }
    }
    Ok(None)
}

#[test]
fn the_source_reaches_all_and_the_sink_itself(rt: HostRuntime) -> Result<(), Fail> {
    no_row(&rt, bad_pole(rt.alloc())?);
    Ok(())
}
