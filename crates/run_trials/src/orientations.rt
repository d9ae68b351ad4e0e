//! Orientations: the file of each, which is that of a planar st-graph, and each reason why there is none.

use crate::files::{APART, CHAIN, CYCLE, DIAMOND, EDGE};
use crate::runs::{AMPLE, Row, bad_row, is_told, no_row, ran};
use std::alloc::Global;
use std::test::Fail;
use stdraw_core::Status;

const ROWS: [Row; 7] = [
    Row {
        words: "orient 1 2",
        file: CHAIN,
        status: Status::NoOrientation,
        told: "no orientation: vertex 2 cuts off vertex 3\n",
    },
    Row {
        words: "orient 1 4",
        file: APART,
        status: Status::NoOrientation,
        told: "no orientation: vertex 5 is apart\n",
    },
    Row {
        words: "orient 1 1",
        file: DIAMOND,
        status: Status::NoOrientation,
        told: "no orientation: one vertex for both poles\n",
    },
    Row {
        words: "orient 1 2",
        file: "graph [ node [ id 1 ] node [ id 2 ] edge [ id 7 source 1 target 2 ] edge [ id 9 source 2 target 2 ] ]",
        status: Status::NoOrientation,
        told: "no orientation: edge 9 is a loop\n",
    },
    Row {
        words: "orient 1 9",
        file: DIAMOND,
        status: Status::UnknownVertex,
        told: "unknown vertex: 9\n",
    },
    Row {
        words: "orient 9 8",
        file: DIAMOND,
        status: Status::UnknownVertex,
        told: "unknown vertex: 9\n",
    },
    Row {
        words: "orient 2 1",
        file: EDGE,
        status: Status::Done,
        told: "graph [\ndirected 1\nouter [\nedge 0\nside 0\n]\nnode [\nid 1\norder [\ne 0\n]\n]\nnode [\nid 2\norder [\ne 0\n]\n]\nedge [\nid 0\nsource 2\ntarget 1\n]\n]\n",
    },
];

#[test]
fn edges_are_turned_or_it_is_told_why_not(rt: HostRuntime) -> Result<(), Fail> {
    no_row(&rt, bad_row(rt.alloc(), &ROWS, &AMPLE)?);
    Ok(())
}

/// An orientation of a file, what it writes, and what a test of that tells.
#[derive(Clone, Copy)]
struct Turned {
    words: &'static str,
    file: &'static str,
    out: &'static str,
    tested: &'static str,
}

const TURNED: [Turned; 2] = [
    Turned {
        words: "orient 2 3",
        file: DIAMOND,
        out: "graph [\ndirected 1\nouter [\nedge 2\nside 0\n]\nnode [\nid 1\norder [\ne 0\ne 1\n]\n]\nnode [\nid 2\norder [\ne 2\ne 0\n]\n]\nnode [\nid 3\norder [\ne 3\ne 1\n]\n]\nnode [\nid 4\norder [\ne 3\ne 2\n]\n]\nedge [\nid 0\nsource 2\ntarget 1\n]\nedge [\nid 1\nsource 1\ntarget 3\n]\nedge [\nid 2\nsource 2\ntarget 4\n]\nedge [\nid 3\nsource 4\ntarget 3\n]\n]\n",
        tested: "planar st-graph: 4 vertices, 4 edges, 2 faces, source 2, sink 3\n",
    },
    Turned {
        words: "orient 1 3",
        file: CYCLE,
        out: "graph [\ndirected 1\nouter [\nedge 0\nside 0\n]\nnode [\nid 1\norder [\ne 0\ne 2\n]\n]\nnode [\nid 2\norder [\ne 1\ne 0\n]\n]\nnode [\nid 3\norder [\ne 2\ne 1\n]\n]\nedge [\nid 0\nsource 1\ntarget 2\n]\nedge [\nid 1\nsource 2\ntarget 3\n]\nedge [\nid 2\nsource 1\ntarget 3\n]\n]\n",
        tested: "planar st-graph: 3 vertices, 3 edges, 2 faces, source 1, sink 3\n",
    },
];

fn bad_turn(alloc: Global) -> Result<Option<&'static str>, Fail> {
    for row in &TURNED {
        let turned = ran(alloc, row.words, row.file.as_bytes(), &AMPLE)?;
        let tested = ran(alloc, "test", turned.out.bytes(), &AMPLE)?;
        let is_right = is_told(&turned, Status::Done, row.out)
            && is_told(&tested, Status::Done, row.tested);
        if !is_right {
            return Ok(Some(row.words));
        }
    }
    Ok(None)
}

#[test]
fn an_orientation_is_a_planar_st_graph(rt: HostRuntime) -> Result<(), Fail> {
    no_row(&rt, bad_turn(rt.alloc())?);
    Ok(())
}
