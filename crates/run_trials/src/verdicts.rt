//! Planar st-graphs and their numbers, and what other graphs fail, with its evidence.

use crate::files::{APART, CYCLE, DIAMOND, DIAMONDS, PAIR, TURNS};
use crate::runs::{AMPLE, Row, bad_row, no_row};
use std::test::Fail;
use stdraw_core::Status;

const ROWS: [Row; 16] = [
    Row {
        words: "test",
        file: DIAMOND,
        status: Status::Done,
        told: "planar st-graph: 4 vertices, 4 edges, 2 faces, source 1, sink 4\n",
    },
    Row {
        words: "test",
        file: DIAMONDS,
        status: Status::Done,
        told: "planar st-graph: 7 vertices, 8 edges, 3 faces, source 1, sink 7\n",
    },
    Row {
        words: "test",
        file: "graph [ node [ id 1 ] node [ id 2 ] node [ id 3 ] node [ id 4 ] edge [ source 1 target 2 ] edge [ source 2 target 4 ] edge [ source 2 target 3 ] edge [ source 1 target 3 ] edge [ source 3 target 4 ] outer [ edge 0 side 0 ] ]\n",
        status: Status::Done,
        told: "planar st-graph: 4 vertices, 5 edges, 3 faces, source 1, sink 4\n",
    },
    Row {
        words: "test",
        file: PAIR,
        status: Status::Done,
        told: "planar st-graph: 2 vertices, 2 edges, 2 faces, source 1, sink 2\n",
    },
    Row {
        words: "test",
        file: "graph [ node [ id 1 ] node [ id 2 ] node [ id 3 ] node [ id 4 order [ e 4 e 5 e 3 e 2 ] ] node [ id 5 ] node [ id 6 ] node [ id 7 ] edge [ source 1 target 2 ] edge [ source 1 target 3 ] edge [ source 2 target 4 ] edge [ source 3 target 4 ] edge [ source 4 target 5 ] edge [ source 4 target 6 ] edge [ source 5 target 7 ] edge [ source 6 target 7 ] ]\n",
        status: Status::Done,
        told: "planar st-graph: 7 vertices, 8 edges, 3 faces, source 1, sink 7\n",
    },
    Row {
        words: "test",
        file: "graph [ ]",
        status: Status::NotSt,
        told: "not st: too few vertices: 0\n",
    },
    Row {
        words: "query 1 1",
        file: "graph [ node [ id 1 ] ]\n",
        status: Status::NotSt,
        told: "not st: too few vertices: 1\n",
    },
    Row {
        words: "test",
        file: CYCLE,
        status: Status::NotSt,
        told: "not st: cycle: 0 1 2\n",
    },
    Row {
        words: "test",
        file: "graph [ node [ id 1 ] node [ id 2 ] edge [ source 1 target 2 ] edge [ source 2 target 2 ] ]\n",
        status: Status::NotSt,
        told: "not st: cycle: 1\n",
    },
    Row {
        words: "query 1 2",
        file: TURNS,
        status: Status::NotSt,
        told: "not st: cycle: 0 1\n",
    },
    Row {
        words: "test",
        file: APART,
        status: Status::NotSt,
        told: "not st: 2 sources, the first 1 and 5\n",
    },
    Row {
        words: "test",
        file: "graph [ node [ id 1 ] node [ id 2 ] node [ id 3 ] edge [ source 1 target 2 ] edge [ source 1 target 3 ] ]\n",
        status: Status::NotSt,
        told: "not st: 2 sinks, the first 2 and 3\n",
    },
    Row {
        words: "test",
        file: "graph [ node [ id 1 order [ e 0 e 0 ] ] node [ id 2 ] node [ id 3 ] node [ id 4 ] edge [ source 1 target 2 ] edge [ source 1 target 3 ] edge [ source 2 target 4 ] edge [ source 3 target 4 ] ]\n",
        status: Status::NotSt,
        told: "not st: order at vertex 1\n",
    },
    Row {
        words: "test",
        file: "graph [ node [ id 1 ] node [ id 2 ] node [ id 3 ] node [ id 4 order [ e 4 e 3 e 5 e 2 ] ] node [ id 5 ] node [ id 6 ] node [ id 7 ] edge [ source 1 target 2 ] edge [ source 1 target 3 ] edge [ source 2 target 4 ] edge [ source 3 target 4 ] edge [ source 4 target 5 ] edge [ source 4 target 6 ] edge [ source 5 target 7 ] edge [ source 6 target 7 ] ]\n",
        status: Status::NotSt,
        told: "not st: faces: 7 vertices, 8 edges, 1 faces\n",
    },
    Row {
        words: "test",
        file: "graph [ node [ id 1 ] node [ id 2 ] node [ id 3 ] node [ id 4 ] edge [ source 1 target 2 ] edge [ source 2 target 4 ] edge [ source 2 target 3 ] edge [ source 1 target 3 ] edge [ source 3 target 4 ] outer [ edge 3 side 0 ] ]\n",
        status: Status::NotSt,
        told: "not st: outer face misses the sink\n",
    },
    Row {
        words: "draw visibility",
        file: CYCLE,
        status: Status::NotSt,
        told: "not st: cycle: 0 1 2\n",
    },
];

#[test]
fn a_graph_passes_or_what_it_fails_is_named(rt: HostRuntime) -> Result<(), Fail> {
    no_row(&rt, bad_row(rt.alloc(), &ROWS, &AMPLE)?);
    Ok(())
}
