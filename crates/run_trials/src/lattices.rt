//! Joins and meets: the vertex, and the two walks between it and those that were asked for.

use crate::files::{CYCLE, DIAMOND, DIAMONDS};
use crate::runs::{AMPLE, Row, bad_row, no_row};
use std::test::Fail;
use stdraw_core::Status;

const ROWS: [Row; 9] = [
    Row {
        words: "join 2 3",
        file: DIAMOND,
        status: Status::Done,
        told: "join 2 3 4\nwalk 2 4: 2\nwalk 3 4: 3\n",
    },
    Row {
        words: "meet 2 3",
        file: DIAMOND,
        status: Status::Done,
        told: "meet 2 3 1\nwalk 1 2: 0\nwalk 1 3: 1\n",
    },
    Row {
        words: "join 2 7",
        file: DIAMONDS,
        status: Status::Done,
        told: "join 2 7 7\nwalk 2 7: 2 4 6\nwalk 7 7:\n",
    },
    Row {
        words: "join 2 3",
        file: DIAMONDS,
        status: Status::Done,
        told: "join 2 3 4\nwalk 2 4: 2\nwalk 3 4: 3\n",
    },
    Row {
        words: "meet 5 5",
        file: DIAMONDS,
        status: Status::Done,
        told: "meet 5 5 5\nwalk 5 5:\nwalk 5 5:\n",
    },
    Row {
        words: "join 1 2",
        file: "graph [ node [ id 0 ] node [ id 1 ] node [ id 2 ] node [ id 3 ] node [ id 4 ] edge [ source 0 target 1 ] edge [ source 0 target 2 ] edge [ source 1 target 4 ] edge [ source 1 target 3 ] edge [ source 2 target 3 ] edge [ source 3 target 4 ] ]",
        status: Status::Done,
        told: "join 1 2 3\nwalk 1 3: 3\nwalk 2 3: 4\n",
    },
    Row {
        words: "join 2 9",
        file: DIAMOND,
        status: Status::UnknownVertex,
        told: "unknown vertex: 9\n",
    },
    Row {
        words: "meet 9 8",
        file: DIAMOND,
        status: Status::UnknownVertex,
        told: "unknown vertex: 9\n",
    },
    Row {
        words: "join 2 3",
        file: CYCLE,
        status: Status::NotSt,
        told: "not st: cycle: 0 1 2\n",
    },
];

// In the graph of five vertices the first edge out of 1 misses the join with 2.
#[test]
fn joins_and_meets_are_told(rt: HostRuntime) -> Result<(), Fail> {
    no_row(&rt, bad_row(rt.alloc(), &ROWS, &AMPLE)?);
    Ok(())
}
