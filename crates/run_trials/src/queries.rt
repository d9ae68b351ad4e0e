//! Queries: which vertex reaches which, and the numbers that tell it.

use crate::files::{CHAIN, CHORD, CHORDS, DIAMOND, NESTED, PAIR};
use crate::runs::{AMPLE, Row, bad_row, no_row};
use std::test::Fail;
use stdraw_core::Status;

const ROWS: [Row; 11] = [
    Row {
        words: "query 2 3 1 4 4 1 2 2",
        file: DIAMOND,
        status: Status::Done,
        told: "2 3 no 0 1 1 0\n1 4 yes 0 0 1 1\n4 1 no 1 1 0 0\n2 2 yes 0 1 0 1\n",
    },
    Row {
        words: "query 3 1 1 2",
        file: CHAIN,
        status: Status::Done,
        told: "3 1 no 2 2 0 0\n1 2 yes 0 0 1 1\n",
    },
    Row {
        words: "query +2 2",
        file: DIAMOND,
        status: Status::Done,
        told: "2 2 yes 0 1 0 1\n",
    },
    Row {
        words: "query 0 1",
        file: NESTED,
        status: Status::Done,
        told: "0 1 yes 0 0 1 1\n",
    },
    Row {
        words: "query 1 2 3 4",
        file: CHORDS,
        status: Status::Done,
        told: "1 2 yes 0 0 0 1\n3 4 yes 1 1 1 2\n",
    },
    Row {
        words: "query 2 3 1 4",
        file: CHORD,
        status: Status::Done,
        told: "2 3 no 0 2 2 0\n1 4 yes 0 0 2 2\n",
    },
    Row {
        words: "query 1 2",
        file: PAIR,
        status: Status::Done,
        told: "1 2 yes 0 0 1 1\n",
    },
    Row {
        words: "query 1 2",
        file: "\u{FEFF}graph [ node [ id 1 ] node [ id 2 ] edge [ source 1 target 2 ] ]\n# flow",
        status: Status::Done,
        told: "1 2 yes 0 0 1 1\n",
    },
    Row {
        words: "query 2 1",
        file: "graph[directed 0 weight 1e5 node[id 2]node[id 1 label 7]edge[id 4 source 2 target 1]]",
        status: Status::Done,
        told: "2 1 yes 0 0 1 1\n",
    },
    Row {
        words: "query -1 1",
        file: "graph [ node [ id -1 ] node [ id 1 ] edge [ source 1 target -1 ] ]",
        status: Status::Done,
        told: "-1 1 no 1 1 0 0\n",
    },
    Row {
        words: "query 1 9 8 1",
        file: DIAMOND,
        status: Status::UnknownVertex,
        told: "unknown vertex: 9\n",
    },
];

#[test]
fn a_query_tells_what_reaches_what(rt: HostRuntime) -> Result<(), Fail> {
    no_row(&rt, bad_row(rt.alloc(), &ROWS, &AMPLE)?);
    Ok(())
}
