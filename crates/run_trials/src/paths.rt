//! Paths of a constrained drawing: what is wrong with them, in the words of the file.

use crate::runs::{AMPLE, Row, bad_row, no_row};
use std::test::Fail;
use stdraw_core::Status;

const ROWS: [Row; 10] = [
    Row {
        words: "draw constrained",
        file: "graph [ node [ id 1 ] node [ id 2 ] node [ id 3 ] node [ id 4 ] node [ id 5 ] node [ id 6 ] node [ id 7 ] edge [ source 1 target 2 ] edge [ source 1 target 3 ] edge [ source 2 target 4 ] edge [ source 3 target 4 ] edge [ source 4 target 5 ] edge [ source 4 target 6 ] edge [ source 5 target 7 ] edge [ source 6 target 7 ] path [ e 0 e 2 e 5 e 7 ] path [ e 1 e 3 e 4 e 6 ] ]\n",
        status: Status::Path,
        told: "path: 1 crosses path 0 at vertex 4\n",
    },
    Row {
        words: "draw constrained",
        file: "graph [ node [ id 1 ] node [ id 2 ] node [ id 3 ] node [ id 4 ] edge [ source 1 target 2 ] edge [ source 2 target 4 ] edge [ source 2 target 3 ] edge [ source 1 target 3 ] edge [ source 3 target 4 ] path [ e 0 e 4 ] ]\n",
        status: Status::Path,
        told: "path: 0 is no directed path\n",
    },
    Row {
        words: "draw constrained",
        file: "graph [ node [ id 1 ] node [ id 2 ] node [ id 3 ] node [ id 4 ] edge [ source 1 target 2 ] edge [ source 2 target 4 ] edge [ source 2 target 3 ] edge [ source 1 target 3 ] edge [ source 3 target 4 ] path [ e 0 ] path [ e 0 ] ]\n",
        status: Status::Path,
        told: "path: 1 shares edge 0\n",
    },
    Row {
        words: "draw constrained",
        file: "graph [ node [ id 1 ] node [ id 2 ] node [ id 3 ] node [ id 4 ] edge [ source 1 target 2 ] edge [ source 2 target 4 ] edge [ source 2 target 3 ] edge [ source 1 target 3 ] edge [ source 3 target 4 ] path [ e 9 ] ]\n",
        status: Status::Path,
        told: "path: 0 names unknown edge 9\n",
    },
    Row {
        words: "draw constrained",
        file: "graph [ node [ id 1 ] node [ id 2 ] node [ id 3 ] node [ id 4 ] edge [ source 1 target 2 ] edge [ source 1 target 3 ] edge [ source 2 target 4 ] edge [ source 3 target 4 ] path [ ] ]\n",
        status: Status::Path,
        told: "path: 0 is no directed path\n",
    },
    Row {
        words: "draw constrained",
        file: "graph [ node [ id 1 ] node [ id 2 ] node [ id 3 ] node [ id 4 ] edge [ source 1 target 2 ] edge [ source 1 target 3 ] edge [ source 2 target 4 ] edge [ source 3 target 4 ] path [ e 2 e 0 ] path [ e 9 ] ]\n",
        status: Status::Path,
        told: "path: 1 names unknown edge 9\n",
    },
    Row {
        words: "draw constrained",
        file: "graph [ node [ id 10 ] node [ id -3 ] node [ id 7 ] node [ id 40 ] node [ id 25 ] node [ id 62 ] node [ id 1 ] edge [ id 70 source 10 target -3 ] edge [ id 11 source 10 target 7 ] edge [ id -5 source -3 target 40 ] edge [ id 13 source 7 target 40 ] edge [ id 100 source 40 target 25 ] edge [ id 15 source 40 target 62 ] edge [ id 60 source 25 target 1 ] edge [ id 17 source 62 target 1 ] path [ e 70 e -5 ] path [ e 11 e 13 e 100 ] path [ e 60 ] path [ e 13 ] ]\n",
        status: Status::Path,
        told: "path: 3 shares edge 13\n",
    },
    Row {
        words: "draw constrained",
        file: "graph [ node [ id 10 ] node [ id -3 ] node [ id 7 ] node [ id 40 ] node [ id 25 ] node [ id 62 ] node [ id 1 ] edge [ id 70 source 10 target -3 ] edge [ id 11 source 10 target 7 ] edge [ id -5 source -3 target 40 ] edge [ id 13 source 7 target 40 ] edge [ id 100 source 40 target 25 ] edge [ id 15 source 40 target 62 ] edge [ id 60 source 25 target 1 ] edge [ id 17 source 62 target 1 ] path [ e 70 e -5 e 15 e 17 ] path [ e 11 e 13 e 100 e 60 ] ]\n",
        status: Status::Path,
        told: "path: 1 crosses path 0 at vertex 40\n",
    },
    Row {
        words: "draw constrained",
        file: "graph [ node [ id 10 ] node [ id -3 ] node [ id 7 ] node [ id 40 ] node [ id 25 ] node [ id 62 ] node [ id 1 ] edge [ id 70 source 10 target -3 ] edge [ id 11 source 10 target 7 ] edge [ id -5 source -3 target 40 ] edge [ id 13 source 7 target 40 ] edge [ id 100 source 40 target 25 ] edge [ id 15 source 40 target 62 ] edge [ id 60 source 25 target 1 ] edge [ id 17 source 62 target 1 ] path [ e 70 e -5 e 15 e 17 ] path [ e 11 e 13 e 100 e 60 ] path [ e 70 e 3 e 4 ] ]\n",
        status: Status::Path,
        told: "path: 2 names unknown edge 3\n",
    },
    Row {
        words: "draw constrained",
        file: "graph [ node [ id 10 ] node [ id -3 ] node [ id 7 ] node [ id 40 ] node [ id 25 ] node [ id 62 ] node [ id 1 ] edge [ id 70 source 10 target -3 ] edge [ id 11 source 10 target 7 ] edge [ id -5 source -3 target 40 ] edge [ id 13 source 7 target 40 ] edge [ id 100 source 40 target 25 ] edge [ id 15 source 40 target 62 ] edge [ id 60 source 25 target 1 ] edge [ id 17 source 62 target 1 ] path [ ] path [ e 11 e 8 e 9 ] ]\n",
        status: Status::Path,
        told: "path: 1 names unknown edge 8\n",
    },
];

#[test]
fn what_is_wrong_with_paths_is_named(rt: HostRuntime) -> Result<(), Fail> {
    no_row(&rt, bad_row(rt.alloc(), &ROWS, &AMPLE)?);
    Ok(())
}
