//! Words that ask for nothing: each list of them is refused before the source is read.

use crate::files::DIAMOND;
use crate::runs::{AMPLE, is_told, no_row, ran, ran_over};
use st_port::MemSource;
use std::alloc::Global;
use std::test::Fail;
use stdraw_core::Status;

const LINES: [&str; 22] = [
    "query 1",
    "query",
    "query 1 2 3",
    "query 1 x",
    "query 1 9223372036854775808",
    "draw",
    "draw polyline",
    "draw visibility 1",
    "gen 1 0",
    "join 2",
    "meet 1 2 3",
    "orient 1",
    "gen 100001 7",
    "gen +2 7",
    "gen 2 18446744073709551616",
    "gen 2",
    "gen 2 7 8",
    "gen 2 -7",
    "bench 2 7",
    "bench 2 7 polyline",
    "bench 2 7 visibility visibility",
    "bench 100001 7 visibility",
];

const TOLD: &str = "words: not a command of stdraw\n";

// Whether a run on the words is refused over a source whose first read fails, and reads nothing of it.
fn is_unread(alloc: Global, line: &str) -> Result<bool, Fail> {
    let mut src = MemSource::new(alloc, b"", 0, &[1])?;
    let found = ran_over(alloc, line, &mut src, &AMPLE)?;
    Ok(is_told(&found, Status::Words, TOLD) && src.faults() == 0)
}

fn bad_line(alloc: Global) -> Result<Option<&'static str>, Fail> {
    for line in LINES {
        let found = ran(alloc, line, DIAMOND.as_bytes(), &AMPLE)?;
        if !is_told(&found, Status::Words, TOLD) || !is_unread(alloc, line)? {
            return Ok(Some(line));
        }
    }
    Ok(None)
}

#[test]
fn other_words_are_refused_unread(rt: HostRuntime) -> Result<(), Fail> {
    no_row(&rt, bad_line(rt.alloc())?);
    Ok(())
}
