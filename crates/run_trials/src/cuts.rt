//! Files that come in pieces: every cut leaves the status, the output and the line of the whole file.

use crate::files::{EDGE, FAULTY, NESTED};
use crate::runs::{AMPLE, Outcome, Streams, is_same, is_told, no_row, ran, ran_over};
use st_port::StdSource;
use std::alloc::Global;
use std::io::Read;
use std::test::Fail;
use stdraw_core::Status;

// A run on a file that comes in two pieces, the first of n bytes.
fn ran_in_two(alloc: Global, line: &str, file: &[u8], n: usize) -> Result<Outcome, Fail> {
    let (first, second) = file.split_at(n.min(file.len()));
    let mut src = StdSource::new(first.chain(second));
    ran_over(alloc, line, &mut src, &AMPLE)
}

// Whether the file in two pieces, the first of n bytes, and in pieces of n bytes, written in pieces as short, leaves the same.
fn is_same_cut(
    alloc: Global,
    line: &str,
    file: &[u8],
    n: usize,
    whole: &Outcome,
) -> Result<bool, Fail> {
    let in_two = ran_in_two(alloc, line, file, n)?;
    let streams = Streams {
        piece_in: n,
        piece_out: n,
        ..AMPLE
    };
    let in_many = ran(alloc, line, file, &streams)?;
    Ok(is_same(&in_two, whole) && is_same(&in_many, whole))
}

// Whether no cut of a file changes what a run leaves.
fn is_uncut(alloc: Global, line: &str, file: &[u8], whole: &Outcome) -> Result<bool, Fail> {
    for n in 1..file.len() {
        if !is_same_cut(alloc, line, file, n, whole)? {
            return Ok(false);
        }
    }
    Ok(true)
}

fn bad_fault(alloc: Global) -> Result<Option<&'static str>, Fail> {
    for (file, told) in FAULTY {
        let whole = ran(alloc, "query 1 1", file.as_bytes(), &AMPLE)?;
        let is_right = is_told(&whole, Status::Gml, told);
        if !is_right || !is_uncut(alloc, "query 1 1", file.as_bytes(), &whole)? {
            return Ok(Some(told));
        }
    }
    Ok(None)
}

#[test]
fn no_cut_changes_the_fault_of_a_file(rt: HostRuntime) -> Result<(), Fail> {
    no_row(&rt, bad_fault(rt.alloc())?);
    Ok(())
}

fn bad_drawing(alloc: Global) -> Result<Option<&'static str>, Fail> {
    for file in [EDGE, NESTED] {
        let whole = ran(alloc, "draw visibility", file.as_bytes(), &AMPLE)?;
        let is_done = whole.status == Status::Done;
        if !is_done || !is_uncut(alloc, "draw visibility", file.as_bytes(), &whole)? {
            return Ok(Some(file));
        }
    }
    Ok(None)
}

#[test]
fn no_cut_changes_a_drawing(rt: HostRuntime) -> Result<(), Fail> {
    no_row(&rt, bad_drawing(rt.alloc())?);
    Ok(())
}
