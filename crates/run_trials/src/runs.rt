//! One run over streams in memory, and what it leaves.

use st_ids::Text;
use st_port::{MemSink, MemSource, Sink, Source};
use std::alloc::{AllocError, Global};
use std::process::Abort;
use std::test::Fail;
use stdraw_core::{Status, run};

/// How the streams of a run behave: how many bytes a call moves at most, or all where that is 0, the number of the call that
/// fails, from 1, or none where that is 0, and for how many bytes there is room.
#[derive(Clone, Copy)]
pub struct Streams {
    pub piece_in: usize,
    pub read_fails: u64,
    pub piece_out: usize,
    pub write_fails: u64,
    pub room: usize,
    pub line_piece: usize,
    pub line_room: usize,
}

/// Streams that never fail and have room for 1,000 bytes.
pub const AMPLE: Streams = Streams {
    piece_in: 0,
    read_fails: 0,
    piece_out: 0,
    write_fails: 0,
    room: 1000,
    line_piece: 0,
    line_room: 1000,
};

/// What a run leaves behind: its status, its output and its diagnostic line.
#[derive(Drop)]
pub struct Outcome {
    pub status: Status,
    pub out: Text,
    pub line: Text,
}

// The words of a line.
fn words_of(alloc: Global, line: &str) -> Result<Vec<String>, AllocError> {
    let mut words = Vec::new(alloc);
    for word in line.split(' ') {
        words.push(String::from_str(alloc, word)?)?;
    }
    Ok(words)
}

/// The status of a run on the words of a line.
pub fn status_of<S: Source, K: Sink, D: Sink>(
    alloc: Global,
    line: &str,
    src: &mut S,
    out: &mut K,
    diag: &mut D,
) -> Result<Status, AllocError> {
    let words = words_of(alloc, line)?;
    Ok(run(alloc, &words, src, out, diag))
}

/// A run on the words of a line and what a source gives.
pub fn ran_over<S: Source>(
    alloc: Global,
    line: &str,
    src: &mut S,
    streams: &Streams,
) -> Result<Outcome, Fail> {
    let fails = [streams.write_fails];
    let mut to = MemSink::new(alloc, streams.room, streams.piece_out, &fails)?;
    let mut diag = MemSink::new(alloc, streams.line_room, streams.line_piece, &[])?;
    let status = status_of(alloc, line, src, &mut to, &mut diag)?;
    let mut out = Text::new(alloc);
    out.append(to.taken())?;
    let mut line = Text::new(alloc);
    line.append(diag.taken())?;
    Ok(Outcome { status, out, line })
}

/// A run on the words of a line and the bytes of a file.
pub fn ran(alloc: Global, line: &str, file: &[u8], streams: &Streams) -> Result<Outcome, Fail> {
    let fails = [streams.read_fails];
    let mut src = MemSource::new(alloc, file, streams.piece_in, &fails)?;
    ran_over(alloc, line, &mut src, streams)
}

/// Whether both runs left the same.
pub fn is_same(one: &Outcome, other: &Outcome) -> bool {
    one.status == other.status
        && one.out.bytes() == other.out.bytes()
        && one.line.bytes() == other.line.bytes()
}

/// Whether a run ended with this status and told this: its output where it is done, and else its line. The other is empty.
pub fn is_told(found: &Outcome, status: Status, told: &str) -> bool {
    let (told_in, empty) = if status == Status::Done {
        (&found.out, &found.line)
    } else {
        (&found.line, &found.out)
    };
    found.status == status && told_in.bytes() == told.as_bytes() && empty.bytes().is_empty()
}

/// The words and the file of a run, the status that it ends with, and what it tells: its output where it is done, and else its
/// line. The other is empty.
#[derive(Clone, Copy)]
pub struct Row {
    pub words: &'static str,
    pub file: &'static str,
    pub status: Status,
    pub told: &'static str,
}

/// What the first wrong row of a table has to tell.
pub fn bad_row(
    alloc: Global,
    rows: &[Row],
    streams: &Streams,
) -> Result<Option<&'static str>, Fail> {
    for row in rows {
        let found = ran(alloc, row.words, row.file.as_bytes(), streams)?;
        if !is_told(&found, row.status, row.told) {
            return Ok(Some(row.told));
        }
    }
    Ok(None)
}

/// No row of a table is wrong; a wrong one is named by its number.
pub fn no_number(rt: &impl Abort, wrong: Option<u64>) {
    assert_eq!(rt; wrong, None);
}

/// No row of a table is wrong; a wrong one is named by its text.
pub fn no_row(rt: &impl Abort, wrong: Option<&'static str>) {
    assert_eq!(rt; wrong, None);
}
