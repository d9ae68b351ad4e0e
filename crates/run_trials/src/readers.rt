//! Runs over a reader and a writer of std, and over streams that never fail.

use crate::files::EDGE;
use crate::runs::status_of;
use st_ids::Text;
use st_port::{CountSink, MemSink, StdSink, StdSource, SureSource};
use std::alloc::Global;
use std::process::Abort;
use std::test::Fail;
use stdraw_core::Status;

// Whether a query is answered over a reader and a writer.
fn is_read_and_written(alloc: Global) -> Result<bool, Fail> {
    let mut bytes = Vec::new(alloc);
    let mut src = StdSource::new(EDGE.as_bytes());
    let mut out = StdSink::new(&mut bytes);
    let mut diag = MemSink::new(alloc, 100, 0, &[])?;
    let status = status_of(alloc, "query 1 2", &mut src, &mut out, &mut diag)?;
    Ok(status == Status::Done && bytes.as_slice() == b"1 2 yes 0 0 1 1\n".as_slice())
}

#[test]
fn a_reader_and_a_writer_serve(rt: HostRuntime) -> Result<(), Fail> {
    assert!(rt; is_read_and_written(rt.alloc())?);
    Ok(())
}

// Whether a drawing over streams that never fail has 300 bytes and no line.
fn is_sure(alloc: Global) -> Result<bool, Fail> {
    let mut file = Text::new(alloc);
    file.append(EDGE.as_bytes())?;
    let mut src = SureSource::new(file);
    let mut out = CountSink::new();
    let mut diag = CountSink::new();
    let status = status_of(alloc, "draw visibility", &mut src, &mut out, &mut diag)?;
    Ok(status == Status::Done && out.bytes() == 300 && diag.bytes() == 0)
}

#[test]
fn sure_streams_serve(rt: HostRuntime) -> Result<(), Fail> {
    assert!(rt; is_sure(rt.alloc())?);
    Ok(())
}
