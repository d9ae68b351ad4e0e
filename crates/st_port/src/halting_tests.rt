//! Readers and writers in memory that fail at one call, as sources and sinks.
use crate::{ReadEnd, Sink, StdSink, StdSource, read_all, write_all};
use std::alloc::Global;
use std::io;
use std::io::{ErrorKind, Read, Write};
use std::process::Abort;
use std::test::Fail;

// A reader or a writer over another one: a call moves at most four bytes, and the call of one number fails, from 1.
#[derive(Drop)]
struct Halting<T> {
    inner: T,
    fails: u64,
    calls: u64,
}

impl<T> Halting<T> {
    fn new(inner: T, fails: u64) -> Halting<T> {
        Halting {
            inner,
            fails,
            calls: 0,
        }
    }

    // Counts a call.
    fn count(&mut self) -> io::Result<()> {
        self.calls = self.calls.saturating_add(1);
        if self.calls == self.fails {
            return Err(io::Error::from(ErrorKind::Other));
        }
        Ok(())
    }
}

impl<T: Read> Read for Halting<T> {
    fn read(&mut self, buf: &mut [u8]) -> io::Result<usize> {
        self.count()?;
        let len = buf.len().min(4);
        self.inner.read(&mut buf[..len])
    }
}

impl<T: Write> Write for Halting<T> {
    fn write(&mut self, buf: &[u8]) -> io::Result<usize> {
        self.count()?;
        let len = buf.len().min(4);
        self.inner.write(&buf[..len])
    }

    fn flush(&mut self) -> io::Result<()> {
        self.count()?;
        self.inner.flush()
    }
}

const DIGITS: &[u8] = b"0123456789";

// The call that fails, and what is left then.
const READS: [(u64, &str); 4] = [(1, "0123456789"), (2, "456789"), (3, "89"), (4, "")];

#[test]
fn goes_on_after_a_read_that_failed(rt: HostRuntime) -> Result<(), Fail> {
    for (fails, left) in READS {
        let mut src = StdSource::new(Halting::new(DIGITS, fails));
        let failed = read_all(rt.alloc(), &mut src, 100);
        assert!(rt; matches!(failed, Err(ReadEnd::Failed)), "read {fails}");
        let rest = read_all(rt.alloc(), &mut src, 100)?;
        assert_eq!(rt; rest.bytes(), left.as_bytes(), "read {fails}");
    }
    Ok(())
}

// What a sink takes of the digits, over a writer whose call of this number fails, and whether it took all and was flushed.
fn taken_by(alloc: Global, fails: u64) -> (Vec<u8>, bool, bool) {
    let mut bytes = Vec::new(alloc);
    let mut out = StdSink::new(Halting::new(&mut bytes, fails));
    let is_whole = write_all(&mut out, DIGITS).is_ok();
    let is_flushed = is_whole && out.flush().is_ok();
    (bytes, is_whole, is_flushed)
}

// The call that fails, what was taken before it, and whether that is all. The flush is the fourth call.
const WRITES: [(u64, &str, bool); 5] = [
    (1, "", false),
    (2, "0123", false),
    (3, "01234567", false),
    (4, "0123456789", true),
    (5, "0123456789", true),
];

#[test]
fn takes_what_came_before_a_write_that_failed(rt: HostRuntime) -> Result<(), Fail> {
    for (fails, taken, whole) in WRITES {
        let (bytes, is_whole, is_flushed) = taken_by(rt.alloc(), fails);
        assert_eq!(rt; bytes.as_slice(), taken.as_bytes(), "call {fails}");
        assert_eq!(rt; is_whole, whole, "call {fails}");
        assert_eq!(rt; is_flushed, fails == 5, "call {fails}");
    }
    Ok(())
}
