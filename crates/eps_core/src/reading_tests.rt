//! Texts that are read back, and bad ones, each a good one with a line replaced.
use crate::cutting::next_line;
use crate::tests::{FIVE_KINDS, ONE_EDGE};
use crate::{EpsFault, read_eps, write_eps};
use st_ids::{NoMemory, Text};
use st_port::MemSink;
use st_shape::Form;
use std::alloc::Global;
use std::test::Fail;

// The text with line `number`, from 1, and its line feed replaced.
fn replaced(alloc: Global, bytes: &[u8], number: u32, new: &[u8]) -> Result<Text, NoMemory> {
    let mut text = Text::new(alloc);
    let mut rest = bytes;
    for n in 1..20 {
        let Some((line, behind)) = next_line(rest) else {
            return Ok(text);
        };
        if n == number {
            text.append(new)?;
        } else {
            text.append(line)?;
            text.append(b"\n")?;
        }
        rest = behind;
    }
    Ok(text)
}

// The bad line that is named, or 0 where a picture is read.
fn bad_line(alloc: Global, bytes: &[u8]) -> Result<u32, NoMemory> {
    if bytes.len() > 1000 {
        return Err(NoMemory);
    }
    match read_eps(alloc, bytes) {
        Ok(_) => Ok(0),
        Err(EpsFault::BadLine { line }) => Ok(line),
        Err(EpsFault::NoMemory) => Err(NoMemory),
    }
}

fn bad_line_with(alloc: Global, bytes: &[u8], number: u32, new: &[u8]) -> Result<u32, NoMemory> {
    let text = replaced(alloc, bytes, number, new)?;
    bad_line(alloc, text.bytes())
}

#[test]
fn a_text_is_read_back(rt: HostRuntime) -> Result<(), Fail> {
    let alloc = rt.alloc();
    let picture = read_eps(alloc, ONE_EDGE)?;
    assert!(rt; picture.form() == Form::Visibility && picture.items().len() == 3);
    let mut sink = MemSink::new(alloc, 300, 0, &[])?;
    assert_eq!(rt; write_eps(&mut sink, &picture), Ok(()));
    assert_eq!(rt; sink.taken(), ONE_EDGE);
    let picture = read_eps(alloc, FIVE_KINDS)?;
    let mut sink = MemSink::new(alloc, 600, 0, &[])?;
    assert_eq!(rt; write_eps(&mut sink, &picture), Ok(()));
    assert_eq!(rt; sink.taken(), FIVE_KINDS);
    Ok(())
}

#[test]
fn names_the_first_bad_line(rt: HostRuntime) -> Result<(), Fail> {
    let alloc = rt.alloc();
    let cases: &[(u32, &[u8], u32)] = &[
        (0, b"", 0),
        (1, b"%!PS-Adobe-3.0\n", 1),
        (2, b"%%BoundingBox: 0 0 72 97\n", 2),
        (2, b"%%BoundingBox: 0 0 48 96\n", 2),
        (2, b"%%BoundingBox: 0 0 1200000096 96\n", 2),
        (2, b"%%BoundingBox: 0 0 1200000072 96\n", 0),
        (3, b"%%Title: spiral\n", 3),
        (4, b"%%EndComment\n", 4),
        (5, b"/Helvetica findfont 11 scalefont setfont\n", 5),
        (6, b"1 setlinewidth 1 setlinecap\r\n", 6),
        (6, b"", 6),
        (7, b"%v 01\n", 7),
        (7, b"%v +1\n", 7),
        (7, b"%v -0\n", 7),
        (7, b"%v  1\n", 7),
        (7, b"%v 9223372036854775808\n", 7),
        (7, b"%v 9223372036854775807\n", 0),
        (7, b"%v -9223372036854775808\n", 0),
        (7, b"", 7),
        (8, b"newpath 36 37 moveto 36 37 lineto stroke\n", 8),
        (8, b"newpath 036 36 moveto 36 36 lineto stroke\n", 8),
        (8, b"newpath +36 36 moveto 36 36 lineto stroke\n", 8),
        (8, b"newpath  36 36 moveto 36 36 lineto stroke\n", 8),
        (8, b"newpath 60 36 moveto 60 36 lineto stroke\n", 8),
        (8, b"newpath 36 36 moveto 36 60 lineto stroke\n", 8),
        (8, b"", 8),
        (11, b"%e 0 1\n", 11),
        (13, b"", 13),
        (13, b"%%EOF", 13),
        (13, b"%%EOF\r\n", 13),
        (13, b"%%EOF\n%%EOF\n", 14),
        (13, b"%%EOF\nx", 14),
        (13, b"%v 3\n", 14),
        (13, b"%w 3\n", 13),
    ];
    for (number, new, bad) in cases {
        assert_eq!(rt; bad_line_with(alloc, ONE_EDGE, *number, new)?, *bad);
    }
    assert_eq!(rt; bad_line(alloc, b"")?, 1);
    Ok(())
}

const LABEL_81: &[u8] =
    b"42 66 moveto (123456789 123456789 123456789 123456789 123456789 123456789 123456789 123456789 1) show\n";

const LABEL_80: &[u8] =
    b"42 66 moveto (123456789 123456789 123456789 123456789 123456789 123456789 123456789 123456789 ) show\n";

#[test]
fn names_the_bad_line_of_each_kind(rt: HostRuntime) -> Result<(), Fail> {
    let alloc = rt.alloc();
    let cases: &[(u32, &[u8], u32)] = &[
        (8, b"newpath 36 36 4 0 361 arc fill\n", 8),
        (
            10,
            b"newpath 36 36 moveto 36 36 lineto 36 36 lineto 36 36 lineto stroke\n",
            0,
        ),
        (
            10,
            b"newpath 36 36 moveto 36 36 lineto 36 36 lineto 36 36 lineto 36 36 lineto stroke\n",
            10,
        ),
        (
            12,
            b"newpath 36 36 moveto 36 36 lineto 36 108 lineto 36 108 lineto closepath stroke\n",
            12,
        ),
        (
            12,
            b"newpath 36 36 moveto 84 36 lineto 84 108 lineto 36 84 lineto closepath stroke\n",
            12,
        ),
        (13, b"%f 4294967295\n", 0),
        (13, b"%f 4294967296\n", 13),
        (13, b"%f -1\n", 13),
        (14, b"newpath 60 84 moveto 60 36 lineto stroke\n", 14),
        (16, LABEL_80, 0),
        (16, LABEL_81, 16),
        (16, b"42 66 moveto () show\n", 16),
        (16, b"42 66 moveto (\x7f) show\n", 16),
        (16, b"42 66 moveto (B (1) show\n", 16),
        (16, b"42 66 moveto (\\B) show\n", 16),
        (16, b"36 60 moveto (B) show\n", 16),
        (16, b"%v 3\n", 16),
    ];
    for (number, new, bad) in cases {
        assert_eq!(rt; bad_line_with(alloc, FIVE_KINDS, *number, new)?, *bad);
    }
    Ok(())
}
