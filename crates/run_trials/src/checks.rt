//! Checks of drawings: what is wrong with a text is told, and what is drawn is clean.

use crate::files::CHORDS;
use crate::runs::{AMPLE, Row, Streams, bad_row, is_told, no_row, ran};
use std::alloc::Global;
use std::test::Fail;
use stdraw_core::Status;

const ROWS: [Row; 9] = [
    Row {
        words: "check",
        file: "%!PS-Adobe-3.0 EPSF-3.0\n%%BoundingBox: 0 0 72 96\n%%Title: visibility\n%%EndComments\n/Helvetica findfont 10 scalefont setfont\n1 setlinewidth 1 setlinecap\n%v 1\nnewpath 36 36 moveto 36 36 lineto stroke\n%v 2\nnewpath 36 60 moveto 36 60 lineto stroke\n%e 0 1 2\nnewpath 36 36 moveto 36 60 lineto stroke\n%%EOF\n",
        status: Status::Done,
        told: "clean: 3 items\n",
    },
    Row {
        words: "check",
        file: "%!PS-Adobe-3.0 EPSF-3.0\n%%BoundingBox: 0 0 72 96\n%%Title: visibility\n%%EndComments\n/Helvetica findfont 10 scalefont setfont\n1 setlinewidth 1 setlinecap\n%%EOF\n",
        status: Status::Done,
        told: "clean: 0 items\n",
    },
    Row {
        words: "check",
        file: "%!PS-Adobe-3.0 EPSF-3.0\n%%BoundingBox: 0 0 96 96\n%%Title: polyline\n%%EndComments\n/Helvetica findfont 10 scalefont setfont\n1 setlinewidth 1 setlinecap\n%v 1\nnewpath 36 36 4 0 360 arc fill\n%v 2\nnewpath 36 60 4 0 360 arc fill\n%v 3\nnewpath 60 36 4 0 360 arc fill\n%v 4\nnewpath 60 60 4 0 360 arc fill\n%e 0 1 4\nnewpath 36 36 moveto 60 60 lineto stroke\n%%EOF\n",
        status: Status::Done,
        told: "clean: 5 items\n",
    },
    Row {
        words: "check",
        file: "%!PS-Adobe-3.0 EPSF-3.0\n%%BoundingBox: 0 0 96 96\n%%Title: polyline\n%%EndComments\n/Helvetica findfont 10 scalefont setfont\n1 setlinewidth 1 setlinecap\n%v 1\nnewpath 36 36 4 0 360 arc fill\n%v 2\nnewpath 36 60 4 0 360 arc fill\n%v 3\nnewpath 60 36 4 0 360 arc fill\n%v 4\nnewpath 60 60 4 0 360 arc fill\n%e 0 1 4\nnewpath 36 36 moveto 60 60 lineto stroke\n%e 1 3 2\nnewpath 60 36 moveto 36 60 lineto stroke\n%%EOF\n",
        status: Status::NotClean,
        told: "not clean: items 4 and 5\n",
    },
    Row {
        words: "check",
        file: "%!PS-Adobe-3.0 EPSF-3.0\n%%BoundingBox: 0 0 96 96\n%%Title: dominance\n%%EndComments\n/Helvetica findfont 10 scalefont setfont\n1 setlinewidth 1 setlinecap\n%v 1\nnewpath 36 36 4 0 360 arc fill\n%v 2\nnewpath 36 60 4 0 360 arc fill\n%v 3\nnewpath 60 36 4 0 360 arc fill\n%v 4\nnewpath 60 60 4 0 360 arc fill\n%e 0 1 4\nnewpath 36 36 moveto 60 60 lineto stroke\n%e 1 2 3\nnewpath 36 60 moveto 60 36 lineto stroke\n%%EOF\n",
        status: Status::NotClean,
        told: "not clean: item 5\n",
    },
    Row {
        words: "check",
        file: "%!PS-Adobe-3.0 EPSF-3.0\n%%BoundingBox: 0 0 96 96\n%%Title: tessellation\n%%EndComments\n/Helvetica findfont 10 scalefont setfont\n1 setlinewidth 1 setlinecap\n%v 1\nnewpath 36 36 moveto 60 36 lineto stroke\n%%EOF\n",
        status: Status::NotClean,
        told: "not clean: area\n",
    },
    Row {
        words: "check",
        file: "%!PS-Adobe-3.0 EPSF-3.0\n%%BoundingBox: 0 0 72 96\n%%Title: visibility\n%%EndComments\n/Helvetica findfont 10 scalefont setfont\n1 setlinewidth 1 setlinecap\n%v 1\nnewpath 36 37 moveto 36 36 lineto stroke\n%%EOF\n",
        status: Status::Eps,
        told: "eps: bad line 8\n",
    },
    Row {
        words: "check",
        file: "%!PS-Adobe-3.0 EPSF-3.0\n%%BoundingBox: 0 0 72 96\n%%Title: visibility\n%%EndComments\n/Helvetica findfont 10 scalefont setfont\n1 setlinewidth 1 setlinecap\n%%EOF\n\n",
        status: Status::Eps,
        told: "eps: bad line 8\n",
    },
    Row {
        words: "check",
        file: "",
        status: Status::Eps,
        told: "eps: bad line 1\n",
    },
];

#[test]
fn what_is_wrong_with_a_drawing_is_told(rt: HostRuntime) -> Result<(), Fail> {
    no_row(&rt, bad_row(rt.alloc(), &ROWS, &AMPLE)?);
    Ok(())
}

/// The commands that draw, each with what a check tells of its drawing of a diamond with an edge between its sides.
pub const FORMS: [(&str, &str); 7] = [
    ("draw visibility", "clean: 9 items\n"),
    ("draw tessellation", "clean: 13 items\n"),
    ("draw constrained", "clean: 9 items\n"),
    ("draw polyline left", "clean: 9 items\n"),
    ("draw polyline middle", "clean: 9 items\n"),
    ("draw polyline right", "clean: 9 items\n"),
    ("draw dominance", "clean: 9 items\n"),
];

fn bad_form(alloc: Global) -> Result<Option<&'static str>, Fail> {
    let streams = Streams {
        room: 2000,
        ..AMPLE
    };
    for (form, told) in FORMS {
        let drawn = ran(alloc, form, CHORDS.as_bytes(), &streams)?;
        let found = ran(alloc, "check", drawn.out.bytes(), &AMPLE)?;
        if drawn.status != Status::Done || !is_told(&found, Status::Done, told) {
            return Ok(Some(form));
        }
    }
    Ok(None)
}

#[test]
fn what_is_drawn_is_clean(rt: HostRuntime) -> Result<(), Fail> {
    no_row(&rt, bad_form(rt.alloc())?);
    Ok(())
}
