//! Drawings, byte by byte, of files that come byte by byte.

use crate::files::{CHORDS, DIAMOND, EDGE, NESTED, PAIR};
use crate::runs::{AMPLE, Row, Streams, bad_row, no_row};
use std::test::Fail;
use stdraw_core::Status;

const ROWS: [Row; 11] = [
    Row {
        words: "draw visibility",
        file: EDGE,
        status: Status::Done,
        told: "%!PS-Adobe-3.0 EPSF-3.0\n%%BoundingBox: 0 0 72 96\n%%Title: visibility\n%%EndComments\n/Helvetica findfont 10 scalefont setfont\n1 setlinewidth 1 setlinecap\n%v 1\nnewpath 36 36 moveto 36 36 lineto stroke\n%v 2\nnewpath 36 60 moveto 36 60 lineto stroke\n%e 0 1 2\nnewpath 36 36 moveto 36 60 lineto stroke\n%%EOF\n",
    },
    Row {
        words: "draw visibility",
        file: NESTED,
        status: Status::Done,
        told: "%!PS-Adobe-3.0 EPSF-3.0\n%%BoundingBox: 0 0 72 96\n%%Title: visibility\n%%EndComments\n/Helvetica findfont 10 scalefont setfont\n1 setlinewidth 1 setlinecap\n%v 0\nnewpath 36 36 moveto 36 36 lineto stroke\n%v 1\nnewpath 36 60 moveto 36 60 lineto stroke\n%e 0 0 1\nnewpath 36 36 moveto 36 60 lineto stroke\n%l 0\n42 42 moveto (A) show\n%l 1\n42 66 moveto (B \\(1\\)) show\n%%EOF\n",
    },
    Row {
        words: "draw visibility",
        file: CHORDS,
        status: Status::Done,
        told: "%!PS-Adobe-3.0 EPSF-3.0\n%%BoundingBox: 0 0 120 144\n%%Title: visibility\n%%EndComments\n/Helvetica findfont 10 scalefont setfont\n1 setlinewidth 1 setlinecap\n%v 1\nnewpath 36 36 moveto 84 36 lineto stroke\n%v 2\nnewpath 36 60 moveto 60 60 lineto stroke\n%v 3\nnewpath 60 84 moveto 84 84 lineto stroke\n%v 4\nnewpath 36 108 moveto 84 108 lineto stroke\n%e 0 1 2\nnewpath 36 36 moveto 36 60 lineto stroke\n%e 1 2 4\nnewpath 36 60 moveto 36 108 lineto stroke\n%e 2 2 3\nnewpath 60 60 moveto 60 84 lineto stroke\n%e 3 1 3\nnewpath 84 36 moveto 84 84 lineto stroke\n%e 4 3 4\nnewpath 60 84 moveto 60 108 lineto stroke\n%%EOF\n",
    },
    Row {
        words: "draw tessellation",
        file: EDGE,
        status: Status::Done,
        told: "%!PS-Adobe-3.0 EPSF-3.0\n%%BoundingBox: 0 0 96 96\n%%Title: tessellation\n%%EndComments\n/Helvetica findfont 10 scalefont setfont\n1 setlinewidth 1 setlinecap\n%v 1\nnewpath 36 36 moveto 60 36 lineto stroke\n%v 2\nnewpath 36 60 moveto 60 60 lineto stroke\n%e 0 1 2\nnewpath 36 36 moveto 60 36 lineto 60 60 lineto 36 60 lineto closepath stroke\n%f 0\nnewpath 36 36 moveto 36 60 lineto stroke\n%f 1\nnewpath 60 36 moveto 60 60 lineto stroke\n%%EOF\n",
    },
    Row {
        words: "draw polyline left",
        file: CHORDS,
        status: Status::Done,
        told: "%!PS-Adobe-3.0 EPSF-3.0\n%%BoundingBox: 0 0 120 144\n%%Title: polyline\n%%EndComments\n/Helvetica findfont 10 scalefont setfont\n1 setlinewidth 1 setlinecap\n%v 1\nnewpath 36 36 4 0 360 arc fill\n%v 2\nnewpath 36 60 4 0 360 arc fill\n%v 3\nnewpath 60 84 4 0 360 arc fill\n%v 4\nnewpath 36 108 4 0 360 arc fill\n%e 0 1 2\nnewpath 36 36 moveto 36 60 lineto stroke\n%e 1 2 4\nnewpath 36 60 moveto 36 84 lineto 36 108 lineto stroke\n%e 2 2 3\nnewpath 36 60 moveto 60 84 lineto stroke\n%e 3 1 3\nnewpath 36 36 moveto 84 60 lineto 60 84 lineto stroke\n%e 4 3 4\nnewpath 60 84 moveto 36 108 lineto stroke\n%%EOF\n",
    },
    Row {
        words: "draw polyline right",
        file: PAIR,
        status: Status::Done,
        told: "%!PS-Adobe-3.0 EPSF-3.0\n%%BoundingBox: 0 0 96 120\n%%Title: polyline\n%%EndComments\n/Helvetica findfont 10 scalefont setfont\n1 setlinewidth 1 setlinecap\n%v 1\nnewpath 60 36 4 0 360 arc fill\n%v 2\nnewpath 60 84 4 0 360 arc fill\n%e 0 1 2\nnewpath 60 36 moveto 36 60 lineto 60 84 lineto stroke\n%e 1 1 2\nnewpath 60 36 moveto 60 60 lineto 60 84 lineto stroke\n%%EOF\n",
    },
    Row {
        words: "draw dominance",
        file: CHORDS,
        status: Status::Done,
        told: "%!PS-Adobe-3.0 EPSF-3.0\n%%BoundingBox: 0 0 96 120\n%%Title: dominance\n%%EndComments\n/Helvetica findfont 10 scalefont setfont\n1 setlinewidth 1 setlinecap\n%v 1\nnewpath 36 36 4 0 360 arc fill\n%v 2\nnewpath 36 60 4 0 360 arc fill\n%v 3\nnewpath 60 60 4 0 360 arc fill\n%v 4\nnewpath 60 84 4 0 360 arc fill\n%e 0 1 2\nnewpath 36 36 moveto 36 60 lineto stroke\n%e 1 2 4\nnewpath 36 60 moveto 36 84 lineto 60 84 lineto stroke\n%e 2 2 3\nnewpath 36 60 moveto 60 60 lineto stroke\n%e 3 1 3\nnewpath 36 36 moveto 60 36 lineto 60 60 lineto stroke\n%e 4 3 4\nnewpath 60 60 moveto 60 84 lineto stroke\n%%EOF\n",
    },
    Row {
        words: "draw constrained",
        file: DIAMOND,
        status: Status::Done,
        told: "%!PS-Adobe-3.0 EPSF-3.0\n%%BoundingBox: 0 0 96 120\n%%Title: constrained\n%%EndComments\n/Helvetica findfont 10 scalefont setfont\n1 setlinewidth 1 setlinecap\n%v 1\nnewpath 36 36 moveto 60 36 lineto stroke\n%v 2\nnewpath 36 60 moveto 36 60 lineto stroke\n%v 3\nnewpath 60 60 moveto 60 60 lineto stroke\n%v 4\nnewpath 36 84 moveto 60 84 lineto stroke\n%e 0 1 2\nnewpath 36 36 moveto 36 60 lineto stroke\n%e 1 1 3\nnewpath 60 36 moveto 60 60 lineto stroke\n%e 2 2 4\nnewpath 36 60 moveto 36 84 lineto stroke\n%e 3 3 4\nnewpath 60 60 moveto 60 84 lineto stroke\n%%EOF\n",
    },
    Row {
        words: "draw constrained",
        file: "graph [ node [ id 1 ] node [ id 2 ] node [ id 3 ] node [ id 4 ] node [ id 5 ] node [ id 6 ] node [ id 7 ] edge [ source 1 target 2 ] edge [ source 1 target 3 ] edge [ source 2 target 4 ] edge [ source 3 target 4 ] edge [ source 4 target 5 ] edge [ source 4 target 6 ] edge [ source 5 target 7 ] edge [ source 6 target 7 ] path [ e 0 e 2 e 4 e 6 ] path [ e 1 e 3 e 5 e 7 ] ]\n",
        status: Status::Done,
        told: "%!PS-Adobe-3.0 EPSF-3.0\n%%BoundingBox: 0 0 96 168\n%%Title: constrained\n%%EndComments\n/Helvetica findfont 10 scalefont setfont\n1 setlinewidth 1 setlinecap\n%v 1\nnewpath 36 36 moveto 60 36 lineto stroke\n%v 2\nnewpath 36 60 moveto 36 60 lineto stroke\n%v 3\nnewpath 60 60 moveto 60 60 lineto stroke\n%v 4\nnewpath 36 84 moveto 60 84 lineto stroke\n%v 5\nnewpath 36 108 moveto 36 108 lineto stroke\n%v 6\nnewpath 60 108 moveto 60 108 lineto stroke\n%v 7\nnewpath 36 132 moveto 60 132 lineto stroke\n%e 0 1 2\nnewpath 36 36 moveto 36 60 lineto stroke\n%e 1 1 3\nnewpath 60 36 moveto 60 60 lineto stroke\n%e 2 2 4\nnewpath 36 60 moveto 36 84 lineto stroke\n%e 3 3 4\nnewpath 60 60 moveto 60 84 lineto stroke\n%e 4 4 5\nnewpath 36 84 moveto 36 108 lineto stroke\n%e 5 4 6\nnewpath 60 84 moveto 60 108 lineto stroke\n%e 6 5 7\nnewpath 36 108 moveto 36 132 lineto stroke\n%e 7 6 7\nnewpath 60 108 moveto 60 132 lineto stroke\n%%EOF\n",
    },
    Row {
        words: "draw constrained",
        file: "graph [ node [ id 1 ] node [ id 2 ] node [ id 3 ] node [ id 4 ] edge [ source 1 target 2 ] edge [ source 2 target 4 ] edge [ source 2 target 3 ] edge [ source 1 target 3 ] edge [ source 3 target 4 ] path [ e 0 e 2 e 4 ] ]\n",
        status: Status::Done,
        told: "%!PS-Adobe-3.0 EPSF-3.0\n%%BoundingBox: 0 0 120 144\n%%Title: constrained\n%%EndComments\n/Helvetica findfont 10 scalefont setfont\n1 setlinewidth 1 setlinecap\n%v 1\nnewpath 36 36 moveto 84 36 lineto stroke\n%v 2\nnewpath 36 60 moveto 60 60 lineto stroke\n%v 3\nnewpath 60 84 moveto 84 84 lineto stroke\n%v 4\nnewpath 36 108 moveto 84 108 lineto stroke\n%e 0 1 2\nnewpath 60 36 moveto 60 60 lineto stroke\n%e 1 2 4\nnewpath 36 60 moveto 36 108 lineto stroke\n%e 2 2 3\nnewpath 60 60 moveto 60 84 lineto stroke\n%e 3 1 3\nnewpath 84 36 moveto 84 84 lineto stroke\n%e 4 3 4\nnewpath 60 84 moveto 60 108 lineto stroke\n%%EOF\n",
    },
    Row {
        words: "draw visibility",
        file: "graph [ node [ id 1 ] node [ id 2 ] edge [ source 1 target 2 ] path [ e 9 ] path [ ] ]\n",
        status: Status::Done,
        told: "%!PS-Adobe-3.0 EPSF-3.0\n%%BoundingBox: 0 0 72 96\n%%Title: visibility\n%%EndComments\n/Helvetica findfont 10 scalefont setfont\n1 setlinewidth 1 setlinecap\n%v 1\nnewpath 36 36 moveto 36 36 lineto stroke\n%v 2\nnewpath 36 60 moveto 36 60 lineto stroke\n%e 0 1 2\nnewpath 36 36 moveto 36 60 lineto stroke\n%%EOF\n",
    },
];

#[test]
fn a_drawing_has_these_bytes(rt: HostRuntime) -> Result<(), Fail> {
    let streams = Streams {
        piece_in: 1,
        ..AMPLE
    };
    no_row(&rt, bad_row(rt.alloc(), &ROWS, &streams)?);
    Ok(())
}
