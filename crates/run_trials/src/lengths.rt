//! Least lengths of edges: the rows that an edge takes in each form, and which lengths are refused.

use crate::runs::{AMPLE, Row, bad_row, no_row};
use std::test::Fail;
use stdraw_core::Status;

/// A diamond whose first edge takes three rows.
const LONG: &str =
    "graph [ node [ id 1 ] node [ id 2 ] node [ id 3 ] node [ id 4 ] edge [ source 1 target 2 minlen 3 ] edge [ source 1 target 3 ] edge [ source 2 target 4 ] edge [ source 3 target 4 ] ]";

const ROWS: [Row; 7] = [
    Row {
        words: "draw visibility",
        file: LONG,
        status: Status::Done,
        told: "%!PS-Adobe-3.0 EPSF-3.0\n%%BoundingBox: 0 0 96 168\n%%Title: visibility\n%%EndComments\n/Helvetica findfont 10 scalefont setfont\n1 setlinewidth 1 setlinecap\n%v 1\nnewpath 36 36 moveto 60 36 lineto stroke\n%v 2\nnewpath 36 108 moveto 36 108 lineto stroke\n%v 3\nnewpath 60 60 moveto 60 60 lineto stroke\n%v 4\nnewpath 36 132 moveto 60 132 lineto stroke\n%e 0 1 2\nnewpath 36 36 moveto 36 108 lineto stroke\n%e 1 1 3\nnewpath 60 36 moveto 60 60 lineto stroke\n%e 2 2 4\nnewpath 36 108 moveto 36 132 lineto stroke\n%e 3 3 4\nnewpath 60 60 moveto 60 132 lineto stroke\n%%EOF\n",
    },
    Row {
        words: "draw polyline left",
        file: LONG,
        status: Status::Done,
        told: "%!PS-Adobe-3.0 EPSF-3.0\n%%BoundingBox: 0 0 96 168\n%%Title: polyline\n%%EndComments\n/Helvetica findfont 10 scalefont setfont\n1 setlinewidth 1 setlinecap\n%v 1\nnewpath 36 36 4 0 360 arc fill\n%v 2\nnewpath 36 108 4 0 360 arc fill\n%v 3\nnewpath 60 60 4 0 360 arc fill\n%v 4\nnewpath 36 132 4 0 360 arc fill\n%e 0 1 2\nnewpath 36 36 moveto 36 60 lineto 36 84 lineto 36 108 lineto stroke\n%e 1 1 3\nnewpath 36 36 moveto 60 60 lineto stroke\n%e 2 2 4\nnewpath 36 108 moveto 36 132 lineto stroke\n%e 3 3 4\nnewpath 60 60 moveto 60 84 lineto 60 108 lineto 36 132 lineto stroke\n%%EOF\n",
    },
    Row {
        words: "draw dominance",
        file: LONG,
        status: Status::Done,
        told: "%!PS-Adobe-3.0 EPSF-3.0\n%%BoundingBox: 0 0 96 96\n%%Title: dominance\n%%EndComments\n/Helvetica findfont 10 scalefont setfont\n1 setlinewidth 1 setlinecap\n%v 1\nnewpath 36 36 4 0 360 arc fill\n%v 2\nnewpath 36 60 4 0 360 arc fill\n%v 3\nnewpath 60 36 4 0 360 arc fill\n%v 4\nnewpath 60 60 4 0 360 arc fill\n%e 0 1 2\nnewpath 36 36 moveto 36 60 lineto stroke\n%e 1 1 3\nnewpath 36 36 moveto 60 36 lineto stroke\n%e 2 2 4\nnewpath 36 60 moveto 60 60 lineto stroke\n%e 3 3 4\nnewpath 60 36 moveto 60 60 lineto stroke\n%%EOF\n",
    },
    Row {
        words: "draw constrained",
        file: "graph [ node [ id 1 ] node [ id 2 ] edge [ source 1 target 2 minlen 0 ] ]",
        status: Status::Gml,
        told: "gml: bad minlen at 61\n",
    },
    Row {
        words: "draw tessellation",
        file: "graph [ node [ id 1 ] node [ id 2 ] edge [ source 1 target 2 minlen 2.0 ] ]",
        status: Status::Gml,
        told: "gml: wrong kind of value at 61\n",
    },
    Row {
        words: "draw polyline right",
        file: "graph [ node [ id 1 ] node [ id 2 ] edge [ source 1 target 2 minlen 501 ] edge [ ] ]",
        status: Status::Gml,
        told: "gml: bad minlen at 61\n",
    },
    Row {
        words: "draw visibility",
        file: "graph [ node [ id 1 minlen 0 ] node [ id 2 ] edge [ source 1 target 2 minlen 500 ] ]",
        status: Status::Done,
        told: "%!PS-Adobe-3.0 EPSF-3.0\n%%BoundingBox: 0 0 72 12072\n%%Title: visibility\n%%EndComments\n/Helvetica findfont 10 scalefont setfont\n1 setlinewidth 1 setlinecap\n%v 1\nnewpath 36 36 moveto 36 36 lineto stroke\n%v 2\nnewpath 36 12036 moveto 36 12036 lineto stroke\n%e 0 1 2\nnewpath 36 36 moveto 36 12036 lineto stroke\n%%EOF\n",
    },
];

#[test]
fn edges_take_their_lengths(rt: HostRuntime) -> Result<(), Fail> {
    no_row(&rt, bad_row(rt.alloc(), &ROWS, &AMPLE)?);
    Ok(())
}
