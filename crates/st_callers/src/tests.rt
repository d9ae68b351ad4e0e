//! Each caller once, on small inputs.
use crate::{
    Drawn, Unanswered, Upload, answered, looked_at, reached, received, triangle, triangle_length,
};
use gml_core::GmlFault;
use st_ids::{Text, VertexId};
use st_input::ShapeFault;
use st_report::NotSt;
use st_shape::Fault;
use std::alloc::Global;
use std::process::Abort;
use std::test::Fail;
use stdraw_core::Status;

const EDGE: &str = "graph [ node [ id 1 ] node [ id 2 ] edge [ source 1 target 2 ] ]";

// What is answered to the words over a file: the output or the diagnostic line, with the status.
fn told(alloc: Global, words: &[&str], file: &str) -> Option<(Status, Text)> {
    let mut owned = Vec::new(alloc);
    for word in words {
        owned.push(String::from_str(alloc, *word).ok()?).ok()?;
    }
    let mut bytes = Text::new(alloc);
    bytes.append(file.as_bytes()).ok()?;
    match answered(alloc, &owned, bytes) {
        Ok(output) => Some((Status::Done, output)),
        Err(Unanswered::Refused { status, line }) => Some((status, line)),
        Err(Unanswered::NoMemory) => None,
    }
}

// Whether that is this status with this text.
fn is_told(alloc: Global, words: &[&str], file: &str, status: Status, text: &str) -> bool {
    match told(alloc, words, file) {
        Some((ended, got)) => ended == status && got.bytes() == text.as_bytes(),
        None => false,
    }
}

#[test]
fn a_command_is_answered(rt: HostRuntime) -> Result<(), Fail> {
    let alloc = rt.alloc();
    let line = "planar st-graph: 2 vertices, 1 edges, 1 faces, source 1, sink 2\n";
    assert!(rt; is_told(alloc, &["test"], EDGE, Status::Done, line));
    assert!(rt;
        is_told(
            alloc,
            &["test"],
            "graph",
            Status::Gml,
            "gml: key without value at 0\n"
        )
    );
    assert!(rt;
        is_told(
            alloc,
            &["tests"],
            EDGE,
            Status::Words,
            "words: not a command of stdraw\n"
        )
    );
    Ok(())
}

// A word for what was received.
fn word_of(upload: &Upload) -> &'static str {
    match upload {
        Upload::Graph(graph) => {
            if graph.map().edges() == 1 {
                "an edge"
            } else {
                "a graph"
            }
        }
        Upload::NotGml(GmlFault::OpenString { .. }) => "an open string",
        Upload::NotGml(_) => "no GML",
        Upload::NoGraph(ShapeFault::NoGraph) => "no graph",
        Upload::NoGraph(_) => "a bad graph",
        Upload::TooLong | Upload::TooManyVertices(_) | Upload::TooManyEdges(_) => "a large graph",
        Upload::NotPlanar(NotSt::TooFew { .. }) => "too few vertices",
        Upload::NotPlanar(_) => "no planar st-graph",
        Upload::NoMemory => "no memory",
    }
}

#[test]
fn files_are_received(rt: HostRuntime) -> Result<(), Fail> {
    let alloc = rt.alloc();
    let rows = [
        (EDGE, "an edge"),
        ("graph [ node [ label \"A", "an open string"),
        ("digraph [ ]", "no graph"),
        ("graph [ node [ ] ]", "a bad graph"),
        ("graph [ node [ id 1 ] ]", "too few vertices"),
    ];
    for (file, word) in rows {
        assert_eq!(rt; word_of(&received(alloc, file.as_bytes())), word);
    }
    Ok(())
}

// What the triangle's vertices reach: from the middle up, from the top down, and themselves.
fn reached_in_triangle(alloc: Global) -> Option<Vec<bool>> {
    let graph = triangle(alloc)?;
    let pairs = [
        (VertexId(1), VertexId(2)),
        (VertexId(2), VertexId(0)),
        (VertexId(1), VertexId(1)),
    ];
    reached(alloc, &graph, &pairs).ok()
}

#[test]
fn walks_go_up(rt: HostRuntime) -> Result<(), Fail> {
    let expected = [true, false, true];
    assert_eq!(rt;
        reached_in_triangle(rt.alloc()).as_deref(),
        Some(expected.as_slice())
    );
    Ok(())
}

#[test]
fn the_text_of_a_drawing_is_counted(rt: HostRuntime) -> Result<(), Fail> {
    assert_eq!(rt; triangle_length(rt.alloc()), Some(451));
    Ok(())
}

const ONE_BAR: &str =
    "%!PS-Adobe-3.0 EPSF-3.0\n%%BoundingBox: 0 0 72 72\n%%Title: visibility\n%%EndComments\n/Helvetica findfont 10 scalefont setfont\n1 setlinewidth 1 setlinecap\n%v 1\nnewpath 36 36 moveto 36 36 lineto stroke\n%%EOF\n";

const ONE_OVER_ANOTHER: &str =
    "%!PS-Adobe-3.0 EPSF-3.0\n%%BoundingBox: 0 0 72 72\n%%Title: visibility\n%%EndComments\n/Helvetica findfont 10 scalefont setfont\n1 setlinewidth 1 setlinecap\n%v 1\nnewpath 36 36 moveto 36 36 lineto stroke\n%v 2\nnewpath 36 36 moveto 36 36 lineto stroke\n%%EOF\n";

// Whether a short text is found to be this.
fn is_found(alloc: Global, text: &str, drawn: Drawn) -> bool {
    text.len() < 1000 && looked_at(alloc, text.as_bytes()) == drawn
}

#[test]
fn drawings_are_looked_at(rt: HostRuntime) -> Result<(), Fail> {
    let alloc = rt.alloc();
    let pair = Fault::Pair {
        first: 0,
        second: 1,
    };
    assert!(rt; is_found(alloc, ONE_BAR, Drawn::Clean));
    assert!(rt; is_found(alloc, ONE_OVER_ANOTHER, Drawn::NotClean(pair)));
    assert!(rt; is_found(alloc, "%!PS\n", Drawn::NoDrawing(1)));
    Ok(())
}
