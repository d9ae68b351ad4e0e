//! Sessions: the lines of questions between edits, and each refusal with its line.

use crate::built::path;
use crate::files::{DIAMOND, DIAMONDS, TURNS};
use crate::runs::{AMPLE, Outcome, is_told, no_row, ran};
use st_ids::Text;
use std::alloc::Global;
use std::process::Abort;
use std::test::Fail;
use stdraw_core::Status;

/// A session on a file that is a graph with records behind it: the status that it ends with, and its output or else its line.
#[derive(Clone, Copy)]
struct Session {
    graph: &'static str,
    records: &'static str,
    status: Status,
    told: &'static str,
}

const ROWS: [Session; 19] = [
    Session {
        graph: DIAMOND,
        records: "",
        status: Status::Done,
        told: "",
    },
    Session {
        graph: DIAMOND,
        records: "edit [ insert [ edge 9 tail 2 tailafter 2 head 3 headafter 1 ] ] ask [ from 2 to 3 ] edit [ remove [ e 1 ] ] ask [ from 1 to 3 ] edit [ split [ e 0 vertex 7 edge 8 ] ] ask [ from 7 to 1 ]",
        status: Status::Done,
        told: "2 3 yes 1 1 2 2\n1 3 yes 0 0 2 2\n7 1 no 1 1 0 0\n",
    },
    // A name that a removal has freed is used again.
    Session {
        graph: DIAMOND,
        records: "edit [ insert [ edge 9 tail 2 tailafter 2 head 3 headafter 1 ] ] edit [ remove [ e 9 ] ] ask [ from 2 to 3 ] edit [ insert [ edge 9 tail 2 tailafter 2 head 3 headafter 1 ] ] ask [ from 2 to 3 ]",
        status: Status::Done,
        told: "2 3 no 1 2 2 1\n2 3 yes 1 1 2 2\n",
    },
    // A record that stands before the graph; what stands within a graph is none.
    Session {
        graph: "ask [ from 1 to 2 ] ask [ from 2 to 1 ]",
        records: "graph [ ask 1 edit 1 node [ id 1 ask 1 ] node [ id 2 ] edge [ source 1 target 2 edit 1 ] ]",
        status: Status::Done,
        told: "1 2 yes 0 0 1 1\n2 1 no 1 1 0 0\n",
    },
    Session {
        graph: DIAMONDS,
        records: "ask [ from 1 to 7 ]",
        status: Status::Done,
        told: "1 7 yes 0 0 6 6\n",
    },
    Session {
        graph: DIAMOND,
        records: "edit [ remove [ e 0 ] ]",
        status: Status::Edit,
        told: "record 0: leaves a source at vertex 2\n",
    },
    Session {
        graph: DIAMOND,
        records: "edit [ insert [ edge 9 tail 4 tailafter 3 head 1 headafter 0 ] ]",
        status: Status::Edit,
        told: "record 0: vertex 1 reaches vertex 4\n",
    },
    Session {
        graph: DIAMOND,
        records: "edit [ insert [ edge 9 tail 1 tailafter 1 head 4 headafter 2 ] ]",
        status: Status::Edit,
        told: "record 0: corner in the outer face\n",
    },
    Session {
        graph: DIAMOND,
        records: "edit [ split [ e 0 vertex 1 edge 8 ] ]",
        status: Status::Edit,
        told: "record 0: vertex name 1 is used\n",
    },
    Session {
        graph: DIAMOND,
        records: "ask [ from 1 to 2 ] edit [ split [ e 0 vertex 7 edge 3 ] ] ask [ from 1 to 9 ]",
        status: Status::Edit,
        told: "record 1: edge name 3 is used\n",
    },
    Session {
        graph: DIAMOND,
        records: "edit [ insert [ edge 9 tail 2 tailafter 2 head 8 headafter 7 ] ]",
        status: Status::Edit,
        told: "record 0: unknown vertex 8\n",
    },
    Session {
        graph: DIAMOND,
        records: "edit [ remove [ e 7 ] ]",
        status: Status::Edit,
        told: "record 0: unknown edge 7\n",
    },
    Session {
        graph: DIAMOND,
        records: "edit [ insert [ edge 9 tail 2 tailafter 2 head 2 headafter 0 ] ]",
        status: Status::Edit,
        told: "record 0: tail and head are one vertex\n",
    },
    Session {
        graph: DIAMOND,
        records: "edit [ insert [ edge 9 tail 2 tailafter 3 head 3 headafter 1 ] ]",
        status: Status::Edit,
        told: "record 0: edge 3 is not at vertex 2\n",
    },
    Session {
        graph: DIAMOND,
        records: "edit [ insert [ edge 9 tail 2 tailafter 2 head 3 headafter 1 ] ] edit [ remove [ e 2 ] ] edit [ remove [ e 9 ] ]",
        status: Status::Edit,
        told: "record 2: leaves a sink at vertex 2\n",
    },
    Session {
        graph: DIAMOND,
        records: "ask [ from 1 to 9 ]",
        status: Status::UnknownVertex,
        told: "unknown vertex: 9\n",
    },
    Session {
        graph: DIAMOND,
        records: "ask [ from 1 ]",
        status: Status::Gml,
        told: "gml: bad record at 174\n",
    },
    // A bad record comes before a graph too many, a question of an unknown vertex behind it.
    Session {
        graph: DIAMOND,
        records: "ask [ from 9 to 9 ] graph [ ] ask 1",
        status: Status::Gml,
        told: "gml: bad record at 204\n",
    },
    Session {
        graph: DIAMONDS,
        records: "ask [ from 1 to 7 ] edit [ insert [ edge 9 tail 2 tailafter 2 head 5 headafter 6 ] ]",
        status: Status::Edit,
        told: "record 1: corners in two faces\n",
    },
];

// A session on a file that is a graph with records behind it.
fn ran_on(alloc: Global, graph: &[u8], records: &[u8]) -> Result<Outcome, Fail> {
    let mut file = Text::new(alloc);
    file.append(graph)?;
    file.append(records)?;
    ran(alloc, "session", file.bytes(), &AMPLE)
}

fn bad_session(alloc: Global) -> Result<Option<&'static str>, Fail> {
    for row in &ROWS {
        let found = ran_on(alloc, row.graph.as_bytes(), row.records.as_bytes())?;
        if !is_told(&found, row.status, row.told) {
            return Ok(Some(row.told));
        }
    }
    Ok(None)
}

#[test]
fn records_are_answered_or_refused(rt: HostRuntime) -> Result<(), Fail> {
    no_row(&rt, bad_session(rt.alloc())?);
    Ok(())
}

// The limit of records comes before the cycle, and behind what is wrong with the file.
const CROWDED: [(&str, Status, &str); 2] = [
    (TURNS, Status::Limit, "limit: 1001 records, at most 1000\n"),
    ("", Status::Gml, "gml: no graph\n"),
];

fn bad_crowd(alloc: Global) -> Result<Option<&'static str>, Fail> {
    let mut records = Text::new(alloc);
    for _ in 0..1_001 {
        records.append(b"ask [ from 1 to 9 ] ")?;
    }
    for (graph, status, told) in CROWDED {
        let found = ran_on(alloc, graph.as_bytes(), records.bytes())?;
        if !is_told(&found, status, told) {
            return Ok(Some(told));
        }
    }
    Ok(None)
}

#[test]
fn a_session_has_at_most_1000_records(rt: HostRuntime) -> Result<(), Fail> {
    no_row(&rt, bad_crowd(rt.alloc())?);
    Ok(())
}

// Whether a split of an edge of a path of 100,000 vertices is refused.
fn is_growth_refused(alloc: Global) -> Result<bool, Fail> {
    let file = path(alloc, 100_000, 0)?;
    let records = b"edit [ split [ e 0 vertex 0 edge -1 ] ]";
    let found = ran_on(alloc, file.bytes(), records)?;
    let told = "limit: 100001 vertices, at most 100000\n";
    Ok(is_told(&found, Status::Limit, told))
}

#[test]
fn no_edit_grows_a_graph_above_its_limit(rt: HostRuntime) -> Result<(), Fail> {
    assert!(rt; is_growth_refused(rt.alloc())?);
    Ok(())
}
