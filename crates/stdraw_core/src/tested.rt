//! The line of a planar st-graph: its numbers of vertices, edges and faces, and the names of its poles.
ghost use Rattle.std.specs.Prelude.{◌≡◌, ◌++◌, ◌<◌, length, OnOk};
ghost use Rattle.st_verdict.specs.Stops.{Gives};
ghost use Rattle.stdraw_core.specs.Tested.{AnswersTest, test_line};

use crate::number::append_number;
use st_ids::{NoMemory, Text};
use st_input::GraphSpec;
use st_report::Stop;
use st_test::StGraph;
use std::alloc::Global;

// Appends the line.
fn append_line(text: &mut Text, spec: &GraphSpec, graph: &StGraph) -> Result<(), NoMemory>
    requires { length spec.now.vertex_names ≡ graph.now.map.graph.vertices }
    ensures { OnOk result (text.new ≡ text.old ++ test_line spec.now graph.now) }
{
    let map = graph.map();
    let names = spec.names();
    text.append(b"planar st-graph: ")?;
    append_number(text, map.vertices(), b" vertices, ")?;
    append_number(text, map.edges(), b" edges, ")?;
    append_number(text, graph.faces().count(), b" faces, source ")?;
    append_number(text, *names.vertex.get(graph.source()), b", sink ")?;
    append_number(text, *names.vertex.get(graph.sink()), b"\n")
}

/// The line of a planar st-graph.
///
/// Errors: `NoMemory`.
pub fn answer_test(alloc: Global, spec: &GraphSpec, graph: &StGraph) -> Result<Text, Stop>
    requires { length spec.now.vertex_names ≡ graph.now.map.graph.vertices }
    ensures { Gives (AnswersTest spec.now graph.now) result }
{
    let mut text = Text::new(alloc);
    match append_line(&mut text, spec, graph) {
        Ok(()) => Ok(text),
        Err(NoMemory) => Err(Stop::NoMemory),
    }
}
