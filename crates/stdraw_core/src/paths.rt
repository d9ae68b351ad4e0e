//! The picture in which the edges of each path of the file stand in one column, or why there is none.
ghost use Rattle.std.specs.Prelude.{◌≡◌, ◌≢◌, ◌<◌, ◌≤◌, None, Some, length, IfOk, OnOk};
ghost use Rattle.draw_align.specs.Faults.{AreThere, IsPathFault};
ghost use Rattle.draw_align.specs.Listed.{AreSound};
ghost use Rattle.st_input.specs.InputGraph.{IsConsistent};
ghost use Rattle.st_input.specs.Paths.{path_name_fault};
ghost use Rattle.st_input.specs.declared.fault.PathNameFault.TheVariants.{NoMemory as no_memory};
ghost use Rattle.st_number.specs.Weighing.{AreLawfulWeights};
ghost use Rattle.st_picture.specs.Naming.{AreNames};
ghost use Rattle.st_sides.specs.Sides.{edge_count};
ghost use Rattle.st_test.specs.Planar.{StValue};
ghost use Rattle.stdraw_core.specs.Drawing.{AnswersLengths, IsAlignedPicture};
ghost use Rattle.stdraw_core.specs.Paths.{AreSidesIn, HasKnownEdges, paths_in};
ghost use Rattle.st_verdict.specs.Stops.{IsStop, StopsAt};
ghost use Rattle.st_verdict.specs.Verdict.{IsFound};
ghost use Rattle.st_ids.specs.declared.limits.TheConstants.{MOST_VERTICES, MOST_EDGES, MOST_LENGTH};
ghost use Rattle.stdraw_core.specs.Drawing.{AnswersDraw};

use draw_align::{PathFault, constrained};
use st_ids::{EdgeId, Names, PathList};
use st_input::{GraphSpec, PathNameFault};
use st_number::Weights;
use st_report::{BadPath, Refusal, Stop};
use st_shape::Picture;
use st_sides::{Sides, laws};
use st_test::StGraph;
use st_verdict::{name_of_edge, name_of_vertex};
use st_words::DrawForm;
use std::alloc::Global;

// What is told of a name that no edge has.
fn name_stop(spec: &GraphSpec, fault: PathNameFault) -> Stop
    requires { fault ≢ no_memory → path_name_fault spec.now.edge_names spec.now.paths ≡ Some fault }
    ensures { (st : StValue) → IsStop (AnswersDraw DrawForm.Constrained spec.now st) result }
{
    match fault {
        PathNameFault::UnknownEdge { path, name } => Stop::Refused(Refusal::Path(
            BadPath::UnknownEdge { path, name },
        )),
        PathNameFault::NoMemory => Stop::NoMemory,
    }
}

// What is told of a fault of the paths.
fn fault_stop(
    spec: &GraphSpec,
    graph: &StGraph,
    sides: &Sides,
    paths: &PathList,
    fault: PathFault,
) -> Stop
    requires found { IsFound spec.now graph.now }
    requires sides { AreSidesIn graph.now sides.now }
    requires known { HasKnownEdges spec.now }
    requires paths { paths.now ≡ paths_in spec.now }
    requires edges { AreThere sides.now paths.now }
    requires fault { IsPathFault sides.now paths.now fault }
    ensures { IsStop (AnswersDraw DrawForm.Constrained spec.now graph.now) result }
{
    laws::local(sides);
    let why = match fault {
        PathFault::NotAPath { path } => BadPath::NotAPath { path },
        PathFault::SharedEdge { path, edge } => BadPath::SharedEdge {
            path,
            edge: name_of_edge(spec, edge),
        },
        PathFault::Crossing {
            path,
            other,
            vertex,
        } => BadPath::Crossing {
            path,
            other,
            vertex: name_of_vertex(spec, vertex),
        },
        PathFault::NoMemory => return Stop::NoMemory,
    };
    Stop::Refused(Refusal::Path(why))
}

/// The picture with the edges of each path of the file in one column.
///
/// Errors: `Path`, with the first name that no edge has, or else with the first fault of the paths; `NoMemory`.
/// Cost: O(V + E) time and memory, and for paths that cross a logarithm more. Not proved.
pub fn aligned_picture<F: Fn(EdgeId) -> u32>(
    alloc: Global,
    spec: &GraphSpec,
    graph: &StGraph,
    sides: &Sides,
    rows: &Weights<F>,
    names: &Names,
) -> Result<Picture, Stop>
    requires tables { IsConsistent spec.now }
    requires found { IsFound spec.now graph.now }
    requires sides { AreSidesIn graph.now sides.now }
    requires names { AreNames sides.now names.now }
    requires weights { rows.now.edges ≡ edge_count sides.now }
    requires lawful { AreLawfulWeights F.pre F.post rows.now }
    requires most { rows.now.most ≤ MOST_LENGTH }
    requires rows { AnswersLengths (F.post rows.now.closure) spec.now }
    requires high { sides.now.vertices ≤ MOST_VERTICES }
    requires wide { edge_count sides.now ≤ MOST_EDGES }
    ensures picture { IfOk result (IsAlignedPicture spec.now sides.now names.now) }
    ensures refused { StopsAt (AnswersDraw DrawForm.Constrained spec.now graph.now) result }
{
    let paths = match spec.paths(alloc) {
        Ok(paths) => paths,
        Err(fault) => return Err(name_stop(spec, fault)),
    };
    match constrained(alloc, graph, sides, rows, &paths, names) {
        Ok(picture) => Ok(picture),
        Err(fault) => Err(fault_stop(spec, graph, sides, &paths, fault)),
    }
}
