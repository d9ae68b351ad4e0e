//! The line on a drawing of a generated graph: how large the graph, its frame and its text are. The text is counted, and not
//! kept.
ghost use Rattle.std.specs.Prelude.{◌≡◌, ◌++◌, ◌≤◌, ◌<◌, length, IfOk, OnOk};
ghost use Rattle.eps_core.specs.Text.{text as text_of};
ghost use Rattle.st_shape.specs.Rules.{IsPicture};
ghost use Rattle.stdraw_core.specs.Bench.{AnswersBench, IsLineOn, bench_line, extent_line, form_label, sizes_line};
ghost use Rattle.stdraw_core.specs.Drawing.{AnswersDraw};
ghost use Rattle.st_input.specs.InputGraph.{IsConsistent};
ghost use Rattle.st_words.specs.Words.{most_vertices};
ghost use Rattle.st_ids.specs.declared.limits.TheConstants.{MOST_VERTICES, MOST_EDGES};
ghost use Rattle.st_verdict.specs.Stops.{Gives, StopsAt};
ghost use Rattle.st_verdict.specs.Verdict.{IsFound};

use crate::drawing::depict;
use crate::number::append_number;
use eps_core::laws::short_lines;
use eps_core::write_eps;
use st_gen::laws::accepted;
use st_gen::make;
use st_ids::{NoMemory, Text};
use st_input::GraphSpec;
use st_port::CountSink;
use st_report::Stop;
use st_shape::{Picture, Point};
use st_test::StGraph;
use st_verdict::accept;
use st_words::{DrawForm, Recipe, Spot};
use std::alloc::Global;

// How many vertices, edges and faces a planar st-graph has.
#[derive(Clone, Copy)]
struct Sizes {
    vertices: u32,
    edges: u32,
    faces: u32,
}

// The words of the form.
fn label_of(form: DrawForm) -> &'static [u8]
    ensures { result.now ≡ form_label form }
{
    match form {
        DrawForm::Visibility => b"visibility",
        DrawForm::Tessellation => b"tessellation",
        DrawForm::Constrained => b"constrained",
        DrawForm::Polyline(Spot::Left) => b"polyline left",
        DrawForm::Polyline(Spot::Middle) => b"polyline middle",
        DrawForm::Polyline(Spot::Right) => b"polyline right",
        DrawForm::Dominance => b"dominance",
    }
}

// How long the text of the picture is.
fn text_length(picture: &Picture) -> u64
    requires { IsPicture picture.now }
    ensures { result ≡ length (text_of picture.now) }
{
    short_lines();
    let mut sink = CountSink::new();
    let _ = write_eps(&mut sink, picture);
    sink.bytes()
}

// Appends the numbers of vertices, edges and faces.
fn append_sizes(text: &mut Text, sizes: Sizes) -> Result<(), NoMemory>
    ensures { OnOk result (text.new ≡ text.old ++ sizes_line sizes.vertices sizes.edges sizes.faces) }
{
    append_number(text, sizes.vertices, b" vertices, ")?;
    append_number(text, sizes.edges, b" edges, ")?;
    append_number(text, sizes.faces, b" faces, ")
}

// Appends the corner of the frame and the length of the text.
fn append_extent(text: &mut Text, frame: Point, bytes: u64) -> Result<(), NoMemory>
    ensures { OnOk result (text.new ≡ text.old ++ extent_line frame bytes) }
{
    text.append(b"frame ")?;
    append_number(text, frame.x, b" ")?;
    append_number(text, frame.y, b", ")?;
    append_number(text, bytes, b" bytes\n")
}

// Appends the line on a drawing in the form.
fn append_bench(
    text: &mut Text,
    form: DrawForm,
    sizes: Sizes,
    picture: &Picture,
) -> Result<(), NoMemory>
    requires { IsPicture picture.now }
    ensures { OnOk result (text.new ≡ text.old ++ bench_line form sizes.vertices sizes.edges sizes.faces picture.now.frame (length (text_of picture.now))) }
{
    text.append(b"bench ")?;
    text.append(label_of(form))?;
    text.append(b": ")?;
    append_sizes(text, sizes)?;
    append_extent(text, picture.frame(), text_length(picture))
}

// The line on the drawing of a planar st-graph.
fn line_on(alloc: Global, form: DrawForm, spec: &GraphSpec, graph: StGraph) -> Result<Text, Stop>
    requires tables { IsConsistent spec.now }
    requires found { IsFound spec.now graph }
    requires high { spec.now.graph.vertices ≤ MOST_VERTICES }
    requires wide { length spec.now.graph.ends ≤ MOST_EDGES }
    ensures ok { IfOk result (IsLineOn form spec.now graph) }
    ensures err { StopsAt (AnswersDraw form spec.now graph) result }
{
    let map = graph.map();
    let sizes = Sizes {
        vertices: map.vertices(),
        edges: map.edges(),
        faces: graph.faces().count(),
    };
    let picture = match depict(alloc, form, spec, graph) {
        Ok(picture) => picture,
        Err(stop) => return Err(stop),
    };
    let mut text = Text::new(alloc);
    match append_bench(&mut text, form, sizes, &picture) {
        Ok(()) => Ok(text),
        Err(NoMemory) => Err(Stop::NoMemory),
    }
}

/// The line on the drawing of the generated graph.
///
/// Errors: `NoMemory`.
/// Cost: that of `st_gen::make`, and O(V + E) time and memory for the drawing. Its text is not kept. Not proved.
pub fn answer_bench(alloc: Global, recipe: Recipe, form: DrawForm) -> Result<Text, Stop>
    requires least { 2 ≤ recipe.vertices }
    requires most { recipe.vertices ≤ most_vertices }
    ensures { Gives (AnswersBench recipe form) result }
{
    accepted();
    let spec = match make(alloc, recipe.vertices, recipe.seed) {
        Ok(spec) => spec,
        Err(NoMemory) => return Err(Stop::NoMemory),
    };
    let graph = match accept(alloc, &spec) {
        Ok(graph) => graph,
        Err(stop) => return Err(stop),
    };
    line_on(alloc, form, &spec, graph)
}
