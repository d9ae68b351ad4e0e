//! The answer to a join or a meet: the bound of two vertices, and the leftmost walks that show it.
ghost use Rattle.std.specs.Prelude.{◌≡◌, ◌++◌, ◌∷◌, ◌<◌, [], ℕ, List, codes, length, map, slice_index, IfOk, OnOk};
ghost use Rattle.st_ids.specs.EdgeNumbers.{numbers};
ghost use Rattle.st_ids.specs.Walks.{Reaches};
ghost use Rattle.st_input.specs.InputGraph.{IsConsistent};
ghost use Rattle.st_order.specs.Labels.{AreLabels};
ghost use Rattle.st_report.specs.Lines.{numbered, spaced};
ghost use Rattle.st_sides.specs.Sides.{SidesValue, edge_count, primal};
ghost use Rattle.st_verdict.specs.Stops.{Gives};
ghost use Rattle.st_verdict.specs.Verdict.{IsFound, file_edge_name};
ghost use Rattle.st_words.specs.Words.{operation_word};
ghost use Rattle.stdraw_core.specs.Lattice.{AnswersLattice, IsBound, IsWalkLine, ReachesBound, ShowsBound, TellsBound, bound_line};
ghost use Rattle.stdraw_core.specs.Paths.{AreSidesIn};

use crate::number::append_number;
use crate::query::unknown;
use st_ids::{EdgeId, NoMemory, Text, VertexId};
use st_input::GraphSpec;
use st_lattice::{join, meet, walk};
use st_order::{Labels, labels};
use st_report::Stop;
use st_sides::Sides;
use st_test::StGraph;
use st_verdict::{name_of_edge, name_of_vertex};
use st_words::Operation;
use std::alloc::Global;

// The word of the bound.
fn word_of(op: Operation) -> &'static [u8]
    ensures { result.now ≡ operation_word op }
{
    match op {
        Operation::Join => b"join",
        Operation::Meet => b"meet",
    }
}

// Appends a space and the name.
fn append_name(text: &mut Text, name: i64) -> Result<(), NoMemory>
    ensures { OnOk result (text.new ≡ text.old ++ numbered (codes " ") name []) }
{
    text.append(b" ")?;
    append_number(text, name, b"")
}

// Appends two names, each behind a space.
fn append_two(text: &mut Text, first: i64, second: i64) -> Result<(), NoMemory>
    ensures { OnOk result (text.new ≡ text.old ++ spaced (first ∷ second ∷ [])) }
{
    append_name(text, first)?;
    append_name(text, second)
}

// Appends the line of the bound.
fn append_bound(
    text: &mut Text,
    op: Operation,
    from: i64,
    to: i64,
    bound: i64,
) -> Result<(), NoMemory>
    ensures { OnOk result (text.new ≡ text.old ++ bound_line op from to bound) }
{
    text.append(word_of(op))?;
    append_two(text, from, to)?;
    append_name(text, bound)?;
    text.append(b"\n")
}

// Appends the names of the edges, each behind a space.
fn append_edges(text: &mut Text, spec: &GraphSpec, edges: &[EdgeId]) -> Result<(), NoMemory>
    requires { (i : ℕ) → i < length edges.now → slice_index (numbers edges.now) i < length spec.now.graph.ends }
    ensures { OnOk result (text.new ≡ text.old ++ spaced (map (file_edge_name spec.now) (numbers edges.now))) }
{
    for i in 0..edges.len() {
        append_name(text, name_of_edge(spec, edges[i]))?;
    }
    Ok(())
}

// Appends the line of the leftmost walk from one vertex to another that it reaches.
fn append_walk(
    alloc: Global,
    text: &mut Text,
    spec: &GraphSpec,
    sides: &Sides,
    labels: &Labels,
    from: VertexId,
    to: VertexId,
) -> Result<(), NoMemory>
    requires labels { AreLabels sides.now labels.now }
    requires vertices { sides.now.vertices ≡ spec.now.graph.vertices }
    requires edges { edge_count sides.now ≡ length spec.now.graph.ends }
    requires from_there { from.0 < sides.now.vertices }
    requires to_there { to.0 < sides.now.vertices }
    requires reaching { Reaches (primal sides.now) from.0 to.0 }
    ensures { OnOk result ((line : List ℕ) × IsWalkLine spec.now sides.now from.0 to.0 line × (text.new ≡ text.old ++ line)) }
{
    st_lattice::laws::leftmost(sides);
    let edges = walk(alloc, sides, labels, from, to)?;
    text.append(b"walk")?;
    append_two(text, name_of_vertex(spec, from), name_of_vertex(spec, to))?;
    text.append(b":")?;
    append_edges(text, spec, edges.items())?;
    text.append(b"\n")
}

// Appends the line of the leftmost walk between a vertex and a bound.
fn append_shown(
    alloc: Global,
    text: &mut Text,
    spec: &GraphSpec,
    sides: &Sides,
    labels: &Labels,
    op: Operation,
    u: VertexId,
    bound: VertexId,
) -> Result<(), NoMemory>
    requires labels { AreLabels sides.now labels.now }
    requires vertices { sides.now.vertices ≡ spec.now.graph.vertices }
    requires edges { edge_count sides.now ≡ length spec.now.graph.ends }
    requires u_there { u.0 < sides.now.vertices }
    requires bound_there { bound.0 < sides.now.vertices }
    requires leads { ReachesBound op sides.now u.0 bound.0 }
    ensures { OnOk result ((line : List ℕ) × ShowsBound op spec.now sides.now u.0 bound.0 line × (text.new ≡ text.old ++ line)) }
{
    match op {
        Operation::Join => append_walk(alloc, text, spec, sides, labels, u, bound),
        Operation::Meet => append_walk(alloc, text, spec, sides, labels, bound, u),
    }
}

// The bound of two vertices.
fn bound_of(sides: &Sides, labels: &Labels, op: Operation, u: VertexId, v: VertexId) -> VertexId
    requires labels { AreLabels sides.now labels.now }
    requires u_there { u.0 < sides.now.vertices }
    requires v_there { v.0 < sides.now.vertices }
    ensures is { IsBound op sides.now u.0 v.0 result.0 }
    ensures there { result.0 < sides.now.vertices }
    ensures first { ReachesBound op sides.now u.0 result.0 }
    ensures second { ReachesBound op sides.now v.0 result.0 }
{
    match op {
        Operation::Join => join(sides, labels, u, v),
        Operation::Meet => meet(sides, labels, u, v),
    }
}

// The three lines of the bound of two vertices.
fn lines_of(
    alloc: Global,
    spec: &GraphSpec,
    sides: &Sides,
    op: Operation,
    u: VertexId,
    v: VertexId,
) -> Result<Text, NoMemory>
    requires vertices { sides.now.vertices ≡ spec.now.graph.vertices }
    requires edges { edge_count sides.now ≡ length spec.now.graph.ends }
    requires u_there { u.0 < sides.now.vertices }
    requires v_there { v.0 < sides.now.vertices }
    ensures { IfOk result (TellsBound op spec.now sides.now u.0 v.0) }
{
    let labels = labels(alloc, sides)?;
    let bound = bound_of(sides, &labels, op, u, v);
    let mut text = Text::new(alloc);
    append_bound(
        &mut text,
        op,
        name_of_vertex(spec, u),
        name_of_vertex(spec, v),
        name_of_vertex(spec, bound),
    )?;
    append_shown(alloc, &mut text, spec, sides, &labels, op, u, bound)?;
    append_shown(alloc, &mut text, spec, sides, &labels, op, v, bound)?;
    Ok(text)
}

// The same from the planar st-graph of the file.
fn lines_in(
    alloc: Global,
    spec: &GraphSpec,
    graph: &StGraph,
    op: Operation,
    u: VertexId,
    v: VertexId,
) -> Result<Text, NoMemory>
    requires found { IsFound spec.now graph.now }
    requires u_there { u.0 < spec.now.graph.vertices }
    requires v_there { v.0 < spec.now.graph.vertices }
    ensures { IfOk result (λ out. (x : SidesValue) × AreSidesIn graph.now x × TellsBound op spec.now x u.0 v.0 out) }
{
    let sides = Sides::of(alloc, graph)?;
    sides.facts();
    lines_of(alloc, spec, &sides, op, u, v)
}

/// The join or the meet of two vertices, with the leftmost walks that show it; or the first name that no vertex has.
///
/// Errors: `UnknownVertex`, `NoMemory`.
/// Cost: O(V + E) time and memory for the sides and the labels, and the text. Not proved.
pub fn answer_lattice(
    alloc: Global,
    spec: &GraphSpec,
    graph: &StGraph,
    op: Operation,
    from: i64,
    to: i64,
) -> Result<Text, Stop>
    requires found { IsFound spec.now graph.now }
    ensures { Gives (AnswersLattice op from to spec.now graph.now) result }
{
    let Some(u) = spec.vertex_of(from) else {
        return Err(unknown(from));
    };
    let Some(v) = spec.vertex_of(to) else {
        return Err(unknown(to));
    };
    match lines_in(alloc, spec, graph, op, u, v) {
        Ok(text) => Ok(text),
        Err(NoMemory) => Err(Stop::NoMemory),
    }
}
