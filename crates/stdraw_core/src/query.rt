//! The answer to a query: for each pair of names whether the first vertex reaches the second, and where both stand in the
//! dominance drawing.
ghost use Rattle.std.specs.Prelude.{◌≡◌, ◌++◌, ◌≤◌, length, IfOk, OnOk};
ghost use Rattle.stdraw_core.specs.Query.{AreDrawnPoints, DecideReaching, answer_word, spelled, line_of_pair};
ghost use Rattle.st_verdict.specs.Stops.{Gives};
ghost use Rattle.st_verdict.specs.Verdict.{IsFound};
ghost use Rattle.st_ids.specs.declared.limits.TheConstants.{MOST_VERTICES, MOST_EDGES};
ghost use Rattle.stdraw_core.specs.Query.{AnswersPairs, AnswersQuery};

use crate::number::append_number;
use draw_dom::{dominance_points, reaches_by};
use st_ids::{IdVec, NoMemory, Text, VertexId};
use st_input::GraphSpec;
use st_report::{Refusal, Stop};
use st_shape::Point;
use st_sides::Sides;
use st_test::StGraph;
use std::alloc::Global;

// The answer, and the end of a point.
fn word_of(reached: bool) -> &'static [u8]
    ensures { result.now ≡ answer_word reached }
{
    if reached { b" yes " } else { b" no " }
}

// Appends both coordinates, and what follows.
fn append_point(text: &mut Text, p: Point, tail: &[u8]) -> Result<(), NoMemory>
    ensures { OnOk result (text.new ≡ text.old ++ spelled p tail.now) }
{
    append_number(text, p.x, b" ")?;
    append_number(text, p.y, tail)
}

/// Appends the line of a pair.
pub fn append_line(
    text: &mut Text,
    from: i64,
    to: i64,
    reached: bool,
    p: Point,
    q: Point,
) -> Result<(), NoMemory>
    ensures { OnOk result (text.new ≡ text.old ++ line_of_pair from to reached p q) }
{
    append_number(text, from, b" ")?;
    append_number(text, to, word_of(reached))?;
    append_point(text, p, b" ")?;
    append_point(text, q, b"\n")
}

/// The refusal of a name that no vertex has.
pub fn unknown(name: i64) -> Stop
    ensures { result ≡ Stop.Refused (Refusal.UnknownVertex name) }
{
    Stop::Refused(Refusal::UnknownVertex(name))
}

// One line a pair, or the first name that no vertex has.
fn lines_of(
    alloc: Global,
    spec: &GraphSpec,
    pairs: &[(i64, i64)],
    points: &IdVec<VertexId, Point>,
) -> Result<Text, Stop>
    requires reaching { DecideReaching spec.now.graph points.now }
    requires size { length points.now ≡ spec.now.graph.vertices }
    ensures { Gives (AnswersPairs pairs.now spec.now points.now) result }
{
    let mut text = Text::new(alloc);
    for i in 0..pairs.len() {
        let (from, to) = pairs[i];
        let Some(u) = spec.vertex_of(from) else {
            return Err(unknown(from));
        };
        let Some(v) = spec.vertex_of(to) else {
            return Err(unknown(to));
        };
        let reached = reaches_by(points, u, v);
        let p = *points.get(u);
        let q = *points.get(v);
        if append_line(&mut text, from, to, reached, p, q).is_err() {
            return Err(Stop::NoMemory);
        }
    }
    Ok(text)
}

// The points of the vertices in the dominance drawing of the file.
fn points_in(
    alloc: Global,
    spec: &GraphSpec,
    graph: StGraph,
) -> Result<IdVec<VertexId, Point>, NoMemory>
    requires found { IsFound spec.now graph }
    requires high { spec.now.graph.vertices ≤ MOST_VERTICES }
    requires wide { length spec.now.graph.ends ≤ MOST_EDGES }
    ensures points { IfOk result (λ points. AreDrawnPoints spec.now graph points) }
    ensures reaching { IfOk result (λ points. DecideReaching spec.now.graph points) }
    ensures size { IfOk result (λ points. length points ≡ spec.now.graph.vertices) }
{
    let sides = Sides::of(alloc, &graph)?;
    sides.facts();
    dominance_points(alloc, graph, &sides)
}

/// One line a pair, with the points of both vertices in the dominance drawing; or the first name that no vertex has.
///
/// Errors: `UnknownVertex`, `NoMemory`.
/// Cost: O(V + E) time and memory for the points, O(1) for each pair, and the text. Not proved.
pub fn answer_query(
    alloc: Global,
    spec: &GraphSpec,
    graph: StGraph,
    pairs: &[(i64, i64)],
) -> Result<Text, Stop>
    requires found { IsFound spec.now graph }
    requires high { spec.now.graph.vertices ≤ MOST_VERTICES }
    requires wide { length spec.now.graph.ends ≤ MOST_EDGES }
    ensures { Gives (AnswersQuery pairs.now spec.now graph) result }
{
    match points_in(alloc, spec, graph) {
        Ok(points) => lines_of(alloc, spec, pairs, &points),
        Err(NoMemory) => Err(Stop::NoMemory),
    }
}
