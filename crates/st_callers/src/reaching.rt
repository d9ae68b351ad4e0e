//! Thousands of questions about one graph: two numbers for each vertex, and then two comparisons a question.
ghost use Rattle.std.specs.Prelude.{◌≡◌, IfOk, length};
ghost use Rattle.st_ids.specs.Graph.{arcs_of};
ghost use Rattle.st_ids.specs.Walks.{Reaches};
ghost use Rattle.st_map.specs.Embedded.{bare};
ghost use Rattle.st_callers.specs.Reaching.{AnswersEach, ArePairsBelow};
ghost use Rattle.st_order.specs.Labels.{AreAtMost};

use st_ids::{NoMemory, VertexId};
use st_order::{Labels, labels};
use st_sides::Sides;
use st_test::StGraph;
use std::alloc::Global;

// For each pair whether the two numbers of its first vertex are at most those of its second.
fn compared(
    alloc: Global,
    labels: &Labels,
    pairs: &[(VertexId, VertexId)],
) -> Result<Vec<bool>, NoMemory>
    requires x { ArePairsBelow (length labels.now.x) pairs.now }
    requires y { ArePairsBelow (length labels.now.y) pairs.now }
    ensures size { IfOk result (λ answers. length answers.items ≡ length pairs.now) }
    ensures each { IfOk result (λ answers. AnswersEach (AreAtMost labels.now) pairs.now answers.items) }
{
    let mut answers = Vec::new(alloc);
    for i in 0..pairs.len() {
        let (u, v) = pairs[i];
        answers.push(labels.reaches(u, v))?;
    }
    Ok(answers)
}

/// For each pair whether a walk leads from its first vertex to its second. A vertex reaches itself.
///
/// Condition: the vertices of the pairs are there.
/// Errors: `NoMemory`.
/// Cost: O(V + E) time and memory for the numbers, and O(1) for each pair.
#[tactic(auto, using(crate::proofs::ReachingLemmas::below_x, crate::proofs::ReachingLemmas::below_y))]
pub fn reached(
    alloc: Global,
    graph: &StGraph,
    pairs: &[(VertexId, VertexId)],
) -> Result<Vec<bool>, NoMemory>
    requires { ArePairsBelow graph.now.map.graph.vertices pairs.now }
    ensures size { IfOk result (λ answers. length answers.items ≡ length pairs.now) }
    ensures each { IfOk result (λ answers. AnswersEach (Reaches (arcs_of (bare graph.now.map.graph))) pairs.now answers.items) }
{
    let sides = Sides::of(alloc, graph)?;
    let labels = labels(alloc, &sides)?;
    compared(alloc, &labels, pairs)
}
