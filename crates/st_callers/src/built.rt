//! A graph drawn with weights of the program's own. The text of the drawing is counted, and not kept.
ghost use Rattle.std.specs.Prelude.{◌≡◌, ◌*◌, ◌≤◌, [], ◌∷◌, pos, IfOk, IfSome};
ghost use Rattle.st_ids.specs.declared.limits.TheConstants.{MOST_COORDINATE};
ghost use Rattle.st_number.specs.Weighing.{AreLawfulWeights};
ghost use Rattle.st_picture.specs.Naming.{AreNames};
ghost use Rattle.st_sides.specs.Sides.{edge_count};
ghost use Rattle.st_sides.specs.SidesOf.{IsSidesOf};
ghost use Rattle.st_callers.specs.Built.{IsLengthBy, IsTriangleLength, own_weight, triangle_naming};

use crate::building::triangle;
use draw_vis::visibility;
use eps_core::laws::short_text;
use eps_core::write_eps;
use st_ids::{EdgeId, Id, IdVec, Names, NoMemory, Text, VertexId};
use st_number::Weights;
use st_port::CountSink;
use st_sides::Sides;
use st_test::StGraph;
use std::alloc::Global;

/// How long the text of the graph's visibility drawing is, with these weights and names.
///
/// Errors: `NoMemory`.
/// Cost: that of `visibility` and of `write_eps`; the text takes no memory.
pub fn text_length<F: Fn(EdgeId) -> u32>(
    alloc: Global,
    graph: &StGraph,
    sides: &Sides,
    weights: &Weights<F>,
    names: &Names,
) -> Result<u64, NoMemory>
    requires sides { IsSidesOf graph.now.map.graph graph.now.source graph.now.sink graph.now.outer sides.now }
    requires names { AreNames sides.now names.now }
    requires weights { weights.now.edges ≡ edge_count sides.now }
    requires lawful { AreLawfulWeights F.pre F.post weights.now }
    requires high { sides.now.vertices * weights.now.most ≤ MOST_COORDINATE }
    requires wide { edge_count sides.now ≤ MOST_COORDINATE }
    ensures { IfOk result (IsLengthBy (F.post weights.now.closure) sides.now names.now) }
{
    let picture = visibility(alloc, graph, sides, weights, names)?;
    short_text();
    let mut sink = CountSink::new();
    let _ = write_eps(&mut sink, &picture);
    Ok(sink.bytes())
}

// The numbers 1, 2 and 3 as names.
fn three<K: Id>(alloc: Global) -> Result<IdVec<K, i64>, NoMemory>
    ensures { IfOk result (λ names. names ≡ pos 1 ∷ pos 2 ∷ pos 3 ∷ []) }
{
    let mut names: IdVec<K, i64> = IdVec::new(alloc);
    names.push(1)?;
    names.push(2)?;
    names.push(3)?;
    Ok(names)
}

// The names of the triangle, without labels.
fn triangle_names(alloc: Global) -> Result<Names, NoMemory>
    ensures { IfOk result (λ names. names ≡ triangle_naming) }
{
    let mut label: IdVec<VertexId, Option<Text>> = IdVec::new(alloc);
    label.push(None)?;
    label.push(None)?;
    label.push(None)?;
    Ok(Names {
        vertex: three(alloc)?,
        edge: three(alloc)?,
        label,
    })
}

/// How long the text of the triangle's drawing is, where the long edge takes five rows and the others one each. `None` where
/// memory runs out.
pub fn triangle_length(alloc: Global) -> Option<u64>
    ensures { IfSome result IsTriangleLength }
{
    let Some(graph) = triangle(alloc) else {
        return None
    };
    let Ok(sides) = Sides::of(alloc, &graph) else {
        return None
    };
    let Ok(names) = triangle_names(alloc) else {
        return None
    };
    let weigh = |e: EdgeId| -> u32
        ensures { result ≡ own_weight e.0 }
    { if e.0 == 2 { 5 } else { 1 } };
    let weights = Weights::new(weigh, sides.edges(), 5);
    text_length(alloc, &graph, &sides, &weights, &names).ok()
}
