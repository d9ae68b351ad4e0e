//! The picture of a graph, in the form that the words name.
ghost use Rattle.std.specs.Prelude.{All, slice_index, ◌≡◌, ◌≤◌, ◌≤ℤ◌, ℕ, pos, IfOk, length};
ghost use Rattle.draw_poly.specs.Numbers.{IsLongOnParallels};
ghost use Rattle.draw_poly.specs.Placing.{AreEnds, IsPlacement};
ghost use Rattle.st_number.specs.Spread.{AreSpreadRows};
ghost use Rattle.st_number.specs.Weighing.{AreLawfulWeights};
ghost use Rattle.st_picture.specs.Naming.{AreNames};
ghost use Rattle.st_sides.specs.Sides.{edge_count};
ghost use Rattle.st_sides.specs.SidesOf.{IsSidesOf};
ghost use Rattle.st_input.specs.InputGraph.{IsConsistent};
ghost use Rattle.st_ids.specs.Lengths.{IsLength};
ghost use Rattle.stdraw_core.specs.Drawing.{AnswersLengths, AnswersPlaces, AnswersRows, Depicts, IsPictureOf, IsReducedPicture, IsPlacedPolyline, spot_place};
ghost use Rattle.stdraw_core.specs.Paths.{AreSidesIn};
ghost use Rattle.st_verdict.specs.Stops.{Gives, StopsAt};
ghost use Rattle.st_verdict.specs.Verdict.{IsFound};
ghost use Rattle.st_ids.specs.declared.limits.TheConstants.{MOST_VERTICES, MOST_EDGES, MOST_LENGTH};
ghost use Rattle.stdraw_core.specs.Drawing.{AnswersDraw};

use crate::output::Output;
use crate::paths::aligned_picture;
use draw_dom::dominance;
use draw_poly::{Placer, polyline};
use draw_vis::{tessellation, visibility};
use st_ids::limits::MOST_LENGTH;
use st_ids::{EdgeId, IdVec, Names, NoMemory};
use st_input::GraphSpec;
use st_number::{Weights, spread};
use st_report::Stop;
use st_shape::Picture;
use st_sides::{Sides, laws};
use st_test::StGraph;
use st_words::{DrawForm, Spot};
use std::alloc::Global;

// The column of the spot between the ends of a bar.
fn column_of(spot: Spot, lo: i64, hi: i64) -> i64
    requires { AreEnds lo hi }
    ensures from { lo ≤ℤ result }
    ensures to { result ≤ℤ hi }
    ensures value { (l h : ℕ) → lo ≡ pos l → hi ≡ pos h → l ≤ h → result ≡ pos (spot_place spot l h) }
{
    match spot {
        Spot::Left => lo,
        Spot::Middle => lo + (hi - lo) / 2,
        Spot::Right => hi,
    }
}

// The polyline picture, where the closures answer rows and columns.
fn placed_polyline<F: Fn(EdgeId) -> u32, G: Fn(i64, i64) -> i64>(
    alloc: Global,
    spot: Spot,
    graph: &StGraph,
    sides: &Sides,
    _lengths: &IdVec<EdgeId, u32>,
    rows: &Weights<F>,
    placer: &Placer<G>,
    names: &Names,
) -> Result<Picture, NoMemory>
    requires sides { IsSidesOf graph.now.map.graph graph.now.source graph.now.sink graph.now.outer sides.now }
    requires names { AreNames sides.now names.now }
    requires weights { rows.now.edges ≡ edge_count sides.now }
    requires lawful { AreLawfulWeights F.pre F.post rows.now }
    requires most { rows.now.most ≤ MOST_LENGTH }
    requires long { IsLongOnParallels (F.post rows.now.closure) graph.now.map.graph }
    requires rows { AnswersRows (F.post rows.now.closure) graph.now.map.graph (slice_index _lengths.now) }
    requires placement { IsPlacement G.pre G.post placer.now }
    requires places { AnswersPlaces spot (G.post placer.now.closure) }
    requires high { sides.now.vertices ≤ MOST_VERTICES }
    requires wide { edge_count sides.now ≤ MOST_EDGES }
    ensures { IfOk result (IsPlacedPolyline spot graph.now.map.graph (slice_index _lengths.now) sides.now names.now) }
{
    laws::local(sides);
    polyline(alloc, graph, sides, rows, placer, names)
}

// The polyline picture, with each vertex at this spot of its bar. The rows are the lengths, spread for parallel edges.
fn spread_polyline(
    alloc: Global,
    spot: Spot,
    graph: &StGraph,
    sides: &Sides,
    lengths: &IdVec<EdgeId, u32>,
    rows: &IdVec<EdgeId, u32>,
    names: &Names,
) -> Result<Picture, NoMemory>
    requires sides { IsSidesOf graph.now.map.graph graph.now.source graph.now.sink graph.now.outer sides.now }
    requires names { AreNames sides.now names.now }
    requires rows { AreSpreadRows graph.now.map.graph lengths.now rows.now }
    requires size { length rows.now ≡ edge_count sides.now }
    requires fit { All IsLength rows.now }
    requires high { sides.now.vertices ≤ MOST_VERTICES }
    requires wide { edge_count sides.now ≤ MOST_EDGES }
    ensures { IfOk result (IsPlacedPolyline spot graph.now.map.graph (slice_index lengths.now) sides.now names.now) }
{
    let weights = Weights::new(|e: EdgeId| *rows.get(e), sides.edges(), MOST_LENGTH);
    let place = |lo: i64, hi: i64| column_of(spot, lo, hi);
    let placer = Placer::new(place);
    placed_polyline(alloc, spot, graph, sides, lengths, &weights, &placer, names)
}

// The polyline picture, with each vertex at this spot of its bar.
fn polyline_of(
    alloc: Global,
    spot: Spot,
    graph: &StGraph,
    sides: &Sides,
    lengths: &IdVec<EdgeId, u32>,
    names: &Names,
) -> Result<Picture, NoMemory>
    requires sides { IsSidesOf graph.now.map.graph graph.now.source graph.now.sink graph.now.outer sides.now }
    requires names { AreNames sides.now names.now }
    requires size { length lengths.now ≡ edge_count sides.now }
    requires lengths { All IsLength lengths.now }
    requires high { sides.now.vertices ≤ MOST_VERTICES }
    requires wide { edge_count sides.now ≤ MOST_EDGES }
    ensures { IfOk result (IsPlacedPolyline spot graph.now.map.graph (slice_index lengths.now) sides.now names.now) }
{
    let rows = spread(alloc, graph, lengths)?;
    spread_polyline(alloc, spot, graph, sides, lengths, &rows, names)
}

// The dominance picture.
fn dominance_of(
    alloc: Global,
    graph: StGraph,
    sides: &Sides,
    names: &Names,
) -> Result<Picture, NoMemory>
    requires sides { IsSidesOf graph.map.graph graph.source graph.sink graph.outer sides.now }
    requires names { AreNames sides.now names.now }
    requires high { sides.now.vertices ≤ MOST_VERTICES }
    requires wide { edge_count sides.now ≤ MOST_EDGES }
    ensures { IfOk result (IsReducedPicture graph sides.now names.now) }
{
    let drawn = dominance(alloc, graph, sides, names)?;
    Ok(drawn.picture)
}

// The picture of the form, or why the paths can't be drawn. In the forms of bars an edge weighs its length.
fn picture_of<F: Fn(EdgeId) -> u32>(
    alloc: Global,
    form: DrawForm,
    spec: &GraphSpec,
    graph: StGraph,
    sides: &Sides,
    lengths: &IdVec<EdgeId, u32>,
    rows: &Weights<F>,
    names: &Names,
) -> Result<Picture, Stop>
    requires tables { IsConsistent spec.now }
    requires found { IsFound spec.now graph }
    requires sides { AreSidesIn graph sides.now }
    requires names { AreNames sides.now names.now }
    requires weights { rows.now.edges ≡ edge_count sides.now }
    requires lawful { AreLawfulWeights F.pre F.post rows.now }
    requires most { rows.now.most ≤ MOST_LENGTH }
    requires rows { AnswersLengths (F.post rows.now.closure) spec.now }
    requires lengths { lengths.now ≡ spec.now.lengths }
    requires size { length lengths.now ≡ edge_count sides.now }
    requires fit { All IsLength lengths.now }
    requires high { sides.now.vertices ≤ MOST_VERTICES }
    requires wide { edge_count sides.now ≤ MOST_EDGES }
    ensures picture { IfOk result (IsPictureOf form spec.now graph sides.now names.now) }
    ensures refused { StopsAt (AnswersDraw form spec.now graph) result }
{
    match form {
        DrawForm::Visibility => Ok(visibility(alloc, &graph, sides, rows, names)?),
        DrawForm::Tessellation => Ok(tessellation(alloc, &graph, sides, rows, names)?),
        DrawForm::Constrained => aligned_picture(alloc, spec, &graph, sides, rows, names),
        DrawForm::Polyline(spot) => Ok(polyline_of(alloc, spot, &graph, sides, lengths, names)?),
        DrawForm::Dominance => Ok(dominance_of(alloc, graph, sides, names)?),
    }
}

// The same, where each edge weighs its length.
fn weighed(
    alloc: Global,
    form: DrawForm,
    spec: &GraphSpec,
    graph: StGraph,
    sides: &Sides,
    lengths: &IdVec<EdgeId, u32>,
    names: &Names,
) -> Result<Picture, Stop>
    requires tables { IsConsistent spec.now }
    requires found { IsFound spec.now graph }
    requires sides { AreSidesIn graph sides.now }
    requires names { AreNames sides.now names.now }
    requires lengths { lengths.now ≡ spec.now.lengths }
    requires size { length lengths.now ≡ edge_count sides.now }
    requires fit { All IsLength lengths.now }
    requires high { sides.now.vertices ≤ MOST_VERTICES }
    requires wide { edge_count sides.now ≤ MOST_EDGES }
    ensures picture { IfOk result (IsPictureOf form spec.now graph sides.now names.now) }
    ensures refused { StopsAt (AnswersDraw form spec.now graph) result }
{
    let rows = Weights::new(|e: EdgeId| *lengths.get(e), sides.edges(), MOST_LENGTH);
    picture_of(alloc, form, spec, graph, sides, lengths, &rows, names)
}

/// The picture of the form, by the sides of the planar st-graph.
///
/// Errors: `Path`, for the form that looks at paths; `NoMemory`.
/// Cost: O(V + E) time and memory, and for paths that cross a logarithm more. Not proved.
pub fn depict(
    alloc: Global,
    form: DrawForm,
    spec: &GraphSpec,
    graph: StGraph,
) -> Result<Picture, Stop>
    requires tables { IsConsistent spec.now }
    requires found { IsFound spec.now graph }
    requires high { spec.now.graph.vertices ≤ MOST_VERTICES }
    requires wide { length spec.now.graph.ends ≤ MOST_EDGES }
    ensures ok { IfOk result (Depicts form spec.now graph) }
    ensures err { StopsAt (AnswersDraw form spec.now graph) result }
{
    let sides = match Sides::of(alloc, &graph) {
        Ok(sides) => sides,
        Err(NoMemory) => return Err(Stop::NoMemory),
    };
    sides.facts();
    match weighed(
        alloc,
        form,
        spec,
        graph,
        &sides,
        spec.lengths(),
        spec.names(),
    ) {
        Ok(picture) => {
            let _ = picture.items();
            Ok(picture)
        }
        Err(stop) => Err(stop),
    }
}

/// The picture of the form; its text is made while it is written.
///
/// Errors: `NoMemory`.
/// Cost: that of `depict`.
pub fn answer_draw(
    alloc: Global,
    form: DrawForm,
    spec: &GraphSpec,
    graph: StGraph,
) -> Result<Output, Stop>
    requires tables { IsConsistent spec.now }
    requires found { IsFound spec.now graph }
    requires high { spec.now.graph.vertices ≤ MOST_VERTICES }
    requires wide { length spec.now.graph.ends ≤ MOST_EDGES }
    ensures { Gives (AnswersDraw form spec.now graph) result }
{
    match depict(alloc, form, spec, graph) {
        Ok(picture) => Ok(Output::picture(picture)),
        Err(stop) => Err(stop),
    }
}
