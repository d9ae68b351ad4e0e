//! The answer to a session: the records of a file are carried out on its graph, one after the other, and each
//! question gets one line.
ghost use Rattle.std.specs.Prelude.{◌≡◌, ◌≤◌, ℕ, List, [], length, OnOk, Ok};
ghost use Rattle.gml_core.specs.Readers.{TreeStandsFor};
ghost use Rattle.gml_core.specs.Sound.{IsSound};
ghost use Rattle.gml_core.specs.Views.{view};
ghost use Rattle.st_input.specs.InputGraph.{IsConsistent};
ghost use Rattle.st_verdict.specs.File.{IsTree};
ghost use Rattle.st_verdict.specs.Stages.{Then};
ghost use Rattle.st_verdict.specs.Stops.{Gives, StopsAt};
ghost use Rattle.st_verdict.specs.Verdict.{IsFound};
ghost use Rattle.stdraw_core.specs.Session.{AnswersCalls, AnswersRecords, AnswersScript, AnswersTree, AreFewRecords, Carries, IsAnsweredAsk, IsAsked, IsScriptIn, call_of, calls_of, edit_result, edit_stop, so_far};

use crate::query::{append_line, unknown};
use gml_core::{Tree, TreeReader};
use st_ids::limits::{MOST_EDGES, MOST_RECORDS, MOST_VERTICES};
use st_ids::{NoMemory, Text};
use st_input::{GraphSpec, ShapeFault};
use st_report::{BadEdit, Refusal, Stop};
use st_script::{Script, ScriptFault, ScriptItem, read_script};
use st_session::{AskFault, EditFault, Session};
use st_shape::Point;
use st_test::StGraph;
use st_verdict::{accept, graph_of, tree_from};
use std::alloc::Global;

// How a fault of an edit stops the run.
fn stop_of_edit(number: u32, fault: EditFault) -> Stop
    ensures { result ≡ edit_stop number fault }
{
    let fault = match fault {
        EditFault::UsedVertex { name } => BadEdit::UsedVertex { name },
        EditFault::UsedEdge { name } => BadEdit::UsedEdge { name },
        EditFault::UnknownVertex { name } => BadEdit::UnknownVertex { name },
        EditFault::UnknownEdge { name } => BadEdit::UnknownEdge { name },
        EditFault::Loop => BadEdit::Loop,
        EditFault::NotAt { edge, vertex } => BadEdit::NotAt { edge, vertex },
        EditFault::TooManyVertices { n } => {
            return Stop::Refused(Refusal::Shape(ShapeFault::TooManyVertices { n }));
        }
        EditFault::TooManyEdges { m } => {
            return Stop::Refused(Refusal::Shape(ShapeFault::TooManyEdges { m }));
        }
        EditFault::OuterCorner => BadEdit::OuterCorner,
        EditFault::Cycle { tail, head } => BadEdit::Cycle { tail, head },
        EditFault::OtherFace => BadEdit::OtherFace,
        EditFault::Source { vertex } => BadEdit::Source { vertex },
        EditFault::Sink { vertex } => BadEdit::Sink { vertex },
        EditFault::NoMemory => return Stop::NoMemory,
    };
    Stop::Refused(Refusal::Edit { number, fault })
}

// What is answered after an edit of this record.
fn edited(number: u32, done: Result<(), EditFault>) -> Result<(), Stop>
    ensures { result ≡ edit_result number done }
{
    match done {
        Ok(()) => Ok(()),
        Err(fault) => Err(stop_of_edit(number, fault)),
    }
}

// Appends the line of a question, or tells its fault.
fn answer_ask(session: &mut Session, text: &mut Text, from: i64, to: i64) -> Result<(), Stop>
    ensures reply { OnOk result (IsAnsweredAsk from to session.old.state text.old text.new) }
    ensures fault { StopsAt (IsAsked from to session.old.state) result }
    ensures kept { session.new ≡ session.old }
{
    let reply = match session.ask(from, to) {
        Ok(reply) => reply,
        Err(AskFault::UnknownVertex { name }) => return Err(unknown(name)),
        Err(AskFault::NoMemory) => return Err(Stop::NoMemory),
    };
    let p = Point {
        x: reply.from_x as i64,
        y: reply.from_y as i64,
    };
    let q = Point {
        x: reply.to_x as i64,
        y: reply.to_y as i64,
    };
    match append_line(text, from, to, reply.reaches, p, q) {
        Ok(()) => Ok(()),
        Err(NoMemory) => Err(Stop::NoMemory),
    }
}

// Carries out one record.
fn carry(session: &mut Session, text: &mut Text, number: u32, item: ScriptItem) -> Result<(), Stop>
    ensures carried { OnOk result (Carries number (call_of item) (so_far session.old text.old) (Ok (so_far session.new text.new))) }
    ensures refused { StopsAt (Carries number (call_of item) (so_far session.old text.old)) result }
{
    match item {
        ScriptItem::Split {
            edge,
            vertex,
            new_edge,
        } => edited(number, session.split(edge, vertex, new_edge)),
        ScriptItem::Insert {
            edge,
            tail,
            tail_after,
            head,
            head_after,
        } => edited(
            number,
            session.insert(edge, tail, tail_after, head, head_after),
        ),
        ScriptItem::Remove { edge } => edited(number, session.remove(edge)),
        ScriptItem::Ask { from, to } => answer_ask(session, text, from, to),
    }
}

// One line a question, or the refusal of the first refused record.
fn lines_of(alloc: Global, session: &mut Session, items: &[ScriptItem]) -> Result<Text, Stop>
    requires { length items.now ≤ MOST_RECORDS }
    ensures { Gives (AnswersCalls 0 (calls_of items.now) (so_far session.old [])) result }
{
    let mut text = Text::new(alloc);
    for i in 0..items.len() {
        match carry(session, &mut text, i as u32, items[i]) {
            Ok(()) => {}
            Err(stop) => return Err(stop),
        }
    }
    Ok(text)
}

// What the records answer about a planar st-graph. The tables of the file are dropped first.
fn answer_script(
    alloc: Global,
    items: &[ScriptItem],
    spec: GraphSpec,
    graph: StGraph,
) -> Result<Text, Stop>
    requires tables { IsConsistent spec }
    requires found { IsFound spec graph }
    requires high { spec.graph.vertices ≤ MOST_VERTICES }
    requires wide { length spec.graph.ends ≤ MOST_EDGES }
    requires few { length items.now ≤ MOST_RECORDS }
    ensures { Gives (AnswersScript items.now spec graph) result }
{
    let session = Session::new(alloc, graph, spec.names(), MOST_VERTICES, MOST_EDGES);
    drop(spec);
    match session {
        Ok(mut session) => lines_of(alloc, &mut session, items),
        Err(NoMemory) => Err(Stop::NoMemory),
    }
}

// Whether there are no more records than the limit.
fn few_records(items: &[ScriptItem]) -> Result<(), Stop>
    ensures { Gives (AreFewRecords items.now) result }
{
    if items.len() > MOST_RECORDS as usize {
        return Err(Stop::Refused(Refusal::TooManyRecords(items.len())));
    }
    Ok(())
}

// What the records answer about a graph.
fn answer_records(alloc: Global, items: &[ScriptItem], spec: GraphSpec) -> Result<Text, Stop>
    requires tables { IsConsistent spec }
    requires high { spec.graph.vertices ≤ MOST_VERTICES }
    requires wide { length spec.graph.ends ≤ MOST_EDGES }
    ensures { Gives (AnswersRecords items.now spec) result }
{
    match few_records(items) {
        Ok(()) => {}
        Err(stop) => return Err(stop),
    }
    let graph = match accept(alloc, &spec) {
        Ok(graph) => graph,
        Err(stop) => return Err(stop),
    };
    answer_script(alloc, items, spec, graph)
}

// The records of the tree, or the first bad one.
fn script_of(alloc: Global, tree: &Tree) -> Result<Script, Stop>
    requires { IsSound (view tree.now) }
    ensures { Gives (IsScriptIn (view tree.now)) result }
{
    match read_script(alloc, tree) {
        Ok(script) => Ok(script),
        Err(ScriptFault::BadRecord { at }) => Err(Stop::Refused(Refusal::BadRecord(at))),
        Err(ScriptFault::NoMemory) => Err(Stop::NoMemory),
    }
}

// What is answered to a tree. It is dropped before the graph is tested.
fn answer_tree(alloc: Global, tree: Tree) -> Result<Text, Stop>
    requires { IsSound (view tree) }
    ensures { Gives (AnswersTree (view tree)) result }
{
    let script = match script_of(alloc, &tree) {
        Ok(script) => script,
        Err(stop) => return Err(stop),
    };
    let spec = match graph_of(alloc, &tree) {
        Ok(spec) => spec,
        Err(stop) => return Err(stop),
    };
    drop(tree);
    answer_records(alloc, script.items(), spec)
}

/// What a session answers to the bytes that the reader was fed: one line for each question of the file, or the
/// first reason why not all of its records can be carried out.
///
/// Errors: `Gml`, `BadRecord`, `Shape`, `TooManyRecords`, `NotSt`, `Edit`, `UnknownVertex`, `NoMemory`.
/// Cost: that of reading and testing the graph; an edit costs the degrees of its vertices and the lengths of its
/// faces, and the first question after an edit, as an insert, O(V + E). Not proved.
pub fn answer_session(alloc: Global, reader: TreeReader) -> Result<Text, Stop>
    requires { (b : List ℕ) × TreeStandsFor reader b }
    ensures { (b : List ℕ) → TreeStandsFor reader b → Gives (Then (IsTree b) AnswersTree) result }
{
    let tree = match tree_from(reader) {
        Ok(tree) => tree,
        Err(stop) => return Err(stop),
    };
    answer_tree(alloc, tree)
}
