//! All that the program does.
ghost use Rattle.std.specs.Prelude.{◌≡◌, ◌≢◌, ◌≤◌, ◌+◌, ℕ, List, length, map, IfOk, IsErrOf};
ghost use Rattle.std.specs.String.{string_bytes};
ghost use Rattle.st_port.specs.Faults.{GoesOn};
ghost use Rattle.st_input.specs.InputGraph.{IsConsistent};
ghost use Rattle.st_input.specs.Writable.{IsWritable};
ghost use Rattle.st_words.specs.Words.{IsTask, IsFileless};
ghost use Rattle.st_verdict.specs.Stops.{Gives};
ghost use Rattle.st_verdict.specs.Verdict.{IsFound};
ghost use Rattle.stdraw_core.specs.Answer.{AnswersCommand, AnswersGraph};
ghost use Rattle.stdraw_core.specs.Complete.{Complete};
ghost use Rattle.stdraw_core.specs.Exact.{Exact};
ghost use Rattle.stdraw_core.specs.Headline.{CheckHeadline, Headline, LatticeHeadline, OrientHeadline, QueryHeadline, SessionHeadline};
ghost use Rattle.stdraw_core.specs.Run.{Decides, EndsBy, Finds, TakesAtMost, TakesFew};

use crate::bench::answer_bench;
use crate::checked::answer_check;
use crate::drawing::answer_draw;
use crate::generated::answer_gen;
use crate::lattice::answer_lattice;
use crate::oriented::answer_orient;
use crate::output::Output;
use crate::query::answer_query;
use crate::session::answer_session;
use crate::tested::answer_test;
use st_bipolar::laws::{fault_forbids, lists_kept};
use st_ids::limits::{MOST_BYTES, MOST_EDGES, MOST_VERTICES};
use st_ids::{NoMemory, Text};
use st_input::GraphSpec;
use st_input::laws::limits_hold;
use st_port::{Failed, ReadEnd, Sink, Source};
use st_report::{Refusal, Status, Stop, report};
use st_script::laws::one_script;
use st_session::laws::{one_reply, session};
use st_test::StGraph;
use st_test::laws::{no_loop, one_poles_answer};
use st_verdict::laws::{one_graph, one_tree};
use st_verdict::{accept, feed, graph_from};
use st_words::laws::one_task;
use st_words::{Command, Task, task_of};
use st_writer::laws::written_reads_back;
use std::alloc::Global;

// The text as an output.
fn as_output(answer: Result<Text, Stop>) -> Result<Output, Stop>
    ensures { result ≡ answer }
{
    match answer {
        Ok(text) => Ok(Output::text(text)),
        Err(stop) => Err(stop),
    }
}

// What the command answers about a planar st-graph.
fn answer_command(
    alloc: Global,
    command: &Command,
    spec: &GraphSpec,
    graph: StGraph,
) -> Result<Output, Stop>
    requires tables { IsConsistent spec.now }
    requires found { IsFound spec.now graph }
    requires high { spec.now.graph.vertices ≤ MOST_VERTICES }
    requires wide { length spec.now.graph.ends ≤ MOST_EDGES }
    ensures { Gives (AnswersCommand command.now spec.now graph) result }
{
    match command {
        Command::Query(pairs) => as_output(answer_query(alloc, spec, graph, pairs.items())),
        Command::Test => as_output(answer_test(alloc, spec, &graph)),
        Command::Draw(form) => answer_draw(alloc, *form, spec, graph),
        Command::Lattice(op, from, to) => {
            as_output(answer_lattice(alloc, spec, &graph, *op, *from, *to))
        }
    }
}

// What the command answers to a graph.
fn answer_graph(alloc: Global, command: &Command, spec: &GraphSpec) -> Result<Output, Stop>
    requires tables { IsConsistent spec.now }
    requires high { spec.now.graph.vertices ≤ MOST_VERTICES }
    requires wide { length spec.now.graph.ends ≤ MOST_EDGES }
    ensures { Gives (AnswersGraph command.now spec.now) result }
{
    let graph = match accept(alloc, spec) {
        Ok(graph) => graph,
        Err(stop) => return Err(stop),
    };
    answer_command(alloc, command, spec, graph)
}

// The graph of what the source has left, which is read to its end.
fn graph_of_source<S: Source>(alloc: Global, src: &mut S) -> Result<GraphSpec, Stop>
    ensures finds { Finds (S.state src.old) (S.state src.new) result }
    ensures consistent { IfOk result (λ g. IsConsistent g) }
    ensures high { IfOk result (λ g. g.graph.vertices ≤ MOST_VERTICES) }
    ensures wide { IfOk result (λ g. length g.graph.ends ≤ MOST_EDGES) }
    ensures writable { IfOk result (λ g. IsWritable g) }
    ensures taken { TakesAtMost (MOST_BYTES + 4096) (S.state src.old).left (S.state src.new).left }
    ensures count { GoesOn (S.state src.old).faults (S.state src.new).faults }
{
    let reader = match feed(alloc, src) {
        Ok(reader) => reader,
        Err(ReadEnd::Failed) => return Err(Stop::ReadFault),
        Err(ReadEnd::TooLong) => return Err(Stop::Refused(Refusal::TooManyBytes)),
        Err(ReadEnd::NoMemory) => return Err(Stop::NoMemory),
    };
    graph_from(alloc, reader)
}

// What the command answers to what the source has left. The tree of the file is dropped before the graph is tested.
fn answer_source<S: Source>(alloc: Global, command: &Command, src: &mut S) -> Result<Output, Stop>
    ensures decides { (words : List (List ℕ)) → IsTask words (Task.File command.now) → Decides words (S.state src.old) (S.state src.new) result }
    ensures never_words { IsErrOf result (Stop.Refused Refusal.Words) → ⊥ }
    ensures taken { TakesAtMost (MOST_BYTES + 4096) (S.state src.old).left (S.state src.new).left }
    ensures count { GoesOn (S.state src.old).faults (S.state src.new).faults }
{
    let graph = match graph_of_source(alloc, src) {
        Ok(graph) => graph,
        Err(stop) => return Err(stop),
    };
    answer_graph(alloc, command, &graph)
}

// What an orientation answers to what the source has left. The tree of the file is dropped before the graph is oriented.
fn orient_source<S: Source>(alloc: Global, from: i64, to: i64, src: &mut S) -> Result<Text, Stop>
    ensures decides { (words : List (List ℕ)) → IsTask words (Task.Orient from to) → Decides words (S.state src.old) (S.state src.new) result }
    ensures never_words { IsErrOf result (Stop.Refused Refusal.Words) → ⊥ }
    ensures taken { TakesAtMost (MOST_BYTES + 4096) (S.state src.old).left (S.state src.new).left }
    ensures count { GoesOn (S.state src.old).faults (S.state src.new).faults }
{
    let graph = match graph_of_source(alloc, src) {
        Ok(graph) => graph,
        Err(stop) => return Err(stop),
    };
    answer_orient(alloc, graph, from, to)
}

// What a session answers to what the source has left.
fn session_source<S: Source>(alloc: Global, src: &mut S) -> Result<Text, Stop>
    ensures decides { (words : List (List ℕ)) → IsTask words Task.Session → Decides words (S.state src.old) (S.state src.new) result }
    ensures never_words { IsErrOf result (Stop.Refused Refusal.Words) → ⊥ }
    ensures taken { TakesAtMost (MOST_BYTES + 4096) (S.state src.old).left (S.state src.new).left }
    ensures count { GoesOn (S.state src.old).faults (S.state src.new).faults }
{
    let reader = match feed(alloc, src) {
        Ok(reader) => reader,
        Err(ReadEnd::Failed) => return Err(Stop::ReadFault),
        Err(ReadEnd::TooLong) => return Err(Stop::Refused(Refusal::TooManyBytes)),
        Err(ReadEnd::NoMemory) => return Err(Stop::NoMemory),
    };
    answer_session(alloc, reader)
}

// What is answered to the words and to what the source has left.
fn decide<S: Source>(alloc: Global, words: &[String], src: &mut S) -> Result<Output, Stop>
    ensures decides { Decides (map string_bytes words.now) (S.state src.old) (S.state src.new) result }
    ensures words { IsErrOf result (Stop.Refused Refusal.Words) → src.new ≡ src.old }
    ensures unasked { ((task : Task) → IsTask (map string_bytes words.now) task → ⊥) → src.new ≡ src.old }
    ensures generated { (task : Task) → IsTask (map string_bytes words.now) task → IsFileless task → src.new ≡ src.old }
    ensures taken { TakesFew (map string_bytes words.now) (S.state src.old).left (S.state src.new).left }
    ensures count { GoesOn (S.state src.old).faults (S.state src.new).faults }
{
    one_task();
    let task = match task_of(alloc, words) {
        Ok(Some(task)) => task,
        Ok(None) => return Err(Stop::Refused(Refusal::Words)),
        Err(NoMemory) => return Err(Stop::NoMemory),
    };
    match &task {
        Task::File(command) => answer_source(alloc, command, src),
        Task::Check => as_output(answer_check(alloc, src)),
        Task::Orient(from, to) => as_output(orient_source(alloc, *from, *to, src)),
        Task::Session => as_output(session_source(alloc, src)),
        Task::Gen(recipe) => as_output(answer_gen(alloc, *recipe)),
        Task::Bench(recipe, form) => as_output(answer_bench(alloc, *recipe, *form)),
    }
}

// Answers, writes and reports.
fn perform<S: Source, K: Sink, D: Sink>(
    alloc: Global,
    words: &[String],
    src: &mut S,
    out: &mut K,
    diag: &mut D,
) -> Status
    ensures ending { EndsBy (map string_bytes words.now) (S.state src.old) (S.state src.new) (K.state out.old) (K.state out.new) (D.state diag.old) (D.state diag.new) result }

    // What is left as it was, and what was taken.
    ensures words { result ≡ Status.Words → src.new ≡ src.old }
    ensures unasked { ((task : Task) → IsTask (map string_bytes words.now) task → ⊥) → src.new ≡ src.old }
    ensures taken { TakesFew (map string_bytes words.now) (S.state src.old).left (S.state src.new).left }
    ensures generated { (task : Task) → IsTask (map string_bytes words.now) task → IsFileless task → src.new ≡ src.old }
    ensures untouched { result ≢ Status.Done → result ≢ Status.WriteFault → out.new ≡ out.old }
    ensures quiet { result ≡ Status.Done → diag.new ≡ diag.old }

    // Counts of faults never fall.
    ensures source { GoesOn (S.state src.old).faults (S.state src.new).faults }
    ensures output { GoesOn (K.state out.old).faults (K.state out.new).faults }
    ensures diagnostic { GoesOn (D.state diag.old).faults (D.state diag.new).faults }
{
    match decide(alloc, words, src) {
        Ok(output) => match output.emit(out) {
            Ok(()) => Status::Done,
            Err(Failed) => report(diag, &Stop::WriteFault),
        },
        Err(stop) => report(diag, &stop),
    }
}

/// Reads what the words ask for, if it is a file, and writes the answer to `out`, or why there is none to `diag`.
///
/// Everything is computed before the first byte is written; the writing takes no memory. The output is flushed with
/// `Done`, the diagnostic line with every other status. A fault of `diag` changes nothing.
///
/// Errors: each status of `Status` but those of commands that are not built yet.
/// Cost: near linear time in the file, and O(1) for each pair of a query; for each pair of the file about 100 to 170 bytes of
/// memory, and the file itself. Not proved.
pub fn run<S: Source, K: Sink, D: Sink>(
    alloc: Global,
    words: &[String],
    src: &mut S,
    out: &mut K,
    diag: &mut D,
) -> Status
    ensures ending { EndsBy (map string_bytes words.now) (S.state src.old) (S.state src.new) (K.state out.old) (K.state out.new) (D.state diag.old) (D.state diag.new) result }

    // The promise of every drawing, of every query, of every bound, of every orientation, of every session and of every check.
    ensures headline { Headline (map string_bytes words.now) (S.state src.old) (S.state src.new) (K.state out.old) (K.state out.new) result }
    ensures query { QueryHeadline (map string_bytes words.now) (S.state src.old) (S.state src.new) (K.state out.old) (K.state out.new) result }
    ensures lattice { LatticeHeadline (map string_bytes words.now) (S.state src.old) (S.state src.new) (K.state out.old) (K.state out.new) result }
    ensures orient { OrientHeadline (map string_bytes words.now) (S.state src.old) (S.state src.new) (K.state out.old) (K.state out.new) result }
    ensures session { SessionHeadline (map string_bytes words.now) (S.state src.old) (S.state src.new) (K.state out.old) (K.state out.new) result }
    ensures check { CheckHeadline (map string_bytes words.now) (S.state src.old) (S.state src.new) (K.state out.old) (K.state out.new) result }

    // Status, line and output are those of the answer.
    ensures exact { Exact (map string_bytes words.now) (S.state src.old) (K.state out.old) (K.state out.new) (D.state diag.old) (D.state diag.new) result }

    // When it must succeed.
    ensures complete { Complete (map string_bytes words.now) (S.state src.old) (S.state src.new) (K.state out.old) (K.state out.new) result }

    // What is left as it was, and what was taken.
    ensures words { result ≡ Status.Words → src.new ≡ src.old }
    ensures unasked { ((task : Task) → IsTask (map string_bytes words.now) task → ⊥) → src.new ≡ src.old }
    ensures taken { TakesFew (map string_bytes words.now) (S.state src.old).left (S.state src.new).left }
    ensures generated { (task : Task) → IsTask (map string_bytes words.now) task → IsFileless task → src.new ≡ src.old }
    ensures untouched { result ≢ Status.Done → result ≢ Status.WriteFault → out.new ≡ out.old }
    ensures quiet { result ≡ Status.Done → diag.new ≡ diag.old }

    // Counts of faults never fall.
    ensures source { GoesOn (S.state src.old).faults (S.state src.new).faults }
    ensures output { GoesOn (K.state out.old).faults (K.state out.new).faults }
    ensures diagnostic { GoesOn (D.state diag.old).faults (D.state diag.new).faults }
{
    one_poles_answer();
    fault_forbids();
    lists_kept();
    no_loop();
    written_reads_back();
    limits_hold();
    one_tree();
    one_graph();
    one_script();
    session();
    one_reply();
    perform(alloc, words, src, out, diag)
}
