//! The graph of what a source has left: a reader of trees is fed piece by piece, so that the bytes are never held whole.
ghost use Rattle.std.specs.Prelude.{◌≤◌, ℕ, List, length, IfOk, Ok};
ghost use Rattle.gml_core.specs.Readers.{TreeStandsFor};
ghost use Rattle.gml_core.specs.Sound.{IsSound};
ghost use Rattle.gml_core.specs.Views.{view};
ghost use Rattle.st_input.specs.InputGraph.{IsConsistent};
ghost use Rattle.st_input.specs.Writable.{IsWritable};
ghost use Rattle.st_port.specs.Faults.{GoesOn};
ghost use Rattle.st_port.specs.Reading.{Reads};
ghost use Rattle.st_verdict.specs.File.{IsGraphIn, IsTree};
ghost use Rattle.st_verdict.specs.Stops.{Gives, StopsAt};

use crate::file::graph_of;
use gml_core::{GmlFault, Tree, TreeReader};
use st_ids::NoMemory;
use st_ids::limits::{MOST_BYTES, MOST_EDGES, MOST_VERTICES};
use st_input::GraphSpec;
use st_input::laws::read_is_writable;
use st_port::{Piece, ReadEnd, Source};
use st_report::{Refusal, Stop};
use std::alloc::Global;

/// Feeds a reader with all that is left, piece by piece, at most the limit of bytes.
///
/// Errors: `Failed` at the first read that fails, behind which nothing is read; `TooLong` once more bytes than the limit were
/// taken; `NoMemory`.
/// Cost: that of the reader, and a piece of 4,096 bytes.
pub fn feed<S: Source>(alloc: Global, src: &mut S) -> Result<TreeReader, ReadEnd>
    ensures reads { Reads (λ s. S.state s) src.old src.new MOST_BYTES (λ reader taken. TreeStandsFor reader taken) result }
    ensures count { GoesOn (S.state src.old).faults (S.state src.new).faults }
{
    let mut reader = TreeReader::new(alloc);
    let mut piece = Piece::new();
    let mut left = MOST_BYTES;
    loop {
        if piece.read(src).is_err() {
            return Err(ReadEnd::Failed);
        }
        let bytes = piece.bytes();
        if bytes.is_empty() {
            return Ok(reader);
        }
        if bytes.len() > left {
            return Err(ReadEnd::TooLong);
        }
        left -= bytes.len();
        reader = match reader.feed(bytes) {
            Ok(reader) => reader,
            Err(NoMemory) => return Err(ReadEnd::NoMemory),
        };
    }
}

/// The tree of the bytes that the reader was fed, or their first fault.
///
/// Errors: `Gml`, `NoMemory`.
/// Cost: that of the reader's `finish`.
pub fn tree_from(reader: TreeReader) -> Result<Tree, Stop>
    requires { (b : List ℕ) × TreeStandsFor reader b }
    ensures ok { (b : List ℕ) → TreeStandsFor reader b → IfOk result (λ tree. IsTree b (Ok (view tree))) }
    ensures err { (b : List ℕ) → TreeStandsFor reader b → StopsAt (IsTree b) result }
    ensures sound { IfOk result (λ tree. IsSound (view tree)) }
{
    match reader.finish() {
        Ok(tree) => Ok(tree),
        Err(fault) => match fault {
            GmlFault::NoMemory => Err(Stop::NoMemory),
            fault => Err(Stop::Refused(Refusal::Gml(fault))),
        },
    }
}

/// The graph of the bytes that the reader was fed, within the limits of vertices and edges, or the first fault. Reader and tree
/// are dropped.
///
/// Errors: `Gml`, `Shape`, `NoMemory`.
/// Cost: that of the reader's `finish` and of `graph_of`.
pub fn graph_from(alloc: Global, reader: TreeReader) -> Result<GraphSpec, Stop>
    requires { (b : List ℕ) × TreeStandsFor reader b }
    ensures gives { (b : List ℕ) → TreeStandsFor reader b → Gives (IsGraphIn b) result }
    ensures consistent { IfOk result (λ g. IsConsistent g) }
    ensures high { IfOk result (λ g. g.graph.vertices ≤ MOST_VERTICES) }
    ensures wide { IfOk result (λ g. length g.graph.ends ≤ MOST_EDGES) }
    ensures writable { IfOk result (λ g. IsWritable g) }
{
    let tree = match tree_from(reader) {
        Ok(tree) => tree,
        Err(stop) => return Err(stop),
    };
    read_is_writable();
    graph_of(alloc, &tree)
}
