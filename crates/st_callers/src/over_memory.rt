//! A command run over memory: its words and the bytes of its file in, its output out, or its status and diagnostic line.
ghost use Rattle.std.specs.Prelude.{map};
ghost use Rattle.std.specs.String.{string_bytes};
ghost use Rattle.st_callers.specs.OverMemory.{IsAnsweredAs};

use st_ids::Text;
use st_port::{SureSource, TextSink};
use std::alloc::Global;
use stdraw_core::{Status, run};

/// Why a command has no output.
#[derive(Drop)]
pub enum Unanswered {
    /// The answer is a refusal, with this status and this diagnostic line.
    Refused { status: Status, line: Text },
    /// Not known, since memory ran out.
    NoMemory,
}

/// The output of a command on a file, or why there is none. Words that ask for no file ignore it.
///
/// Cost: that of `run`, and the output as a text.
pub fn answered(alloc: Global, words: &[String], file: Text) -> Result<Text, Unanswered>
    ensures { IsAnsweredAs (map string_bytes words.now) file result }
{
    let mut src = SureSource::new(file);
    let mut out = TextSink::new(alloc);
    let mut diag = TextSink::new(alloc);
    let status = run(alloc, words, &mut src, &mut out, &mut diag);
    // A write into a text fails only where memory runs out.
    if out.faults() > 0 || diag.faults() > 0 {
        return Err(Unanswered::NoMemory);
    }
    match status {
        Status::Done => Ok(out.into_text()),
        Status::NoMemory => Err(Unanswered::NoMemory),
        status => Err(Unanswered::Refused {
            status,
            line: diag.into_text(),
        }),
    }
}
