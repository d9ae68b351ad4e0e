//! The answer to a check: whether the drawing of a file is clean.
ghost use Rattle.std.specs.Prelude.{◌≡◌, ◌+◌, ◌++◌, ◌<◌, ◌≤◌, ◌^◌, ℕ, List, codes, length, pos, IfOk, OnOk, IsErrOf};
ghost use Rattle.st_port.specs.Faults.{GoesOn};
ghost use Rattle.st_report.specs.Lines.{numbered};
ghost use Rattle.st_shape.specs.Rules.{IsPicture};
ghost use Rattle.st_verdict.specs.Stops.{Gives};
ghost use Rattle.st_words.specs.Words.{IsTask};
ghost use Rattle.stdraw_core.specs.Checked.{AnswersDrawing, AnswersText, IsDrawingIn, clean_line};
ghost use Rattle.stdraw_core.specs.Run.{Decides, TakesAtMost};

use crate::number::append_number;
use eps_check::examine;
use eps_core::{EpsFault, read_eps};
use st_ids::limits::MOST_DRAWING_BYTES;
use st_ids::{NoMemory, Text};
use st_port::{ReadEnd, Source, read_all};
use st_report::{Refusal, Stop};
use st_shape::Picture;
use st_words::Task;
use std::alloc::Global;

// The drawing whose text the bytes are.
fn drawing_in(alloc: Global, bytes: &[u8]) -> Result<Picture, Stop>
    requires { length bytes.now < 2 ^ 31 }
    ensures { Gives (IsDrawingIn bytes.now) result }
{
    match read_eps(alloc, bytes) {
        Ok(picture) => Ok(picture),
        Err(EpsFault::BadLine { line }) => Err(Stop::Refused(Refusal::Eps(line))),
        Err(EpsFault::NoMemory) => Err(Stop::NoMemory),
    }
}

// Appends the line of a clean drawing.
fn append_clean(text: &mut Text, items: usize) -> Result<(), NoMemory>
    ensures { OnOk result (text.new ≡ text.old ++ numbered (codes "clean: ") (pos items) (codes " items\n")) }
{
    text.append(b"clean: ")?;
    append_number(text, items, b" items\n")
}

// The line of a clean drawing.
fn clean_text(alloc: Global, picture: &Picture) -> Result<Text, NoMemory>
    ensures { IfOk result (λ out. out ≡ clean_line picture.now) }
{
    let mut text = Text::new(alloc);
    append_clean(&mut text, picture.items().len())?;
    Ok(text)
}

// What is answered about a drawing.
fn verdict_of(alloc: Global, picture: &Picture) -> Result<Text, Stop>
    ensures { Gives (AnswersDrawing picture.now) result }
{
    match examine(alloc, picture) {
        Ok(None) => match clean_text(alloc, picture) {
            Ok(text) => Ok(text),
            Err(NoMemory) => Err(Stop::NoMemory),
        },
        Ok(Some(fault)) => Err(Stop::Refused(Refusal::NotClean(fault))),
        Err(NoMemory) => Err(Stop::NoMemory),
    }
}

// What is answered to bytes of at most the limit. They are dropped before the drawing is looked at.
fn answer_text(alloc: Global, bytes: Text) -> Result<Text, Stop>
    requires { length bytes < 2 ^ 31 }
    ensures { Gives (AnswersText bytes) result }
{
    let picture = match drawing_in(alloc, bytes.bytes()) {
        Ok(picture) => picture,
        Err(stop) => return Err(stop),
    };
    drop(bytes);
    verdict_of(alloc, &picture)
}

/// Reads what the source has left, and answers whether it is the text of a clean drawing: how many items it has, or the
/// first fault.
///
/// Errors: `TooLongDrawing`, `Eps`, `NotClean`, `ReadFault`, `NoMemory`.
/// Cost: that of `read_eps` and of `examine`, and the bytes of the file until they are read. Not proved.
pub fn answer_check<S: Source>(alloc: Global, src: &mut S) -> Result<Text, Stop>
    ensures decides { (words : List (List ℕ)) → IsTask words Task.Check → Decides words (S.state src.old) (S.state src.new) result }
    ensures never_words { IsErrOf result (Stop.Refused Refusal.Words) → ⊥ }
    ensures taken { TakesAtMost (MOST_DRAWING_BYTES + 4096) (S.state src.old).left (S.state src.new).left }
    ensures count { GoesOn (S.state src.old).faults (S.state src.new).faults }
{
    let bytes = match read_all(alloc, src, MOST_DRAWING_BYTES) {
        Ok(bytes) => bytes,
        Err(ReadEnd::Failed) => return Err(Stop::ReadFault),
        Err(ReadEnd::TooLong) => return Err(Stop::Refused(Refusal::TooLongDrawing)),
        Err(ReadEnd::NoMemory) => return Err(Stop::NoMemory),
    };
    answer_text(alloc, bytes)
}
