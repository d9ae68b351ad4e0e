//! Writes the text of a picture, line by line.
ghost use Rattle.std.specs.Prelude.{◌≤◌, [], ◌∷◌, ◌++◌, length, OnOk, OnErr, ℕ, List};
ghost use Rattle.std.specs.List.{AllByRecursion};
ghost use Rattle.st_port.specs.Faults.{GoesOn, Rose};
ghost use Rattle.st_port.specs.Streams.{Gains, GainsFront};
ghost use Rattle.st_port.specs.Writes.{Queues};
ghost use Rattle.st_shape.specs.Rules.{FitsFrame};
ghost use Rattle.eps_core.specs.Grid.{corner};
ghost use Rattle.eps_core.specs.Text.{name_line as name_text, mark_line as mark_text, item_lines, ended, text};

use crate::line::Line;
use crate::lines::{front, last_line, mark_line, name_line};
use st_port::{Buffered, Failed, Sink};
use st_shape::{Item, Picture};

// Puts the line with its line feed.
fn put_line<K: Sink>(out: &mut Buffered, sink: &mut K, line: &mut Line) -> Result<(), Failed>
    requires { length line.old ≤ 255 }
    ensures { Queues (K.state sink.old) (K.state sink.new) out.old out.new result (line.old ++ 10 ∷ []) }
{
    line.put(b"\n");
    out.put(sink, line.bytes())
}

// Puts a few lines, each built again in the one line.
fn put_lines<K: Sink>(
    out: &mut Buffered,
    sink: &mut K,
    line: &mut Line,
    lines: &[Line],
) -> Result<(), Failed>
    requires { AllByRecursion (λ (l : List ℕ). length l ≤ 255) lines.now }
    ensures { Queues (K.state sink.old) (K.state sink.new) out.old out.new result (ended lines.now) }
{
    match lines {
        [] => Ok(()),
        [first, rest @ ..] => {
            line.start(first.bytes());
            put_line(out, sink, line)?;
            put_lines(out, sink, line, rest)
        }
    }
}

// Puts the two lines of an item.
fn put_item<K: Sink>(
    out: &mut Buffered,
    sink: &mut K,
    line: &mut Line,
    item: &Item,
) -> Result<(), Failed>
    requires { FitsFrame corner item.now }
    ensures { Queues (K.state sink.old) (K.state sink.new) out.old out.new result (ended (name_text item.now ∷ mark_text item.now ∷ [])) }
{
    name_line(line, item);
    put_line(out, sink, line)?;
    mark_line(line, item);
    put_line(out, sink, line)
}

// Puts the lines of the items.
fn put_items<K: Sink>(
    out: &mut Buffered,
    sink: &mut K,
    line: &mut Line,
    items: &[Item],
) -> Result<(), Failed>
    requires { AllByRecursion (FitsFrame corner) items.now }
    ensures { Queues (K.state sink.old) (K.state sink.new) out.old out.new result (ended (item_lines items.now)) }
{
    for item in items {
        put_item(out, sink, line, item)?;
    }
    Ok(())
}

// Puts the whole text.
fn put_picture<K: Sink>(out: &mut Buffered, sink: &mut K, picture: &Picture) -> Result<(), Failed>
    ensures { Queues (K.state sink.old) (K.state sink.new) out.old out.new result (text picture.now) }
{
    let items = picture.items();
    let mut line = Line::new();
    put_lines(
        out,
        sink,
        &mut line,
        &front(picture.form(), picture.frame()),
    )?;
    put_items(out, sink, &mut line, items)?;
    put_lines(out, sink, &mut line, &[last_line()])
}

/// Writes the EPS text of the picture (`specs/Text.antt`).
///
/// Errors: `Failed` where the sink's count of faults rose; a front of the text was appended then.
/// Cost: one pass. Lines are built in one block on the stack and go through one buffer of 4,096 bytes, so that the sink is called
/// once for about as many bytes; no memory is taken. It does not flush.
pub fn write_eps<K: Sink>(sink: &mut K, picture: &Picture) -> Result<(), Failed>
    ensures whole { OnOk result (Gains (K.state sink.old) (K.state sink.new) (text picture.now)) }
    ensures prefix { OnErr result (GainsFront (K.state sink.old) (K.state sink.new) (text picture.now)) }
    ensures count { GoesOn (K.state sink.old).faults (K.state sink.new).faults }
    ensures cause { OnErr result (Rose (K.state sink.old).faults (K.state sink.new).faults) }
{
    let mut out = Buffered::new();
    put_picture(&mut out, sink, picture)?;
    out.finish(sink)
}
