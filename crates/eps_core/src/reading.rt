//! Reads pictures.
//!
//! The reader takes what stands in two lines for an item without looking closely, builds the two lines of that item again
//! as they are written, and compares bytes. So what is read is just what is written.
ghost use Rattle.std.specs.Prelude.{◌≡◌, ◌≢◌, ◌<◌, ◌^◌, ◌↔◌, [], ◌∷◌, ◌++◌, codes, length, Some, IsTrue, IfOk, IfErr, IfSome, IfNone, ℕ};
ghost use Rattle.st_shape.specs.Rules.{FitsFrame, HasNames, IsFrame, IsItem, IsPicture};
ghost use Rattle.eps_core.specs.Decoding.{after_line, decoded, form_from, frame_from, line_from};
ghost use Rattle.eps_core.specs.Meaning.{IsFirstBad, IsPictureText};
ghost use Rattle.eps_core.specs.Reading.{IsFirstRefused, IsSecondRefused, MarksNone, NamesNone};
ghost use Rattle.eps_core.specs.Text.{mark_line as mark_text, name_line as name_text, text};

use crate::cutting::{first_line, is_line, match_lines, next_line};
use crate::decoding::decode;
use crate::fault::EpsFault;
use crate::line::Line;
use crate::lines::{front, mark_line, name_line};
use crate::words::{behind, past_step, place};
use st_ids::NoMemory;
use st_ids::limits::MOST_COORDINATE;
use st_shape::{Form, Item, Picture, Point};
use std::alloc::Global;

// Which of the next two lines is bad.
#[derive(Drop)]
enum PairFault {
    First,
    Second,
    NoMemory,
}

// The frame that the second line gives.
fn frame_in(line: &[u8]) -> Point
    ensures frame { IsFrame result }
    ensures value { IsFrame (frame_from line.now) → result ≡ frame_from line.now }
{
    let corner = Point {
        x: i64::from(MOST_COORDINATE),
        y: i64::from(MOST_COORDINATE),
    };
    let frame = place(72, past_step(line));
    if frame.is_inside(corner) {
        frame
    } else {
        Point { x: 0, y: 0 }
    }
}

// The form that the third line gives.
fn form_in(line: &[u8]) -> Form
    ensures { result ≡ form_from line.now }
{
    let name = behind(line);
    if name.is_empty() {
        return Form::Dominance;
    }
    match name[0] {
        b'v' => Form::Visibility,
        b't' => Form::Tessellation,
        b'c' => Form::Constrained,
        b'p' => Form::Polyline,
        _ => Form::Dominance,
    }
}

// The form and the frame of the lines before the items.
fn form_and_frame(bytes: &[u8]) -> (Form, Point)
    ensures form { result.0 ≡ form_from (line_from (after_line (after_line bytes.now))) }
    ensures frame { IsFrame result.1 }
    ensures value { IsFrame (frame_from (line_from (after_line bytes.now))) → result.1 ≡ frame_from (line_from (after_line bytes.now)) }
{
    let (_, rest) = first_line(bytes);
    let (second, rest) = first_line(rest);
    let (third, _) = first_line(rest);
    (form_in(third), frame_in(second))
}

// The item that has this first line, as the second line may stand for it.
fn named_item(alloc: Global, name: &[u8], mark: &[u8]) -> Result<Item, PairFault>
    ensures first { IfErr result (λ fault. fault ≡ PairFault.First → NamesNone name.now) }
    ensures not_second { IfErr result (λ fault. fault ≢ PairFault.Second) }
    ensures item { IfOk result (λ item. decoded name.now mark.now ≡ Some item) }
    ensures name { IfOk result (λ item. HasNames item × (name.now ≡ name_text item)) }
{
    let item = match decode(alloc, name, mark) {
        Ok(Some(item)) => item,
        Ok(None) => return Err(PairFault::First),
        Err(NoMemory) => return Err(PairFault::NoMemory),
    };
    let mut line = Line::new();
    name_line(&mut line, &item);
    if !is_line(&line, name) {
        return Err(PairFault::First);
    }
    Ok(item)
}

// Whether the item lies in the frame and has this second line.
fn fitting_mark(frame: Point, item: &Item, mark: &[u8]) -> bool
    requires { IsFrame frame }
    ensures { IsTrue result ↔ (FitsFrame frame item.now × (mark.now ≡ mark_text item.now)) }
{
    if !item.fits(frame) {
        return false;
    }
    let mut line = Line::new();
    mark_line(&mut line, item);
    is_line(&line, mark)
}

// The item of this first line and of the line that is next, and what is behind them.
fn read_item<'a>(
    alloc: Global,
    frame: Point,
    name: &[u8],
    rest: &'a [u8],
) -> Result<(Item, &'a [u8]), PairFault>
    requires { IsFrame frame }
    ensures first { IfErr result (λ fault. fault ≡ PairFault.First → NamesNone name.now) }
    ensures second { IfErr result (λ fault. fault ≡ PairFault.Second → MarksNone frame name.now rest.now) }
    ensures item { IfOk result (λ p. IsItem frame p.0) }
    ensures name { IfOk result (λ p. name.now ≡ name_text p.0) }
    ensures mark { IfOk result (λ p. rest.now ≡ mark_text p.0 ++ 10 ∷ p.1.now) }
{
    match next_line(rest) {
        None => match named_item(alloc, name, b"") {
            Ok(_) => Err(PairFault::Second),
            Err(fault) => Err(fault),
        },
        Some((mark, after)) => match named_item(alloc, name, mark) {
            Ok(item) => {
                if !fitting_mark(frame, &item, mark) {
                    return Err(PairFault::Second);
                }
                Ok((item, after))
            }
            Err(fault) => Err(fault),
        },
    }
}

// Whether this is the last line of a text.
fn is_last(line: &[u8]) -> bool
    ensures { IsTrue result ↔ (line.now ≡ codes "%%EOF") }
{
    line == b"%%EOF".as_slice()
}

// The next item and what is behind its two lines, or none where the last line ends the text.
fn next_item<'a>(
    alloc: Global,
    frame: Point,
    rest: &'a [u8],
) -> Result<Option<(Item, &'a [u8])>, PairFault>
    requires { IsFrame frame }
    ensures first { IfErr result (λ fault. fault ≡ PairFault.First → IsFirstRefused rest.now) }
    ensures second { IfErr result (λ fault. fault ≡ PairFault.Second → IsSecondRefused frame rest.now) }
    ensures item { IfOk result (λ next. IfSome next (λ p. IsItem frame p.0)) }
    ensures lines { IfOk result (λ next. IfSome next (λ p. rest.now ≡ name_text p.0 ++ 10 ∷ (mark_text p.0 ++ 10 ∷ p.1.now))) }
    ensures last { IfOk result (λ next. IfNone next (rest.now ≡ codes "%%EOF" ++ 10 ∷ [])) }
{
    match next_line(rest) {
        None => Err(PairFault::First),
        Some((name, behind)) => {
            if is_last(name) {
                if behind.len() > 0 {
                    return Err(PairFault::Second);
                }
                return Ok(None);
            }
            match read_item(alloc, frame, name, behind) {
                Ok(found) => Ok(Some(found)),
                Err(fault) => Err(fault),
            }
        }
    }
}

/// The picture whose text the bytes are (`specs/Text.antt`).
///
/// Errors: `BadLine` where they are no picture's text, with the first line that no picture's text has behind the lines
/// before it; `NoMemory`.
/// Cost: linear in the bytes. Held are the picture and one item more; a line is built on the stack.
pub fn read_eps(alloc: Global, bytes: &[u8]) -> Result<Picture, EpsFault>
    requires { length bytes.now < 2 ^ 31 }
    ensures picture { IfOk result (λ picture. bytes.now ≡ text picture) }
    ensures rules { IfOk result (λ picture. IsPicture picture) }

    // `BadLine` exactly where the bytes are no picture's text.
    ensures first_bad { IfErr result (λ fault. (line : ℕ) → fault ≡ EpsFault.BadLine line → IsFirstBad bytes.now line) }
    ensures taken { IsPictureText bytes.now → IfErr result (λ fault. fault ≡ EpsFault.NoMemory) }
{
    let (form, frame) = form_and_frame(bytes);
    let mut rest = match match_lines(&front(form, frame), bytes) {
        Ok(rest) => rest,
        Err(k) => return Err(EpsFault::BadLine { line: k as u32 + 1 }),
    };
    let mut picture = Picture::new(alloc, form, frame);
    let mut line: u32 = 7;
    loop {
        match next_item(alloc, frame, rest) {
            Ok(Some((item, behind))) => {
                picture.push(item)?;
                rest = behind;
            }
            Ok(None) => return Ok(picture),
            Err(PairFault::First) => return Err(EpsFault::BadLine { line }),
            Err(PairFault::Second) => return Err(EpsFault::BadLine { line: line + 1 }),
            Err(PairFault::NoMemory) => return Err(EpsFault::NoMemory),
        }
        line += 2;
    }
}
