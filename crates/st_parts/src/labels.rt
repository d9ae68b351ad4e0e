//! Labels as they are shown.
ghost use Rattle.gml_core.specs.Views.{entry_view};
ghost use Rattle.st_parts.specs.Parts.{shown, shown_byte, shown_label};
ghost use Rattle.st_parts.specs.Used.{str_of};
ghost use Rattle.std.specs.Prelude.{◌≡◌, map, option_map, take, IfOk};

use crate::used::str_of_first;
use gml_core::Pair;
use st_ids::{NoMemory, Text};
use std::alloc::Global;

fn shown_of(byte: u8) -> u8
    ensures { result ≡ shown_byte byte }
{
    if 32 <= byte && byte <= 126 {
        byte
    } else {
        b'?'
    }
}

fn shown_bytes(alloc: Global, bytes: &[u8]) -> Result<Text, NoMemory>
    ensures { IfOk result (λ t. t ≡ map shown_byte bytes.now) }
{
    let mut text = Text::new(alloc);
    for byte in bytes {
        text.append(&[shown_of(*byte)])?;
    }
    Ok(text)
}

fn front(bytes: &[u8]) -> &[u8]
    ensures { result.now ≡ take 80 bytes.now }
{
    if bytes.len() < 80 {
        bytes
    } else {
        &bytes[..80]
    }
}

fn shown_text(alloc: Global, bytes: &[u8]) -> Result<Option<Text>, NoMemory>
    ensures { IfOk result (λ t. t ≡ shown bytes.now) }
{
    if bytes.is_empty() {
        return Ok(None);
    }
    Ok(Some(shown_bytes(alloc, front(bytes))?))
}

/// The label that a pair says, as it is shown.
pub(crate) fn label_of(alloc: Global, pair: Option<&Pair>) -> Result<Option<Text>, NoMemory>
    ensures { IfOk result (λ t. t ≡ shown_label (str_of (option_map (λ p. entry_view p.now) pair.entry))) }
{
    match str_of_first(pair) {
        Some(text) => shown_text(alloc, text.bytes()),
        None => Ok(None),
    }
}
