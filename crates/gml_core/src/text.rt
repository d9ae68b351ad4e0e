//! Texts from bytes.

ghost use Rattle.std.specs.Prelude.{◌≡◌, ◌≤◌, length, take, IfOk};

use st_ids::{NoMemory, Text};
use std::alloc::Global;

/// A text of these bytes.
pub fn text_of(alloc: Global, bytes: &[u8]) -> Result<Text, NoMemory>
    ensures { IfOk result (λ t. t ≡ bytes.now) }
{
    let mut text = Text::new(alloc);
    text.append(bytes)?;
    Ok(text)
}

/// A text of the first n of these bytes.
#[inline(always)]
pub fn front_of(alloc: Global, bytes: &[u8], n: usize) -> Result<Text, NoMemory>
    requires { n ≤ length bytes.now }
    ensures { IfOk result (λ t. t ≡ take n bytes.now) }
{
    if n <= 14 && 14 <= bytes.len() {
        return Ok(Text::front(alloc, bytes, n));
    }
    text_of(alloc, &bytes[..n])
}
