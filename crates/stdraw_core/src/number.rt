//! Numbers in texts.
ghost use Rattle.std.specs.Prelude.{◌≡◌, ◌++◌, OnOk};

use itoa::{Buffer, Integer};
use st_ids::{NoMemory, Text};

/// Appends a number in decimal and a text.
pub fn append_number<I: Integer>(text: &mut Text, n: I, tail: &[u8]) -> Result<(), NoMemory>
    ensures { OnOk result (text.new ≡ text.old ++ (I.text n ++ tail.now)) }
{
    let mut buffer = Buffer::new();
    text.append(buffer.format(n).as_bytes())?;
    text.append(tail)
}
