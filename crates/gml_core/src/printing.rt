//! Prints trees.

ghost use Rattle.std.specs.Prelude.{◌≡◌, ◌≤◌, ◌∷◌, [], ◌++◌, drop, OnOk, IfOk};
ghost use Rattle.gml_core.specs.Views.{datum, entry_view, view, entries};
ghost use Rattle.std.specs.Fmt.{signed_decimal};
ghost use Rattle.gml_core.specs.Printing.{datum_text, entry_text, printed};
ghost use Rattle.gml_core.specs.Sound.{IsSound};

use crate::tree::{Pair, Tree, Value};
use itoa::write_digits;
use st_ids::{NoMemory, Text};
use std::alloc::Global;

/// Writes the number in front of the line feed that ends the line, and answers where it begins.
#[inline(always)]
fn write_number(n: i64, line: &mut [u8; 24]) -> usize
    requires { drop 23 line.old ≡ 10 ∷ [] }
    ensures written { drop result line.new ≡ signed_decimal n ++ 10 ∷ [] }
    ensures behind { 1 ≤ result }
    ensures within { result ≤ 23 }
{
    let start = write_digits(n.unsigned_abs(), line, 23);
    if n >= 0 {
        return start;
    }
    line[start - 1] = b'-';
    start - 1
}

/// Appends a space, the number and a line feed.
fn append_number(out: &mut Text, n: i64) -> Result<(), NoMemory>
    ensures { OnOk result (out.new ≡ out.old ++ 32 ∷ (signed_decimal n ++ 10 ∷ [])) }
{
    let mut line = [b'\n'; 24];
    let start = write_number(n, &mut line);
    line[start - 1] = b' ';
    out.append(&line[start - 1..])
}

/// Appends the piece between two others.
fn append_between(
    out: &mut Text,
    before: &[u8],
    piece: &[u8],
    behind: &[u8],
) -> Result<(), NoMemory>
    ensures { OnOk result (out.new ≡ out.old ++ (before.now ++ (piece.now ++ behind.now))) }
{
    out.append(before)?;
    out.append(piece)?;
    out.append(behind)
}

/// Appends a space, the value and a line feed.
#[cycle(print)]
fn print_value(out: &mut Text, value: &Value) -> Result<(), NoMemory>
    ensures { OnOk result (out.new ≡ out.old ++ 32 ∷ (datum_text (datum value.now) ++ 10 ∷ [])) }
{
    match value {
        Value::Int(n) => append_number(out, *n),
        Value::Real(text) => append_between(out, b" ", text.bytes(), b"\n"),
        Value::Str(text) => append_between(out, b" \"", text.bytes(), b"\"\n"),
        Value::List(tree) => {
            out.append(b" [\n")?;
            print_pairs(out, tree.pairs.as_slice())?;
            out.append(b"]\n")
        }
    }
}

#[cycle(print)]
fn print_pair(out: &mut Text, pair: &Pair) -> Result<(), NoMemory>
    ensures { OnOk result (out.new ≡ out.old ++ entry_text (entry_view pair.now)) }
{
    out.append(pair.key.bytes())?;
    print_value(out, &pair.value)
}

#[cycle(print)]
fn print_pairs(out: &mut Text, pairs: &[Pair]) -> Result<(), NoMemory>
    ensures { OnOk result (out.new ≡ out.old ++ printed (entries pairs.now)) }
{
    for pair in pairs {
        print_pair(out, pair)?;
    }
    Ok(())
}

/// The printed form of a sound tree: no indentation, and a line feed behind each pair and each opening bracket.
///
/// Errors: `NoMemory`.
/// Cost: one pass, O(length of the text), with a depth of calls at most that of the lists.
pub fn print(alloc: Global, tree: &Tree) -> Result<Text, NoMemory>
    requires { IsSound (view tree.now) }
    ensures { IfOk result (λ t. t ≡ printed (view tree.now)) }
{
    let mut out = Text::new(alloc);
    print_pairs(&mut out, tree.pairs.as_slice())?;
    Ok(out)
}
