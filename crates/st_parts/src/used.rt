//! The pairs of a list, by their keys and values.
ghost use Rattle.gml_core.specs.Sound.{IsSound};
ghost use Rattle.gml_core.specs.Trees.{listed};
ghost use Rattle.gml_core.specs.Views.{datum, entry_view, view};
ghost use Rattle.st_parts.specs.Parts.{second};
ghost use Rattle.st_parts.specs.Used.{HasSoundList, datum_of, first_with, has_key, int_in, int_of as first_int_of, list_in, place_of, str_in, str_of as first_str_of};
ghost use Rattle.std.specs.Prelude.{◌≡◌, ◌<◌, ◌+◌, ◌∷◌, length, drop, option_map, option_copied, IfSome};

use gml_core::{Pair, Tree, Value};
use st_ids::Text;

/// Pair i of a list, which the rest of the list begins with.
#[tactic(auto, using(crate::proofs::PairLemmas::rest_at))]
pub fn pair_at(tree: &Tree, i: u32) -> &Pair
    requires sound { IsSound (view tree.now) }
    requires within { i < length (listed (view tree.now)) }
    ensures rest { drop i (listed (view tree.now)) ≡ entry_view result.now ∷ drop (i + 1) (listed (view tree.now)) }
    ensures sound { HasSoundList (datum_of (entry_view result.now)) }
{
    tree.pair(i)
}

/// Whether a pair has the key.
pub fn is_key(pair: &Pair, key: &[u8]) -> bool
    ensures { result ≡ has_key key.now (entry_view pair.now) }
{
    pair.key.bytes() == key
}

/// The byte at which a pair's key begins.
pub fn place(pair: &Pair) -> u32
    ensures { result ≡ place_of (entry_view pair.now) }
{
    pair.at
}

fn value(pair: &Pair) -> &Value
    ensures { datum result.now ≡ datum_of (entry_view pair.now) }
{
    &pair.value
}

fn int_value(value: &Value) -> Option<i64>
    ensures { result ≡ int_in (datum value.now) }
{
    match value {
        Value::Int(n) => Some(*n),
        _ => None,
    }
}

fn str_value(value: &Value) -> Option<&Text>
    ensures { option_copied result ≡ str_in (datum value.now) }
{
    match value {
        Value::Str(text) => Some(text),
        _ => None,
    }
}

fn list_value(value: &Value) -> Option<&Tree>
    requires { HasSoundList (datum value.now) }
    ensures list { option_map (λ t. listed (view t.now)) result ≡ list_in (datum value.now) }
    ensures sound { IfSome result (λ t. IsSound (view t.now)) }
{
    match value {
        Value::List(tree) => Some(tree),
        _ => None,
    }
}

/// The integer that the pair's value is.
pub(crate) fn int_of(pair: &Pair) -> Option<i64>
    ensures { result ≡ int_in (datum_of (entry_view pair.now)) }
{
    int_value(value(pair))
}

/// The string that the pair's value is.
pub(crate) fn str_of(pair: &Pair) -> Option<&Text>
    ensures { option_copied result ≡ str_in (datum_of (entry_view pair.now)) }
{
    str_value(value(pair))
}

/// The list that the pair's value is.
pub fn list_of(pair: &Pair) -> Option<&Tree>
    requires { HasSoundList (datum_of (entry_view pair.now)) }
    ensures list { option_map (λ t. listed (view t.now)) result ≡ list_in (datum_of (entry_view pair.now)) }
    ensures sound { IfSome result (λ t. IsSound (view t.now)) }
{
    list_value(value(pair))
}

/// The integer of a pair that may be there.
pub fn int_of_first(pair: Option<&Pair>) -> Option<i64>
    ensures { result ≡ first_int_of (option_map (λ p. entry_view p.now) pair.entry) }
{
    int_of(pair?)
}

/// The string of a pair that may be there.
pub(crate) fn str_of_first<'a>(pair: Option<&'a Pair>) -> Option<&'a Text>
    ensures { option_copied result ≡ first_str_of (option_map (λ p. entry_view p.now) pair.entry) }
{
    str_of(pair?)
}

/// The first pair of a list with a key; `None` where there is none. Cost: O(pairs of the list).
pub fn first_pair<'a>(tree: &'a Tree, key: &[u8]) -> Option<&'a Pair>
    requires { IsSound (view tree.now) }
    ensures pair { option_map (λ p. entry_view p.now) result ≡ first_with key.now (listed (view tree.now)) }
    ensures sound { IfSome result (λ p. HasSoundList (datum_of (entry_view p.now))) }
{
    for i in 0..tree.len() {
        let pair = pair_at(tree, i);
        if is_key(pair, key) {
            return Some(pair);
        }
    }
    None
}

/// The place of the second pair of a list with a key; `None` where there is none. Cost: O(pairs of the list).
pub fn second_at(tree: &Tree, key: &[u8]) -> Option<u32>
    requires { IsSound (view tree.now) }
    ensures { result ≡ second key.now (listed (view tree.now)) }
{
    let mut seen = false;
    for i in 0..tree.len() {
        let pair = pair_at(tree, i);
        if is_key(pair, key) {
            if seen {
                return Some(place(pair));
            }
            seen = true;
        }
    }
    None
}
