//! Used pairs whose value has the wrong kind.
ghost use Rattle.gml_core.specs.Views.{entry_view};
ghost use Rattle.st_parts.specs.Kinds.{earlier, wrong, wrong_of};
ghost use Rattle.std.specs.Prelude.{◌≡◌, option_map};

use crate::used::{int_of, place};
use gml_core::Pair;

/// The lesser of two places, where they are there.
pub(crate) fn earlier_of(p: Option<u32>, q: Option<u32>) -> Option<u32>
    ensures { result ≡ earlier p q }
{
    match (p, q) {
        (None, q) => q,
        (Some(p), None) => Some(p),
        (Some(p), Some(q)) => Some(p.min(q)),
    }
}

/// The place of a pair whose value is no integer.
pub(crate) fn not_int(pair: &Pair) -> Option<u32>
    ensures { result ≡ wrong (entry_view pair.now) }
{
    if int_of(pair).is_some() {
        None
    } else {
        Some(place(pair))
    }
}

/// The same of a pair that may be there.
pub(crate) fn not_int_of(pair: Option<&Pair>) -> Option<u32>
    ensures { result ≡ wrong_of (option_map (λ p. entry_view p.now) pair.entry) }
{
    match pair {
        Some(pair) => not_int(pair),
        None => None,
    }
}
