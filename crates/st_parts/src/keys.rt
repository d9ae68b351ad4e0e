//! The keys that are used. A new key is a row here, in `known_key` and in the tables of the specs.
ghost use Rattle.gml_core.specs.Views.{entry_view};
ghost use Rattle.st_parts.specs.Keys.{IsKnown, known};
ghost use Rattle.st_parts.specs.Used.{key_text};
ghost use Rattle.std.specs.Prelude.{◌≡◌};

use gml_core::Pair;

/// A key that is used.
#[derive(Clone, Copy)]
pub(crate) enum Key {
    Source,
    Target,
    Edge,
    Node,
    Id,
    /// The key `e`, of a name of an edge.
    Name,
    Label,
    Order,
    Path,
    Outer,
    Side,
    Minlen,
}

#[inline(always)]
fn known_key(bytes: &[u8]) -> Option<Key>
    ensures { result ≡ known bytes.now }
{
    match bytes {
        [b's', b'o', b'u', b'r', b'c', b'e'] => Some(Key::Source),
        [b't', b'a', b'r', b'g', b'e', b't'] => Some(Key::Target),
        [b'e', b'd', b'g', b'e'] => Some(Key::Edge),
        [b'n', b'o', b'd', b'e'] => Some(Key::Node),
        [b'i', b'd'] => Some(Key::Id),
        [b'e'] => Some(Key::Name),
        [b'l', b'a', b'b', b'e', b'l'] => Some(Key::Label),
        [b'o', b'r', b'd', b'e', b'r'] => Some(Key::Order),
        [b'p', b'a', b't', b'h'] => Some(Key::Path),
        [b'o', b'u', b't', b'e', b'r'] => Some(Key::Outer),
        [b's', b'i', b'd', b'e'] => Some(Key::Side),
        [b'm', b'i', b'n', b'l', b'e', b'n'] => Some(Key::Minlen),
        _ => None,
    }
}

#[inline(always)]
fn spelled_key(pair: &Pair) -> Option<Key>
    ensures { result ≡ known (key_text (entry_view pair.now)) }
{
    known_key(pair.key.bytes())
}

/// The key of a pair, where it is used.
#[inline(always)]
pub(crate) fn key_of(pair: &Pair) -> Option<Key>
    ensures { IsKnown result (entry_view pair.now) }
{
    spelled_key(pair)
}
