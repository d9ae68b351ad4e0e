//! What the pair `outer` says.
ghost use Rattle.gml_core.specs.Sound.{IsSound};
ghost use Rattle.gml_core.specs.Trees.{listed};
ghost use Rattle.gml_core.specs.Views.{entry_view, view};
ghost use Rattle.st_parts.specs.Kinds.{earlier, inside, inside_of, outer_wrong};
ghost use Rattle.st_parts.specs.Parts.{mention_in, outer_in, outer_says};
ghost use Rattle.st_parts.specs.Used.{HasSoundList, datum_of};
ghost use Rattle.std.specs.Prelude.{◌≡◌, option_map, IfSome};

use crate::firsts::firsts_of;
use crate::kinds::{earlier_of, not_int_of};
use crate::mentions::mention_of;
use crate::parts::{Mention, Outer};
use crate::used::{int_of_first, list_of, place};
use gml_core::{Pair, Tree};

/// The outer face, where it is named, and the least place of a wrong kind.
#[derive(Clone, Copy)]
pub(crate) struct OuterSaid {
    pub(crate) outer: Option<Outer>,
    pub(crate) wrong: Option<u32>,
}

fn mention_of_first(pair: Option<&Pair>) -> Option<Mention>
    ensures { result ≡ option_map mention_in (option_map (λ p. entry_view p.now) pair.entry) }
{
    match pair {
        Some(pair) => Some(mention_of(pair)),
        None => None,
    }
}

fn outer_at(at: u32, tree: &Tree) -> OuterSaid
    requires { IsSound (view tree.now) }
    ensures outer { result.outer ≡ Some (outer_says at (listed (view tree.now))) }
    ensures wrong { result.wrong ≡ outer_wrong (listed (view tree.now)) }
{
    let firsts = firsts_of(tree);
    let outer = Outer {
        at,
        edge: mention_of_first(firsts.edge),
        side: int_of_first(firsts.side),
    };
    OuterSaid {
        outer: Some(outer),
        wrong: earlier_of(not_int_of(firsts.edge), not_int_of(firsts.side)),
    }
}

fn outer_of_pair(pair: &Pair) -> OuterSaid
    requires { HasSoundList (datum_of (entry_view pair.now)) }
    ensures outer { result.outer ≡ Some (outer_in (entry_view pair.now)) }
    ensures wrong { result.wrong ≡ inside outer_wrong (entry_view pair.now) }
{
    match list_of(pair) {
        Some(tree) => outer_at(place(pair), tree),
        None => OuterSaid {
            outer: Some(Outer {
                at: place(pair),
                edge: None,
                side: None,
            }),
            wrong: Some(place(pair)),
        },
    }
}

/// The outer face of a pair, if there is one.
pub(crate) fn outer_of(pair: Option<&Pair>) -> OuterSaid
    requires { IfSome pair (λ p. HasSoundList (datum_of (entry_view p.now))) }
    ensures outer { result.outer ≡ option_map outer_in (option_map (λ p. entry_view p.now) pair.entry) }
    ensures wrong { result.wrong ≡ inside_of outer_wrong (option_map (λ p. entry_view p.now) pair.entry) }
{
    match pair {
        Some(pair) => outer_of_pair(pair),
        None => OuterSaid {
            outer: None,
            wrong: None,
        },
    }
}
