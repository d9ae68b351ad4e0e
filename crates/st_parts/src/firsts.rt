//! The first pair of a list with each of the keys of a node, an edge or an outer face, found in one pass.
ghost use Rattle.gml_core.specs.Sound.{IsSound};
ghost use Rattle.gml_core.specs.Trees.{listed};
ghost use Rattle.gml_core.specs.Views.{entry_view, view};
ghost use Rattle.st_parts.specs.Used.{HasSoundList, datum_of, first_with};
ghost use Rattle.std.specs.Option.{option_or};
ghost use Rattle.std.specs.Prelude.{◌≡◌, [], ◌∷◌, codes, None, option_map, IfSome};

use crate::keys::{Key, key_of};
use crate::used::pair_at;
use gml_core::{Pair, Tree};

/// The first pair with each key; a new key of a node, an edge or an outer face is a row.
#[derive(Clone, Copy)]
pub(crate) struct Firsts<'a> {
    pub(crate) id: Option<&'a Pair>,
    pub(crate) source: Option<&'a Pair>,
    pub(crate) target: Option<&'a Pair>,
    pub(crate) edge: Option<&'a Pair>,
    pub(crate) side: Option<&'a Pair>,
    pub(crate) label: Option<&'a Pair>,
    pub(crate) order: Option<&'a Pair>,
    pub(crate) minlen: Option<&'a Pair>,
}

/// The pair before, or else this one.
#[inline(always)]
pub(crate) fn or_pair<'a>(before: Option<&'a Pair>, pair: &'a Pair) -> Option<&'a Pair>
    ensures pair { option_map (λ p. entry_view p.now) result ≡ option_or (option_map (λ p. entry_view p.now) before.entry) (Some (entry_view pair.now)) }
    ensures sound { HasSoundList (datum_of (entry_view pair.now)) → IfSome before.entry (λ p. HasSoundList (datum_of (entry_view p.now))) → IfSome result (λ p. HasSoundList (datum_of (entry_view p.now))) }
{
    match before {
        Some(before) => Some(before),
        None => Some(pair),
    }
}

/// The same with a pair that stands behind them.
#[inline(always)]
fn noted<'a>(firsts: Firsts<'a>, pair: &'a Pair) -> Firsts<'a>
    requires pair { HasSoundList (datum_of (entry_view pair.now)) }
    requires order { IfSome firsts.order (λ p. HasSoundList (datum_of (entry_view p.now))) }
    ensures id { option_map (λ p. entry_view p.now) result.id ≡ option_or (option_map (λ p. entry_view p.now) firsts.entry.id) (first_with (codes "id") (entry_view pair.now ∷ [])) }
    ensures source { option_map (λ p. entry_view p.now) result.source ≡ option_or (option_map (λ p. entry_view p.now) firsts.entry.source) (first_with (codes "source") (entry_view pair.now ∷ [])) }
    ensures target { option_map (λ p. entry_view p.now) result.target ≡ option_or (option_map (λ p. entry_view p.now) firsts.entry.target) (first_with (codes "target") (entry_view pair.now ∷ [])) }
    ensures edge { option_map (λ p. entry_view p.now) result.edge ≡ option_or (option_map (λ p. entry_view p.now) firsts.entry.edge) (first_with (codes "edge") (entry_view pair.now ∷ [])) }
    ensures side { option_map (λ p. entry_view p.now) result.side ≡ option_or (option_map (λ p. entry_view p.now) firsts.entry.side) (first_with (codes "side") (entry_view pair.now ∷ [])) }
    ensures label { option_map (λ p. entry_view p.now) result.label ≡ option_or (option_map (λ p. entry_view p.now) firsts.entry.label) (first_with (codes "label") (entry_view pair.now ∷ [])) }
    ensures order { option_map (λ p. entry_view p.now) result.order ≡ option_or (option_map (λ p. entry_view p.now) firsts.entry.order) (first_with (codes "order") (entry_view pair.now ∷ [])) }
    ensures minlen { option_map (λ p. entry_view p.now) result.minlen ≡ option_or (option_map (λ p. entry_view p.now) firsts.entry.minlen) (first_with (codes "minlen") (entry_view pair.now ∷ [])) }
    ensures sound { IfSome result.order (λ p. HasSoundList (datum_of (entry_view p.now))) }
{
    let mut firsts = firsts;
    match key_of(pair) {
        Some(Key::Id) => firsts.id = or_pair(firsts.id, pair),
        Some(Key::Source) => firsts.source = or_pair(firsts.source, pair),
        Some(Key::Target) => firsts.target = or_pair(firsts.target, pair),
        Some(Key::Edge) => firsts.edge = or_pair(firsts.edge, pair),
        Some(Key::Side) => firsts.side = or_pair(firsts.side, pair),
        Some(Key::Label) => firsts.label = or_pair(firsts.label, pair),
        Some(Key::Order) => firsts.order = or_pair(firsts.order, pair),
        Some(Key::Minlen) => firsts.minlen = or_pair(firsts.minlen, pair),
        _ => {}
    }
    firsts
}

/// The first pair with each key.
pub(crate) fn firsts_of<'a>(tree: &'a Tree) -> Firsts<'a>
    requires { IsSound (view tree.now) }
    ensures id { option_map (λ p. entry_view p.now) result.id ≡ first_with (codes "id") (listed (view tree.now)) }
    ensures source { option_map (λ p. entry_view p.now) result.source ≡ first_with (codes "source") (listed (view tree.now)) }
    ensures target { option_map (λ p. entry_view p.now) result.target ≡ first_with (codes "target") (listed (view tree.now)) }
    ensures edge { option_map (λ p. entry_view p.now) result.edge ≡ first_with (codes "edge") (listed (view tree.now)) }
    ensures side { option_map (λ p. entry_view p.now) result.side ≡ first_with (codes "side") (listed (view tree.now)) }
    ensures label { option_map (λ p. entry_view p.now) result.label ≡ first_with (codes "label") (listed (view tree.now)) }
    ensures order { option_map (λ p. entry_view p.now) result.order ≡ first_with (codes "order") (listed (view tree.now)) }
    ensures minlen { option_map (λ p. entry_view p.now) result.minlen ≡ first_with (codes "minlen") (listed (view tree.now)) }
    ensures sound { IfSome result.order (λ p. HasSoundList (datum_of (entry_view p.now))) }
{
    let mut firsts = Firsts {
        id: None,
        source: None,
        target: None,
        edge: None,
        side: None,
        label: None,
        order: None,
        minlen: None,
    };
    for i in 0..tree.len() {
        firsts = noted(firsts, pair_at(tree, i));
    }
    firsts
}
