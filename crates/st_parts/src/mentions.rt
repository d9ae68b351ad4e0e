//! Lists of names of edges: a written order and a path.
ghost use Rattle.gml_core.specs.Sound.{IsSound};
ghost use Rattle.gml_core.specs.Trees.{listed};
ghost use Rattle.gml_core.specs.Views.{entry_view, view};
ghost use Rattle.st_parts.specs.Kinds.{earlier, inside, inside_of, names_wrong, wrong};
ghost use Rattle.st_parts.specs.Parts.{mention_in, mentions_in, name_in, names_in, path_in};
ghost use Rattle.st_parts.specs.Used.{HasSoundList, datum_of, list_of as listed_in};
ghost use Rattle.std.specs.Prelude.{◌≡◌, option_map, IfOk, IfSome};

use crate::kinds::{earlier_of, not_int};
use crate::parts::{Mention, put};
use crate::used::{int_of, is_key, list_of, pair_at, place};
use gml_core::{Pair, Tree};
use sqlite_items::Items;
use st_ids::NoMemory;
use std::alloc::Global;

/// The edges that an order lists, with their places, and the least place of a wrong kind.
#[derive(Drop)]
pub(crate) struct Mentions {
    pub(crate) mentions: Items<Mention>,
    pub(crate) wrong: Option<u32>,
}

/// The order that a node writes, where it does, and the least place of a wrong kind.
#[derive(Drop)]
pub(crate) struct OrderSaid {
    pub(crate) order: Option<Items<Mention>>,
    pub(crate) wrong: Option<u32>,
}

/// The names of the edges of a path, and the least place of a wrong kind.
#[derive(Drop)]
pub(crate) struct PathSaid {
    pub(crate) names: Items<i64>,
    pub(crate) wrong: Option<u32>,
}

fn name_of(pair: &Pair) -> i64
    ensures { result ≡ name_in (entry_view pair.now) }
{
    match int_of(pair) {
        Some(n) => n,
        None => 0,
    }
}

/// The name that a pair says, and where it stands.
pub(crate) fn mention_of(pair: &Pair) -> Mention
    ensures { result ≡ mention_in (entry_view pair.now) }
{
    Mention {
        at: place(pair),
        name: name_of(pair),
    }
}

fn mentions_of(alloc: Global, tree: &Tree) -> Result<Mentions, NoMemory>
    requires { IsSound (view tree.now) }
    ensures mentions { IfOk result (λ m. m.mentions ≡ mentions_in (listed (view tree.now))) }
    ensures wrong { IfOk result (λ m. m.wrong ≡ names_wrong (listed (view tree.now))) }
{
    let mut mentions = Items::new(alloc);
    let mut wrong = None;
    for i in 0..tree.len() {
        let pair = pair_at(tree, i);
        if is_key(pair, b"e") {
            put(&mut mentions, mention_of(pair))?;
            wrong = earlier_of(wrong, not_int(pair));
        }
    }
    Ok(Mentions { mentions, wrong })
}

fn names_of(alloc: Global, tree: &Tree) -> Result<PathSaid, NoMemory>
    requires { IsSound (view tree.now) }
    ensures names { IfOk result (λ p. p.names ≡ names_in (listed (view tree.now))) }
    ensures wrong { IfOk result (λ p. p.wrong ≡ names_wrong (listed (view tree.now))) }
{
    let mut names = Items::new(alloc);
    let mut wrong = None;
    for i in 0..tree.len() {
        let pair = pair_at(tree, i);
        if is_key(pair, b"e") {
            put(&mut names, name_of(pair))?;
            wrong = earlier_of(wrong, not_int(pair));
        }
    }
    Ok(PathSaid { names, wrong })
}

fn order_in(alloc: Global, pair: &Pair) -> Result<OrderSaid, NoMemory>
    requires { HasSoundList (datum_of (entry_view pair.now)) }
    ensures order { IfOk result (λ o. o.order ≡ option_map mentions_in (listed_in (Some (entry_view pair.now)))) }
    ensures wrong { IfOk result (λ o. o.wrong ≡ inside names_wrong (entry_view pair.now)) }
{
    match list_of(pair) {
        Some(tree) => {
            let said = mentions_of(alloc, tree)?;
            Ok(OrderSaid {
                order: Some(said.mentions),
                wrong: said.wrong,
            })
        }
        None => Ok(OrderSaid {
            order: None,
            wrong: Some(place(pair)),
        }),
    }
}

/// The order that a pair says, if there is one.
pub(crate) fn order_of(alloc: Global, pair: Option<&Pair>) -> Result<OrderSaid, NoMemory>
    requires { IfSome pair (λ p. HasSoundList (datum_of (entry_view p.now))) }
    ensures order { IfOk result (λ o. o.order ≡ option_map mentions_in (listed_in (option_map (λ p. entry_view p.now) pair.entry))) }
    ensures wrong { IfOk result (λ o. o.wrong ≡ inside_of names_wrong (option_map (λ p. entry_view p.now) pair.entry)) }
{
    match pair {
        Some(pair) => order_in(alloc, pair),
        None => Ok(OrderSaid {
            order: None,
            wrong: None,
        }),
    }
}

/// The path that a pair says.
pub(crate) fn path_of(alloc: Global, pair: &Pair) -> Result<PathSaid, NoMemory>
    requires { HasSoundList (datum_of (entry_view pair.now)) }
    ensures names { IfOk result (λ p. p.names ≡ path_in (entry_view pair.now)) }
    ensures wrong { IfOk result (λ p. p.wrong ≡ inside names_wrong (entry_view pair.now)) }
{
    match list_of(pair) {
        Some(tree) => names_of(alloc, tree),
        None => Ok(PathSaid {
            names: Items::new(alloc),
            wrong: Some(place(pair)),
        }),
    }
}
