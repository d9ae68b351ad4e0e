//! What a pair `edit` or `ask` says.
ghost use Rattle.gml_core.specs.Sound.{IsSound};
ghost use Rattle.gml_core.specs.Trees.{listed};
ghost use Rattle.gml_core.specs.Views.{entry_view, view};
ghost use Rattle.st_parts.specs.Used.{HasSoundList, datum_of, first_int};
ghost use Rattle.st_script.specs.Script.{ask_in, change_by, edit_in, in_list, insert_in, is_change as is_change_by_key, is_record as is_record_by_key, record_by, record_in, remove_in, split_in};
ghost use Rattle.std.specs.Prelude.{◌≡◌};

use crate::items::ScriptItem;
use gml_core::{Pair, Tree};
use st_parts::used::{first_pair, int_of_first, is_key, list_of, pair_at};

/// The integer of the first pair with the key.
fn int_at(tree: &Tree, key: &[u8]) -> Option<i64>
    requires { IsSound (view tree.now) }
    ensures { result ≡ first_int key.now (listed (view tree.now)) }
{
    int_of_first(first_pair(tree, key))
}

fn split_of(tree: &Tree) -> Option<ScriptItem>
    requires { IsSound (view tree.now) }
    ensures { result ≡ split_in (listed (view tree.now)) }
{
    let edge = int_at(tree, b"e")?;
    let vertex = int_at(tree, b"vertex")?;
    let new_edge = int_at(tree, b"edge")?;
    Some(ScriptItem::Split {
        edge,
        vertex,
        new_edge,
    })
}

fn insert_of(tree: &Tree) -> Option<ScriptItem>
    requires { IsSound (view tree.now) }
    ensures { result ≡ insert_in (listed (view tree.now)) }
{
    let edge = int_at(tree, b"edge")?;
    let tail = int_at(tree, b"tail")?;
    let tail_after = int_at(tree, b"tailafter")?;
    let head = int_at(tree, b"head")?;
    let head_after = int_at(tree, b"headafter")?;
    Some(ScriptItem::Insert {
        edge,
        tail,
        tail_after,
        head,
        head_after,
    })
}

fn remove_of(tree: &Tree) -> Option<ScriptItem>
    requires { IsSound (view tree.now) }
    ensures { result ≡ remove_in (listed (view tree.now)) }
{
    let edge = int_at(tree, b"e")?;
    Some(ScriptItem::Remove { edge })
}

fn ask_of(tree: &Tree) -> Option<ScriptItem>
    requires { IsSound (view tree.now) }
    ensures { result ≡ ask_in (listed (view tree.now)) }
{
    let from = int_at(tree, b"from")?;
    let to = int_at(tree, b"to")?;
    Some(ScriptItem::Ask { from, to })
}

/// Whether a pair says which edit it is.
fn is_change(pair: &Pair) -> bool
    ensures { result ≡ is_change_by_key (entry_view pair.now) }
{
    is_key(pair, b"split") || is_key(pair, b"insert") || is_key(pair, b"remove")
}

/// What a pair `split`, `insert` or `remove` says.
fn change_of(pair: &Pair) -> Option<ScriptItem>
    requires { HasSoundList (datum_of (entry_view pair.now)) }
    ensures { result ≡ in_list change_by (entry_view pair.now) }
{
    let tree = list_of(pair)?;
    if is_key(pair, b"split") {
        split_of(tree)
    } else if is_key(pair, b"insert") {
        insert_of(tree)
    } else {
        remove_of(tree)
    }
}

fn edit_of(tree: &Tree) -> Option<ScriptItem>
    requires { IsSound (view tree.now) }
    ensures { result ≡ edit_in (listed (view tree.now)) }
{
    for i in 0..tree.len() {
        let pair = pair_at(tree, i);
        if is_change(pair) {
            return change_of(pair);
        }
    }
    None
}

/// Whether a pair of the text's own list is a record.
pub(crate) fn is_record(pair: &Pair) -> bool
    ensures { result ≡ is_record_by_key (entry_view pair.now) }
{
    is_key(pair, b"edit") || is_key(pair, b"ask")
}

/// What a record says; `None` where its value hasn't the shape of its key.
pub(crate) fn record_of(pair: &Pair) -> Option<ScriptItem>
    requires { HasSoundList (datum_of (entry_view pair.now)) }
    ensures { result ≡ record_in (entry_view pair.now) }
{
    let tree = list_of(pair)?;
    if is_key(pair, b"edit") {
        edit_of(tree)
    } else {
        ask_of(tree)
    }
}
