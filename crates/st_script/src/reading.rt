//! Reads the records of a session, in one pass over the text's own list.
ghost use Rattle.gml_core.specs.Sound.{IsSound};
ghost use Rattle.gml_core.specs.Trees.{listed};
ghost use Rattle.gml_core.specs.Views.{entry_view, view};
ghost use Rattle.st_parts.specs.Used.{HasSoundList, datum_of};
ghost use Rattle.st_script.specs.Script.{IsScript, IsScriptFault, first_bad, said};
ghost use Rattle.st_script.specs.declared.fault.ScriptFault.{ScriptFault};
ghost use Rattle.st_script.specs.declared.items.ScriptItem.{ScriptItem};
ghost use Rattle.std.specs.Prelude.{◌≡◌, ◌≢◌, ◌⊎◌, ◌++◌, ◌∷◌, [], List, None, Some, map, option_map, IfErr, IfOk, MatchResult, OnOk};

use crate::fault::ScriptFault;
use crate::items::ScriptItem;
use crate::records::{is_record, record_of};
use gml_core::{Pair, Tree};
use sqlite_items::Items;
use st_parts::parts::put;
use st_parts::used::{pair_at, place};
use std::alloc::Global;
use std::marker::Model;

/// The edits and questions of a session, in file order.
#[derive(Drop)]
pub struct Script {
    items: Items<ScriptItem>,
}

impl Model for Script {
    ghost use Rattle.std.specs.Prelude.{List};
    ghost use Rattle.st_script.specs.declared.items.ScriptItem.{ScriptItem};

    ghost Value = { List ScriptItem };

    ghost view = { λ s. s.items };
}

impl Script {
    /// All items, in file order.
    pub fn items(&self) -> &[ScriptItem]
        ensures { result.now ≡ self.now }
    {
        self.items.as_slice()
    }
}

fn make_script(items: Items<ScriptItem>) -> Script
    ensures { result ≡ items }
{
    Script { items }
}

/// Takes a pair of the text's own list: what it says, where it is a record.
fn take(items: &mut Items<ScriptItem>, pair: &Pair) -> Result<(), ScriptFault>
    requires { HasSoundList (datum_of (entry_view pair.now)) }
    ensures said { OnOk result (map Some items.new ≡ map Some items.old ++ said (entry_view pair.now ∷ [])) }
    ensures good { OnOk result (first_bad (entry_view pair.now ∷ []) ≡ None) }
    ensures bad { IfErr result (λ f. f ≢ ScriptFault.NoMemory → option_map ScriptFault.BadRecord (first_bad (entry_view pair.now ∷ [])) ≡ Some f) }
{
    if !is_record(pair) {
        return Ok(());
    }
    match record_of(pair) {
        Some(item) => {
            put(items, item)?;
            Ok(())
        }
        None => Err(ScriptFault::BadRecord { at: place(pair) }),
    }
}

fn scan(alloc: Global, tree: &Tree) -> Result<Script, ScriptFault>
    requires { IsSound (view tree.now) }
    ensures script { IfOk result (λ s. IsScript (view tree.now) s) }
    ensures fault { IfErr result (λ f. f ≢ ScriptFault.NoMemory → IsScriptFault (view tree.now) f) }
{
    let mut items = Items::new(alloc);
    for i in 0..tree.len() {
        take(&mut items, pair_at(tree, i))?;
    }
    Ok(make_script(items))
}

/// The script of a tree: what the pairs `edit` and `ask` of its own list say, in file order. A key that has no use is
/// ignored, and of several pairs with one key the first is used.
///
/// Errors: `BadRecord`, exactly where one of these pairs isn't a list of the shape of its key, with integers at all its
/// keys; it has the place of the first such pair. `NoMemory`.
/// Cost: one pass over the tree's own list and over the list of each `edit`, and at most five over the list that has the
/// integers of a record; 48 bytes a record.
pub fn read_script(alloc: Global, tree: &Tree) -> Result<Script, ScriptFault>
    requires { IsSound (view tree.now) }
    ensures script { IfOk result (λ s. IsScript (view tree.now) s) }
    ensures fault { IfErr result (λ f. f ≢ ScriptFault.NoMemory → IsScriptFault (view tree.now) f) }

    // There is no other answer, unless memory runs out.
    ensures only_script { (items : List ScriptItem) → IsScript (view tree.now) items → MatchResult result (λ s. s ≡ items) (λ f. f ≡ ScriptFault.NoMemory) }
    ensures only_fault { (f : ScriptFault) → IsScriptFault (view tree.now) f → MatchResult result (λ _. ⊥) (λ e. (e ≡ f) ⊎ (e ≡ ScriptFault.NoMemory)) }
{
    scan(alloc, tree)
}
