//! What the definitions say together. The function does nothing, and its contract is a law.
ghost use Rattle.std.specs.Prelude.{◌≡◌, ◌⊎◌, List};
ghost use Rattle.gml_core.specs.Trees.{Entries};
ghost use Rattle.st_script.specs.Script.{IsScript, IsScriptFault};
ghost use Rattle.st_script.specs.declared.fault.ScriptFault.{ScriptFault};
ghost use Rattle.st_script.specs.declared.items.ScriptItem.{ScriptItem};

/// A tree has exactly one of a script and a first bad record.
pub fn one_script()
    ensures some { (text : Entries) → ((items : List ScriptItem) × IsScript text items) ⊎ ((f : ScriptFault) × IsScriptFault text f) }
    ensures script { (text : Entries) (s t : List ScriptItem) → IsScript text s → IsScript text t → s ≡ t }
    ensures fault { (text : Entries) (f g : ScriptFault) → IsScriptFault text f → IsScriptFault text g → f ≡ g }
    ensures apart { (text : Entries) (s : List ScriptItem) (f : ScriptFault) → IsScript text s → IsScriptFault text f → ⊥ }
{}
