//! What the definitions of used pairs say together. Each function does nothing, and its contract is a law.
ghost use Rattle.std.specs.Prelude.{List};
ghost use Rattle.gml_core.specs.Trees.{Entry};
ghost use Rattle.st_parts.specs.Kinds.{bad_kind};
ghost use Rattle.st_parts.specs.WrongKinds.{text, IsWrongAt, IsEarliest};

/// The place of a wrong kind in a text is the least one at which a used pair has a value of another kind than it has
/// to have by the rows of the format, and there is none where each used pair has a value of its kind.
pub fn wrong_kinds()
    ensures { (es : List Entry) → IsEarliest (IsWrongAt text es) (bad_kind es) }
{}
