//! Laws of text edits. The functions do nothing: the contract is the law.
ghost use Rattle.text_edit.specs.Applied.{OnlyMemoryRefuses};
ghost use Rattle.text_edit.specs.Empty.{EmptyChangesNothing};
ghost use Rattle.text_edit.specs.Inverse.{InverseUndoes};

/// The inverse of an edit, made in the new text, gives the old text back.
pub fn inverse_undoes()
    ensures { InverseUndoes }
{}

/// An edit without the replacements that change nothing gives the same text.
pub fn empty_changes_nothing()
    ensures { EmptyChangesNothing }
{}

/// Of an edit that can be made in a text, `apply` and `invert` are refused for memory alone.
pub fn only_memory_refuses()
    ensures { OnlyMemoryRefuses }
{}
