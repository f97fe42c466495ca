//! Laws of changes of a tree. The functions do nothing: the contract is the law.
ghost use Rattle.tree_edit_model.specs.Texts.{ChangedText, EditsAreOfText};
ghost use Rattle.tree_edit_model.specs.Moved.{KeptPlacesMove, UnchangedStays};
ghost use Rattle.tree_edit_model.specs.Single.{OneChangeReplaces};

/// The text of a tree with changes is the old text with the edit that the changes are: its ranges
/// are in order and do not overlap. So each byte outside of them stays.
pub fn changed_text()
    ensures { ChangedText }
{}

/// The ranges of that edit are within the text of the tree, on character boundaries.
pub fn edits_are_of_text()
    ensures { EditsAreOfText }
{}

/// What is not replaced, nor inside something that is, is found at its new place: the same node or
/// token, with the changes inside it made. So a subtree without changes is unchanged.
pub fn kept_places_move()
    ensures { KeptPlacesMove }
{}

/// A tree without changes is the same tree.
pub fn unchanged_stays()
    ensures { UnchangedStays }
{}

/// One element in the place of another, not the root, is the tree with that place replaced: what
/// `SyntaxNode::replace_with` returns.
pub fn one_change_replaces()
    ensures { OneChangeReplaces }
{}
